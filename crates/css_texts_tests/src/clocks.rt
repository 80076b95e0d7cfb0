//! The watch over one clock of a schedule.

ghost use Rattle.std.specs.Prelude.{◌≡◌, ◌<◌, ◌≤◌, ◌^◌, unsigned_abs};

use crate::common::{check_that, next_word};
use css_model::LIMIT;
use css_moments::{Drift, DriftFault};
use std::alloc::Global;
use std::process::Abort;

/// A nanosecond, in the unit of an excess.
const NANOSECOND: i128 = 256_000_000;

/// 1 percent, in 1/256 ppm.
const PERCENT: u32 = 2_560_000;

/// The number of a line, true time, and what the clock showed there.
type Shown = (u64, u64, u64);

const BROKEN: Result<(), DriftFault> = Err(DriftFault::Broken {
    earlier: 1,
    excess: NANOSECOND,
});

#[test]
fn an_oscillator_may_gain_and_lose_its_error_and_a_nanosecond(rt: HostRuntime) {
    for (value, expected) in [
        (2011, Ok(())),
        (2012, BROKEN),
        (1989, Ok(())),
        (1988, BROKEN),
    ] {
        let mut drift = Drift::new(PERCENT);
        drift.add(1, 0, 1000).expect(&rt, "the first line");
        let added = drift.add(2, 1000, value);
        check_that(&rt, added == expected, "the second line");
    }
}

#[test]
fn the_greatest_numbers_fit(rt: HostRuntime) {
    let mut drift = Drift::new(25_600_000);
    drift.add(1, 0, 0).expect(&rt, "the first line");
    let earlier = 1;
    let excess = 989_560_464_998_399_999_513_600_000;
    let broken = Err(DriftFault::Broken { earlier, excess });
    let added = drift.add(2, LIMIT - 1, 0);
    check_that(&rt, added == broken, "the greatest excess");
    let added = drift.add(u64::MAX, LIMIT - 1, LIMIT - 1);
    check_that(&rt, added.is_ok(), "the last line");
}

fn difference(a: u64, b: u64) -> i128
    ensures { unsigned_abs result < 2 ^ 64 }
{
    i128::from(a) - i128::from(b)
}

/// How much more a clock went than true time.
fn gained(earlier: Shown, now: Shown) -> i128
    ensures { unsigned_abs result < 2 ^ 65 }
{
    difference(now.2, earlier.2) - difference(now.1, earlier.1)
}

fn times(factor: u32, number: i128) -> i128
    requires { unsigned_abs number < 2 ^ 65 }
    ensures { unsigned_abs result < 2 ^ 97 }
{
    i128::from(factor) * number
}

/// By how much a clock with this error broke it between two lines, by the definition.
fn plain_excess(error: u32, earlier: Shown, now: Shown) -> i128 {
    let allowed = times(error, difference(now.1, earlier.1));
    times(256_000_000, gained(earlier, now).abs()) - allowed - NANOSECOND
}

/// The line with the greatest excess above 0, by a scan of these.
fn worst(error: u32, lately: &[Shown], now: Shown) -> Option<(u64, i128)> {
    let mut worst: Option<(u64, i128)> = None;
    for earlier in lately {
        let excess = plain_excess(error, *earlier, now);
        let greatest = match worst {
            None => 0,
            Some((_, greatest)) => greatest,
        };
        if excess > greatest {
            worst = Some((earlier.0, excess));
        }
    }
    worst
}

/// The verdict on a line by a scan of all lines since the last sleep, and of the last line.
fn plain_verdict(
    error: u32,
    last: Option<Shown>,
    lately: &[Shown],
    now: Shown,
) -> Result<(), DriftFault> {
    let (earlier, excess) = match last {
        Some(last) if now.1 < last.1 => (last.0, difference(last.1, now.1)),
        _ => match worst(error, lately, now) {
            None => return Ok(()),
            Some(worst) => worst,
        },
    };
    Err(DriftFault::Broken { earlier, excess })
}

/// What a clock shows at a line. True time rises by 5 us from line to line, but at one line in 16 it is ahead by up to
/// 50 us, and then falls. The clock is off by less than `spread` ns. Every 200 lines it slept.
fn drawn(word: u64, line: u64, spread: u64) -> Shown
    requires line { line < 10000 }
    requires spread { 0 < spread }
    ensures line { result.0 ≡ line }
    ensures time { result.1 < LIMIT }
    ensures value { result.2 < LIMIT }
{
    let ahead = if word % 16 == 0 {
        word / 16 % 50_000
    } else {
        0
    };
    let time = line * 5000 + ahead;
    let off = word / 320_000 % spread;
    let value = 1_000_000_000 + time - line / 200 * 77_777 + off;
    (line, time, value)
}

/// The verdicts on 2,000 drawn lines are those of a scan. It tells how many lines were refused for true time that fell,
/// and how many for their drift, whose excess has a much smaller unit.
fn watch(rt: &impl Abort, alloc: Global, error: u32, spread: u64) -> (u64, u64)
    requires error { error ≤ 25600000 }
    requires spread { 0 < spread }
{
    let mut drift = Drift::new(error);
    let mut last = None;
    let mut lately = Vec::new(alloc);
    let mut word: u64 = 1;
    let (mut fell, mut drifted): (u64, u64) = (0, 0);
    for line in 1..2000 {
        word = next_word(word);
        if line % 200 == 0 {
            drift.slept();
            lately.clear();
        }
        let now = drawn(word >> 20, line, spread);
        let expected = plain_verdict(error, last, &lately, now);
        let verdict = drift.add(now.0, now.1, now.2);
        check_that(rt, verdict == expected, "a drawn line");
        match verdict {
            Ok(()) => {
                last = Some(now);
                lately.push(now).expect(rt, "memory");
            }
            Err(DriftFault::Broken { excess, .. }) if excess < 100_000 => {
                fell = fell.wrapping_add(1);
            }
            Err(_) => drifted = drifted.wrapping_add(1),
        }
    }
    (fell, drifted)
}

#[test]
fn a_scan_of_all_lines_finds_the_same(rt: HostRuntime) {
    for (error, spread) in [
        (0, 2),
        (0, 4),
        (12_800, 3),
        (PERCENT, 600),
        (25_600_000, 4000),
    ] {
        let (fell, drifted) = watch(&rt, rt.alloc(), error, spread);
        check_that(&rt, fell > 100, "true time falls");
        check_that(&rt, (drifted > 100) == (spread > 2), "the clock drifts");
    }
}
