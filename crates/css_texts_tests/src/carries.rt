//! Reports that are carried on. `tests/carrying.py` has the first rows too, for the programs of examples/.
ghost use Rattle.std.specs.Prelude.{◌≤◌, ◌<◌, IfOk};
ghost use Rattle.css_carry.specs.CarriedReports.{CanBeCarried};
ghost use Rattle.css_companion.specs.Reports.{IsTimed};

use crate::common::check_that;
use css_carry::carried_report;
use css_companion::{Cause, Report, Timing};
use css_model::LIMIT;
use css_num::{Rate, Span};
use css_span::Local;
use css_watch_lines::{Known, Ticks};
use std::process::Abort;

/// That of the pages: 500 ppm, and readings that are off by up to 1,000 ns.
#[rattlefmt::skip]
const FAIR: Local = Local { error: 128_000, precision: 1000 };

/// The worst clock that a companion may have.
#[rattlefmt::skip]
const WORST: Local = Local { error: 2_560_000, precision: 1_000_000_000 };

/// A report of the programme before, whose timeline has 90,000 ticks a second.
#[rattlefmt::skip]
fn before(rt: &impl Abort) -> Known
    ensures { CanBeCarried result.error result.wall }
{
    Known {
        ticks: Ticks { lo: 629_865, hi: 630_135 },
        agreed: Span { lo: 6_999_500_000, hi: 7_000_500_000 },
        wall: Span { lo: 6_998_500_000, hi: 7_001_500_000 },
        error: 128_000,
        rate: Rate::of(1, 90_000).expect(rt, "a rate"),
        speed: 1,
    }
}

/// Speed, units per second and units per tick, and the ticks half a second after the report.
#[rattlefmt::skip]
const ROWS: [(i32, u32, u32, i128, i128); 6] = [
    (1, 1000, 1, 297, 302),
    (1, 90_000, 1, 17_919, 18_280),
    (0, 1000, 1, 100, 100),
    (-2, 1000, 1, -305, -296),
    (64, 1_000_000_000, 1, 12_671_888_036, 12_928_144_420),
    (1, 1, 1001, 100, 100),
];

/// The timing of another programme, which is at tick 100 when the wall clock shows 7.3 s.
#[rattlefmt::skip]
fn timing(rt: &impl Abort, speed: i32, rate: Option<Rate>) -> Timing
    ensures { IsTimed result }
{
    assert!(rt; -64 <= speed && speed <= 64);
    Timing { content: 100, wall: 7_300_000_000, speed, rate: rate.expect(rt, "a rate") }
}

#[test]
fn the_rate_is_that_of_the_last_state(rt: HostRuntime) {
    let told = before(&rt);
    for (speed, units_per_second, units_per_tick, lo, hi) in ROWS {
        let timing = timing(&rt, speed, Rate::of(units_per_tick, units_per_second));
        let report = carried_report(
            told.wall,
            told.error,
            &FAIR,
            1_000_000_000,
            &Ok(timing),
            1_500_000_000,
        );
        let right = report == Report::Ticks { lo, hi };
        assert!(rt;
            right,
            "at speed {speed}, {units_per_second}/{units_per_tick}: {report:?}"
        );
    }
}

#[test]
fn without_a_timing_there_is_its_cause(rt: HostRuntime) {
    for cause in [Cause::NoRate, Cause::Unavailable] {
        let told = before(&rt);
        let report = carried_report(told.wall, told.error, &FAIR, 5, &Err(cause), 5);
        check_that(&rt, report == Report::None(cause), "a cause");
    }
}

#[rattlefmt::skip]
#[test]
fn carried_numbers_may_be_at_their_ends(rt: HostRuntime) {
    let end = 147_573_952_589_676_412_928;
    let widest = Span { lo: -end, hi: end };
    let rate = Rate::of(1, 1_000_000_000).expect(&rt, "a rate");
    let timing = Timing { content: i64::MAX, wall: 0, speed: 64, rate };
    let report = carried_report(widest, 25_600_000, &WORST, 0, &Ok(timing), LIMIT - 1);
    let (lo, hi) = (-9_190_568_884_658_475_255_745, 9_759_376_234_522_811_869_951);
    check_that(&rt, report == Report::Ticks { lo, hi }, "the ends");
}
