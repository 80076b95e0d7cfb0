ghost use Rattle.std.specs.Prelude.{◌<◌, IfSome, unsigned_abs};

use crate::common::{check_that, next_word};
use css_window::Chosen::{self, Fits, Nothing};
use css_window::{Window, choose};
use std::alloc::Global;
use std::process::Abort;

/// The greatest delay of a television, in nanoseconds.
const TOP: u64 = 10_000_000_000;

/// The greatest offset.
const FAR: i128 = 21_267_647_932_558_653_966_460_912_964_485_513_215;

/// The least and the greatest delay at which a plain scan looks for a bound of the generated windows.
const SCANNED: (i64, i64) = (-200, 200);

#[rattlefmt::skip]
const FREE: Window = Window { ups: 90_000, own: 0, earliest: None, latest: None };

/// From 40 ms on.
#[rattlefmt::skip]
const LATE: Window = Window { earliest: Some(3_600_000_000_000), ..FREE };

/// Up to 30 ms.
#[rattlefmt::skip]
const SOON: Window = Window { latest: Some(2_700_000_000_000), ..FREE };

/// Only at a delay of 1.5 ns, which is no whole number.
#[rattlefmt::skip]
const BETWEEN: Window = Window { ups: 2, own: -3, earliest: Some(0), latest: Some(0) };

/// The greatest offsets: only at delay 0, and only from about 4 * 10^28 ns on.
#[rattlefmt::skip]
const FARTHEST: Window = Window { ups: 1_000_000_000, own: -FAR, earliest: Some(FAR), latest: Some(-FAR) };

/// Up to the greatest delay.
#[rattlefmt::skip]
const AT_THE_TOP: Window = Window { ups: 1, own: -10_000_000_000, ..BETWEEN };

/// The least delay with the window that decides it, or two windows that no delay fits.
fn check_choice(rt: &impl Abort, windows: &[Window], max_delay: u64, expected: Chosen) {
    assert!(rt;
        max_delay <= TOP && choose(windows, max_delay) == expected,
        "{windows:?}"
    );
}

#[rattlefmt::skip]
#[test]
fn the_least_delay_or_two_windows_are_told(rt: HostRuntime) {
    check_choice(&rt, &[], TOP, Fits { delay: 0, by: None });
    check_choice(&rt, &[SOON, FREE], TOP, Fits { delay: 0, by: None });
    check_choice(&rt, &[FREE, LATE, LATE], TOP, Fits { delay: 40_000_000, by: Some(1) });
    check_choice(&rt, &[LATE, AT_THE_TOP], TOP, Fits { delay: TOP, by: Some(1) });
    check_choice(&rt, &[SOON, LATE, SOON, LATE], TOP, Nothing { low: Some(1), high: Some(0) });
    check_choice(&rt, &[AT_THE_TOP], TOP - 1, Nothing { low: Some(0), high: None });
    check_choice(&rt, &[BETWEEN], TOP, Nothing { low: Some(0), high: Some(0) });
    check_choice(&rt, &[FARTHEST], TOP, Nothing { low: Some(0), high: Some(0) });
}

/// The offset of a window's content at a delay.
fn offset(window: &Window, delay: i64) -> i128 {
    let turned = i128::from(window.ups).wrapping_mul(i128::from(delay));
    window.own.wrapping_add(turned)
}

fn first_early(windows: &[Window], delay: i64) -> Option<usize> {
    for (place, window) in windows.iter().enumerate() {
        if offset(window, delay) < window.earliest.unwrap_or(i128::MIN) {
            return Some(place);
        }
    }
    None
}

fn first_late(windows: &[Window], delay: i64) -> Option<usize> {
    for (place, window) in windows.iter().enumerate() {
        if offset(window, delay) > window.latest.unwrap_or(i128::MAX) {
            return Some(place);
        }
    }
    None
}

/// The first window that comes too early at the last delay at which any does.
fn plain_low(windows: &[Window]) -> Option<usize> {
    let mut found = None;
    for delay in 0..SCANNED.1 {
        found = first_early(windows, delay).or(found);
    }
    found
}

/// The first window that comes too late at the first delay at which any does.
fn plain_high(windows: &[Window], max_delay: i64) -> Option<usize> {
    for delay in SCANNED.0..max_delay.wrapping_add(1) {
        if let Some(i) = first_late(windows, delay) {
            return Some(i);
        }
    }
    None
}

/// What a scan of every delay finds.
fn plain_choice(windows: &[Window], max_delay: i64) -> Chosen {
    for delay in 0..max_delay.wrapping_add(1) {
        if first_early(windows, delay).is_none() && first_late(windows, delay).is_none() {
            let by = match delay {
                0 => None,
                _ => first_early(windows, delay.wrapping_sub(1)),
            };
            return Fits {
                delay: delay.unsigned_abs(),
                by,
            };
        }
    }
    Nothing {
        low: plain_low(windows),
        high: plain_high(windows, max_delay),
    }
}

fn drawn_bound(word: u64, least: i8) -> Option<i128>
    ensures { IfSome result (λ bound. unsigned_abs bound < 1000) }
{
    if word % 3 == 0 {
        None
    } else {
        Some(i128::from(word / 3 % 60) + i128::from(least))
    }
}

/// A window whose bounds are within 100 ns of delay 0.
fn drawn(word: u64) -> Window {
    Window {
        ups: 1 + (word % 3) as u32,
        own: i128::from(word / 3 % 40) - 20,
        earliest: drawn_bound(word / 120, -20),
        latest: drawn_bound(word / 21_600, -10),
    }
}

/// Up to five windows.
fn drawn_windows(rt: &impl Abort, alloc: Global, word: u64) -> Vec<Window> {
    let mut windows = Vec::new(alloc);
    let mut word = word;
    for _ in 0..word >> 40 & 3 {
        word = next_word(word);
        windows.push(drawn(word >> 33)).expect(rt, "memory");
    }
    windows
}

fn compare(rt: &impl Abort, windows: &[Window], max_delay: u32) -> bool {
    let plain = plain_choice(windows, i64::from(max_delay));
    let chosen = choose(windows, u64::from(max_delay));
    assert!(rt; chosen == plain, "{windows:?} up to {max_delay}");
    matches!(chosen, Fits { .. })
}

#[test]
fn chooses_what_a_scan_of_every_delay_finds(rt: HostRuntime) {
    let mut word = 1;
    let mut fitting: u32 = 0;
    for _ in 0..2000 {
        word = next_word(word);
        let windows = drawn_windows(&rt, rt.alloc(), word);
        let fits = compare(&rt, &windows, (word >> 50) as u32 % 40);
        fitting = fitting.wrapping_add(u32::from(fits));
    }
    let about_half = 500 < fitting && fitting < 1500;
    check_that(&rt, about_half, "about half of them fit");
}
