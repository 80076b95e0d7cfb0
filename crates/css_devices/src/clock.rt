//! The system's two clocks, in whole nanoseconds.
ghost use Rattle.std.specs.Prelude.{◌≡◌, ◌<◌, ◌+◌, ◌↔◌, Some, IfSome, nat_lt};
ghost use Rattle.css_devices.specs.Clocks as clocks;
ghost use Rattle.css_model.specs.declared.TheConstants.{LIMIT};

use crate::shown::Clocks;
use css_model::LIMIT;
use std::time::{Clock, Duration};

/// How much further the system's clock must go than the monotone one where the machine slept.
const SLEEP_NANOS: u64 = 2_000_000_000;

/// A time in nanoseconds, where it is below 2^32 seconds.
fn nanos_of(time: Duration) -> Option<u64>
    ensures { IfSome result (λ nanos. nanos < LIMIT) }
{
    let nanos = time.as_nanos();
    if nanos < u128::from(LIMIT) {
        Some(nanos as u64)
    } else {
        None
    }
}

/// The monotone clock, in nanoseconds, where it can be read and is below 2^32 seconds.
pub fn monotone(clock: &impl Clock) -> Option<u64>
    ensures { IfSome result (λ nanos. nanos < LIMIT) }
{
    match clock.monotonic() {
        Ok(time) => nanos_of(time),
        Err(_) => None,
    }
}

/// The system's clock, in nanoseconds, where it shows a time of 1970 to 2554.
fn system(clock: &impl Clock) -> Option<u64> {
    match clock.since_1970() {
        Ok(time) => u64::try_from(time.as_nanos()).ok(),
        Err(_) => None,
    }
}

/// Reads both clocks, where the monotone one can be read.
pub(crate) fn read_clocks(clock: &impl Clock) -> Option<Clocks> {
    let monotone = monotone(clock)?;
    let system = system(clock);
    Some(Clocks { monotone, system })
}

/// Whether the system's clock rose by over two seconds more than the monotone one.
fn ran_ahead(before: Clocks, now: Clocks, system_before: u64, system_now: u64) -> bool
    ensures { result ≡ nat_lt (now.monotone + system_before + 2000000000) (system_now + before.monotone) }
{
    let expected = u128::from(now.monotone) + u128::from(system_before) + u128::from(SLEEP_NANOS);
    expected < u128::from(system_now) + u128::from(before.monotone)
}

/// Whether the machine slept between these, as far as the system's clock tells.
pub(crate) fn has_slept(before: Clocks, now: Clocks) -> bool
    ensures { result ≡ clocks.has_slept (Some before) now }
{
    match (before.system, now.system) {
        (Some(system_before), Some(system_now)) => ran_ahead(
            before,
            now,
            system_before,
            system_now,
        ),
        _ => false,
    }
}
