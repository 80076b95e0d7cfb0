ghost use Rattle.std.specs.Prelude.{◌≡◌, ◌<◌, ◌≤◌, ◌*◌, ◌^◌, pos, ◌-ℤ◌, ◌*ℤ◌, unsigned_abs};
ghost use Rattle.css_moments.specs.Numbers as numbers;

use css_model::{F, LIMIT};

/// How far a clock is ahead of true time, less what its oscillator may have gained by then, in 1/256,000,000
/// nanoseconds. The error is in 1/256 ppm, and true time and the clock's value are in nanoseconds.
pub(crate) fn lead(error: u32, time: u64, value: u64) -> i128
    requires error { error ≤ 25600000 }
    requires time { time < LIMIT }
    requires value { value < LIMIT }
    ensures value { result ≡ numbers.lead error time value }
    ensures small { unsigned_abs result < 2 ^ 92 }
{
    scaled(difference(value, time)) - allowed(error, time)
}

/// How far a clock is behind true time, less what its oscillator may have lost by then, in the same units.
pub(crate) fn lag(error: u32, time: u64, value: u64) -> i128
    requires error { error ≤ 25600000 }
    requires time { time < LIMIT }
    requires value { value < LIMIT }
    ensures value { result ≡ numbers.lag error time value }
    ensures small { unsigned_abs result < 2 ^ 92 }
{
    scaled(difference(time, value)) - allowed(error, time)
}

/// A difference of nanoseconds.
fn difference(a: u64, b: u64) -> i128
    requires a { a < LIMIT }
    requires b { b < LIMIT }
    ensures value { result ≡ pos a -ℤ pos b }
    ensures small { unsigned_abs result < LIMIT }
{
    i128::from(a) - i128::from(b)
}

/// Nanoseconds in 1/256,000,000 nanoseconds.
fn scaled(difference: i128) -> i128
    requires { unsigned_abs difference < LIMIT }
    ensures value { result ≡ difference *ℤ pos 256000000 }
    ensures small { unsigned_abs result < 2 ^ 91 }
{
    difference * i128::from(F)
}

/// What an oscillator may gain or lose in a time, in 1/256,000,000 nanoseconds.
fn allowed(error: u32, time: u64) -> i128
    requires error { error ≤ 25600000 }
    requires time { time < LIMIT }
    ensures value { result ≡ pos (error * time) }
    ensures small { error * time < 2 ^ 91 }
{
    i128::from(error) * i128::from(time)
}

/// By how much a number rose, beyond a nanosecond.
pub(crate) fn excess(from: i128, to: i128) -> i128
    requires from { unsigned_abs from < 2 ^ 92 }
    requires to { unsigned_abs to < 2 ^ 92 }
    ensures { result ≡ to -ℤ from -ℤ pos 256000000 }
{
    to - from - i128::from(F)
}
