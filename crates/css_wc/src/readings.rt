ghost use Rattle.std.specs.Prelude.{◌≡◌, ◌≤◌, ◌<◌, ◌≤ℤ◌, pos};
ghost use Rattle.css_model.specs.Wire as wire;
ghost use Rattle.css_model.specs.Numbers as numbers;
ghost use Rattle.css_wc.specs.Precision.{IsRoundedUp};

use css_model::{LIMIT, Stamp};

const SECOND: u64 = 1_000_000_000;

/// The time of a datagram that stands for a reading, in nanoseconds below 2^32 seconds.
pub fn stamp_of(reading: u64) -> Stamp
    requires { reading < LIMIT }
    ensures value { result ≡ wire.stamp_of reading }
    ensures nanoseconds { result.nanoseconds < wire.second }
    ensures read_back { wire.reading_of result ≡ reading }
{
    Stamp {
        seconds: (reading / SECOND) as u32,
        nanoseconds: (reading % SECOND) as u32,
    }
}

/// The reading in nanoseconds that a time of a datagram stands for. Its nanoseconds are below 10^9.
pub fn reading(stamp: Stamp) -> u64
    requires { stamp.nanoseconds < wire.second }
    ensures value { result ≡ wire.reading_of stamp }
    ensures range { result < LIMIT }
    ensures written_back { wire.stamp_of result ≡ stamp }
{
    u64::from(stamp.seconds) * SECOND + u64::from(stamp.nanoseconds)
}

/// The precision in nanoseconds that a datagram's exponent stands for: `10^9 * 2^exponent`, rounded up. The exponent is
/// at most 30.
pub fn precision_ns(exponent: i8) -> u64
    requires { exponent ≤ℤ pos 30 }
    ensures value { result ≡ numbers.precision_ns exponent }
    ensures rounded_up { IsRoundedUp exponent result }
    ensures range { result ≤ numbers.precision_ns (pos 30) }
{
    if exponent >= 0 {
        SECOND << exponent
    } else if exponent > -30 {
        SECOND.div_ceil(1 << -exponent)
    } else {
        1
    }
}
