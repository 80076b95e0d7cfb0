ghost use Rattle.std.specs.Prelude.{◌≡◌, ◌≤◌, pos};
ghost use Rattle.css_model.specs.Numbers as numbers;
ghost use Rattle.css_relay.specs.Precisions as spec;

use css_wc::precision_ns;

/// The exponents that a relay declares, that is 1 ns to 2^30 s.
const LEAST: i8 = -30;

const GREATEST: i8 = 30;

/// The greatest half width that a precision declares, in nanoseconds.
pub(crate) fn greatest_half() -> u64
    ensures { result ≡ numbers.precision_ns (pos 30) }
{
    precision_ns(GREATEST)
}

/// The least exponent whose precision isn't below this half width.
pub(crate) fn exponent_for(half: u64) -> i8
    requires { half ≤ numbers.precision_ns (pos 30) }
    ensures value { result ≡ spec.exponent_for half }
    ensures least { spec.IsLeastExponent half result }
{
    for exponent in LEAST..GREATEST {
        if half <= precision_ns(exponent) {
            return exponent;
        }
    }
    GREATEST
}
