ghost use Rattle.std.specs.Prelude.{◌≡◌, ◌↔◌, ◌<◌, ◌^◌, pos, ◌<ℤ◌, ◌*ℤ◌, unsigned_abs, IsTrue};
ghost use Rattle.std.specs.Option.{SomeIff};
ghost use Rattle.css_num.specs.Spans as spans;

use crate::division::floor_div;
use std::marker::Model;

/// A span of whole numbers, as values of a clock or ticks of a timeline: from
/// `lo` to `hi`, both included, and `lo` is never above `hi`.
#[derive(Clone, Copy, Debug, PartialEq, Eq)]
pub struct Span {
    pub lo: i128,
    pub hi: i128,
}

impl Model for Span {
    ghost use Rattle.std.specs.Prelude.{◌≤ℤ◌};
    ghost use Rattle.css_num.specs.Spans.{Interval};

    ghost Value = { Interval };

    ghost view = { λ a. record { lo = a.lo; hi = a.hi } };

    ghost invariant = { λ a. a.lo ≤ℤ a.hi };

    ghost inverse = { λ a. record { lo = a.lo; hi = a.hi } };
}

/// The products of the ends of a span with a factor are to be below this either
/// way.
const PRODUCT_LIMIT: u128 = 1 << 126;

/// `number * num`, where it is below the limit either way.
fn product(number: i128, num: i128) -> Option<i128>
    ensures { SomeIff result (unsigned_abs (number *ℤ num) < 2 ^ 126) (number *ℤ num) }
{
    let product = number.checked_mul(num)?;
    if product.unsigned_abs() < PRODUCT_LIMIT {
        Some(product)
    } else {
        None
    }
}

/// Whether both ends of the span times `num` are below 2^126 either way, as
/// [`image`] needs.
pub fn fits(span: Span, num: i128) -> bool
    ensures { IsTrue result ↔ spans.ProductsFit span num }
{
    product(span.lo, num).is_some() && product(span.hi, num).is_some()
}

/// `number * num`, where it is below the limit.
fn times(number: i128, num: i128) -> i128
    requires { unsigned_abs (number *ℤ num) < 2 ^ 126 }
    ensures { result ≡ number *ℤ num }
{
    number * num
}

/// `number * num / den`, rounded down.
fn scaled_number(number: i128, num: i128, den: i128) -> i128
    requires positive { pos 0 <ℤ den }
    requires fits { unsigned_abs (number *ℤ num) < 2 ^ 126 }
    ensures { result ≡ spans.scaled_number number num (unsigned_abs den) }
{
    floor_div(times(number, num), den)
}

/// The least span that has `number * num / den`, rounded down, for each number of `span`. Its ends are what the ends of
/// `span` become, the lesser first.
///
/// `den` is above 0, and [`fits`] is true of `span` and `num`.
pub fn image(span: Span, num: i128, den: i128) -> Span
    requires positive { pos 0 <ℤ den }
    requires fits { spans.ProductsFit span num }
    ensures value { result ≡ spans.image_of span num (unsigned_abs den) }
    ensures meaning { spans.IsImage span num (unsigned_abs den) result }
{
    let first = scaled_number(span.lo, num, den);
    let last = scaled_number(span.hi, num, den);
    Span {
        lo: first.min(last),
        hi: first.max(last),
    }
}
