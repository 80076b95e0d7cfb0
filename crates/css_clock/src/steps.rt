//! The arithmetic of one step from a clock to its child.

ghost use Rattle.std.specs.Prelude.{◌≡◌, ◌≤◌, ◌<◌, ◌+◌, ◌*◌, ◌^◌, pos, ◌<ℤ◌, ◌-ℤ◌, ◌+ℤ◌, unsigned_abs};
ghost use Rattle.css_num.specs.Spans.{ProductsFit, image_of};
ghost use Rattle.css_clock.specs.Ticks as ticks;

use css_num::{Rate, Span, image};

/// The product of a part of one rate and a part of another.
pub fn parts(own: u32, parent: u32) -> u64
    ensures { result ≡ own * parent }
{
    u64::from(own) * u64::from(parent)
}

/// What the ticks of the parent are multiplied by.
pub fn factor(rate: Rate, parent: Rate, speed: i32) -> i128
    ensures { result ≡ ticks.factor_of rate parent speed }
{
    i128::from(parts(rate.units_per_second, parent.units_per_tick)) * i128::from(speed)
}

/// What the product is divided by.
pub fn divisor(rate: Rate, parent: Rate) -> i128
    ensures value { result ≡ pos (ticks.divisor_of rate parent) }
    ensures positive { pos 0 <ℤ result }
    ensures small { unsigned_abs result ≤ 1000000000000000000 }
{
    i128::from(parts(rate.units_per_tick, parent.units_per_second))
}

/// A number less a number of ticks.
pub fn less(number: i128, ticks: i64) -> i128
    requires { unsigned_abs number ≤ 2 ^ 126 + 2 ^ 63 }
    ensures { result ≡ number -ℤ ticks }
{
    number - i128::from(ticks)
}

/// A number and a number of ticks more.
pub fn more(number: i128, ticks: i64) -> i128
    requires { unsigned_abs number ≤ 2 ^ 126 }
    ensures value { result ≡ ticks +ℤ number }
    ensures near { unsigned_abs result ≤ 2 ^ 126 + 2 ^ 63 }
{
    i128::from(ticks) + number
}

/// The ticks of a parent's span since its tick of the correlation.
pub fn since(span: Span, parent_ticks: i64) -> Span
    requires lo { unsigned_abs span.lo ≤ 2 ^ 126 + 2 ^ 63 }
    requires hi { unsigned_abs span.hi ≤ 2 ^ 126 + 2 ^ 63 }
    ensures { result ≡ ticks.since_of span parent_ticks }
{
    Span {
        lo: less(span.lo, parent_ticks),
        hi: less(span.hi, parent_ticks),
    }
}

/// The span of a clock whose parent went so many ticks since the correlation.
pub fn child_span(since: Span, factor: i128, divisor: i128, child_ticks: i64) -> Span
    requires positive { pos 0 <ℤ divisor }
    requires fits { ProductsFit since factor }
    ensures value { result ≡ ticks.shifted_by (image_of since factor (unsigned_abs divisor)) child_ticks }
    ensures near_lo { unsigned_abs result.lo ≤ 2 ^ 126 + 2 ^ 63 }
    ensures near_hi { unsigned_abs result.hi ≤ 2 ^ 126 + 2 ^ 63 }
{
    let image = near_image(since, factor, divisor);
    Span {
        lo: more(image.lo, child_ticks),
        hi: more(image.hi, child_ticks),
    }
}

/// The image, which is no wider than its products.
fn near_image(since: Span, factor: i128, divisor: i128) -> Span
    requires positive { pos 0 <ℤ divisor }
    requires fits { ProductsFit since factor }
    ensures value { result ≡ image_of since factor (unsigned_abs divisor) }
    ensures near_lo { unsigned_abs result.lo ≤ 2 ^ 126 }
    ensures near_hi { unsigned_abs result.hi ≤ 2 ^ 126 }
{
    image(since, factor, divisor)
}
