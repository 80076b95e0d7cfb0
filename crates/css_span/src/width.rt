ghost use Rattle.std.specs.Prelude.{◌≡◌, ◌<◌, ◌≤◌, ◌^◌, ◌≤ℤ◌, ◌*ℤ◌, ◌+ℤ◌, ◌-ℤ◌, pos, unsigned_abs};
ghost use Rattle.css_model.specs.WallClock as wall_clock;
ghost use Rattle.css_span.specs.WallSpans.{span_of, IsNear};

use crate::answer::{Answer, Local};
use css_model::LIMIT;
use css_num::{Span, ceil_div, floor_div};

/// One whole, in the unit of the errors, 1/256 ppm.
const WHOLE: u32 = 256_000_000;

/// The width of an answer's span at a reading before its ends are rounded, as a whole number: it is multiplied by `(F +
/// e) * (F - e)`, where `e` is the companion's error and `F` is 256,000,000. It is below zero where the times
/// contradict the declared precision and errors.
#[tactic(auto, unfolding(css_model::specs::WallClock::scaled_width))]
pub fn scaled_width(answer: &Answer, local: &Local, reading: u64) -> i128
    requires { reading < LIMIT }
    ensures { result ≡ wall_clock.scaled_width local.now answer.now reading }
{
    let upper = times(upper_end(answer, local, reading), WHOLE + local.error);
    let lower = times(lower_end(answer, local, reading), WHOLE - local.error);
    less(upper, lower)
}

/// The span of the television's wall clock, in nanoseconds, that an answer leaves possible at this reading of the
/// companion's clock.
///
/// The lower end is the transmit time and what the wall clock has gone since, at its slowest. The upper end is the
/// receive time and what it has gone since, at its fastest. Both are widened by the precisions and rounded outward. The
/// scaled width at the reading isn't below zero.
pub fn span(answer: &Answer, local: &Local, reading: u64) -> Span
    requires range { reading < LIMIT }
    requires possible { pos 0 ≤ℤ wall_clock.scaled_width local.now answer.now reading }
    ensures value { result ≡ span_of local.now reading answer.now }
    ensures near { IsNear result }
{
    Span {
        lo: lowest(answer, local, reading),
        hi: highest(answer, local, reading),
    }
}

/// The width of an answer's span at a reading, in nanoseconds: its upper end less its lower end.
pub fn width_at(answer: &Answer, local: &Local, reading: u64) -> i128
    requires { reading < LIMIT }
    ensures { result ≡ wall_clock.hi local.now answer.now reading -ℤ wall_clock.lo local.now answer.now reading }
{
    highest(answer, local, reading) - lowest(answer, local, reading)
}

#[tactic(auto, unfolding(css_model::specs::WallClock::lo))]
fn lowest(answer: &Answer, local: &Local, reading: u64) -> i128
    requires { reading < LIMIT }
    ensures value { result ≡ wall_clock.lo local.now answer.now reading }
    ensures local { wall_clock.IsLocal local.now }
    ensures near { unsigned_abs result ≤ 2 ^ 68 }
{
    floor_div(
        lower_end(answer, local, reading),
        i128::from(WHOLE + local.error),
    )
}

#[tactic(auto, unfolding(css_model::specs::WallClock::hi))]
fn highest(answer: &Answer, local: &Local, reading: u64) -> i128
    requires { reading < LIMIT }
    ensures value { result ≡ wall_clock.hi local.now answer.now reading }
    ensures near { unsigned_abs result ≤ 2 ^ 68 }
{
    ceil_div(
        upper_end(answer, local, reading),
        i128::from(WHOLE - local.error),
    )
}

#[tactic(auto, unfolding(css_model::specs::WallClock::lower))]
fn lower_end(answer: &Answer, local: &Local, reading: u64) -> i128
    requires { reading < LIMIT }
    ensures value { result ≡ wall_clock.lower local.now answer.now reading }
    ensures bound { unsigned_abs result < 2 ^ 95 }
{
    let sent = times_difference(WHOLE + local.error, answer.t3, answer.precision + 1);
    let since = times_difference(
        WHOLE - answer.error,
        reading,
        answer.t4 + 2 * local.precision + 1,
    );
    sum(sent, since)
}

#[tactic(auto, unfolding(css_model::specs::WallClock::upper))]
fn upper_end(answer: &Answer, local: &Local, reading: u64) -> i128
    requires { reading < LIMIT }
    ensures value { result ≡ wall_clock.upper local.now answer.now reading }
    ensures bound { unsigned_abs result < 2 ^ 95 }
{
    let received = times_difference(WHOLE - local.error, answer.t2 + answer.precision + 1, 0);
    let since = times_difference(
        WHOLE + answer.error,
        reading + 2 * local.precision + 1,
        answer.t1,
    );
    sum(received, since)
}

fn times_difference(factor: u32, a: u64, b: u64) -> i128
    requires { factor < 2 ^ 29 }
    ensures value { result ≡ pos factor *ℤ (pos a -ℤ pos b) }
    ensures bound { unsigned_abs result < 2 ^ 93 }
{
    i128::from(factor) * difference(a, b)
}

fn difference(a: u64, b: u64) -> i128
    ensures value { result ≡ pos a -ℤ pos b }
    ensures bound { unsigned_abs result < 2 ^ 64 }
{
    i128::from(a) - i128::from(b)
}

fn times(a: i128, factor: u32) -> i128
    requires large { unsigned_abs a < 2 ^ 95 }
    requires small { factor < 2 ^ 29 }
    ensures value { result ≡ a *ℤ pos factor }
    ensures bound { unsigned_abs result < 2 ^ 124 }
{
    a * i128::from(factor)
}

fn sum(a: i128, b: i128) -> i128
    requires a { unsigned_abs a < 2 ^ 93 }
    requires b { unsigned_abs b < 2 ^ 93 }
    ensures value { result ≡ a +ℤ b }
    ensures bound { unsigned_abs result < 2 ^ 95 }
{
    a + b
}

fn less(a: i128, b: i128) -> i128
    requires a { unsigned_abs a < 2 ^ 124 }
    requires b { unsigned_abs b < 2 ^ 124 }
    ensures { result ≡ a -ℤ b }
{
    a - b
}
