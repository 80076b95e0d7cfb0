ghost use Rattle.std.specs.Prelude.{◌≡◌, ◌<◌, ◌^◌, ◌*ℤ◌, ◌-ℤ◌, ◌≤ℤ◌, pos, true, int_lt, unsigned_abs};
ghost use Rattle.css_model.specs.WallClock as wall_clock;

use css_model::LIMIT;
use css_num::{ceil_div, floor_div};
use css_span::{Answer, Local, scaled_width};

/// One whole, in the unit of the errors, 1/256 ppm.
const WHOLE: u32 = 256_000_000;

/// The lower end of an answer's span at a reading, in nanoseconds of the television's wall clock. Unlike a `Span` the
/// two ends may be out of order: at readings where the answer isn't possible.
#[tactic(auto, unfolding(css_model::specs::WallClock::lo))]
pub(crate) fn lowest(answer: &Answer, local: &Local, reading: u64) -> i128
    requires { reading < LIMIT }
    ensures { result ≡ wall_clock.lo local.now answer.now reading }
{
    floor_div(
        lower_end(answer, local, reading),
        i128::from(WHOLE + local.error),
    )
}

/// The upper end likewise.
#[tactic(auto, unfolding(css_model::specs::WallClock::hi))]
pub(crate) fn highest(answer: &Answer, local: &Local, reading: u64) -> i128
    requires { reading < LIMIT }
    ensures { result ≡ wall_clock.hi local.now answer.now reading }
{
    ceil_div(
        upper_end(answer, local, reading),
        i128::from(WHOLE - local.error),
    )
}

/// Whether the span of one answer begins above the upper end of another's.
pub(crate) fn are_apart(low: &Answer, high: &Answer, local: &Local, reading: u64) -> bool
    requires range { reading < LIMIT }
    requires local { wall_clock.IsLocal local.now }
    ensures { result
        ≡ int_lt (wall_clock.hi local.now high.now reading) (wall_clock.lo local.now low.now reading) }
{
    if are_in_order(low, high, local, reading) {
        return false;
    }
    highest(high, local, reading) < lowest(low, local, reading)
}

/// Whether the two ends are known to be in order without a division: by the width of an answer that has both. There is
/// one where the two declare the same precision and error, as the answers of one television mostly do.
fn are_in_order(low: &Answer, high: &Answer, local: &Local, reading: u64) -> bool
    requires range { reading < LIMIT }
    requires local { wall_clock.IsLocal local.now }
    ensures { result ≡ true
        → wall_clock.lo local.now low.now reading ≤ℤ wall_clock.hi local.now high.now reading }
{
    if low.precision != high.precision || low.error != high.error {
        return false;
    }
    let both = Answer {
        t1: high.t1,
        t2: high.t2,
        t3: low.t3,
        t4: low.t4,
        precision: high.precision,
        error: high.error,
    };
    scaled_width(&both, local, reading) >= 0
}

/// The lower end of an answer's span before it is rounded, times `F + e`, where `e` is the companion's error and `F` is
/// one whole in the unit of the errors.
#[tactic(auto, unfolding(css_model::specs::WallClock::lower))]
pub(crate) fn lower_end(answer: &Answer, local: &Local, reading: u64) -> i128
    requires { reading < LIMIT }
    ensures value { result ≡ wall_clock.lower local.now answer.now reading }
    ensures bound { unsigned_abs result < 2 ^ 95 }
{
    let sent = times_difference(WHOLE + local.error, answer.t3, answer.precision + 1);
    let since = times_difference(
        WHOLE - answer.error,
        reading,
        answer.t4 + 2 * local.precision + 1,
    );
    sent + since
}

/// The upper end before it is rounded, times `F - e`.
#[tactic(auto, unfolding(css_model::specs::WallClock::upper))]
pub(crate) fn upper_end(answer: &Answer, local: &Local, reading: u64) -> i128
    requires { reading < LIMIT }
    ensures value { result ≡ wall_clock.upper local.now answer.now reading }
    ensures bound { unsigned_abs result < 2 ^ 95 }
{
    let received = times_difference(WHOLE - local.error, answer.t2 + answer.precision + 1, 0);
    let since = times_difference(
        WHOLE + answer.error,
        reading + 2 * local.precision + 1,
        answer.t1,
    );
    received + since
}

fn times_difference(factor: u32, a: u64, b: u64) -> i128
    requires { factor < 2 ^ 29 }
    ensures value { result ≡ pos factor *ℤ (pos a -ℤ pos b) }
    ensures bound { unsigned_abs result < 2 ^ 93 }
{
    i128::from(factor) * difference(a, b)
}

fn difference(a: u64, b: u64) -> i128
    ensures value { result ≡ pos a -ℤ pos b }
    ensures bound { unsigned_abs result < 2 ^ 64 }
{
    i128::from(a) - i128::from(b)
}
