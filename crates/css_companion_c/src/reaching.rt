//! At which values of the wall clock a tick is presented, and at which readings an answer allows them.
ghost use Rattle.std.specs.Prelude.{◌≡◌, ◌+◌, ◌*◌, ◌^◌, ◌≤◌, ◌<◌, ◌↔◌, ℕ, ℤ, pos, ◌+ℤ◌, ◌-ℤ◌, ◌*ℤ◌, ◌≤ℤ◌};
ghost use Rattle.std.specs.Prelude.{unsigned_abs};
ghost use Rattle.css_model.specs.WallClock.{lo, hi};
ghost use Rattle.css_companion.specs.Reports.{IsTimed};
ghost use Rattle.css_companion_c.specs.Leads as leads;
ghost use Rattle.css_companion_c.specs.When.{IsPresented, IsMet, AreMet};

use crate::lead::{distance, tick_length};
use css_client::{Answer, Local};
use css_companion::Timing;
use css_model::LIMIT;
use css_num::ceil_div;

/// Whole numbers: those from `from` on that are before `end`.
#[derive(Clone, Copy, Drop)]
pub(crate) struct Stretch {
    pub(crate) from: i128,
    pub(crate) end: i128,
}

/// More nanoseconds than lie between any two values of the wall clock that a span can have.
const FAR: i128 = 1 << 71;

/// One whole, in the unit of the errors, 1/256 ppm.
const WHOLE: u32 = 256_000_000;

/// A quotient, rounded up.
fn times_in(number: i128, divisor: u64) -> i128
    requires small { unsigned_abs number ≤ 2 ^ 125 }
    requires positive { 0 < divisor }
    ensures meaning { (times : ℤ) → (result ≤ℤ times) ↔ (number ≤ℤ (times *ℤ pos divisor)) }
    ensures small { unsigned_abs result ≤ unsigned_abs number }
{
    ceil_div(number, i128::from(divisor))
}

/// A number of nanoseconds, cut to what makes a difference. So there is room to go on in 128 bits.
fn bounded(number: i128) -> i128
    ensures meaning { (passed : ℤ) → unsigned_abs passed ≤ 2 ^ 70 → (result ≤ℤ passed) ↔ (number ≤ℤ passed) }
    ensures near { unsigned_abs result ≤ 2 ^ 71 }
{
    number.max(-FAR).min(FAR)
}

/// The nanoseconds in which something goes a distance: by its factor in each, as a timeline does. Where it stands still
/// they are beyond all, or none are needed.
pub(crate) fn needed(distance: i128, factor: u64) -> i128
    requires { unsigned_abs distance ≤ 2 ^ 125 }
    ensures meaning { (passed : ℤ) → unsigned_abs passed ≤ 2 ^ 70
        → (result ≤ℤ passed) ↔ (distance ≤ℤ (passed *ℤ pos factor)) }
    ensures near { unsigned_abs result ≤ 2 ^ 71 }
{
    if factor == 0 {
        return if distance <= 0 { -FAR } else { FAR };
    }
    bounded(times_in(distance, factor))
}

/// How far a timeline goes in a nanosecond of the wall clock, forward or backward.
fn factor(timing: &Timing) -> u64
    ensures value { result ≡ timing.now.rate.units_per_second * unsigned_abs timing.now.speed }
    ensures units { 0 < timing.now.rate.units_per_tick }
{
    u64::from(timing.rate.units_per_second) * u64::from(timing.speed.unsigned_abs())
}

/// The distance from the control timestamp to the next tick.
fn next_distance(timing: &Timing, tick: i64) -> i128
    ensures value { result ≡ leads.distance timing.now tick +ℤ pos (timing.now.rate.units_per_tick * 1000000000) }
    ensures small { unsigned_abs result ≤ 2 ^ 125 }
{
    distance(timing, tick) + i128::from(tick_length(timing.rate))
}

/// A value of the wall clock so many nanoseconds later.
fn after(wall: u64, passed: i128) -> i128
    requires { unsigned_abs passed ≤ 2 ^ 71 }
    ensures value { result ≡ pos wall +ℤ passed }
    ensures near { unsigned_abs result ≤ 2 ^ 72 }
{
    i128::from(wall) + passed
}

/// The first value that is less than so many nanoseconds earlier.
fn before(wall: u64, passed: i128) -> i128
    requires wall { wall < 2 ^ 63 }
    requires passed { unsigned_abs passed ≤ 2 ^ 71 }
    ensures value { result ≡ pos (wall + 1) -ℤ passed }
    ensures near { unsigned_abs result ≤ 2 ^ 72 }
{
    i128::from(wall + 1) - passed
}

/// The values of the television's wall clock at which it presents a tick. Where the timeline goes by several ticks in
/// a nanosecond there may be none: `from` is `end` then.
pub(crate) fn presented(timing: &Timing, tick: i64) -> Stretch
    requires { IsTimed timing.now }
    ensures meaning { IsPresented timing.now tick result }
    ensures from { unsigned_abs result.from ≤ 2 ^ 72 }
    ensures end { unsigned_abs result.end ≤ 2 ^ 72 }
{
    let factor = factor(timing);
    let come = needed(distance(timing, tick), factor);
    let passed = needed(next_distance(timing, tick), factor);
    if timing.speed < 0 {
        Stretch {
            from: before(timing.wall, passed),
            end: before(timing.wall, come),
        }
    } else {
        Stretch {
            from: after(timing.wall, come),
            end: after(timing.wall, passed),
        }
    }
}

/// A number, with one time added and another taken away.
fn moved(number: i128, plus: u64, minus: u64) -> i128
    requires { unsigned_abs number ≤ 2 ^ 103 }
    ensures value { result ≡ (number +ℤ pos plus) -ℤ pos minus }
    ensures near { unsigned_abs result ≤ unsigned_abs number + 2 ^ 64 }
{
    number + i128::from(plus) - i128::from(minus)
}

/// A product.
fn scaled(number: i128, factor: u32) -> i128
    requires number { unsigned_abs number ≤ 2 ^ 73 }
    requires factor { factor < 2 ^ 29 }
    ensures value { result ≡ number *ℤ pos factor }
    ensures small { unsigned_abs result ≤ 2 ^ 102 }
{
    number * i128::from(factor)
}

/// One more.
fn next(number: i128) -> i128
    requires { unsigned_abs number ≤ 2 ^ 102 }
    ensures value { result ≡ number +ℤ pos 1 }
    ensures small { unsigned_abs result ≤ 2 ^ 103 }
{
    number + 1
}

/// The first reading at which the upper end of an answer's span is at least this value. With F for a whole, e for the
/// own error and E for the television's, the upper end is `t2 + precision + 1`, and `(F + E) / (F - e)` for each
/// nanosecond from `t1 - 2 * own precision - 1` on, rounded up.
fn upper_reaches(answer: &Answer, local: &Local, value: i128) -> i128
    requires { unsigned_abs value ≤ 2 ^ 72 }
    ensures meaning { (reading : ℕ) → (result ≤ℤ pos reading) ↔ (value ≤ℤ hi local.now answer.now reading) }
    ensures near { (reading : ℕ) → reading < LIMIT → unsigned_abs (hi local.now answer.now reading) ≤ 2 ^ 68 }
{
    let ahead = scaled(
        moved(value, 0, answer.t2 + answer.precision + 2),
        WHOLE - local.error,
    );
    let passed = times_in(next(ahead), u64::from(WHOLE + answer.error));
    moved(passed, answer.t1, 2 * local.precision + 1)
}

/// The first reading at which the lower end is. That is `t3 - precision - 1`, and `(F - E) / (F + e)` for each
/// nanosecond from `t4 + 2 * own precision + 1` on, rounded down.
fn lower_reaches(answer: &Answer, local: &Local, value: i128) -> i128
    requires { unsigned_abs value ≤ 2 ^ 72 }
    ensures meaning { (reading : ℕ) → (result ≤ℤ pos reading) ↔ (value ≤ℤ lo local.now answer.now reading) }
    ensures near { (reading : ℕ) → reading < LIMIT → unsigned_abs (lo local.now answer.now reading) ≤ 2 ^ 68 }
{
    let ahead = scaled(
        moved(value, answer.precision + 1, answer.t3),
        WHOLE + local.error,
    );
    let passed = times_in(ahead, u64::from(WHOLE - answer.error));
    moved(passed, answer.t4 + 2 * local.precision + 1, 0)
}

/// The readings at which an answer's span has one of the values.
fn met_by(answer: &Answer, local: &Local, values: &Stretch) -> Stretch
    requires from { unsigned_abs values.now.from ≤ 2 ^ 72 }
    requires end { unsigned_abs values.now.end ≤ 2 ^ 72 }
    ensures { IsMet local.now values.now answer.now result }
{
    Stretch {
        from: upper_reaches(answer, local, values.from),
        end: lower_reaches(answer, local, values.end),
    }
}

/// The readings from the floor on at which the span of each answer has one of them.
pub(crate) fn met(answers: &[Answer], local: &Local, values: &Stretch, floor: u64) -> Stretch
    requires from { unsigned_abs values.now.from ≤ 2 ^ 72 }
    requires end { unsigned_abs values.now.end ≤ 2 ^ 72 }
    ensures { AreMet local.now values.now floor answers.now result }
{
    let mut readings = Stretch {
        from: i128::from(floor),
        end: i128::from(LIMIT),
    };
    for answer in answers {
        let met = met_by(answer, local, values);
        readings = Stretch {
            from: readings.from.max(met.from),
            end: readings.end.min(met.end),
        };
    }
    readings
}
