//! How far ahead of the television somebody is who stands at a tick.
ghost use Rattle.std.specs.Prelude.{◌≡◌, ◌≢◌, ◌≤◌, ◌<◌, ◌*◌, ◌^◌, pos, ◌-ℤ◌, ◌*ℤ◌, unsigned_abs};
ghost use Rattle.std.specs.Int.{int_min, int_max};
ghost use Rattle.css_model.specs.History.{History, accepted_answers};
ghost use Rattle.css_num.specs.Division as division;
ghost use Rattle.css_span.specs.WallSpans.{wall_span, IsNear};
ghost use Rattle.css_companion.specs.Meanings.{timing_after};
ghost use Rattle.css_companion.specs.Standing.{StandsFor, own_of};
ghost use Rattle.css_companion_c.specs.Codes.{noticed_at, DONE};
ghost use Rattle.css_companion_c.specs.Leads as leads;
ghost use Rattle.css_companion_c.specs.Leads.{lead_code, HoldsTheLead, IsTheLead};

use crate::codes;
use crate::follower::Follower;
use crate::reading::{Ends, cause_code, ends_of, noticed};
use css_companion::Timing;
use css_num::{Rate, Span, ceil_div, floor_div};

/// The ticks from one to another.
fn ticks_between(tick: i64, content: i64) -> i128
    ensures value { result ≡ tick -ℤ content }
    ensures small { unsigned_abs result ≤ 2 ^ 64 }
{
    i128::from(tick) - i128::from(content)
}

/// The nanoseconds of a tick, times the units of a second.
pub(crate) fn tick_length(rate: Rate) -> u64
    ensures value { result ≡ rate.units_per_tick * 1000000000 }
    ensures small { result ≤ 2 ^ 60 }
{
    u64::from(rate.units_per_tick) * 1_000_000_000
}

/// So many lengths.
pub(crate) fn lengths(ticks: i128, length: u64) -> i128
    requires ticks { unsigned_abs ticks ≤ 2 ^ 64 }
    requires length { length ≤ 2 ^ 60 }
    ensures value { result ≡ ticks *ℤ pos length }
    ensures small { unsigned_abs result ≤ 2 ^ 124 }
{
    ticks * i128::from(length)
}

/// The nanoseconds of the timeline from the tick of its control timestamp to this one, times the units of a second.
pub(crate) fn distance(timing: &Timing, tick: i64) -> i128
    ensures value { result ≡ leads.distance timing.now tick }
    ensures small { unsigned_abs result ≤ 2 ^ 124 }
{
    lengths(
        ticks_between(tick, timing.content),
        tick_length(timing.rate),
    )
}

/// The nanoseconds of the wall clock from the control timestamp to this value.
fn since(value: i128, wall: u64) -> i128
    requires { unsigned_abs value ≤ 2 ^ 68 }
    ensures value { result ≡ value -ℤ pos wall }
    ensures small { unsigned_abs result ≤ 2 ^ 69 }
{
    value - i128::from(wall)
}

/// So many nanoseconds at a speed.
fn at_speed(passed: i128, speed: i32) -> i128
    requires { unsigned_abs passed ≤ 2 ^ 69 }
    ensures value { result ≡ passed *ℤ speed }
    ensures small { unsigned_abs result ≤ 2 ^ 100 }
{
    passed * i128::from(speed)
}

/// The nanoseconds that the timeline has gone where the wall clock shows this value.
fn gone(timing: &Timing, value: i128) -> i128
    requires { unsigned_abs value ≤ 2 ^ 68 }
    ensures value { result ≡ leads.gone timing.now value }
    ensures small { unsigned_abs result ≤ 2 ^ 100 }
{
    at_speed(since(value, timing.wall), timing.speed)
}

/// The most that the timeline has gone over a span of the wall clock.
fn gone_most(timing: &Timing, span: &Span) -> i128
    requires { IsNear span.now }
    ensures value { result ≡ int_max (leads.gone timing.now span.now.lo) (leads.gone timing.now span.now.hi) }
    ensures small { unsigned_abs result ≤ 2 ^ 100 }
{
    gone(timing, span.lo).max(gone(timing, span.hi))
}

/// The least that it has gone.
fn gone_least(timing: &Timing, span: &Span) -> i128
    requires { IsNear span.now }
    ensures value { result ≡ int_min (leads.gone timing.now span.now.lo) (leads.gone timing.now span.now.hi) }
    ensures small { unsigned_abs result ≤ 2 ^ 100 }
{
    gone(timing, span.lo).min(gone(timing, span.hi))
}

/// A distance as nanoseconds, rounded down.
fn rounded_down(distance: i128, rate: Rate) -> i128
    requires { unsigned_abs distance ≤ 2 ^ 124 }
    ensures value { result ≡ division.floor_div distance rate.units_per_second }
    ensures units { 0 < rate.units_per_second }
    ensures small { unsigned_abs result ≤ 2 ^ 124 }
{
    floor_div(distance, i128::from(rate.units_per_second))
}

/// A distance as nanoseconds, rounded up.
fn rounded_up(distance: i128, rate: Rate) -> i128
    requires { unsigned_abs distance ≤ 2 ^ 124 }
    ensures value { result ≡ division.ceil_div distance rate.units_per_second }
    ensures small { unsigned_abs result ≤ 2 ^ 124 }
{
    ceil_div(distance, i128::from(rate.units_per_second))
}

/// What is left of a distance.
fn left(distance: i128, gone: i128) -> i128
    requires distance { unsigned_abs distance ≤ 2 ^ 124 }
    requires gone { unsigned_abs gone ≤ 2 ^ 100 }
    ensures { result ≡ distance -ℤ gone }
{
    distance - gone
}

/// The least lead over a span of the wall clock.
fn least(timing: &Timing, tick: i64, span: &Span) -> i128
    requires { IsNear span.now }
    ensures value { result ≡ (leads.lead_at timing.now tick span.now).lo }
    ensures units { 0 < timing.now.rate.units_per_second }
{
    let whole = rounded_down(distance(timing, tick), timing.rate);
    left(whole, gone_most(timing, span))
}

/// The greatest.
fn most(timing: &Timing, tick: i64, span: &Span) -> i128
    requires { IsNear span.now }
    ensures { result ≡ (leads.lead_at timing.now tick span.now).hi }
{
    let whole = rounded_up(distance(timing, tick), timing.rate);
    left(whole, gone_least(timing, span))
}

/// The leads over a span of the wall clock.
fn lead_at(timing: &Timing, tick: i64, span: &Span) -> Span
    requires { IsNear span.now }
    ensures value { result ≡ leads.lead_at timing.now tick span.now }
    ensures units { 0 < timing.now.rate.units_per_second }
{
    Span {
        lo: least(timing, tick, span),
        hi: most(timing, tick, span),
    }
}

/// The interval of nanoseconds by which somebody at this tick is ahead.
pub(crate) fn lead(follower: &Follower, reading: u64, tick: i64, out: &mut Ends) -> u32
    ensures kept { result ≢ DONE → out.new ≡ out.old }
    ensures before { noticed_at follower.now reading ≢ DONE
        → result ≡ noticed_at follower.now reading }
    ensures code { noticed_at follower.now reading ≡ DONE → (history : History)
        → StandsFor follower.now.companion history → result ≡ lead_code
        (wall_span (own_of follower.now.companion) reading (accepted_answers (own_of follower.now.companion) history))
        (timing_after follower.now.companion.setup.selector history) tick }
    ensures lead { result ≡ DONE → IsTheLead reading tick out.new follower.now.companion }
    ensures truth { result ≡ DONE → HoldsTheLead reading tick out.new follower.now.companion }
{
    let code = noticed(follower, reading);
    if code != codes::DONE {
        return code;
    }
    let Some(span) = follower.companion.wall(reading) else {
        return codes::NO_ANSWER;
    };
    match follower.companion.timing() {
        Err(cause) => cause_code(cause),
        Ok(timing) => match ends_of(&lead_at(&timing, tick, &span)) {
            None => codes::TOO_WIDE,
            Some(lead) => {
                *out = lead;
                codes::DONE
            }
        },
    }
}
