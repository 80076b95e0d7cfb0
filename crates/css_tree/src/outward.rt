ghost use Rattle.std.specs.Prelude.{◌≡◌, ◌≢◌, ◌≤◌, ◌^◌, pos, negsuc, ◌≤ℤ◌, ◌<ℤ◌, ◌*ℤ◌, ◌+ℤ◌, ◌-ℤ◌, neg_ℤ, unsigned_abs};
ghost use Rattle.std.specs.Prelude.{IfOk};
ghost use Rattle.css_clock.specs.Ticks.{IsSmall, HoldsOver};
ghost use Rattle.css_tree.specs.Trees as trees;
ghost use Rattle.css_tree.specs.Conversions as conversions;

use crate::fault::ClockFault;
use crate::lineage::{gear, parent};
use crate::node::{Gear, Link, Node};
use crate::readings::is_tick;
use css_clock::steps::{divisor, less, more, parts};
use css_num::{Rate, Span, ceil_div, floor_div};

/// The absolute value of the factor.
fn magnitude(rate: Rate, parent: Rate, speed: i32) -> i128
    requires { speed ≢ pos 0 }
    ensures value { result ≡ pos (conversions.magnitude_of rate parent speed) }
    ensures positive { pos 0 <ℤ result }
{
    let units = parts(rate.units_per_second, parent.units_per_tick);
    i128::from(units) * i128::from(speed.unsigned_abs())
}

/// A number of ticks since a tick, times the divisor.
fn scaled(number: i128, ticks: i64, divisor: i128) -> i128
    requires near { unsigned_abs number ≤ 2 ^ 63 }
    requires small { unsigned_abs divisor ≤ 1000000000000000000 }
    ensures value { result ≡ (number -ℤ ticks) *ℤ divisor }
    ensures small { IsSmall result }
{
    less(number, ticks) * divisor
}

/// The tick after a tick.
fn next(tick: i128) -> i128
    requires low { negsuc 9223372036854775807 ≤ℤ tick }
    requires high { tick ≤ℤ pos 9223372036854775807 }
    ensures value { result ≡ tick +ℤ pos 1 }
    ensures near { unsigned_abs result ≤ 2 ^ 63 }
{
    tick + 1
}

/// A span of ticks since a tick, times the divisor, from the first tick to the
/// end of the last one.
fn scaled_span(span: Span, ticks: i64, divisor: i128) -> Span
    requires ticks { conversions.IsTicks span }
    requires positive { pos 0 <ℤ divisor }
    requires small { unsigned_abs divisor ≤ 1000000000000000000 }
    ensures value { result ≡ conversions.scaled_span span ticks divisor }
    ensures small { HoldsOver IsSmall result }
{
    Span {
        lo: scaled(span.lo, ticks, divisor),
        hi: scaled(next(span.hi), ticks, divisor),
    }
}

/// A number with the other sign.
fn negative(number: i128) -> i128
    requires { IsSmall number }
    ensures value { result ≡ neg_ℤ number }
    ensures small { IsSmall result }
{
    -number
}

/// The span as it is, or by a speed that isn't above 0 with the other sign.
fn turned(speed: i32, span: Span) -> Span
    requires { HoldsOver IsSmall span }
    ensures value { result ≡ conversions.turned speed span }
    ensures small { HoldsOver IsSmall result }
{
    if speed > 0 {
        span
    } else {
        Span {
            lo: negative(span.hi),
            hi: negative(span.lo),
        }
    }
}

/// A number over the magnitude, rounded down, and a number of ticks more.
fn rounded_down(number: i128, magnitude: i128, ticks: i64) -> i128
    requires positive { pos 0 <ℤ magnitude }
    requires small { IsSmall number }
    ensures { result ≡ conversions.rounded_down number (unsigned_abs magnitude) ticks }
{
    more(floor_div(number, magnitude), ticks)
}

/// The same, rounded up.
fn rounded_up(number: i128, magnitude: i128, ticks: i64) -> i128
    requires positive { pos 0 <ℤ magnitude }
    requires small { IsSmall number }
    ensures { result ≡ conversions.rounded_up number (unsigned_abs magnitude) ticks }
{
    more(ceil_div(number, magnitude), ticks)
}

/// The ends of a span over the magnitude, the first rounded down and the last
/// rounded up, and a number of ticks more.
fn outward_by(span: Span, magnitude: i128, ticks: i64) -> Span
    requires positive { pos 0 <ℤ magnitude }
    requires small { HoldsOver IsSmall span }
    ensures { result ≡ conversions.outward_by span (unsigned_abs magnitude) ticks }
{
    Span {
        lo: rounded_down(span.lo, magnitude, ticks),
        hi: rounded_up(span.hi, magnitude, ticks),
    }
}

/// The parent's ticks at which a clock may read one of a span.
fn outward(gear: Gear, span: Span) -> Span
    requires moving { gear.link.speed ≢ pos 0 }
    requires ticks { conversions.IsTicks span }
    ensures { result ≡ conversions.outward gear span }
{
    let divisor = divisor(gear.rate, gear.parent_rate);
    let magnitude = magnitude(gear.rate, gear.parent_rate, gear.link.speed);
    let scaled = scaled_span(span, gear.link.child_ticks, divisor);
    let turned = turned(gear.link.speed, scaled);
    outward_by(turned, magnitude, gear.link.parent_ticks)
}

/// A span, where both its ends are ticks of a clock.
fn in_range(id: u32, span: Span) -> Result<Span, ClockFault>
    ensures value { result ≡ conversions.in_range id span }
    ensures ticks { IfOk result conversions.IsTicks }
{
    if is_tick(span.lo) && is_tick(span.hi) {
        Ok(span)
    } else {
        Err(ClockFault::Beyond(id))
    }
}

/// A step up from a clock, where it isn't stopped.
fn gear_up(id: u32, gear: Gear, span: Span) -> Result<Span, ClockFault>
    requires { conversions.IsTicks span }
    ensures value { result ≡ conversions.gear_up id gear span }
    ensures ticks { IfOk result conversions.IsTicks }
{
    let Link { parent, speed, .. } = gear.link;
    if speed == 0 {
        return Err(ClockFault::Stopped(id));
    }
    in_range(parent, outward(gear, span))
}

/// A step up from a clock, which leaves a root's span as it is.
fn step_up(nodes: &[Node], id: u32, span: Span) -> Result<Span, ClockFault>
    requires { conversions.IsTicks span }
    ensures value { result ≡ conversions.step_up id (trees.gear_of nodes.now id) span }
    ensures ticks { IfOk result conversions.IsTicks }
{
    match gear(nodes, id) {
        None => Ok(span),
        Some(gear) => gear_up(id, gear, span),
    }
}

/// Steps up from a clock to the clock `top` above it.
pub(crate) fn steps_up(nodes: &[Node], id: u32, top: u32, span: Span) -> Result<Span, ClockFault>
    requires forest { trees.IsForest nodes.now }
    requires ticks { conversions.IsTicks span }
    ensures value { result ≡ conversions.steps_up nodes.now (conversions.below top (trees.lineage nodes.now id)) span }
    ensures ticks { IfOk result conversions.IsTicks }
{
    if id == top {
        return Ok(span);
    }
    let above = step_up(nodes, id, span)?;
    match parent(nodes, id) {
        None => Ok(above),
        Some(parent) => steps_up(nodes, parent, top, above),
    }
}
