ghost use Rattle.std.specs.Prelude.{◌≡◌, IfOk};
ghost use Rattle.css_tree.specs.Trees as trees;
ghost use Rattle.css_tree.specs.Conversions as conversions;

use crate::fault::ClockFault;
use crate::lineage::{is_available, parent};
use crate::node::Node;
use crate::readings::checked_step;
use css_num::Span;

/// The nearest clock that is above both, where each clock is above itself.
fn nearest_common(nodes: &[Node], from: u32, to: u32) -> Option<u32>
    requires { trees.IsForest nodes.now }
    ensures { result ≡ conversions.nearest_common nodes.now from to }
{
    if from == to {
        return Some(from);
    }
    if from > to {
        nearest_common(nodes, parent(nodes, from)?, to)
    } else {
        nearest_common(nodes, from, parent(nodes, to)?)
    }
}

/// The same, or the fault that there is none.
pub(crate) fn common(nodes: &[Node], from: u32, to: u32) -> Result<u32, ClockFault>
    requires { trees.IsForest nodes.now }
    ensures { result ≡ conversions.common_of (conversions.nearest_common nodes.now from to) }
{
    match nearest_common(nodes, from, to) {
        None => Err(ClockFault::NoCommon),
        Some(top) => Ok(top),
    }
}

/// That a clock and those above it, up to `top`, are available, or the fault of
/// the first that isn't.
pub(crate) fn available_to(nodes: &[Node], id: u32, top: u32) -> Result<(), ClockFault>
    requires { trees.IsForest nodes.now }
    ensures { result ≡ trees.all_available nodes.now (conversions.up_to top (trees.lineage nodes.now id)) }
{
    if !is_available(nodes, id) {
        return Err(ClockFault::Unavailable(id));
    }
    if id == top {
        return Ok(());
    }
    match parent(nodes, id) {
        None => Ok(()),
        Some(parent) => available_to(nodes, parent, top),
    }
}

/// A step down to a clock.
fn step_down(nodes: &[Node], id: u32, span: Span) -> Result<Span, ClockFault>
    requires { conversions.IsTicks span }
    ensures value { result ≡ conversions.step_down id (trees.gear_of nodes.now id) span }
    ensures ticks { IfOk result conversions.IsTicks }
{
    let first = checked_step(nodes, id, span.lo as i64)?;
    let last = checked_step(nodes, id, span.hi as i64)?;
    Ok(Span {
        lo: i128::from(first.min(last)),
        hi: i128::from(first.max(last)),
    })
}

/// Steps down from the clock `top`, to a clock that stands on it.
pub(crate) fn steps_down(nodes: &[Node], id: u32, top: u32, span: Span) -> Result<Span, ClockFault>
    requires forest { trees.IsForest nodes.now }
    requires ticks { conversions.IsTicks span }
    ensures value { result
        ≡ conversions.steps_down nodes.now (conversions.below top (trees.lineage nodes.now id)) span }
    ensures ticks { IfOk result conversions.IsTicks }
{
    if id == top {
        return Ok(span);
    }
    match parent(nodes, id) {
        None => step_down(nodes, id, span),
        Some(parent) => {
            let above = steps_down(nodes, parent, top, span)?;
            step_down(nodes, id, above)
        }
    }
}
