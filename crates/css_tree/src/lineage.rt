ghost use Rattle.std.specs.Prelude.{◌≡◌, ◌+◌, ◌<◌, ◌≤◌, length, slice_get};
ghost use Rattle.css_tree.specs.Trees as trees;

use crate::fault::ClockFault;
use crate::node::{Gear, Node};

/// The clock with a number.
fn find(nodes: &[Node], id: u32) -> Option<Node>
    ensures { result ≡ slice_get nodes.now id }
{
    nodes.get(id as usize).copied()
}

/// The clock with a number, or the fault that there is none.
pub(crate) fn known(nodes: &[Node], id: u32) -> Result<Node, ClockFault>
    ensures { result ≡ trees.known nodes.now id }
{
    match find(nodes, id) {
        None => Err(ClockFault::NoSuch(id)),
        Some(node) => Ok(node),
    }
}

/// The number of a clock's parent, and None of a root.
pub(crate) fn parent(nodes: &[Node], id: u32) -> Option<u32>
    ensures { result ≡ trees.parent_of nodes.now id }
{
    let node = find(nodes, id)?;
    let link = node.link?;
    Some(link.parent)
}

/// Whether a clock is available.
pub(crate) fn is_available(nodes: &[Node], id: u32) -> bool
    ensures { result ≡ trees.is_available nodes.now id }
{
    match find(nodes, id) {
        None => false,
        Some(node) => node.available,
    }
}

/// How many clocks are above a clock.
pub(crate) fn depth(nodes: &[Node], id: u32) -> u32
    requires { trees.IsForest nodes.now }
    ensures value { result + 1 ≡ length (trees.lineage nodes.now id) }
    ensures few { result ≤ id }
{
    match parent(nodes, id) {
        None => 0,
        Some(parent) => depth(nodes, parent) + 1,
    }
}

/// That a clock and all above it are available, or the fault of the first that
/// isn't.
pub(crate) fn all_available(nodes: &[Node], id: u32) -> Result<(), ClockFault>
    requires { trees.IsForest nodes.now }
    ensures { result ≡ trees.all_available nodes.now (trees.lineage nodes.now id) }
{
    if !is_available(nodes, id) {
        return Err(ClockFault::Unavailable(id));
    }
    match parent(nodes, id) {
        None => Ok(()),
        Some(parent) => all_available(nodes, parent),
    }
}

/// The greatest number of clocks in a forest.
const MAX_CLOCKS: usize = 4096;

/// The greatest number of clocks above a clock.
const MAX_DEPTH: u32 = 16;

/// That there is room for a clock.
pub(crate) fn not_full(nodes: &[Node]) -> Result<(), ClockFault>
    ensures { result ≡ trees.not_full nodes.now }
{
    if nodes.len() < MAX_CLOCKS {
        Ok(())
    } else {
        Err(ClockFault::Full)
    }
}

/// That a clock may stand on this parent.
pub(crate) fn not_deep(nodes: &[Node], parent: u32) -> Result<(), ClockFault>
    requires { trees.IsForest nodes.now }
    ensures { result ≡ trees.not_deep nodes.now parent }
{
    if depth(nodes, parent) < MAX_DEPTH {
        Ok(())
    } else {
        Err(ClockFault::Deep)
    }
}

/// How a clock goes by its parent, and None of a root.
pub(crate) fn gear(nodes: &[Node], id: u32) -> Option<Gear>
    ensures { result ≡ trees.gear_of nodes.now id }
{
    let node = find(nodes, id)?;
    let link = node.link?;
    let parent = find(nodes, link.parent)?;
    Some(Gear {
        rate: node.rate,
        parent_rate: parent.rate,
        link,
    })
}
