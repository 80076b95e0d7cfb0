ghost use Rattle.std.specs.Prelude.{◌≡◌, ◌<◌, [], length, IfOk, Some, Ok};
ghost use Rattle.css_num.specs.Gives.{Leaves, LeavesBy};
ghost use Rattle.css_clock.specs.Ticks.{IsSpeed};
ghost use Rattle.css_tree.specs.Trees as trees;
ghost use Rattle.css_tree.specs.Conversions as conversions;
ghost use Rattle.css_tree.specs.declared.fault.ClockFault.TheVariants.{Memory};
ghost use Rattle.css_tree.specs.declared.node.Link.{Link};

use crate::conversion::{available_to, common, steps_down};
use crate::fault::ClockFault;
use crate::lineage::{all_available, known, not_deep, not_full};
use crate::node::{Link, Node};
use crate::outward::steps_up;
use crate::readings::value_down;
use css_num::{Rate, Span};
use std::alloc::Global;
use std::marker::Model;

/// A forest of clocks, numbered from 0 in the order in which they were added: roots, and clocks that go by one another.
///
/// These are the clock objects of companion screen libraries. A root has no parent, as a system clock. Every other
/// clock is a correlated clock, with a parent, a tick rate, a speed and a correlation. In a library a clock's ticks may
/// have a fraction. Here they are whole, rounded down, so what is converted is a span of ticks and no point.
#[derive(Drop)]
pub struct Tree {
    nodes: Vec<Node>,
}

impl Model for Tree {
    ghost use Rattle.css_tree.specs.Trees.{Clocks, IsForest};

    ghost Value = { Clocks };

    ghost view = { λ a. a.nodes.items };

    ghost invariant = { λ a. IsForest a.nodes.items };
}

impl Tree {
    /// A forest of no clocks, which takes no memory.
    pub fn new(alloc: Global) -> Tree
        ensures { result ≡ [] }
    {
        Tree {
            nodes: Vec::new(alloc),
        }
    }

    /// Appends a clock, which is available.
    fn push(&mut self, rate: Rate, link: Option<Link>) -> Result<u32, ClockFault>
        requires room { length self.old < 4096 }
        requires clock { (of : Link) → link ≡ Some of → trees.IsLink (length self.old) of }
        ensures number { IfOk result (λ id. id ≡ length self.old) }
        ensures leaves { LeavesBy Memory result self.old self.new (Ok (trees.with_clock self.old rate link)) }
    {
        let id = self.nodes.len();
        self.nodes.push(Node::new(rate, link))?;
        Ok(id as u32)
    }

    /// Adds a root with a tick rate, and answers its number. It is a clock
    /// without a parent, and reads what it is told to.
    ///
    /// The fault is Full where there are 4,096 clocks, or Memory, and then the
    /// forest is as it was.
    #[tactic(auto, unfolding(crate::specs::Trees::with_root))]
    pub fn add_root(&mut self, rate: Rate) -> Result<u32, ClockFault>
        ensures number { IfOk result (λ id. id ≡ length self.old) }
        ensures leaves { LeavesBy Memory result self.old self.new (trees.with_root self.old rate) }
    {
        not_full(self.nodes.as_slice())?;
        self.push(rate, None)
    }

    /// Adds a clock that goes by the clock `parent`, and answers its number. Where the parent reads `parent_ticks` it
    /// reads `child_ticks`, and it goes at `speed`, -64 to 64, times its tick rate.
    ///
    /// The faults come in this order: NoSuch of the parent; Full where there are 4,096 clocks; Deep where it would have
    /// more than 16 clocks above it; Memory. After each the forest is as it was.
    #[tactic(auto, unfolding(crate::specs::Trees::with_child))]
    pub fn add(
        &mut self,
        parent: u32,
        rate: Rate,
        speed: i32,
        parent_ticks: i64,
        child_ticks: i64,
    ) -> Result<u32, ClockFault>
        requires { IsSpeed speed }
        ensures number { IfOk result (λ id. id ≡ length self.old) }
        ensures leaves { LeavesBy Memory result self.old self.new
            (trees.with_child self.old rate
            (record { parent = parent; speed = speed; parent_ticks = parent_ticks; child_ticks = child_ticks })) }
    {
        known(self.nodes.as_slice(), parent)?;
        not_full(self.nodes.as_slice())?;
        not_deep(self.nodes.as_slice(), parent)?;
        let link = Link {
            parent,
            speed,
            parent_ticks,
            child_ticks,
        };
        self.push(rate, Some(link))
    }

    /// Gives a clock another speed, -64 to 64, and another correlation with its parent. No other clock changes.
    ///
    /// A library sets the speed and the correlation one after the other. Here both change at once.
    ///
    /// The faults come in this order: NoSuch of the clock; IsRoot where it has no parent. After each the forest is as
    /// it was.
    #[tactic(auto, unfolding(crate::specs::Trees::with_correlation))]
    pub fn set(
        &mut self,
        id: u32,
        speed: i32,
        parent_ticks: i64,
        child_ticks: i64,
    ) -> Result<(), ClockFault>
        requires { IsSpeed speed }
        ensures { Leaves result self.old self.new
            (trees.with_correlation self.old id
            (record { speed = speed; parent_ticks = parent_ticks; child_ticks = child_ticks })) }
    {
        let node = known(self.nodes.as_slice(), id)?;
        let link = node.link.ok_or(ClockFault::IsRoot(id))?;
        let link = Link {
            parent: link.parent,
            speed,
            parent_ticks,
            child_ticks,
        };
        self.nodes[id as usize] = Node {
            rate: node.rate,
            link: Some(link),
            available: node.available,
        };
        Ok(())
    }

    /// Says whether a clock is available. No other clock changes.
    ///
    /// As in a library a clock is of use only where the clocks above it are
    /// available too: [`Tree::value`] asks up to the root, [`Tree::convert`] up
    /// to the nearest clock above both.
    ///
    /// The fault is NoSuch of the clock, and then the forest is as it was.
    #[tactic(auto, unfolding(crate::specs::Trees::with_available))]
    pub fn set_available(&mut self, id: u32, available: bool) -> Result<(), ClockFault>
        ensures { Leaves result self.old self.new (trees.with_available self.old id available) }
    {
        let node = known(self.nodes.as_slice(), id)?;
        self.nodes[id as usize] = Node {
            rate: node.rate,
            link: node.link,
            available,
        };
        Ok(())
    }

    /// What a clock reads where its root reads `root`, as a library converts
    /// from root ticks.
    ///
    /// The faults come in this order: NoSuch of the clock; Unavailable of the
    /// first clock, from this one upwards to its root, that isn't available;
    /// Beyond of the first clock, from the root downwards, whose ticks don't
    /// fit an `i64`, or whose product on the way is 2^126 or more either way.
    #[tactic(auto, unfolding(crate::specs::Trees::value_of))]
    pub fn value(&self, id: u32, root: i64) -> Result<i64, ClockFault>
        ensures { result ≡ trees.value_of self.now id root }
    {
        let nodes = self.nodes.as_slice();
        known(nodes, id)?;
        all_available(nodes, id)?;
        value_down(nodes, id, root)
    }

    /// Converts a span of ticks of the clock `from` to ticks of the clock `to`.
    ///
    /// It goes up to the nearest clock that is above both, where each clock is above itself, and down from it. For each
    /// value of that clock at which `from` reads a tick of the span, the answer has what `to` reads. The same holds of
    /// each value of the root at which [`Tree::value`] tells both. A library's conversion takes and gives a point.
    ///
    /// The span's ends fit an `i64`. The faults come in this order:
    ///
    /// 1. NoSuch of `from`, then of `to`.
    /// 2. NoCommon where the two have different roots.
    /// 3. Unavailable of the first clock that isn't available, upwards from `from` to the nearest common clock and then
    ///    upwards from `to`.
    /// 4. On the way up, in order: Stopped of a clock at speed 0, and Beyond of its parent where an end of the new span
    ///    doesn't fit an `i64`.
    /// 5. On the way down, in order: Beyond of a clock, as in [`Tree::value`], for either end.
    #[tactic(auto, unfolding(crate::specs::Conversions::converted))]
    pub fn convert(&self, from: u32, to: u32, span: Span) -> Result<Span, ClockFault>
        requires { conversions.IsTicks span }
        ensures value { result ≡ conversions.converted self.now from to span }
        ensures meaning { IfOk result (conversions.IsConversion self.now from to span) }
    {
        let nodes = self.nodes.as_slice();
        known(nodes, from)?;
        known(nodes, to)?;
        let top = common(nodes, from, to)?;
        available_to(nodes, from, top)?;
        available_to(nodes, to, top)?;
        let above = steps_up(nodes, from, top, span)?;
        steps_down(nodes, to, top, above)
    }
}
