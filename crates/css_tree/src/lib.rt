//! A forest of numbered clocks, each of which goes by its parent: the clock objects of a companion that makes and
//! changes them while it runs.
#![tactic(auto)]

mod conversion;
mod fault;
pub mod laws;
mod lineage;
mod node;
mod outward;
mod readings;
mod tree;

pub use fault::ClockFault;
pub use tree::Tree;
