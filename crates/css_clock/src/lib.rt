//! Clocks that go by one another, as companion screen synchronisation uses
//! them (ETSI TS 103 286-2): a clock has a parent, a tick rate, a speed and a
//! correlation with its parent.
#![tactic(auto)]

mod correlated;
pub mod steps;
mod tick;

pub use correlated::Correlated;
pub use tick::{Root, Tick};
