//! Whether the clocks of a schedule are clocks of a world: true time never falls, and each clock keeps the declared
//! error of its oscillator between any two lines with no sleep between.
#![tactic(auto)]

mod drift;
mod fault;
mod kept;
pub mod laws;
mod numbers;

pub use drift::Drift;
pub use fault::DriftFault;
