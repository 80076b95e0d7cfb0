//! The loop of a relay over any devices: a companion that serves the television's wall clock on to further companions.
#![tactic(auto)]

mod begun;
mod config;
pub mod laws;
mod live;
mod plan;
mod sessions;
mod stages;
mod television;
mod turns;
mod visits;

pub use begun::Begun;
pub use config::RelayRun;
pub use css_companion::CompanionConfig;
pub use css_drive::Driven;
pub use plan::Plan;
pub use visits::drive_relay;
