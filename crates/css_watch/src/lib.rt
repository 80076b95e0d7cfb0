//! A companion that stays: it goes on where a session closes, where the television moves an address or says what can't
//! be read, and where the television's clock contradicts itself. It tells all that happens as JSON lines.
//!
//! A watch is a list of visits, one after another, each with a new companion. A visit is a run of that companion, which
//! another observer watches.
#![tactic(auto)]

mod config;
mod detail;
mod ending;
mod event_lines;
mod listed;
mod plan;
mod progress;
mod progress_steps;
mod visit;
mod visiting;
mod watching;

pub use config::WatchConfig;
pub use css_drive::Parting;
pub use ending::Watched;
pub use plan::Plan;
pub use progress::{Begun, Progress, Tried};
pub use visiting::watch;
