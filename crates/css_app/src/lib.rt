//! The program: what each command makes of its words and its devices.
#![tactic(auto)]

mod asked;
mod inputs;
mod lines;
mod live;
mod live_pair;
mod program;
mod written;

pub use css_status::{Ending, LineWhy, Status, tell};
pub use live::{companion, record_companion, tv, watch_television};
pub use live_pair::{Child, address_at, pair};
pub use program::run;
pub use written::{generate, survey};
