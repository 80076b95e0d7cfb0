//! The status with which any command ends, and the line that tells it.
#![tactic(auto)]

mod status;
mod told;

pub use css_schedule::LineWhy;
pub use status::Status;
pub use told::{Ending, tell};
