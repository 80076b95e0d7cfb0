//! The texts of the timeline protocol, CSS-TS of ETSI TS 103 286-2: what a
//! companion asks of a television, and the control timestamps that it is told.
#![tactic(auto)]

mod bound;
mod control;
mod digits;
mod fault;
pub mod laws;
mod name;
mod presentation;
mod setup;
mod writing;
mod written;

pub use bound::{Bound, Presentation};
pub use control::read_control;
pub use css_num::Control;
pub use fault::TsFault;
pub use name::TsName;
pub use presentation::read_presentation;
pub use setup::{Setup, read_setup};
pub use writing::{control_value, write_control, write_presentation, write_setup};
