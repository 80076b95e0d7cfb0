//! The system's streams, clocks and programs as devices of `css_outside`, and what an outside over real sockets counts.
//!
//! The devices count their faults, and tell nothing of what they hold. They know no socket: `css_net` does.
#![tactic(auto)]

mod child;
mod clock;
pub mod faults;
mod sender;
mod senders;
mod shown;
mod standard;
mod streams;
mod tally;
mod window;

pub use child::ChildSpawner;
pub use clock::monotone;
pub use senders::Senders;
pub use standard::{PatientWriter, errors_take_line, take_standard_numbers};
pub use streams::{StdSink, StdSource};
pub use tally::{FIRST_SENDER, Tally};
