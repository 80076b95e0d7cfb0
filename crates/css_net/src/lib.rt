//! The trusted edge: the system's sockets as an outside of `css_outside`, beside the devices of `css_devices`.
//!
//! It counts its faults, and tells nothing of what it holds. Nothing here waits for a peer: a loop that makes its calls
//! in turn is held for 5 milliseconds at most where nothing comes, or as long as it told that nothing is due, and a
//! bounded time where much comes.
#![tactic(auto)]

mod answers;
mod datagrams;
mod dials;
mod failures;
mod heads;
mod log;
mod masks;
mod metered;
mod names;
mod net_outside;
mod pace;
mod partings;
mod refusal;
mod rest;
mod resting;
mod seen;
mod session;
mod sessions;
mod sockets;
mod upgrades;
mod watch;

pub use css_devices::{ChildSpawner, PatientWriter, StdSink, StdSource, take_standard_numbers};
pub use net_outside::{NetOutside, NetRuntime};
pub use seen::Seen;
