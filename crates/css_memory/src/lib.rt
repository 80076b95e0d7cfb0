//! Devices in memory: bytes, an end's clock and sockets, and child programs. They stand in for the real ones in tests,
//! and fail at the calls that a test names.
#![tactic(auto)]

mod failing;
mod memory;
mod memory_outside;
mod memory_spawner;
mod never_fails_outside;
mod never_fails_spawner;
mod places;
mod script;
mod scripted;

pub use memory::{MemorySink, MemorySource};
pub use memory_outside::MemoryOutside;
pub use memory_spawner::MemorySpawner;
pub use never_fails_outside::NeverFailsOutside;
pub use never_fails_spawner::NeverFailsSpawner;
pub use script::{Datagram, OutsideScript, SessionHeard, can_be_read};
