//! Where a session is dialled, or a wall clock asked, from the text of a URL.
#![tactic(auto)]

mod fault;
mod reading;

pub use css_num::Memory;
pub use css_outside::{Address, Kind};
pub use fault::AddressFault;
pub use reading::{LONGEST_ADDRESS, address};
