//! The loops of a companion and of a television over any devices: which call is made next, and with what.
//!
//! A companion's loop tells an observer what happens and each report: the one that writes the reports, or any other.
#![tactic(auto)]

pub mod calls;
mod companion;
mod companion_calls;
mod companion_dials;
mod companion_hears;
pub mod companion_laws;
mod companion_live;
mod companion_turns;
mod config;
mod driven;
mod observes;
mod parting;
mod session;
mod telling;
pub mod timing;
mod turns;
mod tv_calls;
mod tv_config;
pub mod tv_laws;
mod tv_lines;
mod tv_turns;

pub use companion::{companion_of, drive_companion};
pub use companion_live::{Live, Run};
pub use companion_turns::drive;
pub use config::DriveConfig;
pub use css_address::{AddressFault, LONGEST_ADDRESS, address};
pub use css_follow::{Before, Listens, Nobody};
pub use driven::Driven;
pub use observes::Observes;
pub use parting::Parting;
pub use session::Session;
pub use tv_config::TvDrive;
pub use tv_turns::drive_tv;
