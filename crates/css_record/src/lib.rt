//! A companion's run that writes down what its devices told, line by line, and each report where it was made. Who has
//! this record can check every report of it later.
#![tactic(auto)]

mod record;
mod recorder;

pub use css_drive::{DriveConfig, Driven};
pub use record::drive_record;
