//! Records of a companion, and their audit: each report of a record is computed anew from what the devices told before
//! it, and compared.
//!
//! A record tells line by line what a companion's clock, its datagrams and its sessions told, and what the companion
//! reported of it. Who has the record needs neither the companion nor the television to check every report.
#![tactic(auto)]

mod audit;
mod fault;
mod input;
pub mod laws;
mod place;
mod printing;
mod reader;
mod taking;

pub use audit::Audit;
pub use css_companion::{CompanionConfig, Report};
pub use css_schedule::LineFault;
pub use fault::AuditFault;
pub use input::{RecordLine, read_header, read_line};
pub use printing::{print_header, print_line};
pub use reader::Auditing;
