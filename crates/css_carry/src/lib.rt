//! A report of a watch, carried on to a later reading of the companion's clock: where the television is between two
//! reports. The formula of the pages, and its code in other languages, are this one.
#![tactic(auto)]

mod carry;
pub mod laws;

pub use carry::carried_report;
