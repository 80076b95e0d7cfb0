//! A relay of the wall clock of ETSI TS 103 286-2: a companion that serves CSS-WC to further companions from its own
//! estimate of the television's wall clock, and tells them the television's state with its own address for it.
#![tactic(auto)]

mod address;
mod exponent;
mod fault;
pub mod laws;
mod middle;
mod relay;
mod ticket;

pub use css_companion::CompanionConfig;
pub use css_model::WcFault;
pub use css_num::{Memory, Span};
pub use fault::RelayFault;
pub use relay::Relay;
pub use ticket::RelayTicket;
