//! The television's side of CSS-WC, the wall clock protocol of ETSI TS 103 286-2: it takes requests and answers them,
//! with a follow-up where one is promised. No call takes memory.
#![tactic(auto)]

mod fault;
pub mod laws;
mod server;

pub use css_model::WcFault;
pub use fault::ServeFault;
pub use server::{Answered, Server, Ticket};
