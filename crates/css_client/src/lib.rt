//! The companion's side of CSS-WC, the wall clock protocol of ETSI TS 103 286-2: its requests, the answers to them, and
//! what they tell of the television's wall clock.
#![tactic(auto)]

mod asked;
mod client;
mod landing;
pub mod laws;
mod promises;
mod receiving;

pub use client::Client;
pub use css_model::WcFault;
pub use css_num::{Memory, Span};
pub use css_span::{Answer, Local};
pub use landing::Landing;
