//! Schedules that are made of a seed: the same seed gives the same lines. Requests and datagrams come late, twice or
//! never, and the companion reports between them. `css_survey` has the law that a world takes each of these lines.
#![tactic(auto)]

mod course;
mod crowd;
mod generator;
pub mod laws;
mod opening;
mod second;
mod senders;

pub use css_num::{Memory, Text};
pub use generator::Generator;
