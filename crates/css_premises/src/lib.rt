//! Worlds and histories that meet the premises of laws. So none of these laws is true for want of a case.
#![tactic(auto)]

pub mod laws;
