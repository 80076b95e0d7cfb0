//! What is proved of the commands together. A law is the contract of a function that does nothing.
#![tactic(auto)]

pub mod laws;
