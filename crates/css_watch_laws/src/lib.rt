//! What is proved of a watch by its definitions alone. A law is the contract of a function that does nothing.
#![tactic(auto)]

pub mod laws;
