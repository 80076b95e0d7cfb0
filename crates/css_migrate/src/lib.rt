//! A schedule of version 1 becomes one of version 2, line by line.
//!
//! Its one companion gets the number 1. The header becomes two lines, so each later line has a number that is greater
//! by 1 than before.
#![tactic(auto)]

mod migrate;

pub use migrate::{Migrate, NoLine};
