//! That no interval can be narrower than the span of an answer, but for a few nanoseconds at each end.
#![tactic(auto)]

pub mod laws;
