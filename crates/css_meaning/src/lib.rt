//! What the lines of a schedule mean, and what is proved of lines that are accepted.
//!
//! A line says what happens at the television or at a companion. What it prints, or why it is refused, follows from the
//! header and the lines before it alone, so nothing here speaks of the code that carries a line out.
#![tactic(auto)]

mod fault;
pub mod laws;
mod reading;

pub use fault::WorldFault;
pub use reading::Reading;
