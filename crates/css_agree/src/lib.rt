//! What all answers of CSS-WC together tell of the television's wall clock, and which two of them contradict each other
//! (ETSI TS 103 286-2, synchronisation of the wall clock).
//!
//! The narrowest answer is one answer. The spans of all of them have the wall clock in common, so what they share is
//! often narrower. Where they share nothing, two of them can't both be true: a television set its clock, an oscillator
//! runs outside its bound, or an answer was forged.
#![tactic(auto)]

mod agree;
mod agreed;
mod best;
mod ends;
mod fault;
mod input;
pub mod laws;
mod named;
mod naming;
mod printing;
mod reader;

pub use agree::{Added, Agree};
pub use agreed::Agreed;
pub use css_span::{Answer, Local, Span};
pub use fault::AgreeFault;
pub use input::{AnswerLine, read_header, read_line};
pub use naming::Naming;
pub use reader::{Agreeing, Cause};
