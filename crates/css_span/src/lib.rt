//! What an answer of CSS-WC tells of the television's wall clock, and the estimate over all answers that were accepted
//! (ETSI TS 103 286-2, synchronisation of the wall clock).
#![tactic(auto)]

mod answer;
mod estimate;
mod fault;
mod frontier;
mod width;

pub use answer::{Answer, Local};
pub use css_num::Span;
pub use estimate::Estimate;
pub use fault::AcceptFault;
pub use width::{scaled_width, span, width_at};
