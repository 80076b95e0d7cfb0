//! Schedules: what happens at a television and its companions, line by line, as a text that a person can write.
//!
//! Line 1 is the header, which names the declared errors and precisions of the clocks. In version 2 a line for each
//! companion follows it. Each other line gives the true time, the two clocks, and what happens then. A television's
//! script has lines of its own: when each is due, and what the television does then.
#![tactic(auto)]

mod fault;
mod header;
mod line;
mod opening;
mod parts;
mod reading;
pub mod words;

pub use css_num::{Kind, Rate, Text};
pub use css_player::{Command, PlayerFault};
pub use css_span::Local;
pub use css_tsmsg::Bound;
pub use fault::{LineFault, LineWhy};
pub use header::{CompanionLine, Companions, Header, Start};
pub use line::{Line, ScriptLine, Verb};
pub use opening::{read_companion, read_header};
pub use reading::{read_line, read_script};
