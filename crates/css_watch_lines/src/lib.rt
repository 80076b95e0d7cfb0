//! The lines of a watch: what happens to a companion that stays, as JSON objects of one line each.
//!
//! The names of an object's members are in alphabetical order, and its text is compact. A line feed ends the line. A
//! number that may pass 2^53 is a text of decimal digits: readings, wall times, ticks. Each function makes the line of
//! one kind of event out of plain values.
#![tactic(auto)]

mod fronts;
mod known;
pub mod laws;
mod lines;
mod members;
mod words;

pub use fronts::front;
pub use known::{Between, Known, Ticks};
pub use lines::{
    answer_line, apart_end_line, cause_line, control_line, dial_line, end_line, known_line,
    refused_end_line, refused_line, slept_line, state_line, unread_line, visit_line,
};
pub use members::words_of;
pub use words::{failure_words, landing_words};
