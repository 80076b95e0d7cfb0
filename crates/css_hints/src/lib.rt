//! A line for a person after a status: what was wrong, and what helps; and one on what a command reads at a terminal.
//! Of their words nothing is promised but their form.
#![tactic(auto)]

mod absence;
mod asked;
mod commands;
mod course;
mod devices;
mod forms;
mod grammar;
mod hinting;
mod input;
mod line;
mod meant;
mod near;
mod options;
mod session;
mod terminal;
mod usage;
mod walk;

pub use asked::Asked;
pub use course::Course;
pub use hinting::hint;
pub use terminal::waiting;
