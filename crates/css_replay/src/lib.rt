//! A replay of a schedule: it carries out line after line, and prints what each gives before it reads on.
#![tactic(auto)]

mod reader;
mod replaying;

pub use replaying::replay;
