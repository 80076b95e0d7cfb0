//! Headers and lines of schedules as texts. The law is that what is printed is read back as the same header or line.
#![tactic(auto)]

mod printing;

pub use printing::{print_header, print_line};
