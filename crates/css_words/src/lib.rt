//! The words of a command line: which command they are, and what its options say.
#![tactic(auto)]

mod bounds;
mod command;
mod companion;
mod complaints;
mod fault;
mod generator;
pub mod laws;
mod options;
mod pair;
mod recorded;
mod relay;
mod tv;
mod watch;
mod words;

pub use command::{Command, command_of};
pub use complaints::complaint;
pub use css_address::Address;
pub use css_num::{Memory, Text};
pub use css_outside::Limit;
pub use css_tsmsg::Bound;
pub use fault::WordsFault;
pub use words::{
    CompanionOptions, CompanionWords, GeneratorWords, PairWords, RelayWords, TvWords, WatchWords,
};
