//! Content identification, CSS-CII of ETSI TS 103 286-2: the state that a television tells its companions, and the
//! messages that tell it.
//!
//! A message says some of nine properties. The first message of a connection gives the state, where each property that
//! it leaves unsaid is null. Each later one sets what it says and keeps the rest.
#![tactic(auto)]

mod change;
mod fault;
mod merging;
mod name;
mod reading;
mod state;
mod timelines;
mod writing;

ghost use Rattle.std.specs.Prelude.{◌≡◌, Ok, ℕ, List};
ghost use Rattle.css_cii.specs.Messages.{NotMemory, message_of};
ghost use Rattle.css_cii.specs.Texts.{change_text, EachOf, RatesAreInRange, IsUtf8Change};
ghost use Rattle.css_cii.specs.declared.change.Change.{Change as said};

pub use change::{Change, Told};
pub use fault::CiiFault;
pub use merging::{apply, apply_to, diff, full, merge};
pub use name::CiiName;
pub use reading::read_message;
pub use state::State;
pub use writing::{rate_value, state_value, write_message};

/// A message that is written is read back as the same change.
pub fn messages_are_read_back()
    ensures { (c : said) → IsUtf8Change c → EachOf RatesAreInRange c.timelines → message_of (change_text c) ≡ Ok c }
{}

/// What a message's text is to be read as is never want of memory.
pub fn messages_are_total()
    ensures { (bytes : List ℕ) → NotMemory (message_of bytes) }
{}
