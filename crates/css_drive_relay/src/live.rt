//! What a relay's run keeps from call to call, among it what the relay published, and the texts that tell it.
ghost use Rattle.std.specs.Prelude.{◌≡◌, IfOk};
ghost use Rattle.css_cii.specs.Texts.{IsUtf8State};
ghost use Rattle.css_sessions.specs.Kept as kept;

use css_cii::{State, diff, full, write_message};
use css_drive::Parting;
use css_num::{Memory, Text};
use css_relay::Relay;
use std::alloc::Global;
use std::marker::Model;

/// A state that was published. Its texts are UTF-8.
#[derive(Drop)]
pub struct Published {
    state: State,
}

impl Model for Published {
    ghost use Rattle.css_cii.specs.Texts.{IsUtf8State};
    ghost use Rattle.css_cii.specs.declared.state.State.{State as Known};

    ghost Value = { Known };

    ghost view = { λ published. published.state };

    ghost invariant = { λ published. IsUtf8State published.state };
}

impl Published {
    /// Publishes a state.
    pub fn new(state: State) -> Published
        requires { IsUtf8State state }
        ensures { result ≡ state }
    {
        Published { state }
    }

    /// The message that tells all nine properties.
    #[tactic(auto, unfolding(css_sessions::specs::Kept::full_text))]
    pub fn full_text(&self, alloc: Global) -> Result<Text, Memory>
        ensures { IfOk result (λ text. text ≡ kept.full_text self.now) }
    {
        let change = full(&self.state)?;
        write_message(alloc, &change)
    }

    /// The message that tells the properties in which a newer state differs, or None where the two are equal.
    #[tactic(auto, unfolding(css_sessions::specs::Kept::difference_text))]
    pub fn news(&self, alloc: Global, newer: &Published) -> Result<Option<Text>, Memory>
        ensures { IfOk result (λ text. text ≡ kept.difference_text self.now newer.now) }
    {
        let change = diff(&self.state, &newer.state)?;
        if change.is_empty() {
            return Ok(None);
        }
        Ok(Some(write_message(alloc, &change)?))
    }
}

/// What the run of a relay's visit keeps from call to call.
#[derive(Drop)]
pub struct Live {
    pub alloc: Global,
    pub relay: Relay,
    /// What it keeps as a companion. Its session of CSS-CII is the television's.
    pub own: css_drive::Live,
    /// The state that the accepted sessions were told last.
    pub state: Published,
    /// The accepted sessions that are open, in the order in which they came.
    pub peers: Vec<u32>,
    /// Why the visit was cut short, if it was.
    pub parting: Option<Parting>,
}
