ghost use Rattle.std.specs.Prelude.{◌≡◌, IfOk};
ghost use Rattle.css_cii.specs.States as states;
ghost use Rattle.css_cii.specs.Texts.{IsUtf8State};

use crate::merging::{all_said, apply_to};
use css_num::{Text, Timelines};
use std::alloc::AllocError;

/// What a television tells its companions (ETSI TS 103 286-2, CSS-CII): nine
/// properties, each a value or null.
#[derive(Debug, PartialEq, Eq)]
pub struct State {
    /// The version of the protocol.
    pub protocol_version: Option<Text>,
    /// Where material is resolved (CSS-MRS).
    pub mrs_url: Option<Text>,
    /// Which content is presented.
    pub content_id: Option<Text>,
    /// Whether the content id is partial or final.
    pub content_id_status: Option<Text>,
    /// How the content is presented: `okay`, `transitioning` or `fault`, and
    /// words of the television's own after it.
    pub presentation_status: Option<Text>,
    /// Where the wall clock is asked (CSS-WC).
    pub wc_url: Option<Text>,
    /// Where timelines are told (CSS-TS).
    pub ts_url: Option<Text>,
    /// Where trigger events are told (CSS-TE).
    pub te_url: Option<Text>,
    /// The timelines that may be asked for.
    pub timelines: Option<Timelines>,
}

impl Drop for State {
    fn drop(self) {
        let State {
            protocol_version: _,
            mrs_url: _,
            content_id: _,
            content_id_status: _,
            presentation_status: _,
            wc_url: _,
            ts_url: _,
            te_url: _,
            timelines: _,
        } = self;
    }
}

impl State {
    /// The state before the first message: nine nulls.
    #[tactic(auto, unfolding(crate::specs::States::empty))]
    pub fn empty() -> State
        ensures value { result ≡ states.empty }
        ensures utf8 { IsUtf8State result }
    {
        State {
            protocol_version: None,
            mrs_url: None,
            content_id: None,
            content_id_status: None,
            presentation_status: None,
            wc_url: None,
            ts_url: None,
            te_url: None,
            timelines: None,
        }
    }
}

/// A copy of a state, which is equal to it.
#[tactic(auto, unfolding(crate::specs::States::applied, crate::specs::States::full_change))]
fn state_copied(state: &State) -> Result<State, AllocError>
    ensures { IfOk result (λ copy. copy ≡ state.now) }
{
    let mut copy = State::empty();
    apply_to(&mut copy, all_said(state)?);
    Ok(copy)
}

impl Clone for State {
    ghost use Rattle.std.specs.Prelude.{◌≡◌};

    ghost is_clone = { λ state copy. copy ≡ state };

    fn clone(&self) -> Result<State, AllocError> {
        state_copied(self)
    }
}
