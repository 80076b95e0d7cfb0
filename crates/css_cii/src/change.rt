ghost use Rattle.std.specs.Prelude.{◌≡◌};
ghost use Rattle.css_cii.specs.States as states;

use crate::merging::{set_timelines, set_words};
use crate::state::State;
use css_num::{Text, Timelines};

/// What a message says of one property.
#[derive(Drop)]
pub enum Told<T> {
    /// Nothing: the property stays as it is.
    Unsaid,
    /// Its value, or that it is null.
    Said(Option<T>),
}

impl<T> Told<T> {
    /// Whether nothing is said.
    pub fn is_unsaid(&self) -> bool
        ensures { result ≡ states.is_unsaid self.now }
    {
        matches!(self, Told::Unsaid)
    }
}

/// What a message says of the nine properties of a [`State`](crate::State).
pub struct Change {
    pub protocol_version: Told<Text>,
    pub mrs_url: Told<Text>,
    pub content_id: Told<Text>,
    pub content_id_status: Told<Text>,
    pub presentation_status: Told<Text>,
    pub wc_url: Told<Text>,
    pub ts_url: Told<Text>,
    pub te_url: Told<Text>,
    pub timelines: Told<Timelines>,
}

impl Drop for Change {
    fn drop(self) {
        let Change {
            protocol_version: _,
            mrs_url: _,
            content_id: _,
            content_id_status: _,
            presentation_status: _,
            wc_url: _,
            ts_url: _,
            te_url: _,
            timelines: _,
        } = self;
    }
}

impl Change {
    /// Sets each property to what is said of it.
    #[tactic(auto, unfolding(crate::specs::States::applied))]
    pub(crate) fn set(self, state: &mut State)
        ensures { state.new ≡ states.applied state.old self }
    {
        let Change {
            protocol_version,
            mrs_url,
            content_id,
            content_id_status,
            presentation_status,
            wc_url,
            ts_url,
            te_url,
            timelines,
        } = self;
        set_words(&mut state.protocol_version, protocol_version);
        set_words(&mut state.mrs_url, mrs_url);
        set_words(&mut state.content_id, content_id);
        set_words(&mut state.content_id_status, content_id_status);
        set_words(&mut state.presentation_status, presentation_status);
        set_words(&mut state.wc_url, wc_url);
        set_words(&mut state.ts_url, ts_url);
        set_words(&mut state.te_url, te_url);
        set_timelines(&mut state.timelines, timelines);
    }

    /// Says nothing of any property.
    pub(crate) fn nothing() -> Change {
        Change {
            protocol_version: Told::Unsaid,
            mrs_url: Told::Unsaid,
            content_id: Told::Unsaid,
            content_id_status: Told::Unsaid,
            presentation_status: Told::Unsaid,
            wc_url: Told::Unsaid,
            ts_url: Told::Unsaid,
            te_url: Told::Unsaid,
            timelines: Told::Unsaid,
        }
    }

    /// Whether nothing is said of any property.
    pub fn is_empty(&self) -> bool
        ensures { result ≡ states.is_empty self.now }
    {
        self.protocol_version.is_unsaid()
            && self.mrs_url.is_unsaid()
            && self.content_id.is_unsaid()
            && self.content_id_status.is_unsaid()
            && self.presentation_status.is_unsaid()
            && self.wc_url.is_unsaid()
            && self.ts_url.is_unsaid()
            && self.te_url.is_unsaid()
            && self.timelines.is_unsaid()
    }
}
