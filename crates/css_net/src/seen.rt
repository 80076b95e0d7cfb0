//! What the calls of a run have shown of its television, for a person who asks how far the run came.

use css_outside::{Heard, Kind, OutFault};
use std::alloc::Global;

/// How much of a text is kept, in bytes.
const MOST_KEPT: usize = 4_096;

/// What the dialled peers of a run have told it. Nothing is promised of it.
#[derive(Drop)]
pub struct Seen {
    /// The front of the last CSS-CII text.
    pub state: Vec<u8>,
    /// Whether a wall clock was dialled, for which its address has to be told.
    pub has_clock: bool,
    /// How many requests were sent to the wall clock.
    pub requests: u64,
    /// How many datagrams came from it.
    pub responses: u64,
    /// Whether a CSS-TS session was dialled, for which its address has to be told.
    pub has_timestamps: bool,
    /// How many CSS-TS texts came.
    pub timestamps: u64,
    clock_peer: Option<u32>,
    state_peer: Option<u32>,
    timestamp_peer: Option<u32>,
}

impl Seen {
    /// No peer was dialled.
    pub(crate) fn new(alloc: Global) -> Seen {
        Seen {
            state: Vec::new(alloc),
            has_clock: false,
            requests: 0,
            responses: 0,
            has_timestamps: false,
            timestamps: 0,
            clock_peer: None,
            state_peer: None,
            timestamp_peer: None,
        }
    }

    /// A dial was made, which opened this peer's session where it is Ok.
    pub(crate) fn dials(&mut self, kind: Kind, peer: u32, dialled: &Result<(), OutFault>) {
        let opened = match dialled {
            Ok(()) => Some(peer),
            Err(_) => None,
        };
        match kind {
            Kind::Wc => {
                self.has_clock = true;
                self.clock_peer = opened;
            }
            Kind::Cii => self.state_peer = opened,
            Kind::Ts => {
                self.has_timestamps = true;
                self.timestamp_peer = opened;
            }
        }
    }

    /// A datagram is sent.
    pub(crate) fn sends(&mut self, peer: u32) {
        if self.clock_peer == Some(peer) {
            self.requests = self.requests.saturating_add(1);
        }
    }

    /// A datagram was asked for.
    pub(crate) fn takes(&mut self, taken: &Result<Option<(u32, usize)>, OutFault>) {
        let Ok(Some((peer, _))) = taken else {
            return;
        };
        if self.clock_peer == Some(*peer) {
            self.responses = self.responses.saturating_add(1);
        }
    }

    fn keep(&mut self, text: &[u8]) {
        self.state.clear();
        // A text that there is no memory for isn't shown.
        let _ = self
            .state
            .extend_from_slice(text.get(..MOST_KEPT).unwrap_or(text));
    }

    /// A text was asked for.
    pub(crate) fn hears(&mut self, peer: u32, heard: &Result<Heard, OutFault>) {
        let Ok(Heard::Text(text)) = heard else {
            return;
        };
        if self.state_peer == Some(peer) {
            self.keep(text.bytes());
        } else if self.timestamp_peer == Some(peer) {
            self.timestamps = self.timestamps.saturating_add(1);
        }
    }
}
