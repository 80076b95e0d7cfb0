ghost use Rattle.std.specs.Prelude.{◌≡◌, ◌<◌, [], ◌∷◌, take, slice_get, None, IfOk, IsTrue, ◌==◌};
ghost use Rattle.std.specs.List.{list_any, last_or};
ghost use Rattle.css_model.specs.Wire as wire;
ghost use Rattle.css_client.specs.Clients.{is_among};

use circular_buffer::HeapCircularBuffer;
use css_model::Stamp;
use css_num::Memory;
use css_wc::reading;
use std::alloc::Global;
use std::marker::Model;

/// To how many requests, the newest, an answer may still come.
const KEPT: usize = 64;

/// A second in nanoseconds.
const SECOND: u32 = 1_000_000_000;

/// The readings of the last 64 requests. Contracts see them with the newest first.
#[derive(Drop)]
pub(crate) struct Asked {
    ring: HeapCircularBuffer<u64>,
}

impl Model for Asked {
    ghost use Rattle.std.specs.Prelude.{◌≡◌, List, ℕ, reverse};

    ghost Value = { List ℕ };

    ghost view = { λ a. reverse a.ring.items };

    ghost invariant = { λ a. a.ring.capacity ≡ 64 };
}

impl Asked {
    pub(crate) fn new(alloc: Global) -> Result<Asked, Memory>
        ensures { IfOk result (λ asked. asked ≡ []) }
    {
        Ok(Asked {
            ring: HeapCircularBuffer::with_capacity(alloc, KEPT)?,
        })
    }

    /// Adds a request, and forgets the one before the last 64.
    #[tactic(auto, using(crate::proofs::Rings::newest_of_ring))]
    pub(crate) fn note(&mut self, request: u64)
        ensures { self.new ≡ take 64 (request ∷ self.old) }
    {
        self.ring.push_back(request);
    }

    /// The oldest of the requests.
    #[tactic(auto, using(crate::proofs::Rings::oldest_of_ring))]
    pub(crate) fn oldest(&self) -> Option<u64>
        ensures { result ≡ last_or None self.now }
    {
        self.ring.front().copied()
    }

    /// Whether one of the requests has this originate value.
    #[tactic(auto, using(crate::proofs::Rings::found_by_reading))]
    pub(crate) fn has_originate(&self, originate: Stamp) -> bool
        ensures value { result ≡ is_among originate self.now }
        ensures range { IsTrue result → originate.nanoseconds < wire.second }
    {
        if originate.nanoseconds >= SECOND {
            return false;
        }
        self.is_asked(reading(originate))
    }

    /// The newest of the requests.
    #[tactic(auto, using(crate::proofs::Rings::newest_at_back))]
    fn newest(&self) -> Option<u64>
        ensures { result ≡ slice_get self.now 0 }
    {
        self.ring.back().copied()
    }

    /// Whether a request is among them. Mostly it is the newest.
    fn is_asked(&self, request: u64) -> bool
        ensures { result ≡ list_any (λ asked. asked == request) self.now }
    {
        match self.newest() {
            Some(newest) if newest == request => true,
            _ => self.contains(request),
        }
    }

    fn contains(&self, request: u64) -> bool
        ensures { result ≡ list_any (λ asked. asked == request) self.now }
    {
        let (front, back) = self.ring.as_slices();
        front.contains(&request) || back.contains(&request)
    }

    pub(crate) fn clear(&mut self)
        ensures { self.new ≡ [] }
    {
        self.ring.clear();
    }
}
