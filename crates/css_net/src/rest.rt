//! How long an end rests: until the reading that its loop told, or until something is due here.

use crate::pace::PAUSE;
use std::time::Duration;

/// How many turns in a row may come sooner than a pause after the one before. Then one pauses, as in a run by turns: so
/// no peer can keep an end busy by what it sends on a session.
const MOST_HURRIED: u32 = 8;
/// The longest rest, in nanoseconds.
const LONGEST_REST: u64 = 60_000_000_000;
/// Up to this what is left of a rest is slept through, in nanoseconds. The system waits for sockets by whole
/// milliseconds.
pub(crate) const FINE: u64 = 250_000;
/// Up to this a wait ends by its time but for 0.1 milliseconds. A longer one may end late, by a two-hundredth.
const SHORT: u64 = 16_000_000;
/// By which part of it a long wait is cut, so that a short one is left after it.
const CUT: u64 = 128;
/// A millisecond, in nanoseconds.
const MILLISECOND: u64 = 1_000_000;

/// How long to wait for the sockets, where so much of a rest is left: none where that is slept through. It is too long
/// by less than a millisecond, or too short, and then another wait follows.
pub(crate) fn wait_of(left: u64) -> Duration {
    let wait = left.min(LONGEST_REST).saturating_sub(FINE);
    if wait < SHORT {
        return Duration::from_nanos(wait);
    }
    let early = wait.saturating_sub(wait / CUT);
    Duration::from_nanos(early.saturating_sub(early % MILLISECOND))
}

/// What a loop told of its rest, and how often it has hurried.
#[derive(Clone, Copy)]
pub(crate) struct Rest {
    /// The reading before which nothing is due, if the loop told one in this turn.
    until: Option<u64>,
    /// Whether something came in this turn, so that the next one may have more to do.
    pub(crate) came: bool,
    /// When this turn began.
    since: u64,
    /// How many turns in a row came sooner than a pause after the one before.
    hurried: u32,
}

impl Rest {
    /// Nothing was told.
    pub(crate) fn new() -> Rest {
        Rest {
            until: None,
            came: false,
            since: 0,
            hurried: 0,
        }
    }

    /// A turn begins.
    pub(crate) fn begin_turn(&mut self, now: u64) {
        self.until = None;
        self.came = false;
        self.since = now;
    }

    /// Nothing is due before this reading.
    pub(crate) fn tell(&mut self, until: u64) {
        self.until = Some(until);
    }

    /// The reading that was told in this turn. There is none where the last turns hurried too much. Where it has passed
    /// there is none either: what is due in each turn makes no more of them.
    pub(crate) fn told(&mut self, now: u64) -> Option<u64> {
        if self.hurried >= MOST_HURRIED {
            self.hurried = 0;
            return None;
        }
        match self.until {
            Some(until) if now < until || self.came => Some(until),
            _ => None,
        }
    }

    /// A time at which a dial is due, if it is asked for in each turn. One that isn't asked for any more is over: its
    /// time was before this turn.
    pub(crate) fn in_turn(&self, dial: u64) -> u64 {
        if dial < self.since { u64::MAX } else { dial }
    }

    /// A rest ends that began then.
    pub(crate) fn end(&mut self, begun: u64, now: u64) {
        if now.saturating_sub(begun) < PAUSE {
            self.hurried = self.hurried.saturating_add(1);
        } else {
            self.hurried = 0;
        }
    }
}
