//! When a dial may begin, and when a name may be looked up.

use crate::names::addresses_of;
use css_devices::faults::{no_memory, no_room};
use css_devices::monotone;
use css_num::Text;
use css_outside::{Failure, OutFault};
use std::alloc::Global;
use std::net::{Net, SocketAddr};
use std::time::{Clock, Duration};

/// How long a pause is, in nanoseconds. The system may end it a little later.
pub(crate) const PAUSE: u64 = 4_000_000;
/// How long after a dial the next one of its kind begins at the earliest, in nanoseconds.
const BETWEEN_DIALS: u64 = 500_000_000;
/// How long a name that wasn't found isn't looked up again, in nanoseconds.
const BETWEEN_LOOK_UPS: u64 = 5_000_000_000;
/// How many names that weren't found are remembered: one for each kind of dial.
const MOST_MISSING: usize = 3;

/// The monotone clock in nanoseconds, or 0 where it can't be read.
pub(crate) fn time<C: Clock>(rt: &C) -> u64 {
    monotone(rt).unwrap_or(0)
}

/// What is left of a pause that began then.
pub(crate) fn left<C: Clock>(rt: &C, begun: u64) -> Duration {
    let over = begun.saturating_add(PAUSE);
    Duration::from_nanos(over.saturating_sub(time(rt)))
}

/// The pace of the dials of one kind.
#[derive(Clone, Copy)]
pub(crate) struct Pace {
    begun: Option<u64>,
}

impl Pace {
    /// None was begun.
    pub(crate) fn new() -> Pace {
        Pace { begun: None }
    }

    /// From when the next dial may begin.
    pub(crate) fn next(&self) -> u64 {
        match self.begun {
            Some(begun) => begun.saturating_add(BETWEEN_DIALS),
            None => 0,
        }
    }

    /// Whether a dial may begin now. One that may counts as begun.
    pub(crate) fn begins(&mut self, now: u64) -> bool {
        if now < self.next() {
            return false;
        }
        self.begun = Some(now);
        true
    }
}

/// A host that wasn't found: since when, and what the system said of it.
#[derive(Drop)]
struct Missing {
    host: Text,
    since: u64,
    failure: Failure,
}

impl Missing {
    fn is_still(&self, host: &Text, now: u64) -> bool {
        self.host.bytes() == host.bytes() && now.saturating_sub(self.since) < BETWEEN_LOOK_UPS
    }
}

/// Looks names up, and remembers the last ones that weren't found, whatever they were dialled for.
#[derive(Drop)]
pub(crate) struct LookUps {
    alloc: Global,
    missing: Vec<Missing>,
    oldest: usize,
}

impl LookUps {
    /// No name was looked up.
    pub(crate) fn new(alloc: Global) -> LookUps {
        LookUps {
            alloc,
            missing: Vec::new(alloc),
            oldest: 0,
        }
    }

    /// How a name's last look-up failed, where it did so not long ago.
    fn failure_of(&self, host: &Text, now: u64) -> Option<Failure> {
        let missing = self
            .missing
            .iter()
            .find(|missing| missing.is_still(host, now))?;
        Some(missing.failure)
    }

    /// Notes that a host wasn't found. The oldest one makes room.
    fn miss(&mut self, host: &Text, since: u64, failure: Failure) -> Result<(), OutFault> {
        let host = host.clone().map_err(no_memory)?;
        let missing = Missing {
            host,
            since,
            failure,
        };
        if self.missing.len() < MOST_MISSING {
            self.missing.push(missing).map_err(no_room)?;
        } else if let Some(place) = self.missing.get_mut(self.oldest) {
            *place = missing;
            self.oldest = self.oldest.saturating_add(1) % MOST_MISSING;
        }
        Ok(())
    }

    /// The addresses of a port of a host. A name is looked up, which may take seconds. One that wasn't found is looked
    /// up again some seconds after that; until then it fails at once, as it did.
    pub(crate) fn look_up<R: Net + Clock>(
        &mut self,
        rt: &R,
        host: &Text,
        port: u16,
        now: u64,
    ) -> Result<Vec<SocketAddr>, OutFault> {
        if let Some(failure) = self.failure_of(host, now) {
            return Err(OutFault::Failed(failure));
        }
        match addresses_of(self.alloc, rt, host, port) {
            Ok(addresses) => Ok(addresses),
            Err(OutFault::Memory) => Err(OutFault::Memory),
            Err(OutFault::Failed(failure)) => {
                self.miss(host, time(rt), failure)?;
                Err(OutFault::Failed(failure))
            }
        }
    }
}
