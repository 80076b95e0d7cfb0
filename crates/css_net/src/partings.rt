//! Sessions that are over here, until the peer has been told.
//!
//! A socket that is closed while something that came is unread resets its connection, and a peer may then lose the
//! close frame that says why. So what waits is written out, and what still comes is read past for a short time.

use crate::session::{Line, Stop};
use css_devices::faults::no_room;
use css_outside::OutFault;
use std::alloc::Global;

/// How long a session may part, in nanoseconds.
pub(crate) const LONGEST_PARTING: u64 = 1_000_000_000;
/// How many sessions may part at once; of more, the oldest is cut off.
const MOST_PARTING: usize = 256;
/// How many pieces are read past in one turn.
const MOST_PIECES: usize = 16;

/// A session that parts, or a connection whose upgrade was refused.
#[derive(Drop)]
struct Parting {
    /// The name under which it is watched.
    name: usize,
    line: Line,
    since: u64,
    /// Something may have come, or the stream may take more.
    named: bool,
    /// All was written, and the peer knows that nothing more will come.
    told: bool,
    /// Nothing is left to be done.
    over: bool,
}

impl Parting {
    fn write_out(&mut self) {
        match self.line.flush() {
            Ok(()) => {
                self.told = true;
                self.over = self.line.metered().end_writing().is_err();
            }
            Err(Stop::Waits) => {}
            Err(_) => self.over = true,
        }
    }

    /// Reads past what has come.
    fn read_past(&mut self) {
        for _ in 0..MOST_PIECES {
            match self.line.skip() {
                Ok(0) => {
                    self.over = true;
                    return;
                }
                Ok(_) => {}
                Err(stop) => {
                    self.named = false;
                    self.over = !matches!(stop, Stop::Waits);
                    return;
                }
            }
        }
    }

    /// Writes out what waits, and reads past what comes.
    fn go_on(&mut self) {
        if !self.told {
            self.write_out();
        }
        if !self.over {
            self.read_past();
        }
    }

    /// One turn, at this time.
    fn turn(&mut self, now: u64) {
        if self.named {
            self.go_on();
        }
        if now.saturating_sub(self.since) >= LONGEST_PARTING {
            self.over = true;
        }
    }

    /// When there is something to do: at once, or once it has taken too long.
    fn next(&self) -> u64 {
        if self.named {
            return 0;
        }
        self.since.saturating_add(LONGEST_PARTING)
    }

    /// Something has come on the session that is watched under this name.
    fn name(&mut self, name: usize) {
        if self.name == name {
            self.named = true;
        }
    }
}

/// The sessions that part, the oldest first.
#[derive(Drop)]
pub(crate) struct Partings {
    list: Vec<Parting>,
}

impl Partings {
    /// None parts.
    pub(crate) fn new(alloc: Global) -> Partings {
        Partings {
            list: Vec::new(alloc),
        }
    }

    /// Cuts off the oldest session, where as many part as may.
    fn make_room(&mut self) {
        if self.list.len() >= MOST_PARTING {
            drop(self.list.remove(0));
        }
    }

    /// Adds a session that is watched under this name. Its first turn comes at once: the program may wait for a child
    /// next, and a child that is the peer waits until it knows that nothing more will come.
    pub(crate) fn add(&mut self, name: usize, line: Line, since: u64) -> Result<(), OutFault> {
        self.make_room();
        let mut parting = Parting {
            name,
            line,
            since,
            named: true,
            told: false,
            over: false,
        };
        parting.turn(since);
        self.list.push(parting).map_err(no_room)
    }

    /// Something has come on a session that parts.
    pub(crate) fn name(&mut self, name: usize) {
        for parting in self.list.iter_mut() {
            parting.name(name);
        }
    }

    /// Whether none parts.
    pub(crate) fn is_empty(&self) -> bool {
        self.list.is_empty()
    }

    /// When there is something to do, though nothing comes.
    pub(crate) fn next(&self) -> u64 {
        let mut next = u64::MAX;
        for parting in &self.list {
            next = next.min(parting.next());
        }
        next
    }

    /// One turn of each, at this time.
    pub(crate) fn turn(&mut self, now: u64) {
        for parting in self.list.iter_mut() {
            parting.turn(now);
        }
        self.list.retain(|parting| !parting.over);
    }
}
