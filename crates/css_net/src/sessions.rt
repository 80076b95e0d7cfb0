use crate::session::{Came, Line};
use css_devices::faults::no_room;
use css_outside::{Heard, OutFault, Wrote};
use std::alloc::Global;
use tungstenite::CloseCode;

/// How many sessions may be open that peers opened. The next one is told to come again.
const MOST_SERVED: usize = 256;
/// How long nothing may come on a session before its peer is asked whether it is there, in nanoseconds.
const ASKED_AFTER: u64 = 30_000_000_000;
/// How long nothing may come on a session before it is closed, in nanoseconds.
const CLOSED_AFTER: u64 = 60_000_000_000;
/// How often silent sessions are looked for, in nanoseconds.
const BETWEEN_LOOKS: u64 = 1_000_000_000;

/// An open session.
#[derive(Drop)]
struct Session {
    peer: u32,
    line: Line,
    /// Whether the peer opened it.
    served: bool,
    /// Something may have come that was not read yet.
    named: bool,
    /// When something came last.
    heard: u64,
    /// The peer was asked since then whether it is there.
    asked: bool,
    /// It was closed for its silence, and is still to be told as such.
    over: bool,
}

impl Session {
    /// What has come. A session on which nothing has come costs no call of the system.
    fn hear(&mut self, alloc: Global, now: u64) -> Result<Heard, OutFault> {
        if self.over {
            return Ok(Heard::Closed);
        }
        if !self.named {
            return Ok(Heard::Quiet);
        }
        let came = self.line.hear(alloc)?;
        if self.line.has_come() {
            self.heard = now;
            self.asked = false;
        }
        match came {
            Came::Text(text) => Ok(Heard::Text(text)),
            Came::Other => Ok(Heard::Quiet),
            Came::Nothing => {
                self.named = self.line.was_cut();
                Ok(Heard::Quiet)
            }
            Came::End(_) => Ok(Heard::Closed),
        }
    }

    /// When there is something to do at this session, though nothing comes: at once, or once it is silent for too long.
    fn next(&self) -> u64 {
        if self.named || self.over {
            return 0;
        }
        let silence = if self.asked {
            CLOSED_AFTER
        } else {
            ASKED_AFTER
        };
        self.heard.saturating_add(silence)
    }

    /// Asks a silent peer whether it is there, and closes the session of one that doesn't answer.
    fn mind(&mut self, now: u64) {
        let silent = now.saturating_sub(self.heard);
        if silent >= CLOSED_AFTER && !self.over {
            self.line.close(CloseCode::Away);
            self.over = true;
        } else if silent >= ASKED_AFTER && !self.asked {
            self.line.ping();
            self.asked = true;
        }
    }
}

/// The open sessions, in order of peer.
#[derive(Drop)]
pub(crate) struct Sessions {
    alloc: Global,
    list: Vec<Session>,
    /// When silent sessions were looked for last.
    minded: u64,
}

impl Sessions {
    /// None is open.
    pub(crate) fn new(alloc: Global) -> Sessions {
        Sessions {
            alloc,
            list: Vec::new(alloc),
            minded: 0,
        }
    }

    /// Adds a session, whose peer is above all others. Some of it may have come with its handshake.
    pub(crate) fn open(
        &mut self,
        peer: u32,
        line: Line,
        served: bool,
        now: u64,
    ) -> Result<(), OutFault> {
        let session = Session {
            peer,
            line,
            served,
            named: true,
            heard: now,
            asked: false,
            over: false,
        };
        self.list.push(session).map_err(no_room)
    }

    /// Whether as many sessions are open as peers may have opened.
    pub(crate) fn is_full(&self) -> bool {
        let served = self.list.iter().filter(|session| session.served).count();
        served >= MOST_SERVED
    }

    fn place_of(&self, peer: u32) -> Option<usize> {
        self.list
            .binary_search_by_key(&peer, |session| session.peer)
            .ok()
    }

    fn session_of(&mut self, peer: u32) -> Option<&mut Session> {
        let place = self.place_of(peer)?;
        self.list.get_mut(place)
    }

    /// Something has come on a session. False where there is no such session.
    pub(crate) fn name(&mut self, peer: u32) -> bool {
        match self.session_of(peer) {
            Some(session) => {
                session.named = true;
                true
            }
            None => false,
        }
    }

    /// What has come on a session. One that isn't there is closed.
    pub(crate) fn hear(&mut self, peer: u32, now: u64) -> Result<Heard, OutFault> {
        let alloc = self.alloc;
        match self.session_of(peer) {
            Some(session) => session.hear(alloc, now),
            None => Ok(Heard::Closed),
        }
    }

    /// Says a text. A session that isn't there is gone, and so is one whose peer takes too little for too long.
    pub(crate) fn say(&mut self, peer: u32, text: &str) -> Result<Wrote, OutFault> {
        let alloc = self.alloc;
        match self.session_of(peer) {
            Some(session) => session.line.say(alloc, text),
            None => Ok(Wrote::Gone),
        }
    }

    /// When there is something to do at a session, though nothing comes: at once, or where silent peers are minded
    /// next.
    pub(crate) fn next(&self) -> u64 {
        let mut next = u64::MAX;
        for session in &self.list {
            next = next.min(session.next());
        }
        if next == 0 {
            return 0;
        }
        next.max(self.minded.saturating_add(BETWEEN_LOOKS))
    }

    /// Minds silent peers, once a second.
    pub(crate) fn mind(&mut self, now: u64) {
        if now.saturating_sub(self.minded) < BETWEEN_LOOKS {
            return;
        }
        self.minded = now;
        for session in self.list.iter_mut() {
            session.mind(now);
        }
    }

    /// Takes a session out.
    pub(crate) fn part(&mut self, peer: u32) -> Option<Line> {
        let place = self.place_of(peer)?;
        if place < self.list.len() {
            Some(self.list.remove(place).line)
        } else {
            None
        }
    }

    /// Takes the last session out: its peer and its line.
    pub(crate) fn part_last(&mut self) -> Option<(u32, Line)> {
        let session = self.list.pop()?;
        Some((session.peer, session.line))
    }
}
