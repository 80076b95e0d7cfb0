ghost use Rattle.std.specs.Prelude.{◌≡◌, None};

use crate::log::Log;
use crate::seen::Seen;
use crate::sockets::Sockets;
use css_devices::Tally;
use css_num::Text;
use css_outside::{Address, Clocked, Failure, Heard, Kind, OutFault, Outside, Why, Wrote};
use std::alloc::Global;
use std::env::Env;
use std::net::Net;
use std::random::RandomSource;
use std::time::Clock;

/// What the sockets need of the runtime, such as a reference to the host's.
pub trait NetRuntime: Net + Clock + RandomSource + Env + Eprint + Copy {}

impl<R: Net + Clock + RandomSource + Env + Eprint + Copy> NetRuntime for R {}

/// The system's clock and its sockets.
///
/// Its readings and its counts are those of `css_devices::Tally`.
#[derive(Drop)]
pub struct NetOutside<R: NetRuntime> {
    rt: R,
    tally: Tally,
    sockets: Sockets,
    seen: Seen,
}

impl<R: NetRuntime> NetOutside<R> {
    /// No socket is open, and the clock wasn't read. With `CSS_LOG=1` in the environment a line is written on standard
    /// error for each thing that is done, at most 10,000 of them.
    pub fn new(alloc: Global, rt: R) -> NetOutside<R> {
        NetOutside {
            rt,
            tally: Tally::new(),
            sockets: Sockets::new(alloc, Log::of(&rt)),
            seen: Seen::new(alloc),
        }
    }

    /// What the peers that were dialled have told.
    pub fn seen(&self) -> &Seen {
        &self.seen
    }

    /// How the last dial that failed did, where one was tried. One that isn't done, or may not begin yet, changes
    /// nothing; it is `TimedOut` where none has failed.
    pub fn last_dial_failure(&self) -> Option<Failure> {
        self.sockets.failures().last()
    }

    /// What was wrong with the answer to the last dial that failed, in words, where it was a status 101 that makes no
    /// session. As a failure that is `NoWebSocket`.
    pub fn wrong_answer(&self) -> Option<&'static str> {
        let wrong = self.sockets.failures().wrong()?;
        Some(wrong.words())
    }

    /// Closes the sessions that are open, and waits until the peers have what they were told, for a second at most.
    /// Call it when the run is over.
    pub fn end(&mut self) {
        // What can't be told now never can.
        let _ = self.sockets.end(&self.rt);
    }
}

impl<R: NetRuntime> Outside for NetOutside<R> {
    ghost told = { λ _. None };

    ghost counts = { λ outside. outside.tally.counts };

    fn listen(&mut self, host: &Text, port: u16) -> Result<(), OutFault> {
        let listens = self.sockets.listen(&self.rt, host, port);
        self.tally.plain(listens)
    }

    fn now(&mut self, why: Why) -> Result<Clocked, OutFault> {
        let begun = match why {
            Why::Turn => self.sockets.begin_turn(&self.rt),
            _ => Ok(()),
        };
        match begun {
            Ok(()) => self.tally.now(&self.rt),
            Err(fault) => self.tally.unread(fault),
        }
    }

    fn rest(&mut self, until: u64) {
        self.sockets.tell_rest(until);
    }

    fn dial(&mut self, kind: Kind, to: &Address) -> Result<u32, OutFault> {
        let Some(peer) = self.tally.next_peer() else {
            return self.tally.not_dialled(OutFault::Failed(Failure::Other));
        };
        let dialled = self.sockets.dial(&self.rt, kind, to, peer);
        self.seen.dials(kind, peer, &dialled);
        self.tally.dialled(peer, dialled)
    }

    fn accept(&mut self) -> Result<Option<(u32, Kind)>, OutFault> {
        let Some(peer) = self.tally.next_peer() else {
            return self.tally.plain(Err(OutFault::Failed(Failure::Other)));
        };
        let came = self.sockets.accept(&self.rt, peer);
        self.tally.opened(peer, came)
    }

    fn send_datagram(&mut self, peer: u32, bytes: &[u8; 32]) -> Result<(), OutFault> {
        self.seen.sends(peer);
        let sent = self.sockets.send_datagram(peer, bytes);
        self.tally.plain(sent)
    }

    fn take_datagram(&mut self, into: &mut [u8; 64]) -> Result<Option<(u32, usize)>, OutFault> {
        let taken = self.sockets.take_datagram(&self.rt, into);
        self.seen.takes(&taken);
        self.tally.plain(taken)
    }

    fn take_text(&mut self, peer: u32) -> Result<Heard, OutFault> {
        let heard = self.sockets.take_text(&self.rt, peer);
        self.seen.hears(peer, &heard);
        self.tally.plain(heard)
    }

    fn send_text(&mut self, peer: u32, text: &[u8]) -> Result<Wrote, OutFault> {
        let wrote = self.sockets.send_text(&self.rt, peer, text);
        self.tally.plain(wrote)
    }

    fn hang_up(&mut self, peer: u32) -> Result<(), OutFault> {
        let hung_up = self.sockets.hang_up(&self.rt, peer);
        self.tally.plain(hung_up)
    }
}
