//! All sockets of one end: what has come on them, and the pauses.
ghost use Rattle.std.specs.Prelude.{IfOk, IfSome};
ghost use Rattle.css_outside.specs.Outsides.{IsSession};

use crate::answers::DialFault;
use crate::datagrams::Datagrams;
use crate::dials::Dials;
use crate::failures::Failures;
use crate::log::{Event, Log};
use crate::metered::Metered;
use crate::names::addresses_of;
use crate::pace::{LookUps, PAUSE, time};
use crate::partings::{LONGEST_PARTING, Partings};
use crate::refusal::Refusal;
use crate::rest::Rest;
use crate::session::Line;
use crate::sessions::Sessions;
use crate::upgrades::{FIRST_UPGRADE, Service, Upgraded, Upgrades};
use crate::watch::{NOBODY, Watch};
use css_devices::faults::fault_of;
use css_num::Text;
use css_outside::{Address, Failure, Heard, Kind, OutFault, Wrote};
use std::alloc::Global;
use std::net::{Net, SocketAddr};
use std::random::RandomSource;
use std::time::{Clock, Duration};
use std::{io, str, thread};
use tungstenite::CloseCode;

/// How many handshakes may end in one turn.
const MOST_ENDED: usize = 16;
/// The name of the session of peer 0. The names of sessions end below those of handshakes.
const FIRST_SESSION: usize = 16;

/// The sockets of one end. Each call that needs the runtime is handed it, so that the type has no bounds.
pub(crate) struct Sockets {
    pub(crate) alloc: Global,
    pub(crate) watch: Watch,
    /// Whether the watch was not asked since the last look for a datagram.
    pub(crate) stale: bool,
    /// Whether there was a pause in this turn, or a datagram came.
    pub(crate) paused: bool,
    pub(crate) rest: Rest,
    pub(crate) datagrams: Datagrams,
    pub(crate) upgrades: Upgrades,
    pub(crate) dials: Dials,
    pub(crate) look_ups: LookUps,
    pub(crate) failures: Failures,
    pub(crate) sessions: Sessions,
    pub(crate) partings: Partings,
    pub(crate) log: Log,
}

/// The name under which a session is watched.
fn name_of(peer: u32) -> usize {
    FIRST_SESSION + peer as usize
}

// One function drops its many parts: what holds the sockets needn't see them.
impl Drop for Sockets {
    fn drop(self) {
        let Sockets {
            alloc: _,
            watch: _,
            stale: _,
            paused: _,
            rest: _,
            datagrams: _,
            upgrades: _,
            dials: _,
            look_ups: _,
            failures: _,
            sessions: _,
            partings: _,
            log: _,
        } = self;
    }
}

impl Sockets {
    /// None is open.
    pub(crate) fn new(alloc: Global, log: Log) -> Sockets {
        Sockets {
            alloc,
            watch: Watch::new(alloc),
            stale: true,
            paused: true,
            rest: Rest::new(),
            datagrams: Datagrams::new(alloc),
            upgrades: Upgrades::new(alloc),
            dials: Dials::new(alloc),
            look_ups: LookUps::new(alloc),
            failures: Failures::new(),
            sessions: Sessions::new(alloc),
            partings: Partings::new(alloc),
            log,
        }
    }

    // ---- what has come

    fn mark(&mut self, name: usize) {
        if name == NOBODY {
            return;
        }
        self.partings.name(name);
        if name < FIRST_SESSION || name >= FIRST_UPGRADE {
            self.upgrades.name(name);
            self.rest.came = true;
        } else if let Ok(peer) = u32::try_from(name - FIRST_SESSION) {
            let is_open = self.sessions.name(peer);
            self.rest.came = self.rest.came || is_open;
        }
    }

    /// Waits until something comes on a session, or the pause is over, and notes where it came.
    pub(crate) fn gather<C: Clock>(&mut self, rt: &C, pause: Duration) -> Result<(), OutFault> {
        self.stale = false;
        let named = self.watch.wait(rt, pause).map_err(fault_of)?;
        for name in named {
            self.mark(name);
        }
        let now = time(rt);
        self.sessions.mind(now);
        self.partings.turn(now);
        Ok(())
    }

    /// Notes once in each turn what has come on the sessions.
    fn look<C: Clock>(&mut self, rt: &C) -> Result<(), OutFault> {
        if self.stale {
            self.gather(rt, Duration::ZERO)?;
        }
        Ok(())
    }

    // ---- a television's sockets

    /// Listens at an address, and for sessions of CSS-TS at the next port. All addresses of this machine at once can't
    /// be listened at: nobody could dial what is then published.
    fn listen_at<R: Net>(
        &mut self,
        rt: &R,
        address: SocketAddr,
        next_port: u16,
    ) -> Result<(), OutFault> {
        if address.ip().is_unspecified() {
            return Err(OutFault::Failed(Failure::NotHere));
        }
        let mut next = address;
        next.set_port(next_port);
        let listener = self
            .datagrams
            .listener(rt, &mut self.watch, address)
            .map_err(fault_of)?;
        self.upgrades.listen(rt, &mut self.watch, address, next)?;
        self.datagrams.listen(listener);
        Ok(())
    }

    /// Listens at the first address of the host that is free, and gives it.
    fn listen_first<R: Net>(
        &mut self,
        rt: &R,
        host: &Text,
        port: u16,
    ) -> Result<SocketAddr, OutFault> {
        let Some(next_port) = port.checked_add(1) else {
            return Err(OutFault::Failed(Failure::Other));
        };
        let addresses = addresses_of(self.alloc, rt, host, port)?;
        let mut last = OutFault::Failed(Failure::NoSuchHost);
        for address in &addresses {
            match self.listen_at(rt, *address, next_port) {
                Ok(()) => return Ok(*address),
                Err(OutFault::Memory) => return Err(OutFault::Memory),
                Err(fault) => last = fault,
            }
        }
        Err(last)
    }

    /// Listens at the first address of the host that is free.
    pub(crate) fn listen<R: Net + Eprint>(
        &mut self,
        rt: &R,
        host: &Text,
        port: u16,
    ) -> Result<(), OutFault> {
        match self.listen_first(rt, host, port) {
            Ok(address) => {
                self.log.write(rt, Event::Listens(address));
                Ok(())
            }
            Err(fault) => {
                self.log.write(rt, Event::ListensNot(host, port, fault));
                Err(fault)
            }
        }
    }

    /// The stream of a session, watched under its peer's name from now on.
    fn renamed(&mut self, mut line: Line, peer: u32) -> io::Result<Line> {
        self.watch.rename(line.stream(), name_of(peer))?;
        Ok(line)
    }

    /// Lets a connection part whose upgrade was refused. It is watched under this name.
    fn part_refused<R: Eprint>(
        &mut self,
        rt: &R,
        name: usize,
        refusal: Refusal,
        stream: Metered,
        now: u64,
    ) -> Result<(), OutFault> {
        let mut line = Line::served(self.alloc, stream, Vec::new(self.alloc));
        self.log
            .write(rt, Event::Refused(line.from(), refusal.words()));
        self.partings.add(name, line, now)
    }

    /// The next handshake that a peer began and that stands.
    fn next_upgrade<R: Net + Eprint>(
        &mut self,
        rt: &R,
        now: u64,
    ) -> Result<Option<(Service, Line)>, OutFault> {
        self.upgrades.connect(rt, &mut self.watch, now)?;
        for _ in 0..MOST_ENDED {
            match self.upgrades.turn()? {
                None => return Ok(None),
                Some(Upgraded::Opened(service, stream, rest)) => {
                    return Ok(Some((service, Line::served(self.alloc, stream, rest))));
                }
                Some(Upgraded::Refused(name, refusal, stream)) => {
                    self.part_refused(rt, name, refusal, stream, now)?;
                }
                Some(Upgraded::Ended) => {}
            }
        }
        Ok(None)
    }

    /// Opens a session that a peer asked for, where there is room.
    fn open<R: Eprint>(
        &mut self,
        rt: &R,
        kind: Kind,
        line: Line,
        peer: u32,
        now: u64,
    ) -> Result<bool, OutFault> {
        let Ok(mut line) = self.renamed(line, peer) else {
            return Ok(false);
        };
        let from = line.from();
        if self.sessions.is_full() {
            self.log
                .write(rt, Event::Refused(from, "too many sessions are open"));
            line.close(CloseCode::Again);
            self.partings.add(name_of(peer), line, now)?;
            return Ok(false);
        }
        self.log.write(rt, Event::Opened(kind, peer, from));
        self.sessions.open(peer, line, true, now)?;
        self.rest.came = true;
        Ok(true)
    }

    /// The next session that a peer opened. It becomes this peer's.
    pub(crate) fn accept<R: Net + Clock + Eprint>(
        &mut self,
        rt: &R,
        peer: u32,
    ) -> Result<Option<Kind>, OutFault>
        ensures { IfOk result (λ came. IfSome came IsSession) }
    {
        self.look(rt)?;
        if self.upgrades.is_idle() {
            return Ok(None);
        }
        let now = time(rt);
        let Some((service, line)) = self.next_upgrade(rt, now)? else {
            return Ok(None);
        };
        let kind = service.kind();
        let is_open = self.open(rt, kind, line, peer, now)?;
        Ok(is_open.then_some(kind))
    }

    // ---- a companion's sockets

    /// Dials a session, or goes on dialling it. False where it isn't done, or where no dial may begin now.
    fn call<R: Net + Clock + RandomSource>(
        &mut self,
        rt: &R,
        kind: Kind,
        to: &Address,
        peer: u32,
        now: u64,
    ) -> Result<bool, DialFault> {
        let caller = self.dials.of(kind);
        let line = caller.go_on(rt, &mut self.watch, &mut self.look_ups, to, now);
        self.rest.came = self.rest.came || caller.is_ready();
        let Some(line) = line? else {
            return Ok(false);
        };
        let line = self.renamed(line, peer).map_err(fault_of)?;
        self.sessions.open(peer, line, false, now)?;
        Ok(true)
    }

    /// Opens a session, or the socket of datagrams, for this peer. False where that isn't done, or may not begin now.
    fn dial_on<R: Net + Clock + RandomSource>(
        &mut self,
        rt: &R,
        kind: Kind,
        to: &Address,
        peer: u32,
    ) -> Result<bool, DialFault> {
        let now = time(rt);
        match kind {
            Kind::Wc => {
                let reached = self.dials.cii.reached();
                let look_ups = &mut self.look_ups;
                let all = &mut self.watch;
                Ok(
                    self.datagrams
                        .dial(rt, all, look_ups, to, reached, peer, now)?,
                )
            }
            Kind::Cii | Kind::Ts => self.call(rt, kind, to, peer, now),
        }
    }

    /// Opens a session, or the socket of datagrams, for this peer. A dial that isn't done goes on at the next, and is
    /// told as the last one that failed.
    pub(crate) fn dial<R: Net + Clock + RandomSource + Eprint>(
        &mut self,
        rt: &R,
        kind: Kind,
        to: &Address,
        peer: u32,
    ) -> Result<(), OutFault> {
        match self.dial_on(rt, kind, to, peer) {
            Ok(true) => {
                self.rest.came = true;
                self.log.write(rt, Event::Dialled(kind, to, peer));
                Ok(())
            }
            Ok(false) => Err(OutFault::Failed(self.failures.wait(kind))),
            Err(fault) => {
                self.log.write(rt, Event::DialledNot(kind, to, fault));
                self.failures.fail(kind, fault);
                Err(fault.plain())
            }
        }
    }

    /// How the last dials failed.
    pub(crate) fn failures(&self) -> &Failures {
        &self.failures
    }

    // ---- datagrams

    pub(crate) fn send_datagram(&mut self, peer: u32, bytes: &[u8; 32]) -> Result<(), OutFault> {
        self.datagrams.send(peer, bytes)
    }

    // ---- sessions

    /// Lets a line part that was this peer's.
    fn leave<C: Clock + Eprint>(&mut self, rt: &C, peer: u32, line: Line) -> Result<(), OutFault> {
        self.log.write(rt, Event::Closed(peer, line.end()));
        self.partings.add(name_of(peer), line, time(rt))
    }

    fn part<C: Clock + Eprint>(&mut self, rt: &C, peer: u32) -> Result<(), OutFault> {
        match self.sessions.part(peer) {
            Some(line) => self.leave(rt, peer, line),
            None => Ok(()),
        }
    }

    /// What a session has to tell.
    pub(crate) fn take_text<C: Clock + Eprint>(
        &mut self,
        rt: &C,
        peer: u32,
    ) -> Result<Heard, OutFault> {
        self.look(rt)?;
        let now = time(rt);
        let heard = self.sessions.hear(peer, now)?;
        match heard {
            Heard::Quiet => {}
            Heard::Text(_) => self.rest.came = true,
            Heard::Closed => {
                self.rest.came = true;
                self.part(rt, peer)?;
            }
        }
        Ok(heard)
    }

    /// Says a text, which is UTF-8. A peer that takes nothing for too long is gone.
    pub(crate) fn send_text<C: Clock + Eprint>(
        &mut self,
        rt: &C,
        peer: u32,
        text: &[u8],
    ) -> Result<Wrote, OutFault> {
        let Ok(text) = str::from_utf8(text) else {
            return Err(OutFault::Failed(Failure::Other));
        };
        let wrote = self.sessions.say(peer, text)?;
        if wrote == Wrote::Gone {
            self.part(rt, peer)?;
        }
        Ok(wrote)
    }

    fn close<C: Clock + Eprint>(
        &mut self,
        rt: &C,
        peer: u32,
        mut line: Line,
    ) -> Result<(), OutFault> {
        line.close(CloseCode::Normal);
        self.leave(rt, peer, line)
    }

    /// Closes a session, if it is open.
    pub(crate) fn hang_up<C: Clock + Eprint>(&mut self, rt: &C, peer: u32) -> Result<(), OutFault> {
        match self.sessions.part(peer) {
            Some(line) => self.close(rt, peer, line),
            None => Ok(()),
        }
    }

    // ---- the end

    /// Closes what is open.
    fn close_all<C: Clock + Eprint>(&mut self, rt: &C) -> Result<(), OutFault> {
        for _ in 0..u64::MAX {
            let Some((peer, line)) = self.sessions.part_last() else {
                break;
            };
            self.close(rt, peer, line)?;
        }
        Ok(())
    }

    /// Closes what is open, and waits until the peers have what they were told, for a second at most.
    pub(crate) fn end<C: Clock + Eprint>(&mut self, rt: &C) -> Result<(), OutFault> {
        self.close_all(rt)?;
        // No datagram cuts the waits short.
        self.datagrams = Datagrams::new(self.alloc);
        for _ in 0..LONGEST_PARTING / PAUSE {
            if self.partings.is_empty() {
                break;
            }
            self.gather(rt, Duration::from_nanos(PAUSE))?;
        }
        Ok(())
    }
}
