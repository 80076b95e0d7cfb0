ghost use Rattle.std.specs.Prelude.{◌≡◌, ◌<◌, ◌≤◌, ◌+◌, true, Some, None, IfOk, OnOk, OnErr, IfSome, IfNone, Ok, Err};
ghost use Rattle.std.specs.Prelude.{MatchResult, option_map};
ghost use Rattle.css_outside.specs.Faults.{HasRisenOnce};
ghost use Rattle.css_devices.specs.Clocks.{IsToldOf, clocked_of, reading_of};
ghost use Rattle.css_outside.specs.Outsides.{CountsPlain, CountsClock, CountsDial, CountsOpening, IsSession};

use crate::clock::{has_slept, read_clocks};
use crate::shown::Clocks;
use css_model::LIMIT;
use css_outside::{Clocked, Failure, Kind, OutFault};
use std::marker::Model;
use std::time::Clock;

/// The numbers of peers that sent datagrams to a television begin here. Those of sessions stay below.
pub const FIRST_SENDER: u32 = 2_147_483_648;

/// What an outside counts: its faults, the greatest reading, and the greatest number of a peer.
///
/// Readings are the monotone clock's. A reading is told with a sleep where the system's clock rose by over two seconds
/// more than the monotone one since the reading before. Where that clock shows no time of 1970 to 2554, no sleep is
/// noticed.
#[derive(Drop)]
pub struct Tally {
    dial_faults: u64,
    faults: u64,
    last: u64,
    peers: u32,
    /// The clocks at the last reading that was told.
    before: Option<Clocks>,
}

impl Model for Tally {
    ghost use Rattle.std.specs.Prelude.{◌<◌};
    ghost use Rattle.css_model.specs.declared.TheConstants.{LIMIT};
    ghost use Rattle.css_devices.specs.Clocks.{Tallied};

    ghost Value = { Tallied };

    ghost view = { λ tally. record {
      counts = record {
        dial_faults = tally.dial_faults;
        faults = tally.faults;
        last = tally.last;
        peers = tally.peers;
      };
      before = tally.before;
    } };

    ghost invariant = { λ tally. tally.last < LIMIT };
}

impl Tally {
    /// Nothing has failed, was read or was opened.
    pub fn new() -> Tally
        ensures nothing { result.counts ≡ record { dial_faults = 0; faults = 0; last = 0; peers = 0 } }
        ensures before { result.before ≡ None }
    {
        Tally {
            dial_faults: 0,
            faults: 0,
            last: 0,
            peers: 0,
            before: None,
        }
    }

    /// The number of the next peer. There is one for each turn of the longest run.
    pub fn next_peer(&self) -> Option<u32>
        ensures above { IfSome result (λ peer. self.now.counts.peers < peer) }
        ensures next { IfSome result (λ peer. peer ≡ self.now.counts.peers + 1) }
        ensures none { IfNone result (2147483648 ≤ self.now.counts.peers + 1) }
    {
        if self.peers < FIRST_SENDER - 1 {
            Some(self.peers + 1)
        } else {
            None
        }
    }

    /// Counts a fault of a call other than a dial.
    fn fail(&mut self)
        ensures risen { HasRisenOnce self.old.counts.faults self.new.counts.faults }
        ensures others { self.new.counts ≡ record self.old.counts { faults = self.new.counts.faults } }
        ensures before { self.new.before ≡ self.old.before }
    {
        self.faults = self.faults.saturating_add(1);
    }

    /// Counts a call that opens nothing and reads no clock.
    pub fn plain<T: Drop>(&mut self, outcome: Result<T, OutFault>) -> Result<T, OutFault>
        ensures counted { CountsPlain self.old.counts self.new.counts result }
        ensures same { result ≡ outcome }
        ensures before { self.new.before ≡ self.old.before }
    {
        match outcome {
            Ok(value) => Ok(value),
            Err(OutFault::Failed(failure)) => {
                self.fail();
                Err(OutFault::Failed(failure))
            }
            Err(OutFault::Memory) => Err(OutFault::Memory),
        }
    }

    /// Counts a dial that gave no session.
    pub fn not_dialled(&mut self, fault: OutFault) -> Result<u32, OutFault>
        ensures counted { CountsDial self.old.counts self.new.counts result }
        ensures same { result ≡ Err fault }
        ensures before { self.new.before ≡ self.old.before }
    {
        match fault {
            OutFault::Failed(failure) => {
                self.dial_faults = self.dial_faults.saturating_add(1);
                Err(OutFault::Failed(failure))
            }
            OutFault::Memory => Err(OutFault::Memory),
        }
    }

    /// Counts a dial, which opened this peer's session where it is Ok.
    pub fn dialled(&mut self, peer: u32, outcome: Result<(), OutFault>) -> Result<u32, OutFault>
        requires { self.old.counts.peers < peer }
        ensures counted { CountsDial self.old.counts self.new.counts result }
        ensures same { MatchResult outcome (λ _. result ≡ Ok peer) (λ fault. result ≡ Err fault) }
        ensures before { self.new.before ≡ self.old.before }
    {
        match outcome {
            Ok(()) => {
                self.peers = peer;
                Ok(peer)
            }
            Err(fault) => self.not_dialled(fault),
        }
    }

    /// Counts a look for a session that a peer opened, which is this peer's where one came.
    pub fn opened(
        &mut self,
        peer: u32,
        outcome: Result<Option<Kind>, OutFault>,
    ) -> Result<Option<(u32, Kind)>, OutFault>
        requires above { self.old.counts.peers < peer }
        requires kind { IfOk outcome (λ came. IfSome came IsSession) }
        ensures counted { CountsOpening self.old.counts self.new.counts result }
        ensures same { MatchResult outcome
            (λ came. result ≡ Ok (option_map (λ kind. (peer, kind)) came))
            (λ fault. result ≡ Err fault) }
        ensures before { self.new.before ≡ self.old.before }
    {
        match outcome {
            Ok(None) => Ok(None),
            Ok(Some(kind)) => {
                self.peers = peer;
                Ok(Some((peer, kind)))
            }
            Err(OutFault::Failed(failure)) => {
                self.fail();
                Err(OutFault::Failed(failure))
            }
            Err(OutFault::Memory) => Err(OutFault::Memory),
        }
    }

    /// Reads the clocks. Where the monotone one can't be read, or shows a time above the limit, that is a fault.
    pub fn now(&mut self, clock: &impl Clock) -> Result<Clocked, OutFault>
        ensures counted { CountsClock self.old.counts self.new.counts result }
        ensures told { IfOk result (λ clocked. IsToldOf self.old self.new clocked) }
        ensures err { OnErr result (self.new.before ≡ self.old.before) }
    {
        match read_clocks(clock) {
            Some(clocks) => self.shows(clocks),
            None => self.unread(OutFault::Failed(Failure::Other)),
        }
    }

    /// Counts a reading of both clocks.
    fn shows(&mut self, clocks: Clocks) -> Result<Clocked, OutFault>
        ensures counted { CountsClock self.old.counts self.new.counts result }
        ensures told { IfOk result (λ clocked. clocked ≡ clocked_of self.old clocks) }
        ensures kept { OnOk result (self.new.before ≡ Some clocks) }
        ensures err { OnErr result (self.new.before ≡ self.old.before) }
    {
        let slept = match self.before {
            Some(before) => has_slept(before, clocks),
            None => false,
        };
        let clocked = self.read(clocks.monotone, slept)?;
        self.before = Some(clocks);
        Ok(clocked)
    }

    /// Counts a reading that couldn't be made.
    pub fn unread(&mut self, fault: OutFault) -> Result<Clocked, OutFault>
        ensures counted { CountsClock self.old.counts self.new.counts result }
        ensures same { result ≡ Err fault }
        ensures before { self.new.before ≡ self.old.before }
    {
        self.plain(Err(fault))
    }

    /// Counts a reading of the clock. Where the machine slept, it is above each before; none is above the limit.
    fn read(&mut self, monotone: u64, slept: bool) -> Result<Clocked, OutFault>
        ensures counted { CountsClock self.old.counts self.new.counts result }
        ensures told { IfOk result
            (λ clocked. clocked ≡ record { reading = reading_of self.old.counts.last slept monotone; slept = slept }) }
        ensures before { self.new.before ≡ self.old.before }
    {
        let reading = self.reading_of(monotone, slept);
        if reading >= LIMIT {
            self.fail();
            return Err(OutFault::Failed(Failure::Other));
        }
        self.last = reading;
        Ok(Clocked { reading, slept })
    }

    /// What is told where the monotone clock shows this.
    fn reading_of(&self, monotone: u64, slept: bool) -> u64
        ensures value { result ≡ reading_of self.now.counts.last slept monotone }
        ensures rises { self.now.counts.last ≤ result }
        ensures above { slept ≡ true → self.now.counts.last < result }
    {
        if monotone > self.last {
            return monotone;
        }
        if slept { self.last + 1 } else { self.last }
    }
}
