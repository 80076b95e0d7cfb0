ghost use Rattle.std.specs.Prelude.{◌≡◌, ◌+◌, [], ◌∷◌, Some, IfOk, IsTrue};
ghost use Rattle.css_model.specs.History.{Listening, Sent, HungUp};
ghost use Rattle.css_outside.specs.Outsides.{Tells, TellsDial, CountsPlain, CountsClock};
ghost use Rattle.css_outside.specs.Outsides.{CountsDial, CountsOpening, FitsRoom};
ghost use Rattle.css_outside.specs.Outsides as calls;
ghost use Rattle.css_memory.specs.Scripts as scripts;
ghost use Rattle.css_memory.specs.Scripts.{are_readings, are_sessions, counts_of, FailsWhereTold};
ghost use Rattle.css_memory.specs.Scripts.{DialFailsWhereTold, StepsCounted, StepsDial, telling};

use crate::script::OutsideScript;
use crate::scripted::Devices;
use css_model::{Kind, Why};
use css_num::{Memory, Text};
use css_outside::{Address, Clocked, Failure, Heard, OutFault, Outside, Wrote};
use std::alloc::Global;
use std::marker::Model;

/// An outside in memory: its calls give what a script says, and fail where the script says so.
#[derive(Drop)]
pub struct MemoryOutside {
    devices: Devices,
    dial_faults: u64,
    faults: u64,
}

impl Model for MemoryOutside {
    ghost use Rattle.css_memory.specs.Scripts.{FailingOutside};

    ghost Value = { FailingOutside };

    ghost view = { λ outside. record {
      devices = outside.devices;
      dial_faults = outside.dial_faults;
      faults = outside.faults;
    } };
}

impl MemoryOutside {
    /// The outside of a script. The readings are below 2^32 seconds, never fall, and rise where they are told with a
    /// sleep; each opening is of CSS-CII or CSS-TS.
    pub fn new(alloc: Global, script: OutsideScript) -> Result<MemoryOutside, Memory>
        requires readings { IsTrue (are_readings 0 script.readings.items) }
        requires openings { IsTrue (are_sessions script.openings.items) }
        ensures { IfOk result (λ outside. outside ≡ record {
          devices = scripts.begun script;
          dial_faults = 0;
          faults = 0;
        }) }
    {
        Ok(MemoryOutside {
            devices: Devices::new(alloc, script),
            dial_faults: 0,
            faults: 0,
        })
    }

    /// With what the system says of each dial that fails, in order. Past the end of the list, and without one, it
    /// is `Failure::Other`.
    pub fn failing_by(mut self, failures: Vec<Failure>) -> MemoryOutside
        ensures { result ≡ record self { devices = record self.devices { failures = failures.items } } }
    {
        self.devices.fail_by(failures);
        self
    }
}

impl Outside for MemoryOutside {
    ghost told = { λ outside. Some outside.devices.told };

    ghost counts = { λ outside. counts_of outside };

    fn listen(&mut self, host: &Text, port: u16) -> Result<(), OutFault>
        ensures told { Tells (Some self.old.devices.told) (Some self.new.devices.told) result
            (λ _. Listening host.now port ∷ []) }
        ensures counted { CountsPlain (counts_of self.old) (counts_of self.new) result }
        ensures fails { FailsWhereTold self.old.devices result }
        ensures steps { StepsCounted self.old.devices self.new.devices result
            (telling (Listening host.now port ∷ []) self.old.devices) }
    {
        if self.devices.next_fails() {
            self.faults = self.faults.saturating_add(1);
            return Err(OutFault::Failed(Failure::Other));
        }
        Ok(self.devices.listen(host, port)?)
    }

    fn now(&mut self, why: Why) -> Result<Clocked, OutFault>
        ensures told { Tells (Some self.old.devices.told) (Some self.new.devices.told) result
            (calls.clock_entries why) }
        ensures counted { CountsClock (counts_of self.old) (counts_of self.new) result }
        ensures fails { FailsWhereTold self.old.devices result }
        ensures value { IfOk result
            (λ clocked. clocked ≡ scripts.next_reading self.old.devices.last self.old.devices.readings) }
        ensures steps { StepsCounted self.old.devices self.new.devices result (scripts.read_once why self.old.devices) }
    {
        if self.devices.next_fails() {
            self.faults = self.faults.saturating_add(1);
            return Err(OutFault::Failed(Failure::Other));
        }
        Ok(self.devices.now(why)?)
    }

    fn rest(&mut self, _until: u64)
        ensures { self.new ≡ self.old }
    {}

    fn dial(&mut self, kind: Kind, to: &Address) -> Result<u32, OutFault>
        ensures told { TellsDial (Some self.old.devices.told) (Some self.new.devices.told) kind to.now result }
        ensures counted { CountsDial (counts_of self.old) (counts_of self.new) result }
        ensures fails { DialFailsWhereTold self.old.devices result }
        ensures value { IfOk result (λ peer. peer ≡ self.old.devices.peers + 1) }
        ensures steps { StepsDial kind to.now self.old.devices self.new.devices result }
    {
        if self.devices.next_fails() {
            let failure = self.devices.fail_dial(kind, to)?;
            self.dial_faults = self.dial_faults.saturating_add(1);
            return Err(OutFault::Failed(failure));
        }
        Ok(self.devices.dial(kind, to)?)
    }

    fn accept(&mut self) -> Result<Option<(u32, Kind)>, OutFault>
        ensures told { Tells (Some self.old.devices.told) (Some self.new.devices.told) result calls.opening_entries }
        ensures counted { CountsOpening (counts_of self.old) (counts_of self.new) result }
        ensures fails { FailsWhereTold self.old.devices result }
        ensures value { IfOk result (λ came. came ≡ scripts.next_opening self.old.devices) }
        ensures steps { StepsCounted self.old.devices self.new.devices result (scripts.opened_once self.old.devices) }
    {
        if self.devices.next_fails() {
            self.faults = self.faults.saturating_add(1);
            return Err(OutFault::Failed(Failure::Other));
        }
        Ok(self.devices.accept()?)
    }

    fn send_datagram(&mut self, peer: u32, bytes: &[u8; 32]) -> Result<(), OutFault>
        ensures told { Tells (Some self.old.devices.told) (Some self.new.devices.told) result
            (λ _. Sent peer bytes.now ∷ []) }
        ensures counted { CountsPlain (counts_of self.old) (counts_of self.new) result }
        ensures fails { FailsWhereTold self.old.devices result }
        ensures steps { StepsCounted self.old.devices self.new.devices result
            (telling (Sent peer bytes.now ∷ []) self.old.devices) }
    {
        if self.devices.next_fails() {
            self.faults = self.faults.saturating_add(1);
            return Err(OutFault::Failed(Failure::Other));
        }
        Ok(self.devices.send_datagram(peer, bytes)?)
    }

    fn take_datagram(&mut self, into: &mut [u8; 64]) -> Result<Option<(u32, usize)>, OutFault>
        ensures told { Tells (Some self.old.devices.told) (Some self.new.devices.told) result
            (calls.datagram_entries into.new) }
        ensures room { IfOk result FitsRoom }
        ensures counted { CountsPlain (counts_of self.old) (counts_of self.new) result }
        ensures fails { FailsWhereTold self.old.devices result }
        ensures value { IfOk result (λ came. came ≡ scripts.taken_from (scripts.next_item self.old.devices.datagrams)) }
        ensures steps { StepsCounted self.old.devices self.new.devices result (scripts.took_once self.old.devices) }
    {
        if self.devices.next_fails() {
            self.faults = self.faults.saturating_add(1);
            return Err(OutFault::Failed(Failure::Other));
        }
        Ok(self.devices.take_datagram(into)?)
    }

    fn take_text(&mut self, peer: u32) -> Result<Heard, OutFault>
        ensures told { Tells (Some self.old.devices.told) (Some self.new.devices.told) result
            (calls.heard_entries peer) }
        ensures counted { CountsPlain (counts_of self.old) (counts_of self.new) result }
        ensures fails { FailsWhereTold self.old.devices result }
        ensures value { IfOk result (λ said. said ≡ scripts.next_heard peer self.old.devices) }
        ensures steps { StepsCounted self.old.devices self.new.devices result
            (scripts.heard_once peer self.old.devices) }
    {
        if self.devices.next_fails() {
            self.faults = self.faults.saturating_add(1);
            return Err(OutFault::Failed(Failure::Other));
        }
        Ok(self.devices.take_text(peer)?)
    }

    fn send_text(&mut self, peer: u32, text: &[u8]) -> Result<Wrote, OutFault>
        ensures told { Tells (Some self.old.devices.told) (Some self.new.devices.told) result
            (calls.wrote_entries peer text.now) }
        ensures counted { CountsPlain (counts_of self.old) (counts_of self.new) result }
        ensures fails { FailsWhereTold self.old.devices result }
        ensures value { IfOk result (λ wrote. wrote ≡ scripts.next_wrote self.old.devices) }
        ensures steps { StepsCounted self.old.devices self.new.devices result
            (scripts.wrote_once peer text.now self.old.devices) }
    {
        if self.devices.next_fails() {
            self.faults = self.faults.saturating_add(1);
            return Err(OutFault::Failed(Failure::Other));
        }
        Ok(self.devices.send_text(peer, text)?)
    }

    fn hang_up(&mut self, peer: u32) -> Result<(), OutFault>
        ensures told { Tells (Some self.old.devices.told) (Some self.new.devices.told) result (λ _. HungUp peer ∷ []) }
        ensures counted { CountsPlain (counts_of self.old) (counts_of self.new) result }
        ensures fails { FailsWhereTold self.old.devices result }
        ensures steps { StepsCounted self.old.devices self.new.devices result
            (telling (HungUp peer ∷ []) self.old.devices) }
    {
        if self.devices.next_fails() {
            self.faults = self.faults.saturating_add(1);
            return Err(OutFault::Failed(Failure::Other));
        }
        Ok(self.devices.hang_up(peer)?)
    }
}
