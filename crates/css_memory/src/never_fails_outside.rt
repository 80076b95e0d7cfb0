ghost use Rattle.std.specs.Prelude.{◌≡◌, ◌+◌, [], ◌∷◌, Some, IfOk, IsTrue, ◌≢◌, Err};
ghost use Rattle.css_model.specs.History.{Listening, Sent, HungUp};
ghost use Rattle.css_outside.specs.Faults.{HasFailed};
ghost use Rattle.css_outside.specs.Outsides.{Tells, TellsDial, CountsPlain, CountsClock};
ghost use Rattle.css_outside.specs.Outsides.{CountsDial, CountsOpening, FitsRoom};
ghost use Rattle.css_outside.specs.Outsides as calls;
ghost use Rattle.css_memory.specs.Scripts as scripts;
ghost use Rattle.css_memory.specs.Scripts.{are_readings, are_sessions, counts_at, Steps, telling};

use crate::script::OutsideScript;
use crate::scripted::Devices;
use css_model::{Kind, Why};
use css_num::{Memory, Text};
use css_outside::{Address, Clocked, Heard, OutFault, Outside, Wrote};
use std::alloc::Global;
use std::marker::Model;

/// An outside in memory none of whose calls fails: they give what a script says. It may lack memory.
#[derive(Drop)]
pub struct NeverFailsOutside {
    devices: Devices,
}

impl Model for NeverFailsOutside {
    ghost use Rattle.css_memory.specs.Scripts.{Scripted};

    ghost Value = { Scripted };

    ghost view = { λ outside. outside.devices };
}

impl NeverFailsOutside {
    /// The outside of a script, which names no call that fails. The readings are below 2^32 seconds, never fall, and
    /// rise where they are told with a sleep; each opening is of CSS-CII or CSS-TS.
    pub fn new(alloc: Global, script: OutsideScript) -> Result<NeverFailsOutside, Memory>
        requires readings { IsTrue (are_readings 0 script.readings.items) }
        requires openings { IsTrue (are_sessions script.openings.items) }
        requires none { script.fails.items ≡ [] }
        ensures { IfOk result (λ outside. outside ≡ scripts.begun script) }
    {
        Ok(NeverFailsOutside {
            devices: Devices::new(alloc, script),
        })
    }
}

impl Outside for NeverFailsOutside {
    ghost told = { λ outside. Some outside.told };

    ghost counts = { λ outside. counts_at outside };

    fn listen(&mut self, host: &Text, port: u16) -> Result<(), OutFault>
        ensures told { Tells (Some self.old.told) (Some self.new.told) result (λ _. Listening host.now port ∷ []) }
        ensures counted { CountsPlain (counts_at self.old) (counts_at self.new) result }
        ensures never { HasFailed result → ⊥ }
        ensures steps { Steps self.old self.new result (telling (Listening host.now port ∷ []) self.old) }
    {
        Ok(self.devices.listen(host, port)?)
    }

    fn now(&mut self, why: Why) -> Result<Clocked, OutFault>
        ensures told { Tells (Some self.old.told) (Some self.new.told) result (calls.clock_entries why) }
        ensures counted { CountsClock (counts_at self.old) (counts_at self.new) result }
        ensures never { HasFailed result → ⊥ }
        ensures value { IfOk result (λ clocked. clocked ≡ scripts.next_reading self.old.last self.old.readings) }
        ensures steps { Steps self.old self.new result (scripts.read_once why self.old) }
    {
        Ok(self.devices.now(why)?)
    }

    fn rest(&mut self, _until: u64)
        ensures { self.new ≡ self.old }
    {}

    fn dial(&mut self, kind: Kind, to: &Address) -> Result<u32, OutFault>
        ensures told { TellsDial (Some self.old.told) (Some self.new.told) kind to.now result }
        ensures counted { CountsDial (counts_at self.old) (counts_at self.new) result }
        ensures never { HasFailed result → ⊥ }
        ensures value { IfOk result (λ peer. peer ≡ self.old.peers + 1) }
        ensures steps { Steps self.old self.new result (scripts.dialled kind to.now self.old) }
    {
        Ok(self.devices.dial(kind, to)?)
    }

    fn accept(&mut self) -> Result<Option<(u32, Kind)>, OutFault>
        ensures told { Tells (Some self.old.told) (Some self.new.told) result calls.opening_entries }
        ensures counted { CountsOpening (counts_at self.old) (counts_at self.new) result }
        ensures never { HasFailed result → ⊥ }
        ensures value { IfOk result (λ came. came ≡ scripts.next_opening self.old) }
        ensures steps { Steps self.old self.new result (scripts.opened_once self.old) }
    {
        Ok(self.devices.accept()?)
    }

    fn send_datagram(&mut self, peer: u32, bytes: &[u8; 32]) -> Result<(), OutFault>
        ensures told { Tells (Some self.old.told) (Some self.new.told) result (λ _. Sent peer bytes.now ∷ []) }
        ensures counted { CountsPlain (counts_at self.old) (counts_at self.new) result }
        ensures never { HasFailed result → ⊥ }
        ensures steps { Steps self.old self.new result (telling (Sent peer bytes.now ∷ []) self.old) }
    {
        Ok(self.devices.send_datagram(peer, bytes)?)
    }

    fn take_datagram(&mut self, into: &mut [u8; 64]) -> Result<Option<(u32, usize)>, OutFault>
        ensures told { Tells (Some self.old.told) (Some self.new.told) result (calls.datagram_entries into.new) }
        ensures room { IfOk result FitsRoom }
        ensures counted { CountsPlain (counts_at self.old) (counts_at self.new) result }
        ensures never { HasFailed result → ⊥ }
        ensures value { IfOk result (λ came. came ≡ scripts.taken_from (scripts.next_item self.old.datagrams)) }
        ensures steps { Steps self.old self.new result (scripts.took_once self.old) }
    {
        Ok(self.devices.take_datagram(into)?)
    }

    fn take_text(&mut self, peer: u32) -> Result<Heard, OutFault>
        ensures told { Tells (Some self.old.told) (Some self.new.told) result (calls.heard_entries peer) }
        ensures counted { CountsPlain (counts_at self.old) (counts_at self.new) result }
        ensures never { HasFailed result → ⊥ }
        ensures value { IfOk result (λ said. said ≡ scripts.next_heard peer self.old) }
        ensures steps { Steps self.old self.new result (scripts.heard_once peer self.old) }
    {
        Ok(self.devices.take_text(peer)?)
    }

    fn send_text(&mut self, peer: u32, text: &[u8]) -> Result<Wrote, OutFault>
        ensures told { Tells (Some self.old.told) (Some self.new.told) result (calls.wrote_entries peer text.now) }
        ensures counted { CountsPlain (counts_at self.old) (counts_at self.new) result }
        ensures never { HasFailed result → ⊥ }
        ensures value { IfOk result (λ wrote. wrote ≡ scripts.next_wrote self.old) }
        ensures steps { Steps self.old self.new result (scripts.wrote_once peer text.now self.old) }
    {
        Ok(self.devices.send_text(peer, text)?)
    }

    fn hang_up(&mut self, peer: u32) -> Result<(), OutFault>
        ensures told { Tells (Some self.old.told) (Some self.new.told) result (λ _. HungUp peer ∷ []) }
        ensures counted { CountsPlain (counts_at self.old) (counts_at self.new) result }
        ensures never { HasFailed result → ⊥ }
        ensures steps { Steps self.old self.new result (telling (HungUp peer ∷ []) self.old) }
    {
        Ok(self.devices.hang_up(peer)?)
    }
}
