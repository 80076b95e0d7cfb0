ghost use Rattle.std.specs.Prelude.{◌≡◌, List, [], length, IfSome, IfNone, IfOk, IfErr};
ghost use Rattle.css_schedule.specs.Ranges.{IsHeader, IsLine, IsSecond, IsCount};
ghost use Rattle.css_meaning.specs.Happened.{Numbered};
ghost use Rattle.css_meaning.specs.Truth.{IsCompanionOf};
ghost use Rattle.css_meaning.specs.Accepted.{IsNext};
ghost use Rattle.css_world.specs.Asked.{MayBeAsked};
ghost use Rattle.css_world.specs.Standing.{TellsTruth};
ghost use Rattle.css_world.specs.Standing.{StandsFor, Means, GoesOn, KeepsRefused};

use crate::both::Ends;
use crate::clocks::Clocks;
use crate::lanes::Lanes;
use crate::television::Television;
use css_companion::Companion;
use css_meaning::WorldFault;
use css_num::Memory;
use css_schedule::{Header, Line};
use css_tv::Tv;
use std::alloc::Global;
use std::marker::Model;

/// The television and the companions of a schedule, as the lines so far leave them, and their clocks.
pub struct World {
    header: Header,
    clocks: Clocks,
    ends: Ends,
}

// By hand: a derived drop is opened at each exit of each caller's proof.
impl Drop for World {
    fn drop(self) {
        let World {
            header: _,
            clocks: _,
            ends: _,
        } = self;
    }
}

impl Model for World {
    ghost use Rattle.css_world.specs.Standing.{World as Known};

    ghost Value = { Known };

    ghost view = { λ w. record { header = w.header; clocks = w.clocks; ends = w.ends } };
}

impl World {
    /// The world of a schedule with this header, before its first line. The header has 1 to 16 companions.
    pub fn new(alloc: Global, header: Header) -> Result<World, Memory>
        requires { IsHeader header × IsCount (length header.companions) }
        ensures header { IfOk result (λ world. world.header ≡ header) }
        ensures stands { IfOk result (λ world. StandsFor world []) }
    {
        let clocks = Clocks::new(alloc, &header)?;
        let ends = Ends {
            alloc,
            lanes: Lanes::new(alloc, header.companions.list())?,
            tv: Television::new(alloc, &header)?,
            requests: Vec::new(alloc),
            askers: Vec::new(alloc),
            taken_for: Vec::new(alloc),
            datagrams: Vec::new(alloc),
            made_for: Vec::new(alloc),
        };
        Ok(World {
            header,
            clocks,
            ends,
        })
    }

    /// Takes the line of that number, which is above that of the line before, and adds what is printed for it to `out`.
    /// It names one of the header's companions, or none where no companion takes part in what happens.
    ///
    /// The tests come in this order.
    ///
    /// - `Broken`: true time is below that of the line before; the wall clock, or else the companion's clock, drifted
    ///   from an earlier line by more than its oscillator's error allows, where for the companion's clock the lines
    ///   before its last sleep don't count; a reading differs from what its clock shows by more than its precision, or
    ///   is below the last one of that clock, or isn't above it after a sleep.
    /// - `Absent`: the line names a request that wasn't sent, a take that wasn't made or has its answer, or a datagram
    ///   that wasn't made or answers another companion; or a session that isn't open, or opens once more; or a text
    ///   while none is in flight.
    /// - `Player`: the television's player refuses what happens there.
    ///
    /// After each of these the television and the companions are as before. After any fault `out` is as before, and the
    /// world is used no more.
    pub fn line(&mut self, number: u64, line: Line, out: &mut Vec<u8>) -> Result<(), WorldFault>
        requires line { IsLine line }
        requires of { IsSecond (length self.old.header.companions) line }
        requires stands { (lines : List Numbered) × StandsFor self.old lines × IsNext number lines }
        ensures header { self.new.header ≡ self.old.header }
        ensures answers { Means self.old out.old.items out.new.items result (record { number = number; line = line }) }
        ensures stands { GoesOn self.old self.new result (record { number = number; line = line }) }
        ensures truth { TellsTruth self.old result (record { number = number; line = line }) }
        ensures refused { IfErr result (λ fault. KeepsRefused self.old.ends self.new.ends fault) }
    {
        self.clocks.show(number, &line)?;
        self.clocks.read(number, &line)?;
        self.ends.carry_out(number, line, out)
    }

    /// The companion with this number, counted from 1. It may be asked for a report at the last reading of its clock,
    /// or above that where it slept since.
    pub fn companion(&self, number: u32) -> Option<&Companion>
        ensures some { (lines : List Numbered) → StandsFor self.now lines
            → IfSome result (λ companion. MayBeAsked self.now lines number companion.now) }
        ensures none { (lines : List Numbered) → StandsFor self.now lines
            → IfNone result (IsCompanionOf self.now.header number → ⊥) }
    {
        match self.ends.lanes.get(number) {
            Some(lane) => Some(&lane.companion),
            None => None,
        }
    }

    /// The television.
    pub fn tv(&self) -> &Tv
        ensures { result.now ≡ self.now.ends.tv.tv }
    {
        &self.ends.tv.tv
    }
}
