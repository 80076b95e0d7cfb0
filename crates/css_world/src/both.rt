ghost use Rattle.std.specs.Prelude.{◌≡◌, ◌<◌, ◌≤◌, length, ℕ, Err, IfErr, OnErr};
ghost use Rattle.css_schedule.specs.Ranges.{IsLine, IsSecond};
ghost use Rattle.css_schedule.specs.declared.line.Verb.{Verb as Happening};
ghost use Rattle.css_schedule.specs.declared.line.Verb.TheVariants as events;
ghost use Rattle.css_companion.specs.Printed.{line_of};
ghost use Rattle.css_tv.specs.Standing.{IsEvent};
ghost use Rattle.css_meaning.specs.Verdicts.{span_at, report_at, assigned_at};
ghost use Rattle.css_meaning.specs.Printed.{wall_text};
ghost use Rattle.css_meaning.specs.declared.fault.WorldFault.TheVariants as faults;
ghost use Rattle.css_world.specs.Standing.{Ready, ReadyAt, ReadyFor, CarriesOut, IsAtTv, Prints, Adds, KeepsRefused};

use crate::lanes::Lanes;
use crate::place::{item, owner, store_answer};
use crate::printed::{print_report, print_wall};
use crate::television::{Television, play};
use css_meaning::WorldFault;
use css_model::LIMIT;
use css_num::Memory;
use css_schedule::{Header, Line, Verb};
use css_tv::TvEvent;
use std::alloc::Global;

/// Both ends of a schedule: the television and the companions, and what was sent.
///
/// What a later line may still name is kept: each request, each take and each datagram, at most 36 bytes for each, and
/// the texts in flight.
#[derive(Drop)]
pub(crate) struct Ends {
    pub(crate) alloc: Global,
    pub(crate) tv: Television,
    pub(crate) lanes: Lanes,
    pub(crate) requests: Vec<[u8; 32]>,
    /// The companion that sent each request.
    pub(crate) askers: Vec<u32>,
    /// The companion whose request each take received.
    pub(crate) taken_for: Vec<u32>,
    pub(crate) datagrams: Vec<[u8; 32]>,
    /// The companion that each datagram answers.
    pub(crate) made_for: Vec<u32>,
}

impl Ends {
    /// Carries out what happens at a line, and prints what is printed for it.
    pub(crate) fn carry_out(
        &mut self,
        number: u64,
        line: Line,
        out: &mut Vec<u8>,
    ) -> Result<(), WorldFault>
        requires line { IsLine line }
        requires of { IsSecond (length self.old.lanes.list.items) line }
        requires ready { ReadyFor self.old line }
        ensures prints { Prints self.old self.new out.old.items out.new.items result
            (record { number = number; line = line }) }
        ensures refused { IfErr result (λ fault. KeepsRefused self.old self.new fault) }
    {
        let Line { w, who, verb, .. } = line;
        match verb {
            Verb::Ask { reading } => self.ask(who, reading),
            Verb::Take { request, reading } => self.take(request, reading),
            Verb::Give { take, reading } => self.give(take, reading),
            Verb::Land { datagram, reading } => self.land(who, datagram, reading),
            Verb::Wall { reading } => self.wall(who, number, w, reading, out),
            Verb::Print { reading } => self.print(who, number, w, reading, out),
            Verb::Programme { content_id } => self.happen(TvEvent::Programme(content_id)),
            Verb::Timeline {
                programme,
                selector,
                rate,
                base,
            } => self.happen(TvEvent::AddTimeline {
                programme,
                selector,
                rate,
                base,
            }),
            Verb::Viewer { reading, command } => self.happen(TvEvent::Viewer { command, reading }),
            Verb::Opening { kind } => self.open(who, kind),
            Verb::Bring { kind } => self.bring(who, kind),
            Verb::Up => self.up(who),
            Verb::Present { earliest, latest } => self.present(who, earliest, latest),
            Verb::Close { kind } => self.close(who, kind),
            Verb::Sleep => self.sleep(who),
        }
    }

    fn ask(&mut self, who: u32, reading: u64) -> Result<(), WorldFault>
        requires first { 1 ≤ who }
        requires within { who ≤ length self.old.lanes.list.items }
        requires range { reading < LIMIT }
        requires ready { ReadyAt self.old who reading }
        ensures carries { CarriesOut self.old self.new result who (events.Ask reading) }
        ensures refused { IfErr result (λ fault. KeepsRefused self.old self.new fault) }
    {
        let lane = self.lanes.lane(who);
        let request = lane.companion.ask(reading);
        self.requests.push(request)?;
        self.askers.push(who)?;
        Ok(())
    }

    /// The television receives a request, whosever line it is.
    fn take(&mut self, request: u32, reading: u64) -> Result<(), WorldFault>
        requires range { reading < LIMIT }
        requires ready { Ready self.old }
        ensures carries { (who : ℕ) → CarriesOut self.old self.new result who (events.Take request reading) }
        ensures refused { IfErr result (λ fault. KeepsRefused self.old self.new fault) }
    {
        let Some((request, asker)) = item(&self.requests, &self.askers, request) else {
            return Err(WorldFault::Absent);
        };
        self.tv.take(request, reading)?;
        self.taken_for.push(asker)?;
        Ok(())
    }

    /// The television answers a take, whosever line it is.
    fn give(&mut self, take: u32, reading: u64) -> Result<(), WorldFault>
        requires range { reading < LIMIT }
        ensures carries { (who : ℕ) → CarriesOut self.old self.new result who (events.Give take reading) }
        ensures refused { IfErr result (λ fault. KeepsRefused self.old self.new fault) }
    {
        let Some(asker) = owner(&self.taken_for, take) else {
            return Err(WorldFault::Absent);
        };
        let Some(answered) = self.tv.give(take, reading) else {
            return Err(WorldFault::Absent);
        };
        store_answer(&mut self.datagrams, &mut self.made_for, &answered, asker)?;
        Ok(())
    }

    fn land(&mut self, who: u32, datagram: u32, reading: u64) -> Result<(), WorldFault>
        requires first { 1 ≤ who }
        requires within { who ≤ length self.old.lanes.list.items }
        requires range { reading < LIMIT }
        requires ready { ReadyAt self.old who reading }
        ensures carries { CarriesOut self.old self.new result who (events.Land datagram reading) }
        ensures refused { IfErr result (λ fault. KeepsRefused self.old self.new fault) }
    {
        let Some((datagram, owner)) = item(&self.datagrams, &self.made_for, datagram) else {
            return Err(WorldFault::Absent);
        };
        if owner != who {
            return Err(WorldFault::Absent);
        }
        // The line takes in a datagram, whatever becomes of it.
        let lane = self.lanes.lane(who);
        lane.companion.land(datagram, reading)?;
        Ok(())
    }

    /// The companion slept, and wakes up.
    fn sleep(&mut self, who: u32) -> Result<(), WorldFault>
        requires first { 1 ≤ who }
        requires within { who ≤ length self.old.lanes.list.items }
        ensures carries { CarriesOut self.old self.new result who events.Sleep }
        ensures refused { IfErr result (λ fault. KeepsRefused self.old self.new fault) }
    {
        let lane = self.lanes.lane(who);
        lane.companion.slept();
        Ok(())
    }

    /// Prints the span of the wall clock, where the companion's clock reads so.
    fn wall(
        &self,
        who: u32,
        number: u64,
        w: u64,
        reading: u64,
        out: &mut Vec<u8>,
    ) -> Result<(), WorldFault>
        requires first { 1 ≤ who }
        requires within { who ≤ length self.now.lanes.list.items }
        requires range { reading < LIMIT }
        requires ready { ReadyAt self.now who reading }
        ensures printed { Adds self.now out.old.items out.new.items result
            (λ header lines. wall_text number (span_at who header lines reading) w) }
        ensures err { OnErr result ((result ≡ Err faults.Memory) × (out.new.items ≡ out.old.items)) }
    {
        let Some(lane) = self.lanes.get(who) else {
            unreachable!()
        };
        print_wall(number, lane.companion.wall(reading), w, out)?;
        Ok(())
    }

    /// Prints the report of the companion, where its clock reads so, and the position at this value of the wall clock.
    fn print(
        &self,
        who: u32,
        number: u64,
        w: u64,
        reading: u64,
        out: &mut Vec<u8>,
    ) -> Result<(), WorldFault>
        requires first { 1 ≤ who }
        requires within { who ≤ length self.now.lanes.list.items }
        requires range { reading < LIMIT }
        requires ready { ReadyAt self.now who reading }
        ensures printed { Adds self.now out.old.items out.new.items result
            (λ header lines. line_of number (report_at who header lines reading)
            (assigned_at who header lines w)) }
        ensures err { OnErr result ((result ≡ Err faults.Memory) × (out.new.items ≡ out.old.items)) }
    {
        let Some(lane) = self.lanes.get(who) else {
            unreachable!()
        };
        let report = lane.companion.report(reading);
        let position = lane.companion.assigned(w);
        print_report(self.alloc, number, &report, position, out)?;
        Ok(())
    }

    /// Lets something happen at the television alone, whosever line it is.
    fn happen(&mut self, event: TvEvent) -> Result<(), WorldFault>
        requires event { IsEvent event self.old.tv.tv.stage }
        requires ready { Ready self.old }
        ensures carries { (who : ℕ) (verb : Happening) → IsAtTv verb event
            → CarriesOut self.old self.new result who verb }
        ensures refused { IfErr result (λ fault. KeepsRefused self.old self.new fault) }
    {
        play(self.alloc, &mut self.tv.tv, &mut self.lanes, event)?;
        Ok(())
    }
}
