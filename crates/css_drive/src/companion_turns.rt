//! The turns of a companion's run.
ghost use Rattle.std.specs.Prelude.{◌≡◌, ◌≤◌, ◌<◌, ◌+◌, ℕ, [], IfSome, OnOk, IfErr, None};
ghost use Rattle.css_model.specs.declared.Why.TheVariants as whys;
ghost use Rattle.css_outside.specs.Faults.{HasRisen};
ghost use Rattle.css_drive.specs.Configs.{IsWindow};
ghost use Rattle.css_drive.specs.CompanionDue.{from_turn, from_cii, from_end};
ghost use Rattle.css_drive.specs.CompanionReports.{is_due};
ghost use Rattle.css_drive.specs.CompanionStanding.{Knows, a_reading, Leads, Names};
ghost use Rattle.css_drive.specs.CompanionStanding.{Stays, IsEarly, Made, HasTried, ending_of, facts_of};
ghost use Rattle.css_drive.specs.CompanionStanding as standing;
ghost use Rattle.css_drive.specs.Ends.{CountsNetFault, CountsDialFaults};

use crate::calls::rest;
use crate::companion_calls::ended_by;
use crate::companion_live::{Live, Run};
use crate::config::DriveConfig;
use crate::driven::Driven;
use crate::observes::Observes;
use crate::session::Session;
use crate::timing::{goes_on, is_late, next_due};
use css_companion::{Binding, Companion};
use css_outside::{Outside, Why};
use std::alloc::Global;

fn reports_at(every: u64, reading: u64, first: Option<u64>, reported: u64) -> bool
    requires few { every ≤ 1000000000000 }
    requires some { reported < 1000000 }
    ensures { result ≡ is_due every reading first reported }
{
    match first {
        None => false,
        Some(first) => first <= reading && (reported + 1) * every <= reading - first,
    }
}

/// The least reading at which a report is due.
fn next_report(live: &Live, every: u64) -> u64 {
    let next = live.reported.saturating_add(1).saturating_mul(every);
    live.first.unwrap_or(0).saturating_add(next)
}

/// Whether another turn follows.
fn goes_again(live: &Live, config: &DriveConfig) -> bool
    ensures { result ≡ standing.is_another config.now live.now }
{
    live.reported < config.reports && goes_on(config.limit, live.first, live.turn, live.made)
}

/// Whether the calls of a turn follow its report.
fn is_calling(live: &Live, config: &DriveConfig) -> bool
    ensures { result ≡ standing.is_calling config.now live.now }
{
    live.reported < config.reports && !is_late(config.limit, live.first, live.turn)
}

/// How a run ends that makes no turn any more, where so many reports were asked for.
pub fn ending(live: &Live, reports: u64) -> Driven
    ensures { result ≡ ending_of reports live.now }
{
    let turns = live.made;
    if live.reported >= reports {
        Driven::Done
    } else if live.cii.is_some() || live.wc.is_some() || live.ts.is_some() {
        Driven::Spent { turns }
    } else {
        Driven::Unreachable { turns }
    }
}

impl<O: Outside, W: Observes> Run<'_, O, W> {
    /// Begins a turn, and makes the report that is due, if one is.
    fn start(&mut self, config: &DriveConfig) -> Result<(), Driven>
        requires floor { self.old.companion.now.client.floor ≤ (O.counts self.old.outside.now).last }
        requires made { self.old.live.now.made < 1099511627776 }
        requires reported { self.old.live.now.reported < 1000000 }
        ensures goes { Leads O.told O.counts W.saw W.over config.now self.old self.new
            (a_reading whys.Turn) from_turn result }
        ensures names { Names self.old self.new }
        ensures floor { OnOk result (self.new.companion.now.client.floor ≤ (O.counts self.new.outside.now).last) }
        ensures made { OnOk result (self.new.live.now.made ≡ self.old.live.now.made + 1) }
        ensures first { OnOk result (self.old.live.now.first ≡ None
            → self.new.live.now.first ≡ self.new.live.now.turn) }
        ensures dialled { OnOk result (self.new.live.now.cii ≡ None → self.old.live.now.cii ≡ None) }
        ensures dials { (O.counts self.old.outside.now).dial_faults ≤ (O.counts self.new.outside.now).dial_faults }
        ensures early { IfErr result IsEarly }
    {
        let clocked = self.read(Why::Turn)?;
        let reading = clocked.reading;
        let due = reports_at(
            config.report_every,
            reading,
            self.live.first,
            self.live.reported,
        );
        self.live.begin(reading);
        if due {
            self.live.reported += 1;
            let report = self.companion.report(reading);
            let number = self.live.reported;
            self.observer
                .reported(&clocked, number, &report, self.companion);
            return Ok(());
        }
        self.observer.turned(&clocked, self.companion);
        Ok(())
    }

    /// The least reading at which something is due by the clock.
    fn next_due(&self, config: &DriveConfig) -> u64 {
        let report = next_report(self.live, config.report_every);
        let due = report.min(next_due(self.live, config.limit, config.ask_every));
        self.observer.next_due(self.live.turn.unwrap_or(0), due)
    }

    /// Makes the calls of a turn after its report.
    fn calls(&mut self, config: &DriveConfig) -> Result<(), Driven>
        requires floor { self.old.companion.now.client.floor ≤ (O.counts self.old.outside.now).last }
        requires bounds { IfSome config.now.present IsWindow }
        ensures goes { Leads O.told O.counts W.saw W.over config.now self.old self.new from_cii from_end result }
        ensures stays { Stays O.counts self.old self.new result }
        ensures tried { OnOk result (self.new.live.now.cii ≡ None
            → HasRisen (O.counts self.old.outside.now).dial_faults (O.counts self.new.outside.now).dial_faults) }
    {
        self.dial_cii(&config.cii)?;
        self.dial_wc()?;
        self.dial_ts(config)?;
        self.ask(config.ask_every)?;
        let until = self.next_due(config);
        rest(self.outside, config.limit, until);
        self.take()?;
        self.hear(Session::Cii, Binding::Both)?;
        self.hear(Session::Ts, Binding::Both)?;
        Ok(())
    }

    /// Makes a turn, of which nothing follows the report if it is the last, or the turn is the last by its time.
    // Each goal has its answer: the search would not end.
    #[tactic(none)]
    fn turn(&mut self, config: &DriveConfig) -> Result<(), Driven>
        requires floor { self.old.companion.now.client.floor ≤ (O.counts self.old.outside.now).last }
        requires made { self.old.live.now.made < 1099511627776 }
        requires reported { self.old.live.now.reported < config.now.reports }
        requires bounds { IfSome config.now.present IsWindow }
        ensures goes { Leads O.told O.counts W.saw W.over config.now self.old self.new
            (a_reading whys.Turn) from_end result }
        ensures names { Names self.old self.new }
        ensures floor { OnOk result (self.new.companion.now.client.floor ≤ (O.counts self.new.outside.now).last) }
        ensures made { OnOk result (self.new.live.now.made ≡ self.old.live.now.made + 1) }
        ensures dials { (O.counts self.old.outside.now).dial_faults ≤ (O.counts self.new.outside.now).dial_faults }
        ensures early { IfErr result IsEarly }
        ensures tried { (started : ℕ) → started ≤ (O.counts self.old.outside.now).dial_faults
            → HasTried config.now started (O.counts self.old.outside.now).dial_faults self.old.live.now
            → OnOk result (HasTried config.now started (O.counts self.new.outside.now).dial_faults self.new.live.now) }
    {
        self.start(config)?;
        if is_calling(self.live, config) {
            return self.calls(config);
        }
        Ok(())
    }

    /// Makes the turns, and hangs up. The observer has the last word.
    fn turns(&mut self, config: &DriveConfig) -> Driven
        requires known { Knows config.now.companion self.old.companion.now [] }
        requires floor { self.old.companion.now.client.floor ≤ (O.counts self.old.outside.now).last }
        requires bounds { IfSome config.now.present IsWindow }
        requires begun { W.saw self.old.observer.now self.old.observer.now [] }
        requires fresh { facts_of config.now [] ≡ self.old.live.now }
        ensures names { Names self.old self.new }
        ensures made { Made config.now (O.told self.old.outside.now) (O.told self.new.outside.now)
            (W.saw self.old.observer.now self.new.observer.now) (W.over self.new.observer.now) result }
        ensures net_faults { CountsNetFault (O.counts self.old.outside.now).faults
            (O.counts self.new.outside.now).faults result }
        ensures dial_faults { CountsDialFaults (O.counts self.old.outside.now).dial_faults
            (O.counts self.new.outside.now).dial_faults result }
    {
        'turns: while goes_again(self.live, config) {
            match self.turn(config) {
                Ok(()) => {}
                Err(ended) => return ended_by(self.observer, ended),
            }
        }
        let end = ending(self.live, config.reports);
        let ended = self.hang_up(end);
        ended_by(self.observer, ended)
    }
}

/// Makes the turns of a run of which nothing was called yet.
fn drive_from<O: Outside, W: Observes>(
    alloc: Global,
    config: &DriveConfig,
    companion: &mut Companion,
    outside: &mut O,
    observer: &mut W,
    live: &mut Live,
) -> Driven
    requires known { Knows config.now.companion companion.old [] }
    requires floor { companion.old.client.floor ≡ 0 }
    requires bounds { IfSome config.now.present IsWindow }
    requires begun { W.saw observer.old observer.old [] }
    requires fresh { facts_of config.now [] ≡ live.old }
    ensures made { Made config.now (O.told outside.old) (O.told outside.new) (W.saw observer.old observer.new)
        (W.over observer.new) result }
    ensures net_faults { CountsNetFault (O.counts outside.old).faults (O.counts outside.new).faults result }
    ensures dial_faults { CountsDialFaults (O.counts outside.old).dial_faults
        (O.counts outside.new).dial_faults result }
{
    let mut run = Run {
        alloc,
        companion,
        outside,
        observer,
        live,
    };
    run.turns(config)
}

/// Makes the turns of a companion's run. The observer is told what happens, each report where it was made, and nothing
/// is called any more once it is over.
pub fn drive<O: Outside, W: Observes>(
    alloc: Global,
    config: &DriveConfig,
    companion: &mut Companion,
    outside: &mut O,
    observer: &mut W,
) -> Driven
    requires known { Knows config.now.companion companion.old [] }
    requires floor { companion.old.client.floor ≡ 0 }
    requires bounds { IfSome config.now.present IsWindow }
    requires begun { W.saw observer.old observer.old [] }
    ensures made { Made config.now (O.told outside.old) (O.told outside.new) (W.saw observer.old observer.new)
        (W.over observer.new) result }
    ensures net_faults { CountsNetFault (O.counts outside.old).faults (O.counts outside.new).faults result }
    ensures dial_faults { CountsDialFaults (O.counts outside.old).dial_faults
        (O.counts outside.new).dial_faults result }
{
    let mut live = Live::new();
    drive_from(alloc, config, companion, outside, observer, &mut live)
}
