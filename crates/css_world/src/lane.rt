ghost use Rattle.std.specs.Prelude.{◌≡◌, ◌<◌, ◌≤◌, [], ◌∷◌, Ok, IfOk, OnOk};
ghost use Rattle.css_companion.specs.Steps as steps;
ghost use Rattle.css_schedule.specs.Ranges.{IsCompanion};
ghost use Rattle.css_num.specs.declared.protocol.Kind.TheVariants as kinds;
ghost use Rattle.css_tv.specs.declared.event.TvOut.TheVariants as outs;
ghost use Rattle.css_num.specs.Gives.{Leaves};
ghost use Rattle.css_meaning.specs.Sessions as sessions;
ghost use Rattle.css_world.specs.Flights as flights;
ghost use Rattle.css_world.specs.Lanes as lanes;

use crate::session::{Session, peer_of};
use css_companion::{Companion, CompanionConfig, CompanionEvent, CompanionFault};
use css_meaning::WorldFault;
use css_num::{Memory, Text};
use css_schedule::CompanionLine;
use css_sessions::Kind;
use css_tv::TvOut;
use std::alloc::Global;

/// A companion of a schedule: what it does, and its two sessions.
#[derive(Drop)]
pub(crate) struct Lane {
    pub(crate) companion: Companion,
    pub(crate) cii: Session,
    pub(crate) ts: Session,
}

impl Lane {
    pub(crate) fn new(alloc: Global, declared: &CompanionLine) -> Result<Lane, Memory>
        requires { IsCompanion declared.now }
        ensures { IfOk result (lanes.IsFresh declared.now) }
    {
        let local = declared.local;
        let config = CompanionConfig {
            selector: declared.selector.clone()?,
            stem: declared.stem.clone()?,
            local,
        };
        Ok(Lane {
            companion: Companion::new(alloc, config)?,
            cii: Session::new(alloc),
            ts: Session::new(alloc),
        })
    }

    /// Opens the session of that kind, unless it is open or was open before.
    pub(crate) fn open(&mut self, kind: Kind) -> Result<(), WorldFault>
        ensures session { Leaves result (lanes.session_at kind self.old) (lanes.session_at kind self.new)
            (flights.opened (lanes.session_at kind self.old)) }
        ensures rest { lanes.KeepsAllBut kind self.old self.new }
    {
        match kind {
            Kind::Cii => self.cii.open(),
            Kind::Ts => self.ts.open(),
        }
    }

    /// Closes the session of that kind, if it is open. The texts in flight on it are lost.
    pub(crate) fn close(&mut self, kind: Kind) -> Result<(), WorldFault>
        ensures session { Leaves result (lanes.session_at kind self.old) (lanes.session_at kind self.new)
            (flights.closed (lanes.session_at kind self.old)) }
        ensures rest { lanes.KeepsAllBut kind self.old self.new }
    {
        match kind {
            Kind::Cii => self.cii.close(),
            Kind::Ts => self.ts.close(),
        }
    }

    /// Takes out the television's next text on the session of that kind, if that is open and a text is in flight.
    pub(crate) fn next_down(&mut self, kind: Kind) -> Option<Text>
        ensures text { result ≡ lanes.next_at kind self.old }
        ensures after { lanes.session_at kind self.new ≡ lanes.taken_at kind self.old }
        ensures rest { lanes.KeepsAllBut kind self.old self.new }
    {
        match kind {
            Kind::Cii => self.cii.next_down(),
            Kind::Ts => self.ts.next_down(),
        }
    }

    /// Puts the companion's setup into flight, where a TS session was opened.
    pub(crate) fn greet(&mut self, kind: Kind) -> Result<(), Memory>
        ensures ok { OnOk result (lanes.Greets kind self.old self.new) }
        ensures stands { lanes.StandsGreeted result kind self.old.companion self.new.companion }
        ensures rest { self.new.cii ≡ self.old.cii }
        ensures client { self.new.companion.client ≡ self.old.companion.client }
        ensures setup { self.new.companion.setup ≡ self.old.companion.setup }
    {
        match kind {
            Kind::Cii => Ok(()),
            Kind::Ts => self.attend(CompanionEvent::TsOpened),
        }
    }

    /// Puts a text of the television into flight, if it is for this companion, the one with this number.
    pub(crate) fn tell(&mut self, who: u32, out: TvOut) -> Result<(), Memory>
        requires first { 1 ≤ who }
        requires few { who < 2147483648 }
        ensures told { OnOk result (lanes.TakesUp who (out ∷ []) self.old self.new) }
        ensures rest { self.new.companion ≡ self.old.companion }
    {
        let TvOut::Say { peer, text } = out else {
            return Ok(());
        };
        if peer == peer_of(who, Kind::Cii) {
            self.cii.tell(text)
        } else if peer == peer_of(who, Kind::Ts) {
            self.ts.tell(text)
        } else {
            Ok(())
        }
    }

    /// Lets something happen at the companion that it doesn't refuse, and puts into flight what it then owes.
    pub(crate) fn attend(&mut self, event: CompanionEvent) -> Result<(), Memory>
        requires event { steps.IsEvent event }
        requires taken { lanes.IsTaken self.old.companion event }
        ensures ok { OnOk result (lanes.Attends self.old self.new event) }
        ensures stands { lanes.StandsOn result self.old.companion self.new.companion event }
        ensures rest { self.new.cii ≡ self.old.cii }
        ensures client { self.new.companion.client ≡ self.old.companion.client }
        ensures setup { self.new.companion.setup ≡ self.old.companion.setup }
    {
        if let Some(text) = owed(&mut self.companion, event)? {
            self.ts.write(text)?;
        }
        Ok(())
    }
}

/// What happens at a companion to which a text comes on its session of that kind.
pub(crate) fn heard(kind: Kind, text: Text) -> CompanionEvent
    ensures { result ≡ lanes.heard_as kind text }
{
    match kind {
        Kind::Cii => CompanionEvent::CiiText(text),
        Kind::Ts => CompanionEvent::TsText(text),
    }
}

/// What happens at a companion whose session of that kind closes.
pub(crate) fn closed(kind: Kind) -> CompanionEvent
    ensures { result ≡ lanes.closed_as kind }
{
    match kind {
        Kind::Cii => CompanionEvent::CiiClosed,
        Kind::Ts => CompanionEvent::TsClosed,
    }
}

/// Lets something happen at a companion that it doesn't refuse. It tells the text that is then owed to the TS session.
fn owed(companion: &mut Companion, event: CompanionEvent) -> Result<Option<Text>, Memory>
    requires event { steps.IsEvent event }
    requires taken { lanes.IsTaken companion.old event }
    ensures owed { IfOk result (λ text. steps.owed companion.old event ≡ Ok text) }
    ensures stepped { OnOk result (companion.new ≡ steps.stepped companion.old event) }
    ensures stands { lanes.StandsOn result companion.old companion.new event }
    ensures keeps { (companion.new.client ≡ companion.old.client) × (companion.new.setup ≡ companion.old.setup) }
{
    match companion.step(event) {
        Ok(text) => Ok(text),
        Err(fault) => match fault {
            CompanionFault::Memory => Err(Memory),
            CompanionFault::BadCii { .. } => unreachable!(),
            CompanionFault::Moved { .. } => unreachable!(),
        },
    }
}
