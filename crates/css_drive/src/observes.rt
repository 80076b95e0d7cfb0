//! Who is told what happens in a companion's run.
ghost use Rattle.std.specs.Prelude.{◌≡◌, ◌≤◌, ◌<◌, [], ◌∷◌, ◌++◌, List, Option, None, Some, MatchResult};
ghost use Rattle.css_outside.specs.Outsides.{sleep_entries};
ghost use Rattle.css_outside.specs.declared.fault.OutFault.{OutFault as Fault};
ghost use Rattle.css_drive.specs.CompanionStanding.{Knows};
ghost use Rattle.css_drive.specs.Notes as notes;
ghost use Rattle.css_drive.specs.Notes.{Note, Happened, Reported, Sees, Standpoint, slept_from};

use crate::session::Session;
use css_companion::{Companion, Report};
use css_model::LIMIT;
use css_num::Text;
use css_outside::{Clocked, Failure, Kind, OutFault};

/// Who is told what happens in a companion's run, and its reports, each where it was made. A run is generic in it.
///
/// It never answers: what fails it keeps, and is over then. The run asks it before the next call of the outside, and
/// ends where it is over.
///
/// With what a report may depend on it is lent the companion, as it is after a sleep that a reading told, and before it
/// takes in a datagram or a text.
pub trait Observes {
    /// From the first to the second it was told these notes, the newest first. Where it is over now, it may have lost
    /// the newest of them.
    ghost saw: { Self → Self → List Note → Type 0 };

    /// Why it is over, if it is.
    ghost over: { Self → Option Fault };

    /// Whether the run may go on.
    fn check(&self) -> Result<(), OutFault>
        ensures { MatchResult result (λ _. over self.now ≡ None) (λ fault. over self.now ≡ Some fault) };

    /// The least reading at which the next turn has something to do by the clock alone, after a turn of the first of
    /// these readings, where the run itself has something to do at the second.
    fn next_due(&self, turn: u64, due: u64) -> u64;

    /// The machine slept.
    fn slept(&mut self)
        ensures { (from : Standpoint) → Sees saw over self.old self.new (Happened from notes.Slept ∷ []) };

    /// A turn began, and no report is due.
    fn turned(&mut self, clocked: &Clocked, companion: &Companion)
        requires floor { companion.now.client.floor ≤ clocked.now.reading }
        requires below { clocked.now.reading < LIMIT }
        ensures { (from : Standpoint)
            → Knows from.config.companion companion.now (sleep_entries clocked.now.slept ++ from.history)
            → Sees saw over self.old self.new (notes.turn_notes from clocked.now) };

    /// A turn began, and this report was made at once. Reports are numbered from 1.
    fn reported(&mut self, clocked: &Clocked, number: u64, report: &Report, companion: &Companion)
        requires floor { companion.now.client.floor ≤ clocked.now.reading }
        requires below { clocked.now.reading < LIMIT }
        ensures { (from : Standpoint)
            → Knows from.config.companion companion.now (sleep_entries clocked.now.slept ++ from.history)
            → Sees saw over self.old self.new (Reported (slept_from from clocked.now.slept) number report.now
            ∷ notes.turn_notes from clocked.now) };

    /// A dial was tried: its peer, or what the system said where it failed.
    fn dialled(&mut self, kind: Kind, tried: Result<u32, Failure>)
        ensures { (from : Standpoint) → Sees saw over self.old self.new (notes.dial_notes from kind tried) };

    /// The request of this reading was sent.
    fn asked(&mut self, reading: u64)
        ensures { (from : Standpoint) → Sees saw over self.old self.new (Happened from (notes.Asked reading) ∷ []) };

    /// A datagram of these bytes was taken, and the clock was read after it.
    fn landed(&mut self, clocked: &Clocked, bytes: &[u8], companion: &Companion)
        requires floor { companion.now.client.floor ≤ clocked.now.reading }
        requires below { clocked.now.reading < LIMIT }
        ensures { (from : Standpoint)
            → Knows from.config.companion companion.now (sleep_entries clocked.now.slept ++ from.history)
            → Sees saw over self.old self.new (notes.landing_notes from clocked.now bytes.now) };

    /// A text came.
    fn heard(&mut self, session: Session, text: &Text, companion: &Companion)
        ensures { (from : Standpoint) → Knows from.config.companion companion.now from.history
            → Sees saw over self.old self.new (Happened from (notes.Heard session text.now) ∷ []) };

    /// A session is over.
    fn closed(&mut self, session: Session)
        ensures { (from : Standpoint) → Sees saw over self.old self.new (Happened from (notes.Closed session) ∷ []) };
}

/// Nobody is told, so a run goes on.
impl Observes for () {
    ghost use Rattle.std.specs.Prelude.{⊤, None};

    ghost saw = { λ _ _ _. ⊤ };

    ghost over = { λ _. None };

    fn check(&self) -> Result<(), OutFault> {
        Ok(())
    }

    fn next_due(&self, _turn: u64, due: u64) -> u64 {
        due
    }

    fn slept(&mut self) {}

    fn turned(&mut self, _clocked: &Clocked, _companion: &Companion) {}

    fn reported(
        &mut self,
        _clocked: &Clocked,
        _number: u64,
        _report: &Report,
        _companion: &Companion,
    ) {}

    fn dialled(&mut self, _kind: Kind, _tried: Result<u32, Failure>) {}

    fn asked(&mut self, _reading: u64) {}

    fn landed(&mut self, _clocked: &Clocked, _bytes: &[u8], _companion: &Companion) {}

    fn heard(&mut self, _session: Session, _text: &Text, _companion: &Companion) {}

    fn closed(&mut self, _session: Session) {}
}
