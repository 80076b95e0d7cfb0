//! Single calls of a companion's run, of which its observer is told.
ghost use Rattle.std.specs.Prelude.{◌≡◌, ◌≤◌, ◌∷◌, ◌++◌, List, MatchResult, Option, None, Some, IfOk, IfErr, OnOk};
ghost use Rattle.css_outside.specs.Faults.{HasRisen};
ghost use Rattle.css_outside.specs.declared.calls.Wrote.TheVariants.{Sent};
ghost use Rattle.css_outside.specs.declared.fault.OutFault.{OutFault as Fault};
ghost use Rattle.css_model.specs.History.{Entry, History};
ghost use Rattle.css_companion.specs.Steps.{IsEvent, IsEntryOf};
ghost use Rattle.css_companion.specs.declared.config.CompanionConfig.{CompanionConfig};
ghost use Rattle.css_drive.specs.CompanionDue.{Point, due_at};
ghost use Rattle.css_drive.specs.CompanionStanding.{Shown, shown, shown_of, IsEarly, Fails, Calls, HasDialled, HasRead};
ghost use Rattle.css_drive.specs.CompanionStanding.{IsAt, KnowsUnder, LeadsFrom, Stays, final_end};
ghost use Rattle.css_drive.specs.CompanionStanding.{still, without, spoken};
ghost use Rattle.css_drive.specs.Notes.{Note, Standpoint, Sees, dial_notes, slept_notes};
ghost use Rattle.css_drive.specs.Proper.{SendText};
ghost use Rattle.css_drive.specs.declared.config.DriveConfig.{DriveConfig as Config};

use crate::calls::{dial, end_of, send_text};
use crate::companion_live::{Live, Run};
use crate::driven::Driven;
use crate::observes::Observes;
use crate::session::Session;
use css_companion::{Binding, Companion, CompanionEvent};
use css_outside::{Address, Clocked, Failure, Kind, OutFault, Outside, Why, Wrote};

/// How a run ends that its observer ends.
fn unseen(fault: OutFault) -> Driven
    ensures early { IsEarly result }
    ensures unmade { (at : Shown) → (over : Option Fault) → over ≡ Some fault → Fails at at over result }
{
    match fault {
        OutFault::Failed(_) => Driven::WriteFault,
        OutFault::Memory => Driven::Memory,
    }
}

/// Whether the run may go on. It is asked before each call of the outside.
pub fn check<W: Observes>(observer: &W) -> Result<(), Driven>
    ensures on { OnOk result (W.over observer.now ≡ None) }
    ensures early { IfErr result IsEarly }
    ensures unmade { IfErr result (λ ended. (at : Shown) → Fails at at (W.over observer.now) ended) }
{
    match observer.check() {
        Ok(()) => Ok(()),
        Err(fault) => Err(unseen(fault)),
    }
}

/// How a run ends that ended so, where its observer may be over.
pub fn ended_by<W: Observes>(observer: &W, ended: Driven) -> Driven
    ensures { result ≡ final_end (W.over observer.now) ended }
{
    match observer.check() {
        Ok(()) => ended,
        Err(OutFault::Failed(_)) => Driven::WriteFault,
        Err(OutFault::Memory) => Driven::Memory,
    }
}

/// Tries a dial, and tells the observer what came of it. One that fails ends nothing.
pub fn try_dial<O: Outside, W: Observes>(
    outside: &mut O,
    observer: &mut W,
    kind: Kind,
    to: &Address,
) -> Result<Result<u32, Failure>, Driven>
    ensures told { Calls (shown (O.told outside.old) (O.counts outside.old))
        (shown (O.told outside.new) (O.counts outside.new)) (W.over observer.new)
        (λ old new. HasDialled old new kind to.now) result }
    ensures saw { (from : Standpoint) → (started : W) → (notes : List Note) → W.saw started observer.old notes
        → MatchResult result (λ tried. W.saw started observer.new (dial_notes from kind tried ++ notes))
        (λ _. W.saw started observer.new notes) }
    ensures last { (O.counts outside.new).last ≡ (O.counts outside.old).last }
    ensures dials { (O.counts outside.old).dial_faults ≤ (O.counts outside.new).dial_faults }
    ensures tried { IfOk result (λ tried. IfErr tried (λ _.
        HasRisen (O.counts outside.old).dial_faults (O.counts outside.new).dial_faults)) }
{
    check(observer)?;
    let tried = dial(outside, kind, to)?;
    observer.dialled(kind, tried);
    Ok(tried)
}

/// Tells the observer of a sleep, where a reading told one.
pub fn note_sleep<W: Observes>(observer: &mut W, clocked: &Clocked)
    ensures { (from : Standpoint)
        → Sees W.saw W.over observer.old observer.new (slept_notes from clocked.now.slept) }
{
    if clocked.slept {
        observer.slept();
    }
}

/// Tells the companion of its TS session, of which nothing is refused.
pub fn tell(
    companion: &mut Companion,
    binding: Binding,
    event: CompanionEvent,
) -> Result<(), Driven>
    requires { IsEvent event }
    ensures ok { (own : CompanionConfig) → (history : History) → (entry : Entry)
        → KnowsUnder binding own companion.old history → IsEntryOf event entry history
        → OnOk result (KnowsUnder binding own companion.new (entry ∷ history)) }
    ensures err { IfErr result (λ ended. ended ≡ Driven.Memory) }
    ensures same { companion.new.client ≡ companion.old.client }
{
    match companion.step_under(binding, event) {
        Ok(_) => Ok(()),
        Err(_) => Err(Driven::Memory),
    }
}

/// What is open of a session once that of a peer is over.
fn still_open(session: Option<u32>, peer: u32) -> Option<u32>
    ensures { result ≡ still session peer }
{
    match session {
        Some(other) if other != peer => Some(other),
        _ => None,
    }
}

impl Live {
    /// The session of a peer is over.
    pub fn close(&mut self, peer: u32)
        ensures { self.new ≡ without peer self.old }
    {
        self.cii_open = still_open(self.cii_open, peer);
        self.ts_open = still_open(self.ts_open, peer);
    }
}

impl<O: Outside, W: Observes> Run<'_, O, W> {
    /// Reads the clock. Where the machine slept, the companion forgets what it asked before the reading is used.
    pub fn read(&mut self, why: Why) -> Result<Clocked, Driven>
        requires { self.old.companion.now.client.floor ≤ (O.counts self.old.outside.now).last }
        ensures told { Calls (shown_of O.told O.counts self.old) (shown_of O.told O.counts self.new)
            (W.over self.new.observer.now) (λ old new. HasRead old new self.old.live.now self.new.live.now
            self.old.companion.now self.new.companion.now why) result }
        ensures saw { (started : W) → (notes : List Note) → W.saw started self.old.observer.now notes
            → W.saw started self.new.observer.now notes }
        ensures on { OnOk result (W.over self.new.observer.now ≡ None) }
        ensures stays { Stays O.counts self.old self.new result }
    {
        check(self.observer)?;
        match self.outside.now(why) {
            Ok(clocked) => {
                if clocked.slept {
                    self.companion.slept();
                    self.live.asked = None;
                }
                Ok(clocked)
            }
            Err(fault) => Err(end_of(fault)),
        }
    }

    /// Sends a text on the TS session, which may be over then.
    pub fn say(&mut self, peer: u32, text: &[u8]) -> Result<Wrote, Driven>
        ensures goes { self.old.live.now.ts_open ≡ Some peer → (config : Config) → (point : Point)
            → LeadsFrom O.told O.counts W.saw W.over config self.old self.new
            (λ history. IsAt config point history × (due_at config point history ≡ SendText peer text.now))
            (λ sent history. IsAt config (spoken sent point) history) result }
        ensures kept { IfOk result (λ sent. sent ≡ Sent → self.new.live.now.ts_open ≡ self.old.live.now.ts_open) }
        ensures stays { Stays O.counts self.old self.new result }
    {
        check(self.observer)?;
        match send_text(self.outside, peer, text)? {
            Wrote::Sent => Ok(Wrote::Sent),
            Wrote::Gone => {
                self.observer.closed(Session::Ts);
                self.live.close(peer);
                tell(self.companion, Binding::Both, CompanionEvent::TsClosed)?;
                Ok(Wrote::Gone)
            }
        }
    }
}
