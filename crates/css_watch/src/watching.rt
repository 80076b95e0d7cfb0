//! The observer that tells what happens in a visit.
ghost use Rattle.std.specs.Prelude.{◌≡◌, ◌≤◌, ◌<◌, ◌++◌, ℕ, List, [], ◌∷◌, Option, None, Some, IfOk, MatchOption};
ghost use Rattle.std.specs.Prelude.{◌==◌, IfSome, OnOk, OnErr, is_some, length, position, take};
ghost use Rattle.std.specs.Io.KnownBytes.{Appends};
ghost use Rattle.css_outside.specs.Bytes.{AppendsPrefix};
ghost use Rattle.css_outside.specs.Faults.{CountsCall};
ghost use Rattle.css_model.specs.declared.TheConstants.{LIMIT};
ghost use Rattle.css_drive.specs.Notes as notes;
ghost use Rattle.css_watch.specs.Progress as progress;
ghost use Rattle.css_watch.specs.Telling as telling;
ghost use Rattle.css_watch.specs.Telling.{text_of};
ghost use Rattle.css_watch.specs.Watching.{Writes, Says, IsFresh, IsFreshOf, IsOf, Steps, Wakes, over_by};
ghost use Rattle.css_watch.specs.Watching.{front_line, parted_by, parting_by, Accepts, IsPossibleAt};
ghost use Rattle.css_model.specs.History.{History};
ghost use Rattle.css_agree.specs.Disagreements.{disagree};
ghost use Rattle.css_agree.specs.Keeping.{StandsFor};
ghost use Rattle.css_agree.specs.Told.{agreed_of};
ghost use Rattle.css_drive.specs.CompanionStanding.{Knows};
ghost use Rattle.css_span.specs.Frontiers.{Answers};

use crate::event_lines::{
    dial_text, heard_text, landing_text, report_due, slept_text, turn_text, unread_in,
};
use crate::plan::Plan;
use crate::progress::{Begun, Progress};
use crate::progress_steps::{is_over, next_due};
use css_agree::{Agree, AgreeFault, Agreed};
use css_client::Landing;
use css_companion::{Companion, Report};
use css_drive::{Observes, Parting, Session};
use css_num::{Memory, Text};
use css_outside::{Clocked, Failure, Kind, OutFault, Sink, write_all};
use css_span::Answer;
use css_watch_lines::Between;
use std::alloc::Global;

/// Writes the lines of a visit, and ends the visit where the television does.
#[derive(Drop)]
pub(crate) struct Watching<'a, K: Sink> {
    pub(crate) alloc: Global,
    pub(crate) plan: &'a Plan,
    pub(crate) sink: &'a mut K,
    pub(crate) progress: &'a mut Progress,
    /// The answers that were accepted since the last sleep.
    pub(crate) agree: &'a mut Agree,
    /// Why nothing is called any more, if nothing is: a write failed, memory ran out, or the visit ends.
    pub(crate) over: Option<OutFault>,
    /// Why the visit ends, if no write failed.
    pub(crate) parting: Option<Parting>,
}

/// Where the first line feed stands, if there is one.
fn first_feed(bytes: &[u8]) -> Option<usize>
    ensures first { result ≡ position (λ byte. byte == 10) bytes.now }
    ensures inside { IfSome result (λ end. end < length bytes.now) }
{
    bytes.iter().position(|byte| *byte == b'\n')
}

/// The first line of these bytes, with its line feed, or all of them where there is none.
fn first_line(bytes: &[u8]) -> &[u8]
    ensures line { result.now ≡ front_line bytes.now }
    ensures front { result.now ≡ take (length result.now) bytes.now }
    ensures more { 0 < length bytes.now → 0 < length result.now }
{
    match first_feed(bytes) {
        None => bytes,
        Some(end) => &bytes[..=end],
    }
}

/// Writes each line by itself.
fn write_lines<K: Sink>(sink: &mut K, bytes: &[u8]) -> Result<(), OutFault>
    ensures ok { OnOk result (Appends (K.holds sink.old) (K.holds sink.new) bytes.now) }
    ensures err { OnErr result (AppendsPrefix (K.holds sink.old) (K.holds sink.new) bytes.now) }
    ensures counted { CountsCall (K.faults sink.old) (K.faults sink.new) result }
{
    let mut written = 0;
    while written < bytes.len() {
        let line = first_line(&bytes[written..]);
        write_all(sink, line)?;
        written += line.len();
    }
    Ok(())
}

/// Writes the lines of a text, if there is one. Says why not, if it fails.
pub(crate) fn put<K: Sink>(sink: &mut K, text: Result<Text, Memory>) -> Option<OutFault>
    ensures { (bytes : List ℕ) → IfOk text (λ text. text ≡ bytes)
        → Writes result (K.holds sink.old) (K.holds sink.new) (K.faults sink.old) (K.faults sink.new) bytes }
{
    match text {
        Err(Memory) => Some(OutFault::Memory),
        Ok(text) => match write_lines(sink, text.bytes()) {
            Ok(()) => None,
            Err(fault) => Some(fault),
        },
    }
}

/// Why the observer is over: a fault, or else the visit's end.
fn over_after(fault: Option<OutFault>, parting: Option<Parting>) -> Option<OutFault>
    ensures { result ≡ over_by fault parting }
{
    match fault {
        Some(fault) => Some(fault),
        None => match parting {
            None => None,
            Some(_) => Some(OutFault::Failed(Failure::Other)),
        },
    }
}

/// The visit's end, where there was no fault.
fn parting_after(fault: Option<OutFault>, parting: Option<Parting>) -> Option<Parting>
    ensures { result ≡ parting_by fault parting }
{
    match fault {
        Some(_) => None,
        None => parting,
    }
}

/// Whether the turn is the last of the watch, by its time.
fn is_last(plan: &Plan, reading: u64, begun: &Begun) -> bool
    ensures { result ≡ telling.is_last plan.now reading begun.now }
{
    let first = begun.first.unwrap_or(reading);
    is_over(plan.run.limit, first, reading)
}

/// Whether the turn is the last of the watch. The first visit ends by its own run's limit.
fn late(plan: &Plan, reading: u64, begun: &Begun) -> Option<Parting>
    ensures { result ≡ telling.late plan.now reading begun.now }
{
    if begun.visits > 1 && is_last(plan, reading, begun) {
        return Some(Parting::Late);
    }
    None
}

/// Whether CSS-TS had closed when the turn before began, so that CSS-CII was heard once more since.
fn closed_before(plan: &Plan, reading: u64, progress: &Progress) -> Option<Parting>
    ensures { result ≡ telling.closed_before plan.now reading progress.now }
{
    if progress.ts_closed && !is_last(plan, reading, &progress.begun) {
        return Some(Parting::Closed(Session::Ts));
    }
    None
}

/// Whether a visit ends at once where a session closes. After CSS-TS it goes on a little: what CSS-CII has ready may
/// say where that is now.
fn closed_at_once(session: Session) -> Option<Parting>
    ensures { result ≡ telling.closed_at_once session }
{
    match session {
        Session::Cii => Some(Parting::Closed(Session::Cii)),
        Session::Ts => None,
    }
}

/// Takes a sleep in, if one was told: the answers of before say nothing of the wall clock any more.
fn wake(alloc: Global, plan: &Plan, slept: bool, progress: &mut Progress, agree: &mut Agree)
    ensures { Wakes plan.now slept progress.old progress.new agree.old agree.new }
{
    if slept {
        progress.after_sleep();
        *agree = Agree::new(alloc, plan.run.companion.local);
    }
}

/// The two answers that contradict each other at a reading, if two do.
fn apart(agree: &Agree, reading: u64) -> Option<Between>
    requires { reading < LIMIT }
    ensures value { (answers : Answers) → StandsFor agree.now answers
        → result ≡ progress.between_in (agreed_of agree.now.local reading answers) }
    ensures some { (answers : Answers) → StandsFor agree.now answers
        → is_some result ≡ disagree agree.now.local reading answers }
{
    match agree.at(reading) {
        Agreed::Disagree { low, high } => Some(Between {
            above: low,
            below: high,
        }),
        Agreed::Within(_) => None,
        Agreed::Nothing => None,
    }
}

/// Adds an answer to those that were accepted, and names two that contradict each other then, if two do.
fn accept(
    agree: &mut Agree,
    judged: &Result<Answer, Landing>,
    reading: u64,
) -> Result<Option<Between>, Memory>
    requires { reading < LIMIT }
    ensures { (answers : Answers) → StandsFor agree.old answers → IsPossibleAt agree.old.local reading judged.now
        → IfOk result (Accepts agree.old.local reading judged.now answers agree.new) }
{
    let Ok(answer) = judged else {
        return Ok(None);
    };
    match agree.add(*answer, reading) {
        Ok(()) => Ok(apart(agree, reading)),
        Err(AgreeFault::Memory) => Err(Memory),
        // What is judged possible is possible.
        Err(AgreeFault::Impossible(_)) => Ok(None),
    }
}

/// Whether the visit ends, where two answers contradict each other.
fn parted(between: &Option<Between>) -> Option<Parting>
    ensures { result ≡ parted_by between.now }
{
    if between.is_some() {
        return Some(Parting::Disagree);
    }
    None
}

impl<'a, K: Sink> Watching<'a, K> {
    /// Writes the lines of an event, after which the visit may end.
    fn say(&mut self, text: Result<Text, Memory>, parting: Option<Parting>)
        ensures sink_name { self.new.sink.ghost_name ≡ self.old.sink.ghost_name }
        ensures plan { self.new.plan.now ≡ self.old.plan.now }
        ensures progress { self.new.progress.now ≡ self.old.progress.now }
        ensures agree { self.new.agree.now ≡ self.old.agree.now }
        ensures said { (bytes : List ℕ) → IfOk text (λ text. text ≡ bytes) → Says self.new.over self.new.parting
            parting (K.holds self.old.sink.now) (K.holds self.new.sink.now) (K.faults self.old.sink.now)
            (K.faults self.new.sink.now) bytes }
    {
        let fault = put(self.sink, text);
        self.over = over_after(fault, parting);
        self.parting = parting_after(fault, parting);
    }

    /// Want of memory ends the run.
    fn fail(&mut self)
        ensures sink_name { self.new.sink.ghost_name ≡ self.old.sink.ghost_name }
        ensures plan { self.new.plan.now ≡ self.old.plan.now }
        ensures progress { self.new.progress.now ≡ self.old.progress.now }
        ensures over { self.new.over ≡ Some OutFault.Memory }
        ensures parting { self.new.parting ≡ None }
        ensures holds { K.holds self.new.sink.now ≡ K.holds self.old.sink.now }
        ensures faults { K.faults self.new.sink.now ≡ K.faults self.old.sink.now }
    {
        self.over = Some(OutFault::Memory);
        self.parting = None;
    }

    /// A turn.
    fn turn(&mut self, reading: u64, companion: &Companion)
        requires range { reading < LIMIT }
        requires floor { companion.now.client.floor ≤ reading }
        ensures sink_name { self.new.sink.ghost_name ≡ self.old.sink.ghost_name }
        ensures plan { self.new.plan.now ≡ self.old.plan.now }
        ensures steps { (history : History) → Knows self.old.plan.now.run.companion companion.now history
            → Steps self.old.plan.now (notes.Turn reading) history self.old.progress.now self.new.progress.now
            self.old.agree.now self.new.agree.now self.new.over self.new.parting (K.holds self.old.sink.now)
            (K.holds self.new.sink.now) (K.faults self.old.sink.now) (K.faults self.new.sink.now) }
    {
        let text = turn_text(
            self.alloc,
            self.plan,
            reading,
            companion,
            self.agree,
            self.progress,
        );
        let late = late(self.plan, reading, &self.progress.begun);
        let parting = late.or(closed_before(self.plan, reading, self.progress));
        let due = report_due(self.plan, reading, &self.progress.begun, companion);
        self.progress.after_turn(reading, &due);
        self.say(text, parting);
    }

    /// A landing.
    fn land(&mut self, reading: u64, bytes: &[u8], companion: &Companion)
        requires range { reading < LIMIT }
        ensures sink_name { self.new.sink.ghost_name ≡ self.old.sink.ghost_name }
        ensures plan { self.new.plan.now ≡ self.old.plan.now }
        ensures steps { (history : History) → Knows self.old.plan.now.run.companion companion.now history
            → Steps self.old.plan.now (notes.Landed reading bytes.now) history self.old.progress.now
            self.new.progress.now self.old.agree.now self.new.agree.now self.new.over self.new.parting
            (K.holds self.old.sink.now) (K.holds self.new.sink.now) (K.faults self.old.sink.now)
            (K.faults self.new.sink.now) }
    {
        let judged = companion.judge(bytes, reading);
        let local = &self.plan.run.companion.local;
        let text = landing_text(self.alloc, local, reading, bytes, &judged, self.progress);
        match accept(self.agree, &judged, reading) {
            Ok(between) => {
                self.progress.after_landing(&judged, between);
                self.say(text, parted(&between));
            }
            Err(Memory) => self.fail(),
        }
    }

    /// A text.
    fn hear(&mut self, session: Session, text: &Text, companion: &Companion)
        ensures sink_name { self.new.sink.ghost_name ≡ self.old.sink.ghost_name }
        ensures plan { self.new.plan.now ≡ self.old.plan.now }
        ensures steps { (history : History) → Knows self.old.plan.now.run.companion companion.now history
            → Steps self.old.plan.now (notes.Heard session text.now) history self.old.progress.now self.new.progress.now
            self.old.agree.now self.new.agree.now self.new.over self.new.parting (K.holds self.old.sink.now)
            (K.holds self.new.sink.now) (K.faults self.old.sink.now) (K.faults self.new.sink.now) }
    {
        let line = heard_text(self.alloc, session, text, companion);
        match session {
            Session::Ts => self.say(line, None),
            Session::Cii => match unread_in(self.alloc, text, companion) {
                Ok(unread) => {
                    self.progress.unread = unread;
                    self.say(line, None);
                }
                Err(Memory) => self.fail(),
            },
        }
    }
}

impl<K: Sink> Observes for Watching<'_, K> {
    ghost use Rattle.css_watch.specs.Watching.{AreFrom, IsTelling};

    ghost saw = { λ started now notes. (now.sink.ghost_name ≡ started.sink.ghost_name)
        × (now.plan.now ≡ started.plan.now)
        × (AreFrom started.plan.now.run notes → IsTelling started.plan.now started.progress.now now.over now.parting
        now.progress.now now.agree.now (K.holds started.sink.now) (K.holds now.sink.now) (K.faults started.sink.now)
        (K.faults now.sink.now) notes) };

    ghost over = { λ watching. watching.over };

    fn check(&self) -> Result<(), OutFault> {
        match self.over {
            None => Ok(()),
            Some(fault) => Err(fault),
        }
    }

    fn next_due(&self, turn: u64, due: u64) -> u64 {
        next_due(self.plan, self.progress, turn, due)
    }

    fn slept(&mut self) {
        wake(self.alloc, self.plan, true, self.progress, self.agree);
    }

    fn turned(&mut self, clocked: &Clocked, companion: &Companion) {
        wake(
            self.alloc,
            self.plan,
            clocked.slept,
            self.progress,
            self.agree,
        );
        self.turn(clocked.reading, companion);
    }

    fn reported(
        &mut self,
        clocked: &Clocked,
        _number: u64,
        _report: &Report,
        companion: &Companion,
    ) {
        wake(
            self.alloc,
            self.plan,
            clocked.slept,
            self.progress,
            self.agree,
        );
        self.turn(clocked.reading, companion);
    }

    fn dialled(&mut self, kind: Kind, tried: Result<u32, Failure>) {
        let text = dial_text(self.alloc, kind, tried, self.progress);
        self.progress.after_dial(kind, tried);
        self.say(text, None);
    }

    fn asked(&mut self, reading: u64) {
        let text = slept_text(self.alloc, reading, self.progress);
        self.progress.after_request();
        self.say(text, None);
    }

    fn landed(&mut self, clocked: &Clocked, bytes: &[u8], companion: &Companion) {
        wake(
            self.alloc,
            self.plan,
            clocked.slept,
            self.progress,
            self.agree,
        );
        self.land(clocked.reading, bytes, companion);
    }

    fn heard(&mut self, session: Session, text: &Text, companion: &Companion) {
        self.hear(session, text, companion);
    }

    fn closed(&mut self, session: Session) {
        self.progress.after_end(session);
        self.say(Ok(Text::new(self.alloc)), closed_at_once(session));
    }
}
