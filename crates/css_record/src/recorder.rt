//! The observer that writes a run's record.
ghost use Rattle.std.specs.Prelude.{◌≡◌, ◌++◌, ◌∷◌, [], ℕ, List, Result, IfOk, false};
ghost use Rattle.css_audit.specs.Printed.{line_text};
ghost use Rattle.css_drive.specs.Notes as notes;
ghost use Rattle.css_drive.specs.Notes.{Happened, Note, Reported, Sees, Standpoint, slept_notes};
ghost use Rattle.css_record.specs.Lines.{lines_of, text_in, text_of};
ghost use Rattle.css_record.specs.Runs.{Saw, Writes, over};

use css_audit::{RecordLine, print_line};
use css_companion::{Companion, Report, line};
use css_drive::{Observes, Session};
use css_num::{Memory, Text};
use css_outside::{Clocked, Failure, Kind, OutFault, Sink, write_all};
use std::alloc::Global;

/// Writes a line for each event of a run that a report may depend on, and for each report.
#[derive(Drop)]
pub(crate) struct Recorder<'a, K: Sink> {
    pub(crate) alloc: Global,
    pub(crate) sink: &'a mut K,
    /// How the last write ended. After a fault nothing more is written.
    pub(crate) written: Result<(), OutFault>,
}

/// Writes a text, if there was memory for it.
pub(crate) fn put<K: Sink>(sink: &mut K, text: Result<Text, Memory>) -> Result<(), OutFault>
    ensures { (bytes : List ℕ) → IfOk text (λ text. text ≡ bytes)
        → Writes result (K.holds sink.old) (K.holds sink.new) (K.faults sink.old) (K.faults sink.new) bytes }
{
    write_all(sink, text?.bytes())
}

/// A line with its line feed, after that of a sleep where one was told.
fn line_of(alloc: Global, slept: bool, line: RecordLine) -> Result<Text, Memory>
    ensures awake { slept ≡ false → IfOk result (λ text. text ≡ line_text line ++ 10 ∷ []) }
    ensures lines { (from : Standpoint)
        → IfOk result (λ text. text ≡ text_in (line ∷ lines_of (slept_notes from slept))) }
{
    let mut text = Text::new(alloc);
    if slept {
        text.push(b"slept\n")?;
    }
    text.push(print_line(alloc, &line)?.bytes())?;
    text.push(b"\n")?;
    Ok(text)
}

/// The lines of a turn and of its report.
fn report_lines(
    alloc: Global,
    clocked: &Clocked,
    number: u64,
    report: &Report,
) -> Result<Text, Memory>
    ensures { (from : Standpoint) → IfOk result (λ text. text
        ≡ text_of (Reported from number report.now ∷ notes.turn_notes from clocked.now)) }
{
    let reading = clocked.reading;
    let mut text = line_of(alloc, clocked.slept, RecordLine::Turn { reading })?;
    text.push(b"report ")?;
    text.push(line(alloc, number, report, None)?.bytes())?;
    Ok(text)
}

/// The line of a datagram that landed.
fn landed_line(alloc: Global, clocked: &Clocked, bytes: &[u8]) -> Result<Text, Memory>
    ensures { (from : Standpoint)
        → IfOk result (λ text. text ≡ text_of (notes.landing_notes from clocked.now bytes.now)) }
{
    let reading = clocked.reading;
    let bytes = Text::of(alloc, bytes)?;
    line_of(alloc, clocked.slept, RecordLine::Land { reading, bytes })
}

/// The line of a text that came.
fn heard_line(alloc: Global, session: Session, text: &Text) -> Result<Text, Memory>
    ensures { (from : Standpoint)
        → IfOk result (λ line. line ≡ text_of (Happened from (notes.Heard session text.now) ∷ [])) }
{
    let bytes = text.clone()?;
    match session {
        Session::Cii => line_of(alloc, false, RecordLine::Cii(bytes)),
        Session::Ts => line_of(alloc, false, RecordLine::Ts(bytes)),
    }
}

/// The line of a session that is over.
fn closed_line(alloc: Global, session: Session) -> Result<Text, Memory>
    ensures { (from : Standpoint)
        → IfOk result (λ line. line ≡ text_of (Happened from (notes.Closed session) ∷ [])) }
{
    match session {
        Session::Cii => line_of(alloc, false, RecordLine::ClosedCii),
        Session::Ts => line_of(alloc, false, RecordLine::ClosedTs),
    }
}

impl<K: Sink> Recorder<'_, K> {
    /// Writes the lines of these notes.
    fn write(&mut self, lines: Result<Text, Memory>)
        ensures { (newest : List Note) → IfOk lines (λ text. text ≡ text_of newest)
            → Sees (Saw K.holds K.faults) over self.old self.new newest }
    {
        self.written = put(self.sink, lines);
    }
}

impl<K: Sink> Observes for Recorder<'_, K> {
    ghost saw = { Saw K.holds K.faults };

    ghost over = { over };

    fn check(&self) -> Result<(), OutFault> {
        self.written
    }

    fn next_due(&self, _turn: u64, due: u64) -> u64 {
        due
    }

    fn slept(&mut self) {
        self.write(line_of(self.alloc, false, RecordLine::Slept));
    }

    fn turned(&mut self, clocked: &Clocked, _companion: &Companion) {
        let reading = clocked.reading;
        self.write(line_of(self.alloc, clocked.slept, RecordLine::Turn { reading }));
    }

    fn reported(
        &mut self,
        clocked: &Clocked,
        number: u64,
        report: &Report,
        _companion: &Companion,
    ) {
        self.write(report_lines(self.alloc, clocked, number, report));
    }

    fn dialled(&mut self, _kind: Kind, _tried: Result<u32, Failure>) {}

    fn asked(&mut self, reading: u64) {
        self.write(line_of(self.alloc, false, RecordLine::Ask { reading }));
    }

    fn landed(&mut self, clocked: &Clocked, bytes: &[u8], _companion: &Companion) {
        self.write(landed_line(self.alloc, clocked, bytes));
    }

    fn heard(&mut self, session: Session, text: &Text, _companion: &Companion) {
        self.write(heard_line(self.alloc, session, text));
    }

    fn closed(&mut self, session: Session) {
        self.write(closed_line(self.alloc, session));
    }
}
