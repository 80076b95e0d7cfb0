//! What a live command reads from its source before it begins: a cue sheet, or a television's script.
ghost use Rattle.std.specs.Prelude.{◌≡◌, ◌∷◌, [], ◌++◌, IfErr, IfOk, MatchResult, OnOk, All};
ghost use Rattle.css_lines.specs.declared.reader.LineFault.TheVariants as lacks;
ghost use Rattle.css_follow.specs.Sheets.{sheet_in};
ghost use Rattle.css_schedule.specs.Ranges.{IsScriptLine};
ghost use Rattle.css_status.specs.Ended.{stop_status};
ghost use Rattle.css_app.specs.Ended.{script_in};
ghost use Rattle.css_app.specs.Live.{CountsTaking, Gives, GivesScriptText, GivesUpTo, HasNoScript, HasNoSheet};

use crate::lines::line_status;
use css_follow::{Form, Sheet, SheetLines};
use css_lines::{LineFault, Lines, PIECE, Stop, drive};
use css_outside::{Failed, NeverFailsSink, NeverFailsSource, Source};
use css_schedule::{ScriptLine, read_script};
use css_status::Status;
use std::alloc::Global;

// The status where a cue sheet was not read.
fn sheet_status(stop: Stop<Form>) -> Status
    ensures { result ≡ stop_status (λ line _. Status.BadSheet line) stop }
{
    match stop {
        Stop::BadLine { line, .. } => Status::BadSheet { line },
        _ => line_status(stop),
    }
}

/// Reads the cue sheet that the source has, to the source's end.
pub(crate) fn take_sheet<S: Source>(alloc: Global, source: &mut S) -> Result<Sheet, Status>
    ensures value { MatchResult result (Gives sheet_in (S.left source.old) (S.left source.new))
        (HasNoSheet (S.left source.old)) }
    ensures counted { CountsTaking (S.faults source.old) (S.faults source.new) result }
{
    let Ok(mut unused) = NeverFailsSink::new(alloc, PIECE) else {
        return Err(Status::Memory);
    };
    let mut lines = SheetLines::new(alloc);
    match drive(alloc, source, &mut unused, &mut lines) {
        Ok(()) => Ok(lines.sheet()),
        Err(stop) => Err(sheet_status(stop)),
    }
}

/// The most bytes of a line of a script, without its line feed.
const LONGEST_LINE: usize = 4096;

/// The most bytes of a script.
const LONGEST_INPUT: usize = 67_108_864;

/// A line is outside the grammar of a script.
#[derive(Clone, Copy)]
pub struct NoLine;

/// Reads a television's script line by line.
#[derive(Drop)]
pub struct ScriptLines {
    alloc: Global,
    lines: Vec<ScriptLine>,
}

// Adds a line to those that were read.
fn keep(lines: &mut Vec<ScriptLine>, line: ScriptLine) -> Result<(), LineFault<NoLine>>
    ensures kept { OnOk result (lines.new.items ≡ lines.old.items ++ line ∷ []) }
    ensures lacking { IfErr result (λ fault. fault ≡ lacks.Memory) }
{
    match lines.push(line) {
        Ok(()) => Ok(()),
        Err(_) => Err(LineFault::Memory),
    }
}

impl Lines for ScriptLines {
    ghost use Rattle.css_app.specs.Ended.{Stands, script_lines};

    type Cause = NoLine;

    ghost meaning = { script_lines };

    ghost stands = { Stands };

    fn longest_line(&self) -> usize {
        LONGEST_LINE
    }

    fn longest_input(&self) -> u64 {
        LONGEST_INPUT as u64
    }

    fn line(
        &mut self,
        _number: u64,
        text: &[u8],
        _out: &mut Vec<u8>,
    ) -> Result<(), LineFault<NoLine>> {
        match read_script(self.alloc, text) {
            Ok(line) => keep(&mut self.lines, line),
            Err(css_schedule::LineFault::Form) => Err(LineFault::Refused(NoLine)),
            Err(css_schedule::LineFault::Memory) => Err(LineFault::Memory),
        }
    }

    fn finish(&mut self, _out: &mut Vec<u8>) -> Result<(), LineFault<NoLine>> {
        Ok(())
    }
}

/// Reads the script that the source has, to the source's end.
#[tactic(auto, unfolding(crate::specs::Ended::script_of_lines))]
pub(crate) fn take_script<S: Source>(
    alloc: Global,
    source: &mut S,
) -> Result<Vec<ScriptLine>, Status>
    ensures value { MatchResult result (λ script. Gives script_in (S.left source.old) (S.left source.new) script.items)
        (HasNoScript (S.left source.old)) }
    ensures range { IfOk result (λ script. All IsScriptLine script.items) }
    ensures counted { CountsTaking (S.faults source.old) (S.faults source.new) result }
{
    let Ok(mut unused) = NeverFailsSink::new(alloc, PIECE) else {
        return Err(Status::Memory);
    };
    let mut reader = ScriptLines {
        alloc,
        lines: Vec::new(alloc),
    };
    match drive(alloc, source, &mut unused, &mut reader) {
        Ok(()) => {
            let ScriptLines { alloc: _, lines } = reader;
            Ok(lines)
        }
        Err(stop) => Err(line_status(stop)),
    }
}

// Takes the bytes that the source has, up to its end or to more than a script has.
fn take_bytes<S: Source>(alloc: Global, source: &mut S) -> Result<Vec<u8>, Status>
    ensures value { MatchResult result (λ text. GivesUpTo (S.left source.old) (S.left source.new) text.items)
        (HasNoScript (S.left source.old)) }
    ensures counted { CountsTaking (S.faults source.old) (S.faults source.new) result }
{
    let mut piece = [0u8; PIECE];
    let mut text = Vec::new(alloc);
    'pieces: while text.len() <= LONGEST_INPUT {
        let count = match source.read(&mut piece) {
            Ok(count) => count,
            Err(Failed) => return Err(Status::ReadFault),
        };
        if count == 0 {
            return Ok(text);
        }
        let Ok(()) = text.extend_from_slice(&piece[..count]) else {
            return Err(Status::Memory);
        };
    }
    Ok(text)
}

/// Takes the bytes of the script that the source has, to the source's end.
pub(crate) fn take_script_text<S: Source>(alloc: Global, source: &mut S) -> Result<Vec<u8>, Status>
    ensures value { MatchResult result (λ text. GivesScriptText (S.left source.old) (S.left source.new) text.items)
        (HasNoScript (S.left source.old)) }
    ensures counted { CountsTaking (S.faults source.old) (S.faults source.new) result }
{
    let text = take_bytes(alloc, source)?;
    let Ok(mut copy) = NeverFailsSource::new(alloc, &text, PIECE) else {
        return Err(Status::Memory);
    };
    match take_script(alloc, &mut copy) {
        Ok(script) => {
            drop(script);
            Ok(text)
        }
        Err(status) => Err(status),
    }
}
