ghost use Rattle.std.specs.Prelude.{◌≡◌, ◌++◌, ◌∷◌, [], map, IfOk, OnOk};
ghost use Rattle.std.specs.List.{flat_map, list_all};
ghost use Rattle.css_follow.specs.Marks.{cue_line};
ghost use Rattle.css_follow.specs.Standing as standing;

use crate::mark::Mark;
use crate::notes::Note;
use crate::sheet::{Cue, CueList};
use css_companion::Report;
use css_num::{Memory, Text};
use std::alloc::Global;

/// A cue of a sheet, and how near the reports have come to it.
#[derive(Drop)]
pub struct Waiting {
    pub cue: Cue,
    pub mark: Mark,
}

// How near the reports of these notes came to a tick.
fn mark_of(notes: &[Note], tick: i64) -> Mark
    ensures { result ≡ standing.mark_after tick notes.now }
{
    let mut mark = Mark::Ahead;
    for note in notes {
        mark = mark.later(Mark::at(tick, &note.report));
    }
    mark
}

// Adds a cue with its mark.
fn push_waiting(list: &mut Vec<Waiting>, cue: &Cue, mark: Mark) -> Result<(), Memory>
    ensures { OnOk result (list.new.items ≡ list.old.items ++ record { cue = cue.now; mark = mark } ∷ []) }
{
    let cue = cue.copied()?;
    list.push(Waiting { cue, mark })?;
    Ok(())
}

/// The cues of a sheet, with how near the reports of these notes came to them.
pub fn waiting_for(alloc: Global, cues: &CueList, notes: &[Note]) -> Result<Vec<Waiting>, Memory>
    ensures { IfOk result (λ list. list.items ≡ map (standing.waiting_after notes.now) cues.now) }
{
    let mut list = Vec::new(alloc);
    for cue in cues.as_slice() {
        push_waiting(&mut list, cue, mark_of(notes, cue.tick))?;
    }
    Ok(list)
}

// Adds the line that a cue has been reached.
fn push_line(out: &mut Text, cue: &Cue, words: &[u8]) -> Result<(), Memory>
    ensures { OnOk result (out.new ≡ out.old ++ cue_line cue.now words.now) }
{
    out.push(b"cue ")?;
    out.push(cue.name.bytes())?;
    out.push(words)?;
    out.push(b"\n")
}

// Adds what is said of a cue, where a report comes as near as this.
fn push_news(out: &mut Text, waiting: &Waiting, mark: Mark) -> Result<(), Memory>
    ensures { OnOk result (out.new ≡ out.old ++ standing.news waiting.now.mark mark waiting.now.cue) }
{
    match (waiting.mark, mark) {
        (Mark::Ahead | Mark::Possible, Mark::Passed) => push_line(out, &waiting.cue, b" passed"),
        (Mark::Ahead, Mark::Possible) => push_line(out, &waiting.cue, b" possible"),
        _ => Ok(()),
    }
}

/// What is said of the cues at a report, in their order.
pub fn announcement(alloc: Global, list: &[Waiting], report: &Report) -> Result<Text, Memory>
    ensures { IfOk result (λ text. text ≡ flat_map (standing.news_at report.now) list.now) }
{
    let mut out = Text::new(alloc);
    for waiting in list {
        push_news(&mut out, waiting, Mark::at(waiting.cue.tick, report))?;
    }
    Ok(out)
}

// Marks a cue by one more report.
fn mark(waiting: &mut Waiting, report: &Report)
    ensures { waiting.new ≡ standing.marked_by report.now waiting.old }
{
    waiting.mark = waiting.mark.later(Mark::at(waiting.cue.tick, report));
}

// Marks each cue by one more report.
fn mark_each(list: &mut [Waiting], report: &Report)
    ensures { list.new ≡ map (standing.marked_by report.now) list.old }
{
    for waiting in list.iter_mut() {
        mark(waiting, report);
    }
}

/// Marks all cues by one more report.
pub fn mark_all(list: &mut Vec<Waiting>, report: &Report)
    ensures { list.new.items ≡ map (standing.marked_by report.now) list.old.items }
{
    mark_each(list, report);
}

/// Whether each cue was passed.
pub fn all_passed(list: &[Waiting]) -> bool
    ensures { result ≡ list_all standing.is_done list.now }
{
    list.iter().all(|waiting| waiting.mark == Mark::Passed)
}
