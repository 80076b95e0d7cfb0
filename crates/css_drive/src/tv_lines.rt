ghost use Rattle.std.specs.Prelude.{◌≡◌, ◌<◌, [], true, All, IfOk, OnOk, IfSome};
ghost use Rattle.css_schedule.specs.Ranges.{IsVerb, IsScriptLine};
ghost use Rattle.css_tv.specs.Stages.{Stage};
ghost use Rattle.css_tv.specs.Standing.{IsEvent};
ghost use Rattle.css_drive.specs.TvProgress.{IsRanged, IsOneMore, Turned, goes_on};
ghost use Rattle.css_drive.specs.TvProgress as spec;
ghost use Rattle.css_drive.specs.TvStanding.{From, Carries, Comes, Settles, Leads, IsTurned, at_end, with_tv};
ghost use Rattle.css_drive.specs.TvStanding.{past_line};
ghost use Rattle.css_drive.specs.declared.turns.OnAir.{OnAir as Loop};

use crate::driven::Driven;
use crate::turns::OnAir;
use crate::tv_calls::{put_all, read};
use css_model::LIMIT;
use css_num::Memory;
use css_outside::{Outside, Why};
use css_schedule::{LineWhy, ScriptLine, Verb};
use css_tv::{Tv, TvEvent, TvFault};
use std::alloc::Global;

/// What a line of a script is at the television, where it is carried out at this reading.
fn event_of(verb: &Verb, reading: u64) -> Result<Option<TvEvent>, Memory>
    requires verb { IsVerb verb.now }
    requires reading { reading < LIMIT }
    ensures value { IfOk result (λ event. event ≡ spec.event_of reading verb.now) }
    ensures event { (stage : Stage) → IfOk result (λ event. IfSome event (λ e. IsEvent e stage)) }
{
    match verb {
        Verb::Programme { content_id } => Ok(Some(TvEvent::Programme(content_id.clone()?))),
        Verb::Timeline {
            programme,
            selector,
            rate,
            base,
        } => Ok(Some(TvEvent::AddTimeline {
            programme: *programme,
            selector: selector.clone()?,
            rate: *rate,
            base: *base,
        })),
        Verb::Viewer { command, .. } => Ok(Some(TvEvent::Viewer {
            command: *command,
            reading,
        })),
        _ => Ok(None),
    }
}

/// Carries out a line of the script, before which so many were carried out.
fn carry_out<O: Outside>(
    alloc: Global,
    tv: &mut Tv,
    outside: &mut O,
    line: &ScriptLine,
    before: usize,
    reading: u64,
) -> Result<(), Driven>
    requires verb { IsVerb line.now.verb }
    requires reading { reading < LIMIT }
    requires before { before < 18446744073709551615 }
    ensures { (from : From) (air : Loop) → air.lines ≡ before
        → Leads O.told O.counts from (Carries reading line.now) (Settles (Turned reading) [])
        outside.old (with_tv air tv.old) outside.new (past_line (with_tv air tv.new)) result }
{
    let event = match event_of(&line.verb, reading) {
        Ok(Some(event)) => event,
        Ok(None) => return Ok(()),
        Err(Memory) => return Err(Driven::Memory),
    };
    let mut outs = Vec::new(alloc);
    match tv.step(event, &mut outs) {
        Ok(()) => put_all(alloc, tv, outside, &outs),
        Err(TvFault::Memory) => Err(Driven::Memory),
        Err(TvFault::Player(fault)) => Err(Driven::BadLine {
            line: before as u64 + 1,
            why: LineWhy::Player(fault),
        }),
    }
}

/// Begins a turn: its reading, and the lines of the script that are due.
pub(crate) fn begin<O: Outside>(
    alloc: Global,
    air: &mut OnAir,
    outside: &mut O,
    script: &[ScriptLine],
) -> Result<(), Driven>
    requires script { All IsScriptLine script.now }
    requires ranged { IsRanged air.old.turns }
    requires more { goes_on air.old.turns ≡ true }
    ensures goes { (from : From) → from.run.script ≡ script.now
        → Leads O.told O.counts from (Comes at_end) IsTurned
        outside.old air.old outside.new air.new result }
    ensures turns { OnOk result (IsOneMore air.old.turns air.new.turns) }
{
    let reading = read(outside, Why::Turn)?;
    air.turns.begin(reading);
    let from = air.turns.since();
    'lines: while air.lines < script.len() {
        let line = &script[air.lines];
        if reading < from + line.due {
            return Ok(());
        }
        carry_out(alloc, &mut air.tv, outside, line, air.lines, reading)?;
        air.lines += 1;
    }
    Ok(())
}
