ghost use Rattle.std.specs.Prelude.{◌≡◌, ◌≤◌, ◌≤ℤ◌, pos, true, All, OnOk};
ghost use Rattle.std.specs.Str.{IsUtf8};
ghost use Rattle.css_model.specs.Numbers.{max_error};
ghost use Rattle.css_outside.specs.Limits.{IsLimit};
ghost use Rattle.css_schedule.specs.Ranges.{IsScriptLine};
ghost use Rattle.css_drive.specs.CompanionStanding.{shown};
ghost use Rattle.css_drive.specs.TvDue.{run_of};
ghost use Rattle.css_drive.specs.TvProgress.{IsRanged, IsOneMore, goes_on};
ghost use Rattle.css_drive.specs.TvRan.{TvRan, CountsTvRun};
ghost use Rattle.css_drive.specs.TvStanding.{From, Stops, Comes, Leads, IsReady, at_end};

use crate::calls::{end_of, rest};
use crate::driven::Driven;
use crate::turns::{OnAir, Turns};
use crate::tv_calls::{hang_up_all, hear_all, serve, welcome};
use crate::tv_config::TvDrive;
use crate::tv_lines::begin;
use css_outside::Outside;
use css_schedule::ScriptLine;
use css_tv::Tv;
use std::alloc::Global;

/// The least reading at which something is due by the clock: the next line of the script, or the last turn.
fn next_due(air: &OnAir, script: &[ScriptLine]) -> u64
    requires { IsRanged air.now.turns }
{
    let turns = air.turns;
    let last = turns.limit.last_from(turns.first);
    match script.get(air.lines) {
        Some(line) => last.min(turns.since().saturating_add(line.due)),
        None => last,
    }
}

/// Makes a turn. One that is the last by its time has no calls after those of its lines.
fn turn<O: Outside>(
    alloc: Global,
    air: &mut OnAir,
    outside: &mut O,
    script: &[ScriptLine],
) -> Result<(), Driven>
    requires script { All IsScriptLine script.now }
    requires ranged { IsRanged air.old.turns }
    requires more { goes_on air.old.turns ≡ true }
    requires ready { IsReady (shown (O.told outside.old) (O.counts outside.old)) air.old script.now }
    ensures goes { (from : From) → from.run.script ≡ script.now
        → Leads O.told O.counts from (Comes at_end) (Comes at_end)
        outside.old air.old outside.new air.new result }
    ensures turns { OnOk result (IsOneMore air.old.turns air.new.turns) }
{
    begin(alloc, air, outside, script)?;
    if air.turns.is_over() {
        return Ok(());
    }
    rest(outside, air.turns.limit, next_due(air, script));
    serve(&mut air.tv, outside)?;
    welcome(alloc, &mut air.tv, outside)?;
    hear_all(alloc, &mut air.tv, outside)
}

/// Makes the turns, and then hangs up the open sessions.
fn make_turns<O: Outside>(
    alloc: Global,
    air: &mut OnAir,
    script: &[ScriptLine],
    outside: &mut O,
) -> Driven
    requires script { All IsScriptLine script.now }
    requires ranged { IsRanged air.old.turns }
    requires ready { IsReady (shown (O.told outside.old) (O.counts outside.old)) air.old script.now }
    ensures { (from : From) → from.run.script ≡ script.now
        → Comes at_end from (shown (O.told outside.old) (O.counts outside.old)) air.old
        → Stops from (shown (O.told outside.new) (O.counts outside.new)) result }
{
    'turns: while air.turns.goes_on() {
        match turn(alloc, air, outside, script) {
            Ok(()) => {}
            Err(ended) => return ended,
        }
    }
    hang_up_all(&air.tv, outside)
}

/// Makes a television's run: it listens, makes turns up to its limit, and hangs up the sessions that are open then.
///
/// A line of the script is carried out in the first turn whose reading isn't below the line's time, after all lines
/// before it, and a viewer's command has that reading. In a turn that is the last by its time, nothing else is done. A
/// line that the player refuses ends the run with `BadLine`; lines are counted from 1. `NetFault` comes only where a
/// call of the outside failed.
pub fn drive_tv<O: Outside>(
    alloc: Global,
    run: TvDrive,
    script: &[ScriptLine],
    outside: &mut O,
) -> Driven
    requires precision { run.tv.precision ≤ℤ pos 30 }
    requires error { run.tv.error ≤ max_error }
    requires host { IsUtf8 run.tv.host }
    requires port { run.tv.port ≤ 65534 }
    requires limit { IsLimit run.limit }
    requires script { All IsScriptLine script.now }
    ensures ran { TvRan (run_of run script.now) (O.told outside.old) (O.told outside.new) result }
    ensures counted { CountsTvRun (O.counts outside.old) (O.counts outside.new) result }
{
    let turns = Turns::new(run.limit, run.relative);
    match outside.listen(&run.tv.host, run.tv.port) {
        Ok(()) => {}
        Err(fault) => return end_of(fault),
    }
    let mut air = match Tv::new(alloc, run.tv) {
        Err(_) => return Driven::Memory,
        Ok(tv) => OnAir {
            tv,
            lines: 0,
            turns,
        },
    };
    let ended = make_turns(alloc, &mut air, script, outside);
    drop(air);
    ended
}
