//! The runs of `companion`, with a record or without one, of `tv` and of `watch`.
ghost use Rattle.std.specs.Prelude.{◌≡◌, ◌≤◌, ◌≤ℤ◌, pos, List, ℕ, Ok, Some};
ghost use Rattle.std.specs.Str.{IsUtf8};
ghost use Rattle.css_model.specs.Numbers.{max_error};
ghost use Rattle.css_outside.specs.Limits.{IsLimit};
ghost use Rattle.css_follow.specs.Sheets.{sheet_in};
ghost use Rattle.css_follow.specs.declared.sheet.Sheet.{Sheet};
ghost use Rattle.css_schedule.specs.declared.line.ScriptLine.{ScriptLine};
ghost use Rattle.css_drive.specs.Configs.{IsWritable};
ghost use Rattle.css_drive.specs.TvDue.{run_of};
ghost use Rattle.css_watch.specs.Configs as watch;
ghost use Rattle.css_status.specs.Devices.{sink_use, source_use};
ghost use Rattle.css_status.specs.Ended.{HasNotFailed, IsNoUsage};
ghost use Rattle.css_app.specs.Commands.{MakesRecord};
ghost use Rattle.css_app.specs.Ended.{script_in};
ghost use Rattle.css_app.specs.Live.{Companions, EndsAsDue, EndsAtLastUnlessMemory, MakesWatch, Serves, ServesAsDue};
ghost use Rattle.css_app.specs.Live.{TellsFaults, driven_status, followers_use, outside_use, watched_status};

use crate::inputs::{take_script, take_sheet};
use css_drive::{DriveConfig, Driven, Listens, TvDrive, drive_companion, drive_tv};
use css_outside::{Outside, Sink, Source};
use css_record::drive_record;
use css_status::Status;
use css_watch::{WatchConfig, Watched};
use std::alloc::Global;

/// The status of a run that ended so.
pub(crate) fn status_of(driven: Driven) -> Status
    ensures value { result ≡ driven_status driven }
    ensures no_usage { IsNoUsage result }
{
    match driven {
        Driven::Done => Status::Done,
        Driven::BadLine { line, why } => Status::BadLine { line, why },
        Driven::WriteFault => Status::WriteFault,
        Driven::NetFault(failure) => Status::NetFault(failure),
        Driven::BadCii { text, fault } => Status::BadCii { text, fault },
        Driven::Moved { property, old, new } => Status::Moved { property, old, new },
        Driven::Spent { turns } => Status::Spent { turns },
        Driven::Unreachable { turns } => Status::Unreachable { turns },
        Driven::BadUrl { property } => Status::BadUrl { property },
        Driven::Memory => Status::Memory,
    }
}

/// Reads a cue sheet from the source, to its end, and then makes a companion's run, which the followers follow by this
/// sheet.
///
/// `BadSheet` comes exactly at the first line that is outside the grammar of sheets. With it, with `ReadFault`, and
/// where memory ran out before the run, nothing was asked of the outside, and nothing was written. Then the status says
/// how the run ended: `Done` with the last report, and `Spent`, or `Unreachable` where no dial succeeded, with the last
/// turn.
pub fn companion<S: Source, K: Sink, O: Outside, F: Listens>(
    alloc: Global,
    config: DriveConfig,
    source: &mut S,
    sink: &mut K,
    outside: &mut O,
    followers: &mut F,
) -> Status
    requires { IsWritable config }
    // What became of the sheet and of the run: each report is what the calls of the outside give, and each interval of
    // it is true. The followers speak by the plans that the sheet gives them.
    ensures ran { Companions config (source_use S.left S.faults source.old source.new)
        (sink_use K.holds K.faults sink.old sink.new) (outside_use O.told O.counts outside.old outside.new)
        (followers_use F.takes F.heard followers.old followers.new) result }
    // Over devices that don't fail, dials aside, a run by a sheet ends as its calls say.
    ensures complete { (bytes : List ℕ) (sheet : Sheet) → S.left source.old ≡ Some bytes
        → sheet_in bytes ≡ Ok sheet
        → HasNotFailed (S.faults source.old) (S.faults source.new)
        → HasNotFailed (K.faults sink.old) (K.faults sink.new)
        → HasNotFailed (O.counts outside.old).faults (O.counts outside.new).faults
        → EndsAsDue config (O.told outside.old) (O.told outside.new) result }
    // A fault is told only where the device has failed, and no other failure of a device goes untold.
    ensures counted { (spawns : ℕ) → TellsFaults (S.faults source.old) (S.faults source.new) (K.faults sink.old)
        (K.faults sink.new) (O.counts outside.old) (O.counts outside.new) spawns spawns result }
    ensures no_usage { IsNoUsage result }
{
    let sheet = match take_sheet(alloc, source) {
        Ok(sheet) => sheet,
        Err(status) => return status,
    };
    let Ok(()) = followers.prepare(&sheet) else {
        return Status::Memory;
    };
    drop(sheet);
    status_of(drive_companion(alloc, config, sink, outside, followers))
}

/// Makes a companion's run, and writes its record to the sink in place of the reports: what the devices told, line by
/// line, and each report in a line after that of its turn. `audit` reads this.
///
/// The status says how the run ended, as that of `companion` does. The record is whole but at `WriteFault` and
/// `Memory`, where it may lack its end.
pub fn record_companion<K: Sink, O: Outside>(
    alloc: Global,
    config: DriveConfig,
    sink: &mut K,
    outside: &mut O,
) -> Status
    requires { IsWritable config }
    // Each report in the record is what the calls of the outside give, and each interval of it is true.
    ensures makes { MakesRecord config (O.told outside.old) (O.told outside.new) (K.holds sink.old) (K.holds sink.new)
        result }
    // Over devices that don't fail, dials aside, a run ends as its calls say.
    ensures complete { HasNotFailed (K.faults sink.old) (K.faults sink.new)
        → HasNotFailed (O.counts outside.old).faults (O.counts outside.new).faults
        → EndsAsDue config (O.told outside.old) (O.told outside.new) result }
    // A fault is told only where the device has failed, and no other failure of a device goes untold.
    ensures counted { (reads spawns : ℕ) → TellsFaults reads reads (K.faults sink.old) (K.faults sink.new)
        (O.counts outside.old) (O.counts outside.new) spawns spawns result }
    ensures no_usage { IsNoUsage result }
{
    status_of(drive_record(alloc, config, sink, outside))
}

/// Reads a script from the source, to its end, and then makes a television's run.
///
/// `BadLine` with `Long` or `Form` comes exactly at the first line that is too long or outside the grammar of scripts.
/// With it, with `ReadFault`, and where memory ran out before the run, nothing was asked of the outside. A line that
/// the player refuses ends the run with `BadLine` in the turn in which it is due.
pub fn tv<S: Source, O: Outside>(
    alloc: Global,
    run: TvDrive,
    source: &mut S,
    outside: &mut O,
) -> Status
    requires precision { run.tv.precision ≤ℤ pos 30 }
    requires error { run.tv.error ≤ max_error }
    requires host { IsUtf8 run.tv.host }
    requires port { run.tv.port ≤ 65534 }
    requires limit { IsLimit run.limit }
    // What became of the script and of the run.
    ensures ran { Serves run (source_use S.left S.faults source.old source.new)
        (outside_use O.told O.counts outside.old outside.new) result }
    // Over devices that don't fail a run by a script ends as its calls say.
    ensures complete { (bytes : List ℕ) (script : List ScriptLine) → S.left source.old ≡ Some bytes
        → script_in bytes ≡ Ok script
        → HasNotFailed (S.faults source.old) (S.faults source.new)
        → HasNotFailed (O.counts outside.old).faults (O.counts outside.new).faults
        → ServesAsDue (run_of run script) (O.told outside.old) (O.told outside.new) result }
    // A fault is told only where the device has failed, and no other failure of a device goes untold.
    ensures counted { (writes spawns : ℕ) → TellsFaults (S.faults source.old) (S.faults source.new) writes writes
        (O.counts outside.old) (O.counts outside.new) spawns spawns result }
    ensures dials { (O.counts outside.new).dial_faults ≡ (O.counts outside.old).dial_faults }
    ensures no_usage { IsNoUsage result }
{
    let script = match take_script(alloc, source) {
        Ok(script) => script,
        Err(status) => return status,
    };
    status_of(drive_tv(alloc, run, &script, outside))
}

// The status of a watch that ended so.
fn watch_status(watched: Watched) -> Status
    ensures value { result ≡ watched_status watched }
    ensures no_usage { IsNoUsage result }
{
    match watched {
        Watched::Done => Status::Done,
        Watched::Unreachable { turns } => Status::Unreachable { turns },
        Watched::NoInterval { reports } => Status::NoInterval { reports },
        Watched::WriteFault => Status::WriteFault,
        Watched::NetFault(failure) => Status::NetFault(failure),
        Watched::Memory => Status::Memory,
    }
}

/// Makes a watch, and writes what happens to the sink as JSON lines. Nothing is read, and no child is started.
///
/// The status says how the watch ended: `Done` where a report had ticks, `NoInterval` where none had any, and
/// `Unreachable` where no dial of the CSS-CII session succeeded. `WriteFault`, `NetFault` and `Memory` end it earlier.
pub fn watch_television<K: Sink, O: Outside>(
    alloc: Global,
    config: WatchConfig,
    sink: &mut K,
    outside: &mut O,
) -> Status
    requires { watch.IsWritable config }
    // The calls are those of the visits, and the lines tell what happened in each of them.
    ensures makes { MakesWatch config (O.told outside.old) (O.told outside.new) (K.holds sink.old) (K.holds sink.new)
        result }
    // Over devices that don't fail, dials aside, a watch ends at its last turn alone, or after 2^40 visits.
    ensures complete { HasNotFailed (K.faults sink.old) (K.faults sink.new)
        → HasNotFailed (O.counts outside.old).faults (O.counts outside.new).faults → EndsAtLastUnlessMemory result }
    // A fault is told only where the device has failed, and no other failure of a device goes untold.
    ensures counted { (reads spawns : ℕ) → TellsFaults reads reads (K.faults sink.old) (K.faults sink.new)
        (O.counts outside.old) (O.counts outside.new) spawns spawns result }
    ensures no_usage { IsNoUsage result }
{
    watch_status(css_watch::watch(alloc, config, sink, outside))
}
