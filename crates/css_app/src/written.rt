//! The commands that write a text of their own: `generate` and `survey`.
ghost use Rattle.std.specs.Prelude.{OnOk, OnErr};
ghost use Rattle.std.specs.Io.KnownBytes.{Appends};
ghost use Rattle.css_outside.specs.Bytes.{AppendsPrefix};
ghost use Rattle.css_outside.specs.Faults.{CountsCall};
ghost use Rattle.css_survey.specs.Generated.{schedule_text};
ghost use Rattle.css_survey.specs.Surveyed.{survey_text};
ghost use Rattle.css_app.specs.Ended.{CanBeDrawn, Writes};
ghost use Rattle.css_status.specs.Ended.{CountsWrites, HasNotFailed, IsDoneUnlessMemory, IsNoUsage};

use css_gen::Generator;
use css_outside::{OutFault, Sink, write_all};
use css_status::Status;
use std::alloc::Global;

// Writes the generated lines one by one, each with its line feed.
fn write_lines<K: Sink>(
    alloc: Global,
    seed: u64,
    lines: u64,
    companions: u32,
    sink: &mut K,
) -> Result<(), OutFault>
    requires { CanBeDrawn companions lines }
    ensures ok { OnOk result
        (Appends (K.holds sink.old) (K.holds sink.new) (schedule_text seed companions lines)) }
    ensures err { OnErr result
        (AppendsPrefix (K.holds sink.old) (K.holds sink.new) (schedule_text seed companions lines)) }
    ensures counted { CountsCall (K.faults sink.old) (K.faults sink.new) result }
{
    let mut generator = Generator::new(alloc, seed, lines, companions);
    'lines: while let Some(mut text) = generator.next_line(alloc)? {
        text.push(b"\n")?;
        write_all(sink, text.bytes())?;
    }
    Ok(())
}

/// Writes the schedule that is generated of the seed. It has so many lines, at most 200,000. With one companion it is
/// of version 1, and has at least 9 lines. With 2 to 16 companions it is of version 2, and has at least 4 lines and 6
/// for each companion.
pub fn generate<K: Sink>(
    alloc: Global,
    seed: u64,
    lines: u64,
    companions: u32,
    sink: &mut K,
) -> Status
    requires { CanBeDrawn companions lines }
    ensures writes { Writes (schedule_text seed companions lines) (K.holds sink.old) (K.holds sink.new) result }
    ensures complete { HasNotFailed (K.faults sink.old) (K.faults sink.new) → IsDoneUnlessMemory result }
    ensures counted_writes { CountsWrites (K.faults sink.old) (K.faults sink.new) result }
    ensures no_usage { IsNoUsage result }
{
    match write_lines(alloc, seed, lines, companions, sink) {
        Ok(()) => Status::Done,
        Err(OutFault::Failed(_)) => Status::WriteFault,
        Err(OutFault::Memory) => Status::Memory,
    }
}

/// Replays the schedule that is generated of the seed, and writes one line: how many lines there are, how many reports
/// are printed for them, how many of these are intervals, and the greatest width of an interval.
///
/// The schedule has so many lines, at most 200,000. With one companion it is of version 1, and has at least 9 lines.
/// With 2 to 16 companions it is of version 2, and has at least 4 lines and 6 for each companion; their reports are
/// counted together.
pub fn survey<K: Sink>(
    alloc: Global,
    seed: u64,
    lines: u64,
    companions: u32,
    sink: &mut K,
) -> Status
    requires { CanBeDrawn companions lines }
    ensures writes { Writes (survey_text seed companions lines) (K.holds sink.old) (K.holds sink.new) result }
    ensures complete { HasNotFailed (K.faults sink.old) (K.faults sink.new) → IsDoneUnlessMemory result }
    ensures counted_writes { CountsWrites (K.faults sink.old) (K.faults sink.new) result }
    ensures no_usage { IsNoUsage result }
{
    let Ok(summary) = css_survey::survey(alloc, seed, lines, companions) else {
        return Status::Memory;
    };
    let Ok(line) = summary.line(alloc, lines) else {
        return Status::Memory;
    };
    match write_all(sink, line.as_bytes()) {
        Ok(()) => Status::Done,
        Err(OutFault::Failed(_)) => Status::WriteFault,
        Err(OutFault::Memory) => Status::Memory,
    }
}
