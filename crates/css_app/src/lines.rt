//! The commands that read their source line by line: `agree`, `audit` and `migrate`.
ghost use Rattle.std.specs.Prelude.{◌≡◌};
ghost use Rattle.css_status.specs.Devices.{sink_use, source_use};
ghost use Rattle.css_status.specs.Ended.{stop_status};
ghost use Rattle.css_app.specs.Commands.{ByAgree, ByAudit, ByMigrate, ByPairs};
ghost use Rattle.css_app.specs.Ended.{agree_refused, audit_refused, line_refused};
ghost use Rattle.css_app.specs.Live.{TellsOverLines};

use css_agree::{Agreeing, Cause, Naming};
use css_audit::{AuditFault, Auditing};
use css_lines::{Refusal, Stop, drive};
use css_migrate::Migrate;
use css_outside::{Sink, Source};
use css_schedule::LineWhy;
use css_status::Status;
use std::alloc::Global;

// The status of a run over answers that stopped.
fn agree_status(stop: Stop<Cause>) -> Status
    ensures { result ≡ stop_status agree_refused stop }
{
    match stop {
        Stop::BadLine {
            line,
            why: Refusal::Refused(Cause::Broken { earlier, excess }),
        } => Status::Broken {
            line,
            earlier,
            excess,
        },
        _ => line_status(stop),
    }
}

/// Reads answers from the source, line by line, and writes what they say together where a line asks for it.
pub(crate) fn agree<S: Source, K: Sink>(alloc: Global, source: &mut S, sink: &mut K) -> Status
    ensures does { ByAgree (source_use S.left S.faults source.old source.new)
        (sink_use K.holds K.faults sink.old sink.new) result }
    ensures counted { TellsOverLines (S.faults source.old) (S.faults source.new) (K.faults sink.old) (K.faults sink.new)
        result }
{
    match drive(alloc, source, sink, &mut Agreeing::new(alloc)) {
        Ok(()) => Status::Done,
        Err(stop) => agree_status(stop),
    }
}

/// The same, with one line more where the answers disagree: which two of them can't both be true.
pub(crate) fn agree_pairs<S: Source, K: Sink>(alloc: Global, source: &mut S, sink: &mut K) -> Status
    ensures does { ByPairs (source_use S.left S.faults source.old source.new)
        (sink_use K.holds K.faults sink.old sink.new) result }
    ensures counted { TellsOverLines (S.faults source.old) (S.faults source.new) (K.faults sink.old) (K.faults sink.new)
        result }
{
    match drive(alloc, source, sink, &mut Naming::new(alloc)) {
        Ok(()) => Status::Done,
        Err(stop) => agree_status(stop),
    }
}

// The status of an audit that stopped.
fn audit_status(stop: Stop<AuditFault>) -> Status
    ensures { result ≡ stop_status audit_refused stop }
{
    let (line, why) = match stop {
        Stop::BadLine { line, why } => (line, why),
        Stop::ReadFault => return Status::ReadFault,
        Stop::WriteFault => return Status::WriteFault,
        Stop::Memory => return Status::Memory,
    };
    let why = match why {
        Refusal::Long => LineWhy::Long,
        Refusal::Refused(AuditFault::Form) => LineWhy::Form,
        Refusal::Refused(AuditFault::Absent) => LineWhy::Absent,
        Refusal::Refused(AuditFault::Broken { earlier, excess }) => {
            return Status::Broken {
                line,
                earlier,
                excess,
            };
        }
        Refusal::Refused(AuditFault::BadCii { text, fault }) => {
            return Status::BadCii { text, fault };
        }
        Refusal::Refused(AuditFault::Moved { property, old, new }) => {
            return Status::Moved { property, old, new };
        }
        Refusal::Refused(AuditFault::WrongReport { right }) => {
            return Status::WrongReport { line, right };
        }
        Refusal::Refused(AuditFault::Memory) => return Status::Memory,
    };
    Status::BadLine { line, why }
}

/// Reads a record from the source, line by line, and checks each report of it. Where all are right, it writes how many
/// there were.
pub(crate) fn audit<S: Source, K: Sink>(alloc: Global, source: &mut S, sink: &mut K) -> Status
    ensures does { ByAudit (source_use S.left S.faults source.old source.new)
        (sink_use K.holds K.faults sink.old sink.new) result }
    ensures counted { TellsOverLines (S.faults source.old) (S.faults source.new) (K.faults sink.old) (K.faults sink.new)
        result }
{
    match drive(alloc, source, sink, &mut Auditing::new(alloc)) {
        Ok(()) => Status::Done,
        Err(stop) => audit_status(stop),
    }
}

/// The status of a run over lines that are refused where they are too long, or outside the grammar.
pub(crate) fn line_status<C: Copy>(stop: Stop<C>) -> Status
    ensures { result ≡ stop_status line_refused stop }
{
    let (line, why) = match stop {
        Stop::BadLine { line, why } => (line, why),
        Stop::ReadFault => return Status::ReadFault,
        Stop::WriteFault => return Status::WriteFault,
        Stop::Memory => return Status::Memory,
    };
    let why = match why {
        Refusal::Long => LineWhy::Long,
        Refusal::Refused(_) => LineWhy::Form,
    };
    Status::BadLine { line, why }
}

/// Reads a schedule of version 1 from the source, line by line, and writes what each line becomes in version 2.
pub(crate) fn migrate<S: Source, K: Sink>(alloc: Global, source: &mut S, sink: &mut K) -> Status
    ensures does { ByMigrate (source_use S.left S.faults source.old source.new)
        (sink_use K.holds K.faults sink.old sink.new) result }
    ensures counted { TellsOverLines (S.faults source.old) (S.faults source.new) (K.faults sink.old) (K.faults sink.new)
        result }
{
    match drive(alloc, source, sink, &mut Migrate::new(alloc)) {
        Ok(()) => Status::Done,
        Err(stop) => line_status(stop),
    }
}
