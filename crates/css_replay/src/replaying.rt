ghost use Rattle.std.specs.Prelude.{◌≡◌};
ghost use Rattle.css_status.specs.Devices.{sink_use, source_use};
ghost use Rattle.css_status.specs.Ended.{CountsReads, CountsWrites, TellsNoLive, stop_status};
ghost use Rattle.css_replay.specs.Ended.{ByReplay, replay_refused};

use crate::reader::{Cause, Replay};
use css_lines::{Refusal, Stop, drive};
use css_outside::{Sink, Source};
use css_schedule::LineWhy;
use css_status::Status;
use std::alloc::Global;

// The status of a replay that stopped.
fn status_of(stop: Stop<Cause>) -> Status
    ensures { result ≡ stop_status replay_refused stop }
{
    match stop {
        Stop::BadLine { line, why } => {
            let why = match why {
                Refusal::Long => LineWhy::Long,
                Refusal::Refused(Cause::Form) => LineWhy::Form,
                Refusal::Refused(Cause::Absent) => LineWhy::Absent,
                Refusal::Refused(Cause::Player(fault)) => LineWhy::Player(fault),
                Refusal::Refused(Cause::Broken { earlier, excess }) => {
                    return Status::Broken {
                        line,
                        earlier,
                        excess,
                    };
                }
            };
            Status::BadLine { line, why }
        }
        Stop::ReadFault => Status::ReadFault,
        Stop::WriteFault => Status::WriteFault,
        Stop::Memory => Status::Memory,
    }
}

/// Replays the schedule that the source has: it reads line by line, and writes what each line gives to the sink before
/// it reads on.
///
/// Of every source, what the sink gained keeps the promise: each interval of ticks contains the position that the last
/// control timestamp received assigns to the value that its line gives the television's wall clock, and comes from the
/// narrowest accepted response; lacking a response or usable timestamp the cause is printed. Once told, the companion's
/// state of the content is one that the television published.
///
/// Of a source that tells its bytes, status and sink are the defined outcome. It never ends with `Usage`.
pub fn replay<S: Source, K: Sink>(alloc: Global, source: &mut S, sink: &mut K) -> Status
    ensures does { ByReplay (source_use S.left S.faults source.old source.new)
        (sink_use K.holds K.faults sink.old sink.new) result }
    ensures quiet { TellsNoLive result }
    ensures counted_reads { CountsReads (S.faults source.old) (S.faults source.new) result }
    ensures counted_writes { CountsWrites (K.faults sink.old) (K.faults sink.new) result }
{
    let ended = drive(alloc, source, sink, &mut Replay::new(alloc));
    match ended {
        Ok(()) => Status::Done,
        Err(stop) => status_of(stop),
    }
}
