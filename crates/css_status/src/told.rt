ghost use Rattle.std.specs.Prelude.{◌≡◌, OnOk, OnErr};
ghost use Rattle.std.specs.Io.KnownBytes.{Appends};
ghost use Rattle.css_outside.specs.Bytes.{AppendsPrefix};
ghost use Rattle.css_outside.specs.Faults.{CountsCall};
ghost use Rattle.css_status.specs.Ended.{status_line, status_number};

use crate::status::Status;
use css_outside::{OutFault, Sink, write_all};
use std::alloc::Global;

/// How the program ends.
#[derive(Clone, Copy)]
pub struct Ending {
    /// The exit status.
    pub number: u8,
    /// Whether the line of the status was printed. At a fault a part of it was.
    pub told: Result<(), OutFault>,
}

/// Prints the line of a status, `css: ` and its words, to the sink, where it isn't `Done`; and gives the exit status.
/// The line of `Memory` takes no memory.
pub fn tell<K: Sink>(alloc: Global, status: &Status, sink: &mut K) -> Ending
    ensures number { result.number ≡ status_number status.now }
    ensures told { OnOk result.told (Appends (K.holds sink.old) (K.holds sink.new) (status_line status.now)) }
    ensures part { OnErr result.told (AppendsPrefix (K.holds sink.old) (K.holds sink.new) (status_line status.now)) }
    ensures counted { CountsCall (K.faults sink.old) (K.faults sink.new) result.told }
{
    Ending {
        number: status.number(),
        told: print_line(alloc, status, sink),
    }
}

#[tactic(auto, using(crate::proofs::OverLines::line_of_words))]
fn print_line<K: Sink>(alloc: Global, status: &Status, sink: &mut K) -> Result<(), OutFault>
    ensures told { OnOk result (Appends (K.holds sink.old) (K.holds sink.new) (status_line status.now)) }
    ensures part { OnErr result (AppendsPrefix (K.holds sink.old) (K.holds sink.new) (status_line status.now)) }
    ensures counted { CountsCall (K.faults sink.old) (K.faults sink.new) result }
{
    match status {
        Status::Done => write_all(sink, b""),
        Status::Memory => write_all(sink, b"css: memory\n"),
        _ => match format!(in alloc; "css: {status}\n") {
            Ok(line) => write_all(sink, line.as_bytes()),
            Err(_) => Err(OutFault::Memory),
        },
    }
}
