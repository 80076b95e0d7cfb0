ghost use Rattle.std.specs.Prelude.{◌≡◌, [], IfOk};
ghost use Rattle.css_drive.specs.Configs.{IsWritable};
ghost use Rattle.css_drive.specs.Ends.{CountsNetFault, CountsWriteFault, CountsDialFaults};
ghost use Rattle.css_record.specs.Lines.{record_of};
ghost use Rattle.css_record.specs.Runs.{Recorded};

use crate::recorder::{Recorder, put};
use css_audit::print_header;
use css_drive::{DriveConfig, Driven, companion_of, drive};
use css_num::{Memory, Text};
use css_outside::{Outside, Sink};
use std::alloc::Global;

/// The header of a record, with its line feed.
fn header_of(alloc: Global, config: &DriveConfig) -> Result<Text, Memory>
    ensures { IfOk result (λ text. text ≡ record_of config.now []) }
{
    let mut text = print_header(alloc, &config.companion)?;
    text.push(b"\n")?;
    Ok(text)
}

/// Makes a companion's run and writes its record: what the devices tell that a report depends on, each in a line, and
/// each report in a line after that of its turn. A line is written before the next call of the outside.
///
/// The run makes the same turns as that of `drive_companion`, under the same conditions, and ends as that does. The
/// record can be read if the selector is a word, and the stem a word other than `-` or empty.
pub fn drive_record<K: Sink, O: Outside>(
    alloc: Global,
    config: DriveConfig,
    sink: &mut K,
    outside: &mut O,
) -> Driven
    requires { IsWritable config }
    ensures recorded { Recorded config (O.told outside.old) (O.told outside.new) (K.holds sink.old)
        (K.holds sink.new) result }
    ensures net_faults { CountsNetFault (O.counts outside.old).faults (O.counts outside.new).faults result }
    ensures write_faults { CountsWriteFault (K.faults sink.old) (K.faults sink.new) result }
    ensures dial_faults { CountsDialFaults (O.counts outside.old).dial_faults
        (O.counts outside.new).dial_faults result }
{
    match companion_of(alloc, &config) {
        Err(Memory) => Driven::Memory,
        Ok(mut companion) => {
            let written = put(sink, header_of(alloc, &config));
            let mut recorder = Recorder {
                alloc,
                sink,
                written,
            };
            drive(alloc, &config, &mut companion, outside, &mut recorder)
        }
    }
}
