//! A companion's run over any devices.
ghost use Rattle.std.specs.Prelude.{◌≡◌, [], IfOk, IfSome, None};
ghost use Rattle.css_drive.specs.CompanionRun.{Ran};
ghost use Rattle.css_drive.specs.Configs.{IsWindow, IsWritable};
ghost use Rattle.css_drive.specs.CompanionStanding.{Knows};
ghost use Rattle.css_drive.specs.Ends.{CountsNetFault, CountsWriteFault, CountsDialFaults};

use crate::companion_turns::drive;
use crate::config::DriveConfig;
use crate::driven::Driven;
use crate::telling::Telling;
use css_companion::{Companion, CompanionConfig};
use css_follow::Listens;
use css_num::Memory;
use css_outside::{Outside, Sink};
use std::alloc::Global;

/// The companion of a configuration.
pub fn companion_of(alloc: Global, config: &DriveConfig) -> Result<Companion, Memory>
    requires { IsWritable config.now }
    ensures known { IfOk result (λ companion. Knows config.now.companion companion []) }
    ensures floor { IfOk result (λ companion. companion.client.floor ≡ 0) }
{
    let wanted = CompanionConfig {
        selector: config.companion.selector.clone()?,
        stem: config.companion.stem.clone()?,
        local: config.companion.local,
    };
    Companion::new(alloc, wanted)
}

/// Makes a companion's run, and writes its reports.
fn drive_telling<K: Sink, O: Outside, F: Listens>(
    alloc: Global,
    config: &DriveConfig,
    companion: &mut Companion,
    outside: &mut O,
    telling: &mut Telling<'_, K, F>,
) -> Driven
    requires known { Knows config.now.companion companion.old [] }
    requires floor { companion.old.client.floor ≡ 0 }
    requires bounds { IfSome config.now.present IsWindow }
    requires on { telling.old.over ≡ None }
    ensures sink_name { telling.new.sink.ghost_name ≡ telling.old.sink.ghost_name }
    ensures followers_name { telling.new.followers.ghost_name ≡ telling.old.followers.ghost_name }
    ensures ran { Ran config.now (O.told outside.old) (O.told outside.new)
        (K.holds telling.old.sink.now) (K.holds telling.new.sink.now)
        (F.heard telling.old.followers.now) (F.heard telling.new.followers.now) result }
    ensures net_faults { CountsNetFault (O.counts outside.old).faults (O.counts outside.new).faults result }
    ensures write_faults { CountsWriteFault (K.faults telling.old.sink.now) (K.faults telling.new.sink.now) result }
    ensures dial_faults { CountsDialFaults (O.counts outside.old).dial_faults
        (O.counts outside.new).dial_faults result }
{
    drive(alloc, config, companion, outside, telling)
}

/// Makes a companion's run: in each turn the calls of the outside that are due, and where a report is due its line,
/// with what the followers say of it, in one write of the sink.
///
/// Both texts of the companion are UTF-8, and its bounds are a presentation. The run ends as `Done` with the last
/// report, and as `Spent`, or `Unreachable` where no dial succeeded, with the last turn. In a turn that is the last by
/// its time nothing is called after its report but the hang-ups. A text of the CII session that is refused ends the run
/// as `BadCii` or `Moved`, and an address that is none as `BadUrl`, at once. So does a fault of a device, or want of
/// memory; of the faults of a dial only want of memory does.
pub fn drive_companion<K: Sink, O: Outside, F: Listens>(
    alloc: Global,
    config: DriveConfig,
    sink: &mut K,
    outside: &mut O,
    followers: &mut F,
) -> Driven
    requires { IsWritable config }
    ensures ran { Ran config (O.told outside.old) (O.told outside.new) (K.holds sink.old) (K.holds sink.new)
        (F.heard followers.old) (F.heard followers.new) result }
    ensures net_faults { CountsNetFault (O.counts outside.old).faults (O.counts outside.new).faults result }
    ensures write_faults { CountsWriteFault (K.faults sink.old) (K.faults sink.new) result }
    ensures dial_faults { CountsDialFaults (O.counts outside.old).dial_faults
        (O.counts outside.new).dial_faults result }
{
    match companion_of(alloc, &config) {
        Err(Memory) => Driven::Memory,
        Ok(mut companion) => {
            let mut telling = Telling {
                alloc,
                sink,
                followers,
                over: None,
            };
            drive_telling(alloc, &config, &mut companion, outside, &mut telling)
        }
    }
}
