//! The command `pair`, and the television that it starts as a child.
ghost use Rattle.std.specs.Prelude.{◌≡◌, ◌++◌, ◌∷◌, [], pos, List, ℕ, IfOk, OnOk, Ok, Some};
ghost use Rattle.css_drive.specs.Configs.{IsWritable};
ghost use Rattle.css_schedule.specs.declared.line.ScriptLine.{ScriptLine};
ghost use Rattle.css_status.specs.Devices.{sink_use, source_use};
ghost use Rattle.css_status.specs.Ended.{HasNotFailed, IsNoUsage};
ghost use Rattle.css_app.specs.Ended.{script_in};
ghost use Rattle.css_app.specs.Live.{Pairs, PairsAsDue, TellsFaults, followers_use, outside_use, spawner_use};
ghost use Rattle.css_app.specs.Live as live;

use crate::inputs::take_script_text;
use crate::live::status_of;
use css_drive::{DriveConfig, Listens, drive_companion};
use css_follow::Sheet;
use css_num::{Memory, Text};
use css_outside::{Address, Limit, OutFault, Outside, Sink, Source, Spawner};
use css_status::Status;
use std::alloc::Global;

/// The television that is started beside a companion, as a child.
#[derive(Clone, Copy, Debug, PartialEq, Eq)]
pub struct Child {
    /// The port of its wall clock, at most 65,534. The sessions' port is the next one.
    pub port: u16,
    /// The precision of its wall clock: 2^precision seconds.
    pub precision: i8,
    /// The greatest frequency error of its wall clock in 1/256 ppm.
    pub error: u32,
    /// Whether its responses promise follow-ups.
    pub follow: bool,
    /// Whether the times of its script count from its first turn.
    pub relative: bool,
}

/// Where the session of CSS-CII of a child with this port is dialled.
pub fn address_at(alloc: Global, port: u16) -> Result<Address, Memory>
    ensures { IfOk result (λ address. address ≡ live.address_at port) }
{
    Ok(Address {
        host: Text::of(alloc, b"127.0.0.1")?,
        port,
        path: Text::of(alloc, b"/cii")?,
    })
}

// Adds an option with a number.
fn add_option(alloc: Global, words: &mut Vec<Text>, name: &[u8], value: i128) -> Result<(), Memory>
    ensures { OnOk result (words.new.items ≡ words.old.items ++ live.option_word name.now value ∷ []) }
{
    let mut word = Text::of(alloc, name)?;
    word.push_number(value)?;
    words.push(word)?;
    Ok(())
}

// Adds the word of a flag, where it is set.
fn add_flag(alloc: Global, words: &mut Vec<Text>, name: &[u8], set: bool) -> Result<(), Memory>
    ensures { OnOk result (words.new.items ≡ words.old.items ++ live.flag_words name.now set) }
{
    if set {
        words.push(Text::of(alloc, name)?)?;
    }
    Ok(())
}

// The option that says how long a run goes on, and its number.
fn limit_option(limit: Limit) -> (&'static [u8], u64)
    ensures { live.option_word result.0.now (pos result.1) ≡ live.limit_word limit }
{
    match limit {
        Limit::Turns(turns) => (b"--turns=", turns),
        Limit::Seconds(seconds) => (b"--seconds=", seconds),
    }
}

// The words with which a child is started whose run has this limit.
fn child_words(alloc: Global, child: &Child, limit: Limit) -> Result<Vec<Text>, Memory>
    ensures { IfOk result (λ words. words.items ≡ live.child_words child.now limit) }
{
    let mut words = Vec::new(alloc);
    words.push(Text::of(alloc, b"tv")?)?;
    add_option(alloc, &mut words, b"--port=", i128::from(child.port))?;
    let (name, count) = limit_option(limit);
    add_option(alloc, &mut words, name, i128::from(count))?;
    add_option(
        alloc,
        &mut words,
        b"--precision=",
        i128::from(child.precision),
    )?;
    add_option(alloc, &mut words, b"--error=", i128::from(child.error))?;
    add_flag(alloc, &mut words, b"--follow", child.follow)?;
    add_flag(alloc, &mut words, b"--relative", child.relative)?;
    Ok(words)
}

// The status where the companion's run is done, and the child was waited for.
fn child_status(finished: Result<i32, OutFault>) -> Status
    ensures value { result ≡ live.child_status finished }
    ensures no_usage { IsNoUsage result }
{
    match finished {
        Ok(0) => Status::Done,
        Ok(ended) => Status::ChildFault { status: Ok(ended) },
        Err(OutFault::Failed(failure)) => Status::ChildFault {
            status: Err(failure),
        },
        Err(OutFault::Memory) => Status::Memory,
    }
}

// The companion's status, or the child's where the companion's run is done.
fn with_child(companion: Status, finished: Result<i32, OutFault>) -> Status
    ensures value { result ≡ live.with_child companion finished }
    ensures no_usage { IsNoUsage companion → IsNoUsage result }
{
    match &companion {
        Status::Done => child_status(finished),
        _ => companion,
    }
}

/// Reads a script from the source, to its end, starts the television `tv` with it as a child, and is a companion beside
/// it, with an empty cue sheet, that dials it. A child that was started is waited for, however the companion's run
/// ends.
///
/// `BadLine` comes exactly at the first line that is too long or outside the grammar of scripts, before a child is
/// started; what the child's player refuses shows as the child's status. A companion's status other than `Done` comes
/// before the child's. `ChildFault` has the child's status, which isn't 0; or what the system said, where the child
/// couldn't be started, or waited for.
pub fn pair<S: Source, K: Sink, O: Outside, P: Spawner, F: Listens>(
    alloc: Global,
    config: DriveConfig,
    child: &Child,
    source: &mut S,
    sink: &mut K,
    outside: &mut O,
    spawner: &mut P,
    followers: &mut F,
) -> Status
    requires writable { IsWritable config }
    requires dials { config.cii ≡ live.address_at child.now.port }
    // What became of the script, of the child, and of the run: each report is what the calls of the outside give, and
    // each interval of it is true. The followers speak by the plans that the empty sheet gives them.
    ensures ran { Pairs config child.now (source_use S.left S.faults source.old source.new)
        (sink_use K.holds K.faults sink.old sink.new) (outside_use O.told O.counts outside.old outside.new)
        (spawner_use P.told P.running P.faults spawner.old spawner.new)
        (followers_use F.takes F.heard followers.old followers.new) result }
    // Over devices that don't fail, dials aside, a run beside a child with a script ends as its calls say.
    ensures complete { (bytes : List ℕ) (script : List ScriptLine) → S.left source.old ≡ Some bytes
        → script_in bytes ≡ Ok script
        → HasNotFailed (S.faults source.old) (S.faults source.new)
        → HasNotFailed (K.faults sink.old) (K.faults sink.new)
        → HasNotFailed (O.counts outside.old).faults (O.counts outside.new).faults
        → HasNotFailed (P.faults spawner.old) (P.faults spawner.new)
        → PairsAsDue config (O.told outside.old) (O.told outside.new) result }
    // A fault is told only where the device has failed. A failure of the spawner yields to the companion's status, and
    // no other failure of a device goes untold.
    ensures counted { TellsFaults (S.faults source.old) (S.faults source.new) (K.faults sink.old) (K.faults sink.new)
        (O.counts outside.old) (O.counts outside.new) (P.faults spawner.old) (P.faults spawner.new) result }
    ensures no_usage { IsNoUsage result }
{
    let script = match take_script_text(alloc, source) {
        Ok(script) => script,
        Err(status) => return status,
    };
    let Ok(()) = followers.prepare(&Sheet::empty(alloc)) else {
        return Status::Memory;
    };
    let Ok(words) = child_words(alloc, child, config.limit) else {
        return Status::Memory;
    };
    match spawner.start(&words, &script) {
        Ok(()) => {}
        Err(OutFault::Failed(failure)) => return Status::ChildFault {
            status: Err(failure),
        },
        Err(OutFault::Memory) => return Status::Memory,
    }
    let companion = status_of(drive_companion(alloc, config, sink, outside, followers));
    let finished = spawner.finish();
    with_child(companion, finished)
}
