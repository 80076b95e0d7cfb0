//! The runs of rows: each public call of a run is called at one place, and how it ended is tested there.
ghost use Rattle.std.specs.Prelude.{◌≡◌, ◌≤◌, negsuc, All, IfOk, IfSome};
ghost use Rattle.std.specs.Str.{IsUtf8};
ghost use Rattle.css_drive.specs.Configs.{IsWindow, IsWritable};
ghost use Rattle.css_drive_relay.specs.Ran.{IsWritable as IsWritableRelay};
ghost use Rattle.css_outside.specs.Limits.{IsLimit};
ghost use Rattle.css_schedule.specs.Ranges.{IsScriptLine};

use crate::noted::Noted;
use crate::rows::{Row, lines_of, text_of};
use css_client::Local;
use css_companion::CompanionConfig;
use css_drive::{DriveConfig, Driven, Listens, TvDrive, drive_companion, drive_tv};
use css_drive_relay::{RelayRun, drive_relay};
use css_memory::MemorySink;
use css_num::Text;
use css_outside::{Address, Limit};
use css_record::drive_record;
use css_schedule::{ScriptLine, read_script};
use css_tsmsg::Bound;
use css_tv::TvConfig;
use std::alloc::{AllocError, Global};
use std::process::Abort;

/// What is told when memory runs out.
pub const NO_MEMORY: &str = "no memory";

fn text(rt: &impl Abort, alloc: Global, words: &str) -> Text
    ensures { IsUtf8 result }
{
    Text::of(alloc, words.as_bytes()).expect(rt, NO_MEMORY)
}

/// A value of a row that is to be from 1 to `most`.
fn amount(rt: &impl Abort, value: u64, most: u64) -> u64
    ensures { (1 ≤ result) × (result ≤ most) }
{
    assert!(rt; 1 <= value && value <= most);
    value
}

/// How long the run of a row goes on.
fn limit_of(rt: &impl Abort, row: &Row) -> Limit
    ensures { IsLimit result }
{
    if row.seconds == 0 {
        Limit::Turns(amount(rt, row.turns, 1_000_000))
    } else {
        Limit::Seconds(amount(rt, row.seconds, 31_536_000))
    }
}

/// What an end wants of the television as a companion.
fn wanted_of(rt: &impl Abort, alloc: Global, row: &Row, selector: &str) -> CompanionConfig
    ensures selector { IsUtf8 result.selector }
    ensures stem { IsUtf8 result.stem }
    ensures error { result.local.error ≤ 2560000 }
    ensures precision { result.local.precision ≡ 0 }
{
    assert!(rt; row.error <= 2_560_000);
    CompanionConfig {
        selector: text(rt, alloc, selector),
        stem: text(rt, alloc, ""),
        local: Local {
            error: row.error,
            precision: 0,
        },
    }
}

fn cii_of(rt: &impl Abort, alloc: Global) -> Address {
    Address {
        host: text(rt, alloc, "127.0.0.1"),
        port: 6677,
        path: text(rt, alloc, "/cii"),
    }
}

fn window_of(presents: bool) -> Option<(Bound, Bound)>
    ensures { IfSome result IsWindow }
{
    if presents {
        Some((
            Bound::At {
                content: 900_000,
                wall: 10_040_000_000,
            },
            Bound::PlusInfinity { content: 900_000 },
        ))
    } else {
        None
    }
}

fn companion_config(rt: &impl Abort, alloc: Global, row: &Row) -> DriveConfig
    ensures { IsWritable result }
{
    DriveConfig {
        companion: wanted_of(rt, alloc, row, "urn:dvb:css:timeline:pts"),
        cii: cii_of(rt, alloc),
        reports: amount(rt, row.reports, 1_000_000),
        limit: limit_of(rt, row),
        report_every: amount(rt, row.report_every, 1_000_000_000_000),
        ask_every: amount(rt, row.ask_every, 1_000_000_000_000),
        present: window_of(row.presents),
    }
}

fn relay_config(rt: &impl Abort, alloc: Global, row: &Row) -> RelayRun
    ensures { IsWritableRelay result }
{
    RelayRun {
        companion: wanted_of(rt, alloc, row, ""),
        cii: cii_of(rt, alloc),
        host: text(rt, alloc, "relay.example"),
        port: 6690,
        limit: limit_of(rt, row),
        ask_every: amount(rt, row.ask_every, 1_000_000_000_000),
    }
}

fn television_config(rt: &impl Abort, alloc: Global, row: &Row) -> TvDrive
    ensures host { IsUtf8 result.tv.host }
    ensures precision { result.tv.precision ≡ negsuc 29 }
    ensures error { result.tv.error ≤ 25600000 }
    ensures port { result.tv.port ≡ 6677 }
    ensures limit { IsLimit result.limit }
{
    assert!(rt; row.error <= 25_600_000);
    TvDrive {
        tv: TvConfig {
            precision: -30,
            error: row.error,
            follow: row.follow,
            host: text(rt, alloc, "127.0.0.1"),
            port: 6677,
        },
        limit: limit_of(rt, row),
        relative: row.relative,
    }
}

fn script_line(rt: &impl Abort, alloc: Global, line: &str) -> ScriptLine
    ensures { IsScriptLine result }
{
    read_script(alloc, line.as_bytes()).expect(rt, "no line of a script")
}

fn script_lines(rt: &impl Abort, alloc: Global, text: &str) -> Result<Vec<ScriptLine>, AllocError>
    ensures { IfOk result (λ lines. All IsScriptLine lines.items) }
{
    let mut lines = Vec::new(alloc);
    for line in text.lines() {
        lines.push(script_line(rt, alloc, line))?;
    }
    Ok(lines)
}

/// How a run ended, in words.
fn end_words(alloc: Global, driven: &Driven) -> Result<String, AllocError> {
    match driven {
        Driven::Done => format!(in alloc; "Done"),
        Driven::BadLine { line, why } => format!(in alloc;
            "BadLine {{ line: {line}, why: {why:?} }}"
        ),
        Driven::WriteFault => format!(in alloc; "WriteFault"),
        Driven::NetFault(_) => format!(in alloc; "NetFault"),
        Driven::BadCii { text, fault } => format!(in alloc;
            "BadCii {{ text: {text}, fault: {fault:?} }}"
        ),
        Driven::Moved { property, .. } => format!(in alloc;
            "Moved {{ property: {property:?}, .. }}"
        ),
        Driven::Spent { turns } => format!(in alloc; "Spent {{ turns: {turns} }}"),
        Driven::Unreachable { turns } => format!(in alloc; "Unreachable {{ turns: {turns} }}"),
        Driven::BadUrl { property } => format!(in alloc; "BadUrl {{ property: {property:?} }}"),
        Driven::Memory => format!(in alloc; "Memory"),
    }
}

/// Finds that the run of a row ended as it should.
fn assert_ended(rt: &impl Abort, alloc: Global, row: &Row, driven: &Driven) {
    let ended = end_words(alloc, driven).expect(rt, NO_MEMORY);
    let (name, wanted) = (row.name, row.ended);
    assert!(rt;
        ended.starts_with(wanted),
        "{name}: {ended} and not {wanted}"
    );
}

// Each of these calls the run alone: the proof of a test has nothing of what the run promises.
fn television_driven(
    rt: &impl Abort,
    alloc: Global,
    row: &Row,
    script: &[ScriptLine],
    outside: &mut Noted,
) -> Driven
    requires { All IsScriptLine script.now }
{
    drive_tv(alloc, television_config(rt, alloc, row), script, outside)
}

fn companion_driven<F: Listens>(
    rt: &impl Abort,
    alloc: Global,
    row: &Row,
    sink: &mut MemorySink,
    outside: &mut Noted,
    followers: &mut F,
) -> Driven {
    let config = companion_config(rt, alloc, row);
    drive_companion(alloc, config, sink, outside, followers)
}

fn record_driven(
    rt: &impl Abort,
    alloc: Global,
    row: &Row,
    sink: &mut MemorySink,
    outside: &mut Noted,
) -> Driven {
    drive_record(alloc, companion_config(rt, alloc, row), sink, outside)
}

fn relay_driven(rt: &impl Abort, alloc: Global, row: &Row, outside: &mut Noted) -> Driven {
    drive_relay(alloc, relay_config(rt, alloc, row), outside)
}

/// Makes a television's run.
pub fn television(rt: &impl Abort, alloc: Global, row: &Row, outside: &mut Noted) {
    let script = script_lines(rt, alloc, row.script).expect(rt, NO_MEMORY);
    let driven = television_driven(rt, alloc, row, &script, outside);
    assert_ended(rt, alloc, row, &driven);
}

/// Makes a companion's run.
pub fn companion<F: Listens>(
    rt: &impl Abort,
    alloc: Global,
    row: &Row,
    sink: &mut MemorySink,
    outside: &mut Noted,
    followers: &mut F,
) {
    let driven = companion_driven(rt, alloc, row, sink, outside, followers);
    assert_ended(rt, alloc, row, &driven);
}

/// Makes a companion's run with its record.
pub fn recorded(
    rt: &impl Abort,
    alloc: Global,
    row: &Row,
    sink: &mut MemorySink,
    outside: &mut Noted,
) {
    let driven = record_driven(rt, alloc, row, sink, outside);
    assert_ended(rt, alloc, row, &driven);
}

/// Makes a relay's run.
pub fn relay(rt: &impl Abort, alloc: Global, row: &Row, outside: &mut Noted) {
    let driven = relay_driven(rt, alloc, row, outside);
    assert_ended(rt, alloc, row, &driven);
}

/// Finds that the run of a row told the first of these lines, so many of them.
pub fn assert_told(
    rt: &impl Abort,
    alloc: Global,
    row: &Row,
    told: &[u8],
    short: &str,
    count: usize,
) {
    let lines = lines_of(alloc, short, count).expect(rt, NO_MEMORY);
    let (name, text) = (row.name, text_of(told));
    assert!(rt;
        told == lines.as_bytes(),
        "{name}: told\n{text}and not\n{lines}"
    );
}
