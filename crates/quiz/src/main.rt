//! A quiz over an embedded companion: a question is shown when the programme has surely reached its tick.
#![tactic(auto)]

ghost use Rattle.std.specs.Prelude.{◌≡◌, ◌≤◌, IfOk, OnOk};

use css_client::Local;
use css_companion::{Companion, CompanionConfig, CompanionEvent, CompanionFault, Report};
use css_num::Text;
use std::alloc::Global;
use std::io;
use std::process::ExitCode;

/// The tick of the question, of 90,000 ticks a second.
const QUESTION: i128 = 900_500;

/// The readings of the companion's own clock at which the quiz looks, in ns.
const READINGS: [u64; 3] = [1_000_000, 5_555_000, 6_000_000];

/// What the television tells of itself on the CII session.
const TIMELINES: &str = r#"{"timelines":[{
    "timelineSelector":"urn:dvb:css:timeline:pts",
    "timelineProperties":{"unitsPerSecond":90000,"unitsPerTick":1}}]}"#;

/// What it tells on the TS session: at 10 s of its wall clock the programme is at the tick 900,000, and it plays.
const CONTROL: &str =
    r#"{"contentTime":"900000","timelineSpeedMultiplier":1,"wallClockTime":"10000000000"}"#;

/// Its answer to the request of 1000 ns: its wall clock reads 10,000,000,003 ns.
const ANSWER: [u8; 32] = [
    0, 1, 226, 0, 0, 0, 0, 0, 0, 0, 0, 0, 0, 0, 3, 232, 0, 0, 0, 10, 0, 0, 0, 3, 0, 0, 0, 10, 0, 0,
    0, 3,
];

/// A companion that follows the broadcast's own timeline, on a device whose clock errs by at most 500 ppm.
fn companion(alloc: Global) -> Result<Companion, CompanionFault>
    ensures { IfOk result (λ companion. companion.client.floor ≡ 0) }
{
    let config = CompanionConfig {
        selector: Text::of(alloc, "urn:dvb:css:timeline:pts".as_bytes())?,
        stem: Text::of(alloc, "dvb://".as_bytes())?,
        local: Local {
            error: 128_000,
            precision: 1_000,
        },
    };
    Ok(Companion::new(alloc, config)?)
}

/// What came on both sessions, each text as one event.
fn hear(companion: &mut Companion, alloc: Global) -> Result<(), CompanionFault>
    ensures { companion.new.client ≡ companion.old.client }
{
    companion.step(CompanionEvent::CiiText(Text::of(alloc, TIMELINES.as_bytes())?))?;
    companion.step(CompanionEvent::TsText(Text::of(alloc, CONTROL.as_bytes())?))?;
    Ok(())
}

/// An exchange of the wall clock: a request at 1000 ns, whose answer lands at 23,216 ns.
fn exchange(companion: &mut Companion) -> Result<(), CompanionFault>
    requires { companion.old.client.floor ≤ 1000 }
    ensures { OnOk result (companion.new.client.floor ≤ 23216) }
{
    let _request = companion.ask(1_000);
    companion.land(&ANSWER, 23_216)?;
    Ok(())
}

/// What the quiz does at a reading: it waits where the tick isn't known, or isn't surely reached.
fn decide(report: Report) -> &'static str {
    match report {
        Report::Ticks { lo, .. } if lo >= QUESTION => "show the question",
        Report::Ticks { hi, .. } if hi < QUESTION => "wait: it isn't reached",
        Report::Ticks { .. } => "wait: it may be reached",
        Report::None(_) => "wait: the tick isn't known",
    }
}

/// Both texts and one answer.
fn hear_all(companion: &mut Companion, alloc: Global) -> Result<(), CompanionFault>
    requires { companion.old.client.floor ≤ 1000 }
    ensures { OnOk result (companion.new.client.floor ≤ 23216) }
{
    hear(companion, alloc)?;
    exchange(companion)
}

/// A companion that heard the texts and one answer.
fn evening(alloc: Global) -> Result<Companion, CompanionFault>
    ensures { IfOk result (λ companion. companion.client.floor ≤ 23216) }
{
    let mut companion = companion(alloc)?;
    hear_all(&mut companion, alloc)?;
    Ok(companion)
}

fn tell(rt: &impl Print, companion: &Companion) -> io::Result<()>
    requires { companion.now.client.floor ≤ 23216 }
{
    for reading in READINGS {
        println!(rt; "{reading} ns: {}", decide(companion.report(reading)))?;
    }
    Ok(())
}

fn main(rt: HostRuntime) -> ExitCode {
    let Ok(companion) = evening(rt.alloc()) else {
        return ExitCode::from(1);
    };
    match tell(&rt, &companion) {
        Ok(()) => ExitCode::from(0),
        Err(_) => ExitCode::from(1),
    }
}
