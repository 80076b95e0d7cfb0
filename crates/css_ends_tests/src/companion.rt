//! Companions, and their clients of the wall clock: rows say what they answer and report.

ghost use Rattle.std.specs.Prelude.{◌≡◌, ◌≤◌, ◌<◌, ◌+◌};
ghost use Rattle.css_companion.specs.Steps.{IsEvent};

use crate::common::{EXACT, check, check_order, datagram, shown, text, words};
use crate::companion_rows::{self as rows, Happened, Row, STAMPS};
use css_cii::{full, write_message};
use css_client::Local;
use css_companion::{
    Cause, Companion, CompanionConfig, CompanionEvent, CompanionFault, Report, line,
};
use css_model::LIMIT;
use css_num::Text;
use css_tsmsg::Bound;
use std::alloc::Global;
use std::process::Abort;

pub fn new_companion(
    rt: &impl Abort,
    alloc: Global,
    selector: &str,
    stem: &str,
    local: Local,
) -> Companion
    ensures { result.client.floor ≡ 0 }
{
    let config = CompanionConfig {
        selector: text(rt, alloc, selector),
        stem: text(rt, alloc, stem),
        local,
    };
    Companion::new(alloc, config).expect(rt, "memory")
}

/// What becomes of bytes that land.
fn land(
    rt: &impl Abort,
    alloc: Global,
    companion: &mut Companion,
    bytes: &[u8],
    reading: u64,
) -> String
    requires range { reading < LIMIT }
    requires floor { companion.old.client.floor ≤ reading }
    ensures { companion.new.client.floor ≤ reading }
{
    let landing = companion.land(bytes, reading).expect(rt, "memory");
    shown(rt, alloc, &landing)
}

fn ask(companion: &mut Companion, reading: u64)
    requires range { reading < LIMIT }
    requires floor { companion.old.client.floor ≤ reading }
    ensures { companion.new.client.floor ≤ reading }
{
    let _ = companion.ask(reading);
}

/// Requests at each reading from one to below another.
fn ask_each(companion: &mut Companion, from: u64, end: u64)
    requires order { from ≤ end }
    requires range { end < LIMIT }
    requires floor { companion.old.client.floor ≤ from }
    ensures { companion.new.client.floor ≤ end }
{
    for reading in from..end {
        ask(companion, reading);
    }
}

fn sleep(companion: &mut Companion)
    ensures { companion.new.client.floor ≤ companion.old.client.floor + 1 }
{
    companion.slept();
}

/// An event that isn't one of those named ends the CII session.
fn event_of(rt: &impl Abort, alloc: Global, happened: Happened) -> CompanionEvent
    ensures { IsEvent result }
{
    match happened {
        Happened::Cii(words) => CompanionEvent::CiiText(text(rt, alloc, words)),
        Happened::Ts(words) => CompanionEvent::TsText(text(rt, alloc, words)),
        Happened::TsOpened => CompanionEvent::TsOpened,
        Happened::TsClosed => CompanionEvent::TsClosed,
        Happened::Present => CompanionEvent::Present {
            earliest: Bound::At {
                content: 900_000,
                wall: 10_040_000_000,
            },
            latest: Bound::PlusInfinity { content: 900_000 },
        },
        _ => CompanionEvent::CiiClosed,
    }
}

/// Why an event is refused. A move tells both addresses.
fn refusal(rt: &impl Abort, alloc: Global, fault: &CompanionFault) -> String {
    let told = match fault {
        CompanionFault::Moved { old, new, .. } => {
            format!(in alloc; "{fault} from {} to {}", words(old), words(new))
        }
        _ => format!(in alloc; "{fault}"),
    };
    told.expect(rt, "memory")
}

/// One that is refused changes nothing of the clock either.
pub fn step(
    companion: &mut Companion,
    event: CompanionEvent,
) -> Result<Option<Text>, CompanionFault>
    requires { IsEvent event }
    ensures { companion.new.client ≡ companion.old.client }
{
    companion.step(event)
}

/// The text that is owed after an event, if one is, or why the event is refused.
fn happen(rt: &impl Abort, alloc: Global, companion: &mut Companion, happened: Happened) -> String
    ensures { companion.new.client ≡ companion.old.client }
{
    match step(companion, event_of(rt, alloc, happened)) {
        Ok(None) => String::new(alloc),
        Ok(Some(owed)) => words(&owed).to_string(alloc).expect(rt, "memory"),
        Err(fault) => refusal(rt, alloc, &fault),
    }
}

pub fn report(companion: &Companion, reading: u64) -> Report
    requires range { reading < LIMIT }
    requires floor { companion.now.client.floor ≤ reading }
{
    companion.report(reading)
}

/// The text of the state that a CII text would leave, or why it would be refused.
fn state_after(rt: &impl Abort, alloc: Global, companion: &Companion, told: &str) -> String {
    match companion.state_after(told.as_bytes()) {
        Ok(state) => {
            let change = full(&state).expect(rt, "memory");
            let all = write_message(alloc, &change).expect(rt, "memory");
            words(&all).to_string(alloc).expect(rt, "memory")
        }
        Err(fault) => refusal(rt, alloc, &fault),
    }
}

/// What a datagram would tell.
fn judge(
    rt: &impl Abort,
    alloc: Global,
    companion: &Companion,
    bytes: &[u8],
    reading: u64,
) -> String
    requires { reading < LIMIT }
{
    shown(rt, alloc, &companion.judge(bytes, reading))
}

/// The answer to a question at a reading.
fn answer_of(
    rt: &impl Abort,
    alloc: Global,
    companion: &Companion,
    question: Happened,
    reading: u64,
) -> String
    requires range { reading < LIMIT }
    requires floor { companion.now.client.floor ≤ reading }
{
    match question {
        Happened::Rate => shown(rt, alloc, &companion.rate()),
        Happened::Assigned(wall) => shown(rt, alloc, &companion.assigned(wall)),
        Happened::Wall(_) => shown(rt, alloc, &companion.wall(reading)),
        Happened::Narrowest(_) => shown(rt, alloc, &companion.answer(reading)),
        Happened::Judges(message_type, times, error, _) => {
            let bytes = datagram(message_type, -30, error, times);
            judge(rt, alloc, companion, &bytes, reading)
        }
        Happened::JudgesBytes(bytes, _) => judge(rt, alloc, companion, bytes, reading),
        Happened::StateAfter(told) => state_after(rt, alloc, companion, told),
        _ => shown(rt, alloc, &companion.kept()),
    }
}

/// When it happens, after a reading.
fn reading_of(happened: Happened, floor: u64) -> u64 {
    match happened {
        Happened::Asks(reading)
        | Happened::AsksEach(reading)
        | Happened::Lands(_, _, _, reading)
        | Happened::Bytes(_, reading)
        | Happened::Wall(reading)
        | Happened::Narrowest(reading)
        | Happened::Judges(_, _, _, reading)
        | Happened::JudgesBytes(_, reading) => reading,
        Happened::Sleeps => floor.saturating_add(1),
        _ => floor,
    }
}

/// What comes of what happens at a reading.
fn carry_out(
    rt: &impl Abort,
    alloc: Global,
    companion: &mut Companion,
    happened: Happened,
    floor: u64,
    reading: u64,
) -> String
    requires floor { companion.old.client.floor ≤ floor }
    requires order { floor ≤ reading }
    requires range { reading < LIMIT }
    ensures { companion.new.client.floor ≤ reading }
{
    match happened {
        Happened::AsksEach(_) => ask_each(companion, floor, reading),
        Happened::Asks(_) => ask(companion, reading),
        Happened::Sleeps if floor < reading => sleep(companion),
        Happened::Lands(message_type, times, error, _) => {
            let bytes = datagram(message_type, -30, error, times);
            return land(rt, alloc, companion, &bytes, reading);
        }
        Happened::Bytes(bytes, _) => return land(rt, alloc, companion, bytes, reading),
        Happened::Wall(_)
        | Happened::Rate
        | Happened::Assigned(_)
        | Happened::Kept
        | Happened::Narrowest(_)
        | Happened::Judges(..)
        | Happened::JudgesBytes(..)
        | Happened::StateAfter(_) => return answer_of(rt, alloc, companion, happened, reading),
        _ => return happen(rt, alloc, companion, happened),
    }
    String::new(alloc)
}

/// The report is printed so behind the number 7.
fn check_report(rt: &impl Abort, alloc: Global, companion: &Companion, reading: u64, told: &str)
    requires range { reading < LIMIT }
    requires floor { companion.now.client.floor ≤ reading }
{
    let printed = line(alloc, 7, &report(companion, reading), None).expect(rt, "memory");
    let expected = format!(in alloc; "7 {told}\n").expect(rt, "memory");
    check(rt, reading as usize, words(&printed), &expected);
}

/// What comes of each row, and the report after it if the row tells one, is what the row says. The last reading.
pub fn play(rt: &impl Abort, alloc: Global, companion: &mut Companion, rows: &[Row]) -> u64
    requires { companion.old.client.floor ≡ 0 }
    ensures range { result < LIMIT }
    ensures floor { companion.new.client.floor ≤ result }
{
    let mut floor = 0;
    for (happened, expected, report) in rows {
        let reading = reading_of(*happened, floor);
        check_order(rt, floor, reading);
        let told = carry_out(rt, alloc, companion, *happened, floor, reading);
        check(rt, reading as usize, &told, expected);
        if !report.is_empty() {
            check_report(rt, alloc, companion, reading, report);
        }
        floor = reading;
    }
    floor
}

fn check_run(rt: &impl Abort, alloc: Global, selector: &str, local: Local, rows: &[Row]) {
    let mut companion = new_companion(rt, alloc, selector, "dvb://", local);
    let _ = play(rt, alloc, &mut companion, rows);
}

/// The greatest errors that a companion may have.
#[rattlefmt::skip]
const WIDEST: Local = Local { error: 2_560_000, precision: 1_000_000_000 };

#[test]
fn a_companion_reports_what_it_was_told(rt: HostRuntime) {
    check_run(&rt, rt.alloc(), STAMPS, EXACT, rows::CONTROLS);
    check_run(&rt, rt.alloc(), STAMPS, EXACT, rows::SLEPT);
    check_run(&rt, rt.alloc(), STAMPS, EXACT, rows::CLOSED_FIRST);
    check_run(&rt, rt.alloc(), STAMPS, EXACT, rows::OPENED_AGAIN);
    check_run(&rt, rt.alloc(), "urn:x:1", EXACT, rows::RATES);
    check_run(&rt, rt.alloc(), STAMPS, EXACT, rows::RATES_OF_STAMPS);
    check_run(&rt, rt.alloc(), STAMPS, EXACT, rows::REFUSALS);
    check_run(&rt, rt.alloc(), "urn:x:1", WIDEST, rows::NEAR_LIMIT);
}

#[test]
fn a_companion_knows_the_wall_clock(rt: HostRuntime) {
    check_run(&rt, rt.alloc(), "", EXACT, rows::OF_THE_LAST_64);
    check_run(&rt, rt.alloc(), "", EXACT, rows::AFTER_IMPOSSIBLE);
    check_run(&rt, rt.alloc(), "", EXACT, rows::OF_ITS_OWN_RESPONSE);
    check_run(&rt, rt.alloc(), "", EXACT, rows::LAST_COPY);
    check_run(&rt, rt.alloc(), "", EXACT, rows::ASLEEP);
    check_run(&rt, rt.alloc(), "", EXACT, rows::JUDGED);
}

#[test]
fn a_companion_says_what_a_text_would_leave(rt: HostRuntime) {
    check_run(&rt, rt.alloc(), STAMPS, EXACT, rows::STATES_AFTER);
}

/// Lines of reports with the positions that they tell beside them.
#[rattlefmt::skip]
const LINES: [(u64, Report, Option<i128>, &str); 3] = [
    (7, Report::Ticks { lo: -3, hi: 12 }, Some(-1), "7 ticks -3 12 at -1\n"),
    (7, Report::None(Cause::NoRate), Some(-1), "7 none NoRate\n"),
    (
        u64::MAX, Report::Ticks { lo: i128::MIN, hi: i128::MAX }, None,
        "18446744073709551615 ticks -170141183460469231731687303715884105728 170141183460469231731687303715884105727\n",
    ),
];

#[test]
fn lines_are_printed(rt: HostRuntime) {
    for (place, (number, report, assigned, expected)) in LINES.iter().enumerate() {
        let printed = line(rt.alloc(), *number, report, *assigned).expect(&rt, "memory");
        check(&rt, place, words(&printed), expected);
    }
}
