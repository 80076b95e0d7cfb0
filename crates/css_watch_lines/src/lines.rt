ghost use Rattle.std.specs.Prelude.{◌≡◌, ◌<◌, ◌^◌, IfOk, OnOk, None, Some};
ghost use Rattle.serde_json.specs.View.{view};
ghost use Rattle.css_cii.specs.Texts.{IsUtf8State};
ghost use Rattle.css_tsmsg.specs.Controls.{IsInRange};
ghost use Rattle.css_watch_lines.specs.Lines as lines;
ghost use Rattle.css_watch_lines.specs.Writable.{AreWritable, told_in};

use crate::known::{Between, Known};
use crate::members::Members;
use crate::words::{failure_words, first_digits, landing_words, service_words};
use css_cii::{State, state_value};
use css_client::Landing;
use css_companion::{Cause, cause_text, fault_text};
use css_model::{Failure, Kind};
use css_num::{Control, Memory, Text};
use css_span::Answer;
use css_tsmsg::{TsFault, control_value};
use serde_json::{Value, json};
use std::alloc::{AllocError, Global};

/// The line where a visit begins: `event` is `visit`. Visits are counted from 1.
pub fn visit_line(alloc: Global, number: u64, reading: u64) -> Result<Text, Memory>
    requires { number < 10 ^ 18 }
    ensures text { IfOk result (λ text. text ≡ lines.line_text (lines.Visit number reading)) }
    ensures read_back { OnOk result (lines.IsReadBack (lines.line_data (lines.Visit number reading))) }
{
    Members::of_event(alloc, "visit")?
        .with_number("number", number)?
        .with_time("reading", reading)?
        .line()
}

/// The line of a dial that succeeded.
fn open_line(alloc: Global, kind: Kind) -> Result<Text, Memory>
    ensures text { IfOk result (λ text. text ≡ lines.line_text (lines.Dial kind None)) }
    ensures read_back { OnOk result (lines.IsReadBack (lines.line_data (lines.Dial kind None))) }
{
    Members::of_event(alloc, "dial")?
        .with_words("outcome", "open")?
        .with_words("service", service_words(kind))?
        .line()
}

/// The line of a dial that failed.
fn failed_line(alloc: Global, kind: Kind, failure: Failure) -> Result<Text, Memory>
    ensures text { IfOk result (λ text. text ≡ lines.line_text (lines.Dial kind (Some failure))) }
    ensures read_back { OnOk result (lines.IsReadBack (lines.line_data (lines.Dial kind (Some failure)))) }
{
    let why = failure_words(alloc, failure)?;
    Members::of_event(alloc, "dial")?
        .with_words("outcome", "failed")?
        .with_words("service", service_words(kind))?
        .with_words("why", why.as_str())?
        .line()
}

/// The line of a dial's outcome: `event` is `dial`. `failure` is what the system said of one that failed.
pub fn dial_line(alloc: Global, kind: Kind, failure: Option<Failure>) -> Result<Text, Memory>
    ensures text { IfOk result (λ text. text ≡ lines.line_text (lines.Dial kind failure)) }
    ensures read_back { OnOk result (lines.IsReadBack (lines.line_data (lines.Dial kind failure))) }
{
    match failure {
        None => open_line(alloc, kind),
        Some(failure) => failed_line(alloc, kind, failure),
    }
}

/// The line of the state after a CII text: `event` is `state`. It has all nine properties, null where they are. Each
/// text of the state is UTF-8.
pub fn state_line(alloc: Global, state: &State) -> Result<Text, Memory>
    requires { IsUtf8State state.now }
    ensures text { IfOk result (λ text. text ≡ lines.line_text (lines.StateTold state.now)) }
    ensures read_back { OnOk result (lines.IsReadBack (lines.line_data (lines.StateTold state.now))) }
{
    let state = state_value(alloc, state)?;
    Members::of_event(alloc, "state")?
        .with_value("state", state)?
        .line()
}

/// The object of a control timestamp, whose members are all null where the timeline isn't available.
fn told_value(alloc: Global, control: &Control) -> Result<Value, AllocError>
    ensures { IfOk result (λ value. view value ≡ lines.told_control control.now) }
{
    match control {
        Control::Available { .. } => control_value(alloc, control),
        Control::Unavailable => {
            json!(in alloc; {"contentTime": null, "timelineSpeedMultiplier": null, "wallClockTime": null})
        }
    }
}

/// The line of a control timestamp: `event` is `control`. Where the timeline isn't available all three members are
/// null, also the wall time, which a television's own text has.
///
/// The content time has at most 18 digits, the wall time is below 2^63, and the speed is -64 to 64.
pub fn control_line(alloc: Global, control: &Control) -> Result<Text, Memory>
    requires { IsInRange control.now }
    ensures text { IfOk result (λ text. text ≡ lines.line_text (lines.ControlTold control.now)) }
    ensures read_back { OnOk result (lines.IsReadBack (lines.line_data (lines.ControlTold control.now))) }
{
    let control = told_value(alloc, control)?;
    Members::of_event(alloc, "control")?
        .with_value("control", control)?
        .line()
}

/// The line of a TS text that isn't readable: `event` is `control`. It has the fault and the front of the text.
pub fn unread_line(alloc: Global, fault: TsFault, text: &str) -> Result<Text, Memory>
    ensures text { IfOk result (λ line. line ≡ lines.line_text (lines.Unread fault text.now)) }
    ensures read_back { OnOk result (lines.IsReadBack (lines.line_data (lines.Unread fault text.now))) }
{
    let fault = fault_text(alloc, fault)?;
    Members::of_event(alloc, "control")?
        .with_text("fault", &fault)?
        .with_words("text", text)?
        .line()
}

/// The members of an answer, but for those of its datagram.
fn answer_members(alloc: Global, answer: &Answer) -> Result<Members, Memory>
    ensures value { IfOk result (λ members. told_in members ≡ lines.answer_members answer.now) }
    ensures writable { IfOk result (λ members. AreWritable (told_in members)) }
{
    Members::of_event(alloc, "answer")?
        .with_small("error", answer.error)?
        .with_time("originate", answer.t1)?
        .with_time("precision", answer.precision)?
        .with_time("receive", answer.t2)?
        .with_time("transmit", answer.t3)
}

/// The line of an answer that is accepted: `event` is `answer`.
///
/// `kind` is the message type of its datagram, `landed` the reading at which that landed, and `width` that of its span
/// there. Times are in nanoseconds, the error is in 1/256 ppm.
pub fn answer_line(
    alloc: Global,
    answer: &Answer,
    kind: u8,
    landed: u64,
    width: i128,
) -> Result<Text, Memory>
    ensures text { IfOk result (λ text. text ≡ lines.line_text (lines.Answered answer.now kind landed width)) }
    ensures read_back { OnOk result
        (lines.IsReadBack (lines.line_data (lines.Answered answer.now kind landed width))) }
{
    answer_members(alloc, answer)?
        .with_time("landed", landed)?
        .with_small("type", u32::from(kind))?
        .with_digits("width", width)?
        .line()
}

/// The line of a datagram that is refused: `event` is `refused`. It has the first 64 bytes. `landed` is the reading at
/// which it landed.
pub fn refused_line(
    alloc: Global,
    landing: &Landing,
    bytes: &[u8],
    landed: u64,
) -> Result<Text, Memory>
    ensures text { IfOk result (λ text. text ≡ lines.line_text (lines.Refused landing.now bytes.now landed)) }
    ensures read_back { OnOk result
        (lines.IsReadBack (lines.line_data (lines.Refused landing.now bytes.now landed))) }
{
    let digits = first_digits(alloc, bytes)?;
    Members::of_event(alloc, "refused")?
        .with_words("bytes", digits.as_str())?
        .with_words("fault", landing_words(landing))?
        .with_time("landed", landed)?
        .line()
}

/// The line where a sleep was noticed: `event` is `slept`.
pub fn slept_line(alloc: Global, reading: u64) -> Result<Text, Memory>
    ensures text { IfOk result (λ text. text ≡ lines.line_text (lines.SleptAt reading)) }
    ensures read_back { OnOk result (lines.IsReadBack (lines.line_data (lines.SleptAt reading))) }
{
    Members::of_event(alloc, "slept")?
        .with_time("reading", reading)?
        .line()
}

/// The members that each report has.
fn report_members(alloc: Global, number: u64, reading: u64) -> Result<Members, Memory>
    requires { number < 10 ^ 18 }
    ensures value { IfOk result (λ members. told_in members ≡ lines.report_members number reading) }
    ensures writable { IfOk result (λ members. AreWritable (told_in members)) }
{
    Members::of_event(alloc, "report")?
        .with_number("number", number)?
        .with_time("reading", reading)
}

/// The line of a report with ticks: `event` is `report`. Reports are counted from 1.
pub fn known_line(alloc: Global, number: u64, reading: u64, known: &Known) -> Result<Text, Memory>
    requires { number < 10 ^ 18 }
    ensures text { IfOk result (λ text. text ≡ lines.line_text (lines.Known number reading known.now)) }
    ensures read_back { OnOk result (lines.IsReadBack (lines.line_data (lines.Known number reading known.now))) }
{
    report_members(alloc, number, reading)?
        .with_span("agreed", known.agreed)?
        .with_small("error", known.error)?
        .with_rate("rate", known.rate)?
        .with_speed("speed", known.speed)?
        .with_ticks("ticks", &known.ticks)?
        .with_span("wall", known.wall)?
        .line()
}

/// The line of a report without ticks: `event` is `report`. `detail` says how far the visit came. Reports are counted
/// from 1.
pub fn cause_line(
    alloc: Global,
    number: u64,
    reading: u64,
    cause: &Cause,
    detail: &str,
) -> Result<Text, Memory>
    requires { number < 10 ^ 18 }
    ensures text { IfOk result (λ text. text ≡ lines.line_text (lines.Unknown number reading cause.now detail.now)) }
    ensures read_back { OnOk result
        (lines.IsReadBack (lines.line_data (lines.Unknown number reading cause.now detail.now))) }
{
    let cause = cause_text(alloc, *cause)?;
    report_members(alloc, number, reading)?
        .with_text("cause", &cause)?
        .with_words("detail", detail)?
        .line()
}

/// The line where a visit ends: `event` is `end`. `why` says what ended it.
pub fn end_line(alloc: Global, number: u64, why: &str) -> Result<Text, Memory>
    requires { number < 10 ^ 18 }
    ensures text { IfOk result (λ text. text ≡ lines.line_text (lines.Ended number why.now)) }
    ensures read_back { OnOk result (lines.IsReadBack (lines.line_data (lines.Ended number why.now))) }
{
    Members::of_event(alloc, "end")?
        .with_number("number", number)?
        .with_words("why", why)?
        .line()
}

/// The line where a CII text ends a visit: `event` is `end`. `why` says what ended it, and `text` is the text's front.
pub fn refused_end_line(alloc: Global, number: u64, why: &str, text: &str) -> Result<Text, Memory>
    requires { number < 10 ^ 18 }
    ensures text { IfOk result (λ line. line ≡ lines.line_text (lines.EndedBy number why.now text.now)) }
    ensures read_back { OnOk result (lines.IsReadBack (lines.line_data (lines.EndedBy number why.now text.now))) }
{
    Members::of_event(alloc, "end")?
        .with_number("number", number)?
        .with_words("text", text)?
        .with_words("why", why)?
        .line()
}

/// The line where two answers that contradict each other end a visit: `event` is `end`. `why` says what ended it.
pub fn apart_end_line(
    alloc: Global,
    number: u64,
    why: &str,
    between: &Between,
) -> Result<Text, Memory>
    requires { number < 10 ^ 18 }
    ensures text { IfOk result (λ text. text
        ≡ lines.line_text (lines.EndedBetween number why.now between.now)) }
    ensures read_back { OnOk result
        (lines.IsReadBack (lines.line_data (lines.EndedBetween number why.now between.now))) }
{
    Members::of_event(alloc, "end")?
        .with_between("between", between)?
        .with_number("number", number)?
        .with_words("why", why)?
        .line()
}
