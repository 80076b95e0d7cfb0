//! The lines of what happens in a visit.
ghost use Rattle.std.specs.Prelude.{◌≡◌, ◌≤◌, ◌<◌, ◌++◌, List, [], ◌∷◌, Option, IfOk, MatchResult};
ghost use Rattle.std.specs.Prelude.{◌^◌, option_copied, bytes_eq};
ghost use Rattle.css_model.specs.declared.TheConstants.{LIMIT};
ghost use Rattle.css_model.specs.History.{History};
ghost use Rattle.css_model.specs.Wire.{decoded};
ghost use Rattle.css_companion.specs.Contents.{next_number, told};
ghost use Rattle.css_companion.specs.Meanings.{texts_of, state_of};
ghost use Rattle.css_companion.specs.Standing.{StandsFor, own_of};
ghost use Rattle.css_drive.specs.CompanionStanding.{Knows};
ghost use Rattle.css_drive.specs.declared.session.Session.TheVariants as sessions;
ghost use Rattle.css_tsmsg.specs.Controls.{control_of, IsInRange};
ghost use Rattle.css_watch_lines.specs.Fronts.{front_of};
ghost use Rattle.css_watch_lines.specs.Lines as lines;
ghost use Rattle.css_watch_lines.specs.Words.{failure_words as words_for};
ghost use Rattle.css_watch.specs.Progress as spec;
ghost use Rattle.css_watch.specs.Telling as telling;
ghost use Rattle.css_watch.specs.Telling.{text_of};
ghost use Rattle.css_watch.specs.Watching.{IsOf};
ghost use Rattle.css_span.specs.Frontiers.{Answers};

use crate::detail::detail;
use crate::plan::Plan;
use crate::progress::{Begun, Progress, Tried};
use crate::progress_steps::{counted, reports_now, told_number};
use css_agree::{Agree, Agreed};
use css_client::Landing;
use css_companion::{Cause, Companion, CompanionFault, Report, Timing};
use css_drive::Session;
use css_num::{Control, Memory, Span, Text};
use css_outside::{Failure, Kind};
use css_span::{Answer, Local, width_at};
use css_tsmsg::{TsFault, read_control};
use css_watch_lines::{
    Known, Ticks, answer_line, cause_line, control_line, dial_line, failure_words, front,
    known_line, refused_line, slept_line, state_line, unread_line, visit_line,
};
use css_wc::decode;
use std::alloc::Global;

/// The line of a report without ticks.
fn unknown_line(
    alloc: Global,
    plan: &Plan,
    number: u64,
    reading: u64,
    cause: &Cause,
    companion: &Companion,
    progress: &Progress,
) -> Result<Text, Memory>
    requires { number < 10 ^ 18 }
    ensures { IfOk result (λ text. text ≡ text_of (lines.Unknown number reading cause.now
        (telling.detail_of plan.now.run.companion.selector cause.now companion.now.state progress.now) ∷ [])) }
{
    let selector = &plan.run.companion.selector;
    let detail = detail(alloc, selector, cause, companion.state(), progress)?;
    cause_line(alloc, number, reading, cause, detail.as_str())
}

/// What a report with ticks tells.
fn known_by(ticks: &Ticks, agreed: &Span, wall: &Span, answer: &Answer, timing: &Timing) -> Known
    ensures { result ≡ telling.known_by ticks.now agreed.now wall.now answer.now timing.now }
{
    Known {
        ticks: *ticks,
        agreed: *agreed,
        wall: *wall,
        error: answer.error,
        rate: timing.rate,
        speed: timing.speed,
    }
}

/// What all answers allow of the wall clock: the span that they share, or all of it where they share none.
fn agreed_in(said: &Agreed, wall: &Span) -> Span
    ensures { result ≡ telling.agreed_in said.now wall.now }
{
    match said {
        Agreed::Within(span) => *span,
        _ => *wall,
    }
}

/// The line of a report with these ticks, where all answers say this together.
fn ticks_line(
    alloc: Global,
    number: u64,
    reading: u64,
    companion: &Companion,
    ticks: Ticks,
    said: &Agreed,
) -> Result<Text, Memory>
    requires few { number < 10 ^ 18 }
    requires range { reading < LIMIT }
    requires floor { companion.now.client.floor ≤ reading }
    ensures { (history : History) → StandsFor companion.now history → IfOk result
        (λ text. text ≡ text_of (telling.ticks_line (own_of companion.now) companion.now.setup.selector number reading
        ticks said.now history ∷ [])) }
{
    let Some(wall) = companion.wall(reading) else {
        return cause_line(alloc, number, reading, &Cause::NoAnswer, "");
    };
    let Some(answer) = companion.answer(reading) else {
        return cause_line(alloc, number, reading, &Cause::NoAnswer, "");
    };
    let Ok(timing) = companion.timing() else {
        return cause_line(alloc, number, reading, &Cause::NoAnswer, "");
    };
    let agreed = agreed_in(said, &wall);
    known_line(
        alloc,
        number,
        reading,
        &known_by(&ticks, &agreed, &wall, &answer, &timing),
    )
}

/// The line of a report, where all answers say this together.
fn report_line(
    alloc: Global,
    plan: &Plan,
    number: u64,
    reading: u64,
    companion: &Companion,
    progress: &Progress,
    said: &Agreed,
) -> Result<Text, Memory>
    requires few { number < 10 ^ 18 }
    requires range { reading < LIMIT }
    requires floor { companion.now.client.floor ≤ reading }
    ensures { (history : History) → Knows plan.now.run.companion companion.now history → IfOk result
        (λ text. text ≡ text_of (telling.report_line plan.now number reading history progress.now said.now ∷ [])) }
{
    match companion.report(reading) {
        Report::None(cause) => {
            unknown_line(alloc, plan, number, reading, &cause, companion, progress)
        }
        Report::Ticks { lo, hi } => {
            let ticks = Ticks { lo, hi };
            ticks_line(alloc, number, reading, companion, ticks, said)
        }
    }
}

/// The line of the report that is made next.
fn due_line(
    alloc: Global,
    plan: &Plan,
    reading: u64,
    companion: &Companion,
    agree: &Agree,
    progress: &Progress,
) -> Result<Text, Memory>
    requires range { reading < LIMIT }
    requires floor { companion.now.client.floor ≤ reading }
    ensures { (history : History) → Knows plan.now.run.companion companion.now history
        → (answers : Answers) → IsOf plan.now agree.now answers
        → IfOk result (λ text. text ≡ text_of (telling.due_line plan.now reading history progress.now answers ∷ [])) }
{
    let number = counted(progress.begun.reports);
    let said = agree.at(reading);
    report_line(alloc, plan, number, reading, companion, progress, &said)
}

/// The line of a visit, in its first turn.
fn visit_text(alloc: Global, reading: u64, progress: &Progress) -> Result<Text, Memory>
    ensures { IfOk result (λ text. text ≡ text_of (telling.visit_lines reading progress.now)) }
{
    if progress.entered {
        return Ok(Text::new(alloc));
    }
    visit_line(alloc, told_number(progress.begun.visits), reading)
}

/// The line of a sleep, if one was noticed.
pub(crate) fn slept_text(alloc: Global, reading: u64, progress: &Progress) -> Result<Text, Memory>
    ensures { IfOk result (λ text. text ≡ text_of (telling.slept_lines reading progress.now)) }
{
    if progress.slept {
        return slept_line(alloc, reading);
    }
    Ok(Text::new(alloc))
}

/// The report that is due in a turn, if one is.
pub(crate) fn report_due(
    plan: &Plan,
    reading: u64,
    begun: &Begun,
    companion: &Companion,
) -> Option<Report>
    requires range { reading < LIMIT }
    requires floor { companion.now.client.floor ≤ reading }
    ensures { (history : History) → Knows plan.now.run.companion companion.now history
        → result ≡ spec.report_due plan.now reading history begun.now }
{
    if reports_now(plan, reading, begun) {
        return Some(companion.report(reading));
    }
    None
}

/// The line of the report that is due in a turn, if one is.
fn report_text(
    alloc: Global,
    plan: &Plan,
    reading: u64,
    companion: &Companion,
    agree: &Agree,
    progress: &Progress,
) -> Result<Text, Memory>
    requires range { reading < LIMIT }
    requires floor { companion.now.client.floor ≤ reading }
    ensures { (history : History) → Knows plan.now.run.companion companion.now history
        → (answers : Answers) → IsOf plan.now agree.now answers
        → IfOk result (λ text. text ≡ text_of (telling.report_lines plan.now reading history progress.now answers)) }
{
    if reports_now(plan, reading, &progress.begun) {
        return due_line(alloc, plan, reading, companion, agree, progress);
    }
    Ok(Text::new(alloc))
}

/// The lines of a turn.
pub(crate) fn turn_text(
    alloc: Global,
    plan: &Plan,
    reading: u64,
    companion: &Companion,
    agree: &Agree,
    progress: &Progress,
) -> Result<Text, Memory>
    requires range { reading < LIMIT }
    requires floor { companion.now.client.floor ≤ reading }
    ensures { (history : History) → Knows plan.now.run.companion companion.now history
        → (answers : Answers) → IsOf plan.now agree.now answers
        → IfOk result (λ text. text ≡ text_of (telling.turn_lines plan.now reading history progress.now answers)) }
{
    let mut text = visit_text(alloc, reading, progress)?;
    let slept = slept_text(alloc, reading, progress)?;
    text.push(slept.bytes())?;
    let report = report_text(alloc, plan, reading, companion, agree, progress)?;
    text.push(report.bytes())?;
    Ok(text)
}

/// Whether the words for two failures are the same.
fn is_told_alike(alloc: Global, failure: Failure, other: Failure) -> Result<bool, Memory>
    ensures { IfOk result (λ same. same ≡ bytes_eq (words_for failure) (words_for other)) }
{
    let words = failure_words(alloc, failure)?;
    let others = failure_words(alloc, other)?;
    Ok(words.as_bytes() == others.as_bytes())
}

/// Whether two dials are told alike.
fn is_same(alloc: Global, tried: Tried, last: Tried) -> Result<bool, Memory>
    ensures { IfOk result (λ same. same ≡ telling.is_same tried last) }
{
    match (tried, last) {
        (Tried::Failed(failure), Tried::Failed(other)) => is_told_alike(alloc, failure, other),
        (Tried::Never, Tried::Never) | (Tried::Open, Tried::Open) => Ok(true),
        _ => Ok(false),
    }
}

/// The outcome of the last dial of a service.
fn last_dial(kind: Kind, progress: &Progress) -> Tried
    ensures { result ≡ telling.last_dial kind progress.now }
{
    match kind {
        Kind::Cii => progress.cii,
        Kind::Wc => progress.wc,
        Kind::Ts => progress.ts,
    }
}

/// The line of a dial, where its outcome, or why it failed, is another one than that of the dial before.
pub(crate) fn dial_text(
    alloc: Global,
    kind: Kind,
    tried: Result<u32, Failure>,
    progress: &Progress,
) -> Result<Text, Memory>
    ensures { IfOk result (λ text. text ≡ text_of (telling.dial_lines kind tried progress.now)) }
{
    if is_same(alloc, Tried::by(tried), last_dial(kind, progress))? {
        return Ok(Text::new(alloc));
    }
    dial_line(alloc, kind, tried.err())
}

/// The message type of a datagram, or 0 where it is none.
fn type_in(bytes: &[u8]) -> u8
    ensures { result ≡ telling.type_in (decoded bytes.now) }
{
    match decode(bytes) {
        Ok(message) => message.message_type,
        Err(_) => 0,
    }
}

/// The line of an answer, or of a datagram that is refused.
fn landing_line(
    alloc: Global,
    local: &Local,
    reading: u64,
    bytes: &[u8],
    judged: &Result<Answer, Landing>,
) -> Result<Text, Memory>
    requires { reading < LIMIT }
    ensures { IfOk result (λ text. text
        ≡ text_of (telling.landing_line local.now reading bytes.now judged.now ∷ [])) }
{
    match judged {
        Ok(answer) => {
            let width = width_at(answer, local, reading);
            answer_line(alloc, answer, type_in(bytes), reading, width)
        }
        Err(refusal) => refused_line(alloc, refusal, bytes, reading),
    }
}

/// The lines of a datagram that landed.
pub(crate) fn landing_text(
    alloc: Global,
    local: &Local,
    reading: u64,
    bytes: &[u8],
    judged: &Result<Answer, Landing>,
    progress: &Progress,
) -> Result<Text, Memory>
    requires { reading < LIMIT }
    ensures { IfOk result (λ text. text ≡ text_of (telling.landing_line local.now reading bytes.now judged.now
        ∷ telling.slept_lines reading progress.now)) }
{
    let mut text = slept_text(alloc, reading, progress)?;
    let line = landing_line(alloc, local, reading, bytes, judged)?;
    text.push(line.bytes())?;
    Ok(text)
}

/// The line of the state after a text of the session of CSS-CII, unless that is refused.
fn state_text(alloc: Global, text: &Text, companion: &Companion) -> Result<Text, Memory>
    ensures { (history : History) → StandsFor companion.now history
        → IfOk result (λ line. line ≡ text_of (telling.text_lines sessions.Cii text.now history)) }
{
    match companion.state_after(text.bytes()) {
        Ok(state) => state_line(alloc, &state),
        Err(fault) => match fault {
            CompanionFault::Memory => Err(Memory),
            _ => Ok(Text::new(alloc)),
        },
    }
}

/// The text, if it is one of CSS-CII that is refused for what it says.
pub(crate) fn unread_in(
    alloc: Global,
    text: &Text,
    companion: &Companion,
) -> Result<Option<Text>, Memory>
    ensures { (history : History) → StandsFor companion.now history → IfOk result (λ unread. unread
        ≡ spec.unread_by (told (next_number (texts_of history)) (state_of history) text.now) text.now) }
{
    match companion.state_after(text.bytes()) {
        Ok(_) => Ok(None),
        Err(fault) => match fault {
            CompanionFault::BadCii { .. } => Ok(Some(text.clone()?)),
            CompanionFault::Moved { .. } => Ok(None),
            CompanionFault::Memory => Err(Memory),
        },
    }
}

/// What a text of the session of CSS-TS is read as.
fn control_in(alloc: Global, text: &Text) -> Result<Result<Control, TsFault>, Memory>
    ensures value { IfOk result (λ told. told ≡ control_of text.now) }
    ensures in_range { IfOk result (λ told. IfOk told IsInRange) }
{
    match read_control(alloc, text.bytes()) {
        Ok(control) => Ok(Ok(control)),
        Err(fault) => match fault {
            TsFault::Memory => Err(Memory),
            _ => Ok(Err(fault)),
        },
    }
}

/// The line of a text of the session of CSS-TS that isn't readable.
fn unread_text(alloc: Global, text: &Text, fault: TsFault) -> Result<Text, Memory>
    ensures { IfOk result (λ line. line ≡ text_of (lines.Unread fault (front_of text.now) ∷ [])) }
{
    let words = front(alloc, text.bytes())?;
    unread_line(alloc, fault, words.as_str())
}

/// The line of what a text of the session of CSS-TS is read as.
fn control_text(alloc: Global, text: &Text) -> Result<Text, Memory>
    ensures { IfOk result (λ line. line ≡ text_of (telling.read_line text.now (control_of text.now) ∷ [])) }
{
    match control_in(alloc, text)? {
        Ok(control) => control_line(alloc, &control),
        Err(fault) => unread_text(alloc, text, fault),
    }
}

/// The line of a text that came, if it has one.
pub(crate) fn heard_text(
    alloc: Global,
    session: Session,
    text: &Text,
    companion: &Companion,
) -> Result<Text, Memory>
    ensures { (history : History) → StandsFor companion.now history
        → IfOk result (λ line. line ≡ text_of (telling.text_lines session text.now history)) }
{
    match session {
        Session::Cii => state_text(alloc, text, companion),
        Session::Ts => control_text(alloc, text),
    }
}
