//! What is told at a reading.
ghost use Rattle.std.specs.Prelude.{◌≡◌, ◌≢◌, ◌<◌, Some, None, is_some, IfSome, IfOk, MatchResult, length};
ghost use Rattle.std.specs.Prelude.{◌&&◌, if◌then◌else◌};
ghost use Rattle.css_model.specs.History.{History, accepted_answers};
ghost use Rattle.css_span.specs.WallSpans.{wall_span};
ghost use Rattle.css_companion.specs.Printed.{line_of};
ghost use Rattle.css_companion.specs.Meanings.{report_after};
ghost use Rattle.css_companion.specs.Standing.{StandsFor, own_of};
ghost use Rattle.css_companion.specs.declared.report.Report.TheVariants as reports;
ghost use Rattle.css_companion_c.specs.Codes.{at_reading, noticed_at, span_code, report_code, cause_code};
ghost use Rattle.css_companion_c.specs.Codes.{room_code, Answers};
ghost use Rattle.css_companion_c.specs.Codes.{is_narrow, DONE, NO_ROOM};
ghost use Rattle.css_companion_c.specs.Noticing.{IsAgreedCode, IsTheirs, IsTrueOfAll};
ghost use Rattle.css_companion_c.specs.Texts.{Holds};
ghost use Rattle.css_companion_c.specs.Promises.{HoldsTheWall, HoldsThePosition, GoesWith, IsTheWall};

use crate::codes;
use crate::follower::Follower;
use crate::texts::put;
use css_agree::Agreed;
use css_companion::{Cause, Companion, Report, Timing, line};
use css_model::LIMIT;
use css_num::Span;
use std::alloc::Global;

/// Both ends of an interval: of the television's wall clock or of a lead, in nanoseconds, or of ticks.
#[repr(C)]
#[derive(Clone, Copy, Drop)]
pub struct Ends {
    pub lo: i64,
    pub hi: i64,
}

/// The ticks that the television may be presenting, and what they go by: at `wall` nanoseconds of its wall clock the
/// timeline is at `content`, and goes at `speed` times its rate.
#[repr(C)]
#[derive(Clone, Copy, Drop)]
pub struct Position {
    pub lo: i64,
    pub hi: i64,
    pub content: i64,
    pub wall: u64,
    pub units_per_tick: u32,
    pub units_per_second: u32,
    pub speed: i32,
}

/// RANGE or EARLY, or DONE where the companion can be handed this reading.
pub(crate) fn early(companion: &Companion, reading: u64) -> u32
    ensures { result ≡ at_reading companion.now reading DONE }
{
    if reading >= LIMIT {
        return codes::RANGE;
    }
    if reading < companion.floor() {
        return codes::EARLY;
    }
    codes::DONE
}

/// RANGE, EARLY or DISAGREE, or DONE where the companion can be asked at this reading.
pub(crate) fn noticed(follower: &Follower, reading: u64) -> u32
    ensures { result ≡ noticed_at follower.now reading }
{
    let code = early(&follower.companion, reading);
    if code != codes::DONE {
        return code;
    }
    if follower.disagrees {
        return codes::DISAGREE;
    }
    codes::DONE
}

/// Whether a number fits 64 bits.
fn is_narrow(number: i128) -> bool
    ensures { result ≡ is_narrow number }
{
    !(number < -9_223_372_036_854_775_808) && !(9_223_372_036_854_775_807 < number)
}

/// The number, where it fits 64 bits.
fn narrow(number: i128) -> Option<i64>
    ensures { result ≡ (if is_narrow number then Some number else None) }
{
    if is_narrow(number) {
        Some(number as i64)
    } else {
        None
    }
}

/// Both ends of a span, where they fit 64 bits.
pub(crate) fn ends_of(span: &Span) -> Option<Ends>
    ensures value { IfSome result (λ ends. span.now ≡ record { lo = ends.lo; hi = ends.hi }) }
    ensures fits { is_some result ≡ (is_narrow span.now.lo && is_narrow span.now.hi) }
{
    match (narrow(span.lo), narrow(span.hi)) {
        (Some(lo), Some(hi)) => Some(Ends { lo, hi }),
        _ => None,
    }
}

/// The span of the wall clock.
pub(crate) fn wall(follower: &Follower, reading: u64, out: &mut Ends) -> u32
    ensures kept { result ≢ DONE → out.new ≡ out.old }
    ensures before { noticed_at follower.now reading ≢ DONE
        → result ≡ noticed_at follower.now reading }
    ensures code { noticed_at follower.now reading ≡ DONE → (history : History)
        → StandsFor follower.now.companion history → result ≡ span_code
        (wall_span (own_of follower.now.companion) reading (accepted_answers (own_of follower.now.companion) history)) }
    ensures span { result ≡ DONE → IsTheWall reading out.new follower.now.companion }
    ensures truth { result ≡ DONE → HoldsTheWall reading out.new follower.now.companion }
{
    let code = noticed(follower, reading);
    if code != codes::DONE {
        return code;
    }
    match follower.companion.wall(reading) {
        None => codes::NO_ANSWER,
        Some(span) => match ends_of(&span) {
            None => codes::TOO_WIDE,
            Some(wall) => {
                *out = wall;
                codes::DONE
            }
        },
    }
}

/// The span of the wall clock that all accepted answers allow together.
pub(crate) fn agreed(follower: &Follower, reading: u64, out: &mut Ends) -> u32
    ensures kept { result ≢ DONE → out.new ≡ out.old }
    ensures before { noticed_at follower.now reading ≢ DONE → result ≡ noticed_at follower.now reading }
    ensures code { noticed_at follower.now reading ≡ DONE → IsAgreedCode reading result follower.now }
    ensures shared { result ≡ DONE → IsTheirs reading out.new follower.now }
    ensures truth { result ≡ DONE → IsTrueOfAll reading out.new follower.now }
{
    let code = noticed(follower, reading);
    if code != codes::DONE {
        return code;
    }
    match follower.agree.at(reading) {
        Agreed::Nothing => codes::NO_ANSWER,
        Agreed::Disagree { .. } => codes::DISAGREE,
        Agreed::Within(span) => match ends_of(&span) {
            None => codes::TOO_WIDE,
            Some(wall) => {
                *out = wall;
                codes::DONE
            }
        },
    }
}

/// The code of a cause.
pub(crate) fn cause_code(cause: Cause) -> u32
    ensures { result ≡ cause_code cause }
{
    match cause {
        Cause::NoAnswer => codes::NO_ANSWER,
        Cause::NoTimestamp => codes::NO_TIMESTAMP,
        Cause::SessionClosed => codes::SESSION_CLOSED,
        Cause::Unreadable(_) => codes::UNREADABLE,
        Cause::Unavailable => codes::UNAVAILABLE,
        Cause::NoRate => codes::NO_RATE,
    }
}

/// The position of ticks that fit 64 bits.
pub(crate) fn placed(ticks: Ends, timing: Timing) -> Position
    ensures ends { (result.lo ≡ ticks.lo) × (result.hi ≡ ticks.hi) }
    ensures content { (result.content ≡ timing.content) × (result.wall ≡ timing.wall) }
    ensures speed { result.speed ≡ timing.speed }
    ensures rate { timing.rate ≡ record {
      units_per_tick = result.units_per_tick;
      units_per_second = result.units_per_second;
    } }
{
    Position {
        lo: ticks.lo,
        hi: ticks.hi,
        content: timing.content,
        wall: timing.wall,
        units_per_tick: timing.rate.units_per_tick,
        units_per_second: timing.rate.units_per_second,
        speed: timing.speed,
    }
}

/// The ticks of a report, or the code why none are told.
pub(crate) fn told(report: &Report) -> Result<Ends, u32>
    ensures ticks { IfOk result (λ ticks. report.now ≡ reports.Ticks ticks.lo ticks.hi) }
    ensures code { MatchResult result (λ _. report_code report.now ≡ DONE)
        (λ code. (report_code report.now ≡ code) × (0 < code)) }
{
    match report {
        Report::None(cause) => Err(cause_code(*cause)),
        Report::Ticks { lo, hi } => match (narrow(*lo), narrow(*hi)) {
            (Some(lo), Some(hi)) => Ok(Ends { lo, hi }),
            _ => Err(codes::TOO_WIDE),
        },
    }
}

/// The ticks, with what they go by.
pub(crate) fn ticks(follower: &Follower, reading: u64, out: &mut Position) -> u32
    ensures kept { result ≢ DONE → out.new ≡ out.old }
    ensures before { noticed_at follower.now reading ≢ DONE
        → result ≡ noticed_at follower.now reading }
    ensures code { noticed_at follower.now reading ≡ DONE → (history : History)
        → StandsFor follower.now.companion history → result ≡ report_code
        (report_after (own_of follower.now.companion) follower.now.companion.setup.selector history reading) }
    ensures truth { result ≡ DONE → HoldsThePosition reading out.new follower.now.companion }
    ensures timing { result ≡ DONE → GoesWith out.new follower.now.companion }
{
    let code = noticed(follower, reading);
    if code != codes::DONE {
        return code;
    }
    match told(&follower.companion.report(reading)) {
        Err(code) => code,
        Ok(ticks) => match follower.companion.timing() {
            Err(cause) => cause_code(cause),
            Ok(timing) => {
                *out = placed(ticks, timing);
                codes::DONE
            }
        },
    }
}

/// Puts the line of a report into a buffer.
pub(crate) fn report(
    alloc: Global,
    companion: &Companion,
    number: u64,
    reading: u64,
    out: &mut [u8],
    used: &mut usize,
) -> u32
    ensures kept { result ≢ DONE → out.new ≡ out.old }
    ensures before { at_reading companion.now reading DONE ≢ DONE
        → result ≡ at_reading companion.now reading DONE }
    ensures code { at_reading companion.now reading DONE ≡ DONE → (history : History)
        → StandsFor companion.now history → Answers DONE (room_code (line_of number
        (report_after (own_of companion.now) companion.now.setup.selector history reading) None)
        (length out.old)) result }
    ensures text { result ≡ DONE → (history : History) → StandsFor companion.now history → Holds (line_of number
        (report_after (own_of companion.now) companion.now.setup.selector history reading) None)
        used.new out.old out.new }
    ensures needs { result ≡ NO_ROOM → (history : History) → StandsFor companion.now history
        → used.new ≡ length (line_of number
        (report_after (own_of companion.now) companion.now.setup.selector history reading) None) }
{
    let code = early(companion, reading);
    if code != codes::DONE {
        return code;
    }
    match line(alloc, number, &companion.report(reading), None) {
        Ok(text) => put(text.bytes(), out, used),
        Err(_) => codes::MEMORY,
    }
}
