ghost use Rattle.std.specs.Prelude.{◌≡◌, ◌<◌, ◌≤◌, ◌^◌, ◌+ℤ◌, pos, unsigned_abs, IfOk};
ghost use Rattle.css_agree.specs.Carrying.{carried};
ghost use Rattle.css_carry.specs.CarriedReports as reports;
ghost use Rattle.css_companion.specs.Reports.{IsTimed};
ghost use Rattle.css_model.specs.Numbers.{max_error};
ghost use Rattle.css_span.specs.WallSpans.{IsNear};

use css_companion::{Cause, Report, Timing, ticks_at};
use css_model::LIMIT;
use css_num::Span;
use css_span::{Answer, Local, span};

/// How far the wall clock goes from one reading to a later one, in nanoseconds. It is the span of an answer that came
/// at once, when the wall clock showed 0.
fn passed(error: u32, local: &Local, reading: u64, later: u64) -> Span
    requires error { error ≤ max_error }
    requires order { reading ≤ later }
    requires range { later < LIMIT }
    ensures value { result ≡ carried local.now error (record { lo = pos 0; hi = pos 0 }) reading later }
    ensures low { unsigned_abs result.lo ≤ 2 ^ 67 }
    ensures high { unsigned_abs result.hi ≤ 2 ^ 67 }
{
    let at_once = Answer {
        t1: reading,
        t2: 0,
        t3: 0,
        t4: reading,
        precision: 0,
        error,
    };
    // Reading a field shows proofs the ranges of both.
    let _error = local.error;
    span(&at_once, local, later)
}

fn sum(a: i128, b: i128) -> i128
    requires a { unsigned_abs a ≤ 2 ^ 67 }
    requires b { unsigned_abs b ≤ 2 ^ 67 }
    ensures value { result ≡ a +ℤ b }
    ensures near { unsigned_abs result ≤ 2 ^ 68 }
{
    a + b
}

/// A span of the wall clock, carried on to a later reading.
fn wall_at(wall: Span, error: u32, local: &Local, reading: u64, later: u64) -> Span
    requires low { unsigned_abs wall.lo ≤ 2 ^ 67 }
    requires high { unsigned_abs wall.hi ≤ 2 ^ 67 }
    requires error { error ≤ max_error }
    requires order { reading ≤ later }
    requires range { later < LIMIT }
    ensures value { result ≡ carried local.now error wall reading later }
    ensures near { IsNear result }
{
    let passed = passed(error, local, reading, later);
    Span {
        lo: sum(wall.lo, passed.lo),
        hi: sum(wall.hi, passed.hi),
    }
}

/// The report at a later reading, by a span that the line of a report told, its `agreed` or its `wall`, by the error in
/// the line, and by the timing that was told last.
///
/// `reading` is that of the report, and no sleep of the machine lies between. The rate and the speed in the line don't
/// count any more: the timing has those of the last state and of the last control timestamp.
pub fn carried_report(
    told: Span,
    error: u32,
    local: &Local,
    reading: u64,
    timing: &Result<Timing, Cause>,
    later: u64,
) -> Report
    requires told { reports.CanBeCarried error told }
    requires order { reading ≤ later }
    requires range { later < LIMIT }
    requires timed { IfOk timing.now IsTimed }
    ensures { result ≡ reports.carried_report local.now reading error told timing.now later }
{
    match timing {
        Err(cause) => Report::None(*cause),
        Ok(timing) => {
            let wall = wall_at(told, error, local, reading, later);
            ticks_at(wall, timing)
        }
    }
}
