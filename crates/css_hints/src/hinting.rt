ghost use Rattle.std.specs.Prelude.{◌≡◌, None, IfSome};
ghost use Rattle.css_hints.specs.HintLine.{IsHintLine};

use crate::asked::Asked;
use crate::course::spent;
use crate::devices::{child_fault, net_fault, unreachable};
use crate::input::{bad_line, bad_sheet};
use crate::line::line_of;
use crate::options::command_in;
use crate::session::{bad_cii, bad_url, moved, wrong_report};
use crate::usage::usage;
use css_num::Text;
use css_status::Status;
use std::alloc::Global;

/// The words that help after a status, where some do.
fn words_after(alloc: Global, status: &Status, asked: &Asked<'_>) -> Option<String> {
    match status {
        Status::Usage => usage(alloc, asked.words),
        Status::BadLine { line, why } => bad_line(alloc, asked, *line, *why),
        Status::BadSheet { line } => bad_sheet(alloc, asked, *line),
        Status::NetFault(failure) => net_fault(alloc, asked.words, *failure),
        Status::ChildFault {
            status: Err(failure),
        } => child_fault(alloc, *failure),
        Status::Unreachable { .. } => unreachable(alloc, asked),
        Status::Spent { .. } => spent(alloc, &asked.course),
        Status::BadCii { text, fault } => bad_cii(alloc, *text, *fault, &asked.course),
        Status::BadUrl { property } => bad_url(alloc, *property, &asked.course),
        Status::Moved { property, old, new } => {
            moved(alloc, command_in(asked.words), *property, old, new)
        }
        Status::WrongReport { right, .. } => wrong_report(alloc, right),
        Status::NoInterval { .. } => String::from_str(alloc, NO_INTERVAL).ok(),
        _ => None,
    }
}

const NO_INTERVAL: &str =
    "no report had ticks: the cause and the detail of each report line say what was missing";

/// The line that helps a person after a status: `css: hint: `, a sentence and a line feed, in at most 200 bytes of
/// printable ASCII. None where nothing helps, as for `Done`, and where memory ran out.
pub fn hint(alloc: Global, status: &Status, asked: &Asked<'_>) -> Option<Text>
    ensures form { IfSome result IsHintLine }
    ensures done { status.now ≡ Status.Done → result ≡ None }
{
    if matches!(status, Status::Done) {
        return None;
    }
    let words = words_after(alloc, status, asked)?;
    let line = format!(in alloc; "css: hint: {words}").ok()?;
    line_of(alloc, line.as_str())
}
