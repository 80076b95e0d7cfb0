//! What the texts of a television's session have wrong, and the reports of a record.

use crate::course::{Course, told};
use crate::line::shown;
use css_cii::{CiiFault, CiiName};
use css_companion::{Report, line};
use css_num::Text;
use std::alloc::Global;
use std::str;

/// How much of an address stands in a line, in bytes.
const MOST: usize = 60;
/// How much of a message stands in a line, in bytes.
const MOST_SHOWN: usize = 80;

/// What a message's fault means, in three parts. The second is the name of a property, where there is one.
fn meaning_of(fault: CiiFault) -> Option<(&'static str, &'static str, &'static str)> {
    Some(match fault {
        CiiFault::NotJson => (" isn't JSON", "", ""),
        CiiFault::NotObject => (" is JSON, but no object", "", ""),
        CiiFault::Field(name) => (
            ": its ",
            name.as_str(),
            " isn't of the form that it has to have",
        ),
        CiiFault::Memory => return None,
    })
}

/// What a message's fault means, and how the message begins.
pub(crate) fn bad_cii(
    alloc: Global,
    text: u64,
    fault: CiiFault,
    course: &Course<'_>,
) -> Option<String> {
    let (before, name, after) = meaning_of(fault)?;
    let front = shown(alloc, course.state, MOST_SHOWN)?;
    format!(in alloc; "text {text} of the CSS-CII session{before}{name}{after}: {front}").ok()
}

/// What an address has to be, and the text that is none.
pub(crate) fn bad_url(alloc: Global, property: CiiName, course: &Course<'_>) -> Option<String> {
    let form = match property {
        CiiName::WcUrl => "udp://HOST:PORT",
        _ => "ws://HOST:PORT/PATH",
    };
    let name = property.as_str();
    match told(alloc, course, name) {
        Some(text) => format!(in alloc;
            "the television's {name} is no address of the form {form}: {text}"
        ),
        None => format!(in alloc; "the television's {name} is no address of the form {form}"),
    }
    .ok()
}

/// From where to where an address moved, for a run of this command.
pub(crate) fn moved(
    alloc: Global,
    command: &str,
    property: CiiName,
    old: &Text,
    new: &Text,
) -> Option<String> {
    let name = property.as_str();
    let old = shown(alloc, old.bytes(), MOST)?;
    let new = shown(alloc, new.bytes(), MOST)?;
    format!(in alloc; "{name} was {old} and is {new}: start the {command} again").ok()
}

/// The report that a line of a record was to have.
pub(crate) fn wrong_report(alloc: Global, right: &Report) -> Option<String> {
    let line = line(alloc, 0, right, None).ok()?;
    let words = str::from_utf8(line.bytes()).unwrap_or("0 ?");
    let report = words.strip_prefix("0 ").unwrap_or(words).trim_end();
    format!(in alloc; "the report that was to be made here is: {report}").ok()
}
