//! What a line names that isn't there.

use crate::grammar::is_of_several;
use std::alloc::Global;
use std::str;

const NO_TURN: &str = "a report stands directly after a turn";

const ABSENT: &str =
    "it names a request, take or datagram that isn't there, or a session that isn't open or was before";

/// What a schedule's verb names, and what it lacks where that isn't there.
fn lack(verb: &str) -> Option<(&'static str, &'static str)> {
    Some(match verb {
        "take" => ("request", "wasn't sent"),
        "give" => ("take", "wasn't made, or has its answer"),
        "land" => (
            "datagram",
            "wasn't made, or answers another companion's request",
        ),
        "open" => ("session", "is open, or was before"),
        "text" | "up" => ("session", "isn't open, or has no text in flight"),
        "close" => ("session", "isn't open"),
        _ => return None,
    })
}

/// The word behind so many others, empty where there is none.
fn word_after(line: &str, count: usize) -> &str {
    line.split(' ').nth(count).unwrap_or("")
}

/// The verb of a schedule's line, and the word behind it.
fn verb_in(line: &str) -> (&str, &str) {
    if is_of_several(line) {
        (word_after(line, 4), word_after(line, 5))
    } else {
        (word_after(line, 3), word_after(line, 4))
    }
}

/// What a schedule's line names that isn't there.
fn absent_by(alloc: Global, line: &[u8]) -> Option<String> {
    let (verb, named) = verb_in(str::from_utf8(line).ok()?);
    if verb == "present" {
        return String::from_str(alloc, "session ts isn't open").ok();
    }
    let (thing, lacks) = lack(verb)?;
    format!(in alloc; "{thing} {named} {lacks}").ok()
}

/// What a line names that isn't there, where the line is known.
pub(crate) fn absent(alloc: Global, command: &str, line: Option<&[u8]>) -> Option<String> {
    if command == "audit" {
        return String::from_str(alloc, NO_TURN).ok();
    }
    if let Some(line) = line {
        if let Some(words) = absent_by(alloc, line) {
            return Some(words);
        }
    }
    String::from_str(alloc, ABSENT).ok()
}
