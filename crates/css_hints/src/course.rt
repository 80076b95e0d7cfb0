//! How far a run came with its television.

use crate::line::shown;
use std::alloc::Global;

/// What a run has seen of its television.
#[derive(Clone, Copy)]
pub struct Course<'a> {
    /// The front of the last CSS-CII text.
    pub state: &'a [u8],
    /// Whether the wall clock's address was told and dialled.
    pub has_clock: bool,
    /// How many requests were sent to the wall clock.
    pub requests: u64,
    /// How many datagrams came from it.
    pub responses: u64,
    /// Whether the CSS-TS address was told and dialled.
    pub has_timestamps: bool,
    /// How many control timestamps came.
    pub timestamps: u64,
}

/// How much of a state is searched for a property, in bytes.
const MOST_SEARCHED: usize = 4_096;

const SPENT: &str =
    "the run ended before its last report: give it more time, such as by --seconds 3600";

const NO_CLOCK: &str = "the run ended before its last report: the television told no wcUrl";

const NO_TIMESTAMPS: &str = "the run ended before its last report: the television told no tsUrl";

const NO_CONTROL: &str = "the run ended before its last report: no control timestamp came";

/// How far a run came that ended before its last report.
pub(crate) fn spent(alloc: Global, course: &Course<'_>) -> Option<String> {
    let words = if !course.has_clock {
        NO_CLOCK
    } else if course.responses == 0 {
        let requests = course.requests;
        return format!(in alloc;
            "the run ended before its last report: no response came to {requests} requests"
        ).ok();
    } else if !course.has_timestamps {
        NO_TIMESTAMPS
    } else if course.timestamps == 0 {
        NO_CONTROL
    } else {
        SPENT
    };
    String::from_str(alloc, words).ok()
}

/// The text of a property of this name in a message, as it is written there. None where there is none in sight.
fn text_of<'a>(message: &'a str, name: &str) -> Option<&'a str> {
    let (_, rest) = message.split_once(name)?;
    let (_, rest) = rest.split_once(':')?;
    let text = rest.trim_start().strip_prefix('"')?;
    let (text, _) = text.split_once('"')?;
    Some(text)
}

/// What the last CSS-CII text says of a property that is a text, as far as it is printable in ASCII.
pub(crate) fn told(alloc: Global, course: &Course<'_>, name: &str) -> Option<String> {
    let message = shown(alloc, course.state, MOST_SEARCHED)?;
    let text = text_of(message.as_str(), name)?;
    String::from_str(alloc, text).ok()
}
