//! When the companion can present.
ghost use Rattle.std.specs.Prelude.{◌≡◌, ◌≢◌, true, length};
ghost use Rattle.css_tsmsg.specs.Presentations.{presentation_text, IsEarliest, IsLatest};
ghost use Rattle.css_companion.specs.Steps.{window};
ghost use Rattle.css_companion_c.specs.Codes.{window_code, is_time, room_code, Answers, DONE, NO_ROOM};
ghost use Rattle.css_companion_c.specs.Texts.{Holds, earliest_of, latest_of};

use crate::codes;
use crate::texts::put;
use css_tsmsg::{Bound, Presentation, write_presentation};
use std::alloc::Global;

/// One end of the window: the tick `content` at `wall` nanoseconds of the television's wall clock, or however early or
/// late where `is_infinite`.
#[repr(C)]
#[derive(Clone, Copy, Drop)]
pub struct PresentationBound {
    pub content: i64,
    pub wall: u64,
    pub is_infinite: bool,
}

/// Whether both numbers of a bound can be told.
fn is_time(bound: &PresentationBound) -> bool
    ensures { result ≡ is_time bound.now }
{
    -1_000_000_000_000_000_000 < bound.content
        && bound.content < 1_000_000_000_000_000_000
        && bound.wall < 9_223_372_036_854_775_808
}

fn earliest_of(bound: &PresentationBound) -> Bound
    requires { is_time bound.now ≡ true }
    ensures value { result ≡ earliest_of bound.now }
    ensures range { IsEarliest result }
{
    if bound.is_infinite {
        Bound::MinusInfinity {
            content: bound.content,
        }
    } else {
        Bound::At {
            content: bound.content,
            wall: bound.wall,
        }
    }
}

fn latest_of(bound: &PresentationBound) -> Bound
    requires { is_time bound.now ≡ true }
    ensures value { result ≡ latest_of bound.now }
    ensures range { IsLatest result }
{
    if bound.is_infinite {
        Bound::PlusInfinity {
            content: bound.content,
        }
    } else {
        Bound::At {
            content: bound.content,
            wall: bound.wall,
        }
    }
}

/// Puts the text of the window into a buffer.
pub(crate) fn put_presentation(
    alloc: Global,
    earliest: &PresentationBound,
    latest: &PresentationBound,
    out: &mut [u8],
    used: &mut usize,
) -> u32
    ensures kept { result ≢ DONE → out.new ≡ out.old }
    ensures code { Answers (window_code earliest.now latest.now) (room_code
        (presentation_text (window (earliest_of earliest.now) (latest_of latest.now))) (length out.old)) result }
    ensures text { result ≡ DONE → Holds
        (presentation_text (window (earliest_of earliest.now) (latest_of latest.now))) used.new out.old out.new }
    ensures needs { result ≡ NO_ROOM → used.new ≡ length
        (presentation_text (window (earliest_of earliest.now) (latest_of latest.now))) }
{
    if !is_time(earliest) || !is_time(latest) {
        return codes::RANGE;
    }
    let presentation = Presentation {
        earliest: earliest_of(earliest),
        latest: latest_of(latest),
        actual: None,
    };
    match write_presentation(alloc, &presentation) {
        Ok(text) => put(text.bytes(), out, used),
        Err(_) => codes::MEMORY,
    }
}
