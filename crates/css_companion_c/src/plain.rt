//! Calls that need no companion.
ghost use Rattle.std.specs.Prelude.{◌≡◌, ◌≢◌, length};
ghost use Rattle.css_tsmsg.specs.Presentations.{presentation_text};
ghost use Rattle.css_companion.specs.Steps.{window};
ghost use Rattle.css_companion_c.specs.Codes.{VERSION, DONE, NO_ROOM, Answers, room_code, window_code};
ghost use Rattle.css_companion_c.specs.Texts.{Holds, earliest_of, latest_of};
ghost use Rattle.css_companion_c.specs.Words.{word_of};

use crate::codes;
use crate::presentations::{PresentationBound, put_presentation};
use crate::texts::put;
use crate::words::word;
use std::alloc::Global;

/// The version of this interface.
#[unsafe(no_mangle)]
pub extern "C" fn css_companion_version() -> u32
    ensures { result ≡ VERSION }
{
    codes::VERSION
}

/// Puts the text that tells a television when the companion can present into a buffer.
#[unsafe(no_mangle)]
pub extern "C" fn css_companion_presentation(
    alloc: Global,
    earliest: &PresentationBound,
    latest: &PresentationBound,
    out: &mut [u8],
    used: &mut usize,
) -> u32
    ensures kept { result ≢ DONE → out.new ≡ out.old }
    ensures code { Answers (window_code earliest.now latest.now) (room_code
        (presentation_text (window (earliest_of earliest.now) (latest_of latest.now))) (length out.old)) result }
    ensures text { result ≡ DONE → Holds
        (presentation_text (window (earliest_of earliest.now) (latest_of latest.now))) used.new out.old out.new }
    ensures needs { result ≡ NO_ROOM → used.new ≡ length
        (presentation_text (window (earliest_of earliest.now) (latest_of latest.now))) }
{
    put_presentation(alloc, earliest, latest, out, used)
}

/// Puts a word for a code into a buffer.
#[unsafe(no_mangle)]
pub extern "C" fn css_companion_words(code: u32, out: &mut [u8], used: &mut usize) -> u32
    ensures kept { result ≢ DONE → out.new ≡ out.old }
    ensures code { result ≡ room_code (word_of code) (length out.old) }
    ensures text { result ≡ DONE → Holds (word_of code) used.new out.old out.new }
    ensures needs { result ≡ NO_ROOM → used.new ≡ length (word_of code) }
{
    put(word(code).as_bytes(), out, used)
}
