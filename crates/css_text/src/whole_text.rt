ghost use Rattle.std.specs.Prelude.{◌≡◌, ◌-◌, ◌^◌, ◌++◌, min, IfOk};
ghost use Rattle.std.specs.Int.{from_bool};
ghost use Rattle.css_text.specs.Numerals as numerals;
ghost use Rattle.css_text.specs.WholeTexts.{whole_text, odd_count};

use crate::numerals::{is_numeral_byte, rewritten};
use css_num::{Memory, Text};
use std::alloc::Global;

/// Where a byte of a text stands.
#[derive(Clone, Copy)]
pub(crate) enum Place {
    /// Outside strings.
    Outside,
    /// In a string.
    InString,
    /// In a string, just after a `\` that takes it along.
    InEscape,
}

impl Place {
    ghost use Rattle.css_text.specs.WholeTexts.{place_after, is_in_run};

    /// Where the byte after `b` stands.
    fn after(self, b: u8) -> Place
        ensures { result ≡ place_after self b }
    {
        match self {
            Place::Outside => if b == b'"' {
                Place::InString
            } else {
                Place::Outside
            },
            Place::InString => if b == b'\\' {
                Place::InEscape
            } else if b == b'"' {
                Place::Outside
            } else {
                Place::InString
            },
            Place::InEscape => Place::InString,
        }
    }

    /// Whether `b`, which stands here, belongs to a run of numeral characters.
    fn is_in_run(self, b: u8) -> bool
        ensures { result ≡ is_in_run self b }
    {
        match self {
            Place::Outside => is_numeral_byte(b),
            Place::InString | Place::InEscape => false,
        }
    }
}

/// A whole text.
#[derive(Debug, Drop)]
pub struct Whole {
    /// Its bytes.
    pub text: Text,
    /// How many numerals became `null`: `u32::MAX` stands for that many or more.
    pub odd: u32,
}

/// Appends bytes that stay as they are and what stands for the run after them, and tells how many odd numerals the run
/// is: 0 or 1.
fn push_run(text: &mut Text, before: &[u8], run: &[u8]) -> Result<u32, Memory>
    ensures { IfOk result (λ odd. (text.new ≡ (text.old ++ before.now) ++ numerals.rewritten run.now)
        × (odd ≡ from_bool (numerals.is_odd run.now))) }
{
    let (written, is_odd) = rewritten(run);
    text.push(before)?;
    text.push(written)?;
    Ok(u32::from(is_odd))
}

/// The whole text of these bytes: the numerals that stand outside strings are rewritten, and everything else stays as
/// it is.
///
/// A numeral is a maximal run of digits, `-`, `+`, `.`, `e` and `E` that is a number of JSON. It becomes its part
/// before the point, and `-0` becomes `0`, where it has no exponent, no fraction but zeros, and at most 18 digits
/// before the point. Any other numeral becomes `null` and counts as odd.
pub fn rewrite_numerals(alloc: Global, bytes: &[u8]) -> Result<Whole, Memory>
    ensures text { IfOk result (λ whole. whole.text ≡ whole_text bytes.now) }
    ensures odd { IfOk result (λ whole. whole.odd ≡ min (odd_count bytes.now) (2 ^ 32 - 1)) }
{
    let mut text = Text::new(alloc);
    let mut odd: u32 = 0;
    let mut place = Place::Outside;
    // Up to `copied` the text is written, and from `start` on there is a run.
    let mut copied = 0;
    let mut start = 0;
    for (i, b) in bytes.iter().enumerate() {
        if !place.is_in_run(*b) {
            if start < i {
                let more = push_run(&mut text, &bytes[copied..start], &bytes[start..i])?;
                odd = odd.saturating_add(more);
                copied = i;
            }
            start = i + 1;
        }
        place = place.after(*b);
    }
    let more = push_run(&mut text, &bytes[copied..start], &bytes[start..])?;
    odd = odd.saturating_add(more);
    Ok(Whole { text, odd })
}
