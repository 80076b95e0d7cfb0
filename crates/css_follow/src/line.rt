ghost use Rattle.css_num.specs.Gives.{GivesBy};
ghost use Rattle.css_schedule.specs.Words.{words_left};
ghost use Rattle.css_schedule.specs.declared.fault.LineFault.TheVariants as faults;
ghost use Rattle.css_follow.specs.SheetLines as lines;

use crate::sheet::Cue;
use css_num::Text;
use css_schedule::LineFault;
use css_schedule::words::{Words, all_words, finish, integer, number, text, word};
use std::alloc::Global;

/// The most digits of a tick.
const TICK_DIGITS: u32 = 18;

/// A meter counts fewer intervals than this.
const COUNT_LIMIT: u64 = 1_000_001;

/// A line is outside the grammar of a sheet, or can't stand after those before it.
#[derive(Clone, Copy, Debug, PartialEq, Eq)]
pub struct Form;

/// A line of a sheet.
#[derive(Drop)]
pub enum SheetLine {
    /// A cue is announced.
    Announce(Cue),
    /// So many intervals are measured.
    Measure(u32),
}

#[tactic(auto, unfolding(crate::specs::SheetLines::cue_of))]
fn cue(alloc: Global, words: Words<'_>) -> Result<SheetLine, LineFault>
    ensures { GivesBy (λ x. x) faults.Memory result (lines.cue_of (words_left words.entry)) }
{
    let (tick, rest) = integer(words, TICK_DIGITS)?;
    let (name, rest) = text(rest)?;
    finish(rest)?;
    let name = Text::of(alloc, name)?;
    Ok(SheetLine::Announce(Cue { tick, name }))
}

#[tactic(auto, unfolding(crate::specs::SheetLines::meter_of))]
fn meter(words: Words<'_>) -> Result<SheetLine, LineFault>
    ensures { GivesBy (λ x. x) faults.Memory result (lines.meter_of (words_left words.entry)) }
{
    let (count, rest) = number(words, COUNT_LIMIT)?;
    finish(rest)?;
    if count == 0 {
        return Err(LineFault::Form);
    }
    Ok(SheetLine::Measure(count as u32))
}

// The line with this name and these words after it.
#[tactic(auto, unfolding(crate::specs::SheetLines::named))]
fn named(alloc: Global, name: &[u8], words: Words<'_>) -> Result<SheetLine, LineFault>
    ensures { GivesBy (λ x. x) faults.Memory result (lines.named name.now (words_left words.entry)) }
{
    if name == b"cue".as_slice() {
        cue(alloc, words)
    } else if name == b"meter".as_slice() {
        meter(words)
    } else {
        Err(LineFault::Form)
    }
}

/// Reads a line of a sheet, without its line feed: `cue TICK NAME` or `meter COUNT`, with exactly one space between two
/// words. TICK is signed with at most 18 digits, NAME is a word of bytes from `!` to `~`, and COUNT is 1 to 1,000,000.
#[tactic(auto, unfolding(crate::specs::SheetLines::line_of))]
pub fn read_line(alloc: Global, bytes: &[u8]) -> Result<SheetLine, LineFault>
    ensures { GivesBy (λ x. x) faults.Memory result (lines.line_of bytes.now) }
{
    let (name, rest) = word(all_words(bytes))?;
    named(alloc, name, rest)
}
