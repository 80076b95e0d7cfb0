ghost use Rattle.std.specs.Prelude.{◌≡◌, ◌≤◌, ◌∷◌, [], IfOk};
ghost use Rattle.css_model.specs.Numbers.{max_local_error, max_local_precision};
ghost use Rattle.css_num.specs.Gives.{GivesBy};
ghost use Rattle.css_schedule.specs.Words.{words_left, Reads};
ghost use Rattle.css_schedule.specs.Headers.{mode_of, mode_at, declared_at, local_at, stem_of, count_at};
ghost use Rattle.css_schedule.specs.Headers.{companion_with, companion_of_words, header_with, first_of_words};
ghost use Rattle.css_schedule.specs.Headers.{second_of_words, start_of, header_of_words, header_of};
ghost use Rattle.css_schedule.specs.Headers.{after_number, numbered_of_words, companion_of, max_companions};
ghost use Rattle.css_schedule.specs.Ranges.{IsStart, IsCount, IsGoodCompanion};
ghost use Rattle.css_schedule.specs.declared.fault.LineFault.TheVariants as faults;

use crate::words::{Words, all_words, finish, number, signed, skip, text, word};
use crate::{CompanionLine, Companions, Header, LineFault, Start};
use css_num::{Memory, Text};
use css_span::Local;
use std::alloc::Global;

/// The greatest errors of the oscillators, in 1/256 ppm.
const MAX_TV_ERROR: u64 = 25_600_000;

const MAX_LOCAL_ERROR: u64 = 2_560_000;

/// The worst precision of a companion's readings, in nanoseconds.
const MAX_LOCAL_PRECISION: u64 = 1_000_000_000;

/// The range of a precision exponent, and the digits that it may have.
const MIN_PRECISION: i64 = -128;

const MAX_PRECISION: i64 = 30;

const PRECISION_DIGITS: u32 = 3;

/// How many companions a schedule of version 2 has at most.
const MAX_COMPANIONS: u64 = 16;

// What the television declares.
#[derive(Clone, Copy)]
struct Declared {
    follow: bool,
    tv_error: u32,
    tv_precision: i8,
}

// Whether the television promises follow-ups, by the word for it.
fn follows(word: &[u8]) -> Result<bool, LineFault>
    ensures { GivesBy (λ follow. follow) faults.Memory result (mode_of word.now) }
{
    if word == b"plain".as_slice() {
        Ok(false)
    } else if word == b"follow".as_slice() {
        Ok(true)
    } else {
        Err(LineFault::Form)
    }
}

#[tactic(auto, unfolding(crate::specs::Headers::mode_at))]
fn mode<'a>(words: Words<'a>) -> Result<(bool, Words<'a>), LineFault>
    ensures { Reads result (mode_at (words_left words.entry)) }
{
    let (name, rest) = word(words)?;
    let follow = follows(name)?;
    Ok((follow, rest))
}

// What the television declares, each number in its range.
#[tactic(auto, unfolding(crate::specs::Headers::declared_at))]
fn declaration<'a>(words: Words<'a>) -> Result<(Declared, Words<'a>), LineFault>
    ensures { Reads result (declared_at (words_left words.entry)) }
{
    let (follow, rest) = mode(words)?;
    let (tv_error, rest) = number(rest, MAX_TV_ERROR + 1)?;
    let (tv_precision, rest) = signed(rest, PRECISION_DIGITS, MIN_PRECISION, MAX_PRECISION)?;
    let declared = Declared {
        follow,
        tv_error: tv_error as u32,
        tv_precision: tv_precision as i8,
    };
    Ok((declared, rest))
}

// The error and the precision of a companion's clock, each in its range.
#[tactic(auto, unfolding(crate::specs::Headers::local_at))]
fn own_clock<'a>(words: Words<'a>) -> Result<((u32, u64), Words<'a>), LineFault>
    ensures value { Reads result (local_at (words_left words.entry)) }
    ensures error { IfOk result (λ x. x.0.0 ≤ max_local_error) }
    ensures precision { IfOk result (λ x. x.0.1 ≤ max_local_precision) }
{
    let (error, rest) = number(words, MAX_LOCAL_ERROR + 1)?;
    let (precision, rest) = number(rest, MAX_LOCAL_PRECISION + 1)?;
    Ok(((error as u32, precision), rest))
}

// The stem that a word stands for: `-` for the empty one.
fn stem(alloc: Global, word: &[u8]) -> Result<Text, Memory>
    ensures { IfOk result (λ stem. stem ≡ stem_of word.now) }
{
    if word == b"-".as_slice() {
        Ok(Text::new(alloc))
    } else {
        Text::of(alloc, word)
    }
}

// A companion with this clock, this selector, and the stem that this word stands for.
fn companion_of(
    alloc: Global,
    local: Local,
    selector: &[u8],
    word: &[u8],
) -> Result<CompanionLine, Memory>
    ensures { IfOk result (λ companion. companion ≡ companion_with local selector.now word.now) }
{
    Ok(CompanionLine {
        local,
        selector: Text::of(alloc, selector)?,
        stem: stem(alloc, word)?,
    })
}

// The companion that the last words of a line declare.
#[tactic(auto, unfolding(crate::specs::Headers::companion_of_words))]
fn companion(alloc: Global, words: Words<'_>) -> Result<CompanionLine, LineFault>
    ensures { GivesBy (λ x. x) faults.Memory result (companion_of_words (words_left words.entry)) }
{
    let ((error, precision), rest) = own_clock(words)?;
    let (selector, rest) = text(rest)?;
    let (stem, rest) = text(rest)?;
    finish(rest)?;
    let local = Local { error, precision };
    let companion = companion_of(alloc, local, selector, stem)?;
    Ok(companion)
}

// A companion, alone.
fn only(alloc: Global, companion: CompanionLine) -> Result<Companions, Memory>
    ensures { IfOk result (λ companions. companions ≡ companion ∷ []) }
{
    let mut list = Vec::new(alloc);
    list.push(companion)?;
    Ok(Companions::of(list))
}

// The header of a television and these companions.
fn header(declared: Declared, companions: Companions) -> Header
    ensures { result ≡ header_with declared companions }
{
    Header {
        follow: declared.follow,
        tv_error: declared.tv_error,
        tv_precision: declared.tv_precision,
        companions,
    }
}

// The start of version 1 that these words are.
#[tactic(auto, unfolding(crate::specs::Headers::first_of_words))]
fn first(alloc: Global, words: Words<'_>) -> Result<Start, LineFault>
    ensures { GivesBy (λ x. x) faults.Memory result (first_of_words (words_left words.entry)) }
{
    let (declared, rest) = declaration(words)?;
    let companion = companion(alloc, rest)?;
    let companions = only(alloc, companion)?;
    Ok(Start::One(header(declared, companions)))
}

// How many companions there are: at least one.
#[tactic(auto, unfolding(crate::specs::Headers::count_at))]
fn count<'a>(words: Words<'a>) -> Result<(u32, Words<'a>), LineFault>
    ensures { Reads result (count_at (words_left words.entry)) }
{
    let (count, rest) = number(words, MAX_COMPANIONS + 1)?;
    if count == 0 {
        return Err(LineFault::Form);
    }
    Ok((count as u32, rest))
}

// The start of version 2 that these words are.
#[tactic(auto, unfolding(crate::specs::Headers::second_of_words))]
fn second(alloc: Global, words: Words<'_>) -> Result<Start, LineFault>
    ensures { GivesBy (λ x. x) faults.Memory result (second_of_words (words_left words.entry)) }
{
    let (declared, rest) = declaration(words)?;
    let (companions, rest) = count(rest)?;
    finish(rest)?;
    Ok(Start::Two {
        header: header(declared, Companions::of(Vec::new(alloc))),
        companions,
    })
}

// The start of a version, by the word for it.
#[tactic(auto, unfolding(crate::specs::Headers::start_of))]
fn start(alloc: Global, version: &[u8], words: Words<'_>) -> Result<Start, LineFault>
    ensures { GivesBy (λ x. x) faults.Memory result (start_of version.now (words_left words.entry)) }
{
    if version == b"1".as_slice() {
        first(alloc, words)
    } else if version == b"2".as_slice() {
        second(alloc, words)
    } else {
        Err(LineFault::Form)
    }
}

// The start that these words are.
#[tactic(auto, unfolding(crate::specs::Headers::header_of_words))]
fn start_of(alloc: Global, words: Words<'_>) -> Result<Start, LineFault>
    ensures { GivesBy (λ x. x) faults.Memory result (header_of_words (words_left words.entry)) }
{
    let rest = skip(words, b"css-schedule")?;
    let (version, rest) = word(rest)?;
    start(alloc, version, rest)
}

/// Reads the first line of a schedule, without its line feed.
///
/// In version 1 its words are `css-schedule 1 MODE EW KW EL PL SELECTOR STEM`, and in version 2 they are
/// `css-schedule 2 MODE EW KW COUNT`, with exactly one space between two of them. MODE is `plain`, or `follow` where
/// the television promises follow-ups. EW is the television's oscillator error, 0 to 25,600,000 in 1/256 ppm, and KW
/// its precision, -128 to 30 as the base-2 logarithm of seconds. EL is the companion's oscillator error, 0 to
/// 2,560,000, and PL its precision, 0 to 1,000,000,000 ns. SELECTOR and STEM are words of bytes from `!` to `~`; the
/// STEM `-` is the empty stem. COUNT is 1 to 16: so many lines of companions follow, and the header has none of them
/// yet. Anything else is `Form`.
#[tactic(auto, using(crate::proofs::HeadersInRange::start_in_range))]
pub fn read_header(alloc: Global, bytes: &[u8]) -> Result<Start, LineFault>
    ensures value { GivesBy (λ x. x) faults.Memory result (header_of bytes.now) }
    ensures range { IfOk result IsStart }
{
    start_of(alloc, all_words(bytes))
}

// The words after this number.
#[tactic(auto, unfolding(crate::specs::Headers::after_number))]
fn after_number<'a>(words: Words<'a>, expected: u32) -> Result<Words<'a>, LineFault>
    ensures { GivesBy words_left faults.Memory result (after_number expected (words_left words.entry)) }
{
    let (read, rest) = number(words, MAX_COMPANIONS + 1)?;
    if read != u64::from(expected) {
        return Err(LineFault::Form);
    }
    Ok(rest)
}

// The companion of this number that these words are.
#[tactic(auto, unfolding(crate::specs::Headers::numbered_of_words))]
fn numbered(alloc: Global, words: Words<'_>, number: u32) -> Result<CompanionLine, LineFault>
    ensures { GivesBy (λ x. x) faults.Memory result (numbered_of_words number (words_left words.entry)) }
{
    let rest = skip(words, b"companion")?;
    let rest = after_number(rest, number)?;
    companion(alloc, rest)
}

/// Reads the line of the companion with this number, without its line feed. Companions are numbered from 1 to 16.
///
/// The words are `companion K EL PL SELECTOR STEM`, with exactly one space between two of them. K is the number; the
/// others are as in `read_header`. Anything else is `Form`, the line of another companion too.
#[tactic(auto, using(crate::proofs::HeadersInRange::companion_in_range))]
pub fn read_companion(alloc: Global, bytes: &[u8], number: u32) -> Result<CompanionLine, LineFault>
    requires { IsCount number }
    ensures value { GivesBy (λ x. x) faults.Memory result (companion_of number bytes.now) }
    ensures range { IfOk result IsGoodCompanion }
{
    numbered(alloc, all_words(bytes), number)
}
