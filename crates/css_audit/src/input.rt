ghost use Rattle.std.specs.Prelude.{◌≡◌, IfOk};
ghost use Rattle.std.specs.List.{list_all};
ghost use Rattle.std.specs.Option.{option_copied};
ghost use Rattle.css_num.specs.Gives.{GivesBy};
ghost use Rattle.css_schedule.specs.Headers.{stem_of};
ghost use Rattle.css_schedule.specs.Words.{words_left, Reads};
ghost use Rattle.css_schedule.specs.declared.fault.LineFault.TheVariants as faults;
ghost use Rattle.css_audit.specs.HexWords as hex_words;
ghost use Rattle.css_audit.specs.Inputs as inputs;

use css_companion::CompanionConfig;
use css_model::LIMIT;
use css_num::{Memory, Text};
use css_schedule::LineFault;
use css_schedule::words::{Words, all_words, finish, number, skip, text, word};
use css_span::Local;
use hex::FromHexError;
use std::alloc::Global;

/// The greatest error of the companion's oscillator, in 1/256 ppm.
const MAX_LOCAL_ERROR: u64 = 2_560_000;

/// The worst precision of the companion's readings, in nanoseconds.
const MAX_LOCAL_PRECISION: u64 = 1_000_000_000;

/// A line of a record after its header. Readings are those of the companion's clock, in nanoseconds.
#[derive(Drop)]
pub enum RecordLine {
    /// `slept`: the companion slept.
    Slept,
    /// `turn R`: a turn began.
    Turn { reading: u64 },
    /// `ask R`: the request of this reading was sent.
    Ask { reading: u64 },
    /// `land R HEX`: a datagram of these bytes landed.
    Land { reading: u64, bytes: Text },
    /// `cii HEX`: this text came on the CII session.
    Cii(Text),
    /// `ts HEX`: this text came on the TS session.
    Ts(Text),
    /// `closed cii`: the CII session closed.
    ClosedCii,
    /// `closed ts`: the TS session closed.
    ClosedTs,
    /// `report WORDS`: the companion reported so at the turn that began just before.
    Report(Text),
}

// A reading in nanoseconds, below 2^32 seconds.
fn reading<'a>(words: Words<'a>) -> Result<(u64, Words<'a>), LineFault>
    ensures { Reads result (inputs.reading_at (words_left words.entry)) }
{
    number(words, LIMIT)
}

// Whether there is a digit, and each is from `0` to `9` or from `a` to `f`.
fn is_hex(word: &[u8]) -> bool
    ensures { result ≡ hex_words.is_hex word.now }
{
    !word.is_empty() && are_digits(word)
}

fn are_digits(word: &[u8]) -> bool
    ensures { result ≡ list_all hex_words.is_digit word.now }
{
    word.iter().all(|byte| b'0' <= *byte && *byte <= b'9' || b'a' <= *byte && *byte <= b'f')
}

// The bytes of digits.
fn decoded(alloc: Global, digits: &[u8]) -> Result<Text, LineFault>
    ensures { GivesBy (λ x. x) faults.Memory result (hex_words.decoded digits.now) }
{
    match hex::decode(alloc, digits) {
        Ok(bytes) => Ok(Text::of(alloc, &bytes)?),
        Err(fault) => match fault {
            FromHexError::OutOfMemory => Err(LineFault::Memory),
            _ => Err(LineFault::Form),
        },
    }
}

// The bytes that a word spells: two digits each, or `-` for none.
fn bytes_of(alloc: Global, word: &[u8]) -> Result<Text, LineFault>
    ensures { GivesBy (λ x. x) faults.Memory result (hex_words.bytes_of word.now) }
{
    if word == b"-".as_slice() {
        return Ok(Text::new(alloc));
    }
    if !is_hex(word) {
        return Err(LineFault::Form);
    }
    decoded(alloc, word)
}

// The bytes that the last word spells.
#[tactic(auto, unfolding(crate::specs::Inputs::last_bytes))]
fn last_bytes(alloc: Global, words: Words<'_>) -> Result<Text, LineFault>
    ensures { GivesBy (λ x. x) faults.Memory result (inputs.last_bytes (words_left words.entry)) }
{
    let (digits, rest) = word(words)?;
    finish(rest)?;
    bytes_of(alloc, digits)
}

// A reading that is the last word.
#[tactic(auto, unfolding(crate::specs::Inputs::last_reading))]
fn last_reading(words: Words<'_>) -> Result<u64, LineFault>
    ensures { GivesBy (λ x. x) faults.Memory result (inputs.last_reading (words_left words.entry)) }
{
    let (reading, rest) = reading(words)?;
    finish(rest)?;
    Ok(reading)
}

#[tactic(auto, unfolding(crate::specs::Inputs::land_of))]
fn land(alloc: Global, words: Words<'_>) -> Result<RecordLine, LineFault>
    ensures { GivesBy (λ x. x) faults.Memory result (inputs.land_of (words_left words.entry)) }
{
    let (reading, rest) = reading(words)?;
    let bytes = last_bytes(alloc, rest)?;
    Ok(RecordLine::Land { reading, bytes })
}

// The end of a session, by its name.
fn closed_named(name: &[u8]) -> Result<RecordLine, LineFault>
    ensures { GivesBy (λ x. x) faults.Memory result (inputs.closed_named name.now) }
{
    if name == b"cii".as_slice() {
        Ok(RecordLine::ClosedCii)
    } else if name == b"ts".as_slice() {
        Ok(RecordLine::ClosedTs)
    } else {
        Err(LineFault::Form)
    }
}

#[tactic(auto, unfolding(crate::specs::Inputs::closed_of))]
fn closed(words: Words<'_>) -> Result<RecordLine, LineFault>
    ensures { GivesBy (λ x. x) faults.Memory result (inputs.closed_of (words_left words.entry)) }
{
    let (name, rest) = word(words)?;
    finish(rest)?;
    closed_named(name)
}

#[tactic(auto, unfolding(crate::specs::Inputs::slept_of))]
fn slept(words: Words<'_>) -> Result<RecordLine, LineFault>
    ensures { GivesBy (λ x. x) faults.Memory result (inputs.slept_of (words_left words.entry)) }
{
    finish(words)?;
    Ok(RecordLine::Slept)
}

#[tactic(auto, unfolding(crate::specs::Inputs::turn_of))]
fn turn(words: Words<'_>) -> Result<RecordLine, LineFault>
    ensures { GivesBy (λ x. x) faults.Memory result (inputs.turn_of (words_left words.entry)) }
{
    let reading = last_reading(words)?;
    Ok(RecordLine::Turn { reading })
}

#[tactic(auto, unfolding(crate::specs::Inputs::ask_of))]
fn ask(words: Words<'_>) -> Result<RecordLine, LineFault>
    ensures { GivesBy (λ x. x) faults.Memory result (inputs.ask_of (words_left words.entry)) }
{
    let reading = last_reading(words)?;
    Ok(RecordLine::Ask { reading })
}

#[tactic(auto, unfolding(crate::specs::Inputs::cii_of))]
fn cii(alloc: Global, words: Words<'_>) -> Result<RecordLine, LineFault>
    ensures { GivesBy (λ x. x) faults.Memory result (inputs.cii_of (words_left words.entry)) }
{
    let bytes = last_bytes(alloc, words)?;
    Ok(RecordLine::Cii(bytes))
}

#[tactic(auto, unfolding(crate::specs::Inputs::ts_of))]
fn ts(alloc: Global, words: Words<'_>) -> Result<RecordLine, LineFault>
    ensures { GivesBy (λ x. x) faults.Memory result (inputs.ts_of (words_left words.entry)) }
{
    let bytes = last_bytes(alloc, words)?;
    Ok(RecordLine::Ts(bytes))
}

// The line with this name and these words after it, where it is one of a session.
fn session(alloc: Global, name: &[u8], words: Words<'_>) -> Result<RecordLine, LineFault>
    ensures { GivesBy (λ x. x) faults.Memory result (inputs.session_named name.now (words_left words.entry)) }
{
    if name == b"cii".as_slice() {
        cii(alloc, words)
    } else if name == b"ts".as_slice() {
        ts(alloc, words)
    } else if name == b"closed".as_slice() {
        closed(words)
    } else {
        Err(LineFault::Form)
    }
}

// The line with this name and these words after it.
#[tactic(auto, unfolding(crate::specs::Inputs::named))]
fn named(alloc: Global, name: &[u8], words: Words<'_>) -> Result<RecordLine, LineFault>
    ensures { GivesBy (λ x. x) faults.Memory result (inputs.named name.now (words_left words.entry)) }
{
    if name == b"slept".as_slice() {
        slept(words)
    } else if name == b"turn".as_slice() {
        turn(words)
    } else if name == b"ask".as_slice() {
        ask(words)
    } else if name == b"land".as_slice() {
        land(alloc, words)
    } else {
        session(alloc, name, words)
    }
}

// A line that is no report.
#[tactic(auto, unfolding(crate::specs::Inputs::line_of_words))]
fn line(alloc: Global, words: Words<'_>) -> Result<RecordLine, LineFault>
    ensures { GivesBy (λ x. x) faults.Memory result (inputs.line_of_words (words_left words.entry)) }
{
    let (name, rest) = word(words)?;
    named(alloc, name, rest)
}

// What stands after the name of a report and its space.
fn after_report(bytes: &[u8]) -> Option<&[u8]>
    ensures { option_copied result ≡ inputs.after_report bytes.now }
{
    bytes.strip_prefix(b"report ")
}

fn are_printable(words: &[u8]) -> bool
    ensures { result ≡ list_all inputs.is_printable words.now }
{
    words.iter().all(|byte| b' ' <= *byte && *byte <= b'~')
}

// A report of these words.
fn report(alloc: Global, words: &[u8]) -> Result<RecordLine, LineFault>
    ensures { GivesBy (λ x. x) faults.Memory result (inputs.report_of words.now) }
{
    if !are_printable(words) {
        return Err(LineFault::Form);
    }
    Ok(RecordLine::Report(Text::of(alloc, words)?))
}

fn any_line(alloc: Global, bytes: &[u8]) -> Result<RecordLine, LineFault>
    ensures { GivesBy (λ x. x) faults.Memory result (inputs.line_of bytes.now) }
{
    match after_report(bytes) {
        Some(words) => report(alloc, words),
        None => line(alloc, all_words(bytes)),
    }
}

/// Reads a line of a record after the header, without its line feed.
///
/// R is a reading in nanoseconds, below 2^32 seconds. HEX is two digits of `0` to `9` and `a` to `f` for each byte, or
/// `-` for none. The words of a report are bytes from space to `~`. Anything else than the lines of [`RecordLine`] is
/// `Form`.
pub fn read_line(alloc: Global, bytes: &[u8]) -> Result<RecordLine, LineFault>
    ensures value { GivesBy (λ x. x) faults.Memory result (inputs.line_of bytes.now) }
    ensures range { IfOk result inputs.IsInRange }
{
    any_line(alloc, bytes)
}

// The stem that a word stands for: `-` for the empty one.
fn stem(alloc: Global, word: &[u8]) -> Result<Text, Memory>
    ensures { IfOk result (λ stem. stem ≡ stem_of word.now) }
{
    if word == b"-".as_slice() {
        Ok(Text::new(alloc))
    } else {
        Text::of(alloc, word)
    }
}

fn config(
    alloc: Global,
    local: Local,
    selector: &[u8],
    word: &[u8],
) -> Result<CompanionConfig, Memory>
    ensures { IfOk result (λ config. config ≡ inputs.config_with local selector.now word.now) }
{
    Ok(CompanionConfig {
        selector: Text::of(alloc, selector)?,
        stem: stem(alloc, word)?,
        local,
    })
}

#[tactic(auto, unfolding(crate::specs::Inputs::header_of_words))]
fn header(alloc: Global, words: Words<'_>) -> Result<CompanionConfig, LineFault>
    ensures { GivesBy (λ x. x) faults.Memory result (inputs.header_of_words (words_left words.entry)) }
{
    let rest = skip(words, b"css-record")?;
    let rest = skip(rest, b"1")?;
    let (error, rest) = number(rest, MAX_LOCAL_ERROR + 1)?;
    let (precision, rest) = number(rest, MAX_LOCAL_PRECISION + 1)?;
    let (selector, rest) = text(rest)?;
    let (stem, rest) = text(rest)?;
    finish(rest)?;
    let local = Local {
        error: error as u32,
        precision,
    };
    Ok(config(alloc, local, selector, stem)?)
}

/// Reads the header of a record, `css-record 1 EL PL SELECTOR STEM`, without its line feed.
///
/// EL is the error of the companion's oscillator, in 1/256 ppm and at most 2,560,000. PL is the precision of its
/// readings, in nanoseconds and at most a second. SELECTOR and STEM are words of bytes from `!` to `~`; the STEM `-` is
/// the empty stem. Anything else is `Form`.
#[tactic(auto, using(crate::proofs::Inputs::header_utf8))]
pub fn read_header(alloc: Global, bytes: &[u8]) -> Result<CompanionConfig, LineFault>
    ensures value { GivesBy (λ x. x) faults.Memory result (inputs.header_of bytes.now) }
    ensures utf8 { IfOk result inputs.IsUtf8Config }
{
    header(alloc, all_words(bytes))
}
