ghost use Rattle.std.specs.Prelude.{◌≡◌, ◌∷◌, [], codes, decimal, IfOk, OnOk};
ghost use Rattle.css_schedule.specs.Words.{with_words, stem_word};
ghost use Rattle.css_audit.specs.HexWords.{hex_of};
ghost use Rattle.css_audit.specs.Printed as printed;

use crate::input::RecordLine;
use css_companion::CompanionConfig;
use css_num::{Memory, Text};
use std::alloc::Global;

// Each call below appends words to a text, a space before each.

fn add_word(text: &mut Text, word: &[u8]) -> Result<(), Memory>
    ensures { OnOk result (text.new ≡ with_words text.old (word.now ∷ [])) }
{
    text.push(b" ")?;
    text.push(word)
}

fn add_number(text: &mut Text, number: u64) -> Result<(), Memory>
    ensures { OnOk result (text.new ≡ with_words text.old (decimal number ∷ [])) }
{
    text.push(b" ")?;
    text.push_number(i128::from(number))
}

// The digits of bytes, or `-` for none.
fn add_bytes(alloc: Global, text: &mut Text, bytes: &[u8]) -> Result<(), Memory>
    ensures { OnOk result (text.new ≡ with_words text.old (hex_of bytes.now ∷ [])) }
{
    if bytes.is_empty() {
        return add_word(text, b"-");
    }
    let digits = hex::encode(alloc, bytes)?;
    add_word(text, digits.as_bytes())
}

fn add_landing(alloc: Global, text: &mut Text, reading: u64, bytes: &[u8]) -> Result<(), Memory>
    ensures { OnOk result (text.new ≡ with_words text.old (decimal reading ∷ hex_of bytes.now ∷ [])) }
{
    add_number(text, reading)?;
    add_bytes(alloc, text, bytes)
}

// The first word of a line.
fn name(line: &RecordLine) -> &'static [u8]
    ensures { result.now ≡ printed.name_of line.now }
{
    match line {
        RecordLine::Slept => b"slept",
        RecordLine::Turn { .. } => b"turn",
        RecordLine::Ask { .. } => b"ask",
        RecordLine::Land { .. } => b"land",
        RecordLine::Cii(_) => b"cii",
        RecordLine::Ts(_) => b"ts",
        RecordLine::ClosedCii | RecordLine::ClosedTs => b"closed",
        RecordLine::Report(_) => b"report",
    }
}

// The other words of a line, after its name.
fn add_words(alloc: Global, text: &mut Text, line: &RecordLine) -> Result<(), Memory>
    requires { text.old ≡ printed.name_of line.now }
    ensures { OnOk result (text.new ≡ printed.line_text line.now) }
{
    match line {
        RecordLine::Slept => Ok(()),
        RecordLine::Turn { reading } => add_number(text, *reading),
        RecordLine::Ask { reading } => add_number(text, *reading),
        RecordLine::Land { reading, bytes } => add_landing(alloc, text, *reading, bytes.bytes()),
        RecordLine::Cii(bytes) => add_bytes(alloc, text, bytes.bytes()),
        RecordLine::Ts(bytes) => add_bytes(alloc, text, bytes.bytes()),
        RecordLine::ClosedCii => add_word(text, b"cii"),
        RecordLine::ClosedTs => add_word(text, b"ts"),
        RecordLine::Report(words) => add_word(text, words.bytes()),
    }
}

/// The line of a record, without its line feed.
pub fn print_line(alloc: Global, line: &RecordLine) -> Result<Text, Memory>
    ensures { IfOk result (λ text. text ≡ printed.line_text line.now) }
{
    let mut text = Text::of(alloc, name(line))?;
    add_words(alloc, &mut text, line)?;
    Ok(text)
}

fn add_stem(text: &mut Text, stem: &[u8]) -> Result<(), Memory>
    ensures { OnOk result (text.new ≡ with_words text.old (stem_word stem.now ∷ [])) }
{
    if stem.is_empty() {
        add_word(text, b"-")
    } else {
        add_word(text, stem)
    }
}

// The words of a header after its name.
fn add_config(text: &mut Text, config: &CompanionConfig) -> Result<(), Memory>
    ensures { OnOk result (text.new ≡ with_words text.old (printed.header_words config.now)) }
{
    add_number(text, 1)?;
    add_number(text, u64::from(config.local.error))?;
    add_number(text, config.local.precision)?;
    add_word(text, config.selector.bytes())?;
    add_stem(text, config.stem.bytes())
}

/// The header of a companion's record, without its line feed.
pub fn print_header(alloc: Global, config: &CompanionConfig) -> Result<Text, Memory>
    ensures { IfOk result (λ text. text ≡ printed.header_text config.now) }
{
    let mut text = Text::of(alloc, b"css-record")?;
    add_config(&mut text, config)?;
    Ok(text)
}
