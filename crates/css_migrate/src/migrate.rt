ghost use Rattle.std.specs.Prelude.{◌≡◌, ◌∷◌, ◌++◌, IfOk, OnOk, OnErr, position, codes};
ghost use Rattle.css_lines.specs.Answers.{Answers};
ghost use Rattle.css_schedule.specs.Words.{is_space};
ghost use Rattle.css_schedule.specs.Headers.{header_of};
ghost use Rattle.css_schedule.specs.Lines.{line_of};
ghost use Rattle.css_migrate.specs.Migrated.{first_word, other_words, fed, line_turned, header_turned};
ghost use Rattle.css_migrate.specs.Migrated.{header_becomes, line_becomes};
ghost use Rattle.css_migrate.specs.Standing.{unread_fault};

use css_lines::{LineFault, Lines};
use css_num::{Memory, Text};
use css_schedule::{Start, read_header, read_line};
use std::alloc::Global;

/// A line is outside the grammar of version 1, or a number is outside its range. A header of version 2 is told so too.
#[derive(Clone, Copy, Debug, PartialEq, Eq)]
pub struct NoLine;

/// Writes for each line of a schedule of version 1 what it becomes in version 2. It reads each line before it writes.
#[derive(Drop)]
pub struct Migrate {
    alloc: Global,
    /// Whether the header was taken.
    opened: bool,
}

const LONGEST_LINE: usize = 4096;

const LONGEST_INPUT: u64 = 67_108_864;

const FIRST: u32 = 1;

const COMPANIONS: u32 = 1;

// What the engine is told of a line that was not read.
fn unread(fault: css_schedule::LineFault) -> LineFault<NoLine>
    ensures { result ≡ unread_fault fault }
{
    match fault {
        css_schedule::LineFault::Form => LineFault::Refused(NoLine),
        css_schedule::LineFault::Memory => LineFault::Memory,
    }
}

// Adds a text and a line feed to the output: both, or nothing.
fn put(text: &mut Text, out: &mut Vec<u8>) -> Result<(), Memory>
    ensures ok { OnOk result (out.new.items ≡ out.old.items ++ fed text.old) }
    ensures err { OnErr result (out.new.items ≡ out.old.items) }
{
    text.push(b"\n")?;
    out.extend_from_slice(text.bytes())?;
    Ok(())
}

// Where the first space is.
fn first_space(text: &[u8]) -> Option<usize>
    ensures { result ≡ position is_space text.now }
{
    text.iter().position(|byte| *byte == b' ')
}

// The first word of a text, and the words after it.
fn cut(text: &[u8]) -> (&[u8], &[u8])
    ensures first { result.0.now ≡ first_word text.now }
    ensures others { result.1.now ≡ other_words text.now }
{
    match first_space(text) {
        None => (text, &[]),
        Some(space) => (&text[..space], &text[space + 1..]),
    }
}

// Puts the number of the companion behind the two times that a line begins with.
fn put_line(alloc: Global, text: &[u8], out: &mut Vec<u8>) -> Result<(), Memory>
    ensures ok { OnOk result (out.new.items ≡ out.old.items ++ fed (line_turned text.now)) }
    ensures err { OnErr result (out.new.items ≡ out.old.items) }
{
    let (time, rest) = cut(text);
    let (wall, rest) = cut(rest);
    let mut line = Text::of(alloc, time)?;
    line.push(b" ")?;
    line.push(wall)?;
    line.push(b" 1 ")?;
    line.push(rest)?;
    put(&mut line, out)
}

// Three words of the television's, with a space between two of them.
fn declared(alloc: Global, mode: &[u8], error: &[u8], precision: &[u8]) -> Result<Text, Memory>
    ensures { IfOk result (λ words. words ≡ mode.now ++ 32 ∷ (error.now ++ 32 ∷ precision.now)) }
{
    let mut words = Text::of(alloc, mode)?;
    words.push(b" ")?;
    words.push(error)?;
    words.push(b" ")?;
    words.push(precision)?;
    Ok(words)
}

// The header's line and that of its companion.
fn header_lines(alloc: Global, declared: &[u8], companion: &[u8]) -> Result<Text, Memory>
    ensures { IfOk result (λ lines. lines ≡ codes "css-schedule 2 " ++ declared.now
        ++ (codes " 1" ++ 10 ∷ codes "companion 1 ") ++ companion.now) }
{
    let mut lines = Text::of(alloc, b"css-schedule 2 ")?;
    lines.push(declared)?;
    lines.push(b" 1\ncompanion 1 ")?;
    lines.push(companion)?;
    Ok(lines)
}

// Puts what the television declares into one line, and what its companion does into another.
fn put_header(alloc: Global, text: &[u8], out: &mut Vec<u8>) -> Result<(), Memory>
    ensures ok { OnOk result (out.new.items ≡ out.old.items ++ fed (header_turned text.now)) }
    ensures err { OnErr result (out.new.items ≡ out.old.items) }
{
    let (_, rest) = cut(text);
    let (_, rest) = cut(rest);
    let (mode, rest) = cut(rest);
    let (error, rest) = cut(rest);
    let (precision, rest) = cut(rest);
    let words = declared(alloc, mode, error, precision)?;
    let mut lines = header_lines(alloc, words.bytes(), rest)?;
    put(&mut lines, out)
}

// Reads line 1, and adds what it becomes.
fn open(alloc: Global, text: &[u8], out: &mut Vec<u8>) -> Result<(), LineFault<NoLine>>
    ensures { Answers (header_becomes text.now (header_of text.now)) out.old.items out.new.items result }
{
    match read_header(alloc, text) {
        Ok(Start::One(_)) => match put_header(alloc, text, out) {
            Ok(()) => Ok(()),
            Err(_) => Err(LineFault::Memory),
        },
        Ok(Start::Two { .. }) => Err(LineFault::Refused(NoLine)),
        Err(fault) => Err(unread(fault)),
    }
}

// Reads another line, and adds what it becomes.
fn go_on(alloc: Global, text: &[u8], out: &mut Vec<u8>) -> Result<(), LineFault<NoLine>>
    ensures { Answers (line_becomes text.now (line_of text.now)) out.old.items out.new.items result }
{
    match read_line(alloc, text, FIRST, COMPANIONS) {
        Ok(_) => match put_line(alloc, text, out) {
            Ok(()) => Ok(()),
            Err(_) => Err(LineFault::Memory),
        },
        Err(fault) => Err(unread(fault)),
    }
}

impl Migrate {
    ghost use Rattle.std.specs.Prelude.{[]};
    ghost use Rattle.css_migrate.specs.Standing.{Stands};

    /// No line was taken yet.
    pub fn new(alloc: Global) -> Migrate
        ensures { Stands result [] }
    {
        Migrate {
            alloc,
            opened: false,
        }
    }
}

impl Lines for Migrate {
    ghost use Rattle.css_migrate.specs.Migrated.{migrated};
    ghost use Rattle.css_migrate.specs.Standing.{Stands};

    type Cause = NoLine;

    ghost meaning = { migrated };

    ghost stands = { Stands };

    fn longest_line(&self) -> usize {
        LONGEST_LINE
    }

    fn longest_input(&self) -> u64 {
        LONGEST_INPUT
    }

    fn line(
        &mut self,
        _number: u64,
        text: &[u8],
        out: &mut Vec<u8>,
    ) -> Result<(), LineFault<NoLine>> {
        if self.opened {
            go_on(self.alloc, text, out)
        } else {
            open(self.alloc, text, out)?;
            self.opened = true;
            Ok(())
        }
    }

    fn finish(&mut self, _out: &mut Vec<u8>) -> Result<(), LineFault<NoLine>> {
        if self.opened {
            Ok(())
        } else {
            Err(LineFault::Refused(NoLine))
        }
    }
}
