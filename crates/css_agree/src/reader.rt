ghost use Rattle.std.specs.Prelude.{◌≡◌, ◌≤◌, ◌<◌, List, Ok, OnOk, IfOk};
ghost use Rattle.css_lines.specs.Answers.{Answers};
ghost use Rattle.css_span.specs.Frontiers.{Answers as Added};
ghost use Rattle.css_agree.specs.Agreeing.{Numbered, line_text, after_line, read_meant, with_line};
ghost use Rattle.css_agree.specs.Inputs.{line_of, reading_of};
ghost use Rattle.css_agree.specs.Keeping.{StandsFor};
ghost use Rattle.css_agree.specs.Reading.{Keeps, Opens, order_of, unread_fault};
ghost use Rattle.css_agree.specs.declared.input.AnswerLine.TheVariants as lines;

use crate::agree::Agree;
use crate::fault::AgreeFault;
use crate::input::{AnswerLine, read_header, read_line};
use crate::printing::{print_agreed, print_words};
use css_lines::{LineFault, Lines};
use css_model::LIMIT;
use css_span::Answer;
use std::alloc::Global;

/// Why a line of answers is refused.
#[derive(Clone, Copy, Debug, PartialEq, Eq)]
pub enum Cause {
    /// It is outside the grammar, or a number is outside its range.
    Form,
    /// Its reading is below that of the line with the earlier number, by so many nanoseconds.
    Broken { earlier: u64, excess: i128 },
}

/// Reads lines of answers: adds each answer, and prints what the answers before it say where a line asks for it.
#[derive(Drop)]
pub struct Agreeing {
    alloc: Global,
    pub(crate) agree: Option<Agree>,
    /// The number of the last line that was taken.
    last: u64,
    /// Its reading.
    reading: u64,
}

const LONGEST_LINE: usize = 4096;

const LONGEST_INPUT: u64 = 67_108_864;

// What the engine is told of a line that was not read.
pub(crate) fn unread(fault: css_schedule::LineFault) -> LineFault<Cause>
    ensures { result ≡ unread_fault fault }
{
    match fault {
        css_schedule::LineFault::Form => LineFault::Refused(Cause::Form),
        css_schedule::LineFault::Memory => LineFault::Memory,
    }
}

// Opens the agreement of a header.
fn open(alloc: Global, text: &[u8]) -> Result<Agree, LineFault<Cause>>
    ensures { Opens text.now result }
{
    match read_header(text) {
        Ok(local) => Ok(Agree::new(alloc, local)),
        Err(fault) => Err(unread(fault)),
    }
}

// A reading isn't below that of the line before.
fn check_order(earlier: u64, last: u64, reading: u64) -> Result<(), LineFault<Cause>>
    ensures { result ≡ order_of earlier last reading }
{
    if reading < last {
        return Err(LineFault::Refused(Cause::Broken {
            earlier,
            excess: i128::from(last - reading),
        }));
    }
    Ok(())
}

// Adds an answer at its landing, and prints where it is impossible.
fn add(
    alloc: Global,
    agree: &mut Agree,
    number: u64,
    answer: Answer,
    out: &mut Vec<u8>,
) -> Result<(), LineFault<Cause>>
    requires range { answer.t4 < LIMIT }
    requires floor { agree.old.floor ≤ answer.t4 }
    ensures local { agree.new.local ≡ agree.old.local }
    ensures floor { agree.new.floor ≤ answer.t4 }
    ensures answers { (added : Added) → StandsFor agree.old added
        → Answers (Ok (line_text agree.old.local number (lines.Answer answer) added))
        out.old.items out.new.items result }
    ensures stands { OnOk result ((added : Added) → StandsFor agree.old added
        → StandsFor agree.new (after_line agree.old.local (lines.Answer answer) added)) }
{
    let reading = answer.t4;
    match agree.add(answer, reading) {
        Ok(()) => Ok(()),
        Err(AgreeFault::Impossible(_)) => {
            match print_words(alloc, number, " impossible\n", out) {
                Ok(()) => Ok(()),
                Err(_) => Err(LineFault::Memory),
            }
        }
        Err(AgreeFault::Memory) => Err(LineFault::Memory),
    }
}

// Prints what the answers say at a reading.
fn tell(
    alloc: Global,
    agree: &Agree,
    number: u64,
    reading: u64,
    out: &mut Vec<u8>,
) -> Result<(), LineFault<Cause>>
    requires { reading < LIMIT }
    ensures { (added : Added) → StandsFor agree.now added
        → Answers (Ok (line_text agree.now.local number (lines.At reading) added)) out.old.items out.new.items result }
{
    let agreed = agree.at(reading);
    match print_agreed(alloc, number, &agreed, agree.local(), reading, out) {
        Ok(()) => Ok(()),
        Err(_) => Err(LineFault::Memory),
    }
}

// Carries out a line that was read.
fn carry_out(
    alloc: Global,
    agree: &mut Agree,
    number: u64,
    line: AnswerLine,
    out: &mut Vec<u8>,
) -> Result<(), LineFault<Cause>>
    requires range { reading_of line < LIMIT }
    requires floor { agree.old.floor ≤ reading_of line }
    ensures local { agree.new.local ≡ agree.old.local }
    ensures floor { agree.new.floor ≤ reading_of line }
    ensures answers { (added : Added) → StandsFor agree.old added
        → Answers (Ok (line_text agree.old.local number line added)) out.old.items out.new.items result }
    ensures stands { OnOk result ((added : Added) → StandsFor agree.old added
        → StandsFor agree.new (after_line agree.old.local line added)) }
{
    match line {
        AnswerLine::Answer(answer) => add(alloc, agree, number, answer, out),
        AnswerLine::At { reading } => tell(alloc, agree, number, reading, out),
    }
}

// Reads a line that isn't the header, and carries it out. It gives the line's reading.
fn take_line(
    alloc: Global,
    agree: &mut Agree,
    earlier: u64,
    last: u64,
    number: u64,
    text: &[u8],
    out: &mut Vec<u8>,
) -> Result<u64, LineFault<Cause>>
    requires keeps { (older : List Numbered) × Keeps agree.old older earlier last }
    ensures local { agree.new.local ≡ agree.old.local }
    ensures answers { (older : List Numbered) → Keeps agree.old older earlier last
        → Answers (read_meant agree.old.local older number (line_of text.now)) out.old.items out.new.items result }
    ensures keeps { IfOk result (λ reading. (older : List Numbered) → Keeps agree.old older earlier last
        → Keeps agree.new (with_line number older (line_of text.now)) number reading) }
{
    let line = match read_line(text) {
        Ok(line) => line,
        Err(fault) => return Err(unread(fault)),
    };
    let reading = line.reading();
    check_order(earlier, last, reading)?;
    carry_out(alloc, agree, number, line, out)?;
    Ok(reading)
}

impl Agreeing {
    ghost use Rattle.std.specs.Prelude.{[]};
    ghost use Rattle.css_agree.specs.Reading.{Stands};

    /// No line was taken yet.
    pub fn new(alloc: Global) -> Agreeing
        ensures { Stands result [] }
    {
        Agreeing {
            alloc,
            agree: None,
            last: 0,
            reading: 0,
        }
    }
}

impl Lines for Agreeing {
    ghost use Rattle.std.specs.Prelude.{◌≡◌, ◌+◌, ◌^◌, ◌≤◌, [], ◌∷◌, ◌++◌, List, ℕ, length, OnOk};
    ghost use Rattle.css_agree.specs.Agreeing.{agreeing};
    ghost use Rattle.css_agree.specs.Reading.{Stands};

    type Cause = Cause;

    ghost meaning = { agreeing };

    ghost stands = { Stands };

    fn longest_line(&self) -> usize {
        LONGEST_LINE
    }

    fn longest_input(&self) -> u64 {
        LONGEST_INPUT
    }

    fn line(
        &mut self,
        number: u64,
        text: &[u8],
        out: &mut Vec<u8>,
    ) -> Result<(), LineFault<Cause>> {
        let earlier = self.last;
        self.last = number;
        match &mut self.agree {
            None => self.agree = Some(open(self.alloc, text)?),
            Some(agree) => {
                self.reading = take_line(
                    self.alloc,
                    agree,
                    earlier,
                    self.reading,
                    number,
                    text,
                    out,
                )?;
            }
        }
        Ok(())
    }

    fn finish(&mut self, _out: &mut Vec<u8>) -> Result<(), LineFault<Cause>> {
        if self.agree.is_none() {
            return Err(LineFault::Refused(Cause::Form));
        }
        Ok(())
    }
}
