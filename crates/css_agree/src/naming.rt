ghost use Rattle.std.specs.Prelude.{◌≡◌, ◌+◌, ◌<◌, ◌++◌, List, [], ◌∷◌, ℕ, length, Ok, OnOk, OnErr, IfErr};
ghost use Rattle.css_model.specs.WallClock.{Local as Own};
ghost use Rattle.css_lines.specs.Answers.{MayFault};
ghost use Rattle.css_lines.specs.declared.reader.LineFault.TheVariants as faults;
ghost use Rattle.css_agree.specs.Inputs.{line_of, reading_of};
ghost use Rattle.css_agree.specs.Keeping.{StandsFor};
ghost use Rattle.css_agree.specs.Naming.{answers_of, between_text, numbers_text};
ghost use Rattle.css_agree.specs.NamesKept.{KeepsNames, NamesStand, StandsNamed};
ghost use Rattle.css_agree.specs.Naming.{line_names, named_after, named_in, names_meant, naming, read_names};
ghost use Rattle.css_agree.specs.Agreeing.{Numbered, read_meant, with_line};
ghost use Rattle.css_agree.specs.declared.input.AnswerLine.TheVariants as lines;
ghost use Rattle.css_agree.specs.declared.named.Named.{Named as NamedAnswer};

use crate::agree::Agree;
use crate::input::{AnswerLine, read_line};
use crate::named::{End, Named, keep_named, number_of_best};
use crate::printing::print_words;
use crate::reader::{Agreeing, Cause, unread};
use css_lines::{LineFault, Lines};
use css_model::LIMIT;
use css_num::Memory;
use css_span::{Answer, Local, scaled_width};
use std::alloc::{AllocError, Global};

/// What is kept of the answers of lines, to name two of them: for each declared error the first with the best end.
#[derive(Drop)]
pub(crate) struct Names {
    lows: Vec<Named>,
    highs: Vec<Named>,
}

/// Reads lines of answers as `Agreeing` does, and prints one line more where they disagree: the numbers of the two
/// lines whose answers contradict each other.
#[derive(Drop)]
pub struct Naming {
    alloc: Global,
    agreeing: Agreeing,
    names: Names,
}

// Takes in an answer that is possible at its landing.
fn add_name(names: &mut Names, local: &Local, number: u64, answer: Answer) -> Result<(), Memory>
    requires { answer.t4 < LIMIT }
    ensures { OnOk result ((named : List NamedAnswer) → KeepsNames local.now names.old named
        → KeepsNames local.now names.new (named_after local.now number (lines.Answer answer) named)) }
{
    if scaled_width(&answer, local, answer.t4) < 0 {
        return Ok(());
    }
    let named = Named { number, answer };
    keep_named(End::Low, &mut names.lows, local, &named, answer.t4)?;
    keep_named(End::High, &mut names.highs, local, &named, answer.t4)
}

// Adds the line of two numbers, if there are two.
fn print_numbers(
    alloc: Global,
    number: u64,
    low: Option<u64>,
    high: Option<u64>,
    out: &mut Vec<u8>,
) -> Result<(), AllocError>
    ensures { OnOk result (out.new.items ≡ out.old.items ++ numbers_text number low high) }
{
    let Some(low) = low else {
        return Ok(());
    };
    let Some(high) = high else {
        return Ok(());
    };
    let line = format!(in alloc; "{number} between {low} {high}\n")?;
    out.extend_from_slice(line.as_bytes())
}

// Prints which two lines contradict each other at a reading, where the answers disagree.
fn print_names(
    alloc: Global,
    agree: &Agree,
    names: &Names,
    number: u64,
    reading: u64,
    out: &mut Vec<u8>,
) -> Result<(), AllocError>
    requires { reading < LIMIT }
    ensures { OnOk result ((named : List NamedAnswer) → StandsFor agree.now (answers_of named)
        → KeepsNames agree.now.local names.now named
        → out.new.items ≡ out.old.items ++ between_text agree.now.local number reading named) }
{
    if !agree.contradicts(reading) {
        return Ok(());
    }
    let low = number_of_best(End::Low, &names.lows, agree.local(), reading);
    let high = number_of_best(End::High, &names.highs, agree.local(), reading);
    print_numbers(alloc, number, low, high, out)
}

// Takes in a line that was read, and prints what is printed behind its text.
fn name_line(
    alloc: Global,
    agree: &Agree,
    names: &mut Names,
    number: u64,
    line: AnswerLine,
    out: &mut Vec<u8>,
) -> Result<(), LineFault<Cause>>
    requires { reading_of line < LIMIT }
    ensures memory { IfErr result (λ fault. fault ≡ faults.Memory) }
    ensures printed { OnOk result ((named : List NamedAnswer) → StandsFor agree.now (answers_of named)
        → KeepsNames agree.now.local names.old named
        → out.new.items ≡ out.old.items ++ line_names agree.now.local number line named) }
    ensures names { OnOk result ((named : List NamedAnswer) → KeepsNames agree.now.local names.old named
        → KeepsNames agree.now.local names.new (named_after agree.now.local number line named)) }
{
    match line {
        AnswerLine::Answer(answer) => match add_name(names, agree.local(), number, answer) {
            Ok(()) => Ok(()),
            Err(_) => Err(LineFault::Memory),
        },
        AnswerLine::At { reading } => {
            match print_names(alloc, agree, names, number, reading, out) {
                Ok(()) => Ok(()),
                Err(_) => Err(LineFault::Memory),
            }
        }
    }
}

// The same of a line as it is written.
fn name_text(
    alloc: Global,
    agree: &Agree,
    names: &mut Names,
    number: u64,
    text: &[u8],
    out: &mut Vec<u8>,
) -> Result<(), LineFault<Cause>>
    ensures fault { (older : List Numbered)
        → IfErr result (MayFault (read_meant agree.now.local older number (line_of text.now))) }
    ensures printed { OnOk result ((older : List Numbered)
        → StandsFor agree.now (answers_of (named_in agree.now.local older))
        → KeepsNames agree.now.local names.old (named_in agree.now.local older)
        → out.new.items ≡ out.old.items ++ read_names agree.now.local older number (line_of text.now)) }
    ensures names { OnOk result ((older : List Numbered)
        → KeepsNames agree.now.local names.old (named_in agree.now.local older)
        → KeepsNames agree.now.local names.new
        (named_in agree.now.local (with_line number older (line_of text.now)))) }
{
    match read_line(text) {
        Ok(line) => name_line(alloc, agree, names, number, line, out),
        Err(fault) => Err(unread(fault)),
    }
}

// Adds one text and another behind it, or nothing.
fn print_both(printed: &mut Vec<u8>, more: &[u8], out: &mut Vec<u8>) -> Result<(), AllocError>
    ensures ok { OnOk result (out.new.items ≡ out.old.items ++ printed.old.items ++ more.now) }
    ensures err { OnErr result (out.new.items ≡ out.old.items) }
{
    printed.extend_from_slice(more)?;
    out.extend_from_slice(printed)
}

impl Naming {
    /// No line was taken yet.
    pub fn new(alloc: Global) -> Naming
        ensures { StandsNamed result [] }
    {
        Naming {
            alloc,
            agreeing: Agreeing::new(alloc),
            names: Names {
                lows: Vec::new(alloc),
                highs: Vec::new(alloc),
            },
        }
    }

    // Takes in a line, of which the reader without names doesn't know yet, and prints what is printed behind its text.
    fn name(&mut self, number: u64, text: &[u8], out: &mut Vec<u8>) -> Result<(), LineFault<Cause>>
        ensures same { self.new.agreeing ≡ self.old.agreeing }
        ensures fault { (before : List (List ℕ)) → StandsNamed self.old before → number ≡ length before + 1
            → IfErr result (MayFault (naming.line before text.now)) }
        ensures printed { OnOk result ((before : List (List ℕ)) → StandsNamed self.old before
            → number ≡ length before + 1 → out.new.items ≡ out.old.items ++ names_meant before text.now) }
        ensures names { OnOk result ((before : List (List ℕ)) → StandsNamed self.old before
            → number ≡ length before + 1 → NamesStand self.new.names (before ++ text.now ∷ [])) }
    {
        match &self.agreeing.agree {
            None => Ok(()),
            Some(agree) => name_text(self.alloc, agree, &mut self.names, number, text, out),
        }
    }
}

impl Lines for Naming {
    ghost use Rattle.std.specs.Prelude.{◌≡◌, ◌+◌, ◌^◌, ◌≤◌, [], ◌∷◌, ◌++◌, List, ℕ, length, OnOk};
    ghost use Rattle.css_agree.specs.Naming.{naming};
    ghost use Rattle.css_agree.specs.NamesKept.{StandsNamed};

    type Cause = Cause;

    ghost meaning = { naming };

    ghost stands = { StandsNamed };

    fn longest_line(&self) -> usize {
        self.agreeing.longest_line()
    }

    fn longest_input(&self) -> u64 {
        self.agreeing.longest_input()
    }

    fn line(
        &mut self,
        number: u64,
        text: &[u8],
        out: &mut Vec<u8>,
    ) -> Result<(), LineFault<Cause>> {
        let mut more = Vec::new(self.alloc);
        self.name(number, text, &mut more)?;
        let mut printed = Vec::new(self.alloc);
        self.agreeing.line(number, text, &mut printed)?;
        match print_both(&mut printed, &more, out) {
            Ok(()) => Ok(()),
            Err(_) => Err(LineFault::Memory),
        }
    }

    fn finish(&mut self, out: &mut Vec<u8>) -> Result<(), LineFault<Cause>> {
        self.agreeing.finish(out)
    }
}
