//! The first word of a line that can't stand where it does.

use crate::forms::Form;
use crate::grammar::Grammar;
use std::fmt;

/// What may stand at a place of a line.
#[derive(Clone, Copy)]
enum Wanted {
    Word(Form),
    /// One of these verbs.
    Verb(&'static str),
    /// The line ends before it.
    Nothing,
}

/// A word that can't stand where it does.
#[derive(Clone, Copy)]
pub(crate) struct Misfit<'a> {
    /// Its number, counted from 1.
    number: usize,
    /// None where the line ends before it.
    word: Option<&'a str>,
    wanted: Wanted,
}

/// Reads a line word by word.
#[derive(Drop)]
struct Walk<'a> {
    /// The words that are still to be read.
    rest: Option<&'a str>,
    /// How many words were read.
    number: usize,
}

impl<'a> Walk<'a> {
    /// The next word, if there is one.
    fn next_word(&self) -> Option<&'a str> {
        let rest = self.rest?;
        match rest.split_once(' ') {
            Some((word, _)) => Some(word),
            None => Some(rest),
        }
    }

    /// Reads the next word.
    fn pass(&mut self) {
        self.rest = match self.rest {
            Some(rest) => match rest.split_once(' ') {
                Some((_, rest)) => Some(rest),
                None => None,
            },
            None => None,
        };
        self.number = self.number.saturating_add(1);
    }

    /// What is wrong with the next word, where this may stand there.
    fn misfit(&self, wanted: Wanted) -> Misfit<'a> {
        Misfit {
            number: self.number.saturating_add(1),
            word: self.next_word(),
            wanted,
        }
    }

    /// Reads words of these forms.
    fn check_words(&mut self, names: &'static str) -> Result<(), Misfit<'a>> {
        for name in names.split(' ') {
            let form = Form::named(name);
            match self.next_word() {
                Some(word) if form.fits(word) => self.pass(),
                _ => return Err(self.misfit(Wanted::Word(form))),
            }
        }
        Ok(())
    }

    /// Reads a verb and what stands behind it.
    fn check_verb(&mut self, grammar: Grammar) -> Result<(), Misfit<'a>> {
        let verb = self.next_word().unwrap_or("");
        match grammar.verb(verb) {
            Some(names) => self.check_words(names),
            None => Err(self.misfit(Wanted::Verb(grammar.verbs()))),
        }
    }

    /// That no word is left.
    fn check_end(&self) -> Result<(), Misfit<'a>> {
        match self.rest {
            Some(_) => Err(self.misfit(Wanted::Nothing)),
            None => Ok(()),
        }
    }
}

/// Reads the line with this number, counted from 1.
fn check_line<'a>(grammar: Grammar, number: u64, line: &'a str) -> Result<(), Misfit<'a>> {
    let mut walk = Walk {
        rest: Some(line),
        number: 0,
    };
    if let Some(names) = grammar.whole(number, line) {
        walk.check_words(names)?;
        return walk.check_end();
    }
    if let Some(names) = grammar.front(line) {
        walk.check_words(names)?;
    }
    walk.check_verb(grammar)?;
    walk.check_end()
}

/// The first word of the line with this number that can't stand where it does. None where none was found.
pub(crate) fn first_misfit<'a>(grammar: Grammar, number: u64, line: &'a str) -> Option<Misfit<'a>> {
    if grammar.is_free(line) {
        return None;
    }
    check_line(grammar, number, line).err()
}

impl fmt::Display for Wanted {
    fn fmt<W: fmt::Write>(&self, f: &mut fmt::Formatter<W>) -> fmt::Result {
        match *self {
            Wanted::Word(form) => write!(f, "{form}"),
            Wanted::Verb(verbs) => f.write_str(verbs),
            Wanted::Nothing => f.write_str("nothing"),
        }
    }
}

impl fmt::Display for Misfit<'_> {
    fn fmt<W: fmt::Write>(&self, f: &mut fmt::Formatter<W>) -> fmt::Result {
        let number = self.number;
        let wanted = self.wanted;
        match self.word {
            None => write!(f, "word {number} is missing; it may be {wanted}"),
            Some("") => write!(f, "word {number} is empty; it may be {wanted}"),
            Some(word) => match wanted {
                Wanted::Nothing => write!(f, "the line ends before word {number}, which is {word}"),
                _ => write!(f, "word {number} may be {wanted}, and is {word}"),
            },
        }
    }
}
