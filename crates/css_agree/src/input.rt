ghost use Rattle.std.specs.Prelude.{◌≡◌, ◌≤◌, ◌<◌, IfOk};
ghost use Rattle.css_num.specs.Gives.{GivesBy};
ghost use Rattle.css_model.specs.Numbers.{max_error, max_local_error, max_local_precision};
ghost use Rattle.css_schedule.specs.Words.{words_left, Reads};
ghost use Rattle.css_schedule.specs.declared.fault.LineFault.TheVariants as faults;
ghost use Rattle.css_agree.specs.Inputs as inputs;

use css_model::LIMIT;
use css_schedule::LineFault;
use css_schedule::words::{Words, all_words, finish, number, signed, skip, word};
use css_span::{Answer, Local};
use css_wc::precision_ns;

/// The greatest max_freq_error that an answer declares, in 1/256 ppm.
const MAX_ERROR: u64 = 25_600_000;

/// The greatest error of the companion's oscillator, in 1/256 ppm.
const MAX_LOCAL_ERROR: u64 = 2_560_000;

/// The worst precision of the companion's readings, in nanoseconds.
const MAX_LOCAL_PRECISION: u64 = 1_000_000_000;

/// The range of a precision's exponent, and the digits that it may have.
const MIN_EXPONENT: i64 = -128;

const MAX_EXPONENT: i64 = 30;

const EXPONENT_DIGITS: u32 = 3;

/// A line of answers after the header.
#[derive(Clone, Copy)]
pub enum AnswerLine {
    /// `answer T1 T2 T3 T4 K E`: an answer. Its reading is that of its landing.
    Answer(Answer),
    /// `at R`: asks what the answers before it say at this reading of the companion's clock.
    At { reading: u64 },
}

impl AnswerLine {
    /// The companion's reading at this line, in nanoseconds.
    pub fn reading(&self) -> u64
        ensures value { result ≡ inputs.reading_of self.now }
    {
        match self {
            AnswerLine::Answer(answer) => answer.t4,
            AnswerLine::At { reading } => *reading,
        }
    }
}

// A time in nanoseconds, below 2^32 seconds.
fn time<'a>(words: Words<'a>) -> Result<(u64, Words<'a>), LineFault>
    ensures value { Reads result (inputs.time_at (words_left words.entry)) }
    ensures below { IfOk result (λ x. x.0 < LIMIT) }
{
    number(words, LIMIT)
}

// What an answer declares: its precision in nanoseconds, by the exponent, and its error.
#[tactic(auto, unfolding(crate::specs::Inputs::declared_at))]
fn declaration<'a>(words: Words<'a>) -> Result<((u64, u32), Words<'a>), LineFault>
    ensures value { Reads result (inputs.declared_at (words_left words.entry)) }
    ensures range { IfOk result (λ x. inputs.IsDeclared x.0.0 x.0.1) }
{
    let (exponent, rest) = signed(words, EXPONENT_DIGITS, MIN_EXPONENT, MAX_EXPONENT)?;
    let (error, rest) = number(rest, MAX_ERROR + 1)?;
    Ok(((precision_ns(exponent as i8), error as u32), rest))
}

#[tactic(auto, unfolding(crate::specs::Inputs::answer_of))]
fn answer(words: Words<'_>) -> Result<AnswerLine, LineFault>
    ensures value { GivesBy (λ x. x) faults.Memory result (inputs.answer_of (words_left words.entry)) }
    ensures range { IfOk result (λ line. inputs.reading_of line < LIMIT) }
{
    let (t1, rest) = time(words)?;
    let (t2, rest) = time(rest)?;
    let (t3, rest) = time(rest)?;
    let (t4, rest) = time(rest)?;
    let ((precision, error), rest) = declaration(rest)?;
    finish(rest)?;
    Ok(AnswerLine::Answer(Answer {
        t1,
        t2,
        t3,
        t4,
        precision,
        error,
    }))
}

#[tactic(auto, unfolding(crate::specs::Inputs::question_of))]
fn question(words: Words<'_>) -> Result<AnswerLine, LineFault>
    ensures value { GivesBy (λ x. x) faults.Memory result (inputs.question_of (words_left words.entry)) }
    ensures range { IfOk result (λ line. inputs.reading_of line < LIMIT) }
{
    let (reading, rest) = time(words)?;
    finish(rest)?;
    Ok(AnswerLine::At { reading })
}

// The line with this name and these words after it.
#[tactic(auto, unfolding(crate::specs::Inputs::named))]
fn named(name: &[u8], words: Words<'_>) -> Result<AnswerLine, LineFault>
    ensures value { GivesBy (λ x. x) faults.Memory result (inputs.named name.now (words_left words.entry)) }
    ensures range { IfOk result (λ line. inputs.reading_of line < LIMIT) }
{
    if name == b"answer".as_slice() {
        answer(words)
    } else if name == b"at".as_slice() {
        question(words)
    } else {
        Err(LineFault::Form)
    }
}

#[tactic(auto, unfolding(crate::specs::Inputs::line_of_words))]
fn line(words: Words<'_>) -> Result<AnswerLine, LineFault>
    ensures value { GivesBy (λ x. x) faults.Memory result (inputs.line_of_words (words_left words.entry)) }
    ensures range { IfOk result (λ line. inputs.reading_of line < LIMIT) }
{
    let (name, rest) = word(words)?;
    named(name, rest)
}

#[tactic(auto, unfolding(crate::specs::Inputs::local_of_words))]
fn local(words: Words<'_>) -> Result<Local, LineFault>
    ensures { GivesBy (λ x. x) faults.Memory result (inputs.local_of_words (words_left words.entry)) }
{
    let rest = skip(words, b"css-agree")?;
    let rest = skip(rest, b"1")?;
    let (error, rest) = number(rest, MAX_LOCAL_ERROR + 1)?;
    let (precision, rest) = number(rest, MAX_LOCAL_PRECISION + 1)?;
    finish(rest)?;
    Ok(Local {
        error: error as u32,
        precision,
    })
}

/// Reads the header of answers, `css-agree 1 EL PL`, without its line feed.
///
/// EL is the error of the companion's oscillator, in 1/256 ppm and at most 2,560,000. PL is the precision of its
/// readings, in nanoseconds and at most a second. Anything else is `Form`.
pub fn read_header(bytes: &[u8]) -> Result<Local, LineFault>
    ensures { GivesBy (λ x. x) faults.Memory result (inputs.local_of bytes.now) }
{
    local(all_words(bytes))
}

/// Reads a line of answers after the header, without its line feed.
///
/// - `answer T1 T2 T3 T4 K E`: the originate, receive and transmit times and the landing's reading, in nanoseconds
///   below 2^32 seconds; the television's precision as the base-2 logarithm of seconds, -128 to 30; and its
///   max_freq_error, in 1/256 ppm and at most 25,600,000.
/// - `at R`: a reading of the companion's clock, in nanoseconds below 2^32 seconds.
///
/// Anything else is `Form`.
pub fn read_line(bytes: &[u8]) -> Result<AnswerLine, LineFault>
    ensures value { GivesBy (λ x. x) faults.Memory result (inputs.line_of bytes.now) }
    ensures range { IfOk result (λ line. inputs.reading_of line < LIMIT) }
{
    line(all_words(bytes))
}
