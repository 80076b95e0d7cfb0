ghost use Rattle.std.specs.Prelude.{◌≡◌, ◌<◌, ◌^◌, IfOk};
ghost use Rattle.css_num.specs.Gives.{GivesBy};
ghost use Rattle.css_schedule.specs.Words.{words_left, Reads};
ghost use Rattle.css_schedule.specs.Lines as lines;
ghost use Rattle.css_schedule.specs.declared.fault.LineFault.TheVariants as faults;

use crate::LineFault;
use crate::words::{Words, integer, number, ordinal, word};
use css_model::LIMIT;
use css_num::Kind;
use css_player::Command;
use css_tsmsg::Bound;

/// The digits that a tick or a media position has at most.
const POSITION_DIGITS: u32 = 18;

/// The digits that a speed has at most.
const SPEED_DIGITS: u32 = 3;

/// A wall time of a presentation is below this, in nanoseconds.
const WALL_LIMIT: u64 = 1 << 63;

/// A time in nanoseconds: below 2^32 seconds.
pub fn time<'a>(words: Words<'a>) -> Result<(u64, Words<'a>), LineFault>
    ensures value { Reads result (lines.time_at (words_left words.entry)) }
    ensures range { IfOk result (λ x. x.0 < LIMIT) }
{
    number(words, LIMIT)
}

/// A tick or a media position: at most 18 digits.
pub fn position<'a>(words: Words<'a>) -> Result<(i64, Words<'a>), LineFault>
    ensures { Reads result (lines.position_at (words_left words.entry)) }
{
    integer(words, POSITION_DIGITS)
}

// The kind of a session, by the word for it.
fn kind_named(word: &[u8]) -> Result<Kind, LineFault>
    ensures { GivesBy (λ kind. kind) faults.Memory result (lines.kind_of word.now) }
{
    match word {
        b"cii" => Ok(Kind::Cii),
        b"ts" => Ok(Kind::Ts),
        _ => Err(LineFault::Form),
    }
}

/// The kind of a session.
#[tactic(auto, unfolding(crate::specs::Lines::kind_at))]
pub fn kind<'a>(words: Words<'a>) -> Result<(Kind, Words<'a>), LineFault>
    ensures { Reads result (lines.kind_at (words_left words.entry)) }
{
    let (name, rest) = word(words)?;
    let kind = kind_named(name)?;
    Ok((kind, rest))
}

// A wall time below 2^63 ns.
#[tactic(auto, unfolding(crate::specs::Lines::finite_at))]
fn finite<'a>(words: Words<'a>) -> Result<(Option<u64>, Words<'a>), LineFault>
    ensures { Reads result (lines.finite_at (words_left words.entry)) }
{
    let (wall, rest) = number(words, WALL_LIMIT)?;
    Ok((Some(wall), rest))
}

// A wall time, and None where the word is the infinite one.
#[tactic(auto, unfolding(crate::specs::Lines::wall_time_at))]
fn wall_time<'a>(words: Words<'a>, infinite: &[u8]) -> Result<(Option<u64>, Words<'a>), LineFault>
    ensures { Reads result (lines.wall_time_at infinite.now (words_left words.entry)) }
{
    let (text, rest) = word(words)?;
    if text == infinite {
        return Ok((None, rest));
    }
    finite(words)
}

// The earliest bound with these times.
fn earliest_of(content: i64, wall: Option<u64>) -> Bound
    ensures { result ≡ lines.earliest_of content wall }
{
    match wall {
        Some(wall) => Bound::At { content, wall },
        None => Bound::MinusInfinity { content },
    }
}

// The latest bound with these times.
fn latest_of(content: i64, wall: Option<u64>) -> Bound
    ensures { result ≡ lines.latest_of content wall }
{
    match wall {
        Some(wall) => Bound::At { content, wall },
        None => Bound::PlusInfinity { content },
    }
}

/// The earliest bound of a presentation: a tick, and a wall time or `minusinfinity`.
#[tactic(auto, unfolding(crate::specs::Lines::earliest_at))]
pub fn earliest<'a>(words: Words<'a>) -> Result<(Bound, Words<'a>), LineFault>
    ensures { Reads result (lines.earliest_at (words_left words.entry)) }
{
    let (content, rest) = position(words)?;
    let (wall, rest) = wall_time(rest, b"minusinfinity")?;
    Ok((earliest_of(content, wall), rest))
}

/// The latest bound of a presentation: a tick, and a wall time or `plusinfinity`.
#[tactic(auto, unfolding(crate::specs::Lines::latest_at))]
pub fn latest<'a>(words: Words<'a>) -> Result<(Bound, Words<'a>), LineFault>
    ensures { Reads result (lines.latest_at (words_left words.entry)) }
{
    let (content, rest) = position(words)?;
    let (wall, rest) = wall_time(rest, b"plusinfinity")?;
    Ok((latest_of(content, wall), rest))
}

#[tactic(auto, unfolding(crate::specs::Lines::change_at))]
fn change<'a>(words: Words<'a>) -> Result<(Command, Words<'a>), LineFault>
    ensures { Reads result (lines.change_at (words_left words.entry)) }
{
    let (programme, rest) = ordinal(words)?;
    Ok((Command::Change(programme), rest))
}

#[tactic(auto, unfolding(crate::specs::Lines::speed_at))]
fn speed<'a>(words: Words<'a>) -> Result<(Command, Words<'a>), LineFault>
    ensures { Reads result (lines.speed_at (words_left words.entry)) }
{
    let (speed, rest) = integer(words, SPEED_DIGITS)?;
    Ok((Command::Speed(speed as i32), rest))
}

#[tactic(auto, unfolding(crate::specs::Lines::seek_at))]
fn seek<'a>(words: Words<'a>) -> Result<(Command, Words<'a>), LineFault>
    ensures { Reads result (lines.seek_at (words_left words.entry)) }
{
    let (media, rest) = position(words)?;
    Ok((Command::Seek(media), rest))
}

/// The viewer's command of the verb with this name: `change`, `speed` or `seek`.
#[tactic(auto, unfolding(crate::specs::Lines::command_at))]
pub fn command<'a>(name: &[u8], words: Words<'a>) -> Result<(Command, Words<'a>), LineFault>
    ensures { Reads result (lines.command_at name.now (words_left words.entry)) }
{
    if name == b"change".as_slice() {
        change(words)
    } else if name == b"speed".as_slice() {
        speed(words)
    } else if name == b"seek".as_slice() {
        seek(words)
    } else {
        Err(LineFault::Form)
    }
}
