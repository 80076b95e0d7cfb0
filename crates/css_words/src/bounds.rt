ghost use Rattle.std.specs.Prelude.{◌≡◌, ◌<◌, ◌^◌, IfOk, IfSome, option_map, position, unsigned_abs};
ghost use Rattle.css_tsmsg.specs.Presentations.{IsEarliest, IsLatest};
ghost use Rattle.css_words.specs.Bounds as bounds;

use crate::fault::WordsFault;
use css_num::{signed_number, whole_number};
use css_tsmsg::Bound;

/// The digits that a tick has at most.
const TICK_DIGITS: u32 = 18;

/// A wall time is below this, in nanoseconds.
const WALL_LIMIT: u64 = 1 << 63;

// Where the first comma is.
fn first_comma(bytes: &[u8]) -> Option<usize>
    ensures { result ≡ position bounds.is_comma bytes.now }
{
    bytes.iter().position(|byte| *byte == b',')
}

// What stands before the first comma and after it.
fn halves(bytes: &[u8]) -> Option<(&[u8], &[u8])>
    ensures { option_map (λ halves. (halves.0.now, halves.1.now)) result ≡ bounds.halves bytes.now }
{
    let comma = first_comma(bytes)?;
    Some((&bytes[..comma], &bytes[comma + 1..]))
}

// A tick of at most 18 digits.
fn tick(word: &[u8]) -> Result<i64, WordsFault>
    ensures value { result ≡ bounds.tick word.now }
    ensures small { IfOk result (λ tick. unsigned_abs tick < 10 ^ 18) }
{
    let tick = signed_number(word, TICK_DIGITS).ok_or(WordsFault::Usage)?;
    Ok(tick)
}

// A wall time below 2^63 ns, and None where the word is the infinite one.
fn wall_time(word: &[u8], infinite: &[u8]) -> Result<Option<u64>, WordsFault>
    ensures value { result ≡ bounds.wall_time infinite.now word.now }
    ensures small { IfOk result (λ wall. IfSome wall (λ wall. wall < 2 ^ 63)) }
{
    if word == infinite {
        return Ok(None);
    }
    let wall = whole_number(word, WALL_LIMIT).ok_or(WordsFault::Usage)?;
    Ok(Some(wall))
}

// The tick and the wall time that a text spells.
#[tactic(auto, unfolding(crate::specs::Bounds::times))]
fn times(text: &[u8], infinite: &[u8]) -> Result<(i64, Option<u64>), WordsFault>
    ensures value { result ≡ bounds.times infinite.now text.now }
    ensures tick { IfOk result (λ times. unsigned_abs times.0 < 10 ^ 18) }
    ensures wall { IfOk result (λ times. IfSome times.1 (λ wall. wall < 2 ^ 63)) }
{
    let Some((before, after)) = halves(text) else {
        return Err(WordsFault::Usage);
    };
    let tick = tick(before)?;
    let wall = wall_time(after, infinite)?;
    Ok((tick, wall))
}

/// The earliest time at which a companion can present: a tick, a comma, and a wall time or `minusinfinity`.
#[tactic(auto, unfolding(crate::specs::Bounds::earliest))]
pub fn earliest(text: &str) -> Result<Bound, WordsFault>
    ensures value { result ≡ bounds.earliest text.now }
    ensures range { IfOk result IsEarliest }
{
    let (content, wall) = times(text.as_bytes(), b"minusinfinity")?;
    match wall {
        Some(wall) => Ok(Bound::At { content, wall }),
        None => Ok(Bound::MinusInfinity { content }),
    }
}

/// The latest time at which a companion can present: a tick, a comma, and a wall time or `plusinfinity`.
#[tactic(auto, unfolding(crate::specs::Bounds::latest))]
pub fn latest(text: &str) -> Result<Bound, WordsFault>
    ensures value { result ≡ bounds.latest text.now }
    ensures range { IfOk result IsLatest }
{
    let (content, wall) = times(text.as_bytes(), b"plusinfinity")?;
    match wall {
        Some(wall) => Ok(Bound::At { content, wall }),
        None => Ok(Bound::PlusInfinity { content }),
    }
}
