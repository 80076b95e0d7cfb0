ghost use Rattle.std.specs.Prelude.{◌≡◌, ◌≤◌, ◌<◌, length, take, ℕ, IfOk, IfSome, Some, pos, ◌≤ℤ◌, IsTrue, ◌↔◌, []};
ghost use Rattle.std.specs.Prelude.{◌∷◌, ◌^◌, position, unsigned_abs};
ghost use Rattle.std.specs.Option.{option_copied};
ghost use Rattle.std.specs.List.{list_all};
ghost use Rattle.css_num.specs.Gives.{GivesBy};
ghost use Rattle.css_num.specs.Words.{digits_after, has_leading_zero};
ghost use Rattle.css_schedule.specs.Words.{words_left, Reads, is_space, words_of, words_in, is_graphic, is_word};
ghost use Rattle.css_schedule.specs.Words.{SpellsFirst, word_at, text_at, number_at, ordinal_at, integer_at, signed_at};
ghost use Rattle.css_schedule.specs.Words.{after_word, all_read};
ghost use Rattle.css_schedule.specs.declared.fault.LineFault.TheVariants as faults;

use crate::LineFault;
use css_num::{signed_number, whole_number};

const SPACE: u8 = b' ';

/// The numbers of requests, takes, datagrams and programmes are below this.
const ORDINAL_LIMIT: u64 = 1 << 32;

/// A number of so many digits is below 2^64, whatever they are.
const QUICK_DIGITS: usize = 19;

/// The words of a line that are still to be read.
#[derive(Clone, Copy)]
pub struct Words<'a> {
    rest: Option<&'a [u8]>,
}

/// All words of a line.
pub fn all_words(bytes: &[u8]) -> Words<'_>
    ensures { words_left result ≡ words_of bytes.now }
{
    Words { rest: Some(bytes) }
}

// Where the first space is.
fn first_space(bytes: &[u8]) -> Option<usize>
    ensures { result ≡ position is_space bytes.now }
{
    bytes.iter().position(|byte| *byte == SPACE)
}

// The first word of bytes, and what stands after the space that ends it.
fn split(bytes: &[u8]) -> (&[u8], Option<&[u8]>)
    ensures { words_of bytes.now ≡ result.0.now ∷ words_in (option_copied result.1) }
{
    match first_space(bytes) {
        None => (bytes, None),
        Some(space) => (&bytes[..space], Some(&bytes[space + 1..])),
    }
}

/// The next word, whatever it is, and the words after it.
pub fn word<'a>(words: Words<'a>) -> Result<(&'a [u8], Words<'a>), LineFault>
    ensures { GivesBy (λ x. (x.0.now, words_left x.1)) faults.Memory result (word_at (words_left words.entry)) }
{
    let Some(bytes) = words.rest else {
        return Err(LineFault::Form);
    };
    let (first, rest) = split(bytes);
    Ok((first, Words { rest }))
}

// The digits at the front of bytes, up to 19 of them: the number that they write, and how many they are.
fn leading_digits(bytes: &[u8]) -> (u64, usize)
    ensures within { result.1 ≤ length bytes.now }
    ensures value { digits_after 0 (take result.1 bytes.now) ≡ Some result.0 }
{
    let most = bytes.len().min(QUICK_DIGITS);
    let mut number = 0u64;
    let mut count = 0;
    'digits: while count < most {
        let digit = u64::from(bytes[count]).wrapping_sub(u64::from(b'0'));
        if digit > 9 {
            break 'digits;
        }
        number = number * 10 + digit;
        count += 1;
    }
    (number, count)
}

// Whether a zero stands before other digits.
fn leads_with_zero(digits: &[u8]) -> bool
    ensures { result ≡ has_leading_zero digits.now }
{
    matches!(digits, [b'0', _, ..])
}

// The number that the first word spells, read in one pass, and the words after it. It is None where that word is no
// number, or has more digits than 19.
fn quick_number<'a>(words: Words<'a>) -> Option<(u64, Words<'a>)>
    ensures { IfSome result (λ x. SpellsFirst (words_left words.entry) x.0 (words_left x.1)) }
{
    let Some(bytes) = words.rest else {
        return None;
    };
    let (number, count) = leading_digits(bytes);
    if count == 0 || leads_with_zero(&bytes[..count]) {
        return None;
    }
    if count == bytes.len() {
        return Some((number, Words { rest: None }));
    }
    if bytes[count] != SPACE {
        return None;
    }
    Some((
        number,
        Words {
            rest: Some(&bytes[count + 1..]),
        },
    ))
}

// A whole number below the bound, of any length.
#[cold]
#[inline(never)]
#[tactic(auto, unfolding(crate::specs::Words::number_at))]
fn any_number<'a>(words: Words<'a>, below: u64) -> Result<(u64, Words<'a>), LineFault>
    ensures value { Reads result (number_at below (words_left words.entry)) }
    ensures below { IfOk result (λ x. x.0 < below) }
{
    let (text, rest) = word(words)?;
    let number = whole_number(text, below).ok_or(LineFault::Form)?;
    Ok((number, rest))
}

/// A whole number below the bound.
#[inline(always)]
pub fn number<'a>(words: Words<'a>, below: u64) -> Result<(u64, Words<'a>), LineFault>
    ensures value { Reads result (number_at below (words_left words.entry)) }
    ensures below { IfOk result (λ x. x.0 < below) }
{
    match quick_number(words) {
        Some((number, rest)) if number < below => Ok((number, rest)),
        Some(_) => Err(LineFault::Form),
        None => any_number(words, below),
    }
}

/// The number of a request, a take, a datagram or a programme: 1 to 2^32 - 1.
#[tactic(auto, unfolding(crate::specs::Words::ordinal_at))]
pub fn ordinal<'a>(words: Words<'a>) -> Result<(u32, Words<'a>), LineFault>
    ensures { Reads result (ordinal_at (words_left words.entry)) }
{
    let (number, rest) = number(words, ORDINAL_LIMIT)?;
    if number == 0 {
        return Err(LineFault::Form);
    }
    Ok((number as u32, rest))
}

/// A signed number of at most so many digits.
#[tactic(auto, unfolding(crate::specs::Words::integer_at))]
pub fn integer<'a>(words: Words<'a>, digits: u32) -> Result<(i64, Words<'a>), LineFault>
    requires { digits ≤ 18 }
    ensures value { Reads result (integer_at digits (words_left words.entry)) }
    ensures small { IfOk result (λ x. unsigned_abs x.0 < 10 ^ digits) }
{
    let (text, rest) = word(words)?;
    let number = signed_number(text, digits).ok_or(LineFault::Form)?;
    Ok((number, rest))
}

/// A signed number of at most so many digits, from `low` to `high`.
#[tactic(auto, unfolding(crate::specs::Words::signed_at))]
pub fn signed<'a>(
    words: Words<'a>,
    digits: u32,
    low: i64,
    high: i64,
) -> Result<(i64, Words<'a>), LineFault>
    requires { digits ≤ 18 }
    ensures value { Reads result (signed_at digits low high (words_left words.entry)) }
    ensures low { IfOk result (λ x. low ≤ℤ x.0) }
    ensures high { IfOk result (λ x. x.0 ≤ℤ high) }
{
    let (number, rest) = integer(words, digits)?;
    if number < low || number > high {
        return Err(LineFault::Form);
    }
    Ok((number, rest))
}

// Whether each byte is from `!` to `~`.
fn are_graphic(bytes: &[u8]) -> bool
    ensures { result ≡ list_all is_graphic bytes.now }
{
    bytes.iter().all(|byte| b'!' <= *byte && *byte <= b'~')
}

// Whether there is a byte, and each is from `!` to `~`.
fn is_text(word: &[u8]) -> bool
    ensures { result ≡ is_word word.now }
{
    !word.is_empty() && are_graphic(word)
}

/// A word that stands for itself: at least one byte, each from `!` to `~`.
#[tactic(auto, unfolding(crate::specs::Words::text_at))]
pub fn text<'a>(words: Words<'a>) -> Result<(&'a [u8], Words<'a>), LineFault>
    ensures { GivesBy (λ x. (x.0.now, words_left x.1)) faults.Memory result (text_at (words_left words.entry)) }
{
    let (text, rest) = word(words)?;
    if !is_text(text) {
        return Err(LineFault::Form);
    }
    Ok((text, rest))
}

/// The words after this one, where it is the next.
#[tactic(auto, unfolding(crate::specs::Words::after_word))]
pub fn skip<'a>(words: Words<'a>, name: &[u8]) -> Result<Words<'a>, LineFault>
    ensures { GivesBy words_left faults.Memory result (after_word name.now (words_left words.entry)) }
{
    let (text, rest) = word(words)?;
    if text != name {
        return Err(LineFault::Form);
    }
    Ok(rest)
}

/// That no word is left.
pub fn finish(words: Words<'_>) -> Result<(), LineFault>
    ensures { GivesBy (λ x. x) faults.Memory result (all_read (words_left words.entry)) }
{
    match words.rest {
        None => Ok(()),
        Some(_) => Err(LineFault::Form),
    }
}
