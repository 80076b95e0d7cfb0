ghost use Rattle.std.specs.Prelude.{◌≡◌, ◌↔◌, ℕ, ℤ, pos, ◌<◌, ◌≤◌, ◌^◌, Some, IfSome, unsigned_abs, option_map};
ghost use Rattle.css_num.specs.Words as words;

/// The number that ASCII digits write, 0 where there are none. It is None where
/// a byte is no digit, or the number doesn't fit.
fn digits_value(bytes: &[u8]) -> Option<u64>
    ensures { result ≡ words.below_limit (2 ^ 64) (words.digits_after 0 bytes.now) }
{
    let mut number = 0u64;
    for byte in bytes {
        if !byte.is_ascii_digit() {
            return None;
        }
        number = number
            .checked_mul(10)?
            .checked_add(u64::from(*byte - b'0'))?;
    }
    Some(number)
}

/// The number that a word of digits spells. It is None where there is none, or
/// it doesn't fit.
fn number(bytes: &[u8]) -> Option<u64>
    ensures { result ≡ words.below_limit (2 ^ 64) (words.number_of bytes.now) }
{
    match bytes {
        [] | [b'0', _, ..] => None,
        _ => digits_value(bytes),
    }
}

/// Reads a word as a decimal number below `below`. None where the bytes are no such number: they are digits alone, with
/// no zero before other digits.
pub fn whole_number(bytes: &[u8], below: u64) -> Option<u64>
    ensures value { result ≡ words.whole_number_of bytes.now below }
    ensures spelling { (number : ℕ) → (result ≡ Some number) ↔ words.SpellsBelow bytes.now below number }
{
    number(bytes).filter(|number| *number < below)
}

/// The number of at most `digits` digits that a word without a sign spells.
fn short_number(bytes: &[u8], digits: u32) -> Option<i64>
    requires { digits ≤ 18 }
    ensures { result ≡ option_map pos (words.short_number_of bytes.now digits) }
{
    if bytes.len() > digits as usize {
        return None;
    }
    let number = number(bytes)?;
    Some(number as i64)
}

/// The number below zero whose digits, after the `-`, are `magnitude`.
fn negative_number(magnitude: &[u8], digits: u32) -> Option<i64>
    requires { digits ≤ 18 }
    ensures { result ≡ words.negative_of (words.short_number_of magnitude.now digits) }
{
    match short_number(magnitude, digits) {
        None | Some(0) => None,
        Some(number) => Some(-number),
    }
}

/// Reads a word as a decimal number of at most `digits` digits, up to 18, with or without a `-` before them. None where
/// the bytes are no such number: zero has no `-`, no zero stands before other digits, and there is no `+`.
pub fn signed_number(bytes: &[u8], digits: u32) -> Option<i64>
    requires { digits ≤ 18 }
    ensures value { result ≡ words.signed_number_of bytes.now digits }
    ensures spelling { (number : ℤ) → (result ≡ Some number) ↔ words.SpellsWithin bytes.now digits number }
    ensures small { IfSome result (λ number. unsigned_abs number < 10 ^ digits) }
{
    match bytes {
        [b'-', magnitude @ ..] => negative_number(magnitude, digits),
        _ => short_number(bytes, digits),
    }
}
