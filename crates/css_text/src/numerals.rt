ghost use Rattle.std.specs.Prelude.{◌≡◌, ◌≤◌, ◌==◌, ℕ, length, take, drop, option_copied, IsSome, MatchOption};
ghost use Rattle.std.specs.List.{prefix_len, list_all};
ghost use Rattle.std.specs.Char.{is_ascii_digit};
ghost use Rattle.json.specs.Word as word;
ghost use Rattle.css_text.specs.Numerals as numerals;

pub(crate) fn is_numeral_byte(b: u8) -> bool
    ensures { result ≡ numerals.is_numeral_byte b }
{
    b.is_ascii_digit() || b == b'-' || b == b'+' || b == b'.' || b == b'e' || b == b'E'
}

fn digits_len(text: &[u8]) -> usize
    ensures value { result ≡ prefix_len is_ascii_digit text.now }
    ensures within { result ≤ length text.now }
{
    for (i, b) in text.iter().enumerate() {
        if !b.is_ascii_digit() {
            return i;
        }
    }
    text.len()
}

fn after_digits(text: &[u8]) -> Option<&[u8]>
    ensures { option_copied result ≡ word.after_digits text.now }
{
    let len = digits_len(text);
    if len == 0 { None } else { Some(&text[len..]) }
}

fn after_minus(text: &[u8]) -> &[u8]
    ensures { result.now ≡ word.after_minus text.now }
{
    if let [b'-', rest @ ..] = text {
        rest
    } else {
        text
    }
}

fn after_sign(text: &[u8]) -> &[u8]
    ensures { result.now ≡ word.after_sign text.now }
{
    if let [b'-' | b'+', rest @ ..] = text {
        rest
    } else {
        text
    }
}

fn after_whole(text: &[u8]) -> Option<&[u8]>
    ensures { option_copied result ≡ word.after_whole text.now }
{
    if let [b'0', rest @ ..] = text {
        Some(rest)
    } else {
        after_digits(text)
    }
}

fn after_fraction(text: &[u8]) -> Option<&[u8]>
    ensures { option_copied result ≡ word.after_fraction text.now }
{
    if let [b'.', rest @ ..] = text {
        after_digits(rest)
    } else {
        Some(text)
    }
}

fn after_exponent(text: &[u8]) -> Option<&[u8]>
    ensures { option_copied result ≡ word.after_exponent text.now }
{
    if let [b'e' | b'E', rest @ ..] = text {
        after_digits(after_sign(rest))
    } else {
        Some(text)
    }
}

#[tactic(auto, unfolding(json::specs::Word::after_number))]
fn after_number(text: &[u8]) -> Option<&[u8]>
    ensures { option_copied result ≡ word.after_number text.now }
{
    let rest = after_whole(after_minus(text))?;
    let rest = after_fraction(rest)?;
    after_exponent(rest)
}

fn is_numeral(run: &[u8]) -> bool
    ensures { result ≡ numerals.is_numeral run.now }
{
    match after_number(run) {
        Some(rest) => rest.is_empty(),
        None => false,
    }
}

fn are_zeros(bytes: &[u8]) -> bool
    ensures { result ≡ list_all (λ b. b == 48) bytes.now }
{
    bytes.iter().all(|b| *b == b'0')
}

fn is_zero_fraction(rest: &[u8]) -> bool
    ensures { result ≡ numerals.is_zero_fraction rest.now }
{
    match rest {
        [] => true,
        [b'.', zeros @ ..] => are_zeros(zeros),
        _ => false,
    }
}

fn whole_part(run: &[u8]) -> Option<&[u8]>
    ensures { option_copied result ≡ numerals.whole_part run.now }
{
    let digits = after_minus(run);
    let rest = after_whole(digits)?;
    if !is_zero_fraction(rest) || digits.len().saturating_sub(rest.len()) > 18 {
        return None;
    }
    let whole = &run[..run.len().saturating_sub(rest.len())];
    if whole == b"-0".as_slice() {
        Some(b"0")
    } else {
        Some(whole)
    }
}

#[tactic(auto, unfolding(crate::specs::Numerals::rewritten, crate::specs::Numerals::is_odd))]
/// What stands for a run, and whether that is a `null` for a numeral.
pub(crate) fn rewritten(run: &[u8]) -> (&[u8], bool)
    ensures text { result.0.now ≡ numerals.rewritten run.now }
    ensures odd { result.1 ≡ numerals.is_odd run.now }
{
    if !is_numeral(run) {
        return (run, false);
    }
    match whole_part(run) {
        Some(whole) => (whole, false),
        None => (b"null", true),
    }
}
