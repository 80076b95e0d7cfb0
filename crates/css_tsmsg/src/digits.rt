ghost use Rattle.std.specs.Prelude.{◌≡◌, ◌≤◌, ◌<◌, ◌^◌, ℕ, length, true, pos, neg_ℤ};
ghost use Rattle.std.specs.List.{list_all};
ghost use Rattle.std.specs.Char.{is_ascii_digit};
ghost use Rattle.std.specs.Str.Parse.{digits_value};
ghost use Rattle.css_tsmsg.specs.Times as times;

/// Whether each byte is a digit.
fn are_digits(bytes: &[u8]) -> bool
    ensures { result ≡ list_all is_ascii_digit bytes.now }
{
    bytes.iter().all(|byte| byte.is_ascii_digit())
}

/// Whether these are digits, one or more.
pub(crate) fn is_wall(bytes: &[u8]) -> bool
    ensures { result ≡ times.is_wall bytes.now }
{
    !bytes.is_empty() && are_digits(bytes)
}

/// Whether a `-` leads.
fn has_minus(bytes: &[u8]) -> bool
    ensures { result ≡ times.has_minus bytes.now }
{
    matches!(bytes, [b'-', ..])
}

/// What follows the `-`, or all where there is none.
pub(crate) fn without_minus(bytes: &[u8]) -> &[u8]
    ensures { result.now ≡ times.without_minus bytes.now }
{
    if let [b'-', rest @ ..] = bytes {
        rest
    } else {
        bytes
    }
}

/// The number that digits write.
pub(crate) fn digits_value(digits: &[u8]) -> u64
    requires are_digits { times.is_wall digits.now ≡ true }
    requires few { length digits.now ≤ 19 }
    ensures value { result ≡ digits_value 10 digits.now }
    ensures below { (k : ℕ) → length digits.now ≤ k → result < 10 ^ k }
{
    let mut value = 0u64;
    for digit in digits {
        value = value * 10 + u64::from(*digit - b'0');
    }
    value
}

/// A content time without a `-`.
fn signed(number: u64) -> i64
    requires { number < 10 ^ 18 }
    ensures value { result ≡ pos number }
    ensures in_range { times.IsContent result }
{
    number as i64
}

/// A content time with a `-`.
fn negative(number: u64) -> i64
    requires { number < 10 ^ 18 }
    ensures value { result ≡ neg_ℤ (pos number) }
    ensures in_range { times.IsContent result }
{
    -(number as i64)
}

/// The tick that a content time is.
pub(crate) fn content_value(content: &[u8]) -> i64
    requires form { times.is_content content.now ≡ true }
    requires few { length (times.without_minus content.now) ≤ 18 }
    ensures value { result ≡ times.content_value content.now }
    ensures in_range { times.IsContent result }
{
    if has_minus(content) {
        negative(digits_value(without_minus(content)))
    } else {
        signed(digits_value(content))
    }
}
