//! What the tests share.

ghost use Rattle.std.specs.Prelude.{◌≡◌, true};

use std::process::Abort;

/// What came of a row is what the row says.
pub fn check(rt: &impl Abort, told: &[u8], expected: &[u8]) {
    let (text, wanted) = (str::from_utf8(told), str::from_utf8(expected));
    assert!(rt; told == expected, "{text:?} and not {wanted:?}");
}

/// What has to hold does.
pub fn check_that(rt: &impl Abort, holds: bool, what: &str)
    ensures { holds ≡ true }
{
    assert!(rt; holds, "{what}");
}

/// The next of the numbers that look random.
pub fn next_word(word: u64) -> u64 {
    word.wrapping_mul(6_364_136_223_846_793_005)
        .wrapping_add(1_442_695_040_888_963_407)
}
