//! What the tests share.

use css_num::Text;
use std::alloc::Global;
use std::fmt::Debug;
use std::process::Abort;

/// What came of a row is what the row says.
pub fn check(rt: &impl Abort, row: &str, told: &str, expected: &str) {
    assert!(rt; told == expected, "{row}: {told} and not {expected}");
}

pub fn check_that(rt: &impl Abort, holds: bool, what: &str) {
    assert!(rt; holds, "{what}");
}

pub fn words(text: &Text) -> &str {
    str::from_utf8(text.bytes()).unwrap_or("not UTF-8")
}

/// A value as Rust shows it.
pub fn shown(rt: &impl Abort, alloc: Global, value: &impl Debug) -> String {
    format!(in alloc; "{value:?}").expect(rt, "memory")
}

/// The two parts of a row.
pub fn parts<'a>(rt: &impl Abort, row: &'a str) -> (&'a str, &'a str) {
    row.split_once(" = ").expect(rt, "a row of two parts")
}

/// The next of the numbers that look random.
pub fn next_word(word: u64) -> u64 {
    word.wrapping_mul(6_364_136_223_846_793_005)
        .wrapping_add(1_442_695_040_888_963_407)
}
