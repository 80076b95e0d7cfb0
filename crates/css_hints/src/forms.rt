//! What may stand as a word of a line, in words for a person. What a line means stands with the readers of lines.

use css_num::{signed_number, whole_number};
use std::fmt;

/// The digits that a signed number has at most.
const MOST_DIGITS: u32 = 18;
/// The last wall time of a presentation, in nanoseconds.
const MOST_WALL: u64 = 9_223_372_036_854_775_807;

/// The last reading and the last true time, in nanoseconds.
const MOST_TIME: u64 = 4_294_967_295_999_999_999;
/// The greatest tick, and the greatest media position in nanoseconds.
const MOST_POSITION: i64 = 999_999_999_999_999_999;

/// What may stand as one word.
#[derive(Clone, Copy)]
pub(crate) enum Form {
    /// This word.
    Exactly(&'static str),
    /// The one word or the other.
    Either(&'static str, &'static str),
    /// A number from the one to the other.
    Whole(u64, u64),
    /// The same, where it may be below zero.
    Signed(i64, i64),
    /// A wall time, or this word.
    Wall(&'static str),
    /// Bytes from `!` to `~`.
    Name,
    /// Bytes as hex digits.
    Hex,
}

fn is_whole(word: &str, least: u64, most: u64) -> bool {
    match whole_number(word.as_bytes(), u64::MAX) {
        Some(number) => least <= number && number <= most,
        None => false,
    }
}

fn is_signed(word: &str, least: i64, most: i64) -> bool {
    match signed_number(word.as_bytes(), MOST_DIGITS) {
        Some(number) => least <= number && number <= most,
        None => false,
    }
}

fn is_name(word: &str) -> bool {
    !word.is_empty() && word.bytes().all(|byte| byte.is_ascii_graphic())
}

fn is_hex_digit(byte: u8) -> bool {
    byte.is_ascii_digit() || byte >= b'a' && byte <= b'f'
}

fn is_hex(word: &str) -> bool {
    let is_paired = !word.is_empty() && word.len() % 2 == 0;
    word == "-" || is_paired && word.bytes().all(is_hex_digit)
}

/// The form of a word that stands for itself, or for the one or the other of `follow|plain`.
fn literal(name: &'static str) -> Form {
    match name.split_once('|') {
        Some((one, other)) => Form::Either(one, other),
        None => Form::Exactly(name),
    }
}

impl Form {
    /// The form with this name. In capital letters it is one that the formats have names for.
    pub(crate) fn named(name: &'static str) -> Form {
        match name {
            "T" | "W" | "L" | "R" => Form::Whole(0, MOST_TIME),
            "K" => Form::Whole(0, 16),
            "I" | "J" | "N" => Form::Whole(1, 4_294_967_295),
            "UPT" | "UPS" => Form::Whole(1, 1_000_000_000),
            "BASE" | "TICK" | "M" => Form::Signed(-MOST_POSITION, MOST_POSITION),
            "S" => Form::Signed(-999, 999),
            "EW" => Form::Whole(0, 25_600_000),
            "KW" => Form::Signed(-128, 30),
            "EL" => Form::Whole(0, 2_560_000),
            "PL" => Form::Whole(0, 1_000_000_000),
            "EARLIEST" => Form::Wall("minusinfinity"),
            "LATEST" => Form::Wall("plusinfinity"),
            "COMPANIONS" => Form::Whole(1, 16),
            "REPORTS" => Form::Whole(1, 1_000_000),
            "ID" | "NAME" | "SELECTOR" | "STEM" => Form::Name,
            "HEX" => Form::Hex,
            _ => literal(name),
        }
    }

    /// Whether this word may stand there.
    pub(crate) fn fits(self, word: &str) -> bool {
        match self {
            Form::Exactly(name) => word == name,
            Form::Either(one, other) => word == one || word == other,
            Form::Whole(least, most) => is_whole(word, least, most),
            Form::Signed(least, most) => is_signed(word, least, most),
            Form::Wall(name) => word == name || is_whole(word, 0, MOST_WALL),
            Form::Name => is_name(word),
            Form::Hex => is_hex(word),
        }
    }
}

impl fmt::Display for Form {
    fn fmt<W: fmt::Write>(&self, f: &mut fmt::Formatter<W>) -> fmt::Result {
        match *self {
            Form::Exactly(name) => f.write_str(name),
            Form::Either(one, other) => write!(f, "{one} or {other}"),
            Form::Whole(least, most) => write!(f, "a number from {least} to {most}"),
            Form::Signed(least, most) => write!(f, "a number from {least} to {most}"),
            Form::Wall(name) => write!(f, "a number from 0 to {MOST_WALL}, or {name}"),
            Form::Name => f.write_str("a word of printable ASCII"),
            Form::Hex => f.write_str("hex digits in lower case, two for each byte, or -"),
        }
    }
}
