ghost use Rattle.std.specs.Prelude.{◌≤◌, length, IfSome};
ghost use Rattle.css_hints.specs.HintLine.{AreWords, IsHintLine, IsPrintable};

use css_num::Text;
use std::alloc::Global;

/// How many bytes a line has at most, its line feed aside.
const MOST: usize = 199;

/// A byte, or `?` in the place of one that isn't printable in ASCII.
fn printable(byte: u8) -> u8
    ensures { IsPrintable result }
{
    if byte >= b' ' && byte <= b'~' {
        byte
    } else {
        b'?'
    }
}

/// This place, or the one before it where a character of UTF-8 goes on there.
fn before(bytes: &[u8], place: usize) -> usize
    ensures { result ≤ place }
{
    match bytes.get(place) {
        Some(0x80..=0xbf) => place.saturating_sub(1),
        _ => place,
    }
}

/// The front of these bytes, at most so many. It ends within no character, and a character has at most four bytes.
fn front(bytes: &[u8], most: usize) -> &[u8]
    ensures { length result.now ≤ most }
{
    let end = bytes.len().min(most);
    let (front, _) = bytes.split_at(before(bytes, before(bytes, before(bytes, end))));
    front
}

/// The front of these bytes, as words of a line.
pub(crate) fn shown(alloc: Global, bytes: &[u8], most: usize) -> Option<String> {
    let mut words = String::new(alloc);
    for byte in front(bytes, most) {
        words.push(char::from(printable(*byte))).ok()?;
    }
    Some(words)
}

/// The front of these bytes as words of a line.
fn cut(alloc: Global, bytes: &[u8]) -> Option<Text>
    ensures { IfSome result AreWords }
{
    let mut words = Text::new(alloc);
    let room = front(bytes, MOST);
    for byte in room {
        words.push(&[printable(*byte)]).ok()?;
    }
    Some(words)
}

/// The line of these words, as far as it has room for them.
pub(crate) fn line_of(alloc: Global, words: &str) -> Option<Text>
    ensures { IfSome result IsHintLine }
{
    let mut line = cut(alloc, words.as_bytes())?;
    line.push(b"\n").ok()?;
    Some(line)
}
