//! What the tests of several ends share.

ghost use Rattle.std.specs.Prelude.{◌≤◌, ◌<◌, ◌+◌};
ghost use Rattle.std.specs.Str.{IsUtf8};

use css_client::Local;
use css_model::LIMIT;
use css_num::Text;
use std::alloc::Global;
use std::fmt::Debug;
use std::process::Abort;

/// A clock without errors.
#[rattlefmt::skip]
pub const EXACT: Local = Local { error: 0, precision: 0 };

pub fn text(rt: &impl Abort, alloc: Global, words: &str) -> Text
    ensures { IsUtf8 result }
{
    Text::of(alloc, words.as_bytes()).expect(rt, "memory")
}

pub fn words(text: &Text) -> &str {
    str::from_utf8(text.bytes()).unwrap_or("not UTF-8")
}

/// A value as Rust shows it.
pub fn shown(rt: &impl Abort, alloc: Global, value: &impl Debug) -> String {
    format!(in alloc; "{value:?}").expect(rt, "memory")
}

/// What came of a row is what the row says. It is told by its place in its table, or by its reading.
pub fn check(rt: &impl Abort, row: usize, told: &str, expected: &str) {
    assert!(rt; told == expected, "at {row}: {told} and not {expected}");
}

pub fn check_that(rt: &impl Abort, holds: bool, what: &str) {
    assert!(rt; holds, "{what}");
}

/// Finds that a reading may be handed to an end next.
pub fn check_order(rt: &impl Abort, floor: u64, reading: u64)
    ensures order { floor ≤ reading }
    ensures range { reading < LIMIT }
{
    assert!(rt;
        floor <= reading && reading < LIMIT,
        "a reading out of order"
    );
}

/// Numbers that look random.
#[derive(Drop)]
pub struct Dice {
    pub seed: u64,
}

impl Dice {
    /// The next number below another.
    pub fn next(&mut self, below: u32) -> u32
        requires { 1 ≤ below }
        ensures { result < below }
    {
        self.seed = self
            .seed
            .wrapping_mul(6_364_136_223_846_793_005)
            .wrapping_add(1_442_695_040_888_963_407);
        (self.seed >> 33) as u32 % below
    }
}

fn write_stamp(bytes: &mut [u8; 32], at: usize, reading: u64)
    requires { at + 8 ≤ 32 }
{
    let seconds = ((reading / 1_000_000_000 % 4_294_967_296) as u32).to_be_bytes();
    let nanoseconds = ((reading % 1_000_000_000) as u32).to_be_bytes();
    for i in 0..4 {
        bytes[at + i] = seconds[i];
        bytes[at + 4 + i] = nanoseconds[i];
    }
}

/// The datagram of this type, precision and error that tells when its request was sent, received and answered, in
/// nanoseconds.
pub fn datagram(
    message_type: u8,
    precision: i8,
    error: u32,
    [asked, receive, transmit]: [u64; 3],
) -> [u8; 32] {
    let mut bytes = [0; 32];
    bytes[1] = message_type;
    bytes[2] = precision.cast_unsigned();
    [bytes[4], bytes[5], bytes[6], bytes[7]] = error.to_be_bytes();
    write_stamp(&mut bytes, 8, asked);
    write_stamp(&mut bytes, 16, receive);
    write_stamp(&mut bytes, 24, transmit);
    bytes
}

/// Appends words behind their peer.
pub fn push_behind(rt: &impl Abort, all: &mut String, peer: u32, words: &str) {
    let gap = if all.is_empty() { "" } else { " " };
    write!(all, "{gap}{peer} {words}").expect(rt, "memory");
}
