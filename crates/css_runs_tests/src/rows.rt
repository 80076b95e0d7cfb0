//! A row of a table: one run. What it tells is written in short: one line after another with `; ` in between, and names
//! in capitals for long texts.
use css_outside::Kind;
use std::alloc::{AllocError, Global};

/// A run: what it is to do, what its outside gives, how it ends, and what it tells.
#[derive(Clone, Copy)]
pub struct Row {
    pub name: &'static str,
    pub turns: u64,
    /// How many seconds the run goes on: where there are some, they bound it in place of the turns.
    pub seconds: u64,
    /// The greatest error of the end's own clock, in 1/256 ppm.
    pub error: u32,
    /// A television's script, whether its times count from the first turn, and whether it promises follow-ups.
    pub script: &'static str,
    pub relative: bool,
    pub follow: bool,
    /// How many reports a companion makes, the nanoseconds between two, and whether it tells what it can present.
    pub reports: u64,
    pub report_every: u64,
    pub presents: bool,
    /// The nanoseconds between two requests.
    pub ask_every: u64,
    /// What the clock reads, and before which of these readings the machine slept.
    pub times: &'static [u64],
    pub slept: &'static [u64],
    /// Who sends the datagrams, and which one comes at each take: none where there are no bytes.
    pub sender: u32,
    pub datagrams: &'static [&'static [u8]],
    pub openings: &'static [Option<Kind>],
    /// By the number of the session. It is closed where it tells nothing.
    pub texts: &'static [(u32, Option<&'static str>)],
    /// The texts sent that are gone, and the calls of the outside and the writes that fail.
    pub gone: &'static [u64],
    pub fails: &'static [u64],
    pub sink_fails: &'static [u64],
    /// How the run ends, up to the texts of an address that moved.
    pub ended: &'static str,
    /// The calls that a television or a relay makes, or the lines that a companion writes.
    pub told: &'static str,
    /// A companion's record, where it is looked at, and how many of its lines are written.
    pub record: Option<&'static str>,
    pub lines: usize,
}

/// One turn of a television, in which nothing comes.
#[rattlefmt::skip]
pub const QUIET: Row = Row {
    name: "nothing comes", turns: 1, seconds: 0, error: 0, script: "", relative: false, follow: false, reports: 1,
    report_every: 10, presents: false, ask_every: 1000, times: &[0], slept: &[], sender: 9, datagrams: &[],
    openings: &[], texts: &[], gone: &[], fails: &[], sink_fails: &[], ended: "Done",
    told: "LISTEN; turn; take; accept", record: None, lines: usize::MAX,
};

/// What a session tells that is closed.
pub const CLOSED: Option<&str> = None;

// The lines of records as a program of another language spells them.

pub const HEADER: &str = "css-record 1 0 0 urn:dvb:css:timeline:pts -";

/// `{"timelines":null,"tsUrl":"ws://127.0.0.1:6678/ts","wcUrl":"udp://127.0.0.1:6677"}`
const ADDRESSES: &str = "\
cii 7b2274696d656c696e6573223a6e756c6c2c22747355726c223a2277733a2f2f3132372e302e302e313a363637382f74\
73222c22776355726c223a227564703a2f2f3132372e302e302e313a36363737227d";

/// `{"contentTime":"900000","timelineSpeedMultiplier":1,"wallClockTime":"0"}`
const CONTROL: &str = "\
ts 7b22636f6e74656e7454696d65223a22393030303030222c2274696d656c696e6553706565644d756c7469706c6965722\
23a312c2277616c6c436c6f636b54696d65223a2230227d";

/// A response to the request of reading 6, received at 5000 ns and sent at 5001 ns, with a precision of 1 ns.
const LANDING: &str = "land 8 0001e20000000000000000000000000600000000000013880000000000001389";

/// `{"wcUrl":"udp://127.0.0.1:6679"}`
const MOVED: &str = "cii 7b22776355726c223a227564703a2f2f3132372e302e302e313a36363739227d";

/// What a session of content identification is told of a television that shows nothing.
const DARK: &str =
    "{\"contentId\":null,\"contentIdStatus\":null,\"mrsUrl\":null,\"presentationStatus\":\"okay\",\
    \"protocolVersion\":\"1.1\",\"teUrl\":null,\"timelines\":null,\
    \"tsUrl\":\"ws://127.0.0.1:6678/ts\",\"wcUrl\":\"udp://127.0.0.1:6677\"}";

/// The same by a relay whose television told nothing.
const UNKNOWN: &str =
    "{\"contentId\":null,\"contentIdStatus\":null,\"mrsUrl\":null,\"presentationStatus\":null,\
    \"protocolVersion\":null,\"teUrl\":null,\"timelines\":null,\"tsUrl\":null,\"wcUrl\":null}";

/// Names in short, and what they stand for.
#[rattlefmt::skip]
const NAMES: [(&str, &str); 11] = [
    ("LISTEN", "listen 6677 127.0.0.1"),
    ("SERVE", "listen 6690 relay.example"),
    ("DARK", DARK),
    ("SHOWN", "{\"contentId\":\"dvb://1\",\"contentIdStatus\":\"final\",\"timelines\":[]}"),
    ("UNKNOWN", UNKNOWN),
    // What a relay tells of the television's addresses: its own for one.
    ("OWN", "{\"tsUrl\":\"ws://127.0.0.1:6678/ts\",\"wcUrl\":\"udp://relay.example:6690\"}"),
    ("HEADER", HEADER),
    ("ADDRESSES", ADDRESSES),
    ("CONTROL", CONTROL),
    ("LANDING", LANDING),
    ("MOVED", MOVED),
];

/// The first lines of those that are told in short, each with its line feed.
pub fn lines_of(alloc: Global, short: &str, count: usize) -> Result<String, AllocError> {
    let mut lines = String::new(alloc);
    for line in short.split("; ").take(count) {
        push_line(alloc, &mut lines, line)?;
    }
    Ok(lines)
}

fn push_line(alloc: Global, lines: &mut String, short: &str) -> Result<(), AllocError> {
    if short.is_empty() {
        return Ok(());
    }
    let mut line = String::from_str(alloc, short)?;
    for (name, words) in &NAMES {
        line = line.replace(alloc, *name, words)?;
    }
    lines.push_str(&line)?;
    lines.push_str("\n")
}

/// Bytes as they are shown where they aren't the wanted ones.
pub fn text_of(bytes: &[u8]) -> &str {
    str::from_utf8(bytes).unwrap_or("bytes that aren't UTF-8")
}
