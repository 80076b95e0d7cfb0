//! Runs of the live commands: each status, each refusal and each failing call is a row.

use crate::outside::{SILENT, Said, World};
use crate::running::{BLANK, Case, Row};

/// A response with the originate value 6, the receive value 5000 and the transmit value 5001.
pub const RESPONSE: &[u8] =
    b"\0\x01\xe2\0\0\0\0\0\0\0\0\0\0\0\0\x06\0\0\0\0\0\0\x13\x88\0\0\0\0\0\0\x13\x89";

pub const CII: &str =
    "{\"timelines\":null,\"tsUrl\":\"ws://127.0.0.1:6678/ts\",\"wcUrl\":\"udp://127.0.0.1:6677\"}";

pub const TS: &str =
    "{\"contentTime\":\"900000\",\"timelineSpeedMultiplier\":1,\"wallClockTime\":\"0\"}";

/// One answer and one control timestamp come.
pub const ANSWERED: World = World {
    times: &[0, 5, 6, 8, 10, 20],
    slept: &[],
    datagrams: &[RESPONSE],
    texts: &[(1, Said::Text(CII)), (2, Said::Text(TS))],
};

/// Two reports in four turns, 10 ns apart, in 20 calls.
pub const COMPANION: Case<'static> = Case {
    words: "companion --cii ws://127.0.0.1:6677/cii --reports 2 --turns 4 --report-every 10 \
--ask-every 1000 --local-error 0 --local-precision 0",
    world: ANSWERED,
    ..BLANK
};

/// One report in three turns, a second after the first.
const SHORT_RUN: Case<'static> = Case {
    words: "companion --cii ws://127.0.0.1:6677/cii --selector urn:dvb:css:timeline:pts \
--reports 1 --turns 3",
    ..BLANK
};

/// Every dial fails.
#[rattlefmt::skip]
const UNREACHED: Case<'static> = Case { calls: &[2, 4, 6], ..SHORT_RUN };

/// A companion beside a child.
pub const PAIR: Case<'static> = Case {
    words: "pair --follow --reports 2 --turns 4 --report-every 10 --ask-every 1000 --local-error 0 \
--local-precision 0",
    world: ANSWERED,
    ..BLANK
};

/// Every dial to the child fails.
#[rattlefmt::skip]
const SHORT_PAIR: Case<'static> = Case { words: "pair --reports 1 --turns 3", calls: &[2, 4, 6], ..BLANK };

/// A television makes one turn: `listen`, `now`, `take_datagram` and `accept`.
#[rattlefmt::skip]
const TV: Case<'static> = Case { words: "tv --turns 1", ..BLANK };

/// A relay makes one turn: `listen`, `now`, `dial`, `take_datagram` and `accept`.
const RELAY: Case<'static> = Case {
    words: "relay --cii ws://h/cii --turns 1",
    ..BLANK
};

const TWO: &[u8] = b"1 ticks 900000 900000\n2 ticks 900000 900000\n";

const FIRST: &[u8] = b"1 ticks 900000 900000\n";

const FIRST_NONE: &[u8] = b"1 none NoAnswer\n";

const NONE: &[u8] = b"1 none NoAnswer\n2 none NoAnswer\n";

const FOLLOWED: &[u8] =
    b"1 ticks 900000 900000\ncue start passed\nwidth 0\n2 ticks 900000 900000\n";

/// Runs of `companion`.
#[rattlefmt::skip]
pub const COMPANIONS: &[Row] = &[
    ("two intervals", COMPANION, "done", TWO),
    ("each follower is told", Case { input: b"cue 900000 start\nmeter 1\n", ..COMPANION }, "done", FOLLOWED),
    ("every dial fails", UNREACHED, "unreachable after 3 turns", b""),
    ("a dial succeeds and the turns are spent", SHORT_RUN, "spent after 3 turns", b""),
    ("the clock fails", Case { calls: &[1], ..SHORT_RUN }, "net fault", b""),
    ("a cue without its name", Case { input: b"meter 1\ncue start\n", ..COMPANION }, "sheet line 2", b""),
    ("the source fails", Case { reads: &[1], ..COMPANION }, "read fault", b""),
    ("the sink fails at the first report", Case { writes: &[1], ..COMPANION }, "write fault", b""),
    ("the sink fails at the second report", Case { writes: &[2], ..COMPANION }, "write fault", FIRST),
];

/// Three readings, each a second after the one before.
#[rattlefmt::skip]
pub const SECONDS: World = World { times: &[0, 1_000_000_000, 2_000_000_000], ..SILENT };

/// The first reading is 5000, and the second 6000.
#[rattlefmt::skip]
const LATE: World = World { times: &[5_000, 6_000], ..SILENT };

/// A line that the player refuses when it is due, at 1000.
#[rattlefmt::skip]
const AT_1000: Case<'static> = Case { input: b"1000 speed 1\n", world: LATE, ..BLANK };

/// A companion of two seconds. Its third turn is the last, and makes no call after its report.
const TWO_SECONDS: Case<'static> = Case {
    words: "companion --cii ws://127.0.0.1:6677/cii --seconds 2 --reports 9",
    world: SECONDS,
    ..BLANK
};

/// Runs that end with their time, and scripts whose times count from the first turn.
#[rattlefmt::skip]
pub const TIMED: &[Row] = &[
    ("every dial fails", Case { calls: &[2, 4, 6], ..TWO_SECONDS }, "unreachable after 3 turns", NONE),
    ("a dial succeeds", TWO_SECONDS, "spent after 3 turns", NONE),
    ("a television", Case { words: "tv --seconds 1", world: SECONDS, calls: &[6], ..BLANK }, "done", b""),
    ("a relay", Case { words: "relay --cii ws://h/cii --seconds 1", world: SECONDS, calls: &[3, 7], ..BLANK },
        "unreachable after 2 turns", b""),
    ("a pair", Case { words: "pair --seconds 2 --reports 9", world: SECONDS, calls: &[2, 4], ..BLANK },
        "unreachable after 3 turns", NONE),
    ("both bounds", Case { words: "tv --seconds 1 --turns 5", ..BLANK }, "usage", b""),
    ("times of the clock", Case { words: "tv --turns 1", ..AT_1000 }, "line 1: no programme", b""),
    ("times from the start", Case { words: "tv --relative --turns 1", ..AT_1000 }, "done", b""),
    ("a turn later", Case { words: "tv --relative --turns 2", ..AT_1000 }, "line 1: no programme", b""),
];

/// Runs of `tv` and of `relay`.
#[rattlefmt::skip]
pub const TELEVISIONS: &[Row] = &[
    ("an empty script", TV, "done", b""),
    ("a script in part", Case { input: b"0 programme dvb://1\n0 change 1\n9 speed 0", ..TV }, "done", b""),
    ("the player refuses a line", Case { input: b"0 speed 1\n", ..TV }, "line 1: no programme", b""),
    ("no line of a script", Case { input: b"0 programme dvb://1\n0 play 1\n", ..TV }, "line 2: form", b""),
    ("the source fails", Case { reads: &[1], ..TV }, "read fault", b""),
    ("listening fails", Case { calls: &[1], ..TV }, "net fault", b""),
    ("the clock fails", Case { calls: &[2], ..TV }, "net fault", b""),
    ("taking a datagram fails", Case { calls: &[3], ..TV }, "net fault", b""),
    ("accepting fails", Case { calls: &[4], ..TV }, "net fault", b""),
    ("a relay", RELAY, "done", b""),
    ("a relay can't listen", Case { calls: &[1], ..RELAY }, "net fault", b""),
    ("a relay's dial fails", Case { calls: &[3], ..RELAY }, "unreachable after 1 turns", b""),
    ("words of no command", Case { words: "reply", ..BLANK }, "usage", b""),
    ("no words", BLANK, "usage", b""),
];

/// Runs of `pair`. The companion's status comes before the child's and before the spawner's fault.
#[rattlefmt::skip]
pub const PAIRS: &[Row] = &[
    ("two intervals", Case { input: b"0 programme dvb://1\n", ..PAIR }, "done", TWO),
    ("the child ends with 3", Case { children: &[3], ..PAIR }, "child status 3", TWO),
    ("the child ends below 0", Case { children: &[-1], ..PAIR }, "child status -1", TWO),
    ("starting the child fails", Case { spawns: &[1], ..PAIR }, "child fault", b""),
    ("waiting for the child fails", Case { spawns: &[2], ..PAIR }, "child fault", TWO),
    ("unreachable, and a status", Case { children: &[3], ..SHORT_PAIR }, "unreachable after 3 turns", b""),
    ("unreachable, and a fault", Case { spawns: &[2], ..SHORT_PAIR }, "unreachable after 3 turns", b""),
    ("no line of a script", Case { input: b"0 play 1\n", ..PAIR }, "line 1: form", b""),
    ("a line for the child", Case { input: b"0 speed 1\n", children: &[2], ..PAIR }, "child status 2", TWO),
    ("the source fails", Case { reads: &[1], ..PAIR }, "read fault", b""),
    ("the sink fails", Case { writes: &[1], ..PAIR }, "write fault", b""),
];

/// Calls of the outside of a pair, how the run ends where one of them fails, and what is written.
#[rattlefmt::skip]
pub const FAILING: &[(&[u64], &str, &[u8])] = &[
    (&[1, 3, 4, 7, 8, 9, 10, 11, 12, 13, 14], "net fault", b""),
    (&[2, 5], "spent after 4 turns", FIRST_NONE),
    (&[6], "done", b"1 none NoTimestamp\n2 ticks 900000 900000\n"),
    (&[15, 16, 17, 18], "net fault", FIRST),
    (&[19, 20], "net fault", TWO),
];

pub const LIST: &[(u32, Said)] = &[(1, Said::Text("[]"))];

const NO_URL: &[(u32, Said)] = &[(1, Said::Text("{\"wcUrl\":\"http://h/\"}"))];

const MOVED: &[(u32, Said)] = &[
    (1, Said::Text("{\"wcUrl\":\"udp://127.0.0.1:6677\"}")),
    (1, Said::Text("{\"wcUrl\":\"udp://127.0.0.1:7000\"}")),
];

/// Runs of one report. A report falls due though every dial fails.
#[rattlefmt::skip]
pub const EARLY: &[Row] = &[
    ("no object", Case { world: World { texts: LIST, ..SILENT }, ..SHORT_RUN }, "cii text 1: not object", b""),
    ("no address", Case { world: World { texts: NO_URL, ..SILENT }, ..SHORT_RUN }, "bad url wcUrl", b""),
    ("an address is moved", Case { world: World { texts: MOVED, ..SILENT }, ..SHORT_RUN }, "moved wcUrl", b""),
    ("a report is due", Case { world: SECONDS, ..UNREACHED }, "done", FIRST_NONE),
];

/// Two reports in four turns, 10 ns apart.
const RECORDED: Case<'static> = Case {
    words: "companion --cii ws://127.0.0.1:6677/cii --record --reports 2 --turns 4 --report-every 10 \
--ask-every 1000 --local-error 0 --local-precision 0",
    world: ANSWERED,
    ..BLANK
};

/// One report in three turns, a second after the first.
const SHORT: Case<'static> = Case {
    words: "companion --cii ws://127.0.0.1:6677/cii --stem dvb:// --reports 1 --turns 3 --record",
    ..BLANK
};

/// The record of the run of two intervals, as a program of another language spells it. Its texts are [`CII`] and
/// [`TS`].
pub const RECORD: &[u8] = b"css-record 1 0 0 urn:dvb:css:timeline:pts -\nturn 0\n\
cii 7b2274696d656c696e6573223a6e756c6c2c22747355726c223a2277733a2f2f3132372e302e302e313a363637382f7473222c2277\
6355726c223a227564703a2f2f3132372e302e302e313a36363737227d\nturn 5\nask 6\n\
land 8 0001e20000000000000000000000000600000000000013880000000000001389\n\
ts 7b22636f6e74656e7454696d65223a22393030303030222c2274696d656c696e6553706565644d756c7469706c696572223a312c227\
7616c6c436c6f636b54696d65223a2230227d\n\
turn 10\nreport 1 ticks 900000 900000\nturn 20\nreport 2 ticks 900000 900000\n";

const RECORD_HEADER: &[u8] = b"css-record 1 0 0 urn:dvb:css:timeline:pts -\n";

const HEADER: &[u8] = b"css-record 1 128000 1000 urn:dvb:css:timeline:pts dvb://\n";

const TURNS: &[u8] =
    b"css-record 1 128000 1000 urn:dvb:css:timeline:pts dvb://\nturn 0\nturn 1\nturn 2\n";

const TEXT: &[u8] = b"css-record 1 128000 1000 urn:dvb:css:timeline:pts dvb://\nturn 0\ncii 5b5d\n";

/// Recorded runs. They read no sheet.
#[rattlefmt::skip]
pub const RECORDS: &[Row] = &[
    ("two intervals", RECORDED, "done", RECORD),
    ("the source would fail", Case { input: b"meter 1\n", reads: &[1], ..RECORDED }, "done", RECORD),
    ("the sink fails at the first turn", Case { writes: &[2], ..RECORDED }, "write fault", RECORD_HEADER),
    ("every dial fails", Case { calls: &[2, 4, 6], ..SHORT }, "unreachable after 3 turns", TURNS),
    ("the turns are spent", SHORT, "spent after 3 turns", TURNS),
    ("no object", Case { world: World { texts: LIST, ..SILENT }, ..SHORT }, "cii text 1: not object", TEXT),
    ("the clock fails", Case { calls: &[1], ..SHORT }, "net fault", HEADER),
];
