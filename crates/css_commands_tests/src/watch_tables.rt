//! Watches: what comes from outside, and the lines that tell it.

use crate::live_tables::{ANSWERED, CII, RESPONSE, SECONDS, TS};
use crate::outside::{SILENT, Said, World};
use crate::running::{BLANK, Case};
use css_outside::Failure;

/// A name, a watch, its status in words, and its lines.
#[rattlefmt::skip]
pub type WatchRow = (&'static str, Case<'static>, &'static str, &'static [&'static str]);

/// A response to the request of the reading 26, with the receive value 6000 and the transmit value 6001.
const LATER_RESPONSE: &[u8] =
    b"\0\x01\xe2\0\0\0\0\0\0\0\0\0\0\0\0\x1a\0\0\0\0\0\0\x17\x70\0\0\0\0\0\0\x17\x71";

/// A response to the request of the reading 0: both values are 5000.
const AT_5000: &[u8] =
    b"\0\x01\xe2\0\0\0\0\0\0\0\0\0\0\0\0\0\0\0\0\0\0\0\x13\x88\0\0\0\0\0\0\x13\x88";

/// A response to the request of the reading 1000: both values are 9000.
const AT_9000: &[u8] =
    b"\0\x01\xe2\0\0\0\0\0\0\0\0\0\0\0\x03\xe8\0\0\0\0\0\0\x23\x28\0\0\0\0\0\0\x23\x28";

/// A response to the request of the reading 1000, with the receive value 6030 and the transmit value 6040.
const AT_6030: &[u8] =
    b"\0\x01\xe2\0\0\0\0\0\0\0\0\0\0\0\x03\xe8\0\0\0\0\0\0\x17\x8e\0\0\0\0\0\0\x17\x98";

/// No datagram.
const NONE: &[u8] = b"";

const WC_TOLD: &str = r#"{"wcUrl":"udp://127.0.0.1:6677"}"#;

const OTHER_WC: &str = r#"{"wcUrl":"udp://127.0.0.1:7000"}"#;

const OTHER_TS: &str = r#"{"tsUrl":"ws://127.0.0.1:7001/ts","wcUrl":"udp://127.0.0.1:6677"}"#;

// ---- lines

const VISIT: &str = r#"{"event":"visit","number":1,"reading":"0"}"#;

/// The line of a dial of CII that failed.
#[rattlefmt::skip]
macro_rules! failed {
    ($why:literal) => { concat!(r#"{"event":"dial","outcome":"failed","service":"CII","why":""#, $why, r#""}"#) };
}

const CII_OPEN: &str = r#"{"event":"dial","outcome":"open","service":"CII"}"#;

const WC_OPEN: &str = r#"{"event":"dial","outcome":"open","service":"WC"}"#;

const TS_OPEN: &str = r#"{"event":"dial","outcome":"open","service":"TS"}"#;

/// The state without the last two of its properties.
#[rattlefmt::skip]
macro_rules! state {
    ($rest:literal) => {
        concat!(r#"{"event":"state","state":{"contentId":null,"contentIdStatus":null,"mrsUrl":null,"#,
            r#""presentationStatus":null,"protocolVersion":null,"teUrl":null,"timelines":null,"#, $rest)
    };
}

const STATE_NONE: &str = state!(r#""tsUrl":null,"wcUrl":null}}"#);

const STATE_WC: &str = state!(r#""tsUrl":null,"wcUrl":"udp://127.0.0.1:6677"}}"#);

const STATE_OTHER_WC: &str = state!(r#""tsUrl":null,"wcUrl":"udp://127.0.0.1:7000"}}"#);

#[rattlefmt::skip]
const STATE_BOTH: &str = state!(r#""tsUrl":"ws://127.0.0.1:6678/ts","wcUrl":"udp://127.0.0.1:6677"}}"#);

#[rattlefmt::skip]
const STATE_OTHER_TS: &str = state!(r#""tsUrl":"ws://127.0.0.1:7001/ts","wcUrl":"udp://127.0.0.1:6677"}}"#);

/// The line of a control timestamp.
#[rattlefmt::skip]
macro_rules! control {
    ($content:literal, $speed:literal, $wall:literal) => {
        concat!(r#"{"control":{"contentTime":""#, $content, r#"","timelineSpeedMultiplier":"#, $speed,
            r#","wallClockTime":""#, $wall, r#""},"event":"control"}"#)
    };
}

const CONTROL: &str = control!("900000", "1", "0");

/// The line of an answer.
#[rattlefmt::skip]
macro_rules! answer {
    ($error:literal, $precision:literal, $landed:literal, $originate:literal, $receive:literal, $transmit:literal,
        $width:literal) => {
        concat!(r#"{"error":"#, $error, r#","event":"answer","landed":""#, $landed, r#"","originate":""#, $originate,
            r#"","precision":""#, $precision, r#"","receive":""#, $receive, r#"","transmit":""#, $transmit,
            r#"","type":1,"width":""#, $width, r#""}"#)
    };
}

/// The end of a visit of which the second answer contradicts the first.
#[rattlefmt::skip]
const DISAGREED: &str = concat!(
    r#"{"between":[{"error":0,"landed":"1100","originate":"1000","precision":"1","receive":"9000","transmit":"9000"},"#,
    r#"{"error":0,"landed":"100","originate":"0","precision":"1","receive":"5000","transmit":"5000"}],"#,
    r#""event":"end","number":1,"why":"disagree"}"#,
);

/// The response of the reading 6 lands at 8.
const ANSWER: &str = answer!("0", "1", "8", "6", "5000", "5001", "7");

/// A report with these ticks, with this wall clock, and with what all answers allow of it where that is another span.
#[rattlefmt::skip]
macro_rules! known {
    ($error:literal, $number:literal, $reading:literal, $speed:literal, $ticks:literal, $wall:literal) => {
        known!($error, $number, $reading, $speed, $ticks, $wall, $wall)
    };
    ($error:literal, $number:literal, $reading:literal, $speed:literal, $ticks:literal, $wall:literal,
        $agreed:literal) => {
        concat!(r#"{"agreed":["#, $agreed, r#"],"error":"#, $error, r#","event":"report","number":"#, $number,
            r#","rate":{"unitsPerSecond":90000,"unitsPerTick":1},"reading":""#, $reading, r#"","speed":"#, $speed,
            r#","ticks":["#, $ticks, r#"],"wall":["#, $wall, "]}")
    };
}

/// The report of the reading 10.
const REPORT: &str = known!(
    "0",
    "1",
    "10",
    "1",
    r#""900000","900000""#,
    r#""5000","5007""#
);

/// A report without ticks, for this cause.
#[rattlefmt::skip]
macro_rules! caused {
    ($cause:literal, $number:literal, $reading:literal, $detail:literal) => {
        concat!(r#"{"cause":""#, $cause, r#"","detail":""#, $detail, r#"","event":"report","number":"#, $number,
            r#","reading":""#, $reading, r#""}"#)
    };
}

/// A report without an answer.
macro_rules! no_answer {
    ($number:literal, $reading:literal, $detail:literal) => {
        caused!("NoAnswer", $number, $reading, $detail)
    };
}

/// A report after the TS session closed.
macro_rules! session_closed {
    ($number:literal, $reading:literal) => {
        caused!("SessionClosed", $number, $reading, "")
    };
}

// ---- television by television

/// A watch of two seconds, to which nothing comes.
const WATCH: Case<'static> = Case {
    words: "watch --cii ws://127.0.0.1:6677/cii --seconds 2 --local-error 0 --local-precision 0",
    world: SECONDS,
    ..BLANK
};

/// A watch of a second.
const SECOND: Case<'static> = Case {
    words: "watch --cii ws://127.0.0.1:6677/cii --seconds 1 --local-error 0 --local-precision 0",
    ..BLANK
};

/// A watch of a second, with a report every 10 ns.
const OFTEN: Case<'static> = Case {
    words: "watch --cii ws://127.0.0.1:6677/cii --seconds 1 --report-every 10 --local-error 0 --local-precision 0",
    ..BLANK
};

/// A watch of a second that asks every 1000 ns.
const ASKING: Case<'static> = Case {
    words: "watch --cii ws://127.0.0.1:6677/cii --seconds 1 --ask-every 1000 --local-error 0 --local-precision 0",
    ..BLANK
};

/// The last of the dials that fail isn't told, since it fails as the one before.
#[rattlefmt::skip]
const FAILS: Case<'static> = Case {
    words: "watch --cii ws://127.0.0.1:6677/cii --seconds 3 --local-error 0 --local-precision 0",
    world: World { times: &[0, 1_000_000_000, 2_000_000_000, 3_000_000_000], ..SILENT },
    calls: &[2, 4, 6],
    failures: &[Failure::HttpStatus(404), Failure::Refused, Failure::Refused],
    ..BLANK
};

/// A set that lists two timelines, as it tells them.
const LISTS: &str = concat!(
    r#"{"timelines":[{"timelineProperties":{"unitsPerSecond":50,"unitsPerTick":1},"timelineSelector":"urn:a"},"#,
    r#"{"timelineProperties":{"unitsPerSecond":50,"unitsPerTick":1},"timelineSelector":"urn:b"}],"#,
    r#""tsUrl":"ws://127.0.0.1:6678/ts","wcUrl":"udp://127.0.0.1:6677"}"#
);

/// The line of its state.
const STATE_LISTS: &str = concat!(
    r#"{"event":"state","state":{"contentId":null,"contentIdStatus":null,"mrsUrl":null,"presentationStatus":null,"#,
    r#""protocolVersion":null,"teUrl":null,"timelines":["#,
    r#"{"timelineProperties":{"unitsPerSecond":50,"unitsPerTick":1},"timelineSelector":"urn:a"},"#,
    r#"{"timelineProperties":{"unitsPerSecond":50,"unitsPerTick":1},"timelineSelector":"urn:b"}],"#,
    r#""tsUrl":"ws://127.0.0.1:6678/ts","wcUrl":"udp://127.0.0.1:6677"}}"#
);

const PRESENTS_NONE: &str =
    r#"{"contentTime":null,"timelineSpeedMultiplier":null,"wallClockTime":"0"}"#;

const NO_CONTROL: &str =
    r#"{"control":{"contentTime":null,"timelineSpeedMultiplier":null,"wallClockTime":null},"event":"control"}"#;

#[rattlefmt::skip]
const PRESENTS: World = World {
    times: &[0, 5, 6, 8, 10, 1_000_000_000],
    texts: &[(1, Said::Text(LISTS)), (2, Said::Text(PRESENTS_NONE))],
    ..ANSWERED
};

/// A set that presents nothing, asked for a timeline that it doesn't list.
#[rattlefmt::skip]
const UNLISTED: Case<'static> = Case {
    words: "watch --cii ws://127.0.0.1:6677/cii --selector urn:c --seconds 1 --report-every 10 --local-error 0 \
--local-precision 0",
    world: PRESENTS,
    ..BLANK
};

/// The same, asked for one that it lists.
#[rattlefmt::skip]
const LISTED: Case<'static> = Case {
    words: "watch --cii ws://127.0.0.1:6677/cii --selector urn:b --seconds 1 --report-every 10 --local-error 0 \
--local-precision 0",
    ..UNLISTED
};

/// It presents the timeline, and nobody knows its rate.
#[rattlefmt::skip]
const UNRATED: Case<'static> = Case {
    world: World { texts: &[(1, Said::Text(CII)), (2, Said::Text(TS))], ..PRESENTS },
    ..UNLISTED
};

/// What comes is no datagram, and no control timestamp.
#[rattlefmt::skip]
const UNREADABLE: Case<'static> = Case {
    world: World {
        datagrams: &[b"\x01\xffcss"],
        texts: &[(1, Said::Text(CII)), (2, Said::Text("{\"a\": \u{e9}"))],
        ..PRESENTS
    },
    ..OFTEN
};

const TELLS_NO_WC: World = World {
    texts: &[(1, Said::Text("{}"))],
    ..SECONDS
};

#[rattlefmt::skip]
const MOVES: World = World {
    times: &[0, 5, 6, 10, 20, 21, 1_000_000_000],
    texts: &[(1, Said::Text(WC_TOLD)), (1, Said::Text(OTHER_WC)), (2, Said::Text(OTHER_WC))],
    ..SILENT
};

/// CII tells another tsUrl in the turn after the one in which TS closes.
#[rattlefmt::skip]
const MOVES_TS: World = World {
    times: &[0, 5, 6, 10, 20, 25, 26, 1_000_000_000],
    texts: &[(1, Said::Text(CII)), (1, Said::Text("{}")), (2, Said::Closed), (1, Said::Text(OTHER_TS)),
        (3, Said::Text(OTHER_TS))],
    ..SILENT
};

const NO_OBJECT: World = World {
    times: &[0, 1, 1_000_000_000],
    texts: &[(1, Said::Text("[]")), (2, Said::Text("{}"))],
    ..SILENT
};

const DISAGREES: World = World {
    times: &[0, 0, 0, 100, 1_000, 1_000, 1_100, 1_000_000_000],
    slept: &[],
    datagrams: &[AT_5000, AT_9000],
    texts: &[(1, Said::Text(WC_TOLD))],
};

/// Two answers together say more than each of them.
#[rattlefmt::skip]
const ALLOWS: Case<'static> = Case {
    words: "watch --cii ws://127.0.0.1:6677/cii --seconds 1 --ask-every 1000 --report-every 2000 --local-error 0 \
--local-precision 0",
    world: World {
        times: &[0, 0, 0, 100, 1_000, 1_000, 1_100, 2_000, 2_000, 1_000_000_000],
        datagrams: &[AT_5000, AT_6030],
        ..ANSWERED
    },
    ..BLANK
};

#[rattlefmt::skip]
const SLEEPS: World = World { times: &[0, 5, 6, 8, 10, 20, 22, 1_000_000_000], slept: &[20], ..ANSWERED };

/// Three requests are made, and no answer comes.
#[rattlefmt::skip]
const ASKS: Case<'static> = Case {
    words: "watch --cii ws://127.0.0.1:6677/cii --seconds 4",
    world: World {
        times: &[0, 1_000_000_000, 1_000_000_000, 2_000_000_000, 2_000_000_000, 3_000_000_000, 3_000_000_000,
            4_000_000_000],
        texts: &[(1, Said::Text(WC_TOLD))],
        ..SILENT
    },
    ..BLANK
};

/// The TS session closes after the first report. In the next turn CII says nothing more, and the turn after that ends
/// the visit. The second visit ends with the watch.
#[rattlefmt::skip]
pub const CLOSES: Case<'static> = Case {
    world: World {
        times: &[0, 5, 6, 8, 10, 12, 20, 21, 25, 26, 28, 30, 1_000_000_000],
        slept: &[],
        datagrams: &[RESPONSE, NONE, NONE, LATER_RESPONSE],
        texts: &[(1, Said::Text(CII)), (2, Said::Text(TS)), (2, Said::Closed), (3, Said::Text(CII)),
            (4, Said::Text(TS))],
    },
    ..OFTEN
};

/// The lines of this watch.
#[rattlefmt::skip]
pub const CLOSED: &[&str] = &[
    VISIT, CII_OPEN, STATE_BOTH, WC_OPEN, TS_OPEN, ANSWER, CONTROL, REPORT,
    session_closed!("2", "20"),
    r#"{"event":"end","number":1,"why":"closed TS"}"#,
    r#"{"event":"visit","number":2,"reading":"21"}"#,
    CII_OPEN, STATE_BOTH, WC_OPEN, TS_OPEN,
    answer!("0", "1", "28", "26", "6000", "6001", "7"),
    CONTROL,
    known!("0", "3", "30", "1", r#""900000","900000""#, r#""6000","6007""#),
    known!("0", "4", "1000000000", "1", r#""990000","990000""#, r#""1000005970","1000005977""#),
];

/// Calls of the outside in this watch, and how many lines are written where one of them fails.
#[rattlefmt::skip]
pub const FAILING: &[(&[u64], usize)] = &[
    (&[1], 0), (&[3], 2), (&[4], 3), (&[7, 8, 9, 10, 11], 5), (&[12, 13], 6), (&[14], 7),
    (&[15, 16, 17, 18, 19, 20, 21], 8), (&[22, 23], 10), (&[25], 12), (&[26], 13), (&[29, 30, 31, 32, 33], 15),
    (&[34, 35], 16), (&[36], 17), (&[37, 38, 39, 40], 18), (&[41, 42], 19),
];

// ---- the evening of `examples/evening.schedule`: the same times at both ends, and the same ticks

/// The television declares 12,800 of 1/256 ppm and 2^-20 s. The request of 12 ms was received at 5.013 s and answered
/// 200 µs later.
const FIRST_ANSWER: &[u8] =
    b"\0\x01\xec\0\0\0\x32\0\0\0\0\0\0\xb7\x1b\0\0\0\0\x05\0\xc6]@\0\0\0\x05\0\xc9j\x80";

/// The request of 30 ms was received at 5.0305 s and answered 100 µs later.
const SECOND_ANSWER: &[u8] =
    b"\0\x01\xec\0\0\0\x32\0\0\0\0\0\x01\xc9\xc3\x80\0\0\0\x05\x01\xd1d\xa0\0\0\0\x05\x01\xd2\xeb@";

const BEGINS: &str =
    r#"{"contentTime":"900000","timelineSpeedMultiplier":1,"wallClockTime":"5000000000"}"#;

const PAUSES: &str =
    r#"{"contentTime":"901800","timelineSpeedMultiplier":0,"wallClockTime":"5020000000"}"#;

const RESUMES: &str =
    r#"{"contentTime":"6300000","timelineSpeedMultiplier":1,"wallClockTime":"5024000000"}"#;

/// A report is due each millisecond. The first response is lost. The clock reads at each turn, request and landing. TS
/// closes two turns before the last, so the visit ends with the watch.
#[rattlefmt::skip]
const EVENING: Case<'static> = Case {
    words: "watch --cii ws://127.0.0.1:6677/cii --seconds 1 --report-every 1000000 --ask-every 400000 \
--local-error 12800 --local-precision 1000",
    world: World {
        times: &[
            0, 500_000, 600_000, 1_000_000, 12_000_000, 14_000_000, 14_000_000, 14_000_000, 21_000_000, 21_000_000,
            22_000_000, 30_000_000, 31_000_000, 31_000_000, 31_000_000, 40_000_000, 40_000_000, 1_000_000_000,
        ],
        slept: &[],
        datagrams: &[NONE, FIRST_ANSWER, NONE, NONE, SECOND_ANSWER],
        texts: &[(1, Said::Text(CII)), (2, Said::Text(BEGINS)), (2, Said::Text(BEGINS)), (2, Said::Text(BEGINS)),
            (2, Said::Text(PAUSES)), (2, Said::Text(RESUMES)), (2, Said::Closed)],
    },
    ..BLANK
};

/// The lines of this watch.
#[rattlefmt::skip]
const EVENING_TOLD: &[&str] = &[
    VISIT, CII_OPEN, STATE_BOTH, WC_OPEN, TS_OPEN,
    control!("900000", "1", "5000000000"),
    no_answer!("1", "1000000", "no response to 1 requests"),
    answer!("12800", "954", "14000000", "12000000", "5013000000", "5013200000", "1806113"),
    control!("900000", "1", "5000000000"),
    known!("12800", "2", "14000000", "1", r#""901187","901350""#, r#""5013197044","5015003157""#),
    control!("900000", "1", "5000000000"),
    known!("12800", "3", "21000000", "1", r#""901817","901980""#, r#""5020196344","5022003857""#),
    control!("901800", "0", "5020000000"),
    known!("12800", "4", "22000000", "0", r#""901800","901800""#, r#""5021196244","5023003957""#),
    answer!("12800", "954", "31000000", "30000000", "5030500000", "5030600000", "906013"),
    control!("6300000", "1", "5024000000"),
    known!("12800", "5", "31000000", "1", r#""6300593","6300675""#, r#""5030597044","5031503057""#),
    session_closed!("6", "40000000"),
    session_closed!("7", "1000000000"),
];

// ---- all

/// Watches of what a television may do.
#[rattlefmt::skip]
pub const WATCHES: &[WatchRow] = &[
    ("every dial fails", Case { calls: &[2, 4], ..WATCH }, "unreachable after 3 turns",
        &[VISIT, failed!("other"), no_answer!("1", "1000000000", "CII isn't open"),
            no_answer!("2", "2000000000", "CII isn't open")]),
    ("dials fail in two ways", FAILS, "unreachable after 4 turns",
        &[VISIT, failed!("HTTP status 404"), no_answer!("1", "1000000000", "CII isn't open"), failed!("refused"),
            no_answer!("2", "2000000000", "CII isn't open"), no_answer!("3", "3000000000", "CII isn't open")]),
    ("no wcUrl", Case { world: TELLS_NO_WC, ..WATCH }, "no interval in 2 reports",
        &[VISIT, CII_OPEN, STATE_NONE, no_answer!("1", "1000000000", "no wcUrl"),
            no_answer!("2", "2000000000", "no wcUrl")]),
    ("three requests and no answer", ASKS, "no interval in 4 reports",
        &[VISIT, CII_OPEN, STATE_WC, no_answer!("1", "1000000000", "WC isn't open"), WC_OPEN,
            no_answer!("2", "2000000000", "no response to 1 requests"),
            no_answer!("3", "3000000000", "no response to 2 requests"),
            no_answer!("4", "4000000000", "no response to 3 requests")]),
    ("the TS session closes", CLOSES, "done", CLOSED),
];

/// Watches whose lines say why.
#[rattlefmt::skip]
pub const REASONS: &[WatchRow] = &[
    ("a timeline that isn't listed", UNLISTED, "no interval in 2 reports",
        &[VISIT, CII_OPEN, STATE_LISTS, WC_OPEN, TS_OPEN, ANSWER, NO_CONTROL,
            caused!("Unavailable", "1", "10", "the set lists urn:a, urn:b"),
            caused!("Unavailable", "2", "1000000000", "the set lists urn:a, urn:b")]),
    ("a timeline that is listed", LISTED, "no interval in 2 reports",
        &[VISIT, CII_OPEN, STATE_LISTS, WC_OPEN, TS_OPEN, ANSWER, NO_CONTROL, caused!("Unavailable", "1", "10", ""),
            caused!("Unavailable", "2", "1000000000", "")]),
    ("a timeline without a rate", UNRATED, "no interval in 2 reports",
        &[VISIT, CII_OPEN, STATE_BOTH, WC_OPEN, TS_OPEN, ANSWER, CONTROL,
            caused!("NoRate", "1", "10", "the set lists no timeline"),
            caused!("NoRate", "2", "1000000000", "the set lists no timeline")]),
    ("what can't be read", UNREADABLE, "no interval in 2 reports",
        &[VISIT, CII_OPEN, STATE_BOTH, WC_OPEN, TS_OPEN,
            r#"{"bytes":"01ff637373","event":"refused","fault":"Undecodable Length","landed":"8"}"#,
            r#"{"event":"control","fault":"NotJson","text":"{\"a\": é"}"#,
            no_answer!("1", "10", "the last datagram was refused: Undecodable Length"),
            no_answer!("2", "1000000000", "the last datagram was refused: Undecodable Length")]),
];

/// Watches that begin another visit, that sleep, and that last for an evening.
#[rattlefmt::skip]
pub const VISITS: &[WatchRow] = &[
    ("another wcUrl", Case { world: MOVES, ..SECOND }, "no interval in 1 reports",
        &[VISIT, CII_OPEN, STATE_WC, WC_OPEN, r#"{"event":"end","number":1,"why":"moved wcUrl"}"#,
            r#"{"event":"visit","number":2,"reading":"10"}"#, CII_OPEN, STATE_OTHER_WC, WC_OPEN,
            no_answer!("1", "1000000000", "no response to 1 requests")]),
    ("another tsUrl, and the TS session closes before it is told", Case { world: MOVES_TS, ..SECOND },
        "no interval in 1 reports",
        &[VISIT, CII_OPEN, STATE_BOTH, WC_OPEN, TS_OPEN, STATE_BOTH,
            r#"{"event":"end","number":1,"why":"moved tsUrl"}"#, r#"{"event":"visit","number":2,"reading":"20"}"#,
            CII_OPEN, STATE_OTHER_TS, WC_OPEN, TS_OPEN, no_answer!("1", "1000000000", "no response to 1 requests")]),
    ("no object", Case { world: NO_OBJECT, ..SECOND }, "no interval in 1 reports",
        &[VISIT, CII_OPEN, r#"{"event":"end","number":1,"text":"[]","why":"CII text 1: not object"}"#,
            r#"{"event":"visit","number":2,"reading":"1"}"#, CII_OPEN, STATE_NONE,
            no_answer!("1", "1000000000", "no wcUrl")]),
    ("the wall clock is set", Case { world: DISAGREES, ..ASKING }, "no interval in 1 reports",
        &[VISIT, CII_OPEN, STATE_WC, WC_OPEN, answer!("0", "1", "100", "0", "5000", "5000", "106"),
            answer!("0", "1", "1100", "1000", "9000", "9000", "106"), DISAGREED,
            r#"{"event":"visit","number":2,"reading":"1000000000"}"#, no_answer!("1", "1000000000", "CII isn't open")]),
    ("two answers that agree", ALLOWS, "done",
        &[VISIT, CII_OPEN, STATE_BOTH, WC_OPEN, TS_OPEN, answer!("0", "1", "100", "0", "5000", "5000", "106"), CONTROL,
            answer!("0", "1", "1100", "1000", "6030", "6040", "96"),
            known!("0", "1", "2000", "1", r#""900000","900000""#, r#""6937","7033""#, r#""6937","7003""#),
            known!("0", "2", "1000000000", "1", r#""990000","990000""#, r#""1000004937","1000005033""#,
                r#""1000004937","1000005003""#)]),
    ("a sleep between two reports", Case { world: SLEEPS, ..OFTEN }, "done",
        &[VISIT, CII_OPEN, STATE_BOTH, WC_OPEN, TS_OPEN, ANSWER, CONTROL, REPORT,
            r#"{"event":"slept","reading":"20"}"#,
            no_answer!("2", "20", "nothing was asked"),
            no_answer!("3", "1000000000", "no response to 1 requests")]),
    ("an evening", EVENING, "done", EVENING_TOLD),
    ("words of no watch", Case { words: "watch", ..BLANK }, "usage", &[]),
];
