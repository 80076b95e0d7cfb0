//! The rows of a companion's runs, and of their records.
use crate::rows::{CLOSED, QUIET, Row};

/// A response with the originate value 6, the receive value 5000 and the transmit value 5001.
const RESPONSE: &[u8] =
    b"\0\x01\xe2\0\0\0\0\0\0\0\0\0\0\0\0\x06\0\0\0\0\0\0\x13\x88\0\0\0\0\0\0\x13\x89";

/// The same and one more byte, and its first 31 bytes.
const LONG: &[u8] =
    b"\0\x01\xe2\0\0\0\0\0\0\0\0\0\0\0\0\x06\0\0\0\0\0\0\x13\x88\0\0\0\0\0\0\x13\x89\0";

const SHORT: &[u8] = b"\0\x01\xe2\0\0\0\0\0\0\0\0\0\0\0\0\x06\0\0\0\0\0\0\x13\x88\0\0\0\0\0\0\x13";

/// The same to the request of the reading 7, and as a request.
const OF_ANOTHER: &[u8] =
    b"\0\x01\xe2\0\0\0\0\0\0\0\0\0\0\0\0\x07\0\0\0\0\0\0\x13\x88\0\0\0\0\0\0\x13\x89";

const REQUEST: &[u8] =
    b"\0\0\xe2\0\0\0\0\0\0\0\0\0\0\0\0\x06\0\0\0\0\0\0\x13\x88\0\0\0\0\0\0\x13\x89";

/// The transmit value is 6000, long after the landing.
const IMPOSSIBLE: &[u8] =
    b"\0\x01\xe2\0\0\0\0\0\0\0\0\0\0\0\0\x06\0\0\0\0\0\0\x13\x88\0\0\0\0\0\0\x17\x70";

/// A response to the request of the reading 12, with 6000 and 6001.
const AFTER_SLEEP: &[u8] =
    b"\0\x01\xe2\0\0\0\0\0\0\0\0\0\0\0\0\x0c\0\0\0\0\0\0\x17\x70\0\0\0\0\0\0\x17\x71";

#[rattlefmt::skip]
const CII: Option<&str> =
    Some("{\"timelines\":null,\"tsUrl\":\"ws://127.0.0.1:6678/ts\",\"wcUrl\":\"udp://127.0.0.1:6677\"}");

#[rattlefmt::skip]
const TS: Option<&str> =
    Some("{\"contentTime\":\"900000\",\"timelineSpeedMultiplier\":1,\"wallClockTime\":\"0\"}");

const TWO_INTERVALS: &str = "1 ticks 900000 900000; 2 ticks 900000 900000";

const ONE_INTERVAL: &str = "1 ticks 900000 900000";

const WITHOUT_ANSWER: &str = "1 none NoAnswer; 2 none NoAnswer";

const WITHOUT_TIMESTAMP: &str = "1 none NoTimestamp; 2 none NoTimestamp";

/// The record of a companion that reported twice.
pub const RECORD: &str = "HEADER; turn 0; ADDRESSES; turn 5; ask 6; LANDING; CONTROL; \
    turn 10; report 1 ticks 900000 900000; turn 20; report 2 ticks 900000 900000";

/// The run that most rows vary: two reports in four turns, of an answer and a control timestamp, in 20 calls.
#[rattlefmt::skip]
pub const K: Row = Row {
    name: "two intervals", turns: 4, reports: 2, times: &[0, 5, 6, 8, 10, 20], sender: 2, datagrams: &[RESPONSE],
    texts: &[(1, CII), (2, TS)], told: TWO_INTERVALS, record: Some(RECORD), ..QUIET
};

/// Like it, but its record isn't looked at.
const L: Row = Row { record: None, ..K };

/// A run that ends with a text of the CII session.
const REFUSED: Row = Row { told: "", ..L };

/// One report in three turns.
#[rattlefmt::skip]
const SOON: Row = Row { turns: 3, reports: 1, times: &[0, 1, 2], texts: &[], told: "", ..L };

/// Nine reports in two seconds.
#[rattlefmt::skip]
const TIMED: Row = Row {
    seconds: 2, reports: 9, times: &[0, 1_000_000_000, 2_000_000_000], report_every: 1_000_000_000,
    told: WITHOUT_ANSWER, ..SOON
};

/// Whole runs, and datagrams that answer nothing.
#[rattlefmt::skip]
pub const ANSWERS: &[Row] = &[
    K,
    Row { name: "one report is asked for", turns: 3, reports: 1, told: ONE_INTERVAL, ..L },
    Row { name: "one more byte", datagrams: &[LONG], told: WITHOUT_ANSWER, ..L },
    Row { name: "31 bytes", datagrams: &[SHORT], told: WITHOUT_ANSWER, ..L },
    Row { name: "an answer to another request", datagrams: &[OF_ANOTHER], told: WITHOUT_ANSWER, ..L },
    Row { name: "a request in place of the answer", datagrams: &[REQUEST], told: WITHOUT_ANSWER, ..L },
    Row { name: "an impossible answer", datagrams: &[IMPOSSIBLE], told: WITHOUT_ANSWER, ..L },
];

/// Texts of the second session, ends of sessions, and texts that are sent.
#[rattlefmt::skip]
pub const SESSIONS: &[Row] = &[
    Row { name: "a control timestamp that is cut off", texts: &[(1, CII), (2, Some("{\"contentTime\":\"9000"))],
        told: "1 none Unreadable NotJson; 2 none Unreadable NotJson", ..L },
    Row { name: "the TS session is closed in place of its text", texts: &[(1, CII), (2, CLOSED)],
        told: WITHOUT_TIMESTAMP, ..L },
    Row { name: "a text of a session that was closed", texts: &[(1, CII), (2, CLOSED), (2, TS)],
        told: WITHOUT_TIMESTAMP, ..L },
    Row { name: "the TS session is closed after its text", texts: &[(1, CII), (2, TS), (2, CLOSED)],
        told: "1 ticks 900000 900000; 2 none SessionClosed",
        record: Some("HEADER; turn 0; ADDRESSES; turn 5; ask 6; LANDING; CONTROL; \
            turn 10; report 1 ticks 900000 900000; closed ts; turn 20; report 2 none SessionClosed"), ..K },
    Row { name: "the CII session is closed, and its next text is never heard",
        texts: &[(1, CII), (1, CLOSED), (1, Some("[]")), (2, TS)],
        record: Some("HEADER; turn 0; ADDRESSES; turn 5; ask 6; LANDING; closed cii; CONTROL; \
            turn 10; report 1 ticks 900000 900000; turn 20; report 2 ticks 900000 900000"), ..K },
    Row { name: "the setup is gone", gone: &[1], told: WITHOUT_TIMESTAMP,
        record: Some("HEADER; turn 0; ADDRESSES; turn 5; closed ts; ask 6; LANDING; \
            turn 10; report 1 none NoTimestamp; turn 20; report 2 none NoTimestamp"), ..K },
    Row { name: "the setup is gone before a presentation", gone: &[1], presents: true, told: WITHOUT_TIMESTAMP, ..L },
    Row { name: "the presentation is gone", gone: &[2], presents: true, told: WITHOUT_TIMESTAMP, ..L },
    Row { name: "a presentation", presents: true, ..L },
];

/// Texts of the first session that end the run.
#[rattlefmt::skip]
pub const REFUSALS: &[Row] = &[
    Row { name: "a CII text that is cut off", texts: &[(1, Some("{\"timelines\":null,\""))],
        ended: "BadCii { text: 1, fault: NotJson }", ..REFUSED },
    Row { name: "an empty CII text", texts: &[(1, Some(""))], ended: "BadCii { text: 1, fault: NotJson }",
        record: Some("HEADER; turn 0; cii -"), ..REFUSED },
    Row { name: "a CII text that is no object", texts: &[(1, Some("[]"))],
        ended: "BadCii { text: 1, fault: NotObject }", record: Some("HEADER; turn 0; cii 5b5d"), ..REFUSED },
    Row { name: "the second CII text has another form", texts: &[(1, Some("{}")), (1, Some("{\"contentId\":5}"))],
        ended: "BadCii { text: 2, fault: Field(ContentId) }", ..REFUSED },
    Row { name: "the address of the wall clock is moved",
        texts: &[(1, Some("{\"wcUrl\":\"udp://127.0.0.1:6677\"}")), (1, Some("{\"wcUrl\":\"udp://127.0.0.1:7000\"}"))],
        ended: "Moved { property: WcUrl, ", ..REFUSED },
    Row { name: "the address of the timelines is moved",
        texts: &[(1, Some("{\"tsUrl\":\"ws://127.0.0.1/\"}")), (1, Some("{\"tsUrl\":\"ws://127.0.0.1/ts\"}"))],
        ended: "Moved { property: TsUrl, ", ..REFUSED },
    Row { name: "no address of the wall clock", texts: &[(1, Some("{\"wcUrl\":\"http://h/\"}"))],
        ended: "BadUrl { property: WcUrl }", ..REFUSED },
    Row { name: "no address of the timelines", texts: &[(1, Some("{\"tsUrl\":\"http://h/\"}"))],
        ended: "BadUrl { property: TsUrl }", ..REFUSED },
];

/// Sleeps, and turns that end before the reports.
#[rattlefmt::skip]
pub const TURNS: &[Row] = &[
    Row { name: "a sleep before the request", slept: &[6],
        record: Some("HEADER; turn 0; ADDRESSES; turn 5; slept; ask 6; LANDING; CONTROL; \
            turn 10; report 1 ticks 900000 900000; turn 20; report 2 ticks 900000 900000"), ..K },
    Row { name: "a sleep before the landing", slept: &[8], told: WITHOUT_ANSWER,
        record: Some("HEADER; turn 0; ADDRESSES; turn 5; ask 6; slept; LANDING; CONTROL; \
            turn 10; report 1 none NoAnswer; ask 20; turn 20; report 2 none NoAnswer"), ..K },
    Row { name: "a sleep before a turn ends the acceptance of the answer", slept: &[10], told: WITHOUT_ANSWER,
        record: Some("HEADER; turn 0; ADDRESSES; turn 5; ask 6; LANDING; CONTROL; \
            slept; turn 10; report 1 none NoAnswer; ask 20; turn 20; report 2 none NoAnswer"), ..K },
    Row { name: "after a sleep it is asked again", times: &[0, 5, 6, 8, 10, 12, 14, 20], slept: &[10],
        datagrams: &[RESPONSE, AFTER_SLEEP], told: "1 none NoAnswer; 2 ticks 900000 900000", ..L },
    Row { name: "every dial fails", fails: &[2, 4, 6], ended: "Unreachable { turns: 3 }", ..SOON },
    Row { name: "every dial fails, and the report comes", times: &[0, 1_000_000_000, 2_000_000_000],
        report_every: 1_000_000_000, fails: &[2, 4, 6], told: "1 none NoAnswer", ..SOON },
    Row { name: "the CII session is quiet", ended: "Spent { turns: 3 }", ..SOON },
    Row { name: "every dial fails for two seconds", fails: &[2, 4], ended: "Unreachable { turns: 3 }", ..TIMED },
    Row { name: "in the last turn by time nothing is heard", fails: &[8], ended: "Spent { turns: 3 }",
        texts: &[(1, Some("{}")), (1, Some("{}")), (1, Some("[]"))],
        record: Some("HEADER; turn 0; cii 7b7d; turn 1000000000; report 1 none NoAnswer; cii 7b7d; \
            turn 2000000000; report 2 none NoAnswer"), ..TIMED },
    Row { name: "the session is hung up after the last turn by time", fails: &[7], ended: "NetFault", ..TIMED },
    Row { name: "in the last turn by time the last report comes", reports: 2, ended: "Done", ..TIMED },
];

/// Dials and writes that fail.
#[rattlefmt::skip]
pub const DIALS: &[Row] = &[
    Row { name: "the dial of the CII session fails once", fails: &[2], ended: "Spent { turns: 4 }",
        told: "1 none NoAnswer",
        record: Some("HEADER; turn 0; turn 5; ADDRESSES; turn 6; ask 8; \
            land 10 0001e20000000000000000000000000600000000000013880000000000001389; CONTROL; \
            turn 20; report 1 none NoAnswer"), ..K },
    Row { name: "the dial of the wall clock fails", fails: &[5], ended: "Spent { turns: 4 }",
        told: "1 none NoAnswer", ..L },
    Row { name: "the dial of the TS session fails", fails: &[6],
        told: "1 none NoTimestamp; 2 ticks 900000 900000", ..L },
    Row { name: "a call after the last one fails", fails: &[21], ..K },
    Row { name: "the first write fails", sink_fails: &[1], ended: "WriteFault", told: "", ..L },
    Row { name: "the second write fails", sink_fails: &[2], ended: "WriteFault", told: ONE_INTERVAL, ..L },
];

/// The other calls of the first run, how the run is cut where one fails, and how many lines its record has then.
#[rattlefmt::skip]
pub const CUTS: &[(&[u64], &str, usize)] = &[
    (&[1], "", 1), (&[3], "", 2), (&[4], "", 3), (&[7], "", 4), (&[8], "", 4), (&[9], "", 4), (&[10], "", 5),
    (&[11], "", 5), (&[12], "", 6), (&[13], "", 6), (&[14], "", 7), (&[15], ONE_INTERVAL, 9),
    (&[16], ONE_INTERVAL, 9), (&[17], ONE_INTERVAL, 9), (&[18], ONE_INTERVAL, 9), (&[19], TWO_INTERVALS, 11),
    (&[20], TWO_INTERVALS, 11),
];

/// The write of the record that fails, and how many of its lines are written. A report's line is written with that of
/// its turn.
#[rattlefmt::skip]
pub const UNWRITTEN: &[(&[u64], usize)] = &[
    (&[1], 0), (&[2], 1), (&[3], 2), (&[4], 3), (&[5], 4), (&[6], 5), (&[7], 6), (&[8], 7), (&[9], 9),
];

pub const CUES: Row = Row {
    name: "cues and widths",
    told: "1 ticks 900000 900000; cue start passed; width 0; 2 ticks 900000 900000",
    ..K
};

/// A report and what is said of it are one write: where the second one fails, the first holds both.
pub const CUES_CUT: Row = Row {
    name: "the second write of a run with cues fails",
    sink_fails: &[2],
    ended: "WriteFault",
    told: "1 ticks 900000 900000; cue start passed; width 0",
    ..CUES
};

pub const LACKING: Row = Row {
    name: "a follower lacks memory",
    ended: "Memory",
    told: "1 ticks 900000 900000; width 0",
    ..K
};
