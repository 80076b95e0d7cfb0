//! The rows of a television's runs.
use crate::rows::{CLOSED, QUIET, Row};
use css_outside::Kind;

/// A request with the originate value 4800, the same and one more byte, its first 31 bytes, and a response.
const REQUEST: &[u8] = b"\0\0\0\0\0\0\0\0\0\0\0\0\0\0\x12\xc0\0\0\0\0\0\0\0\0\0\0\0\0\0\0\0\0";

const LONG: &[u8] = b"\0\0\0\0\0\0\0\0\0\0\0\0\0\0\x12\xc0\0\0\0\0\0\0\0\0\0\0\0\0\0\0\0\0\0";

const SHORT: &[u8] = b"\0\0\0\0\0\0\0\0\0\0\0\0\0\0\x12\xc0\0\0\0\0\0\0\0\0\0\0\0\0\0\0\0";

const RESPONSE: &[u8] = b"\0\x01\0\0\0\0\0\0\0\0\0\0\0\0\x12\xc0\0\0\0\0\0\0\0\0\0\0\0\0\0\0\0\0";

#[rattlefmt::skip]
const SETUP: Option<&str> = Some("{\"contentIdStem\":\"\",\"timelineSelector\":\"urn:dvb:css:timeline:pts\"}");

#[rattlefmt::skip]
const PRESENTATION: Option<&str> = Some(
    "{\"earliest\":{\"contentTime\":\"900000\",\"wallClockTime\":\"10040000000\"},\
    \"latest\":{\"contentTime\":\"900000\",\"wallClockTime\":\"plusinfinity\"}}");

/// One of 257 sessions comes in each turn.
#[rattlefmt::skip]
pub const CROWD: Row = Row { turns: 258, openings: &[Some(Kind::Ts); 257], ..QUIET };

/// A datagram comes, and no answer is sent.
#[rattlefmt::skip]
const DROPPED: Row = Row { times: &[4900, 5000, 5200], told: "LISTEN; turn; take; receive; accept", ..QUIET };

/// A line of the script is refused in the first turn.
#[rattlefmt::skip]
const REFUSED: Row = Row { name: "a refused line", told: "LISTEN; turn", ..QUIET };

/// Each call of the first run fails.
#[rattlefmt::skip]
pub const CALLS: &[Row] = &[
    QUIET,
    Row { name: "two turns", turns: 2, told: "LISTEN; turn; take; accept; turn; take; accept", ..QUIET },
    Row { name: "call 1 fails", fails: &[1], ended: "NetFault", told: "LISTEN", ..QUIET },
    Row { name: "call 2 fails", fails: &[2], ended: "NetFault", told: "LISTEN; turn", ..QUIET },
    Row { name: "call 3 fails", fails: &[3], ended: "NetFault", told: "LISTEN; turn; take", ..QUIET },
    Row { name: "call 4 fails", fails: &[4], ended: "NetFault", told: "LISTEN; turn; take; accept", ..QUIET },
];

#[rattlefmt::skip]
pub const SCRIPTS: &[Row] = &[
    Row { script: "0 speed 1", ended: "BadLine { line: 1, why: Player(NoProgramme) }", ..REFUSED },
    Row { script: "0 programme dvb://1\n0 timeline 2 urn:x:1 1 50 0\n0 speed 1",
        ended: "BadLine { line: 2, why: Player(NoProgramme) }", ..REFUSED },
    Row { script: "0 programme dvb://1\n0 change 1\n0 speed 65",
        ended: "BadLine { line: 3, why: Player(Speed) }", ..REFUSED },
    Row { script: "0 programme dvb://1\n0 change 1\n0 seek 100000000000000001",
        ended: "BadLine { line: 3, why: Player(Range) }", ..REFUSED },
    Row { script: "0 programme dvb://1\n0 timeline 1 urn:x:1 1 50 100000000000000001",
        ended: "BadLine { line: 2, why: Player(Range) }", ..REFUSED },
    Row { name: "17 timelines", script: "0 programme dvb://1\n\
            0 timeline 1 urn:x:1 1 50 0\n0 timeline 1 urn:x:1 1 50 0\n0 timeline 1 urn:x:1 1 50 0\n\
            0 timeline 1 urn:x:1 1 50 0\n0 timeline 1 urn:x:1 1 50 0\n0 timeline 1 urn:x:1 1 50 0\n\
            0 timeline 1 urn:x:1 1 50 0\n0 timeline 1 urn:x:1 1 50 0\n0 timeline 1 urn:x:1 1 50 0\n\
            0 timeline 1 urn:x:1 1 50 0\n0 timeline 1 urn:x:1 1 50 0\n0 timeline 1 urn:x:1 1 50 0\n\
            0 timeline 1 urn:x:1 1 50 0\n0 timeline 1 urn:x:1 1 50 0\n0 timeline 1 urn:x:1 1 50 0\n\
            0 timeline 1 urn:x:1 1 50 0\n0 timeline 1 urn:x:1 1 50 0",
        ended: "BadLine { line: 18, why: Player(Full) }", ..REFUSED },
    Row { name: "a line that is due in the second turn", turns: 2, script: "0 programme dvb://1\n10 speed 1",
        times: &[0, 10], ended: "BadLine { line: 2, why: Player(NoProgramme) }",
        told: "LISTEN; turn; take; accept; turn", ..QUIET },
    Row { name: "a line that waits for the one before it", script: "10 programme dvb://1\n0 speed 1", ..QUIET },
    Row { name: "times that count from the first turn", turns: 2, relative: true,
        script: "0 programme dvb://1\n0 timeline 1 urn:dvb:css:timeline:pts 1 90000 0\n1000 change 1",
        times: &[5000, 6000], openings: &[Some(Kind::Ts)], texts: &[(1, SETUP)],
        told: "LISTEN; turn; take; accept; text 1; \
            say 1 {\"contentTime\":null,\"timelineSpeedMultiplier\":null,\"wallClockTime\":\"0\"}; \
            turn; say 1 {\"contentTime\":\"0\",\"timelineSpeedMultiplier\":1,\"wallClockTime\":\"6000\"}; \
            take; accept; text 1; hang 1", ..QUIET },
];

/// The third turn is the last by its time.
#[rattlefmt::skip]
pub const LIMITS: &[Row] = &[
    Row { name: "a second", seconds: 1, times: &[5, 999_999_999, 1_000_000_005],
        told: "LISTEN; turn; rest 1000000005; take; accept; turn; rest 1000000005; take; accept; turn", ..QUIET },
    Row { name: "a line before the last turn", seconds: 1, relative: true,
        script: "0 programme dvb://1\n300 change 1", times: &[5, 400, 1_000_000_005],
        told: "LISTEN; turn; rest 305; take; accept; turn; rest 1000000005; take; accept; turn", ..QUIET },
    Row { name: "a line in the last turn", seconds: 1, script: "0 programme dvb://1\n1000000005 change 1",
        times: &[5, 999_999_999, 1_000_000_005], openings: &[Some(Kind::Cii)],
        told: "LISTEN; turn; rest 1000000005; take; accept; say 1 DARK; text 1; \
            turn; rest 1000000005; take; accept; text 1; turn; say 1 SHOWN; hang 1", ..QUIET },
];

#[rattlefmt::skip]
pub const DATAGRAMS: &[Row] = &[
    Row { name: "one more byte", datagrams: &[LONG], ..DROPPED },
    Row { name: "31 bytes", datagrams: &[SHORT], ..DROPPED },
    Row { name: "a response in place of a request", datagrams: &[RESPONSE], ..DROPPED },
    Row { name: "a request", datagrams: &[REQUEST],
        told: "LISTEN; turn; take; receive; give; send 9 1 5000 5200; accept", ..DROPPED },
    Row { name: "sleeps are passed over", slept: &[4900, 5000, 5200], datagrams: &[REQUEST],
        told: "LISTEN; turn; take; receive; give; send 9 1 5000 5200; accept", ..DROPPED },
    Row { name: "a request that is answered with a follow-up, and one at the same reading", follow: true, turns: 2,
        datagrams: &[REQUEST, REQUEST],
        told: "LISTEN; turn; take; receive; give; send 9 2 5000 5000; send 9 3 5000 5200; accept; \
            turn; take; receive; give; send 9 2 5200 5200; send 9 3 5200 5200; accept", ..DROPPED },
];

#[rattlefmt::skip]
pub const SESSIONS: &[Row] = &[
    Row { name: "a session of content identification, which is hung up at the end", turns: 2,
        script: "0 programme dvb://1\n10 change 1", times: &[0, 10], openings: &[Some(Kind::Cii)],
        told: "LISTEN; turn; take; accept; say 1 DARK; text 1; \
            turn; say 1 SHOWN; take; accept; text 1; hang 1", ..QUIET },
    Row { name: "a text on a session of content identification", turns: 2, openings: &[Some(Kind::Cii)],
        texts: &[(1, Some("{}")), (1, Some("{}"))],
        told: "LISTEN; turn; take; accept; say 1 DARK; text 1; hang 1; turn; take; accept", ..QUIET },
    Row { name: "a session that its peer closes", turns: 2, openings: &[Some(Kind::Cii)],
        texts: &[(1, CLOSED), (1, Some("{}"))],
        told: "LISTEN; turn; take; accept; say 1 DARK; text 1; turn; take; accept", ..QUIET },
    Row { name: "the first text is gone", turns: 2, openings: &[Some(Kind::Cii)], gone: &[1],
        told: "LISTEN; turn; take; accept; say 1 DARK; turn; take; accept", ..QUIET },
    Row { name: "a text is gone in the middle of a step", turns: 4, script: "0 programme dvb://1\n4 change 1",
        times: &[1, 2, 3, 4], openings: &[Some(Kind::Cii), Some(Kind::Cii), Some(Kind::Cii)], gone: &[5],
        told: "LISTEN; turn; take; accept; say 1 DARK; text 1; turn; take; accept; say 2 DARK; text 1; text 2; \
            turn; take; accept; say 3 DARK; text 1; text 2; text 3; turn; say 1 SHOWN; say 2 SHOWN; say 3 SHOWN; \
            take; accept; text 1; text 3; hang 1; hang 3", ..QUIET },
    Row { name: "a presentation, as a companion that wants to be 40 ms later", turns: 3,
        script: "0 programme dvb://1\n0 timeline 1 urn:dvb:css:timeline:pts 1 90000 900000\n0 change 1",
        times: &[10_000_000_000], openings: &[Some(Kind::Ts)], texts: &[(1, SETUP), (1, PRESENTATION)],
        told: "LISTEN; turn; take; accept; text 1; \
            say 1 {\"contentTime\":\"900000\",\"timelineSpeedMultiplier\":1,\"wallClockTime\":\"10000000000\"}; \
            turn; take; accept; text 1; \
            say 1 {\"contentTime\":\"900000\",\"timelineSpeedMultiplier\":1,\"wallClockTime\":\"10040000000\"}; \
            turn; take; accept; text 1; hang 1", ..QUIET },
    Row { name: "a setup that is no object", openings: &[Some(Kind::Ts)], texts: &[(1, Some("[]"))],
        told: "LISTEN; turn; take; accept; text 1; hang 1", ..QUIET },
];
