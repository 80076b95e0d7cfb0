//! The rows of a relay's runs.
use crate::rows::{CLOSED, QUIET as NOTHING, Row};
use css_outside::Kind;

/// A request with the originate value 42, and the same and one more byte.
const REQUEST: &[u8] = b"\0\0\0\0\0\0\0\0\0\0\0\0\0\0\0\x2a\0\0\0\0\0\0\0\0\0\0\0\0\0\0\0\0";

const LONG: &[u8] = b"\0\0\0\0\0\0\0\0\0\0\0\0\0\0\0\x2a\0\0\0\0\0\0\0\0\0\0\0\0\0\0\0\0\0";

/// A response with the originate value 1000, the receive value 5000, the transmit value 5200 and the precision -30.
const RESPONSE: &[u8] =
    b"\0\x01\xe2\0\0\0\0\0\0\0\0\0\0\0\x03\xe8\0\0\0\0\0\0\x13\x88\0\0\0\0\0\0\x14\x50";

/// The response to a request of 1700, received at 5700 and sent at 5900; and by a clock that is 5 s ahead.
const SECOND: &[u8] =
    b"\0\x01\xe2\0\0\0\0\0\0\0\0\0\0\0\x06\xa4\0\0\0\0\0\0\x16\x44\0\0\0\0\0\0\x17\x0c";

const AHEAD: &[u8] =
    b"\0\x01\xe2\0\0\0\0\0\0\0\0\0\0\0\x06\xa4\0\0\0\x05\0\0\x16\x44\0\0\0\x05\0\0\x17\x0c";

/// One to a request of 2000, received and sent at 9000, which contradicts [`RESPONSE`].
const FALSE: &[u8] =
    b"\0\x01\xe2\0\0\0\0\0\0\0\0\0\0\0\x07\xd0\0\0\0\0\0\0\x23\x28\0\0\0\0\0\0\x23\x28";

/// The response to a request of 2700, received at 6700 and sent at 6900.
const THIRD: &[u8] =
    b"\0\x01\xe2\0\0\0\0\0\0\0\0\0\0\0\x0a\x8c\0\0\0\0\0\0\x1a\x2c\0\0\0\0\0\0\x1a\xf4";

/// The television's addresses.
#[rattlefmt::skip]
const ADDRESSES: Option<&str> =
    Some("{\"tsUrl\":\"ws://127.0.0.1:6678/ts\",\"wcUrl\":\"udp://127.0.0.1:6677\"}");

const OKAY: Option<&str> = Some("{\"presentationStatus\":\"okay\"}");

/// One turn in which nothing comes.
#[rattlefmt::skip]
const QUIET: Row = Row { told: "SERVE; turn; dial; take; accept; text 1; hang 1", ..NOTHING };

/// A call fails.
#[rattlefmt::skip]
const CUT: Row = Row { name: "a call fails", ended: "NetFault", ..NOTHING };

/// One of 257 sessions comes in each turn.
#[rattlefmt::skip]
pub const CROWD: Row = Row { turns: 258, openings: &[Some(Kind::Cii); 257], ..QUIET };

/// The relay asks the television, and answers a request.
#[rattlefmt::skip]
const EXCHANGE: Row = Row {
    name: "a request is answered", turns: 3, times: &[900, 950, 1000, 1600, 1600, 1600, 1700],
    datagrams: &[b"", RESPONSE, REQUEST], texts: &[(1, ADDRESSES)],
    told: "SERVE; turn; dial; take; accept; text 1; turn; dial; other; send 2 0 0 0; take; other; accept; text 1; \
        turn; take; receive; give; send 9 1 5400 5500; accept; text 1; hang 1",
    ..QUIET
};

/// Each call of the first run fails, and a dial that fails ends nothing.
#[rattlefmt::skip]
pub const CALLS: &[Row] = &[
    QUIET,
    Row { fails: &[1], told: "SERVE", ..CUT },
    Row { fails: &[2], told: "SERVE; turn", ..CUT },
    Row { fails: &[4], told: "SERVE; turn; dial; take", ..CUT },
    Row { fails: &[5], told: "SERVE; turn; dial; take; accept", ..CUT },
    Row { fails: &[6], told: "SERVE; turn; dial; take; accept; text 1", ..CUT },
    Row { fails: &[7], told: "SERVE; turn; dial; take; accept; text 1; hang 1", ..CUT },
    Row { name: "every dial fails", turns: 2, fails: &[3, 7], ended: "Unreachable { turns: 2 }",
        told: "SERVE; turn; dial; take; accept; turn; dial; take; accept", ..QUIET },
    Row { name: "no call but the hang-up follows the reading of the last turn by time", seconds: 1,
        times: &[5, 999_999_999, 1_000_000_005],
        told: "SERVE; turn; dial; rest 1000000005; take; accept; text 1; turn; rest 1000000005; take; accept; text 1; \
            turn; hang 1", ..QUIET },
    Row { name: "every dial fails for a second", seconds: 1, times: &[5, 999_999_999, 1_000_000_005], fails: &[3, 7],
        ended: "Unreachable { turns: 3 }",
        told: "SERVE; turn; dial; rest 1000000005; take; accept; turn; dial; rest 1000000005; take; accept; turn",
        ..QUIET },
    Row { name: "a dial that failed is made again", turns: 2, fails: &[3],
        told: "SERVE; turn; dial; take; accept; turn; dial; take; accept; text 1; hang 1", ..QUIET },
];

/// Texts of the television, and what accepted sessions are told of them.
#[rattlefmt::skip]
pub const TEXTS: &[Row] = &[
    Row { name: "a television that closes is dialled again", turns: 2, texts: &[(1, CLOSED)],
        told: "SERVE; turn; dial; take; accept; text 1; turn; dial; take; accept; text 2; hang 2", ..QUIET },
    Row { name: "so is one that closes in the last turn, but for want of another turn", texts: &[(1, CLOSED)],
        told: "SERVE; turn; dial; take; accept; text 1", ..QUIET },
    Row { name: "a television that moves", turns: 3,
        texts: &[(1, Some("{\"wcUrl\":\"udp://127.0.0.1:6677\"}")), (1, Some("{\"wcUrl\":\"udp://127.0.0.1:7000\"}"))],
        told: "SERVE; turn; dial; take; accept; text 1; turn; dial; other; send 2 0 0 0; take; accept; text 1; hang 1; \
            turn; dial; take; accept; text 3; hang 3", ..QUIET },
    Row { name: "a refused text", turns: 2, texts: &[(1, Some("[]"))],
        told: "SERVE; turn; dial; take; accept; text 1; hang 1; turn; dial; take; accept; text 2; hang 2", ..QUIET },
    Row { name: "an address that is none", turns: 3, texts: &[(1, Some("{\"wcUrl\":\"ws://127.0.0.1:6677\"}"))],
        told: "SERVE; turn; dial; take; accept; text 1; turn; hang 1; turn; dial; take; accept; text 2; hang 2",
        ..QUIET },
    Row { name: "a tsUrl that moves is told on, and ends nothing", turns: 2, openings: &[Some(Kind::Cii)],
        texts: &[(1, ADDRESSES), (1, Some("{\"presentationStatus\":\"okay\",\"tsUrl\":\"ws://127.0.0.1:7000/ts\"}"))],
        told: "SERVE; turn; dial; take; accept; say 2 UNKNOWN; text 1; say 2 OWN; text 2; \
            turn; dial; other; send 3 0 0 0; take; accept; text 1; \
            say 2 {\"presentationStatus\":\"okay\",\"tsUrl\":\"ws://127.0.0.1:7000/ts\"}; text 2; hang 2; hang 1",
        ..QUIET },
    Row { name: "so is a tsUrl that is no address", turns: 2, openings: &[Some(Kind::Cii)],
        texts: &[(1, Some("{\"tsUrl\":\"none\"}"))],
        told: "SERVE; turn; dial; take; accept; say 2 UNKNOWN; text 1; say 2 {\"tsUrl\":\"none\"}; text 2; \
            turn; take; accept; text 1; text 2; hang 2; hang 1", ..QUIET },
    Row { name: "an accepted session is told the state, and then the relay's own address",
        openings: &[Some(Kind::Cii)], texts: &[(1, ADDRESSES)],
        told: "SERVE; turn; dial; take; accept; say 2 UNKNOWN; text 1; say 2 OWN; text 2; hang 2; hang 1", ..QUIET },
    Row { name: "a session that is gone is told and asked nothing more", openings: &[Some(Kind::Cii)],
        texts: &[(1, ADDRESSES)], gone: &[1],
        told: "SERVE; turn; dial; take; accept; say 2 UNKNOWN; text 1; hang 1", ..QUIET },
    Row { name: "each session is told the state of its opening whole, and then the changes alone", turns: 3,
        openings: &[Some(Kind::Cii), Some(Kind::Cii)], texts: &[(1, ADDRESSES), (1, OKAY), (1, OKAY)],
        told: "SERVE; turn; dial; take; accept; say 2 UNKNOWN; text 1; say 2 OWN; text 2; \
            turn; dial; other; send 3 0 0 0; take; accept; \
            say 4 {\"contentId\":null,\"contentIdStatus\":null,\"mrsUrl\":null,\"presentationStatus\":null,\
            \"protocolVersion\":null,\"teUrl\":null,\"timelines\":null,\
            \"tsUrl\":\"ws://127.0.0.1:6678/ts\",\"wcUrl\":\"udp://relay.example:6690\"}; \
            text 1; say 2 {\"presentationStatus\":\"okay\"}; say 4 {\"presentationStatus\":\"okay\"}; text 2; text 4; \
            turn; take; accept; text 1; text 2; text 4; hang 2; hang 4; hang 1", ..QUIET },
    Row { name: "a session that is gone at a change is not told the next", turns: 2, openings: &[Some(Kind::Cii)],
        texts: &[(1, ADDRESSES), (1, OKAY)], gone: &[2],
        told: "SERVE; turn; dial; take; accept; say 2 UNKNOWN; text 1; say 2 OWN; \
            turn; dial; other; send 3 0 0 0; take; accept; text 1; hang 1", ..QUIET },
];

/// The same television as in [`EXCHANGE`] is told on, closes while it serves, and is dialled anew. Nobody is answered
/// by what it said before.
#[rattlefmt::skip]
const RETURN: Row = Row {
    name: "a television that comes back", turns: 6, ask_every: 1_000_000_000,
    times: &[900, 950, 1000, 1600, 1600, 1600, 1700, 1700, 1700, 1700, 1700, 2300, 2300, 2300, 2400],
    datagrams: &[b"", RESPONSE, REQUEST, REQUEST, SECOND, REQUEST], openings: &[Some(Kind::Cii)],
    texts: &[(1, ADDRESSES), (1, OKAY), (1, CLOSED), (3, ADDRESSES)],
    told: "SERVE; turn; dial; take; accept; say 2 UNKNOWN; text 1; say 2 OWN; text 2; \
        turn; dial; other; send 3 0 0 0; take; other; accept; text 1; say 2 {\"presentationStatus\":\"okay\"}; text 2; \
        turn; take; receive; give; send 9 1 5400 5500; accept; text 1; hang 2; \
        turn; dial; take; receive; accept; text 4; \
        turn; dial; other; send 5 0 0 0; take; other; accept; text 4; \
        turn; take; receive; give; send 9 1 6100 6200; accept; text 4; hang 4",
    ..QUIET
};

/// Visits: each begins with nothing of those before it.
#[rattlefmt::skip]
pub const VISITS: &[Row] = &[
    RETURN,
    // The answers are 5,015,006,100 and 5,015,006,200, of which the last 16 bits are noted.
    Row { name: "it comes back with a clock 5 s ahead, over a way that is 30 ms slower",
        times: &[900, 950, 1000, 1600, 1600, 1600, 1700, 1700, 1700, 1700, 1700, 30_002_300, 30_002_300, 30_002_300,
            30_002_400],
        datagrams: &[b"", RESPONSE, REQUEST, REQUEST, AHEAD, REQUEST],
        told: "SERVE; turn; dial; take; accept; say 2 UNKNOWN; text 1; say 2 OWN; text 2; \
            turn; dial; other; send 3 0 0 0; take; other; accept; text 1; say 2 {\"presentationStatus\":\"okay\"}; \
            text 2; turn; take; receive; give; send 9 1 5400 5500; accept; text 1; hang 2; \
            turn; dial; take; receive; accept; text 4; \
            turn; dial; other; send 5 0 0 0; take; other; accept; text 4; \
            turn; take; receive; give; send 9 1 63892 63992; accept; text 4; hang 4", ..RETURN },
    Row { name: "an answer that contradicts those before it ends the visit and the turn", turns: 4,
        times: &[900, 950, 1000, 1600, 2000, 2000, 2100], datagrams: &[b"", RESPONSE, FALSE],
        openings: &[Some(Kind::Cii)], texts: &[(1, ADDRESSES), (1, OKAY)],
        told: "SERVE; turn; dial; take; accept; say 2 UNKNOWN; text 1; say 2 OWN; text 2; \
            turn; dial; other; send 3 0 0 0; take; other; accept; text 1; say 2 {\"presentationStatus\":\"okay\"}; \
            text 2; turn; other; send 3 0 0 0; take; other; hang 2; hang 1; \
            turn; dial; take; accept; text 4; hang 4", ..QUIET },
    Row { name: "and the next answer to a request goes by the second visit alone", turns: 6,
        times: &[900, 950, 1000, 1600, 2000, 2000, 2100, 2100, 2100, 2700, 2700, 3300, 3300, 3300, 3400],
        datagrams: &[b"", RESPONSE, FALSE, REQUEST, THIRD, REQUEST], openings: &[Some(Kind::Cii)],
        texts: &[(1, ADDRESSES), (1, OKAY), (3, ADDRESSES)],
        told: "SERVE; turn; dial; take; accept; say 2 UNKNOWN; text 1; say 2 OWN; text 2; \
            turn; dial; other; send 3 0 0 0; take; other; accept; text 1; say 2 {\"presentationStatus\":\"okay\"}; \
            text 2; turn; other; send 3 0 0 0; take; other; hang 2; hang 1; \
            turn; dial; take; receive; accept; text 4; \
            turn; dial; other; send 5 0 0 0; take; other; accept; text 4; \
            turn; take; receive; give; send 9 1 7100 7200; accept; text 4; hang 4", ..QUIET },
    Row { name: "a sleep lies between them, so they don't contradict each other", slept: &[1900],
        told: "SERVE; turn; dial; take; accept; say 2 UNKNOWN; text 1; say 2 OWN; text 2; \
            turn; dial; other; send 3 0 0 0; take; other; accept; text 1; say 2 {\"presentationStatus\":\"okay\"}; \
            text 2; turn; other; send 3 0 0 0; take; other; accept; text 1; text 2; hang 2; hang 1",
        turns: 3, times: &[900, 950, 1000, 1600, 1900, 2000, 2100], datagrams: &[b"", RESPONSE, FALSE],
        openings: &[Some(Kind::Cii)], texts: &[(1, ADDRESSES), (1, OKAY)], ..QUIET },
    Row { name: "a hang-up at the end of a visit fails", turns: 2, texts: &[(1, Some("[]"))], fails: &[7],
        ended: "NetFault", told: "SERVE; turn; dial; take; accept; text 1; hang 1", ..QUIET },
    Row { name: "the seconds of all visits count from the first turn", seconds: 1,
        times: &[5, 999_999_999, 1_000_000_005], texts: &[(1, CLOSED)],
        told: "SERVE; turn; dial; rest 1000000005; take; accept; text 1; \
            turn; dial; rest 1000000005; take; accept; text 2; turn; hang 2", ..QUIET },
    Row { name: "a visit that reached nobody follows one that did", turns: 2, texts: &[(1, CLOSED)], fails: &[8],
        told: "SERVE; turn; dial; take; accept; text 1; turn; dial; take; accept", ..QUIET },
];

/// How accepted sessions end, and datagrams.
#[rattlefmt::skip]
pub const ENDS: &[Row] = &[
    Row { name: "a text of an accepted session ends it", turns: 2, openings: &[Some(Kind::Cii)],
        texts: &[(2, Some("{}"))],
        told: "SERVE; turn; dial; take; accept; say 2 UNKNOWN; text 1; text 2; hang 2; \
            turn; take; accept; text 1; hang 1", ..QUIET },
    Row { name: "an accepted session closes", turns: 2, openings: &[Some(Kind::Cii)], texts: &[(2, CLOSED)],
        told: "SERVE; turn; dial; take; accept; say 2 UNKNOWN; text 1; text 2; \
            turn; take; accept; text 1; hang 1", ..QUIET },
    Row { name: "a session of timelines is hung up", openings: &[Some(Kind::Ts)],
        told: "SERVE; turn; dial; take; accept; hang 2; text 1; hang 1", ..QUIET },
    Row { name: "a session accepted before the television's is hung up before it", turns: 2,
        openings: &[Some(Kind::Cii)], fails: &[3],
        told: "SERVE; turn; dial; take; accept; say 1 UNKNOWN; text 1; \
            turn; dial; take; accept; text 2; text 1; hang 1; hang 2", ..QUIET },
    Row { name: "a request without an answer is dropped", datagrams: &[REQUEST],
        told: "SERVE; turn; dial; take; receive; accept; text 1; hang 1", ..QUIET },
    Row { name: "a request of 33 bytes lands, and changes nothing", datagrams: &[LONG],
        told: "SERVE; turn; dial; take; other; accept; text 1; hang 1", ..QUIET },
    Row { name: "a stranger's answer lands, and changes nothing", turns: 2, datagrams: &[RESPONSE, REQUEST],
        told: "SERVE; turn; dial; take; other; accept; text 1; turn; take; receive; accept; text 1; hang 1", ..QUIET },
    EXCHANGE,
    Row { name: "a relay that slept drops a request that it took", slept: &[1700],
        told: "SERVE; turn; dial; take; accept; text 1; turn; dial; other; send 2 0 0 0; take; other; accept; text 1; \
            turn; take; receive; give; accept; text 1; hang 1", ..EXCHANGE },
];
