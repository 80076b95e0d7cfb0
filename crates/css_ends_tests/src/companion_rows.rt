//! Companions, what happens at each, what it answers, and its report then.

use Happened::*;
use css_model::LIMIT;

/// What happens at a companion, or a question.
#[derive(Clone, Copy)]
pub enum Happened {
    /// A request at this reading.
    Asks(u64),
    /// A request at each reading from the last one to below this one.
    AsksEach(u64),
    /// A datagram of this type lands that tells these readings of a request, its receipt and its answer, a precision
    /// of 1 ns and this error. The last number is the reading then.
    Lands(u8, [u64; 3], u32, u64),
    /// Other bytes land.
    Bytes(&'static [u8], u64),
    Sleeps,
    Cii(&'static str),
    CiiClosed,
    TsOpened,
    Ts(&'static str),
    TsClosed,
    /// The companion can present the tick 900,000 from 10,040,000,000 ns of the wall clock on.
    Present,
    /// Asks for the rate of the wanted timeline.
    Rate,
    /// Asks for the tick at a value of the wall clock.
    Assigned(u64),
    /// Asks for the span of the wall clock at a reading.
    Wall(u64),
    /// Asks how many answers are kept.
    Kept,
    /// Asks for the answer behind the span at a reading.
    Narrowest(u64),
    /// Asks what a datagram would tell, as in `Lands`.
    Judges(u8, [u64; 3], u32, u64),
    /// Asks what other bytes would tell.
    JudgesBytes(&'static [u8], u64),
    /// Asks for the state that a CII text would leave.
    StateAfter(&'static str),
}

/// What happens; what becomes of an answer, the text that is then owed to the TS session, why the event is refused, or
/// the answer to a question; and the report after it, unless that is left out.
pub type Row = (Happened, &'static str, &'static str);

/// The scaled width of an answer that is impossible by the least.
const IMPOSSIBLE: &str = "Impossible(-65536000000000000)";

pub const STAMPS: &str = "urn:dvb:css:timeline:pts";

/// An answer is to one of the last 64 requests.
#[rattlefmt::skip]
pub const OF_THE_LAST_64: &[Row] = &[
    (AsksEach(66), "", ""),
    (Lands(1, [1, 5000, 5000], 0, 100), "Unasked", ""),
    (Lands(1, [2, 5000, 5000], 0, 100), "Accepted", ""),
    (Wall(100), "Some(Span { lo: 4997, hi: 5101 })", ""),
    (Lands(0, [100, 0, 0], 0, 100), "NotAnAnswer", ""),
    (Bytes(b"a datagram has 32 bytes", 100), "Undecodable(Length)", ""),
    (Kept, "1", ""),
    (Wall(100), "Some(Span { lo: 4997, hi: 5101 })", ""),
];

/// A follow-up counts from an impossible response.
#[rattlefmt::skip]
pub const AFTER_IMPOSSIBLE: &[Row] = &[
    (Asks(1000), "", ""),
    (Lands(2, [1000, 5000, 6000], 0, 1600), "Impossible(-25821184000000000000)", ""),
    (Wall(1600), "None", ""),
    (Lands(3, [1000, 5000, 5200], 0, 1700), "Accepted", ""),
    (Wall(1700), "Some(Span { lo: 5297, hi: 5703 })", ""),
];

/// Each follow-up counts from its own response. The longest time for which each is possible tells its landing.
#[rattlefmt::skip]
pub const OF_ITS_OWN_RESPONSE: &[Row] = &[
    (Asks(1000), "", ""),
    (Lands(2, [1000, 5000, 5000], 0, 2000), "Accepted", ""),
    (Lands(2, [1000, 5010, 5010], 0, 2010), "Accepted", ""),
    (Lands(2, [1000, 5020, 5020], 0, 2020), "Accepted", ""),
    (Lands(3, [1000, 5010, 6026], 0, 5000), "Accepted", ""),
    (Lands(3, [1000, 5010, 6027], 0, 5000), IMPOSSIBLE, ""),
    (Lands(3, [1000, 5020, 6046], 0, 5000), "Accepted", ""),
    (Lands(3, [1000, 5020, 6047], 0, 5000), IMPOSSIBLE, ""),
];

/// A request is forgotten with its last copy.
#[rattlefmt::skip]
pub const LAST_COPY: &[Row] = &[
    (Asks(1), "", ""),
    (Lands(2, [1, 5000, 5000], 0, 1), "Accepted", ""),
    (AsksEach(65), "", ""),
    (Lands(3, [1, 5000, 5007], 0, 100), IMPOSSIBLE, ""),
    (Asks(100), "", ""),
    (Lands(3, [1, 5000, 5007], 0, 101), "Unasked", ""),
];

/// A sleep ends what is known.
#[rattlefmt::skip]
pub const ASLEEP: &[Row] = &[
    (Asks(1000), "", ""),
    (Sleeps, "", ""),
    (Lands(2, [1000, 5000, 5000], 0, 1600), "Unasked", ""),
    (Asks(1601), "", ""),
    (Lands(2, [1601, 5000, 5000], 0, 2201), "Accepted", ""),
    (Kept, "1", ""),
    (Sleeps, "", ""),
    (Kept, "0", ""),
    (Wall(2300), "None", ""),
    (Lands(3, [1601, 5000, 5000], 0, 2300), "Unasked", ""),
];

/// What a datagram would tell changes nothing: a follow-up counts from its response once that landed. Of answers of
/// equal width the first is the narrowest.
#[rattlefmt::skip]
pub const JUDGED: &[Row] = &[
    (Asks(1000), "", ""),
    (Judges(2, [1000, 5000, 6000], 0, 1600), "Err(Impossible(-25821184000000000000))", ""),
    (Judges(2, [1000, 5000, 5200], 256, 1600),
        "Ok(Answer { t1: 1000, t2: 5000, t3: 5200, t4: 1600, precision: 1, error: 256 })", ""),
    (Judges(3, [1000, 5000, 5200], 0, 1650),
        "Ok(Answer { t1: 1000, t2: 5000, t3: 5200, t4: 1650, precision: 1, error: 0 })", ""),
    (Narrowest(1650), "None", ""),
    (Lands(2, [1000, 5000, 5200], 0, 1660), "Accepted", ""),
    (Judges(3, [1000, 5000, 5250], 0, 1700),
        "Ok(Answer { t1: 1000, t2: 5000, t3: 5250, t4: 1660, precision: 1, error: 0 })", ""),
    (Judges(3, [1000, 5000, 6000], 0, 1700), "Err(Impossible(-21889024000000000000))", ""),
    (Narrowest(1700), "Some(Answer { t1: 1000, t2: 5000, t3: 5200, t4: 1660, precision: 1, error: 0 })", ""),
    (Lands(3, [1000, 5000, 5250], 0, 1700), "Accepted", ""),
    (Lands(3, [1000, 5050, 5340], 0, 1700), "Accepted", ""),
    (Narrowest(1700), "Some(Answer { t1: 1000, t2: 5000, t3: 5250, t4: 1660, precision: 1, error: 0 })", ""),
    (Judges(0, [1700, 0, 0], 0, 1700), "Err(NotAnAnswer)", ""),
    (JudgesBytes(b"a datagram has 32 bytes", 1700), "Err(Undecodable(Length))", ""),
    (Judges(1, [1001, 5000, 5000], 0, 1700), "Err(Unasked)", ""),
    (Kept, "1", ""),
    (Sleeps, "", ""),
    (Judges(3, [1000, 5000, 5250], 0, 1701), "Err(Unasked)", ""),
    (Narrowest(1701), "None", ""),
];

const ASKS: Row = (Asks(1000), "", "none NoAnswer");

/// The wall clock is from 10,500,000,000 to 10,500,022,222 ns when it lands.
#[rattlefmt::skip]
const LATE: Row = (Lands(1, [1000, 10_500_000_003, 10_500_000_003], 0, 23_216), "Accepted", "none NoTimestamp");

/// The greatest reading of the wall clock, with the greatest precision and error, in an answer to a request at 0.
const GREATEST: &[u8] = b"\0\x01\x1e\0\x01\x86\xa0\0\0\0\0\0\0\0\0\0\
\xff\xff\xff\xff\x3b\x9a\xc9\xff\xff\xff\xff\xff\x3b\x9a\xc9\xff";

/// With an exact clock, the wall clock is from 10,000,000,197 to 10,000,000,403 ns at the reading 200.
#[rattlefmt::skip]
pub const ANSWERED: &[Row] =
    &[(Asks(0), "", ""), (Lands(1, [0, 10_000_000_200, 10_000_000_200], 0, 200), "Accepted", "")];

const FULL: &str = concat!(
    r#"{"contentId":"dvb://1.2.3","contentIdStatus":"final","mrsUrl":null,"presentationStatus":"okay","#,
    r#""protocolVersion":"1.1","teUrl":null,"timelines":[{"timelineProperties":{"unitsPerSecond":90000,"#,
    r#""unitsPerTick":1},"timelineSelector":"urn:dvb:css:timeline:pts"}],"#,
    r#""tsUrl":"ws://127.0.0.1:6678/ts","wcUrl":"udp://127.0.0.1:6677"}"#
);

/// [`FULL`] with another programme, and no timeline.
const FULL_OF_ANOTHER: &str = concat!(
    r#"{"contentId":"b","contentIdStatus":"final","mrsUrl":null,"presentationStatus":"okay","#,
    r#""protocolVersion":"1.1","teUrl":null,"timelines":null,"#,
    r#""tsUrl":"ws://127.0.0.1:6678/ts","wcUrl":"udp://127.0.0.1:6677"}"#
);

/// What is owed for [`Present`].
const PRESENTATION: &str = concat!(
    r#"{"earliest":{"contentTime":"900000","wallClockTime":"10040000000"},"#,
    r#""latest":{"contentTime":"900000","wallClockTime":"plusinfinity"}}"#
);

const PLAYS: &str =
    r#"{"contentTime":"900000","wallClockTime":"10000000000","timelineSpeedMultiplier":1.0}"#;

/// What is owed to a TS session that is opened.
const SETUP: &str = r#"{"contentIdStem":"dvb://","timelineSelector":"urn:dvb:css:timeline:pts"}"#;

const PLAYS_LATER: &str =
    r#"{"contentTime":"900000","timelineSpeedMultiplier":1,"wallClockTime":"10040000000"}"#;

const UNAVAILABLE: &str =
    r#"{"contentTime":null,"timelineSpeedMultiplier":null,"wallClockTime":"0"}"#;

/// A companion of presentation time stamps, where the wall clock is from 10,500,000,000 to 10,500,022,222 ns.
#[rattlefmt::skip]
pub const CONTROLS: &[Row] = &[
    ASKS,
    LATE,
    (CiiClosed, "", "none NoTimestamp"),
    (Ts(PLAYS), "", "ticks 945000 945001"),
    (TsOpened, SETUP, "none NoTimestamp"),
    (Ts(UNAVAILABLE), "", "none Unavailable"),
    (Ts(r#"{"contentTime":"900000","wallClockTime":"10000000000","timelineSpeedMultiplier":0.5}"#),
        "", "none Unreadable Fractional"),
    (Ts(r#"{"contentTime":"900000","wallClockTime":"10000000000","timelineSpeedMultiplier":-2}"#),
        "", "ticks 809996 810000"),
    (Ts(r#"{"contentTime":"900000","wallClockTime":"10000000000","timelineSpeedMultiplier":0}"#),
        "", "ticks 900000 900000"),
    (Ts(r#"{"contentTime":"9000"#), "", "none Unreadable NotJson"),
    (Ts("[]"), "", "none Unreadable NotObject"),
    (Ts("{}"), "", "none Unreadable Field contentTime"),
    (Ts(r#"{"contentTime":"900000","wallClockTime":"10000000000","timelineSpeedMultiplier":65}"#), "",
        "none Unreadable Range timelineSpeedMultiplier"),
    (Present, PRESENTATION, "none Unreadable Range timelineSpeedMultiplier"),
    (TsClosed, "", "none SessionClosed"),
    (Ts(PLAYS), "", "none SessionClosed"),
    (Ts(UNAVAILABLE), "", "none SessionClosed"),
    (TsClosed, "", "none SessionClosed"),
];

/// A sleep ends the wall clock alone. An answer to a request from before the sleep comes too late.
#[rattlefmt::skip]
pub const SLEPT: &[Row] = &[
    (Asks(100), "", ""),
    (Lands(1, [100, 10_000_000_300, 10_000_000_300], 0, 400), "Accepted", "none NoTimestamp"),
    (Wall(400), "Some(Span { lo: 10000000297, hi: 10000000603 })", "none NoTimestamp"),
    (Ts(PLAYS), "", "ticks 900000 900000"),
    (Ts(PLAYS_LATER), "", "ticks 896400 896400"),
    (Sleeps, "", "none NoAnswer"),
    (Kept, "0", "none NoAnswer"),
    (Wall(401), "None", "none NoAnswer"),
    (Lands(1, [100, 10_000_000_300, 10_000_000_300], 0, 401), "Unasked", "none NoAnswer"),
    (Assigned(10_000_000_400), "Some(896400)", "none NoAnswer"),
    (Asks(500), "", ""),
    (Lands(1, [500, 10_000_000_700, 10_000_000_700], 0, 800), "Accepted", "ticks 896400 896400"),
    (Ts(PLAYS), "", "ticks 900000 900000"),
];

/// A session that closed before its first text told none.
#[rattlefmt::skip]
pub const CLOSED_FIRST: &[Row] = &[
    ASKS,
    LATE,
    (TsClosed, "", "none NoTimestamp"),
    (Ts(UNAVAILABLE), "", "none SessionClosed"),
];

/// A session that is opened again begins anew. The wall clock's answer and the timeline's rate stay.
#[rattlefmt::skip]
pub const OPENED_AGAIN: &[Row] = &[
    ASKS,
    LATE,
    (Cii(RATE_OF_STAMPS), "", "none NoTimestamp"),
    (TsOpened, SETUP, "none NoTimestamp"),
    (Ts(PLAYS), "", "ticks 900500 900500"),
    (TsClosed, "", "none SessionClosed"),
    (TsOpened, SETUP, "none NoTimestamp"),
    (Assigned(10_500_000_000), "None", "none NoTimestamp"),
    (Ts(PLAYS), "", "ticks 900500 900500"),
    (TsOpened, SETUP, "none NoTimestamp"),
    (TsClosed, "", "none NoTimestamp"),
    (Ts(PLAYS), "", "none SessionClosed"),
];

const RATE_50: &str = concat!(
    r#"{"timelines":[{"timelineSelector":"urn:x:1","timelineProperties":{"unitsPerTick":1,"#,
    r#""unitsPerSecond":50,"accuracy":0.2}}]}"#
);

const TWO_RATES: &str = concat!(
    r#"{"timelines":[{"timelineSelector":"urn:x:2","timelineProperties":{"unitsPerTick":1,"unitsPerSecond":7}},"#,
    r#"{"timelineSelector":"urn:x:1","timelineProperties":{"unitsPerTick":1,"unitsPerSecond":1000}},"#,
    r#"{"timelineSelector":"urn:x:1","timelineProperties":{"unitsPerTick":1,"unitsPerSecond":50}}]}"#
);

const RATE_OF_STAMPS: &str = concat!(
    r#"{"timelines":[{"timelineSelector":"urn:dvb:css:timeline:pts","timelineProperties":{"unitsPerTick":1,"#,
    r#""unitsPerSecond":1000}}]}"#
);

/// A companion of the timeline `urn:x:1`, where the wall clock is from 10,500,000,000 to 10,500,022,222 ns.
#[rattlefmt::skip]
pub const RATES: &[Row] = &[
    ASKS,
    LATE,
    (Rate, "None", "none NoTimestamp"),
    (Ts(PLAYS), "", "none NoRate"),
    (Cii(FULL), "", "none NoRate"),
    (Cii(RATE_50), "", "ticks 900025 900025"),
    (Cii(TWO_RATES), "", "ticks 900500 900500"),
    (Ts(UNAVAILABLE), "", "none Unavailable"),
    (Cii(r#"{"timelines":null}"#), "", "none Unavailable"),
    (Ts(PLAYS), "", "none NoRate"),
];

/// The timeline of presentation time stamps has its own rate where it isn't listed.
#[rattlefmt::skip]
pub const RATES_OF_STAMPS: &[Row] = &[
    ASKS,
    LATE,
    (Assigned(10_500_000_000), "None", "none NoTimestamp"),
    (Ts(PLAYS), "", "ticks 945000 945001"),
    (Cii(RATE_OF_STAMPS), "", "ticks 900500 900500"),
    (Cii(TWO_RATES), "", "ticks 945000 945001"),
    (Rate, "Some(Rate { units_per_tick: 1, units_per_second: 90000 })", "ticks 945000 945001"),
    (Assigned(10_500_000_000), "Some(945000)", "ticks 945000 945001"),
    (Assigned(9_999_999_999), "Some(899999)", "ticks 945000 945001"),
];

/// A companion without an answer knows no ticks. The refusals of CII texts, and the addresses that aren't moved: they
/// may go to null, and from null to others. A text that is refused is counted and changes nothing else.
#[rattlefmt::skip]
pub const REFUSALS: &[Row] = &[
    (TsClosed, "", "none NoAnswer"),
    (Ts(PLAYS), "", "none NoAnswer"),
    (Cii(FULL), "", "none NoAnswer"),
    (Cii(""), "cii text 2: not json", "none NoAnswer"),
    (Cii(r#"{"contentId":"b","timelines":[5]}"#), "cii text 3: field timelines", "none NoAnswer"),
    (Cii(r#"{"wcUrl":"udp://127.0.0.1:6677","tsUrl":"ws://127.0.0.1:6678/ts"}"#), "", "none NoAnswer"),
    (Cii(r#"{"contentId":"b","tsUrl":"ws://b/ts","wcUrl":"udp://b:1"}"#),
        "moved wcUrl from udp://127.0.0.1:6677 to udp://b:1", "none NoAnswer"),
    (Cii(r#"{"contentId":"b","tsUrl":"ws://b/ts","wcUrl":null}"#),
        "moved tsUrl from ws://127.0.0.1:6678/ts to ws://b/ts", "none NoAnswer"),
    (Cii(r#"{"teUrl":5,"wcUrl":"udp://b:1"}"#), "cii text 7: field teUrl", "none NoAnswer"),
    (Cii(r#"{"wcUrl":null}"#), "", "none NoAnswer"),
    (Cii(r#"{"tsUrl":null}"#), "", "none NoAnswer"),
    (Cii(r#"{"wcUrl":"udp://b:1","tsUrl":"ws://b/ts"}"#), "", "none NoAnswer"),
];

/// What a text would leave, or why it would be refused. It isn't counted, and changes nothing.
#[rattlefmt::skip]
pub const STATES_AFTER: &[Row] = &[
    (StateAfter(FULL), FULL, ""),
    (StateAfter(""), "cii text 1: not json", ""),
    (Cii(FULL), "", ""),
    (StateAfter(r#"{"contentId":"b","timelines":null}"#), FULL_OF_ANOTHER, ""),
    (StateAfter(r#"{"contentId":"b","timelines":[5]}"#), "cii text 2: field timelines", ""),
    (StateAfter(r#"{"contentId":"b","tsUrl":"ws://b/ts","wcUrl":"udp://b:1"}"#),
        "moved wcUrl from udp://127.0.0.1:6677 to udp://b:1", ""),
    (StateAfter(r#"{"contentId":"b","tsUrl":"ws://b/ts","wcUrl":null}"#),
        "moved tsUrl from ws://127.0.0.1:6678/ts to ws://b/ts", ""),
    (StateAfter("{}"), FULL, ""),
    (Cii("{"), "cii text 2: not json", ""),
    (StateAfter("{"), "cii text 3: not json", ""),
];

const SLOWEST: &str = concat!(
    r#"{"timelines":[{"timelineSelector":"urn:x:1","#,
    r#""timelineProperties":{"unitsPerTick":1000000000,"unitsPerSecond":1}}]}"#
);

const FASTEST: &str = concat!(
    r#"{"timelines":[{"timelineSelector":"urn:x:1","#,
    r#""timelineProperties":{"unitsPerTick":1,"unitsPerSecond":1000000000}}]}"#
);

const UP_FROM_0: &str =
    r#"{"contentTime":"999999999999999999","timelineSpeedMultiplier":64,"wallClockTime":"0"}"#;

const DOWN_FROM_0: &str =
    r#"{"contentTime":"-999999999999999999","timelineSpeedMultiplier":-64,"wallClockTime":"0"}"#;

const UP_TO_2_63: &str =
    r#"{"contentTime":"-999999999999999999","timelineSpeedMultiplier":64,"wallClockTime":"9223372036854775807"}"#;

const DOWN_TO_2_63: &str =
    r#"{"contentTime":"999999999999999999","timelineSpeedMultiplier":-64,"wallClockTime":"9223372036854775807"}"#;

#[rattlefmt::skip]
pub const NEAR_LIMIT: &[Row] = &[
    (Asks(0), "", ""),
    // The wall clock is from 3,221,225,470,217,821,779 to 10,140,895,006,666,666,667 ns.
    (Bytes(GREATEST, LIMIT - 1), "Accepted", "none NoTimestamp"),
    (Cii(SLOWEST), "", "none NoTimestamp"),
    (Ts(UP_FROM_0), "", "ticks 1000000000000000205 1000000000000000648"),
    (Ts(DOWN_FROM_0), "", "ticks -1000000000000000649 -1000000000000000206"),
    (Ts(UP_TO_2_63), "", "ticks -1000000000000000384 -999999999999999941"),
    (Ts(DOWN_TO_2_63), "", "ticks 999999999999999940 1000000000000000383"),
    (Cii(FASTEST), "", "ticks -57721470067961015041 385137380264765057791"),
    (Ts(UP_FROM_0), "", "ticks 207158430093940593855 650017280426666666687"),
];
