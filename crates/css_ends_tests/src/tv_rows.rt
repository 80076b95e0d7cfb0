//! What happens at a television, and what it does: the texts that it sends, each behind its peer, the sessions that it
//! closes, or why it refuses the event.

use Event::{
    Cii, Closes, Delay, Hears, IsOpen, NextOpen, Presents, Programme, Timeline, Ts, Viewer,
};
use css_player::Command::{self, Change, Seek, Speed};

/// A bound of a presentation: the tick of its timeline at a value of the wall clock, or none.
pub type Limit = Option<(i64, u64)>;

/// What happens, or a question.
#[derive(Clone, Copy)]
pub enum Event {
    Programme(&'static str),
    /// A programme has a timeline more of 90,000 ticks a second, which has this tick at the media position 0.
    Timeline(u32, i64),
    /// A viewer's command, when the wall clock reads so, in milliseconds.
    Viewer(Command, u32),
    Cii(u32),
    Ts(u32),
    Hears(u32, &'static str),
    /// A peer can present from the first bound to the second one.
    Presents(u32, Limit, Limit),
    Closes(u32),
    /// Asks for the delay of what is shown.
    Delay,
    /// Asks whether a peer's session is open.
    IsOpen(u32),
    /// Asks for the first open session after that of a peer, or for the first of all.
    NextOpen(Option<u32>),
}

/// What happens, and what is done then.
pub type Row = (Event, &'static str);

/// The greatest base tick and the greatest media position either way.
const FAR: i64 = 100_000_000_000_000_000;

const SETUP: &str = r#"{"contentIdStem":"dvb://1","timelineSelector":"urn:dvb:css:timeline:pts"}"#;

/// The tick 900,000 is wanted 40 or 30 ms after 10 s of the wall clock.
const AT_40: Limit = Some((900_000, 10_040_000_000));

const AT_30: Limit = Some((900_000, 10_030_000_000));

const NOTHING_SHOWN_TO_3: &str = concat!(
    r#"3 {"contentId":null,"contentIdStatus":null,"mrsUrl":null,"presentationStatus":"okay","#,
    r#""protocolVersion":"1.1","teUrl":null,"timelines":null,"#,
    r#""tsUrl":"ws://127.0.0.1:6678/ts","wcUrl":"udp://127.0.0.1:6677"}"#
);

const SHOWN_TO_1: &str = concat!(
    r#"1 {"contentId":"dvb://1.2.3","contentIdStatus":"final","mrsUrl":null,"presentationStatus":"okay","#,
    r#""protocolVersion":"1.1","teUrl":null,"timelines":[{"timelineProperties":{"unitsPerSecond":90000,"#,
    r#""unitsPerTick":1},"timelineSelector":"urn:dvb:css:timeline:pts"}],"#,
    r#""tsUrl":"ws://127.0.0.1:6678/ts","wcUrl":"udp://127.0.0.1:6677"}"#
);

const CHANGE_TO_1: &str = concat!(
    r#"1 {"contentId":"dvb://1.2.3","timelines":[{"timelineProperties":"#,
    r#"{"unitsPerSecond":90000,"unitsPerTick":1},"timelineSelector":"urn:dvb:css:timeline:pts"}]}"#
);

const CHANGE_TO_2_AND_3: &str = concat!(
    r#"2 {"contentTime":"900000","timelineSpeedMultiplier":1,"wallClockTime":"10000000000"} "#,
    r#"3 {"contentId":"dvb://1.2.3","contentIdStatus":"final","timelines":[{"timelineProperties":"#,
    r#"{"unitsPerSecond":90000,"unitsPerTick":1},"timelineSelector":"urn:dvb:css:timeline:pts"}]}"#
);

const OTHER_TO_1_AND_3: &str =
    r#"1 {"contentId":"dvb://1.2.4","timelines":[]} 3 {"contentId":"dvb://1.2.4","timelines":[]}"#;

const STANDS_TO_2: &str =
    r#"2 {"contentTime":"990000","timelineSpeedMultiplier":0,"wallClockTime":"11000000000"}"#;

const SOUGHT_TO_2: &str =
    r#"2 {"contentTime":"899999","timelineSpeedMultiplier":0,"wallClockTime":"12000000000"}"#;

/// From the first session on: the state in full, the properties that a change of programme changes, and the controls.
#[rattlefmt::skip]
pub const WHOLE: &[Row] = &[
    (Cii(3), NOTHING_SHOWN_TO_3),
    (Ts(2), ""),
    (NextOpen(None), "Some(2)"),
    (NextOpen(Some(2)), "Some(3)"),
    (NextOpen(Some(3)), "None"),
    (Hears(2, SETUP), r#"2 {"contentTime":null,"timelineSpeedMultiplier":null,"wallClockTime":"0"}"#),
    (Delay, "None"),
    (Viewer(Speed(1), 9_000), "no programme"),
    (Viewer(Seek(0), 9_000), "no programme"),
    (Programme("dvb://1.2.3"), ""),
    (Timeline(1, 900_000), ""),
    (Viewer(Change(1), 10_000), CHANGE_TO_2_AND_3),
    (Viewer(Speed(0), 11_000), STANDS_TO_2),
    (Viewer(Seek(-1), 12_000), SOUGHT_TO_2),
    (Closes(2), ""),
    (NextOpen(Some(1)), "Some(3)"),
    (Viewer(Speed(1), 13_000), ""),
    (Programme("dvb://1.2.4"), ""),
    (Cii(1), SHOWN_TO_1),
    (Viewer(Change(2), 14_000), OTHER_TO_1_AND_3),
    (Hears(3, SETUP), "3 hang up"),
    (IsOpen(3), "false"),
    (Viewer(Change(1), 15_000), CHANGE_TO_1),
];

/// A television that shows a programme with a timeline from 10 s on, at the tick 900,000, a CII session of peer 1 and a
/// TS session of peer 2.
#[rattlefmt::skip]
pub const SHOWING: &[Row] = &[
    (Programme("dvb://1.2.3"), ""),
    (Timeline(1, 900_000), ""),
    (Viewer(Change(1), 10_000), ""),
    (Cii(1), SHOWN_TO_1),
    (Ts(2), ""),
    (Hears(2, SETUP), r#"2 {"contentTime":"900000","timelineSpeedMultiplier":1,"wallClockTime":"10000000000"}"#),
];

/// After that, windows delay what is shown, if they don't exclude each other, and while the speed is 1.
#[rattlefmt::skip]
pub const DELAYS: &[Row] = &[
    (Presents(2, AT_40, None),
        r#"2 {"contentTime":"900000","timelineSpeedMultiplier":1,"wallClockTime":"10040000000"}"#),
    (Ts(3), ""),
    (Hears(3, SETUP), r#"3 {"contentTime":"900000","timelineSpeedMultiplier":1,"wallClockTime":"10040000000"}"#),
    (Presents(3, None, AT_30), ""),
    (Delay, "Some(40000000)"),
    (Closes(2), ""),
    (Presents(3, None, AT_30),
        r#"3 {"contentTime":"900000","timelineSpeedMultiplier":1,"wallClockTime":"10000000000"}"#),
    (Viewer(Speed(0), 10_000),
        r#"3 {"contentTime":"900000","timelineSpeedMultiplier":0,"wallClockTime":"10000000000"}"#),
    (Presents(3, AT_40, None), ""),
    (Delay, "Some(0)"),
];

/// What the player refuses after that is refused with its fault, and nothing is said.
#[rattlefmt::skip]
pub const REFUSED: &[Row] = &[
    (Viewer(Speed(-65), 11_000), "speed"),
    (Viewer(Seek(-FAR - 1), 11_000), "range"),
    (Timeline(1, FAR + 1), "range"),
    (Timeline(2, FAR + 1), "no programme"),
    (Programme("dvb://1.2.4"), ""),
    (Timeline(2, FAR), ""),
    (Viewer(Seek(FAR), 11_000),
        r#"2 {"contentTime":"9000000900000","timelineSpeedMultiplier":1,"wallClockTime":"11000000000"}"#),
    (Viewer(Speed(0), 11_001), "range"),
    (Viewer(Seek(-FAR), 11_000),
        r#"2 {"contentTime":"-8999999100000","timelineSpeedMultiplier":1,"wallClockTime":"11000000000"}"#),
];

/// What happens where 256 sessions are open, of the peers 0 to 255.
#[rattlefmt::skip]
pub const CROWDED: &[Row] = &[
    (Ts(256), "256 hang up"),
    (Cii(257), "257 hang up"),
    (IsOpen(256), "false"),
    (Closes(8), ""),
    (Ts(258), ""),
    (Ts(259), "259 hang up"),
];
