//! What is refused of sessions, and the windows in force. The tests of televisions have what sessions are told.

use crate::common::{check, push_behind, shown, words};
use Call::{Close, DropWindows, IsSetUp, OpenCii, OpenTs, Present, SetUp, Windows};
use css_num::Rate;
use css_player::{Command, Player};
use css_sessions::{Kind, Said, SessionFault, Sessions};
use std::alloc::Global;
use std::process::Abort;

/// What is done at the sessions, or asked of them.
#[derive(Clone, Copy)]
enum Call {
    OpenCii,
    OpenTs,
    SetUp,
    Present,
    Close,
    DropWindows,
    Windows,
    IsSetUp,
}

/// A call, its peer, a text, and what comes of it: the texts that are told, each behind its peer; the answer to a
/// question; or why the call is refused.
type Row = (Call, u32, &'static str, &'static str);

/// The setup for every programme.
const ALL: &str = r#"{"contentIdStem":"","timelineSelector":"urn:dvb:css:timeline:pts"}"#;

const NULLS_TO_7: &str = concat!(
    r#"7 {"contentId":null,"contentIdStatus":null,"mrsUrl":null,"presentationStatus":null,"#,
    r#""protocolVersion":null,"teUrl":null,"timelines":null,"tsUrl":null,"wcUrl":null}"#
);

const SHOWN_TO_1: &str =
    r#"1 {"contentTime":"900000","timelineSpeedMultiplier":1,"wallClockTime":"5000000000"}"#;

/// The tick 900,000 is wanted from 10.04 s of the wall clock on.
const LATER: &str = concat!(
    r#"{"earliest":{"contentTime":"900000","wallClockTime":"10040000000"},"#,
    r#""latest":{"contentTime":"900000","wallClockTime":"plusinfinity"},"#,
    r#""actual":{"contentTime":"-1","wallClockTime":"7"}}"#
);

const LATER_WINDOW: &str =
    "[Window { ups: 90000, own: -450000000000000, earliest: Some(3600000000000), latest: None }]";

/// The greatest offsets.
const FAR: &str = concat!(
    r#"{"earliest":{"contentTime":"-999999999999999999","wallClockTime":"9223372036854775807"},"#,
    r#""latest":{"contentTime":"999999999999999999","wallClockTime":"0"}}"#
);

const FAR_WINDOW: &str = concat!(
    "[Window { ups: 90000, own: -450000000000000, earliest: Some(1000830103483316928822630000), ",
    "latest: Some(-999999999999999999000000000) }]"
);

/// What is refused, and a presentation that gives a window.
#[rattlefmt::skip]
const PRESENTED: &[Row] = &[
    (OpenCii, 7, "", NULLS_TO_7),
    (SetUp, 7, ALL, "no session"),
    (SetUp, 1, ALL, "no session"),
    (Present, 1, LATER, "no session"),
    (OpenTs, 1, "", ""),
    (Present, 1, LATER, "no session"),
    (SetUp, 1, "{", "bad text: not json"),
    (SetUp, 1, r#"{"contentIdStem":null,"timelineSelector":5}"#, "bad text: field contentIdStem"),
    (IsSetUp, 1, "", "Some(false)"),
    (SetUp, 1, ALL, SHOWN_TO_1),
    (SetUp, 1, "{", "setup twice"),
    (IsSetUp, 1, "", "Some(true)"),
    (Windows, 0, "", "[]"),
    (Present, 1, LATER, ""),
    (Present, 1, "{}", "bad text: field earliest"),
    (Windows, 0, "", LATER_WINDOW),
];

/// After that the greatest offsets come into force, and no window is left.
#[rattlefmt::skip]
const DROPPED: &[Row] = &[
    (Present, 1, FAR, ""),
    (Windows, 0, "", FAR_WINDOW),
    (DropWindows, 0, "", ""),
    (Windows, 0, "", "[]"),
];

/// A window ends with its session.
#[rattlefmt::skip]
const CLOSED: &[Row] = &[
    (Windows, 0, "", LATER_WINDOW),
    (Close, 1, "", ""),
    (Windows, 0, "", "[]"),
    (IsSetUp, 1, "", "None"),
];

/// A player that shows a programme from 5 s on, with the timeline of 90,000 ticks a second from 900,000 on.
fn new_player(rt: &impl Abort, alloc: Global) -> Player {
    let mut player = Player::new(alloc);
    let number = player
        .add_programme(alloc, b"dvb://1")
        .expect(rt, "a programme");
    let rate = Rate {
        units_per_tick: 1,
        units_per_second: 90_000,
    };
    player
        .add_timeline(alloc, number, b"urn:dvb:css:timeline:pts", rate, 900_000)
        .expect(rt, "a timeline");
    player
        .command(Command::Change(1), 5_000_000_000)
        .expect(rt, "a change");
    player
}

/// Opens a session, unless the peer has one.
fn open(
    sessions: &mut Sessions,
    alloc: Global,
    peer: u32,
    kind: Kind,
    out: &mut Vec<Said>,
) -> Result<(), SessionFault> {
    if sessions.is_open(peer) {
        return Ok(());
    }
    sessions.opened(alloc, peer, kind, out)
}

/// Carries out a call. A question changes nothing.
fn carry_out(
    sessions: &mut Sessions,
    alloc: Global,
    (call, peer, text, _): &Row,
    player: &Player,
    out: &mut Vec<Said>,
) -> Result<(), SessionFault> {
    match call {
        OpenCii => return open(sessions, alloc, *peer, Kind::Cii, out),
        OpenTs => return open(sessions, alloc, *peer, Kind::Ts, out),
        SetUp => return sessions.setup(alloc, *peer, text.as_bytes(), player, out),
        Present => return sessions.presentation(alloc, *peer, text.as_bytes(), player),
        Close => sessions.closed(*peer),
        DropWindows => sessions.drop_windows(),
        Windows | IsSetUp => {}
    }
    Ok(())
}

/// What comes of a call, in words.
fn outcome(
    rt: &impl Abort,
    alloc: Global,
    sessions: &mut Sessions,
    player: &Player,
    row: &Row,
) -> String {
    let mut out = Vec::new(alloc);
    if let Err(fault) = carry_out(sessions, alloc, row, player, &mut out) {
        return format!(in alloc; "{fault}").expect(rt, "memory");
    }
    match row.0 {
        Windows => {
            let windows = sessions.windows(alloc).expect(rt, "memory");
            shown(rt, alloc, &windows.as_slice())
        }
        IsSetUp => shown(rt, alloc, &sessions.is_setup(row.1)),
        _ => {
            let mut all = String::new(alloc);
            for said in out.iter() {
                push_behind(rt, &mut all, said.peer, words(&said.text));
            }
            all
        }
    }
}

/// What comes of each row is what the row says.
fn play(rt: &impl Abort, alloc: Global, sessions: &mut Sessions, rows: &[Row]) {
    let player = new_player(rt, alloc);
    for (place, row) in rows.iter().enumerate() {
        let told = outcome(rt, alloc, sessions, &player, row);
        check(rt, place, &told, row.3);
    }
}

#[test]
fn a_presentation_gives_a_window(rt: HostRuntime) {
    let mut sessions = Sessions::new(rt.alloc());
    play(&rt, rt.alloc(), &mut sessions, PRESENTED);
    let mut copy = sessions.copy().expect(&rt, "memory");
    play(&rt, rt.alloc(), &mut sessions, DROPPED);
    play(&rt, rt.alloc(), &mut copy, CLOSED);
}
