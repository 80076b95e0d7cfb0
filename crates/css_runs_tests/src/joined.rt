//! A television and a companion against each other, over two outsides in memory: each end takes what the other sent,
//! but for the datagrams that a network loses, and late and in another order.
//!
//! The loop of an end runs to its end. So the television's runs first, over the requests that the companion is to send,
//! and then the companion's runs over what the television sent. What the companion sent is then compared with those.
use crate::network::Network;
use crate::noted::{Log, Noted, Sending, keep};
use crate::rows::{QUIET, Row};
use crate::runs::{NO_MEMORY, companion, television};
use crate::scripts::{add_datagram, add_heard, add_readings, outside_giving, script_of};
use css_companion::Report;
use css_drive::Listens;
use css_follow::Sheet;
use css_memory::{MemorySink, OutsideScript};
use css_num::{Memory, Text};
use css_outside::{Heard, Kind};
use std::alloc::Global;
use std::process::Abort;

const TURNS: u64 = 1000;

const SETUP: &str = "{\"contentIdStem\":\"\",\"timelineSelector\":\"urn:dvb:css:timeline:pts\"}";

/// The television's run. The viewer plays a programme from the first turn on, pauses it, seeks, and lets it go on: by
/// the wall clock of the turns 300, 400 and 500.
const TELEVISION: Row = Row {
    name: "the television",
    turns: TURNS,
    error: 12_800,
    script: "0 programme dvb://1\n\
        0 timeline 1 urn:dvb:css:timeline:pts 1 90000 900000\n\
        0 change 1\n\
        5030006200 speed 0\n\
        5040006600 seek 60000000000\n\
        5050007000 speed 1",
    follow: true,
    times: &[],
    openings: &[Some(Kind::Cii), Some(Kind::Ts)],
    texts: &[(2, Some(SETUP))],
    ..QUIET
};

const COMPANION: Row = Row {
    name: "the companion",
    turns: TURNS,
    error: 12_800,
    reports: TURNS - 1,
    report_every: 1,
    ask_every: 1,
    times: &[],
    ..QUIET
};

/// True time in nanoseconds, so long after a turn began.
fn after(turn: u64, nanoseconds: u64) -> u64 {
    turn.saturating_mul(100_000).saturating_add(nanoseconds)
}

/// The television's wall clock: 5 s ahead, and 40 parts in a million fast.
fn wall(time: u64) -> u64 {
    time.saturating_add(time / 25_000)
        .saturating_add(5_000_000_000)
}

/// The companion's clock: 30 parts in a million slow.
fn local(time: u64) -> u64 {
    time.saturating_sub(time / 33_334)
}

/// The wall clock at which the television begins a turn.
fn begun(turn: u64) -> u64 {
    wall(after(turn, 5000))
}

/// The media time where the companion begins a turn.
fn media(turn: u64) -> u64 {
    let now = wall(after(turn, 0));
    if turn <= 300 {
        now.saturating_sub(begun(1))
    } else if turn <= 400 {
        begun(300).saturating_sub(begun(1))
    } else if turn <= 500 {
        60_000_000_000
    } else {
        now.saturating_sub(begun(500))
            .saturating_add(60_000_000_000)
    }
}

/// The tick that is shown where the companion begins a turn.
fn shown(turn: u64) -> i128 {
    i128::from((media(turn).saturating_mul(9) / 100_000).saturating_add(900_000))
}

/// The request of a reading.
fn request(reading: u64) -> [u8; 32] {
    let mut bytes = [0u8; 32];
    let seconds = (reading / 1_000_000_000).to_be_bytes();
    let nanoseconds = (reading % 1_000_000_000).to_be_bytes();
    bytes[8..12].copy_from_slice(&seconds[4..8]);
    bytes[12..16].copy_from_slice(&nanoseconds[4..8]);
    bytes
}

/// The requests of all turns but the first, in which the wall clock isn't dialled yet, and the last, which ends with
/// its report.
fn requests(alloc: Global) -> Result<Vec<Sending>, Memory> {
    let mut requests = Vec::new(alloc);
    for turn in 2..TURNS {
        let bytes = request(local(after(turn, 2000)));
        keep(alloc, &mut requests, turn, 2, &bytes)?;
    }
    Ok(requests)
}

/// At a turn's take a datagram comes, if the network brings one that was sent before another turn, and then the clock
/// reads this.
fn take(
    alloc: Global,
    script: &mut OutsideScript,
    peer: u32,
    network: &mut Network,
    before: u64,
    readings: &[u64],
) -> Result<(), Memory> {
    match network.come(before) {
        None => add_datagram(alloc, script, peer, None),
        Some(bytes) => {
            add_readings(script, readings, &[])?;
            add_datagram(alloc, script, peer, Some(bytes.bytes()))
        }
    }
}

/// What the television's outside gives in each turn.
fn add_television(
    alloc: Global,
    script: &mut OutsideScript,
    network: &mut Network,
) -> Result<(), Memory> {
    for turn in 1..TURNS + 1 {
        add_readings(script, &[begun(turn)], &[])?;
        let readings = [wall(after(turn, 6000)), wall(after(turn, 7000))];
        take(alloc, script, 9, network, turn.saturating_add(1), &readings)?;
    }
    Ok(())
}

/// What a session tells in a turn: the text that was sent to it in that turn, if one was.
fn add_text(
    alloc: Global,
    script: &mut OutsideScript,
    turn: u64,
    peer: u32,
    sent: &[Sending],
) -> Result<(), Memory> {
    for sending in sent {
        if sending.turn == turn && sending.peer == peer {
            let text = Text::of(alloc, sending.bytes.bytes())?;
            return add_heard(script, peer, Heard::Text(text));
        }
    }
    add_heard(script, peer, Heard::Quiet)
}

/// What the companion's outside gives in each turn but the first, where the television sends these texts. The wall
/// clock and the second session are dialled in the second turn.
fn add_companion(
    alloc: Global,
    script: &mut OutsideScript,
    network: &mut Network,
    texts: &[Sending],
) -> Result<(), Memory> {
    for turn in 2..TURNS + 1 {
        let asked = [local(after(turn, 0)), local(after(turn, 2000))];
        add_readings(script, &asked, &[])?;
        add_text(alloc, script, turn, 1, texts)?;
        take(alloc, script, 2, network, turn, &[local(after(turn, 4000))])?;
        add_text(alloc, script, turn, 2, texts)?;
    }
    Ok(())
}

/// The television's run, where the companion sends these requests.
fn television_side(rt: &impl Abort, alloc: Global, requests: &[Sending]) -> Noted {
    let mut network = Network::new(alloc, 1, requests).expect(rt, NO_MEMORY);
    let mut script = script_of(rt, alloc, &TELEVISION);
    add_television(alloc, &mut script, &mut network).expect(rt, NO_MEMORY);
    let mut outside = outside_giving(rt, alloc, script);
    television(rt, alloc, &TELEVISION, &mut outside);
    outside
}

/// What the companion's outside gives, where the television sent this.
fn companion_script(rt: &impl Abort, alloc: Global, sent: &Log) -> OutsideScript {
    let mut network = Network::new(alloc, 2, &sent.datagrams).expect(rt, NO_MEMORY);
    let mut script = script_of(rt, alloc, &COMPANION);
    add_readings(&mut script, &[local(after(1, 0))], &[]).expect(rt, NO_MEMORY);
    add_text(alloc, &mut script, 1, 1, &sent.texts).expect(rt, NO_MEMORY);
    add_companion(alloc, &mut script, &mut network, &sent.texts).expect(rt, NO_MEMORY);
    script
}

/// Keeps each report.
#[derive(Drop)]
struct Reports {
    list: Vec<Report>,
}

impl Listens for Reports {
    ghost use Rattle.std.specs.Prelude.{[]};

    ghost heard = { λ _. [] };

    ghost takes = { λ _ _. [] };

    fn prepare(&mut self, _sheet: &Sheet) -> Result<(), Memory> {
        Ok(())
    }

    fn tell(&mut self, report: &Report, _out: &mut Text) -> Result<(), Memory> {
        let _ = self.list.push(*report);
        Ok(())
    }
}

/// The companion's run, where the television sent this.
fn companion_side(rt: &impl Abort, alloc: Global, sent: &Log, reports: &mut Reports) -> Noted {
    let script = companion_script(rt, alloc, sent);
    let mut outside = outside_giving(rt, alloc, script);
    let mut sink = MemorySink::new(alloc, 4096, &[]).expect(rt, NO_MEMORY);
    companion(rt, alloc, &COMPANION, &mut sink, &mut outside, reports);
    outside
}

/// Finds that the companion sent what the television took: each request in its turn, and the setup in the second.
fn assert_sent(rt: &impl Abort, requests: &[Sending], companion: &Log) {
    assert_eq!(rt; companion.datagrams.len(), requests.len());
    for (sent, request) in companion.datagrams.iter().zip(requests.iter()) {
        assert_eq!(rt; sent.turn, request.turn);
        assert!(rt; sent.bytes == request.bytes, "turn {}", sent.turn);
    }
    let texts = companion.texts.as_slice();
    assert!(rt;
        matches!(texts, [setup] if setup.turn == 2 && setup.bytes.bytes() == SETUP.as_bytes())
    );
}

/// Finds that each interval contains the tick that is shown then. The first report is that of the second turn.
fn assert_contained(rt: &impl Abort, reports: &[Report]) {
    assert_eq!(rt; reports.len() as u64, TURNS - 1);
    let mut turn = 1u64;
    let mut narrow = 0u64;
    for report in reports {
        turn = turn.saturating_add(1);
        if let Report::Ticks { lo, hi } = report {
            let tick = shown(turn);
            assert!(rt; *lo <= tick && tick <= *hi, "turn {turn}: {lo} {tick} {hi}");
            narrow = narrow.saturating_add(u64::from(hi.saturating_sub(*lo) <= 20));
        } else {
            assert!(rt; turn < 20, "turn {turn}");
        }
    }
    assert!(rt; narrow > 900, "{narrow} narrow intervals");
}

#[test]
fn each_report_contains_what_is_shown(rt: HostRuntime) {
    let requests = requests(rt.alloc()).expect(&rt, NO_MEMORY);
    let television = television_side(&rt, rt.alloc(), &requests);
    let mut reports = Reports {
        list: Vec::new(rt.alloc()),
    };
    let companion = companion_side(&rt, rt.alloc(), &television.log, &mut reports);
    assert_sent(&rt, &requests, &companion.log);
    assert_contained(&rt, &reports.list);
}
