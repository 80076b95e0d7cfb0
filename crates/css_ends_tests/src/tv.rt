//! Televisions: worked rows, and drawn events beside a plain second computation.

ghost use Rattle.css_tv.specs.Stages.{Stage};
ghost use Rattle.css_tv.specs.Standing.{IsEvent};

use crate::common::{Dice, check, check_that, push_behind, shown, text, words};
use crate::tv_plain::{Plain, drawn};
use crate::tv_rows::{self as rows, Event, Limit, Row};
use css_num::{Rate, Text};
use css_sessions::Kind;
use css_tv::{Tv, TvConfig, TvEvent, TvFault, TvOut};
use std::alloc::Global;
use std::process::Abort;

fn television(rt: &impl Abort, alloc: Global) -> Tv {
    let config = TvConfig {
        precision: -20,
        error: 0,
        follow: true,
        host: text(rt, alloc, "127.0.0.1"),
        port: 6677,
    };
    Tv::new(alloc, config).expect(rt, "memory")
}

#[rattlefmt::skip]
fn write_bound(rt: &impl Abort, out: &mut String, limit: Limit, none: &str) {
    match limit {
        None => write!(out, "{{\"contentTime\":\"0\",\"wallClockTime\":\"{none}\"}}"),
        Some((content, wall)) => write!(out, "{{\"contentTime\":\"{content}\",\"wallClockTime\":\"{wall}\"}}"),
    }
    .expect(rt, "memory");
}

fn presentation(rt: &impl Abort, alloc: Global, earliest: Limit, latest: Limit) -> Text {
    let mut out = String::from_str(alloc, "{\"earliest\":").expect(rt, "memory");
    write_bound(rt, &mut out, earliest, "minusinfinity");
    out.push_str(",\"latest\":").expect(rt, "memory");
    write_bound(rt, &mut out, latest, "plusinfinity");
    out.push('}').expect(rt, "memory");
    text(rt, alloc, &out)
}

/// The television's event, where it is one and no opening.
fn event_of(rt: &impl Abort, alloc: Global, event: Event) -> TvEvent
    ensures { (stage : Stage) → IsEvent result stage }
{
    match event {
        Event::Programme(id) => TvEvent::Programme(text(rt, alloc, id)),
        Event::Timeline(programme, base) => TvEvent::AddTimeline {
            programme,
            selector: text(rt, alloc, "urn:dvb:css:timeline:pts"),
            rate: Rate {
                units_per_tick: 1,
                units_per_second: 90_000,
            },
            base,
        },
        Event::Viewer(command, milliseconds) => TvEvent::Viewer {
            command,
            reading: u64::from(milliseconds) * 1_000_000,
        },
        Event::Hears(peer, words) => TvEvent::Heard {
            peer,
            text: text(rt, alloc, words),
        },
        Event::Presents(peer, earliest, latest) => TvEvent::Heard {
            peer,
            text: presentation(rt, alloc, earliest, latest),
        },
        Event::Closes(peer) => TvEvent::Closed { peer },
        _ => panic!(rt; "no event"),
    }
}

/// Opens a session, unless the peer has one.
fn open(tv: &mut Tv, peer: u32, kind: Kind, out: &mut Vec<TvOut>) -> Result<(), TvFault> {
    if tv.is_open(peer) {
        return Ok(());
    }
    tv.step(TvEvent::Opened { peer, kind }, out)
}

fn step(tv: &mut Tv, event: TvEvent, out: &mut Vec<TvOut>) -> Result<(), TvFault>
    requires { (stage : Stage) → IsEvent event stage }
{
    tv.step(event, out)
}

/// What is done at the sessions: texts, and that a session is closed, each behind its peer.
fn all_done(rt: &impl Abort, alloc: Global, out: &[TvOut]) -> String {
    let mut all = String::new(alloc);
    for done in out {
        match done {
            TvOut::Say { peer, text } => push_behind(rt, &mut all, *peer, words(text)),
            TvOut::HangUp { peer } => push_behind(rt, &mut all, *peer, "hang up"),
        }
    }
    all
}

/// The delay of what is shown.
fn delay(tv: &Tv) -> Option<u64> {
    Some(tv.player().segment()?.delay)
}

/// What comes of an event, or the answer to a question, in words.
fn outcome(rt: &impl Abort, alloc: Global, tv: &mut Tv, event: Event) -> String {
    let mut out = Vec::new(alloc);
    let done = match event {
        Event::Delay => return shown(rt, alloc, &delay(tv)),
        Event::IsOpen(peer) => return shown(rt, alloc, &tv.is_open(peer)),
        Event::NextOpen(last) => return shown(rt, alloc, &tv.next_open(last)),
        Event::Cii(peer) => open(tv, peer, Kind::Cii, &mut out),
        Event::Ts(peer) => open(tv, peer, Kind::Ts, &mut out),
        _ => step(tv, event_of(rt, alloc, event), &mut out),
    };
    match done {
        Ok(()) => all_done(rt, alloc, &out),
        Err(fault) => format!(in alloc; "{fault}").expect(rt, "memory"),
    }
}

/// What comes of each row is what the row says.
fn play(rt: &impl Abort, alloc: Global, tv: &mut Tv, rows: &[Row]) {
    for (place, (event, expected)) in rows.iter().enumerate() {
        check(rt, place, &outcome(rt, alloc, tv, *event), expected);
    }
}

fn play_both(rt: &impl Abort, alloc: Global, before: &[Row], rows: &[Row]) {
    let mut tv = television(rt, alloc);
    play(rt, alloc, &mut tv, before);
    play(rt, alloc, &mut tv, rows);
}

#[test]
fn what_is_shown_is_told(rt: HostRuntime) {
    play_both(&rt, rt.alloc(), &[], rows::WHOLE);
    play_both(&rt, rt.alloc(), rows::SHOWING, rows::DELAYS);
    play_both(&rt, rt.alloc(), rows::SHOWING, rows::REFUSED);
}

#[test]
fn no_more_than_256_sessions_are_opened(rt: HostRuntime) {
    let mut tv = television(&rt, rt.alloc());
    for peer in 0..256 {
        let _ = outcome(&rt, rt.alloc(), &mut tv, Event::Ts(peer));
    }
    play(&rt, rt.alloc(), &mut tv, rows::CROWDED);
}

/// Drawn events do what the model says, which is returned.
fn play_drawn(rt: &impl Abort, alloc: Global, seed: u64) -> Plain {
    let mut tv = television(rt, alloc);
    let mut plain = Plain::new(alloc);
    let mut dice = Dice { seed };
    for i in 0..110 {
        let event = drawn(&mut dice, &plain, i);
        let expected = plain.outcome(rt, alloc, event);
        let told = outcome(rt, alloc, &mut tv, event);
        let row = seed.wrapping_mul(1000).wrapping_add(u64::from(i));
        check(rt, row as usize, &told, &expected);
    }
    plain
}

#[test]
fn a_television_does_what_a_plain_model_does(rt: HostRuntime) {
    let mut delays: u32 = 0;
    let mut hung_up: u32 = 0;
    for seed in 0..16 {
        let plain = play_drawn(&rt, rt.alloc(), seed);
        delays = delays.saturating_add(plain.delays);
        hung_up = hung_up.saturating_add(plain.hung_up);
    }
    check_that(&rt, delays > 100 && hung_up > 30, "more happens");
}
