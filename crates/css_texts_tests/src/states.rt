//! States, what tells them, and what changes them.
ghost use Rattle.css_cii.specs.Texts.{IsUtf8Change, IsUtf8State};

use crate::common::{check, check_that, words};
use css_cii::{Change, State, apply, apply_to, diff, full, merge, read_message, write_message};
use css_num::{Rate, Text, Timeline, Timelines};
use std::alloc::Global;
use std::process::Abort;

/// The full text of the state of a television that presents `dvb://1.2.3`.
const FULL: &str = concat!(
    r#"{"contentId":"dvb://1.2.3","contentIdStatus":"final","mrsUrl":null,"presentationStatus":"okay","#,
    r#""protocolVersion":"1.1","teUrl":null,"#,
    r#""timelines":[{"timelineProperties":{"unitsPerSecond":90000,"unitsPerTick":1},"#,
    r#""timelineSelector":"urn:dvb:css:timeline:pts"}],"tsUrl":"ws://127.0.0.1:6678/ts","#,
    r#""wcUrl":"udp://127.0.0.1:6677"}"#
);

/// The texts that come after it. Each says what differs from the state before, and nothing else.
const CHANGES: [&str; 5] = [
    r#"{"contentId":"dvb://1.2.4"}"#,
    r#"{"mrsUrl":"","tsUrl":null}"#,
    r#"{"timelines":null}"#,
    concat!(
        r#"{"timelines":[{"timelineProperties":{"unitsPerSecond":50,"unitsPerTick":1},"#,
        r#""timelineSelector":"urn:x:1"}]}"#
    ),
    "{}",
];

fn text(rt: &impl Abort, alloc: Global, words: &str) -> Option<Text> {
    Some(Text::of(alloc, words.as_bytes()).expect(rt, "memory"))
}

fn stamps(rt: &impl Abort, alloc: Global) -> Option<Timelines> {
    let mut list = Vec::new(alloc);
    let timeline = Timeline {
        selector: Text::of(alloc, b"urn:dvb:css:timeline:pts").expect(rt, "memory"),
        rate: Rate::of(1, 90_000).expect(rt, "a rate"),
    };
    list.push(timeline).expect(rt, "memory");
    Some(Timelines::of(list))
}

/// The state of the television that presents `dvb://1.2.3`.
fn evening(rt: &impl Abort, alloc: Global) -> State {
    State {
        protocol_version: text(rt, alloc, "1.1"),
        mrs_url: None,
        content_id: text(rt, alloc, "dvb://1.2.3"),
        content_id_status: text(rt, alloc, "final"),
        presentation_status: text(rt, alloc, "okay"),
        wc_url: text(rt, alloc, "udp://127.0.0.1:6677"),
        ts_url: text(rt, alloc, "ws://127.0.0.1:6678/ts"),
        te_url: None,
        timelines: stamps(rt, alloc),
    }
}

fn check_written(rt: &impl Abort, alloc: Global, change: &Change, text: &str)
    requires { IsUtf8Change change.now }
{
    let written = write_message(alloc, change).expect(rt, "memory");
    check(rt, "a change", words(&written), text);
}

/// Reads a text onto a state. It is that of the difference, too.
fn check_change(rt: &impl Abort, alloc: Global, state: &mut State, text: &str)
    requires { IsUtf8State state.old }
    ensures { IsUtf8State state.new }
{
    let change = read_message(alloc, text.as_bytes()).expect(rt, "a message");
    let new = apply(state, &change).expect(rt, "memory");
    let difference = diff(state, &new).expect(rt, "memory");
    check_written(rt, alloc, &difference, text);
    apply_to(state, change);
}

#[test]
fn texts_change_what_they_say(rt: HostRuntime) {
    let mut state = State::empty();
    let first = read_message(rt.alloc(), FULL.as_bytes()).expect(&rt, "a message");
    apply_to(&mut state, first);
    check_that(&rt, state == evening(&rt, rt.alloc()), "the first state");
    let whole = full(&state).expect(&rt, "memory");
    check_written(&rt, rt.alloc(), &whole, FULL);
    for text in &CHANGES {
        check_change(&rt, rt.alloc(), &mut state, text);
    }
}

/// A session that begins with the first state and goes on to the second gives the second.
fn check_session(rt: &impl Abort, first: &State, second: &State) {
    let whole = full(first).expect(rt, "memory");
    let difference = diff(first, second).expect(rt, "memory");
    let merged = merge(&[whole, difference]).expect(rt, "memory");
    check_that(rt, merged == *second, "the second state");
}

#[test]
fn sessions_give_their_last_state(rt: HostRuntime) {
    let state = evening(&rt, rt.alloc());
    let other = State::empty();
    check_session(&rt, &other, &state);
    check_session(&rt, &state, &other);
    let copy = state.clone().expect(&rt, "memory");
    let difference = diff(&state, &copy).expect(&rt, "memory");
    check_that(&rt, difference.is_empty(), "a copy");
}
