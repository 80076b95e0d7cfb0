//! The lines of a watch, where those of the tests of the command `watch` don't have their kind or their numbers.

use crate::common::{check, words};
use css_cii::{State, apply_to, read_message};
use css_client::Landing;
use css_companion::Cause;
use css_model::{Failure, Kind, WcFault};
use css_num::{Memory, Rate, Span, Text};
use css_span::Answer;
use css_tsmsg::{TsFault, TsName, read_control};
use css_watch_lines::{
    Between, Known, Ticks, answer_line, apart_end_line, cause_line, control_line, dial_line, front,
    known_line, refused_end_line, refused_line, slept_line, state_line, unread_line, visit_line,
};
use std::alloc::Global;
use std::process::Abort;

/// The greatest reading.
const LAST: u64 = 4_294_967_295_999_999_999;

/// A line is this text and a line feed.
fn check_line(rt: &impl Abort, alloc: Global, line: Result<Text, Memory>, text: &str) {
    let line = line.expect(rt, "memory");
    let expected = format!(in alloc; "{text}\n").expect(rt, "memory");
    check(rt, "a line", words(&line), &expected);
}

#[test]
fn visits_and_sleeps_have_their_readings(rt: HostRuntime) {
    let alloc = rt.alloc();
    let first = r#"{"event":"visit","number":1,"reading":"0"}"#;
    check_line(&rt, alloc, visit_line(alloc, 1, 0), first);
    let last = r#"{"event":"visit","number":999999999999999999,"reading":"4294967295999999999"}"#;
    let line = visit_line(alloc, 999_999_999_999_999_999, LAST);
    check_line(&rt, alloc, line, last);
    let slept = r#"{"event":"slept","reading":"9007199254740993"}"#;
    check_line(&rt, alloc, slept_line(alloc, 9_007_199_254_740_993), slept);
}

/// A text of CII.
const TOLD: &str = concat!(
    r#"{"timelines":[{"timelineSelector":"urn:x:1","timelineProperties":{"unitsPerTick":1,"#,
    r#""unitsPerSecond":50}}],"contentId":"dvb://\"é\"","mrsUrl":null}"#
);

/// The line of the state that it tells.
const STATE: &str = concat!(
    r#"{"event":"state","state":{"contentId":"dvb://\"é\"","contentIdStatus":null,"mrsUrl":null,"#,
    r#""presentationStatus":null,"protocolVersion":null,"teUrl":null,"timelines":["#,
    r#"{"timelineProperties":{"unitsPerSecond":50,"unitsPerTick":1},"timelineSelector":"urn:x:1"}],"#,
    r#""tsUrl":null,"wcUrl":null}}"#
);

#[test]
fn a_state_has_all_nine_properties(rt: HostRuntime) {
    let alloc = rt.alloc();
    let mut state = State::empty();
    let change = read_message(alloc, TOLD.as_bytes()).expect(&rt, "a message");
    apply_to(&mut state, change);
    check_line(&rt, alloc, state_line(alloc, &state), STATE);
}

/// Dials that failed, and why.
#[rattlefmt::skip]
const FAILURES: [(Failure, &str); 10] = [
    (Failure::Refused, "refused"),
    (Failure::NoSuchHost, "no such host"),
    (Failure::TimedOut, "no answer"),
    (Failure::HttpStatus(503), "HTTP status 503"),
    (Failure::NoWebSocket, "no WebSocket"),
    (Failure::NoPermission, "no permission"),
    (Failure::NoRoom, "no room"),
    (Failure::InUse, "other"),
    (Failure::NotHere, "other"),
    (Failure::Other, "other"),
];

#[test]
fn dials_that_fail_say_why(rt: HostRuntime) {
    let alloc = rt.alloc();
    for (failure, why) in &FAILURES {
        let line = r#"{"event":"dial","outcome":"failed","service":"TS","why":"@"}"#;
        let line = line.replace(alloc, "@", why).expect(&rt, "memory");
        check_line(
            &rt,
            alloc,
            dial_line(alloc, Kind::Ts, Some(*failure)),
            &line,
        );
    }
    let line = r#"{"event":"dial","outcome":"open","service":"WC"}"#;
    check_line(&rt, alloc, dial_line(alloc, Kind::Wc, None), line);
}

/// Texts of TS, and their lines.
#[rattlefmt::skip]
const CONTROLS: [(&str, &str); 5] = [
    (r#"{"wallClockTime":"010","timelineSpeedMultiplier":-64.0,"contentTime":"-9000"}"#,
        r#"{"control":{"contentTime":"-9000","timelineSpeedMultiplier":-64,"wallClockTime":"10"},"event":"control"}"#),
    (r#"{"contentTime":null,"timelineSpeedMultiplier":null,"wallClockTime":"5"}"#,
        r#"{"control":{"contentTime":null,"timelineSpeedMultiplier":null,"wallClockTime":null},"event":"control"}"#),
    ("{", r#"{"event":"control","fault":"NotJson","text":"{"}"#),
    ("{}", r#"{"event":"control","fault":"Field contentTime","text":"{}"}"#),
    (r#"{"contentTime":"1","timelineSpeedMultiplier":65,"wallClockTime":"1"}"#, concat!(
        r#"{"event":"control","fault":"Range timelineSpeedMultiplier","text":"{\"contentTime\":\"1\","#,
        r#"\"timelineSpeedMultiplier\":65,\"wallClockTime\":\"1\"}"}"#)),
];

#[test]
fn control_timestamps_are_told_or_refused(rt: HostRuntime) {
    let alloc = rt.alloc();
    for (text, line) in &CONTROLS {
        let told = match read_control(alloc, text.as_bytes()) {
            Ok(control) => control_line(alloc, &control),
            Err(fault) => unread_line(alloc, fault, text),
        };
        check_line(&rt, alloc, told, line);
    }
}

/// Texts of some bytes, and how many of them a line tells, with the words at their end.
#[rattlefmt::skip]
const FRONTS: [(&[u8], usize, &[u8], usize, &str); 7] = [
    (b"a", 0, b"", 0, ""),
    (b"a", 1000, b"", 1000, "a"),
    (b"a", 1001, b"", 1000, "a"),
    (b"a", 998, b"\xc3\xa9!", 1000, "é"),
    (b"a", 999, b"\xc3\xa9!", 999, "a"),
    (b"a", 997, b"\xf0\x9f\x98\x80!", 997, "a"),
    (b"a", 10, b"\xffb", 14, "\u{fffd}b"),
];

#[test]
fn a_text_is_told_by_its_front(rt: HostRuntime) {
    let alloc = rt.alloc();
    for (byte, times, more, length, end) in &FRONTS {
        let mut text = Text::new(alloc);
        for _ in 0..*times {
            text.push(byte).expect(&rt, "memory");
        }
        text.push(more).expect(&rt, "memory");
        let told = front(alloc, text.bytes()).expect(&rt, "memory");
        let text = told.as_str();
        assert!(rt;
            text.len() == *length && text.ends_with(*end),
            "{length} bytes: {text}"
        );
    }
}

#[test]
fn an_end_has_the_text_that_is_refused(rt: HostRuntime) {
    let alloc = rt.alloc();
    let line = r#"{"event":"end","number":3,"text":"[\"é","why":"CII text 1: not JSON"}"#;
    let told = refused_end_line(alloc, 3, "CII text 1: not JSON", "[\"é");
    check_line(&rt, alloc, told, line);
}

const ANSWER: Answer = Answer {
    t1: 1000,
    t2: 5000,
    t3: 5200,
    t4: 1600,
    precision: 1_073_741_824_000_000_000,
    error: 25_600_000,
};

#[test]
fn an_answer_has_its_times_and_its_width(rt: HostRuntime) {
    let alloc = rt.alloc();
    let line = concat!(
        r#"{"error":25600000,"event":"answer","landed":"1601","originate":"1000","#,
        r#""precision":"1073741824000000000","receive":"5000","transmit":"5200","type":3,"#,
        r#""width":"170141183460469231731687303715884105727"}"#
    );
    let told = answer_line(alloc, &ANSWER, 3, 1601, i128::MAX);
    check_line(&rt, alloc, told, line);
}

/// Refusals, and their words.
#[rattlefmt::skip]
const REFUSALS: [(Landing, &str); 9] = [
    (Landing::Undecodable(WcFault::Length), "Undecodable Length"),
    (Landing::Undecodable(WcFault::Version), "Undecodable Version"),
    (Landing::Undecodable(WcFault::MessageType), "Undecodable MessageType"),
    (Landing::Undecodable(WcFault::Precision), "Undecodable Precision"),
    (Landing::Undecodable(WcFault::Error), "Undecodable Error"),
    (Landing::Undecodable(WcFault::Nanoseconds), "Undecodable Nanoseconds"),
    (Landing::NotAnAnswer, "NotAnAnswer"),
    (Landing::Unasked, "Unasked"),
    (Landing::Impossible(-1), "Impossible"),
];

#[test]
fn refusals_are_told_by_their_names(rt: HostRuntime) {
    let alloc = rt.alloc();
    for (landing, fault) in &REFUSALS {
        let line = r#"{"bytes":"0010ff","event":"refused","fault":"@","landed":"7"}"#;
        let line = line.replace(alloc, "@", fault).expect(&rt, "memory");
        let told = refused_line(alloc, landing, b"\x00\x10\xff", 7);
        check_line(&rt, alloc, told, &line);
    }
}

#[test]
fn a_report_has_all_that_carries_it_on(rt: HostRuntime) {
    let alloc = rt.alloc();
    let known = Known {
        ticks: Ticks {
            lo: -3,
            hi: 900_000,
        },
        agreed: Span {
            lo: 9_999_999_998,
            hi: 10_000_000_003,
        },
        wall: Span {
            lo: 9_999_999_990,
            hi: 10_000_000_010,
        },
        error: 128_000,
        rate: Rate::of(1, 90_000).expect(&rt, "a rate"),
        speed: -1,
    };
    let line = concat!(
        r#"{"agreed":["9999999998","10000000003"],"error":128000,"event":"report","number":2,"#,
        r#""rate":{"unitsPerSecond":90000,"unitsPerTick":1},"#,
        r#""reading":"5","speed":-1,"ticks":["-3","900000"],"wall":["9999999990","10000000010"]}"#
    );
    check_line(&rt, alloc, known_line(alloc, 2, 5, &known), line);
}

#[rattlefmt::skip]
#[test]
fn an_end_names_two_answers(rt: HostRuntime) {
    let alloc = rt.alloc();
    let above = Answer { t1: 1, t2: 2, t3: LAST, t4: 4, precision: 5, error: 25_600_000 };
    let below = Answer { t1: LAST, t2: 20, t3: 30, t4: 40, precision: 0, error: 0 };
    let line = concat!(
        r#"{"between":[{"error":25600000,"landed":"4","originate":"1","precision":"5","receive":"2","#,
        r#""transmit":"4294967295999999999"},{"error":0,"landed":"40","originate":"4294967295999999999","#,
        r#""precision":"0","receive":"20","transmit":"30"}],"event":"end","number":7,"why":"disagree"}"#
    );
    check_line(&rt, alloc, apart_end_line(alloc, 7, "disagree", &Between { above, below }), line);
}

#[test]
fn a_report_has_its_cause_else(rt: HostRuntime) {
    let alloc = rt.alloc();
    let line = concat!(
        r#"{"cause":"Unreadable Range wallClockTime","detail":"","event":"report","number":1,"#,
        r#""reading":"5"}"#
    );
    let cause = Cause::Unreadable(TsFault::Range(TsName::WallClockTime));
    check_line(&rt, alloc, cause_line(alloc, 1, 5, &cause, ""), line);
}
