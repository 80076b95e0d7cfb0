//! Runs of a television and of a relay: each fault, each refusal and each end is a row.
use crate::noted::Noted;
use crate::rows::{Row, text_of};
use crate::runs::{assert_told, relay, television};
use crate::scripts::outside_of;
use crate::{relay_rows as relays, television_rows as tvs};
use std::alloc::Global;
use std::process::Abort;

#[derive(Clone, Copy)]
enum End {
    Television,
    Relay,
}

fn run(rt: &impl Abort, alloc: Global, end: End, row: &Row, outside: &mut Noted) {
    match end {
        End::Television => television(rt, alloc, row, outside),
        End::Relay => relay(rt, alloc, row, outside),
    }
}

/// Makes the run of a row: its outside.
fn run_of(rt: &impl Abort, alloc: Global, end: End, row: &Row) -> Noted {
    let mut outside = outside_of(rt, alloc, row);
    run(rt, alloc, end, row, &mut outside);
    outside
}

/// Tables of runs, each with its end.
#[rattlefmt::skip]
const SERVED: [(End, &[Row]); 9] = [
    (End::Television, tvs::CALLS), (End::Television, tvs::SCRIPTS), (End::Television, tvs::LIMITS),
    (End::Television, tvs::DATAGRAMS), (End::Television, tvs::SESSIONS),
    (End::Relay, relays::CALLS), (End::Relay, relays::TEXTS), (End::Relay, relays::ENDS),
    (End::Relay, relays::VISITS),
];

#[test]
fn each_end_makes_its_calls(rt: HostRuntime) {
    for (end, rows) in &SERVED {
        for row in rows.iter() {
            let outside = run_of(&rt, rt.alloc(), *end, row);
            let made = outside.log.words.bytes();
            assert_told(&rt, rt.alloc(), row, made, row.told, usize::MAX);
        }
    }
}

/// How many calls were made in the last turn.
fn last_calls(made: &[u8]) -> usize {
    let mut count = 0usize;
    for call in text_of(made).lines() {
        count = if call == "turn" {
            0
        } else {
            count.wrapping_add(1)
        };
    }
    count
}

/// In the last turn each of 256 sessions is asked for a text, and then each is hung up. The 257th was hung up at once.
/// The relay has a session with its television, too.
#[test]
fn each_end_keeps_256_sessions(rt: HostRuntime) {
    for (end, row, calls) in [
        (End::Television, &tvs::CROWD, 2 + 256 + 256),
        (End::Relay, &relays::CROWD, 3 + 256 + 257),
    ] {
        let outside = run_of(&rt, rt.alloc(), end, row);
        assert_eq!(rt; last_calls(outside.log.words.bytes()), calls);
    }
}
