use crate::common::{check, check_that};
use css_server::{ServeFault, Server};
use css_wc::{Message, Stamp, WcFault, decode, encode, precision_ns, reading, stamp_of};
use std::process::Abort;

/// A companion asks. The originate nanoseconds are no part of a second.
const REQUEST: [u8; 32] =
    *b"\0\0\0\0\0\0\0\0\0\0\0\0\xff\xff\xff\xff\0\0\0\0\0\0\0\0\0\0\0\0\0\0\0\0";

/// It is received at 5000 and answered at 5200, with the precision 2^-30 s and no error.
const RESPONSE: [u8; 32] =
    *b"\0\x01\xe2\0\0\0\0\0\0\0\0\0\xff\xff\xff\xff\0\0\0\0\0\0\x13\x88\0\0\0\0\0\0\x14\x50";

#[rattlefmt::skip]
const ODD: Stamp = Stamp { seconds: 0, nanoseconds: 4_294_967_295 };

#[test]
fn an_exchange_is_written_and_read(rt: HostRuntime) {
    let request = Message {
        message_type: 0,
        precision: 0,
        error: 0,
        originate: ODD,
        receive: stamp_of(0),
        transmit: stamp_of(0),
    };
    check(&rt, &encode(&request), &REQUEST);
    check_that(&rt, decode(&REQUEST) == Ok(request), "a request");
    let response = Message {
        message_type: 1,
        precision: -30,
        error: 0,
        originate: ODD,
        receive: stamp_of(5000),
        transmit: stamp_of(5200),
    };
    check(&rt, &encode(&response), &RESPONSE);
    check_that(&rt, decode(&RESPONSE) == Ok(response), "a response");
}

/// A byte of the response that is another one.
type Change = (usize, u8);

fn changed(changes: &[Change]) -> [u8; 32] {
    let mut bytes = RESPONSE;
    for (place, value) in changes {
        if let Some(byte) = bytes.get_mut(*place) {
            *byte = *value;
        }
    }
    bytes
}

/// Changes of the response, and the fault that comes first. An exponent of 31, an error of 25,600,001 and a whole
/// second of nanoseconds in a time are too much.
#[rattlefmt::skip]
const FAULTS: [(&[Change], Option<WcFault>); 9] = [
    (&[(0, 1), (1, 4), (2, 31)], Some(WcFault::Version)),
    (&[(1, 4), (2, 31)], Some(WcFault::MessageType)),
    (&[(2, 31), (4, 2), (20, 64)], Some(WcFault::Precision)),
    (&[(4, 1), (5, 134), (6, 160), (7, 1), (28, 64)], Some(WcFault::Error)),
    (&[(20, 59), (21, 154), (22, 202), (23, 0)], Some(WcFault::Nanoseconds)),
    (&[(28, 59), (29, 154), (30, 202), (31, 0)], Some(WcFault::Nanoseconds)),
    // The greatest exponent, error and nanoseconds, and any reserved byte.
    (&[(2, 30), (3, 255), (4, 1), (5, 134), (6, 160), (7, 0)], None),
    (&[(28, 59), (29, 154), (30, 201), (31, 255)], None),
    // Nothing but the type is tested of a request.
    (&[(1, 0), (2, 31), (4, 2), (20, 64)], None),
];

#[test]
fn the_first_fault_of_a_datagram_is_told(rt: HostRuntime) {
    for (changes, expected) in &FAULTS {
        let found = decode(&changed(changes));
        assert!(rt; found.err() == *expected, "{changes:?}");
    }
    let short = decode(&RESPONSE[..31]);
    check_that(&rt, short == Err(WcFault::Length), "a short datagram");
}

#[test]
fn times_have_seconds_and_nanoseconds(rt: HostRuntime) {
    let stamp = Stamp {
        seconds: 12,
        nanoseconds: 34,
    };
    check_that(&rt, stamp_of(12_000_000_034) == stamp, "a stamp");
    check_that(&rt, reading(stamp) == 12_000_000_034, "a reading");
}

/// The exponent of a precision, and its nanoseconds.
#[rattlefmt::skip]
const PRECISIONS: [(i8, u64); 6] =
    [(-128, 1), (-30, 1), (-29, 2), (-20, 954), (0, 1_000_000_000), (30, 1_073_741_824_000_000_000)];

#[test]
fn precisions_are_rounded_up(rt: HostRuntime) {
    for (exponent, expected) in &PRECISIONS {
        assert!(rt;
            *exponent <= 30 && precision_ns(*exponent) == *expected,
            "{exponent}"
        );
    }
}

/// Takes a request at a first reading, answers it at 5200, and finds these datagrams.
fn check_answers(
    rt: &impl Abort,
    server: &mut Server,
    response: &[u8; 32],
    follow_up: Option<[u8; 32]>,
) {
    let ticket = server.receive(&REQUEST, 5000).expect(rt, "a ticket");
    let answered = server.answer(ticket, 5200);
    check(rt, &answered.response, response);
    check_that(rt, answered.follow_up == follow_up, "the follow-up");
}

#[test]
fn requests_are_answered(rt: HostRuntime) {
    let mut plain = Server::new(-30, 0, false);
    check_answers(&rt, &mut plain, &RESPONSE, None);
    // The promise has the receive value in place of the transmit value.
    let promise = changed(&[(1, 2), (30, 19), (31, 136)]);
    let follow_up = changed(&[(1, 3)]);
    let mut following = Server::new(-30, 0, true);
    check_answers(&rt, &mut following, &promise, Some(follow_up));
    // Only a greater reading promises a follow-up.
    check_answers(&rt, &mut following, &RESPONSE, None);
}

#[test]
fn what_is_no_request_is_refused(rt: HostRuntime) {
    let mut server = Server::new(30, 25_600_000, true);
    let answer = server.receive(&RESPONSE, 5000).err();
    check_that(&rt, answer == Some(ServeFault::NotARequest), "a response");
    let short = server.receive(&REQUEST[..31], 5000).err();
    let length = Some(ServeFault::Undecodable(WcFault::Length));
    check_that(&rt, short == length, "a short datagram");
}
