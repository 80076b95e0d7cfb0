//! What a relay answers, refuses and tells.

ghost use Rattle.std.specs.Prelude.{◌≡◌, ◌≤◌, ◌<◌};

use crate::common::{EXACT, check, check_order, check_that, datagram, text, words};
use css_cii::{CiiName, full, write_message};
use css_client::Landing;
use css_companion::{Binding, CompanionConfig, CompanionEvent, CompanionFault};
use css_model::{LIMIT, WcFault};
use css_num::{Span, Text};
use css_relay::{Relay, RelayFault};
use std::alloc::Global;
use std::process::Abort;

/// A television's answer: when it was asked for, received, sent and landed, in nanoseconds, its precision and error.
type Told = ([u64; 4], i8, u32);

/// What a response of the relay tells: its precision, its error, and its receive and transmit values in nanoseconds.
type Response = (i8, u32, u64, u64);

/// What the relay was told, the length of a datagram and its first two bytes, the readings at which the relay takes it
/// and answers it, and the response or the fault.
#[rattlefmt::skip]
type Row = (&'static [Told], (usize, [u8; 2]), u64, u64, Result<Response, RelayFault>);

const REQUEST: (usize, [u8; 2]) = (32, [0, 0]);

/// The television's answer is 200 ns old when it is sent, and its round trip takes 600 ns.
const FIRST: Told = ([1000, 5000, 5200, 1600], -30, 0);

/// The same of a television whose oscillator may be wrong by 1000 ppm, and a wider one that is sure of it.
const TWO: &[Told] = &[
    ([1000, 5000, 5200, 1600], -30, 256_000),
    ([2000, 6000, 6200, 4000], -30, 0),
];

/// The television's clock is at the last nanosecond that it can show.
const LAST: &[Told] = &[([0, LIMIT - 1, LIMIT - 1, 0], -30, 0)];

/// The television's clock has begun, and is precise to a second.
const BEGUN: &[Told] = &[([0, 5, 5, 1000], 0, 0)];

/// The receive value of the widest answer.
const MIDDLE: u64 = 2_147_483_648_000_000_000;

/// The reading at which an answer lands whose span is 2^31 seconds wide.
const AT_MOST: u64 = 1_073_741_823_999_999_996;

#[rattlefmt::skip]
const BEYOND: RelayFault =
    RelayFault::Beyond(Span { lo: 4_294_967_296_000_000_996, hi: 4_294_967_296_000_001_002 });

#[rattlefmt::skip]
const JUST_BEYOND: RelayFault =
    RelayFault::Beyond(Span { lo: 4_294_967_296_000_000_000, hi: 4_294_967_296_000_000_006 });

#[rattlefmt::skip]
const ANSWERED: [Row; 6] = [
    // The middles of both spans.
    (&[FIRST], REQUEST, 1600, 1700, Ok((-22, 0, 5400, 5500))),
    // The greatest error is not that of the narrowest answer.
    (TWO, REQUEST, 701_301, 701_301, Ok((-20, 256_000, 704_401, 704_401))),
    // The narrowest answer at the first reading is another.
    (TWO, REQUEST, 701_300, 701_301, Ok((-20, 256_000, 705_100, 704_401))),
    // What is cut to the last reading, and to 0.
    (LAST, REQUEST, 0, 0, Ok((-29, 0, 4_294_967_295_999_999_997, 4_294_967_295_999_999_997))),
    (BEGUN, REQUEST, 1000, 1000, Ok((0, 0, 500_000_503, 500_000_503))),
    // The greatest half width.
    (&[([0, MIDDLE, MIDDLE, AT_MOST], 29, 0)], REQUEST, AT_MOST, AT_MOST,
        Ok((30, 0, 2_684_354_559_999_999_998, 2_684_354_559_999_999_998))),
];

#[rattlefmt::skip]
const REFUSED: [Row; 8] = [
    (&[([0, MIDDLE, MIDDLE, AT_MOST + 1], 29, 0)], REQUEST, AT_MOST + 1, AT_MOST + 1,
        Err(RelayFault::Wide(1_073_741_824_000_000_001))),
    // Beyond all readings. In the second row there is a ticket of before.
    (LAST, REQUEST, 1000, 1000, Err(BEYOND)),
    (LAST, REQUEST, 3, 4, Err(JUST_BEYOND)),
    (&[], REQUEST, 1600, 1700, Err(RelayFault::NoAnswer)),
    (&[FIRST], (33, [0, 0]), 1600, 1600, Err(RelayFault::Undecodable(WcFault::Length))),
    (&[FIRST], (32, [1, 0]), 1600, 1600, Err(RelayFault::Undecodable(WcFault::Version))),
    (&[FIRST], (32, [0, 4]), 1600, 1600, Err(RelayFault::Undecodable(WcFault::MessageType))),
    (&[FIRST], (32, [0, 1]), 1600, 1600, Err(RelayFault::NotARequest)),
];

/// CII texts, and the state that a relay tells after them.
#[rattlefmt::skip]
const STATES: [(&[&str], &str); 4] = [
    (&["{}"], "{\"contentId\":null,\"contentIdStatus\":null,\"mrsUrl\":null,\"presentationStatus\":null,\
         \"protocolVersion\":null,\"teUrl\":null,\"timelines\":null,\"tsUrl\":null,\"wcUrl\":null}"),
    (&["{\"wcUrl\":\"udp://10.0.0.1:6677\",\"contentId\":\"dvb://1.2.3\"}"],
        "{\"contentId\":\"dvb://1.2.3\",\"contentIdStatus\":null,\"mrsUrl\":null,\"presentationStatus\":null,\
         \"protocolVersion\":null,\"teUrl\":null,\"timelines\":null,\"tsUrl\":null,\"wcUrl\":\"udp://10.0.0.2:6690\"}"),
    // A relay opens no CSS-TS, so the address of that may move, and be none.
    (&["{\"tsUrl\":\"ws://10.0.0.1:6678/ts\"}", "{\"tsUrl\":\"ws://10.0.0.3/ts\",\"contentId\":\"dvb://1.2.3\"}"],
        "{\"contentId\":\"dvb://1.2.3\",\"contentIdStatus\":null,\"mrsUrl\":null,\"presentationStatus\":null,\
         \"protocolVersion\":null,\"teUrl\":null,\"timelines\":null,\"tsUrl\":\"ws://10.0.0.3/ts\",\"wcUrl\":null}"),
    (&["{\"tsUrl\":\"none\"}"], "{\"contentId\":null,\"contentIdStatus\":null,\"mrsUrl\":null,\
         \"presentationStatus\":null,\"protocolVersion\":null,\"teUrl\":null,\"timelines\":null,\
         \"tsUrl\":\"none\",\"wcUrl\":null}"),
];

/// A relay of a timeline's television, at port 6690 of a host.
fn new_relay(rt: &impl Abort, alloc: Global) -> Relay
    ensures { result.companion.client.floor ≡ 0 }
{
    let config = CompanionConfig {
        selector: text(rt, alloc, "urn:dvb:css:timeline:pts"),
        stem: text(rt, alloc, ""),
        local: EXACT,
    };
    let host = text(rt, alloc, "10.0.0.2");
    Relay::new(alloc, config, &host, 6690).expect(rt, "memory")
}

fn ask(relay: &mut Relay, reading: u64)
    requires range { reading < LIMIT }
    requires floor { relay.old.companion.client.floor ≤ reading }
    ensures { relay.new.companion.client.floor ≤ reading }
{
    let _ = relay.companion().ask(reading);
}

fn land(rt: &impl Abort, relay: &mut Relay, bytes: &[u8], reading: u64)
    requires range { reading < LIMIT }
    requires floor { relay.old.companion.client.floor ≤ reading }
    ensures { relay.new.companion.client.floor ≤ reading }
{
    let landing = relay.land(bytes, reading).expect(rt, "memory");
    check_that(rt, landing == Landing::Accepted, "an answer");
}

/// The relay asks for each answer, which lands. The last reading.
fn hear(rt: &impl Abort, relay: &mut Relay, answers: &[Told]) -> u64
    requires { relay.old.companion.client.floor ≡ 0 }
    ensures { relay.new.companion.client.floor ≤ result }
{
    let mut floor = 0;
    for ([asked, receive, transmit, landed], precision, error) in answers {
        check_order(rt, floor, *asked);
        ask(relay, *asked);
        check_order(rt, *asked, *landed);
        let bytes = datagram(1, *precision, *error, [*asked, *receive, *transmit]);
        land(rt, relay, &bytes, *landed);
        floor = *landed;
    }
    floor
}

/// What a relay answers to a datagram that it takes and answers at these readings.
fn serve(relay: &Relay, bytes: &[u8], taken: u64, given: u64) -> Result<[u8; 32], RelayFault>
    requires given { given < LIMIT }
    requires floor { relay.now.companion.client.floor ≤ taken }
    requires order { taken ≤ given }
{
    let ticket = relay.receive(bytes, taken)?;
    relay.answer(ticket, given)
}

/// What a companion sends in its requests, and is told again.
const ORIGINATE: u64 = 7_900_000_000;

fn response((precision, error, receive, transmit): Response) -> [u8; 32] {
    datagram(1, precision, error, [ORIGINATE, receive, transmit])
}

/// A datagram of this length that begins so.
fn request(rt: &impl Abort, alloc: Global, (length, first): (usize, [u8; 2])) -> Vec<u8> {
    let mut bytes = datagram(0, 0, 0, [ORIGINATE, 0, 0]);
    [bytes[0], bytes[1]] = first;
    let mut bytes = bytes.to_vec(alloc).expect(rt, "memory");
    bytes.resize(length, 0).expect(rt, "memory");
    bytes
}

/// The relay is told the answers of a row, and answers as it says.
fn check_row(rt: &impl Abort, alloc: Global, relay: &mut Relay, row: &Row)
    requires { relay.old.companion.client.floor ≡ 0 }
{
    let (answers, form, taken, given, wanted) = row;
    check_order(rt, hear(rt, relay, answers), *taken);
    check_order(rt, *taken, *given);
    let bytes = request(rt, alloc, *form);
    let served = serve(relay, &bytes, *taken, *given);
    let wanted = wanted.map(response);
    assert!(rt; served == wanted, "{row:?}: {served:?} and not {wanted:?}");
}

fn check_rows(rt: &impl Abort, alloc: Global, rows: &[Row]) {
    for row in rows {
        let mut relay = new_relay(rt, alloc);
        check_row(rt, alloc, &mut relay, row);
    }
}

#[test]
fn each_row_is_answered(rt: HostRuntime) {
    check_rows(&rt, rt.alloc(), &ANSWERED);
    check_rows(&rt, rt.alloc(), &REFUSED);
}

/// The relay hears a text of the television.
fn tell(
    rt: &impl Abort,
    alloc: Global,
    relay: &mut Relay,
    told: &str,
) -> Result<Option<Text>, CompanionFault> {
    let event = CompanionEvent::CiiText(text(rt, alloc, told));
    relay.companion().step_under(Binding::WallClock, event)
}

/// The text of the state that the relay tells its companions after these texts of the television.
fn relayed_after(rt: &impl Abort, alloc: Global, texts: &[&str]) -> Text {
    let mut relay = new_relay(rt, alloc);
    for told in texts {
        let _ = tell(rt, alloc, &mut relay, told).expect(rt, "no fault");
    }
    let state = relay.relayed().expect(rt, "memory");
    write_message(alloc, &full(&state).expect(rt, "memory")).expect(rt, "memory")
}

#[test]
fn the_relay_tells_its_own_address(rt: HostRuntime) {
    for (place, (texts, expected)) in STATES.iter().enumerate() {
        let relayed = relayed_after(&rt, rt.alloc(), texts);
        check(&rt, place, words(&relayed), expected);
    }
}

#[test]
fn the_wall_clock_that_a_relay_goes_by_may_not_move(rt: HostRuntime) {
    let mut relay = new_relay(&rt, rt.alloc());
    for (told, moves) in [
        ("{\"wcUrl\":\"udp://10.0.0.1:6677\"}", false),
        ("{\"wcUrl\":\"udp://10.0.0.1:7000\"}", true),
    ] {
        let heard = tell(&rt, rt.alloc(), &mut relay, told);
        let refused = matches!(
            &heard,
            Err(CompanionFault::Moved {
                property: CiiName::WcUrl,
                ..
            })
        );
        check_that(&rt, refused == moves && heard.is_err() == moves, told);
    }
}
