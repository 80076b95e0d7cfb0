//! A television and a companion on real sockets. The port comes from the process's own number.

use css_net::{NetOutside, NetRuntime};
use css_num::Text;
use css_outside::{Address, Failure, Heard, Kind, OutFault, Outside};
use std::alloc::Global;
use std::io::Write;
use std::net::{Ipv4Addr, OpenListener, OpenStream, Shutdown, TcpListener};
use std::process::{self, Abort};
use std::thread;
use std::time::{Clock, Duration};

/// How many turns are made until something must have come.
const TURNS: usize = 100;
/// How long after a dial the next one of its kind may begin, in milliseconds.
const BETWEEN_DIALS: u64 = 500;
/// How long a connection on this machine takes at most, in milliseconds.
const CONNECTS: u64 = 20;

fn text(rt: &impl Abort, alloc: Global, words: &[u8]) -> Text {
    Text::of(alloc, words).expect(rt, "memory")
}

/// Where a television listens on this machine.
fn television_at(rt: &impl Abort, alloc: Global, port: u16) -> Address {
    Address {
        host: text(rt, alloc, b"127.0.0.1"),
        port,
        path: text(rt, alloc, b"/cii"),
    }
}

fn listen<O: Outside>(rt: &impl Abort, outside: &mut O, at: &Address) {
    outside.listen(&at.host, at.port).expect(rt, "a port");
}

/// The socket of the clock that listens there.
fn dial_clock<O: Outside>(rt: &impl Abort, outside: &mut O, at: &Address) -> u32 {
    outside.dial(Kind::Wc, at).expect(rt, "a clock")
}

/// A companion dials, and a television accepts: their peers.
fn meet<O: Outside>(rt: &impl Abort, tv: &mut O, companion: &mut O, to: &Address) -> (u32, u32) {
    let mut dialled = None;
    let mut accepted = None;
    for _ in 0..TURNS {
        if dialled.is_none() {
            dialled = companion.dial(Kind::Cii, to).ok();
        }
        if accepted.is_none() {
            let _ = tv.take_datagram(&mut [0u8; 64]);
            accepted = tv.accept().ok().flatten();
        }
    }
    match (dialled, accepted) {
        (Some(peer), Some((guest, Kind::Cii))) => (peer, guest),
        _ => panic!(rt; "no session"),
    }
}

/// The next text of a session.
fn text_of<O: Outside>(rt: &impl Abort, outside: &mut O, peer: u32) -> Text {
    for _ in 0..TURNS {
        let _ = outside.take_datagram(&mut [0u8; 64]);
        if let Heard::Text(text) = outside.take_text(peer).expect(rt, "a session") {
            return text;
        }
    }
    panic!(rt; "no text")
}

/// A text goes from one to the other.
fn tell<O: Outside>(rt: &impl Abort, from: &mut O, peer: u32, words: &[u8]) {
    from.send_text(peer, words).expect(rt, "a session");
}

/// Sends 32 bytes, each of them `first`.
fn send<O: Outside>(rt: &impl Abort, outside: &mut O, peer: u32, first: u8) {
    outside
        .send_datagram(peer, &[first; 32])
        .expect(rt, "a socket");
}

/// The next datagram: its sender and its first byte.
fn datagram_of<O: Outside>(rt: &impl Abort, outside: &mut O) -> (u32, u8) {
    let mut into = [0u8; 64];
    for _ in 0..TURNS {
        if let Ok(Some((peer, 32))) = outside.take_datagram(&mut into) {
            return (peer, into[0]);
        }
    }
    panic!(rt; "no datagram")
}

/// A text and a datagram go there and back.
fn check_crossing<O: Outside>(rt: &impl Abort, tv: &mut O, companion: &mut O, at: &Address) {
    listen(rt, tv, at);
    let (peer, guest) = meet(rt, tv, companion, at);
    tell(rt, tv, guest, b"there and back");
    let came = text_of(rt, companion, peer);
    tell(rt, companion, peer, came.bytes());
    let back = text_of(rt, tv, guest);
    assert!(rt; back.bytes() == b"there and back".as_slice());
    let clock = dial_clock(rt, companion, at);
    send(rt, companion, clock, 7);
    let (sender, first) = datagram_of(rt, tv);
    send(rt, tv, sender, first);
    let (_, first) = datagram_of(rt, companion);
    assert!(rt; first == 7);
}

/// Two companions ask at once, and the television answers the last first: each has what answers its own request. The
/// number of a sender stays.
fn check_two_askers<O: Outside>(
    rt: &impl Abort,
    tv: &mut O,
    one: &mut O,
    other: &mut O,
    at: &Address,
) {
    listen(rt, tv, at);
    let clock = dial_clock(rt, one, at);
    send(rt, one, clock, 1);
    let (first, _) = datagram_of(rt, tv);
    let clock_of_other = dial_clock(rt, other, at);
    send(rt, other, clock_of_other, 2);
    let (second, _) = datagram_of(rt, tv);
    send(rt, tv, second, 12);
    send(rt, tv, first, 11);
    let told = (datagram_of(rt, one), datagram_of(rt, other));
    assert!(rt; told == ((clock, 11), (clock_of_other, 12)));
    send(rt, one, clock, 3);
    assert!(rt; datagram_of(rt, tv) == (first, 3) && second != first);
}

/// A relay listens and dials: a companion's datagram goes over it to a television, and one comes back.
fn check_relaying<O: Outside>(
    rt: &impl Abort,
    tv: &mut O,
    relay: &mut O,
    companion: &mut O,
    at: &Address,
    own: &Address,
) {
    listen(rt, tv, at);
    listen(rt, relay, own);
    let above = dial_clock(rt, relay, at);
    let clock = dial_clock(rt, companion, own);
    send(rt, companion, clock, 7);
    let (below, first) = datagram_of(rt, relay);
    send(rt, relay, above, first.wrapping_add(1));
    let (sender, first) = datagram_of(rt, tv);
    send(rt, tv, sender, first.wrapping_add(1));
    let (peer, first) = datagram_of(rt, relay);
    assert!(rt; peer == above);
    send(rt, relay, below, first.wrapping_add(1));
    let (_, first) = datagram_of(rt, companion);
    assert!(rt; first == 10);
}

fn cross<R: NetRuntime>(rt: &impl Abort, alloc: Global, net: R, port: u16) {
    let at = television_at(rt, alloc, port);
    let mut tv = NetOutside::new(alloc, net);
    let mut companion = NetOutside::new(alloc, net);
    check_crossing(rt, &mut tv, &mut companion, &at);
}

fn ask_at_once<R: NetRuntime>(rt: &impl Abort, alloc: Global, net: R, port: u16) {
    let at = television_at(rt, alloc, port);
    let mut tv = NetOutside::new(alloc, net);
    let mut one = NetOutside::new(alloc, net);
    let mut other = NetOutside::new(alloc, net);
    check_two_askers(rt, &mut tv, &mut one, &mut other, &at);
}

fn relay<R: NetRuntime>(rt: &impl Abort, alloc: Global, net: R, port: u16) {
    let at = television_at(rt, alloc, port);
    let own = television_at(rt, alloc, port.wrapping_add(2));
    let mut tv = NetOutside::new(alloc, net);
    let mut relay = NetOutside::new(alloc, net);
    let mut companion = NetOutside::new(alloc, net);
    check_relaying(rt, &mut tv, &mut relay, &mut companion, &at, &own);
}

/// Hosts that can't be listened on while another television listens on this machine, and why.
#[rattlefmt::skip]
const UNHEARD: [(&[u8], Failure); 4] = [
    (b"127.0.0.1", Failure::InUse),
    (b"0.0.0.0", Failure::NotHere),
    (b"192.0.2.1", Failure::NotHere),
    (b"\xff", Failure::NoSuchHost),
];

/// A host that can't be listened on is told as such.
fn check_unheard<O: Outside>(
    rt: &impl Abort,
    outside: &mut O,
    host: &Text,
    port: u16,
    failure: Failure,
) {
    let listens = outside.listen(host, port);
    assert!(rt; listens == Err(OutFault::Failed(failure)), "{failure:?}");
}

fn listen_in_vain<R: NetRuntime>(rt: &impl Abort, alloc: Global, net: R, port: u16) {
    let mut tv = NetOutside::new(alloc, net);
    listen(rt, &mut tv, &television_at(rt, alloc, port));
    for (host, failure) in UNHEARD {
        let mut outside = NetOutside::new(alloc, net);
        check_unheard(rt, &mut outside, &text(rt, alloc, host), port, failure);
    }
}

/// What the dials of a session come to in the end.
fn failure_of<O: Outside>(tv: &mut O, companion: &mut O, to: &Address) -> Option<OutFault> {
    let mut last = None;
    for _ in 0..TURNS {
        last = companion.dial(Kind::Cii, to).err();
        let _ = tv.take_datagram(&mut [0u8; 64]);
        let _ = tv.accept();
    }
    last
}

/// A dial that can't succeed is told as such, by the outside too.
fn check_refused<R: NetRuntime>(
    rt: &impl Abort,
    tv: &mut NetOutside<R>,
    mut companion: NetOutside<R>,
    to: &Address,
    failure: Failure,
) {
    let last = failure_of(tv, &mut companion, to);
    assert!(rt; last == Some(OutFault::Failed(failure)), "{failure:?}");
    assert!(rt; companion.last_dial_failure() == Some(failure));
}

/// Dials at another path of a television, and at a port where nobody listens.
fn dial_in_vain<R: NetRuntime>(rt: &impl Abort, alloc: Global, net: R, port: u16) {
    let mut tv = NetOutside::new(alloc, net);
    let mut to = television_at(rt, alloc, port);
    listen(rt, &mut tv, &to);
    to.path = text(rt, alloc, b"/other");
    let companion = NetOutside::new(alloc, net);
    check_refused(rt, &mut tv, companion, &to, Failure::HttpStatus(404));
    to.port = port.wrapping_add(2);
    let companion = NetOutside::new(alloc, net);
    check_refused(rt, &mut tv, companion, &to, Failure::Refused);
}

/// Somebody listens on a port of this machine, and answers nothing.
fn silent_at<R: NetRuntime>(rt: &impl Abort, net: &R, port: u16) -> R::Listener {
    let listener = TcpListener::bind(net, (Ipv4Addr::LOCALHOST, port)).expect(rt, "a port");
    listener.set_nonblocking(true).expect(rt, "a listener");
    listener
}

/// What answers a dial, and how the dial fails.
#[rattlefmt::skip]
const ANSWERS: [(&[u8], Failure); 5] = [
    (b"SSH-2.0-a\r\n\r\n", Failure::NoWebSocket),
    (b"220 a\r\n", Failure::NoWebSocket),
    (b"HTTP/1.1 101 a\r\nUpgrade: websocket\r\nConnection: Upgrade\r\nSec-WebSocket-Accept: a\r\n\r\n",
        Failure::NoWebSocket),
    (b"HTTP/1.1 503 a\r\n\r\n", Failure::HttpStatus(503)),
    (b"", Failure::Other),
];

/// How the dials at a listener fail that answers each with these bytes, and says no more.
fn failure_at<R: NetRuntime>(
    companion: &mut NetOutside<R>,
    listener: &R::Listener,
    to: &Address,
    answer: &[u8],
) -> Option<Failure> {
    let mut answered = None;
    for _ in 0..TURNS {
        let _ = companion.dial(Kind::Cii, to);
        let _ = companion.take_datagram(&mut [0u8; 64]);
        if let Ok((mut stream, _)) = listener.accept() {
            let _ = stream.write(answer);
            let _ = stream.shutdown(Shutdown::Write);
            answered = Some(stream);
        }
    }
    drop(answered);
    companion.last_dial_failure()
}

fn dial_at_others<R: NetRuntime>(rt: &impl Abort, alloc: Global, net: R, port: u16) {
    let listener = silent_at(rt, &net, port);
    let to = television_at(rt, alloc, port);
    for (answer, failure) in ANSWERS {
        let mut companion = NetOutside::new(alloc, net);
        let told = failure_at(&mut companion, &listener, &to, answer);
        assert!(rt; told == Some(failure), "{failure:?}");
    }
}

/// Whether somebody has dialled a listener.
fn is_dialled(net: &impl Clock, listener: &impl OpenListener) -> bool {
    thread::sleep(net, Duration::from_millis(CONNECTS));
    listener.accept().is_ok()
}

/// A dial within 500 ms of one that was refused begins none, and fails as that one did. A later one begins.
fn check_pace<R: NetRuntime>(rt: &impl Abort, net: R, mut companion: NetOutside<R>, to: &Address) {
    let refused = Err(OutFault::Failed(Failure::Refused));
    // What the system says of the first dial may come at the next.
    let _ = companion.dial(Kind::Cii, to);
    assert!(rt; companion.dial(Kind::Cii, to) == refused);
    let listener = silent_at(rt, &net, to.port);
    assert!(rt; companion.dial(Kind::Cii, to) == refused);
    assert!(rt; !is_dialled(&net, &listener));
    thread::sleep(&net, Duration::from_millis(BETWEEN_DIALS));
    let _ = companion.dial(Kind::Cii, to);
    assert!(rt; is_dialled(&net, &listener));
    assert!(rt; companion.last_dial_failure() == Some(Failure::Refused));
}

#[test]
fn texts_and_datagrams_go_there_and_back(rt: HostRuntime) {
    let port = 10000 + (process::id(rt.process()) % 5000 * 4) as u16;
    cross(&rt, rt.alloc(), &rt, port);
}

#[test]
fn one_who_listens_dials_too(rt: HostRuntime) {
    let port = 30000 + (process::id(rt.process()) % 5000 * 4) as u16;
    relay(&rt, rt.alloc(), &rt, port);
}

#[test]
fn a_host_that_cannot_be_listened_on_is_told(rt: HostRuntime) {
    let port = 50000 + (process::id(rt.process()) % 1000 * 2) as u16;
    listen_in_vain(&rt, rt.alloc(), &rt, port);
}

#[test]
fn a_dial_tells_how_it_failed(rt: HostRuntime) {
    let port = 52000 + (process::id(rt.process()) % 1000 * 4) as u16;
    dial_in_vain(&rt, rt.alloc(), &rt, port);
}

#[test]
fn a_closed_port_is_dialled_at_a_pace(rt: HostRuntime) {
    let port = 56000 + (process::id(rt.process()) % 1000) as u16;
    let to = television_at(&rt, rt.alloc(), port);
    check_pace(&rt, &rt, NetOutside::new(rt.alloc(), &rt), &to);
}

#[test]
fn what_answers_a_dial_may_open_no_web_socket(rt: HostRuntime) {
    let port = 57000 + (process::id(rt.process()) % 1000) as u16;
    dial_at_others(&rt, rt.alloc(), &rt, port);
}

#[test]
fn each_asker_has_its_own_answer(rt: HostRuntime) {
    let port = 58000 + (process::id(rt.process()) % 1000 * 2) as u16;
    ask_at_once(&rt, rt.alloc(), &rt, port);
}
