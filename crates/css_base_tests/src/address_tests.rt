use crate::common::{check, check_that};
use css_address::Kind::{self, Cii, Ts, Wc};
use css_address::{AddressFault, LONGEST_ADDRESS, address};
use std::alloc::Global;
use std::process::Abort;

/// A kind, a text, and the host, port and path of its address.
type Row = (Kind, &'static [u8], &'static str, u16, &'static str);

const ADDRESSES: [Row; 14] = [
    (Wc, b"udp://[::1]:6677", "[::1]", 6677, ""),
    (Wc, b"UDP://tv.local:1/a?b", "tv.local", 1, "/a?b"),
    (Cii, b"ws://tv.local", "tv.local", 80, "/"),
    (Cii, b"ws://1.0.0.1:6677/cii", "1.0.0.1", 6677, "/cii"),
    (Ts, b"ws://tv.local:80/ts", "tv.local", 80, "/ts"),
    (Ts, b"ws://h:065535/ts?", "h", 65535, "/ts?"),
    (Ts, b"ws://h/ts?a=1&b#c?d", "h", 80, "/ts?a=1&b"),
    (Ts, b"ws://me:word@tv.local/ts", "tv.local", 80, "/ts"),
    (Ts, b"WS://TV.Local/Ts", "tv.local", 80, "/Ts"),
    (Ts, b"ws:\\\\tv.local\\ts", "tv.local", 80, "/ts"),
    (Ts, b" ws://tv.local/\tts\n", "tv.local", 80, "/ts"),
    (Ts, b"ws://0x7f.1/ts", "127.0.0.1", 80, "/ts"),
    (Ts, b"ws://b\xc3\xbccher/ts", "xn--bcher-kva", 80, "/ts"),
    (Ts, b"ws://h/a/../t s/\xc3\xa9", "h", 80, "/t%20s/%C3%A9"),
];

fn check_addresses(rt: &impl Abort, alloc: Global, rows: &[Row]) {
    for (kind, text, host, port, path) in rows {
        let given = address(alloc, *kind, text).expect(rt, "an address");
        check(rt, given.host.bytes(), host.as_bytes());
        check(rt, given.path.bytes(), path.as_bytes());
        check_that(rt, given.port == *port, "the port");
    }
}

const NO_ADDRESSES: [(Kind, &[u8]); 15] = [
    (Wc, b""),
    (Wc, b"ws://tv.local:6677"),
    (Wc, b"udps://tv.local:6677"),
    (Wc, b"udp://tv.local"),
    (Wc, b"udp://tv.local:65536"),
    (Wc, b"udp://:6677"),
    (Wc, b"udp:tv.local:6677"),
    (Wc, b"127.0.0.1:6677"),
    (Cii, b"udp://tv.local:6677"),
    (Cii, b"wss://tv.local/cii"),
    (Cii, b"/cii"),
    (Ts, b"ws://"),
    (Ts, b"ws://tv local/ts"),
    (Ts, b"ws://1.2.3.256/ts"),
    (Ts, b"ws://tv.local/\xff"),
];

fn check_no_addresses(rt: &impl Abort, alloc: Global, rows: &[(Kind, &[u8])]) {
    for (kind, text) in rows {
        let fault = address(alloc, *kind, text).err();
        check_that(rt, fault == Some(AddressFault::Bad), "no address");
    }
}

#[test]
fn a_url_gives_an_address_or_none(rt: HostRuntime) {
    check_addresses(&rt, rt.alloc(), &ADDRESSES);
    check_no_addresses(&rt, rt.alloc(), &NO_ADDRESSES);
}

#[test]
fn a_text_has_a_greatest_length(rt: HostRuntime) {
    for (more, is_address) in [(0, true), (1, false)] {
        let path = "a"
            .repeat(rt.alloc(), LONGEST_ADDRESS - 7 + more)
            .expect(&rt, "memory");
        let text = format!(in rt.alloc(); "ws://h/{path}").expect(&rt, "memory");
        let given = address(rt.alloc(), Kind::Ts, text.as_bytes());
        check_that(&rt, given.is_ok() == is_address, "the length");
    }
}
