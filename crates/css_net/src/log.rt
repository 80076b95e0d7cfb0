//! What the edge does, in lines on standard error for a person who asks for them.

use crate::answers::DialFault;
use crate::names::words_of;
use crate::session::End;
use css_devices::errors_take_line;
use css_num::Text;
use css_outside::{Address, Failure, Kind, OutFault};
use std::env::Env;
use std::fmt;
use std::net::SocketAddr;
use tungstenite::CloseCode;

/// How many lines a run writes at most, whatever its peers do.
const MOST_LINES: u32 = 10_000;
/// How many characters of a host a line has at most. So a line is short enough for a pipe or a terminal to take whole.
const MOST_OF_HOST: usize = 100;

/// Something that the edge did.
#[derive(Clone, Copy)]
pub(crate) enum Event<'a> {
    /// It listens at this address.
    Listens(SocketAddr),
    /// It couldn't listen on this port of a host.
    ListensNot(&'a Text, u16, OutFault),
    /// It dialled, and what it opened is this peer's.
    Dialled(Kind, &'a Address, u32),
    /// A dial failed.
    DialledNot(Kind, &'a Address, DialFault),
    /// A session was opened from there, which is this peer's.
    Opened(Kind, u32, Option<SocketAddr>),
    /// A handshake from there was refused, for this reason.
    Refused(Option<SocketAddr>, &'static str),
    /// This peer's session ended.
    Closed(u32, End),
}

/// The characters of a host, or the first of many.
fn shown(host: &Text) -> &str {
    let host = words_of(host).unwrap_or("?");
    match host.char_indices().nth(MOST_OF_HOST) {
        Some((end, _)) => host.get(..end).unwrap_or(host),
        None => host,
    }
}

fn name_of(kind: Kind) -> &'static str {
    match kind {
        Kind::Wc => "WC",
        Kind::Cii => "CII",
        Kind::Ts => "TS",
    }
}

fn why(end: End) -> &'static str {
    match end {
        End::ByPeer => "the peer closed it",
        End::Broken => "the connection ended without a close, or took too little",
        End::ByUs(CloseCode::Size) => "a text was too long",
        End::ByUs(CloseCode::Protocol) => "the peer broke a rule of WebSockets",
        End::ByUs(CloseCode::Invalid) => "a text wasn't UTF-8",
        End::ByUs(CloseCode::Unsupported) => "a message was no text",
        End::ByUs(CloseCode::Away) => "the peer was silent",
        End::ByUs(_) => "this end closed it",
    }
}

/// What the system said, in a few words.
fn said(fault: OutFault) -> &'static str {
    match fault {
        OutFault::Memory => "out of memory",
        OutFault::Failed(Failure::InUse) => "in use",
        OutFault::Failed(Failure::NotHere) => "no address of this machine",
        OutFault::Failed(Failure::NoSuchHost) => "no such host",
        OutFault::Failed(Failure::Refused) => "refused",
        OutFault::Failed(Failure::TimedOut) => "no answer in time",
        OutFault::Failed(Failure::NoPermission) => "no permission",
        OutFault::Failed(Failure::NoRoom) => "no room",
        OutFault::Failed(Failure::HttpStatus(_)) => "HTTP status",
        OutFault::Failed(Failure::NoWebSocket) => "no WebSocket",
        OutFault::Failed(Failure::Other) => "failed",
    }
}

/// How a dial, or listening, went.
#[derive(Clone, Copy)]
enum Went {
    OpenAs(u32),
    Failed(DialFault),
}

impl fmt::Display for Went {
    fn fmt<W: fmt::Write>(&self, f: &mut fmt::Formatter<W>) -> fmt::Result {
        match *self {
            Went::OpenAs(peer) => write!(f, "open as {peer}"),
            Went::Failed(DialFault::Plain(OutFault::Failed(Failure::HttpStatus(status)))) => {
                write!(f, "HTTP status {status}")
            }
            Went::Failed(DialFault::Plain(fault)) => f.write_str(said(fault)),
            Went::Failed(DialFault::Answered(wrong)) => f.write_str(wrong.words()),
        }
    }
}

/// A port of a host.
#[derive(Clone, Copy)]
struct Port<'a>(&'a Text, u16);

impl fmt::Display for Port<'_> {
    fn fmt<W: fmt::Write>(&self, f: &mut fmt::Formatter<W>) -> fmt::Result {
        write!(f, "{}:{}", shown(self.0), self.1)
    }
}

/// Where a peer is.
#[derive(Clone, Copy)]
struct Place(Option<SocketAddr>);

impl fmt::Display for Place {
    fn fmt<W: fmt::Write>(&self, f: &mut fmt::Formatter<W>) -> fmt::Result {
        match self.0 {
            Some(address) => write!(f, "{address}"),
            None => f.write_str("a peer that has gone"),
        }
    }
}

/// Writes what a dial came to.
fn write_dial<W: fmt::Write>(
    f: &mut fmt::Formatter<W>,
    kind: Kind,
    to: &Address,
    went: Went,
) -> fmt::Result {
    write!(
        f,
        "{} dialled {}: {went}",
        name_of(kind),
        Port(&to.host, to.port)
    )
}

impl fmt::Display for Event<'_> {
    fn fmt<W: fmt::Write>(&self, f: &mut fmt::Formatter<W>) -> fmt::Result {
        match *self {
            Event::Listens(address) => write!(f, "listening on {address}"),
            Event::ListensNot(host, port, fault) => {
                write!(
                    f,
                    "listening on {}: {}",
                    Port(host, port),
                    Went::Failed(DialFault::Plain(fault))
                )
            }
            Event::Dialled(kind, to, peer) => write_dial(f, kind, to, Went::OpenAs(peer)),
            Event::DialledNot(kind, to, fault) => write_dial(f, kind, to, Went::Failed(fault)),
            Event::Opened(kind, peer, from) => {
                write!(f, "{} session {peer} from {}", name_of(kind), Place(from))
            }
            Event::Refused(from, why) => write!(f, "handshake from {} refused: {why}", Place(from)),
            Event::Closed(peer, end) => write!(f, "session {peer} closed: {}", why(end)),
        }
    }
}

/// How many lines were dropped before one that is written.
#[derive(Clone, Copy)]
struct Dropped(u64);

impl fmt::Display for Dropped {
    fn fmt<W: fmt::Write>(&self, f: &mut fmt::Formatter<W>) -> fmt::Result {
        match self.0 {
            0 => Ok(()),
            count => write!(f, "{count} lines were dropped; "),
        }
    }
}

/// What was asked of the log.
#[derive(Clone, Copy)]
pub(crate) struct Log {
    /// How many lines may still be written: none where nobody asked for them.
    left: u32,
    /// How many lines were dropped since the last one that was written.
    dropped: u64,
}

impl Log {
    /// A log, where `CSS_LOG=1` stands in the environment.
    pub(crate) fn of<R: Env>(rt: &R) -> Log {
        let mut value = [0u8; 2];
        let is_wanted = matches!(rt.var("CSS_LOG", &mut value), Ok(1)) && value[0] == b'1';
        Log {
            left: if is_wanted { MOST_LINES } else { 0 },
            dropped: 0,
        }
    }

    /// Writes a line on something that was done. It is dropped where it would have to wait for whoever reads it. One
    /// that can't be written is left out.
    pub(crate) fn write<R: Eprint>(&mut self, rt: &R, event: Event<'_>) {
        if self.left == 0 {
            return;
        }
        if !errors_take_line() {
            self.dropped = self.dropped.saturating_add(1);
            return;
        }
        let dropped = Dropped(self.dropped);
        let _ = eprintln!(rt; "css: log: {dropped}{event}");
        self.left -= 1;
        self.dropped = 0;
    }
}
