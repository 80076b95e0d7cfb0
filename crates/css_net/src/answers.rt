//! The answers to requests for a session, and why a dial failed.

use crate::heads::{MOST_FIELDS, has_token, sole_value_of, value_of};
use css_num::Memory;
use css_outside::{Failure, OutFault};
use httparse::{EMPTY_HEADER, Header, Response, Status};
use websocket::handshake::derive_accept_key;

/// What an answer of status 101 lacks, or has too much, for the session that was asked for.
#[derive(Clone, Copy)]
pub(crate) enum Wrong {
    Version,
    Upgrade,
    Connection,
    Accept,
    Extension,
    Subprotocol,
}

impl Wrong {
    /// Its words for a person.
    pub(crate) fn words(self) -> &'static str {
        match self {
            Wrong::Version => "HTTP status 101, but not of HTTP/1.1",
            Wrong::Upgrade => "HTTP status 101, but its Upgrade isn't websocket",
            Wrong::Connection => "HTTP status 101, but its Connection lacks Upgrade",
            Wrong::Accept => "HTTP status 101, but its Sec-WebSocket-Accept is wrong",
            Wrong::Extension => "HTTP status 101, but with an extension that nobody asked for",
            Wrong::Subprotocol => "HTTP status 101, but with a subprotocol that nobody asked for",
        }
    }
}

/// Why a dial failed.
#[derive(Clone, Copy)]
pub(crate) enum DialFault {
    /// By what the system said, or for want of memory.
    Plain(OutFault),
    /// By an answer that makes no session.
    Answered(Wrong),
}

impl DialFault {
    /// It as an outside tells it.
    pub(crate) fn plain(self) -> OutFault {
        match self {
            DialFault::Plain(fault) => fault,
            DialFault::Answered(_) => OutFault::Failed(Failure::NoWebSocket),
        }
    }

    /// What was wrong with an answer, where it failed by that.
    pub(crate) fn wrong(self) -> Option<Wrong> {
        match self {
            DialFault::Plain(_) => None,
            DialFault::Answered(wrong) => Some(wrong),
        }
    }

    /// It failed by what the system said, or a server.
    pub(crate) fn failed(failure: Failure) -> DialFault {
        DialFault::Plain(OutFault::Failed(failure))
    }
}

impl From<OutFault> for DialFault {
    fn from(fault: OutFault) -> DialFault {
        DialFault::Plain(fault)
    }
}

impl From<Memory> for DialFault {
    fn from(_memory: Memory) -> DialFault {
        DialFault::Plain(OutFault::Memory)
    }
}

/// Whether the fields of an answer give the session that was asked for with this key, and nothing else.
fn check_fields(fields: &[Header<'_>], key: &[u8; 24]) -> Result<(), Wrong> {
    let accept = derive_accept_key(key);
    if !has_token(fields, "Upgrade", "websocket") {
        return Err(Wrong::Upgrade);
    }
    if !has_token(fields, "Connection", "upgrade") {
        return Err(Wrong::Connection);
    }
    if sole_value_of(fields, "Sec-WebSocket-Accept") != Some(accept.as_slice()) {
        return Err(Wrong::Accept);
    }
    if value_of(fields, "Sec-WebSocket-Extensions").is_some() {
        return Err(Wrong::Extension);
    }
    if value_of(fields, "Sec-WebSocket-Protocol").is_some() {
        return Err(Wrong::Subprotocol);
    }
    Ok(())
}

/// Whether this head is the answer that a request with this key wants, and else what it says.
pub(crate) fn check_answer(head: &[u8], key: &[u8; 24]) -> Result<(), DialFault> {
    let mut fields = [EMPTY_HEADER; MOST_FIELDS];
    let mut response = Response::new(&mut fields);
    match response.parse(head) {
        Ok(Status::Complete(_)) => {}
        _ => return Err(DialFault::failed(Failure::NoWebSocket)),
    }
    match response.code {
        Some(101) => {}
        Some(status) => return Err(DialFault::failed(Failure::HttpStatus(status))),
        None => return Err(DialFault::failed(Failure::NoWebSocket)),
    }
    if response.version != Some(1) {
        return Err(DialFault::Answered(Wrong::Version));
    }
    check_fields(response.headers, key).map_err(DialFault::Answered)
}
