//! What the system said of the network, and of a child.

use crate::asked::Asked;
use crate::options::{command_in, value_of};
use css_outside::Failure;
use std::alloc::Global;

/// The port that the words give, or the command's own.
fn port_in(words: &[String]) -> &str {
    let default = match command_in(words) {
        "relay" => "6690",
        _ => "6677",
    };
    value_of(words, "--port").unwrap_or(default)
}

fn host_in(words: &[String]) -> &str {
    value_of(words, "--host").unwrap_or("127.0.0.1")
}

/// What is to be said of a host that isn't this machine's. All addresses of the machine at once are no host either.
fn not_here(alloc: Global, host: &str) -> Option<String> {
    match host {
        "0.0.0.0" | "[::]" => format!(in alloc;
            "no companion could dial this host: give --host an address of this machine"
        ),
        _ => format!(in alloc; "{host} is no address of this machine: give --host one that is"),
    }
    .ok()
}

/// What the system said of the clock or a socket.
pub(crate) fn net_fault(alloc: Global, words: &[String], failure: Failure) -> Option<String> {
    match failure {
        Failure::InUse => {
            let port = port_in(words);
            format!(in alloc;
                "another program has port {port} or the next one: stop it, or give another --port"
            ).ok()
        }
        Failure::NotHere => not_here(alloc, host_in(words)),
        Failure::NoSuchHost => {
            let host = host_in(words);
            format!(in alloc;
                "there is no host {host}: give --host an address of this machine"
            ).ok()
        }
        _ => system_said(alloc, failure),
    }
}

/// What the system said of the child.
pub(crate) fn child_fault(alloc: Global, failure: Failure) -> Option<String> {
    let said = system_said(alloc, failure)?;
    format!(in alloc; "the television that was to run beside the companion: {said}").ok()
}

/// What the system said, whatever was asked of it.
fn system_said(alloc: Global, failure: Failure) -> Option<String> {
    match failure {
        Failure::InUse => format!(in alloc; "another program has the port"),
        Failure::NotHere => format!(in alloc; "this machine has no such address"),
        Failure::NoSuchHost => format!(in alloc; "there is no such host"),
        Failure::Refused => format!(in alloc; "nobody listens on this port of the host"),
        Failure::TimedOut => format!(in alloc; "no answer came in time"),
        Failure::NoPermission => format!(in alloc;
            "the system says that this user may not do that"
        ),
        Failure::NoRoom => format!(in alloc; "the device is full"),
        Failure::HttpStatus(status) => format!(in alloc;
            "the answer was HTTP status {status} and no session"
        ),
        Failure::NoWebSocket => format!(in alloc; "what answered opened no WebSocket"),
        Failure::Other => return None,
    }
    .ok()
}

/// How the last dial failed.
fn last_dial(alloc: Global, asked: &Asked<'_>) -> Option<String> {
    match asked.wrong_answer {
        Some(wrong) => format!(in alloc; "the answer was {wrong}").ok(),
        None => system_said(alloc, asked.dial?),
    }
}

/// Why no dial reached the television. Nothing is said where none was made.
pub(crate) fn unreachable(alloc: Global, asked: &Asked<'_>) -> Option<String> {
    asked.dial?;
    let cii = value_of(asked.words, "--cii").unwrap_or("the television");
    match last_dial(alloc, asked) {
        Some(said) => format!(in alloc; "{cii} was not reached: {said}"),
        None => format!(in alloc; "{cii} was not reached"),
    }
    .ok()
}
