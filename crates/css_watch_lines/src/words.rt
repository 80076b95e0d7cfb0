ghost use Rattle.std.specs.Prelude.{◌≡◌, IfOk, string_bytes, take};
ghost use Rattle.css_watch_lines.specs.Words as words;

use css_client::Landing;
use css_model::{Failure, Kind, WcFault};
use css_num::Memory;
use std::alloc::Global;

/// The name of a service.
pub(crate) fn service_words(kind: Kind) -> &'static str
    ensures { result.now ≡ words.service_words kind }
{
    match kind {
        Kind::Cii => "CII",
        Kind::Wc => "WC",
        Kind::Ts => "TS",
    }
}

fn own(alloc: Global, words: &str) -> Result<String, Memory>
    ensures { IfOk result (λ copy. string_bytes copy ≡ words.now) }
{
    Ok(String::from_str(alloc, words)?)
}

/// Why a dial failed.
pub fn failure_words(alloc: Global, failure: Failure) -> Result<String, Memory>
    ensures { IfOk result (λ why. string_bytes why ≡ words.failure_words failure) }
{
    match failure {
        Failure::Refused => own(alloc, "refused"),
        Failure::NoSuchHost => own(alloc, "no such host"),
        Failure::TimedOut => own(alloc, "no answer"),
        Failure::HttpStatus(status) => Ok(format!(in alloc; "HTTP status {status}")?),
        Failure::NoWebSocket => own(alloc, "no WebSocket"),
        Failure::NoPermission => own(alloc, "no permission"),
        Failure::NoRoom => own(alloc, "no room"),
        Failure::InUse | Failure::NotHere | Failure::Other => own(alloc, "other"),
    }
}

/// The first 64 bytes of a datagram, as hex digits.
pub(crate) fn first_digits(alloc: Global, bytes: &[u8]) -> Result<String, Memory>
    ensures { IfOk result (λ digits. string_bytes digits ≡ words.first_digits bytes.now) }
{
    let count = bytes.len().min(64);
    Ok(hex::encode(alloc, &bytes[..count])?)
}

/// Why bytes are no datagram.
fn undecodable_words(fault: WcFault) -> &'static str
    ensures { result.now ≡ words.undecodable_words fault }
{
    match fault {
        WcFault::Length => "Undecodable Length",
        WcFault::Version => "Undecodable Version",
        WcFault::MessageType => "Undecodable MessageType",
        WcFault::Precision => "Undecodable Precision",
        WcFault::Error => "Undecodable Error",
        WcFault::Nanoseconds => "Undecodable Nanoseconds",
    }
}

/// What became of a datagram.
pub fn landing_words(landing: &Landing) -> &'static str
    ensures { result.now ≡ words.landing_words landing.now }
{
    match landing {
        Landing::Accepted => "Accepted",
        Landing::Undecodable(fault) => undecodable_words(*fault),
        Landing::NotAnAnswer => "NotAnAnswer",
        Landing::Unasked => "Unasked",
        Landing::Impossible(_) => "Impossible",
    }
}
