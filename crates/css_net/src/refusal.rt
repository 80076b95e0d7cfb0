//! Why handshakes are refused.

/// Why an upgrade is refused.
#[derive(Clone, Copy)]
pub(crate) enum Refusal {
    Malformed,
    OtherPath,
    OtherMethod,
    NoUpgrade,
    TooLong,
}

impl Refusal {
    /// Its words for a person.
    pub(crate) fn words(self) -> &'static str {
        match self {
            Refusal::Malformed => "it is malformed",
            Refusal::OtherPath => "another path",
            Refusal::OtherMethod => "another method",
            Refusal::NoUpgrade => "no upgrade to a WebSocket of version 13",
            Refusal::TooLong => "it is too long",
        }
    }

    /// The answer to the request.
    pub(crate) fn answer(self) -> &'static [u8] {
        match self {
            Refusal::Malformed =>
                b"HTTP/1.1 400 Bad Request\r\nConnection: close\r\nContent-Length: 0\r\n\r\n",
            Refusal::OtherPath =>
                b"HTTP/1.1 404 Not Found\r\nConnection: close\r\nContent-Length: 0\r\n\r\n",
            Refusal::OtherMethod =>
                b"HTTP/1.1 405 Method Not Allowed\r\nAllow: GET\r\nConnection: close\r\nContent-Length: 0\r\n\r\n",
            Refusal::NoUpgrade =>
                b"HTTP/1.1 426 Upgrade Required\r\nUpgrade: websocket\r\nConnection: Upgrade, close\r\n\
                Sec-WebSocket-Version: 13\r\nContent-Length: 0\r\n\r\n",
            Refusal::TooLong =>
                b"HTTP/1.1 431 Request Header Fields Too Large\r\nConnection: close\r\nContent-Length: 0\r\n\r\n",
        }
    }
}
