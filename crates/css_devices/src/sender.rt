use std::net::SocketAddr;

/// Who sent a datagram.
#[derive(Clone, Copy)]
pub(crate) struct Sender {
    pub(crate) peer: u32,
    pub(crate) address: SocketAddr,
}
