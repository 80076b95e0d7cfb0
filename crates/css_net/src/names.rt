//! Where a host is reached, and the texts that a dial is made with.

use css_devices::faults::fault_of;
use css_num::Text;
use css_outside::{Failure, OutFault};
use std::alloc::Global;
use std::io::ErrorKind;
use std::net::{Ipv4Addr, Ipv6Addr, Net, SocketAddr, SocketAddrV4, SocketAddrV6, ToSocketAddrs};
use std::{io, str};

/// The characters of a text, which must be UTF-8.
pub(crate) fn words_of(text: &Text) -> io::Result<&str> {
    match str::from_utf8(text.bytes()) {
        Ok(words) => Ok(words),
        Err(_) => Err(io::Error::from(ErrorKind::InvalidInput)),
    }
}

fn resolved<R: Net>(alloc: Global, rt: &R, authority: &str) -> io::Result<Vec<SocketAddr>> {
    Ok(authority.to_socket_addrs(rt)?.collect(alloc)?)
}

/// A host and its port, as a URL has them.
pub(crate) fn authority_of(alloc: Global, host: &Text, port: u16) -> io::Result<String> {
    let host = words_of(host)?;
    Ok(format!(in alloc; "{host}:{port}")?)
}

/// Why a host's addresses aren't known: its name isn't found, where the system says nothing else.
fn not_found(error: io::Error) -> OutFault {
    match fault_of(error) {
        OutFault::Failed(Failure::Other) => OutFault::Failed(Failure::NoSuchHost),
        fault => fault,
    }
}

/// The addresses of a port of a host, in the order of the resolver. A name is looked up, which may take seconds.
pub(crate) fn addresses_of<R: Net>(
    alloc: Global,
    rt: &R,
    host: &Text,
    port: u16,
) -> Result<Vec<SocketAddr>, OutFault> {
    let authority = authority_of(alloc, host, port).map_err(not_found)?;
    resolved(alloc, rt, &authority).map_err(not_found)
}

/// Any free port of this machine, in the family of an address.
pub(crate) fn any_port(family: SocketAddr) -> SocketAddr {
    match family {
        SocketAddr::V4(_) => SocketAddr::V4(SocketAddrV4::new(Ipv4Addr::UNSPECIFIED, 0)),
        SocketAddr::V6(_) => SocketAddr::V6(SocketAddrV6::new(Ipv6Addr::UNSPECIFIED, 0, 0, 0)),
    }
}
