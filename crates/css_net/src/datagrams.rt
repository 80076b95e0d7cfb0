ghost use Rattle.std.specs.Prelude.{◌≡◌, ◌≤◌, IfOk, IfSome};
ghost use Rattle.css_devices.specs.Senders.{Means};
ghost use Rattle.css_outside.specs.Outsides.{FitsRoom};

use crate::names::any_port;
use crate::pace::{LookUps, Pace};
use crate::watch::Watch;
use css_devices::faults::{fault_of, no_room};
use css_devices::{FIRST_SENDER, Senders};
use css_outside::{Address, Failure, OutFault};
use mio::net::UdpSocket;
use std::alloc::Global;
use std::io;
use std::io::ErrorKind;
use std::net::{IpAddr, Net, SocketAddr};
use std::time::{Clock, Duration};

/// The name under which the listener's socket is watched.
const LISTENER: usize = 0;
/// The name under which the link's socket is watched.
const LINK: usize = 1;
/// The name under which both are watched among all sockets.
const DATAGRAMS: usize = 4;
/// How many datagrams that nobody can answer, and errors of earlier ones, are passed over at once.
const MOST_PASSED: usize = 16;
/// How many addresses of one host are used.
const MOST_ADDRESSES: usize = 8;
/// How many requests in a row may be without an answer before the next address is asked.
const MOST_UNANSWERED: u32 = 4;

/// Sends a datagram. What the system refuses to send is lost; an error that an earlier datagram left is told first, so
/// it is tried twice.
fn send_through(
    socket: &UdpSocket,
    to: Option<SocketAddr>,
    bytes: &[u8; 32],
) -> Result<(), OutFault> {
    for _ in 0..2 {
        let sent = match to {
            None => socket.send(bytes),
            Some(address) => socket.send_to(bytes, address),
        };
        match sent {
            Ok(_) => return Ok(()),
            Err(error) if error.kind() == ErrorKind::OutOfMemory => return Err(OutFault::Memory),
            Err(_) => {}
        }
    }
    Ok(())
}

/// Sends a datagram to an address, and gives that address.
fn send_to(
    socket: &UdpSocket,
    address: SocketAddr,
    bytes: &[u8; 32],
) -> Result<SocketAddr, OutFault>
    ensures { IfOk result (λ to. to ≡ address) }
{
    send_through(socket, Some(address), bytes)?;
    Ok(address)
}

/// The next datagram of a socket, where one has come. One from port 0 can't be answered, and is passed over; so is what
/// the network told of an earlier datagram.
fn received(
    socket: &UdpSocket,
    into: &mut [u8; 64],
) -> Result<Option<(SocketAddr, usize)>, OutFault>
    ensures room { IfOk result (λ came. IfSome came (λ datagram. datagram.1 ≤ 64)) }
{
    for _ in 0..MOST_PASSED {
        match socket.recv_from(into.as_mut_slice()) {
            Ok((count, from)) => {
                if from.port() != 0 {
                    return Ok(Some((from, count)));
                }
            }
            Err(error) => match error.kind() {
                ErrorKind::OutOfMemory => return Err(OutFault::Memory),
                ErrorKind::WouldBlock => return Ok(None),
                _ => {}
            },
        }
    }
    Ok(None)
}

/// A socket that hears anyone, as a television does.
#[derive(Drop)]
pub(crate) struct Listener {
    socket: UdpSocket,
    senders: Senders,
}

impl Listener {
    /// The next datagram, where one has come.
    fn take(&mut self, into: &mut [u8; 64]) -> Result<Option<(u32, usize)>, OutFault>
        ensures room { IfOk result FitsRoom }
    {
        match received(&self.socket, into)? {
            Some((from, count)) => { Ok(Some((self.senders.peer_of(from), count))) }
            None => Ok(None),
        }
    }

    /// Sends a datagram to a sender that is remembered, and gives the address that its number means.
    fn send(&self, peer: u32, bytes: &[u8; 32]) -> Result<SocketAddr, OutFault>
        ensures to { IfOk result (Means self.now.senders peer) }
    {
        match self.senders.address_of(peer) {
            Some(address) => send_to(&self.socket, address, bytes),
            None => Err(OutFault::Failed(Failure::Other)),
        }
    }
}

/// A socket for the datagrams of one address.
fn linked_socket<R: Net>(rt: &R, address: SocketAddr) -> io::Result<UdpSocket> {
    let socket = UdpSocket::bind(rt, any_port(address))?;
    socket.connect(address)?;
    Ok(socket)
}

/// The sockets for the datagrams of one peer, as a companion has: one for each address of its host. The peer stays the
/// same, whichever of them is asked, since the originate value of an answer says which request it answers.
#[derive(Drop)]
struct Link {
    peer: u32,
    sockets: Vec<UdpSocket>,
    /// The place of the one that is asked.
    asked: usize,
    /// How many requests were sent since the last datagram came.
    unanswered: u32,
}

impl Link {
    /// The next datagram, where one has come. Who sent it is asked from now on.
    fn take(&mut self, into: &mut [u8; 64]) -> Result<Option<(u32, usize)>, OutFault>
        ensures room { IfOk result FitsRoom }
    {
        for (place, socket) in self.sockets.iter().enumerate() {
            if let Some((_, count)) = received(socket, into)? {
                self.asked = place;
                self.unanswered = 0;
                return Ok(Some((self.peer, count)));
            }
        }
        Ok(None)
    }

    /// Asks the next address, where this one hasn't answered for too long. After the last comes the first.
    fn turn_to_next(&mut self) {
        if self.unanswered >= MOST_UNANSWERED {
            self.unanswered = 0;
            self.asked = self.asked.saturating_add(1);
            if self.asked >= self.sockets.len() {
                self.asked = 0;
            }
        }
    }

    fn send(&mut self, peer: u32, bytes: &[u8; 32]) -> Result<(), OutFault> {
        if peer != self.peer {
            return Err(OutFault::Failed(Failure::Other));
        }
        self.turn_to_next();
        self.unanswered = self.unanswered.saturating_add(1);
        match self.sockets.get(self.asked) {
            Some(socket) => send_through(socket, None, bytes),
            None => Err(OutFault::Failed(Failure::Other)),
        }
    }
}

/// The sockets of datagrams: a television has a listener, a companion a link, a relay both. What the network does to a
/// datagram, or says of one, is no fault: datagrams may be lost.
#[derive(Drop)]
pub(crate) struct Datagrams {
    alloc: Global,
    /// Waits for these sockets alone: nothing on a session ends a pause of a run by turns.
    watch: Watch,
    listener: Option<Listener>,
    link: Option<Link>,
    pace: Pace,
}

impl Datagrams {
    /// None is open.
    pub(crate) fn new(alloc: Global) -> Datagrams {
        Datagrams {
            alloc,
            watch: Watch::new(alloc),
            listener: None,
            link: None,
            pace: Pace::new(),
        }
    }

    /// A socket that listens at an address. It is heard once it is handed to `listen`.
    pub(crate) fn listener<R: Net>(
        &mut self,
        rt: &R,
        all: &mut Watch,
        address: SocketAddr,
    ) -> io::Result<Listener> {
        let socket = UdpSocket::bind(rt, address)?;
        let socket = self.watch.add_reader(rt, socket, LISTENER)?;
        let socket = all.add_reader(rt, socket, DATAGRAMS)?;
        Ok(Listener {
            socket,
            senders: Senders::new(),
        })
    }

    /// Hears a listener from now on.
    pub(crate) fn listen(&mut self, listener: Listener) {
        self.listener = Some(listener);
    }

    /// A socket for the datagrams of one address.
    fn linked<R: Net>(
        &mut self,
        rt: &R,
        all: &mut Watch,
        address: SocketAddr,
    ) -> io::Result<UdpSocket> {
        let socket = linked_socket(rt, address)?;
        let socket = self.watch.add_reader(rt, socket, LINK)?;
        all.add_reader(rt, socket, DATAGRAMS)
    }

    /// Opens a socket for each of these addresses, in the place of the last such ones. It fails where none can be
    /// opened.
    fn link<R: Net>(
        &mut self,
        rt: &R,
        all: &mut Watch,
        addresses: &[SocketAddr],
        peer: u32,
    ) -> Result<(), OutFault> {
        let mut sockets = Vec::new(self.alloc);
        let mut last = OutFault::Failed(Failure::NoSuchHost);
        for address in addresses.iter().take(MOST_ADDRESSES) {
            match self.linked(rt, all, *address) {
                Ok(socket) => sockets.push(socket).map_err(no_room)?,
                Err(error) => last = fault_of(error),
            }
        }
        if sockets.is_empty() {
            return Err(last);
        }
        self.link = Some(Link {
            peer,
            sockets,
            asked: 0,
            unanswered: 0,
        });
        Ok(())
    }

    /// Opens sockets for the datagrams of one peer. The address where its sessions were reached is asked first, if its
    /// host has that one, and else the first that can be used. Sockets of datagrams can be opened to addresses where
    /// nobody is. False where no dial may begin now.
    pub(crate) fn dial<R: Net + Clock>(
        &mut self,
        rt: &R,
        all: &mut Watch,
        look_ups: &mut LookUps,
        to: &Address,
        reached: Option<IpAddr>,
        peer: u32,
        now: u64,
    ) -> Result<bool, OutFault> {
        if !self.pace.begins(now) {
            return Ok(false);
        }
        let mut addresses = look_ups.look_up(rt, &to.host, to.port, now)?;
        if let Some(place) = addresses
            .iter()
            .position(|address| Some(address.ip()) == reached)
        {
            addresses.swap(0, place);
        }
        self.link(rt, all, &addresses, peer)?;
        Ok(true)
    }

    /// From when the next dial may begin.
    pub(crate) fn next_dial(&self) -> u64 {
        self.pace.next()
    }

    /// Waits until a datagram comes, or the pause is over.
    pub(crate) fn wait<R: Clock>(&mut self, rt: &R, pause: Duration) -> Result<(), OutFault> {
        self.watch.wait(rt, pause).map_err(fault_of)?;
        Ok(())
    }

    fn take_linked(&mut self, into: &mut [u8; 64]) -> Result<Option<(u32, usize)>, OutFault>
        ensures room { IfOk result FitsRoom }
    {
        match &mut self.link {
            Some(link) => link.take(into),
            None => Ok(None),
        }
    }

    /// The next datagram, where one has come: its sender and its length, at most 64. The link's come first.
    pub(crate) fn take(&mut self, into: &mut [u8; 64]) -> Result<Option<(u32, usize)>, OutFault>
        ensures room { IfOk result FitsRoom }
    {
        if let Some(taken) = self.take_linked(into)? {
            return Ok(Some(taken));
        }
        match &mut self.listener {
            Some(listener) => listener.take(into),
            None => Ok(None),
        }
    }

    /// Sends a datagram to the peer that was linked, or to one that sent a datagram not long ago.
    pub(crate) fn send(&mut self, peer: u32, bytes: &[u8; 32]) -> Result<(), OutFault> {
        if peer < FIRST_SENDER {
            return match &mut self.link {
                Some(link) => link.send(peer, bytes),
                None => Err(OutFault::Failed(Failure::Other)),
            };
        }
        let Some(listener) = &self.listener else {
            return Err(OutFault::Failed(Failure::Other));
        };
        listener.send(peer, bytes)?;
        Ok(())
    }
}
