//! Sessions that peers open: their connections, and the handshakes that make them WebSockets.

ghost use Rattle.css_outside.specs.Outsides.{IsSession};

use crate::heads::{Head, MOST_FIELDS, Progress, has_token, sole_value_of, value_of};
use crate::metered::Metered;
use crate::pace::PAUSE;
use crate::refusal::Refusal;
use crate::watch::Watch;
use css_devices::faults::{fault_of, no_room};
use css_num::Memory;
use css_outside::{Kind, OutFault};
use httparse::{EMPTY_HEADER, Error, Header, Request, Status};
use mio::net::{TcpListener, TcpStream};
use std::alloc::Global;
use std::io;
use std::io::{ErrorKind, Write};
use std::net::{Net, SocketAddr};
use websocket::handshake::server::{accept_key, write_response};

/// The names under which the listeners are watched.
pub(crate) const LISTENER_OF_CII: usize = 1;

pub(crate) const LISTENER_OF_TS: usize = 2;
/// The first name of a handshake.
pub(crate) const FIRST_UPGRADE: usize = 1 << 32;
/// How long a handshake may take, in nanoseconds.
pub(crate) const LONGEST_HANDSHAKE: u64 = 5_000_000_000;
/// How many reads a handshake has in one turn.
pub(crate) const READS: u32 = 2;
/// How many handshakes may stand at once; of more, the oldest is dropped.
const MOST_UPGRADES: usize = 64;
/// How many connections one turn takes from a listener.
const MOST_ACCEPTED: usize = 16;

/// What a peer opens a session for.
#[derive(Clone, Copy)]
pub(crate) enum Service {
    Cii,
    Ts,
}

impl Service {
    /// Its path, without the first slash.
    fn path(self) -> &'static str {
        match self {
            Service::Cii => "cii",
            Service::Ts => "ts",
        }
    }

    fn listener_name(self) -> usize {
        match self {
            Service::Cii => LISTENER_OF_CII,
            Service::Ts => LISTENER_OF_TS,
        }
    }

    pub(crate) fn kind(self) -> Kind
        ensures { IsSession result }
    {
        match self {
            Service::Cii => Kind::Cii,
            Service::Ts => Kind::Ts,
        }
    }
}

/// The path that a request's target names, without its first slash and its query.
fn path_of(target: &str) -> Option<&str> {
    let path = match target.strip_prefix('/') {
        Some(path) => path,
        None => {
            let (_, after_scheme) = target.split_once("://")?;
            let (_, path) = after_scheme.split_once('/')?;
            path
        }
    };
    match path.split_once('?') {
        Some((path, _)) => Some(path),
        None => Some(path),
    }
}

/// Whether the fields of a request ask for a WebSocket.
fn asks_for_upgrade(fields: &[Header<'_>]) -> bool {
    has_token(fields, "Upgrade", "websocket")
        && has_token(fields, "Connection", "upgrade")
        && value_of(fields, "Sec-WebSocket-Version") == Some(b"13".as_slice())
}

/// The key that the answer to a request has. A request tells one.
fn key_by(fields: &[Header<'_>]) -> Result<[u8; 28], Refusal> {
    let Some(key) = sole_value_of(fields, "Sec-WebSocket-Key") else {
        return Err(Refusal::Malformed);
    };
    match accept_key(key) {
        Ok(key) => Ok(key),
        Err(_) => Err(Refusal::Malformed),
    }
}

/// The same, where all of the request is as it has to be. Each names its host, once.
fn key_of(
    service: Service,
    method: &str,
    target: &str,
    fields: &[Header<'_>],
) -> Result<[u8; 28], Refusal> {
    if sole_value_of(fields, "Host").is_none() {
        return Err(Refusal::Malformed);
    }
    if path_of(target) != Some(service.path()) {
        return Err(Refusal::OtherPath);
    }
    if method != "GET" {
        return Err(Refusal::OtherMethod);
    }
    if !asks_for_upgrade(fields) {
        return Err(Refusal::NoUpgrade);
    }
    key_by(fields)
}

/// The key that the answer to this head has, or why it is refused.
fn checked(service: Service, head: &[u8]) -> Result<[u8; 28], Refusal> {
    let mut fields = [EMPTY_HEADER; MOST_FIELDS];
    let mut request = Request::new(&mut fields);
    match request.parse(head) {
        Ok(Status::Complete(_)) => {}
        Ok(Status::Partial) => return Err(Refusal::Malformed),
        Err(Error::TooManyHeaders) => return Err(Refusal::TooLong),
        Err(_) => return Err(Refusal::Malformed),
    }
    match (request.method, request.path, request.version) {
        (Some(method), Some(target), Some(1)) => key_of(service, method, target, request.headers),
        _ => Err(Refusal::Malformed),
    }
}

/// What a turn of a handshake came to.
#[derive(Clone, Copy)]
enum Turn {
    /// It goes on.
    Waits,
    /// The session stands.
    Opened,
    /// The peer was told why there is no session.
    Refused(Refusal),
    /// The connection ended.
    Ended,
}

/// How a handshake ended.
#[derive(Drop)]
pub(crate) enum Upgraded {
    /// The session stands, and this came after its handshake.
    Opened(Service, Metered, Vec<u8>),
    /// There is no session. The connection has this name, and its peer was told why.
    Refused(usize, Refusal, Metered),
    /// The connection is gone.
    Ended,
}

/// A connection whose handshake isn't done.
struct Upgrade {
    service: Service,
    name: usize,
    since: u64,
    /// Something may have come that was not read yet.
    named: bool,
    stream: Metered,
    head: Head,
}

// One function drops its parts: what holds one needn't see them.
impl Drop for Upgrade {
    fn drop(self) {
        let Upgrade {
            service: _,
            name: _,
            since: _,
            named: _,
            stream: _,
            head: _,
        } = self;
    }
}

/// A connection that is watched under a name, where that can be done.
fn watched<R: Net>(rt: &R, watch: &mut Watch, stream: TcpStream, name: usize) -> Option<Metered> {
    let stream = watch.add(rt, stream, name).ok()?;
    Metered::new(stream).ok()
}

impl Upgrade {
    /// A handshake on a connection.
    fn new(alloc: Global, service: Service, name: usize, since: u64, stream: Metered) -> Upgrade {
        Upgrade {
            service,
            name,
            since,
            named: true,
            stream,
            head: Head::new(alloc),
        }
    }

    /// Writes an answer, which the system takes at once on a new connection.
    fn write(&mut self, answer: &[u8], done: Turn) -> Turn {
        match self.stream.write(answer) {
            Ok(count) if count == answer.len() => done,
            _ => Turn::Ended,
        }
    }

    fn refuse(&mut self, refusal: Refusal) -> Turn {
        self.write(refusal.answer(), Turn::Refused(refusal))
    }

    /// Answers a head that is whole.
    fn answer(&mut self, alloc: Global) -> Result<Turn, Memory> {
        let key = match checked(self.service, self.head.bytes()) {
            Ok(key) => key,
            Err(refusal) => return Ok(self.refuse(refusal)),
        };
        let mut answer = Vec::new(alloc);
        if write_response(&key, &[], &mut answer).is_err() {
            return Err(Memory);
        }
        Ok(self.write(&answer, Turn::Opened))
    }

    /// One turn, which may be its last.
    fn turn(&mut self, alloc: Global) -> Result<Turn, Memory> {
        self.stream.begin_turn(READS);
        for _ in 0..READS {
            match self.head.read(&mut self.stream)? {
                Progress::More => {}
                Progress::Waits => {
                    self.named = false;
                    return Ok(Turn::Waits);
                }
                Progress::Whole => return self.answer(alloc),
                Progress::TooLong => return Ok(self.refuse(Refusal::TooLong)),
                Progress::Ended => return Ok(Turn::Ended),
            }
        }
        Ok(Turn::Waits)
    }

    /// When there is something to do: at once, or once it has taken too long.
    fn next(&self) -> u64 {
        if self.named {
            return 0;
        }
        self.since.saturating_add(LONGEST_HANDSHAKE)
    }

    fn stays(&self, now: u64) -> bool {
        now.saturating_sub(self.since) < LONGEST_HANDSHAKE
    }

    /// How it ended.
    fn ended(self, alloc: Global, turn: Turn) -> Result<Upgraded, Memory> {
        let Upgrade {
            service,
            name,
            since: _,
            named: _,
            stream,
            head,
        } = self;
        match turn {
            Turn::Opened => Ok(Upgraded::Opened(service, stream, head.rest(alloc)?)),
            Turn::Refused(refusal) => Ok(Upgraded::Refused(name, refusal, stream)),
            Turn::Waits | Turn::Ended => Ok(Upgraded::Ended),
        }
    }
}

/// A socket on which peers connect.
#[derive(Drop)]
struct Listener {
    service: Service,
    socket: TcpListener,
    /// Connections may wait that were not taken yet.
    named: bool,
}

impl Listener {
    /// Listens for one service at an address.
    fn new<R: Net>(
        rt: &R,
        watch: &mut Watch,
        service: Service,
        address: SocketAddr,
    ) -> io::Result<Listener> {
        let socket = TcpListener::bind(rt, address)?;
        let socket = watch.add(rt, socket, service.listener_name())?;
        Ok(Listener {
            service,
            socket,
            named: false,
        })
    }

    /// The next connection that waits. Where the system lacks the means for one, it is tried again in the next turn.
    fn take(&mut self) -> Option<TcpStream> {
        match self.socket.accept() {
            Ok((stream, _)) => Some(stream),
            Err(error) => {
                if error.kind() == ErrorKind::WouldBlock {
                    self.named = false;
                }
                None
            }
        }
    }
}

/// The listeners, and the handshakes that stand, the oldest first.
#[derive(Drop)]
pub(crate) struct Upgrades {
    alloc: Global,
    listeners: Vec<Listener>,
    list: Vec<Upgrade>,
    next: usize,
}

impl Upgrades {
    /// No one is listened for.
    pub(crate) fn new(alloc: Global) -> Upgrades {
        Upgrades {
            alloc,
            listeners: Vec::new(alloc),
            list: Vec::new(alloc),
            next: FIRST_UPGRADE,
        }
    }

    fn add(&mut self, listener: Listener) -> Result<(), OutFault> {
        self.listeners.push(listener).map_err(no_room)
    }

    /// Listens for the sessions of both services at their addresses.
    pub(crate) fn listen<R: Net>(
        &mut self,
        rt: &R,
        watch: &mut Watch,
        cii: SocketAddr,
        ts: SocketAddr,
    ) -> Result<(), OutFault> {
        let cii = Listener::new(rt, watch, Service::Cii, cii).map_err(fault_of)?;
        let ts = Listener::new(rt, watch, Service::Ts, ts).map_err(fault_of)?;
        self.add(cii)?;
        self.add(ts)
    }

    /// Something has come on the socket of this name.
    pub(crate) fn name(&mut self, name: usize) {
        for listener in self.listeners.iter_mut() {
            if listener.service.listener_name() == name {
                listener.named = true;
            }
        }
        for upgrade in self.list.iter_mut() {
            if upgrade.name == name {
                upgrade.named = true;
            }
        }
    }

    /// Whether none stands and no connection waits.
    pub(crate) fn is_idle(&self) -> bool {
        self.list.is_empty() && !self.listeners.iter().any(|listener| listener.named)
    }

    /// When there is something to do, though nothing comes. Connections that the system had no means for are taken
    /// after a pause.
    pub(crate) fn next(&self, now: u64) -> u64 {
        let mut next = u64::MAX;
        if self.listeners.iter().any(|listener| listener.named) {
            next = now.saturating_add(PAUSE);
        }
        for upgrade in &self.list {
            next = next.min(upgrade.next());
        }
        next
    }

    /// Drops the oldest handshake, where as many stand as may.
    fn make_room(&mut self) {
        if self.list.len() >= MOST_UPGRADES {
            drop(self.list.remove(0));
        }
    }

    /// Begins a handshake. A connection that can't be watched is dropped.
    fn begin<R: Net>(
        &mut self,
        rt: &R,
        watch: &mut Watch,
        service: Service,
        stream: TcpStream,
        since: u64,
    ) -> Result<(), OutFault> {
        let name = self.next;
        self.next = name.checked_add(1).unwrap_or(FIRST_UPGRADE);
        let Some(stream) = watched(rt, watch, stream, name) else {
            return Ok(());
        };
        self.make_room();
        let upgrade = Upgrade::new(self.alloc, service, name, since, stream);
        self.list.push(upgrade).map_err(no_room)
    }

    /// The next connection of a listener that was named.
    fn connection(&mut self) -> Option<(Service, TcpStream)> {
        for listener in self.listeners.iter_mut() {
            if listener.named {
                if let Some(stream) = listener.take() {
                    return Some((listener.service, stream));
                }
            }
        }
        None
    }

    /// Takes connections that wait. Handshakes that took too long are dropped.
    pub(crate) fn connect<R: Net>(
        &mut self,
        rt: &R,
        watch: &mut Watch,
        now: u64,
    ) -> Result<(), OutFault> {
        self.list.retain(|upgrade| upgrade.stays(now));
        for _ in 0..MOST_ACCEPTED {
            let Some((service, stream)) = self.connection() else {
                break;
            };
            self.begin(rt, watch, service, stream, now)?;
        }
        Ok(())
    }

    /// The handshakes go on, until one ends: its place, and how it ended.
    fn go_on(&mut self) -> Result<Option<(usize, Turn)>, Memory> {
        let alloc = self.alloc;
        for (place, upgrade) in self.list.iter_mut().enumerate() {
            if upgrade.named {
                match upgrade.turn(alloc)? {
                    Turn::Waits => {}
                    turn => return Ok(Some((place, turn))),
                }
            }
        }
        Ok(None)
    }

    /// The handshakes go on, until one ends.
    pub(crate) fn turn(&mut self) -> Result<Option<Upgraded>, Memory> {
        let Some((place, turn)) = self.go_on()? else {
            return Ok(None);
        };
        if place >= self.list.len() {
            return Ok(None);
        }
        let upgrade = self.list.remove(place);
        Ok(Some(upgrade.ended(self.alloc, turn)?))
    }
}
