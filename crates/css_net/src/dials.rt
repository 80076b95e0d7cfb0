//! Sessions that are dialled: their connections, and their handshakes, which go on from dial to dial.

use crate::answers::{DialFault, check_answer};
use crate::heads::{Head, Progress};
use crate::masks::Masks;
use crate::metered::Metered;
use crate::names::{authority_of, words_of};
use crate::pace::{LookUps, Pace, time};
use crate::session::Line;
use crate::upgrades::{LONGEST_HANDSHAKE, READS};
use crate::watch::Watch;
use css_devices::faults::{fault_of, no_memory, no_room, would_wait};
use css_num::{Memory, Text};
use css_outside::{Address, Failure, Kind, OutFault};
use httparse::Header;
use mio::net::TcpStream;
use std::alloc::Global;
use std::io::Write;
use std::net::{IpAddr, Net, SocketAddr};
use std::random::RandomSource;
use std::time::Clock;
use websocket::handshake::client::{ClientRequest, generate_key, write_request};

/// The name under which the connections of dials are watched.
const DIAL: usize = 3;

/// The request that asks for a session. It has an origin, since some servers take no one without.
fn request_of(alloc: Global, to: &Address, key: [u8; 24]) -> Result<Vec<u8>, OutFault> {
    let host = authority_of(alloc, &to.host, to.port).map_err(fault_of)?;
    let origin = format!(in alloc; "http://{host}").map_err(no_memory)?;
    let origin = Header {
        name: "Origin",
        value: origin.as_bytes(),
    };
    let request = ClientRequest {
        host: host.as_str(),
        path: words_of(&to.path).map_err(fault_of)?,
        key,
        subprotocols: &[],
        extra: &[origin],
    };
    let mut output = Vec::new(alloc);
    match write_request(&request, &mut output) {
        Ok(()) => Ok(output),
        Err(_) => Err(OutFault::Failed(Failure::Other)),
    }
}

/// What a turn of a handshake came to that hasn't failed.
#[derive(Clone, Copy)]
enum Turn {
    Waits,
    Opened,
}

/// A connection to one address, and the handshake on it.
struct Call {
    since: u64,
    stream: Metered,
    key: [u8; 24],
    masks: Masks,
    request: Vec<u8>,
    /// How much of the request was written.
    written: usize,
    head: Head,
    /// Whether its last turn ended because the stream gives or takes nothing for now.
    waits: bool,
}

// One function drops its parts: what holds one needn't see them.
impl Drop for Call {
    fn drop(self) {
        let Call {
            since: _,
            stream: _,
            key: _,
            masks: _,
            request: _,
            written: _,
            head: _,
            waits: _,
        } = self;
    }
}

/// Connects to an address.
fn connect<R: Net>(rt: &R, watch: &mut Watch, address: SocketAddr) -> Result<Metered, OutFault> {
    let stream = TcpStream::connect(rt, address).map_err(fault_of)?;
    let stream = watch.add(rt, stream, DIAL).map_err(fault_of)?;
    Metered::new(stream).map_err(fault_of)
}

fn drawn_key<R: RandomSource>(rt: &R) -> Result<[u8; 24], OutFault> {
    let mut nonce = [0u8; 16];
    rt.fill_bytes(&mut nonce).map_err(fault_of)?;
    Ok(generate_key(nonce))
}

impl Call {
    /// Begins a handshake with what is at an address.
    fn begin<R: Net + RandomSource>(
        alloc: Global,
        rt: &R,
        watch: &mut Watch,
        to: &Address,
        address: SocketAddr,
        since: u64,
    ) -> Result<Call, OutFault> {
        let key = drawn_key(rt)?;
        let masks = Masks::drawn(rt)?;
        let request = request_of(alloc, to, key)?;
        let stream = connect(rt, watch, address)?;
        Ok(Call {
            since,
            stream,
            key,
            masks,
            request,
            written: 0,
            head: Head::new(alloc),
            waits: false,
        })
    }

    /// Writes what the stream takes of the request.
    fn write(&mut self) -> Result<Turn, OutFault> {
        let rest = self.request.get(self.written..).unwrap_or(&[]);
        if rest.is_empty() {
            return Ok(Turn::Opened);
        }
        match self.stream.write(rest) {
            Ok(count) => {
                self.written = self.written.saturating_add(count);
                Ok(Turn::Waits)
            }
            Err(error) => {
                if would_wait(error.kind()) {
                    self.waits = true;
                    Ok(Turn::Waits)
                } else {
                    Err(fault_of(error))
                }
            }
        }
    }

    /// Reads what has come of the answer.
    fn read(&mut self) -> Result<Turn, DialFault> {
        self.stream.begin_turn(READS);
        for _ in 0..READS {
            match self.head.read(&mut self.stream)? {
                Progress::More => {}
                Progress::Waits => {
                    self.waits = true;
                    return Ok(Turn::Waits);
                }
                Progress::Whole => {
                    check_answer(self.head.bytes(), &self.key)?;
                    return Ok(Turn::Opened);
                }
                Progress::TooLong => return Err(DialFault::failed(Failure::NoWebSocket)),
                Progress::Ended => return Err(DialFault::failed(self.ended())),
            }
        }
        Ok(Turn::Waits)
    }

    /// What it failed by where the stream has ended. Part of a head is an answer too.
    fn ended(&self) -> Failure {
        if self.head.has_begun() {
            Failure::NoWebSocket
        } else {
            Failure::Other
        }
    }

    /// One turn, which may be its last. One that takes too long ends.
    fn turn(&mut self, now: u64) -> Result<Turn, DialFault> {
        self.waits = false;
        if now.saturating_sub(self.since) >= LONGEST_HANDSHAKE {
            return Err(DialFault::failed(Failure::TimedOut));
        }
        match self.write()? {
            Turn::Opened => self.read(),
            Turn::Waits => Ok(Turn::Waits),
        }
    }

    /// The line on which the session stands.
    fn line(self, alloc: Global) -> Result<Line, Memory> {
        let Call {
            since: _,
            stream,
            key: _,
            masks,
            request: _,
            written: _,
            head,
            waits: _,
        } = self;
        Ok(Line::dialled(alloc, stream, masks, head.rest(alloc)?))
    }
}

/// A session that is being dialled.
struct Dial {
    host: Text,
    port: u16,
    path: Text,
    /// Where the host is, and how many of these were tried.
    addresses: Vec<SocketAddr>,
    tried: usize,
    call: Option<Call>,
}

// One function drops its parts: what holds one needn't see them.
impl Drop for Dial {
    fn drop(self) {
        let Dial {
            host: _,
            port: _,
            path: _,
            addresses: _,
            tried: _,
            call: _,
        } = self;
    }
}

impl Dial {
    fn new(to: &Address, addresses: Vec<SocketAddr>) -> Result<Dial, Memory> {
        Ok(Dial {
            host: to.host.clone()?,
            port: to.port,
            path: to.path.clone()?,
            addresses,
            tried: 0,
            call: None,
        })
    }

    /// The next address, which counts as tried.
    fn next_address(&mut self) -> Option<SocketAddr> {
        let address = *self.addresses.get(self.tried)?;
        self.tried += 1;
        Some(address)
    }

    /// Begins the handshake at the next address, where none stands. A later dial goes on where this one fails.
    fn begin_next<R: Net + RandomSource>(
        &mut self,
        alloc: Global,
        rt: &R,
        watch: &mut Watch,
        to: &Address,
        now: u64,
    ) -> Result<(), OutFault> {
        if self.call.is_some() {
            return Ok(());
        }
        let Some(address) = self.next_address() else {
            return Ok(());
        };
        self.call = Some(Call::begin(alloc, rt, watch, to, address, now)?);
        Ok(())
    }

    /// One turn of the handshake, which may be its last. One that fails is dropped. Where the session stands, it tells
    /// where it was reached.
    fn turn(
        &mut self,
        alloc: Global,
        reached: &mut Option<IpAddr>,
        now: u64,
    ) -> Result<Option<Line>, DialFault> {
        let Some(mut call) = self.call.take() else {
            return Ok(None);
        };
        match call.turn(now)? {
            Turn::Waits => {
                self.call = Some(call);
                Ok(None)
            }
            Turn::Opened => {
                let line = call.line(alloc)?;
                *reached = self.reached();
                Ok(Some(line))
            }
        }
    }

    /// The address of the last call.
    fn reached(&self) -> Option<IpAddr> {
        let address = self.addresses.get(self.tried.saturating_sub(1))?;
        Some(address.ip())
    }

    /// Whether the next turn has something to do at once.
    fn is_ready(&self) -> bool {
        match &self.call {
            Some(call) => !call.waits,
            None => self.tried < self.addresses.len(),
        }
    }

    /// When its handshake has taken too long, where one stands.
    fn over_at(&self) -> Option<u64> {
        let call = self.call.as_ref()?;
        Some(call.since.saturating_add(LONGEST_HANDSHAKE))
    }

    /// Whether it is to this address, and has something left to be tried.
    fn goes_on_to(&self, to: &Address) -> bool {
        let is_over = self.call.is_none() && self.tried >= self.addresses.len();
        let is_same = self.host.bytes() == to.host.bytes() && self.path.bytes() == to.path.bytes();
        is_same && self.port == to.port && !is_over
    }
}

/// The dials of one kind, of which one stands at most. It is large, and stands on the heap.
#[derive(Drop)]
pub(crate) struct Caller {
    alloc: Global,
    pace: Pace,
    dial: Option<Box<Dial>>,
    /// Where the last session was reached.
    reached: Option<IpAddr>,
}

impl Caller {
    /// None is being dialled.
    pub(crate) fn new(alloc: Global) -> Caller {
        Caller {
            alloc,
            pace: Pace::new(),
            dial: None,
            reached: None,
        }
    }

    /// Where the last session was reached.
    pub(crate) fn reached(&self) -> Option<IpAddr> {
        self.reached
    }

    /// Whether the next turn of a dial has something to do at once.
    pub(crate) fn is_ready(&self) -> bool {
        match &self.dial {
            Some(dial) => dial.is_ready(),
            None => false,
        }
    }

    /// When a dial has something to do, though nothing comes: its handshake has taken too long, or the next one begins.
    pub(crate) fn next(&self) -> u64 {
        let over_at = match &self.dial {
            Some(dial) => dial.over_at(),
            None => None,
        };
        over_at.unwrap_or(self.pace.next())
    }

    /// Whether a dial goes on to this address.
    fn goes_on(&self, to: &Address) -> bool {
        match &self.dial {
            Some(dial) => dial.goes_on_to(to),
            None => false,
        }
    }

    /// Has a dial to this address stand, where one may begin now. One to another place, or with nothing left to be
    /// tried, is dropped.
    fn have<R: Net + Clock>(
        &mut self,
        rt: &R,
        look_ups: &mut LookUps,
        to: &Address,
        now: u64,
    ) -> Result<(), OutFault> {
        if self.goes_on(to) {
            return Ok(());
        }
        self.dial = None;
        if !self.pace.begins(now) {
            return Ok(());
        }
        let addresses = look_ups.look_up(rt, &to.host, to.port, now)?;
        let dial = Dial::new(to, addresses)?;
        self.dial = Some(Box::new(self.alloc, dial).map_err(no_room)?);
        Ok(())
    }

    /// Goes on dialling.
    fn turn<R: Net + RandomSource>(
        &mut self,
        rt: &R,
        watch: &mut Watch,
        to: &Address,
        now: u64,
    ) -> Result<Option<Line>, DialFault> {
        let Some(dial) = &mut self.dial else {
            return Ok(None);
        };
        dial.begin_next(self.alloc, rt, watch, to, now)?;
        dial.turn(self.alloc, &mut self.reached, now)
    }

    /// Dials, or goes on dialling, and gives the session once it stands. It is Err once for each address that failed.
    pub(crate) fn go_on<R: Net + Clock + RandomSource>(
        &mut self,
        rt: &R,
        watch: &mut Watch,
        look_ups: &mut LookUps,
        to: &Address,
        now: u64,
    ) -> Result<Option<Line>, DialFault> {
        self.have(rt, look_ups, to, now)?;
        // A look-up takes none of a handshake's time.
        let line = self.turn(rt, watch, to, time(rt))?;
        if line.is_some() {
            self.dial = None;
        }
        Ok(line)
    }
}

/// The sessions that are being dialled.
#[derive(Drop)]
pub(crate) struct Dials {
    pub(crate) cii: Caller,
    pub(crate) ts: Caller,
}

impl Dials {
    /// None is being dialled.
    pub(crate) fn new(alloc: Global) -> Dials {
        Dials {
            cii: Caller::new(alloc),
            ts: Caller::new(alloc),
        }
    }

    /// Who dials sessions of a kind. None is dialled for the wall clock.
    pub(crate) fn of(&mut self, kind: Kind) -> &mut Caller {
        match kind {
            Kind::Ts => &mut self.ts,
            Kind::Cii | Kind::Wc => &mut self.cii,
        }
    }
}
