//! One WebSocket session, by turns that never wait.

ghost use Rattle.std.specs.Prelude.{IfOk};
ghost use Rattle.css_net.specs.Texts.{ComesTo};

use crate::masks::Masks;
use crate::metered::Metered;
use css_devices::faults::{no_memory, would_wait};
use css_num::{Memory, Text};
use css_outside::{OutFault, Wrote};
use mio::net::TcpStream;
use std::alloc::Global;
use std::io;
use std::io::Read;
use std::net::SocketAddr;
use tungstenite::{
    Bytes, CloseCode, CloseFrame, Error, Message, Role, Utf8Bytes, WebSocket, WebSocketConfig,
};
use websocket::error::ProtocolError;

/// The greatest length of a text that is taken, in bytes.
const LONGEST_MESSAGE: usize = 262_144;
/// How many bytes may wait to be written to a peer.
const MOST_WAITING: usize = 4_194_304;
/// How many bytes one read asks for.
const READ_SIZE: usize = 8_192;
/// How many reads a session has in one turn.
const READS: u32 = 1;

/// The limits of each session.
fn limits() -> WebSocketConfig {
    WebSocketConfig::default()
        .read_buffer_size(READ_SIZE)
        .write_buffer_size(0)
        .max_write_buffer_size(MOST_WAITING)
        .max_message_size(Some(LONGEST_MESSAGE))
        .max_frame_size(Some(LONGEST_MESSAGE))
}

/// What one turn of a session gave.
#[derive(Drop)]
pub(crate) enum Came {
    /// A text.
    Text(Text),
    /// A message of another kind, such as a ping, which was answered.
    Other,
    /// No whole message.
    Nothing,
    /// The session ended.
    End(End),
}

/// Why a session ended.
#[derive(Clone, Copy)]
pub(crate) enum End {
    /// Its peer closed it.
    ByPeer,
    /// Its connection ended without a close, or takes too little.
    Broken,
    /// This end closed it, and told its peer so by this code.
    ByUs(CloseCode),
}

/// Why a call on a session gave nothing.
#[derive(Clone, Copy)]
pub(crate) enum Stop {
    /// Memory is short.
    Memory,
    /// The stream gives or takes nothing for now.
    Waits,
    /// The peer broke a rule, and is told so by this code.
    Refuses(CloseCode),
    /// The session is over.
    Over,
}

fn stop_of(error: &Error) -> Stop {
    match error {
        Error::OutOfMemory => Stop::Memory,
        Error::Io(error) if would_wait(error.kind()) => Stop::Waits,
        Error::Capacity(_) => Stop::Refuses(CloseCode::Size),
        // It ended without a close, and nobody is left to be told of a rule.
        Error::Protocol(ProtocolError::ResetWithoutClosingHandshake) => Stop::Over,
        Error::Protocol(_) => Stop::Refuses(CloseCode::Protocol),
        Error::Utf8 => Stop::Refuses(CloseCode::Invalid),
        _ => Stop::Over,
    }
}

/// What an error of a session means. The error itself, with all that it may hold, ends here.
fn stop_by(error: Error) -> Stop {
    stop_of(&error)
}

/// What an error of a stream means.
fn stop_by_io(error: io::Error) -> Stop {
    if would_wait(error.kind()) {
        Stop::Waits
    } else {
        Stop::Over
    }
}

/// The WebSocket of a session.
type Socket = WebSocket<Metered, Masks>;

/// The line to a peer, once its handshake is done.
pub(crate) struct Line {
    socket: Socket,
    /// Why it ended, once it has.
    end: End,
}

// One function drops its many parts: what holds one needn't see them.
impl Drop for Line {
    fn drop(self) {
        let Line { socket: _, end: _ } = self;
    }
}

impl Line {
    /// A line that a peer dialled, with what came after its handshake.
    pub(crate) fn served(alloc: Global, stream: Metered, rest: Vec<u8>) -> Line {
        let masks = Masks::unused();
        let limits = Some(limits());
        Line {
            socket: WebSocket::from_partially_read(
                alloc,
                stream,
                masks,
                rest,
                Role::Server,
                limits,
            ),
            end: End::Broken,
        }
    }

    /// A line that was dialled.
    pub(crate) fn dialled(alloc: Global, stream: Metered, masks: Masks, rest: Vec<u8>) -> Line {
        let limits = Some(limits());
        Line {
            socket: WebSocket::from_partially_read(
                alloc,
                stream,
                masks,
                rest,
                Role::Client,
                limits,
            ),
            end: End::Broken,
        }
    }

    /// What has come.
    pub(crate) fn hear(&mut self, alloc: Global) -> Result<Came, Memory> {
        let came = hear(alloc, &mut self.socket)?;
        if let Came::End(end) = &came {
            self.end = *end;
        }
        Ok(came)
    }

    /// Says a text. What the stream doesn't take at once goes out in later turns.
    pub(crate) fn say(&mut self, alloc: Global, text: &str) -> Result<Wrote, OutFault> {
        let message = Message::text(alloc, text).map_err(no_memory)?;
        match send(&mut self.socket, message) {
            Ok(()) | Err(Stop::Waits) => Ok(Wrote::Sent),
            Err(Stop::Memory) => Err(OutFault::Memory),
            Err(_) => Ok(Wrote::Gone),
        }
    }

    /// Asks the peer whether it is there.
    pub(crate) fn ping(&mut self) {
        let _ = send(&mut self.socket, Message::Ping(Bytes::new()));
    }

    /// Tells the peer that the session ends, if it still listens.
    pub(crate) fn close(&mut self, code: CloseCode) {
        self.end = End::ByUs(code);
        close(&mut self.socket, code)
    }

    /// Why it ended.
    pub(crate) fn end(&self) -> End {
        self.end
    }

    /// Where its peer is, if it is still there.
    pub(crate) fn from(&mut self) -> Option<SocketAddr> {
        self.stream().peer_addr().ok()
    }

    /// Writes out what waits.
    pub(crate) fn flush(&mut self) -> Result<(), Stop> {
        flush(&mut self.socket)
    }

    /// Reads past what comes, and tells how much it was: 0 is the end.
    pub(crate) fn skip(&mut self) -> Result<usize, Stop> {
        let mut piece = [0u8; READ_SIZE];
        let stream = self.metered();
        stream.begin_turn(1);
        stream.read(&mut piece).map_err(stop_by_io)
    }

    /// Whether the last turn was cut for want of reads.
    pub(crate) fn was_cut(&self) -> bool {
        self.socket.get_ref().was_cut()
    }

    /// Whether something came, or was taken, in the last turn.
    pub(crate) fn has_come(&self) -> bool {
        self.socket.get_ref().has_come()
    }

    /// The stream with its reads.
    pub(crate) fn metered(&mut self) -> &mut Metered {
        self.socket.get_mut()
    }

    /// The stream by itself.
    pub(crate) fn stream(&mut self) -> &mut TcpStream {
        self.metered().stream()
    }
}

// Each call of a socket stands in a function of its own: what it promises is long, and no caller here rests on it.

fn flush(socket: &mut Socket) -> Result<(), Stop> {
    socket.flush().map_err(stop_by)
}

fn read(socket: &mut Socket) -> Result<Message, Stop> {
    socket.read().map_err(stop_by)
}

fn send(socket: &mut Socket, message: Message) -> Result<(), Stop> {
    socket.send(message).map_err(stop_by)
}

fn close(socket: &mut Socket, code: CloseCode) {
    let frame = CloseFrame {
        code,
        reason: Utf8Bytes::from_static(""),
    };
    let _ = socket.close(Some(frame)).map_err(stop_by);
}

/// What a message comes to.
fn came_by(alloc: Global, message: &Message) -> Result<Came, Stop>
    ensures { IfOk result (ComesTo message.now) }
{
    match message {
        Message::Text(text) => match Text::of(alloc, text.as_str().as_bytes()) {
            Ok(text) => Ok(Came::Text(text)),
            Err(Memory) => Err(Stop::Memory),
        },
        Message::Binary(_) => Err(Stop::Refuses(CloseCode::Unsupported)),
        Message::Close(_) => Ok(Came::End(End::ByPeer)),
        _ => Ok(Came::Other),
    }
}

// A peer that doesn't take what it was sent is not read: its pings would have more and more wait for it.
fn next(alloc: Global, socket: &mut Socket) -> Result<Came, Stop> {
    flush(socket)?;
    let message = read(socket)?;
    came_by(alloc, &message)
}

fn hear(alloc: Global, socket: &mut Socket) -> Result<Came, Memory> {
    socket.get_mut().begin_turn(READS);
    match next(alloc, socket) {
        Ok(Came::End(end)) => {
            // The answer to the peer's close.
            let _ = flush(socket);
            Ok(Came::End(end))
        }
        Ok(came) => Ok(came),
        Err(stop) => hear_nothing(socket, stop),
    }
}

fn hear_nothing(socket: &mut Socket, stop: Stop) -> Result<Came, Memory> {
    match stop {
        Stop::Memory => Err(Memory),
        Stop::Waits => Ok(Came::Nothing),
        Stop::Refuses(code) => {
            close(socket, code);
            Ok(Came::End(End::ByUs(code)))
        }
        Stop::Over => Ok(Came::End(End::Broken)),
    }
}
