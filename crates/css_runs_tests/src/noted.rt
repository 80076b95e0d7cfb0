//! An outside in memory that notes its calls, and keeps what is sent over it.
use css_memory::MemoryOutside;
use css_num::{Memory, Text};
use css_outside::{Address, Clocked, Heard, Kind, OutFault, Outside, Why, Wrote};
use std::alloc::Global;

/// A datagram or a text that was sent.
#[derive(Drop)]
pub struct Sending {
    /// The turn in which it was sent, from 1 on.
    pub turn: u64,
    pub peer: u32,
    pub bytes: Text,
}

/// Adds what was sent.
pub fn keep(
    alloc: Global,
    kept: &mut Vec<Sending>,
    turn: u64,
    peer: u32,
    bytes: &[u8],
) -> Result<(), Memory> {
    let bytes = Text::of(alloc, bytes)?;
    kept.push(Sending { turn, peer, bytes })?;
    Ok(())
}

/// What was done over an outside.
#[derive(Drop)]
pub struct Log {
    pub alloc: Global,
    /// Each call in a line of its own.
    pub words: Text,
    pub turns: u64,
    pub datagrams: Vec<Sending>,
    pub texts: Vec<Sending>,
}

impl Log {
    pub fn new(alloc: Global) -> Log {
        Log {
            alloc,
            words: Text::new(alloc),
            turns: 0,
            datagrams: Vec::new(alloc),
            texts: Vec::new(alloc),
        }
    }

    /// Notes a call.
    fn note(&mut self, name: &str, numbers: &[u32], text: &[u8]) -> Result<(), Memory> {
        self.words.push(name.as_bytes())?;
        for number in numbers {
            self.words.push(b" ")?;
            self.words.push_number(i128::from(*number))?;
        }
        if !text.is_empty() {
            self.words.push(b" ")?;
            self.words.push(text)?;
        }
        self.words.push(b"\n")
    }

    fn note_reading(&mut self, why: Why) -> Result<(), Memory> {
        self.turns = self.turns.saturating_add(u64::from(why == Why::Turn));
        let name = match why {
            Why::Turn => "turn",
            Why::Take => "receive",
            Why::Give => "give",
            Why::Ask | Why::Land => "other",
        };
        self.note(name, &[], b"")
    }

    /// Notes how long nothing is due.
    fn note_rest(&mut self, until: u64) -> Result<(), Memory> {
        self.words.push(b"rest ")?;
        self.words.push_number(i128::from(until))?;
        self.words.push(b"\n")
    }

    /// Notes the type of a datagram, and the last two bytes of its receive and its transmit value as numbers.
    fn note_datagram(&mut self, peer: u32, bytes: &[u8; 32]) -> Result<(), Memory> {
        let received = u32::from(bytes[22]) * 256 + u32::from(bytes[23]);
        let sent = u32::from(bytes[30]) * 256 + u32::from(bytes[31]);
        self.note("send", &[peer, u32::from(bytes[1]), received, sent], b"")?;
        keep(self.alloc, &mut self.datagrams, self.turns, peer, bytes)
    }

    fn note_text(&mut self, peer: u32, text: &[u8]) -> Result<(), Memory> {
        self.note("say", &[peer], text)?;
        keep(self.alloc, &mut self.texts, self.turns, peer, text)
    }
}

/// An outside, and what was done over it.
pub struct Noted {
    pub outside: MemoryOutside,
    pub log: Log,
}

impl Drop for Noted {
    fn drop(self) {
        let Noted { outside: _, log: _ } = self;
    }
}

impl Outside for Noted {
    ghost use Rattle.std.specs.Prelude.{None};
    ghost use Rattle.css_memory.specs.Scripts.{counts_of};

    ghost told = { λ noted. None };

    ghost counts = { λ noted. counts_of noted.outside };

    fn listen(&mut self, host: &Text, port: u16) -> Result<(), OutFault> {
        self.log.note("listen", &[u32::from(port)], host.bytes())?;
        self.outside.listen(host, port)
    }

    fn now(&mut self, why: Why) -> Result<Clocked, OutFault> {
        self.log.note_reading(why)?;
        self.outside.now(why)
    }

    fn rest(&mut self, until: u64) {
        // Where memory is short the line is missing, and the call can't say so.
        let _ = self.log.note_rest(until);
        self.outside.rest(until);
    }

    fn dial(&mut self, kind: Kind, to: &Address) -> Result<u32, OutFault> {
        self.log.note("dial", &[], b"")?;
        self.outside.dial(kind, to)
    }

    fn accept(&mut self) -> Result<Option<(u32, Kind)>, OutFault> {
        self.log.note("accept", &[], b"")?;
        self.outside.accept()
    }

    fn send_datagram(&mut self, peer: u32, bytes: &[u8; 32]) -> Result<(), OutFault> {
        self.log.note_datagram(peer, bytes)?;
        self.outside.send_datagram(peer, bytes)
    }

    fn take_datagram(&mut self, into: &mut [u8; 64]) -> Result<Option<(u32, usize)>, OutFault> {
        self.log.note("take", &[], b"")?;
        self.outside.take_datagram(into)
    }

    fn take_text(&mut self, peer: u32) -> Result<Heard, OutFault> {
        self.log.note("text", &[peer], b"")?;
        self.outside.take_text(peer)
    }

    fn send_text(&mut self, peer: u32, text: &[u8]) -> Result<Wrote, OutFault> {
        self.log.note_text(peer, text)?;
        self.outside.send_text(peer, text)
    }

    fn hang_up(&mut self, peer: u32) -> Result<(), OutFault> {
        self.log.note("hang", &[peer], b"")?;
        self.outside.hang_up(peer)
    }
}
