ghost use Rattle.std.specs.Prelude.{◌≡◌, ◌<◌, ◌≤◌, ◌++◌, [], length, take, drop, min};
ghost use Rattle.std.specs.Prelude.{IfOk, OnErr};
ghost use Rattle.css_outside.specs.Devices.{read_count};

use css_num::Memory;
use std::alloc::Global;
use std::marker::Model;

/// Bytes that come in, some at a time.
#[derive(Drop)]
pub struct Incoming {
    bytes: Vec<u8>,
    at: usize,
    piece: usize,
}

impl Model for Incoming {
    ghost use Rattle.std.specs.Prelude.{◌≤◌, drop, length};
    ghost use Rattle.css_outside.specs.Devices.{BytesLeft};

    ghost Value = { BytesLeft };

    ghost view = { λ incoming. record { left = drop incoming.at incoming.bytes.items; piece = incoming.piece } };

    ghost invariant = { λ incoming. (incoming.at ≤ length incoming.bytes.items) × (1 ≤ incoming.piece) };
}

impl Incoming {
    pub fn new(alloc: Global, bytes: &[u8], piece: usize) -> Result<Incoming, Memory>
        requires { 1 ≤ piece }
        ensures { IfOk result (λ incoming. incoming ≡ record { left = bytes.now; piece = piece }) }
    {
        Ok(Incoming {
            bytes: bytes.to_vec(alloc)?,
            at: 0,
            piece,
        })
    }

    /// Moves the next bytes into the front of `into`, and tells how many.
    pub fn take(&mut self, into: &mut [u8]) -> usize
        ensures count { result ≡ read_count self.old.piece (length into.new) self.old.left }
        ensures piece { 1 ≤ self.old.piece }
        ensures bytes { self.old.left ≡ take result into.new ++ self.new.left }
        ensures left { self.new ≡ record self.old { left = drop result self.old.left } }
    {
        let left = self.bytes.len() - self.at;
        let count = self.piece.min(into.len()).min(left);
        let end = self.at + count;
        into[..count].copy_from_slice(&self.bytes[self.at..end]);
        self.at = end;
        count
    }
}

/// Bytes that went out, some at a time.
#[derive(Drop)]
pub struct Outgoing {
    bytes: Vec<u8>,
    piece: usize,
}

impl Model for Outgoing {
    ghost use Rattle.std.specs.Prelude.{◌≤◌};
    ghost use Rattle.css_outside.specs.Devices.{BytesHeld};

    ghost Value = { BytesHeld };

    ghost view = { λ outgoing. record { holds = outgoing.bytes.items; piece = outgoing.piece } };

    ghost invariant = { λ outgoing. 1 ≤ outgoing.piece };
}

impl Outgoing {
    pub fn new(alloc: Global, piece: usize) -> Outgoing
        requires { 1 ≤ piece }
        ensures { result ≡ record { holds = []; piece = piece } }
    {
        Outgoing {
            bytes: Vec::new(alloc),
            piece,
        }
    }

    pub fn bytes(&self) -> &[u8]
        ensures { result.now ≡ self.now.holds }
    {
        &self.bytes
    }

    /// Keeps some of the bytes, from their front on, and tells how many.
    pub fn keep(&mut self, bytes: &[u8]) -> Result<usize, Memory>
        ensures piece { 1 ≤ self.old.piece }
        ensures count { IfOk result (λ count. count ≡ min self.old.piece (length bytes.now)) }
        ensures ok { IfOk result
            (λ count. self.new ≡ record self.old { holds = self.old.holds ++ take count bytes.now }) }
        ensures err { OnErr result (self.new ≡ self.old) }
    {
        let count = self.piece.min(bytes.len());
        self.bytes.extend_from_slice(&bytes[..count])?;
        Ok(count)
    }
}
