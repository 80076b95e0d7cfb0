ghost use Rattle.std.specs.Prelude.{◌≡◌, ◌<◌, ◌≤◌, [], Ok, Some, length, min, IfOk, IfErr};
ghost use Rattle.std.specs.Io.{ReadsAtMost};
ghost use Rattle.std.specs.Io.KnownBytes.{ReadConsumes, WriteAppends};
ghost use Rattle.css_outside.specs.Faults.{CountsReadFaults, CountsCall};
ghost use Rattle.css_outside.specs.Devices.{read_count};

use crate::buffers::{Incoming, Outgoing};
use crate::fault::{Failed, OutFault};
use crate::sink::Sink;
use crate::source::Source;
use css_num::Memory;
use std::alloc::Global;
use std::marker::Model;

/// A source of given bytes, none of whose reads fails.
#[derive(Drop)]
pub struct NeverFailsSource {
    incoming: Incoming,
}

impl Model for NeverFailsSource {
    ghost use Rattle.css_outside.specs.Devices.{BytesLeft};

    ghost Value = { BytesLeft };

    ghost view = { λ source. source.incoming };
}

impl NeverFailsSource {
    /// A source with these bytes left. A read gives at most `piece` of them.
    pub fn new(alloc: Global, bytes: &[u8], piece: usize) -> Result<NeverFailsSource, Memory>
        requires { 1 ≤ piece }
        ensures { IfOk result (λ source. source ≡ record { left = bytes.now; piece = piece }) }
    {
        Ok(NeverFailsSource {
            incoming: Incoming::new(alloc, bytes, piece)?,
        })
    }
}

impl Source for NeverFailsSource {
    ghost left = { λ source. Some source.left };

    ghost faults = { λ _. 0 };

    fn read(&mut self, into: &mut [u8]) -> Result<usize, Failed>
        ensures bound { ReadsAtMost result into.new }
        ensures bytes { ReadConsumes (Some self.old.left) (Some self.new.left) result into.new }
        ensures counted { CountsReadFaults 0 0 result }

        ensures ok { result ≡ Ok (read_count self.old.piece (length into.new) self.old.left) }
        ensures piece { self.new.piece ≡ self.old.piece }
    {
        Ok(self.incoming.take(into))
    }
}

/// A sink none of whose writes fails. It may lack memory.
#[derive(Drop)]
pub struct NeverFailsSink {
    outgoing: Outgoing,
}

impl Model for NeverFailsSink {
    ghost use Rattle.css_outside.specs.Devices.{BytesHeld};

    ghost Value = { BytesHeld };

    ghost view = { λ sink. sink.outgoing };
}

impl NeverFailsSink {
    /// A sink that holds nothing. A write takes at most `piece` bytes.
    pub fn new(alloc: Global, piece: usize) -> Result<NeverFailsSink, Memory>
        requires { 1 ≤ piece }
        ensures { IfOk result (λ sink. sink ≡ record { holds = []; piece = piece }) }
    {
        Ok(NeverFailsSink {
            outgoing: Outgoing::new(alloc, piece),
        })
    }

    /// The bytes that it holds.
    pub fn bytes(&self) -> &[u8]
        ensures { result.now ≡ self.now.holds }
    {
        self.outgoing.bytes()
    }
}

impl Sink for NeverFailsSink {
    ghost holds = { λ sink. Some sink.holds };

    ghost faults = { λ _. 0 };

    fn write(&mut self, bytes: &[u8]) -> Result<usize, OutFault>
        ensures bound { IfOk result (λ count. count ≤ length bytes.now) }
        ensures some { IfOk result (λ count. 0 < length bytes.now → 0 < count) }
        ensures bytes { WriteAppends (Some self.old.holds) (Some self.new.holds) result bytes.now }
        ensures counted { CountsCall 0 0 result }

        ensures count { IfOk result (λ count. count ≡ min self.old.piece (length bytes.now)) }
        ensures memory { IfErr result (λ fault. fault ≡ OutFault.Memory) }
        ensures piece { self.new.piece ≡ self.old.piece }
    {
        Ok(self.outgoing.keep(bytes)?)
    }
}
