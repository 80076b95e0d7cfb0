ghost use Rattle.std.specs.Prelude.{◌≡◌, ◌<◌, ◌≤◌, ◌↔◌, [], Some, length, min, IfOk, OnErr, IsErr, IsErrOf, Contains};
ghost use Rattle.std.specs.Io.{ReadsAtMost};
ghost use Rattle.std.specs.Io.KnownBytes.{ReadConsumes, WriteAppends};
ghost use Rattle.css_outside.specs.Faults.{CountsReadFaults, CountsCall, HasFailed};
ghost use Rattle.css_outside.specs.Devices.{read_count};
ghost use Rattle.css_memory.specs.Failing.{next_count};

use crate::failing::FailingCalls;
use css_num::Memory;
use css_outside::{Failed, Failure, NeverFailsSink, NeverFailsSource, OutFault, Sink, Source};
use std::alloc::Global;
use std::marker::Model;

/// A source of given bytes, whose reads fail where they are told to.
#[derive(Drop)]
pub struct MemorySource {
    bytes: NeverFailsSource,
    failing: FailingCalls,
}

impl Model for MemorySource {
    ghost use Rattle.css_memory.specs.Failing.{FailingSource};

    ghost Value = { FailingSource };

    ghost view = { λ source. record {
      left = source.bytes.left;
      piece = source.bytes.piece;
      fails = source.failing.fails;
      calls = source.failing.calls;
      faults = source.failing.faults;
    } };
}

impl MemorySource {
    /// A source with these bytes left. A read gives at most `piece` of them, and the reads whose numbers stand in
    /// `fails` fail: they are counted from 1, the failed ones too.
    pub fn new(
        alloc: Global,
        bytes: &[u8],
        piece: usize,
        fails: &[u64],
    ) -> Result<MemorySource, Memory>
        requires { 1 ≤ piece }
        ensures { IfOk result (λ source. source ≡ record {
          left = bytes.now;
          piece = piece;
          fails = fails.now;
          calls = 0;
          faults = 0;
        }) }
    {
        Ok(MemorySource {
            bytes: NeverFailsSource::new(alloc, bytes, piece)?,
            failing: FailingCalls::new(alloc, fails)?,
        })
    }
}

impl Source for MemorySource {
    ghost left = { λ source. Some source.left };

    ghost faults = { λ source. source.faults };

    fn read(&mut self, into: &mut [u8]) -> Result<usize, Failed>
        ensures bound { ReadsAtMost result into.new }
        ensures bytes { ReadConsumes (Some self.old.left) (Some self.new.left) result into.new }
        ensures counted { CountsReadFaults self.old.faults self.new.faults result }

        // Which reads fail, and how many bytes the others give.
        ensures fails { IsErr result ↔ Contains self.old.fails (next_count self.old.calls) }
        ensures count { IfOk result (λ count. count ≡ read_count self.old.piece (length into.new) self.old.left) }
        ensures risen { OnErr result (self.new.faults ≡ next_count self.old.faults) }
        ensures others { self.new
            ≡ record self.old { left = self.new.left; calls = next_count self.old.calls; faults = self.new.faults } }
    {
        if self.failing.next_fails() {
            return Err(Failed);
        }
        self.bytes.read(into)
    }
}

/// A sink whose writes fail where they are told to.
#[derive(Drop)]
pub struct MemorySink {
    bytes: NeverFailsSink,
    failing: FailingCalls,
}

impl Model for MemorySink {
    ghost use Rattle.css_memory.specs.Failing.{FailingSink};

    ghost Value = { FailingSink };

    ghost view = { λ sink. record {
      holds = sink.bytes.holds;
      piece = sink.bytes.piece;
      fails = sink.failing.fails;
      calls = sink.failing.calls;
      faults = sink.failing.faults;
    } };
}

impl MemorySink {
    /// A sink that holds nothing. A write takes at most `piece` bytes, and the writes whose numbers stand in `fails`
    /// fail: they are counted from 1, the failed ones too.
    pub fn new(alloc: Global, piece: usize, fails: &[u64]) -> Result<MemorySink, Memory>
        requires { 1 ≤ piece }
        ensures { IfOk result (λ sink. sink ≡ record {
          holds = [];
          piece = piece;
          fails = fails.now;
          calls = 0;
          faults = 0;
        }) }
    {
        Ok(MemorySink {
            bytes: NeverFailsSink::new(alloc, piece)?,
            failing: FailingCalls::new(alloc, fails)?,
        })
    }

    /// The bytes that it holds.
    pub fn bytes(&self) -> &[u8]
        ensures { result.now ≡ self.now.holds }
    {
        self.bytes.bytes()
    }
}

impl Sink for MemorySink {
    ghost holds = { λ sink. Some sink.holds };

    ghost faults = { λ sink. sink.faults };

    fn write(&mut self, bytes: &[u8]) -> Result<usize, OutFault>
        ensures bound { IfOk result (λ count. count ≤ length bytes.now) }
        ensures some { IfOk result (λ count. 0 < length bytes.now → 0 < count) }
        ensures bytes { WriteAppends (Some self.old.holds) (Some self.new.holds) result bytes.now }
        ensures counted { CountsCall self.old.faults self.new.faults result }

        // Which writes fail, and how many bytes the others take.
        ensures fails { HasFailed result ↔ Contains self.old.fails (next_count self.old.calls) }
        ensures count { IfOk result (λ count. count ≡ min self.old.piece (length bytes.now)) }
        ensures risen { HasFailed result → self.new.faults ≡ next_count self.old.faults }
        ensures others { self.new
            ≡ record self.old { holds = self.new.holds; calls = next_count self.old.calls; faults = self.new.faults } }
    {
        if self.failing.next_fails() {
            return Err(OutFault::Failed(Failure::Other));
        }
        self.bytes.write(bytes)
    }
}
