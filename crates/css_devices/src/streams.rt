//! The standard streams as devices. They count each failure, and tell nothing of what they hold. A stream that doesn't
//! block is waited for. A source keeps the last lines that went through it where that is asked, of which nothing is
//! promised.

ghost use Rattle.std.specs.Prelude.{◌≡◌};
ghost use Rattle.std.specs.Io.{ReadsAtMost, WritesAtMost};
ghost use Rattle.std.specs.Io.KnownBytes.{ReadConsumes, WriteAppends};

use crate::faults::fault_of;
use crate::window::Window;
use css_outside::{Failed, Failure, OutFault, Sink, Source};
use std::io::{ErrorKind, Read, Write};
use std::time::{Clock, Duration};
use std::{io, thread};

/// How long a stream that gives or takes nothing for now is left alone, in milliseconds.
const PAUSE_MILLIS: u64 = 4;

/// A reader, such as standard input. A failed read raises its count.
#[derive(Drop)]
pub struct StdSource<'a, R, C> {
    inner: R,
    clock: &'a C,
    faults: u64,
    window: Option<Window>,
}

/// Whether a call is made again. Where it would have to wait there is a pause first.
fn goes_on<C: Clock>(clock: &C, error: &io::Error) -> bool {
    match error.kind() {
        ErrorKind::Interrupted => true,
        ErrorKind::WouldBlock => {
            thread::sleep(clock, Duration::from_millis(PAUSE_MILLIS));
            true
        }
        _ => false,
    }
}

/// Reads, and again where a signal cut the read short, or nothing has come yet.
fn read_through<R: Read, C: Clock>(inner: &mut R, clock: &C, into: &mut [u8]) -> io::Result<usize>
    ensures bound { ReadsAtMost result into.new }
    ensures bytes { ReadConsumes (R.remaining inner.old) (R.remaining inner.new) result into.new }
{
    for _ in 0..u64::MAX {
        match inner.read(into) {
            Err(error) if goes_on(clock, &error) => {}
            ended => return ended,
        }
    }
    Err(io::Error::from(ErrorKind::Interrupted))
}

/// Keeps the first `count` bytes that were read, where lines are kept.
fn keep(window: &mut Option<Window>, read: &[u8], count: usize) {
    if let Some(lines) = window {
        lines.add(read.get(..count).unwrap_or(read));
    }
}

impl<'a, R: Read, C: Clock> StdSource<'a, R, C> {
    /// No read has failed yet, and no lines are kept.
    pub fn new(inner: R, clock: &'a C) -> StdSource<'a, R, C>
        ensures faults { result.faults ≡ 0 }
    {
        StdSource {
            inner,
            clock,
            faults: 0,
            window: None,
        }
    }

    /// Keeps the last lines that come from now on, 32,768 bytes of them.
    pub fn keep_lines(&mut self)
        ensures faults { self.new.faults ≡ self.old.faults }
    {
        self.window = Some(Window::new());
    }

    /// Makes the kept lines ready to be asked for, once nothing more is read.
    pub fn end_lines(&mut self)
        ensures faults { self.new.faults ≡ self.old.faults }
    {
        if let Some(lines) = &mut self.window {
            lines.turn();
        }
    }

    /// The line with this number, counted from 1, without its line feed. None where not all of it is kept. Call
    /// `end_lines` before.
    pub fn line(&self, number: u64) -> Option<&[u8]> {
        match &self.window {
            Some(lines) => lines.line(number),
            None => None,
        }
    }

    /// Whether lines are kept, and line 1 ended with a carriage return.
    pub fn first_line_returned(&self) -> bool {
        match &self.window {
            Some(lines) => lines.has_returned(),
            None => false,
        }
    }
}

impl<'a, R: Read, C: Clock> Source for StdSource<'a, R, C> {
    ghost left = { λ source. R.remaining source.inner };

    ghost faults = { λ source. source.faults };

    fn read(&mut self, into: &mut [u8]) -> Result<usize, Failed> {
        match read_through(&mut self.inner, self.clock, into) {
            Ok(count) => {
                keep(&mut self.window, into, count);
                Ok(count)
            }
            Err(_) => {
                self.faults = self.faults.saturating_add(1);
                Err(Failed)
            }
        }
    }
}

/// A writer, such as standard output. A failed write, and one that takes nothing, raises its count.
#[derive(Drop)]
pub struct StdSink<'a, W, C> {
    inner: W,
    clock: &'a C,
    faults: u64,
}

/// Writes, and again where a signal cut the write short, or nothing is taken yet.
fn write_through<W: Write, C: Clock>(inner: &mut W, clock: &C, bytes: &[u8]) -> io::Result<usize>
    ensures bound { WritesAtMost result bytes.now }
    ensures bytes { WriteAppends (W.contents inner.old) (W.contents inner.new) result bytes.now }
{
    for _ in 0..u64::MAX {
        match inner.write(bytes) {
            Err(error) if goes_on(clock, &error) => {}
            ended => return ended,
        }
    }
    Err(io::Error::from(ErrorKind::Interrupted))
}

impl<'a, W: Write, C: Clock> StdSink<'a, W, C> {
    /// No write has failed yet.
    pub fn new(inner: W, clock: &'a C) -> StdSink<'a, W, C>
        ensures faults { result.faults ≡ 0 }
    {
        StdSink {
            inner,
            clock,
            faults: 0,
        }
    }
}

impl<'a, W: Write, C: Clock> Sink for StdSink<'a, W, C> {
    ghost holds = { λ sink. W.contents sink.inner };

    ghost faults = { λ sink. sink.faults };

    fn write(&mut self, bytes: &[u8]) -> Result<usize, OutFault> {
        match write_through(&mut self.inner, self.clock, bytes) {
            Ok(0) if !bytes.is_empty() => {
                self.faults = self.faults.saturating_add(1);
                Err(OutFault::Failed(Failure::Other))
            }
            Ok(count) => Ok(count),
            Err(error) => match fault_of(error) {
                OutFault::Failed(failure) => {
                    self.faults = self.faults.saturating_add(1);
                    Err(OutFault::Failed(failure))
                }
                OutFault::Memory => Err(OutFault::Memory),
            },
        }
    }
}
