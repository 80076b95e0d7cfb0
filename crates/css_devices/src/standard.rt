//! The standard streams' own descriptors: one that the program was started without, and a standard error that nobody
//! reads.

ghost use Rattle.css_outside.specs.Bytes.{IsPrefix};

use libc::net::{POLLOUT, poll};
use libc::types::pollfd;
use libc::{STDERR_FILENO, STDIN_FILENO};
use std::fs::File;
use std::io;
use std::io::{ErrorKind, Write};
use std::os::fd::{AsRawFd, IntoRawFd};
use std::rt::Files;

/// The most bytes that a pipe takes at once, where it takes any.
const PIECE: usize = 4_096;
/// How long a patient writer waits until something can be written, in milliseconds.
const PATIENCE_MILLIS: i32 = 1_000;

/// Takes the number of each standard stream that the program was started without, for as long as it runs. So no socket
/// gets such a number, and a call of that stream fails: a folder can't be read, and one that is open for reading can't
/// be written. It comes before anything else is opened.
pub fn take_standard_numbers<R: Files>(rt: &R)
where
    R::File: AsRawFd + IntoRawFd,
{
    for _ in STDIN_FILENO..=STDERR_FILENO {
        match File::open(rt, "/") {
            // The system gives the least number that is free.
            Ok(folder) if folder.as_raw_fd() <= STDERR_FILENO => {
                let _ = folder.into_raw_fd();
            }
            _ => return,
        }
    }
}

/// Whether a descriptor takes something, or fails, within so many milliseconds.
fn takes_within(descriptor: i32, millis: i32) -> bool {
    let mut asked = [pollfd {
        fd: descriptor,
        events: POLLOUT,
        revents: 0,
    }];
    poll(&mut asked, millis) > 0
}

/// Whether a short line on standard error wouldn't have to wait for whoever reads it.
pub fn errors_take_line() -> bool {
    takes_within(STDERR_FILENO, 0)
}

/// A writer to a descriptor, such as standard error, that waits for a second at most until it takes something. Then
/// the write fails.
#[derive(Drop)]
pub struct PatientWriter<W> {
    inner: W,
}

impl<W: Write + AsRawFd> PatientWriter<W> {
    /// Nothing was written yet.
    pub fn new(inner: W) -> PatientWriter<W> {
        PatientWriter { inner }
    }
}

/// The front of some bytes, as much of them as is written at once.
fn piece_of(bytes: &[u8]) -> &[u8]
    ensures { IsPrefix result.now bytes.now }
{
    let (piece, _) = bytes.split_at(bytes.len().min(PIECE));
    piece
}

impl<W: Write + AsRawFd> Write for PatientWriter<W> {
    ghost contents = { λ writer. W.contents writer.inner };

    fn write(&mut self, bytes: &[u8]) -> io::Result<usize> {
        if !takes_within(self.inner.as_raw_fd(), PATIENCE_MILLIS) {
            return Err(io::Error::from(ErrorKind::TimedOut));
        }
        self.inner.write(piece_of(bytes))
    }

    fn flush(&mut self) -> io::Result<()> {
        self.inner.flush()
    }
}
