use mio::net::TcpStream;
use std::io;
use std::io::{ErrorKind, Read, Write};
use std::net::Shutdown;

/// A stream with so many reads in a turn. Past the last of them it answers as a stream on which nothing has come, so
/// that one peer can't hold the loop.
#[derive(Drop)]
pub(crate) struct Metered {
    stream: TcpStream,
    reads: u32,
    cut: bool,
    came: bool,
}

impl Metered {
    /// The stream, which never waits, and sends small texts at once.
    pub(crate) fn new(stream: TcpStream) -> io::Result<Metered> {
        stream.set_nodelay(true)?;
        Ok(Metered {
            stream,
            reads: 0,
            cut: false,
            came: false,
        })
    }

    /// Begins a turn of so many reads.
    pub(crate) fn begin_turn(&mut self, reads: u32) {
        self.reads = reads;
        self.cut = false;
        self.came = false;
    }

    /// Whether the turn was cut for want of reads, so that more may be there.
    pub(crate) fn was_cut(&self) -> bool {
        self.cut
    }

    /// Whether something came, or was taken, in this turn.
    pub(crate) fn has_come(&self) -> bool {
        self.came
    }

    /// The stream by itself.
    pub(crate) fn stream(&mut self) -> &mut TcpStream {
        &mut self.stream
    }

    /// Tells the peer that nothing more will come.
    pub(crate) fn end_writing(&self) -> io::Result<()> {
        self.stream.shutdown(Shutdown::Write)
    }
}

impl Read for Metered {
    fn read(&mut self, into: &mut [u8]) -> io::Result<usize> {
        if self.reads == 0 {
            self.cut = true;
            return Err(io::Error::from(ErrorKind::WouldBlock));
        }
        self.reads -= 1;
        match self.stream.read(into) {
            Ok(count) => {
                self.came = true;
                Ok(count)
            }
            Err(error) => Err(error),
        }
    }
}

impl Write for Metered {
    fn write(&mut self, bytes: &[u8]) -> io::Result<usize> {
        match self.stream.write(bytes) {
            Ok(count) => {
                self.came = true;
                Ok(count)
            }
            Err(error) => Err(error),
        }
    }

    fn flush(&mut self) -> io::Result<()> {
        Ok(())
    }
}
