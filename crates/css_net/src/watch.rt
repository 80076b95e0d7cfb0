use mio::event::Source;
use mio::{Events, Interest, Poll, Token};
use std::alloc::Global;
use std::net::Net;
use std::time::{Clock, Duration};
use std::{io, thread};

/// How many sockets one wait names at most; the next wait names the others.
const MOST_NAMED: usize = 64;
/// A name that no socket has.
pub(crate) const NOBODY: usize = usize::MAX;

/// The names of sockets on which something has come, or that take more.
pub(crate) type Named = [usize; MOST_NAMED];

/// The system's set of sockets, and where it says what has come.
#[derive(Drop)]
struct Set {
    poll: Poll,
    events: Events<Global>,
}

impl Set {
    fn new<R: Net>(alloc: Global, rt: &R) -> io::Result<Set> {
        Ok(Set {
            poll: Poll::new(rt)?,
            events: Events::with_capacity(alloc, MOST_NAMED)?,
        })
    }

    fn add<S: Source>(&self, socket: &mut S, name: usize, interests: Interest) -> io::Result<()> {
        let registry = self.poll.registry();
        registry.register(socket, Token(name), interests)
    }

    fn rename<S: Source>(&self, socket: &mut S, name: usize) -> io::Result<()> {
        let interests = Interest::READABLE | Interest::WRITABLE;
        let registry = self.poll.registry();
        registry.reregister(socket, Token(name), interests)
    }

    fn wait(&mut self, pause: Duration) -> io::Result<Named> {
        self.poll.poll(&mut self.events, Some(pause))?;
        let mut named = [NOBODY; MOST_NAMED];
        for (place, event) in named.iter_mut().zip(self.events.iter()) {
            *place = event.token().0;
        }
        Ok(named)
    }
}

/// Waits for some sockets at once. The system's set is made for the first of them.
#[derive(Drop)]
pub(crate) struct Watch {
    alloc: Global,
    set: Option<Set>,
}

impl Watch {
    /// No socket is watched.
    pub(crate) fn new(alloc: Global) -> Watch {
        Watch { alloc, set: None }
    }

    fn begin<R: Net>(&mut self, rt: &R) -> io::Result<()> {
        if self.set.is_none() {
            self.set = Some(Set::new(self.alloc, rt)?);
        }
        Ok(())
    }

    fn set(&self) -> io::Result<&Set> {
        match &self.set {
            Some(set) => Ok(set),
            None => Err(io::Error::from(io::ErrorKind::NotFound)),
        }
    }

    fn watched<R: Net, S: Source + Drop>(
        &mut self,
        rt: &R,
        mut socket: S,
        name: usize,
        interests: Interest,
    ) -> io::Result<S> {
        self.begin(rt)?;
        self.set()?.add(&mut socket, name, interests)?;
        Ok(socket)
    }

    /// Watches a socket under a name. It is named once for each change: until its calls would wait it must be asked.
    pub(crate) fn add<R: Net, S: Source + Drop>(
        &mut self,
        rt: &R,
        socket: S,
        name: usize,
    ) -> io::Result<S> {
        self.watched(rt, socket, name, Interest::READABLE | Interest::WRITABLE)
    }

    /// Watches a socket for what comes alone: what it sends never ends a wait.
    pub(crate) fn add_reader<R: Net, S: Source + Drop>(
        &mut self,
        rt: &R,
        socket: S,
        name: usize,
    ) -> io::Result<S> {
        self.watched(rt, socket, name, Interest::READABLE)
    }

    /// Gives a watched socket another name.
    pub(crate) fn rename<S: Source>(&self, socket: &mut S, name: usize) -> io::Result<()> {
        self.set()?.rename(socket, name)
    }

    /// Waits until something comes, or the pause is over.
    pub(crate) fn wait<R: Clock>(&mut self, rt: &R, pause: Duration) -> io::Result<Named> {
        match &mut self.set {
            Some(set) => set.wait(pause),
            None => {
                thread::sleep(rt, pause);
                Ok([NOBODY; MOST_NAMED])
            }
        }
    }
}
