ghost use Rattle.std.specs.Prelude.{◌≡◌, ◌↔◌, ◌≤◌, ◌<◌, ◌∷◌, [], IsTrue, Some, OnOk};
ghost use Rattle.css_meaning.specs.Sessions as sessions;
ghost use Rattle.css_world.specs.declared.session.Phase.TheVariants as phases;
ghost use Rattle.css_num.specs.Gives.{Leaves};
ghost use Rattle.css_world.specs.Flights as flights;

use css_meaning::WorldFault;
use css_num::{Memory, Text};
use css_sessions::Kind;
use std::alloc::Global;
use std::collections::VecDeque;
use std::marker::Model;

/// The peer of a companion's session. Companions are numbered from 1, and so are peers.
pub(crate) fn peer_of(who: u32, kind: Kind) -> u32
    requires first { 1 ≤ who }
    requires few { who < 2147483648 }
    ensures { result ≡ sessions.peer_of who kind }
{
    match kind {
        Kind::Cii => who * 2 - 1,
        Kind::Ts => who * 2,
    }
}

/// Whether a session is open. One that is over opens no more.
#[derive(Clone, Copy)]
pub(crate) enum Phase {
    Unopened,
    Open,
    Over,
}

/// A companion's session, with the texts that are in flight on it, the oldest first.
#[derive(Drop)]
pub(crate) struct Session {
    phase: Phase,
    /// The texts of the television.
    down: VecDeque<Text>,
    /// The texts of the companion.
    up: VecDeque<Text>,
}

impl Model for Session {
    ghost use Rattle.css_world.specs.Flights.{Session as Known};

    ghost Value = { Known };

    ghost view = { λ s. record { phase = s.phase; down = s.down.items; up = s.up.items } };
}

impl Session {
    pub(crate) fn new(alloc: Global) -> Session
        ensures { result ≡ flights.unopened }
    {
        Session {
            phase: Phase::Unopened,
            down: VecDeque::new(alloc),
            up: VecDeque::new(alloc),
        }
    }

    pub(crate) fn is_open(&self) -> bool
        ensures { IsTrue result ↔ (self.now.phase ≡ phases.Open) }
    {
        matches!(self.phase, Phase::Open)
    }

    /// Opens the session, unless it is open or was open before.
    pub(crate) fn open(&mut self) -> Result<(), WorldFault>
        ensures { Leaves result self.old self.new (flights.opened self.old) }
    {
        match self.phase {
            Phase::Unopened => {
                self.phase = Phase::Open;
                Ok(())
            }
            Phase::Open => Err(WorldFault::Absent),
            Phase::Over => Err(WorldFault::Absent),
        }
    }

    /// Closes the session, if it is open. The texts in flight on it are lost.
    pub(crate) fn close(&mut self) -> Result<(), WorldFault>
        ensures { Leaves result self.old self.new (flights.closed self.old) }
    {
        match self.phase {
            Phase::Open => {
                self.phase = Phase::Over;
                self.down.clear();
                self.up.clear();
                Ok(())
            }
            Phase::Unopened => Err(WorldFault::Absent),
            Phase::Over => Err(WorldFault::Absent),
        }
    }

    /// Puts a text of the television into flight, if the session is open.
    pub(crate) fn tell(&mut self, text: Text) -> Result<(), Memory>
        ensures { OnOk result (self.new ≡ flights.with_news (text ∷ []) self.old) }
    {
        if let Phase::Open = self.phase {
            self.down.push_back(text)?;
        }
        Ok(())
    }

    /// Puts a text of the companion into flight.
    pub(crate) fn write(&mut self, text: Text) -> Result<(), Memory>
        ensures { OnOk result (self.new ≡ flights.with_written (Some text) self.old) }
    {
        self.up.push_back(text)?;
        Ok(())
    }

    /// Takes out the next text of the television, if the session is open and one is in flight.
    pub(crate) fn next_down(&mut self) -> Option<Text>
        ensures text { result ≡ flights.first_in self.old.phase self.old.down }
        ensures after { self.new ≡ record self.old { down = flights.rest_in self.old.phase self.old.down } }
    {
        match self.phase {
            Phase::Open => self.down.pop_front(),
            Phase::Unopened => None,
            Phase::Over => None,
        }
    }

    /// Takes out the next text of the companion, if the session is open and one is in flight.
    pub(crate) fn next_up(&mut self) -> Option<Text>
        ensures text { result ≡ flights.first_in self.old.phase self.old.up }
        ensures after { self.new ≡ record self.old { up = flights.rest_in self.old.phase self.old.up } }
    {
        match self.phase {
            Phase::Open => self.up.pop_front(),
            Phase::Unopened => None,
            Phase::Over => None,
        }
    }
}
