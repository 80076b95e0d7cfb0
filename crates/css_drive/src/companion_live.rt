//! A companion's run, as far as it has come.
ghost use Rattle.std.specs.Prelude.{◌≡◌, ◌<◌};
ghost use Rattle.css_drive.specs.CompanionStanding.{begun_at, no_calls};

use css_companion::Companion;
use std::alloc::Global;

/// What a companion's run keeps from call to call.
#[derive(Clone, Copy)]
pub struct Live {
    /// The reading of the first turn.
    pub first: Option<u64>,
    /// The reading of the present turn.
    pub turn: Option<u64>,
    /// The reading of the turn in which the last request was sent, if one was sent since the last sleep.
    pub asked: Option<u64>,
    /// How many turns were begun.
    pub made: u64,
    /// How many reports were due.
    pub reported: u64,
    /// The peers that were dialled.
    pub cii: Option<u32>,
    pub wc: Option<u32>,
    pub ts: Option<u32>,
    /// The peers of the sessions that are open.
    pub cii_open: Option<u32>,
    pub ts_open: Option<u32>,
}

impl Live {
    /// Nothing was called yet.
    pub fn new() -> Live
        ensures { result ≡ no_calls }
    {
        Live {
            first: None,
            turn: None,
            asked: None,
            made: 0,
            reported: 0,
            cii: None,
            wc: None,
            ts: None,
            cii_open: None,
            ts_open: None,
        }
    }

    /// A turn begins, at this reading.
    pub fn begin(&mut self, reading: u64)
        requires { self.old.made < 1099511627776 }
        ensures { self.new ≡ begun_at reading self.old }
    {
        self.first = Some(self.first.unwrap_or(reading));
        self.turn = Some(reading);
        self.made += 1;
    }
}

/// A companion's run: what it is made of, and how far it has come.
#[derive(Drop)]
pub struct Run<'a, O, W> {
    pub alloc: Global,
    pub companion: &'a mut Companion,
    pub outside: &'a mut O,
    pub observer: &'a mut W,
    pub live: &'a mut Live,
}
