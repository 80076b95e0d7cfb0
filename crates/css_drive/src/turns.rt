ghost use Rattle.std.specs.Prelude.{◌≡◌, ◌<◌, true};
ghost use Rattle.css_drive.specs.TvProgress.{IsRanged};
ghost use Rattle.css_drive.specs.TvProgress as spec;

use css_model::LIMIT;
use css_outside::Limit;
use css_tv::Tv;

/// What a television's run keeps from call to call.
#[derive(Drop)]
pub(crate) struct OnAir {
    pub(crate) tv: Tv,
    /// How many lines of the script were carried out.
    pub(crate) lines: usize,
    pub(crate) turns: Turns,
}

/// The turns of a television's run.
#[derive(Clone, Copy)]
pub struct Turns {
    /// How long they go on.
    pub limit: Limit,
    /// Whether the times of the script count from the first one.
    pub relative: bool,
    /// How many were begun.
    pub made: u64,
    /// The readings of the first and of the last one that was begun, and 0 before.
    pub first: u64,
    pub last: u64,
}

impl Turns {
    /// None was begun.
    pub fn new(limit: Limit, relative: bool) -> Turns
        ensures { result ≡ spec.no_turns limit relative }
    {
        Turns {
            limit,
            relative,
            made: 0,
            first: 0,
            last: 0,
        }
    }

    /// One more begins, at this reading.
    pub fn begin(&mut self, reading: u64)
        requires { spec.goes_on self.old ≡ true }
        ensures { self.new ≡ spec.begun reading self.old }
    {
        if self.made == 0 {
            self.first = reading;
        }
        self.made += 1;
        self.last = reading;
    }

    /// Whether the one that was begun last is the last by its time.
    pub fn is_over(self) -> bool
        requires { IsRanged self }
        ensures { result ≡ spec.is_over self }
    {
        self.limit.is_over(self.first, self.last)
    }

    /// Whether another one begins.
    pub fn goes_on(self) -> bool
        requires { IsRanged self }
        ensures { result ≡ spec.goes_on self }
    {
        self.made < self.limit.most_turns() && !self.is_over()
    }

    /// The reading from which the times of the script count.
    pub fn since(self) -> u64
        requires { IsRanged self }
        ensures value { result ≡ spec.since self }
        ensures below { result < LIMIT }
    {
        if self.relative { self.first } else { 0 }
    }
}
