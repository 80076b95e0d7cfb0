ghost use Rattle.std.specs.Prelude.{◌≡◌, ◌<◌, ◌≤◌, ◌^◌, unsigned_abs};
ghost use Rattle.css_moments.specs.Steps.{extremes_at, lesser, after, test_rise, AreSmall};

use crate::fault::DriftFault;
use crate::numbers::{excess, lag, lead};
use css_model::LIMIT;

/// The last line of a schedule, with true time in nanoseconds.
#[derive(Clone, Copy)]
pub(crate) struct Last {
    pub line: u64,
    pub time: u64,
}

/// The smallest value so far, and the first line that had it.
#[derive(Clone, Copy)]
pub(crate) struct Least {
    pub line: u64,
    pub value: i128,
}

impl Least {
    /// The smaller of this value and that of a later line; of equals this one.
    fn lesser(self, later: Least) -> Least
        ensures { result ≡ lesser self later }
    {
        if later.value < self.value {
            later
        } else {
            self
        }
    }

    /// A later line's number may not be above this one by more than a nanosecond.
    pub(crate) fn test_rise(&self, now: &Least) -> Result<(), DriftFault>
        requires least { unsigned_abs self.now.value < 2 ^ 92 }
        requires now { unsigned_abs now.now.value < 2 ^ 92 }
        ensures { result ≡ test_rise self.now now.now }
    {
        let excess = excess(self.value, now.value);
        if excess > 0 {
            return Err(DriftFault::Broken {
                earlier: self.line,
                excess,
            });
        }
        Ok(())
    }
}

/// The smallest lead and the smallest lag of a clock so far.
#[derive(Clone, Copy)]
pub(crate) struct Extremes {
    pub lead: Least,
    pub lag: Least,
}

impl Extremes {
    /// The lead and the lag at one line.
    pub(crate) fn at(error: u32, line: u64, time: u64, value: u64) -> Extremes
        requires error { error ≤ 25600000 }
        requires time { time < LIMIT }
        requires value { value < LIMIT }
        ensures value { result ≡ extremes_at error line time value }
        ensures small { AreSmall result }
    {
        Extremes {
            lead: Least {
                line,
                value: lead(error, time, value),
            },
            lag: Least {
                line,
                value: lag(error, time, value),
            },
        }
    }

    /// The least numbers of the earlier lines, if there are any, and of this one.
    pub(crate) fn after(self, earlier: Option<Extremes>) -> Extremes
        ensures { result ≡ after earlier self }
    {
        match earlier {
            None => self,
            Some(earlier) => Extremes {
                lead: earlier.lead.lesser(self.lead),
                lag: earlier.lag.lesser(self.lag),
            },
        }
    }
}
