ghost use Rattle.std.specs.Prelude.{◌≡◌};
ghost use Rattle.css_schedule.specs.Owners.{is_own};

use css_num::{Kind, Rate, Text};
use css_player::Command;
use css_tsmsg::Bound;

/// What happens at a line. A reading is in nanoseconds, below 2^32 seconds, and a number is 1 to 2^32 - 1.
#[derive(Debug, Drop)]
pub enum Verb {
    /// The companion sends its next request, at this reading of its clock. Requests are numbered from 1.
    Ask {
        reading: u64,
    },
    /// The television receives a request, by number, at this reading of its clock. Takes are numbered from 1.
    Take {
        request: u32,
        reading: u64,
    },
    /// The television answers a take, by number, at this reading of its clock. Datagrams are numbered from 1.
    Give {
        take: u32,
        reading: u64,
    },
    /// A datagram, by number, lands at the companion, at this reading of its clock.
    Land {
        datagram: u32,
        reading: u64,
    },
    /// The span of the television's wall clock is printed, at this reading of the companion's clock.
    Wall {
        reading: u64,
    },
    /// The companion's report is printed, at this reading of its clock.
    Print {
        reading: u64,
    },
    /// The television adds a programme with this content id. Programmes are numbered from 1.
    Programme {
        content_id: Text,
    },
    /// The television adds a timeline to a programme, by number. Its rate is in ticks per second. Its base is the tick
    /// at the media position 0, and has at most 18 digits.
    Timeline {
        programme: u32,
        selector: Text,
        rate: Rate,
        base: i64,
    },
    /// A viewer's command, at this reading of the television's wall clock. A speed has at most 3 digits and a media
    /// position, in nanoseconds, at most 18.
    Viewer {
        reading: u64,
        command: Command,
    },
    /// The companion's session of this kind opens at both ends.
    Opening {
        kind: Kind,
    },
    /// The next text in flight to the companion, on its session of this kind, comes to it.
    Bring {
        kind: Kind,
    },
    /// The next text in flight to the television, on the TS session, comes to it.
    Up,
    /// The companion sends a presentation. Its earliest bound is never `PlusInfinity`, its latest never
    /// `MinusInfinity`; a content time has at most 18 digits, and a wall time is below 2^63 ns.
    Present {
        earliest: Bound,
        latest: Bound,
    },
    /// Both ends learn that the session of this kind closed. Its texts in flight are lost.
    Close {
        kind: Kind,
    },
    /// The companion slept, and wakes up. Version 1 has no such line.
    Sleep,
}

impl Verb {
    /// Whether a companion takes part in it. The line of any other gives no companion's clock.
    pub fn is_own(&self) -> bool
        ensures { result ≡ is_own self.now }
    {
        !matches!(
            self,
            Verb::Take { .. }
                | Verb::Give { .. }
                | Verb::Programme { .. }
                | Verb::Timeline { .. }
                | Verb::Viewer { .. }
        )
    }
}

/// A line of a schedule after the header. Its times are nanoseconds below 2^32 seconds.
#[derive(Drop)]
pub struct Line {
    /// True time.
    pub t: u64,
    /// What the television's wall clock shows.
    pub w: u64,
    /// The companion whose clock and event this is, by number from 1; 0 where it is the television's alone.
    pub who: u32,
    /// What that companion's clock shows; 0 where there is none.
    pub l: u64,
    /// What happens.
    pub verb: Verb,
}

/// A line of a television's script.
#[derive(Drop)]
pub struct ScriptLine {
    /// When it is due, by the television's wall clock, in nanoseconds below 2^32 seconds.
    pub due: u64,
    /// What happens then: a `Programme`, a `Timeline` or a `Viewer`. The reading of its `Viewer` is 0: the reading at
    /// which the line is carried out stands in its place.
    pub verb: Verb,
}
