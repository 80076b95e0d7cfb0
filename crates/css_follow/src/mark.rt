ghost use Rattle.std.specs.Prelude.{◌≡◌};
ghost use Rattle.css_follow.specs.Standing.{mark_at, later};

use css_companion::Report;

/// How near the reports have come to a cue.
#[derive(Clone, Copy, Debug, PartialEq, Eq)]
pub enum Mark {
    /// No report has reached it.
    Ahead,
    /// A report may have reached it, and none has passed it.
    Possible,
    /// A report has passed it.
    Passed,
}

impl Mark {
    /// How near a report comes to a tick.
    pub fn at(tick: i64, report: &Report) -> Mark
        ensures { result ≡ mark_at tick report.now }
    {
        match report {
            Report::Ticks { lo, hi } => {
                let tick = i128::from(tick);
                if tick <= *lo {
                    Mark::Passed
                } else if tick <= *hi {
                    Mark::Possible
                } else {
                    Mark::Ahead
                }
            }
            Report::None(_) => Mark::Ahead,
        }
    }

    /// The nearer of two.
    pub fn later(self, other: Mark) -> Mark
        ensures { result ≡ later self other }
    {
        match (self, other) {
            (Mark::Passed, _) | (_, Mark::Passed) => Mark::Passed,
            (Mark::Possible, _) | (_, Mark::Possible) => Mark::Possible,
            (Mark::Ahead, Mark::Ahead) => Mark::Ahead,
        }
    }
}
