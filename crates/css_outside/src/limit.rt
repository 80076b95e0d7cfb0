ghost use Rattle.std.specs.Prelude.{◌≡◌, ◌<◌};
ghost use Rattle.css_model.specs.declared.TheConstants.{LIMIT};
ghost use Rattle.css_outside.specs.Limits as limits;

/// How long a run goes on where nothing else ends it.
#[derive(Clone, Copy, Debug, PartialEq, Eq, Hash)]
pub enum Limit {
    /// So many turns are made: 1 to 1,000,000.
    Turns(u64),
    /// The first turn that begins so many seconds after the first one is the last: 1 to 31,536,000.
    Seconds(u64),
}

impl Limit {
    /// The greatest number of turns. With seconds it is 2^40, so that a run ends over a clock that stands still too.
    pub fn most_turns(self) -> u64
        ensures { result ≡ limits.most_turns self }
    {
        match self {
            Limit::Turns(turns) => turns,
            Limit::Seconds(_) => 1_099_511_627_776,
        }
    }

    /// The least reading of a turn that is the last by its time, where the first one began at `first`.
    pub fn last_from(self, first: u64) -> u64 {
        match self {
            Limit::Turns(_) => u64::MAX,
            Limit::Seconds(seconds) => first.saturating_add(seconds.saturating_mul(1_000_000_000)),
        }
    }

    /// Whether a turn that begins at this reading is the last by its time, where the first one began at `first`.
    pub fn is_over(self, first: u64, reading: u64) -> bool
        requires limit { limits.IsLimit self }
        requires below { first < LIMIT }
        ensures { result ≡ limits.is_over self first reading }
    {
        match self {
            Limit::Turns(_) => false,
            Limit::Seconds(seconds) => first + seconds * 1_000_000_000 <= reading,
        }
    }
}
