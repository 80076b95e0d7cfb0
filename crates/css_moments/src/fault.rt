use std::error::Error;
use std::fmt;

/// Why a line of a schedule can't be one of a world.
#[derive(Clone, Copy, Debug, PartialEq, Eq)]
pub enum DriftFault {
    /// True time fell since the last line, or the clock drifted from an earlier line by more than its oscillator's
    /// error allows.
    Broken {
        /// The number of the earlier line: the last one where true time fell; else the one with the greatest excess, of
        /// equals the first.
        earlier: u64,
        /// By how much, above 0: in nanoseconds where true time fell; else in 1/256,000,000 nanoseconds.
        excess: i128,
    },
}

impl fmt::Display for DriftFault {
    ghost use Rattle.std.specs.Prelude.{Some};
    ghost use Rattle.css_moments.specs.FaultWords.{fault_words};

    ghost output = { λ fault. Some (fault_words fault) };

    fn fmt<W: fmt::Write>(&self, f: &mut fmt::Formatter<W>) -> fmt::Result {
        match self {
            DriftFault::Broken { earlier, excess } => {
                write!(f, "broken with line {earlier} by {excess}")
            }
        }
    }
}

impl Error for DriftFault {}
