ghost use Rattle.std.specs.Prelude.{◌≡◌};
ghost use Rattle.css_meaning.specs.Clocks.{broken_by};
ghost use Rattle.css_meaning.specs.Verdicts.{tv_fault};
ghost use Rattle.css_meaning.specs.declared.fault.WorldFault.TheVariants as faults;

use css_moments::DriftFault;
use css_num::Memory;
use css_player::PlayerFault;
use css_tv::TvFault;
use std::alloc::{AllocError, AllocFailed};
use std::error::Error;
use std::fmt;

/// Why a line of a schedule isn't carried out.
#[derive(Clone, Copy, Debug, PartialEq, Eq)]
pub enum WorldFault {
    /// Its numbers contradict those of an earlier line, or each other: true time fell, a clock drifted by more than its
    /// oscillator's error allows, a reading differs from its clock by more than the precision, or a reading fell.
    Broken {
        /// The number of the earlier line; the line's own where a reading differs from its clock.
        earlier: u64,
        /// By how much, above 0: in 1/256,000,000 nanoseconds where a clock drifted, and else in nanoseconds.
        excess: i128,
    },
    /// It names a request that wasn't sent, a take that wasn't made or has its answer, or a datagram that wasn't made;
    /// or a session that isn't open, or opens once more; or a text while none is in flight.
    Absent,
    /// The television's player refuses it. Want of memory never stands here.
    Player(PlayerFault),
    /// Memory ran out.
    Memory,
}

impl fmt::Display for WorldFault {
    ghost use Rattle.std.specs.Prelude.{Some};
    ghost use Rattle.css_meaning.specs.FaultWords.{fault_words};

    ghost output = { λ fault. Some (fault_words fault) };

    fn fmt<W: fmt::Write>(&self, f: &mut fmt::Formatter<W>) -> fmt::Result {
        match self {
            WorldFault::Broken { earlier, excess } => {
                write!(f, "broken with line {earlier} by {excess}")
            }
            WorldFault::Absent => f.write_str("absent"),
            WorldFault::Player(fault) => write!(f, "{fault}"),
            WorldFault::Memory => f.write_str("out of memory"),
        }
    }
}

impl Error for WorldFault {}

impl From<DriftFault> for WorldFault {
    ghost from_gives = { λ drift fault. fault ≡ broken_by drift };

    fn from(fault: DriftFault) -> WorldFault {
        match fault {
            DriftFault::Broken { earlier, excess } => WorldFault::Broken { earlier, excess },
        }
    }
}

impl From<TvFault> for WorldFault {
    ghost from_gives = { λ tv fault. fault ≡ tv_fault tv };

    fn from(fault: TvFault) -> WorldFault {
        match fault {
            TvFault::Player(fault) => WorldFault::Player(fault),
            TvFault::Memory => WorldFault::Memory,
        }
    }
}

impl From<Memory> for WorldFault {
    ghost from_gives = { λ _ fault. fault ≡ faults.Memory };

    fn from(_: Memory) -> WorldFault {
        WorldFault::Memory
    }
}

impl From<AllocError> for WorldFault {
    ghost from_gives = { λ _ fault. fault ≡ faults.Memory };

    fn from(_: AllocError) -> WorldFault {
        WorldFault::Memory
    }
}

impl<T: Drop> From<AllocFailed<T>> for WorldFault {
    ghost from_gives = { λ _ fault. fault ≡ faults.Memory };

    fn from(_: AllocFailed<T>) -> WorldFault {
        WorldFault::Memory
    }
}
