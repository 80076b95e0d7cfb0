use std::alloc::AllocFailed;
use std::error::Error;
use std::fmt;

/// Why a forest of clocks refuses a call.
#[derive(Clone, Copy, Debug, PartialEq, Eq)]
pub enum ClockFault {
    /// There is no clock with this number.
    NoSuch(u32),
    /// There are 4,096 clocks.
    Full,
    /// The clock would have more than 16 clocks above it.
    Deep,
    /// This clock isn't available.
    Unavailable(u32),
    /// This clock has speed 0, so it doesn't tell its parent's ticks.
    Stopped(u32),
    /// The two clocks have different roots.
    NoCommon,
    /// The ticks of this clock are out of range.
    Beyond(u32),
    /// This clock is a root, so it has no correlation.
    IsRoot(u32),
    /// Want of memory.
    Memory,
}

impl<T: Drop> From<AllocFailed<T>> for ClockFault {
    ghost use Rattle.std.specs.Prelude.{◌≡◌};
    ghost use Rattle.css_tree.specs.declared.fault.ClockFault.TheVariants.{Memory};

    ghost from_gives = { λ _ fault. fault ≡ Memory };

    fn from(_: AllocFailed<T>) -> ClockFault {
        ClockFault::Memory
    }
}

impl fmt::Display for ClockFault {
    ghost use Rattle.std.specs.Prelude.{Some};
    ghost use Rattle.css_tree.specs.FaultWords.{fault_words};

    ghost output = { λ fault. Some (fault_words fault) };

    fn fmt<W: fmt::Write>(&self, f: &mut fmt::Formatter<W>) -> fmt::Result {
        match self {
            ClockFault::NoSuch(id) => write!(f, "there is no clock {id}"),
            ClockFault::Full => f.write_str("there are 4096 clocks"),
            ClockFault::Deep => f.write_str("the clock would have more than 16 clocks above it"),
            ClockFault::Unavailable(id) => write!(f, "clock {id} isn't available"),
            ClockFault::Stopped(id) => write!(f, "clock {id} is stopped"),
            ClockFault::NoCommon => f.write_str("the two clocks have different roots"),
            ClockFault::Beyond(id) => write!(f, "the ticks of clock {id} are out of range"),
            ClockFault::IsRoot(id) => write!(f, "clock {id} is a root"),
            ClockFault::Memory => f.write_str("out of memory"),
        }
    }
}

impl Error for ClockFault {}
