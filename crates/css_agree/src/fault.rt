ghost use Rattle.std.specs.Prelude.{◌≡◌};
ghost use Rattle.css_agree.specs.declared.fault.AgreeFault.TheVariants as faults;

use css_num::Memory;
use std::error::Error;
use std::fmt;

/// Why an answer wasn't added.
#[derive(Clone, Copy, Debug, PartialEq, Eq)]
pub enum AgreeFault {
    /// The answer's scaled width at the reading, which is below zero: its times contradict its precision and errors.
    Impossible(i128),
    /// Want of memory.
    Memory,
}

impl fmt::Display for AgreeFault {
    ghost use Rattle.std.specs.Prelude.{Some};
    ghost use Rattle.css_agree.specs.FaultWords.{fault_words};

    ghost output = { λ fault. Some (fault_words fault) };

    fn fmt<W: fmt::Write>(&self, f: &mut fmt::Formatter<W>) -> fmt::Result {
        match self {
            AgreeFault::Impossible(width) => write!(f, "impossible: the scaled width is {width}"),
            AgreeFault::Memory => f.write_str("out of memory"),
        }
    }
}

impl Error for AgreeFault {}

impl From<Memory> for AgreeFault {
    ghost from_gives = { λ _ fault. fault ≡ faults.Memory };

    fn from(_: Memory) -> AgreeFault {
        AgreeFault::Memory
    }
}
