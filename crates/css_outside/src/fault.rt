ghost use Rattle.std.specs.Prelude.{◌≡◌};
ghost use Rattle.css_outside.specs.declared.fault.OutFault.{OutFault};
ghost use Rattle.css_outside.specs.declared.fault.OutFault.TheVariants as fault;
ghost use Rattle.css_model.specs.declared.Failure.TheVariants as failure;

use css_model::Failure;
use css_num::Memory;
use std::error::Error;
use std::fmt;

/// The device failed.
#[derive(Clone, Copy, Debug, PartialEq, Eq, Hash)]
pub struct Failed;

impl fmt::Display for Failed {
    ghost use Rattle.std.specs.Prelude.{Some, codes};

    ghost output = { λ _. Some (codes "the device failed") };

    fn fmt<W: fmt::Write>(&self, f: &mut fmt::Formatter<W>) -> fmt::Result {
        f.write_str("the device failed")
    }
}

impl Error for Failed {}

/// Why a device took nothing more. Want of memory is no fault of the device: its count of faults stays as it was.
#[derive(Clone, Copy, Debug, PartialEq, Eq, Hash)]
pub enum OutFault {
    /// The device failed, and its count of faults has risen. The system said this of it.
    Failed(Failure),
    /// Memory ran out.
    Memory,
}

impl fmt::Display for OutFault {
    ghost use Rattle.std.specs.Prelude.{Some};
    ghost use Rattle.css_outside.specs.FaultWords.{fault_words};

    ghost output = { λ fault. Some (fault_words fault) };

    fn fmt<W: fmt::Write>(&self, f: &mut fmt::Formatter<W>) -> fmt::Result {
        match self {
            OutFault::Failed(_) => Failed.fmt(f),
            OutFault::Memory => Memory.fmt(f),
        }
    }
}

impl Error for OutFault {}

impl From<Failed> for OutFault {
    ghost from_gives = { λ _ answer. answer ≡ fault.Failed failure.Other };

    fn from(_: Failed) -> OutFault {
        OutFault::Failed(Failure::Other)
    }
}

impl From<Memory> for OutFault {
    ghost from_gives = { λ _ answer. answer ≡ fault.Memory };

    fn from(_: Memory) -> OutFault {
        OutFault::Memory
    }
}
