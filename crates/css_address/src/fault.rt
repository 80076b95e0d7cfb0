ghost use Rattle.std.specs.Prelude.{◌≡◌};
ghost use Rattle.css_address.specs.Faults.{parse_fault};
ghost use Rattle.css_address.specs.declared.fault.AddressFault.TheVariants as faults;

use css_num::Memory;
use std::error::Error;
use std::fmt;
use url::ParseError;

/// Why a text gives no address.
#[derive(Clone, Copy, Debug, PartialEq, Eq)]
pub enum AddressFault {
    /// It is no address of this kind.
    Bad,
    /// Memory ran out.
    Memory,
}

impl fmt::Display for AddressFault {
    ghost use Rattle.std.specs.Prelude.{Some};
    ghost use Rattle.css_address.specs.Faults.{fault_words};

    ghost output = { λ fault. Some (fault_words fault) };

    fn fmt<W: fmt::Write>(&self, f: &mut fmt::Formatter<W>) -> fmt::Result {
        match self {
            AddressFault::Bad => f.write_str("bad address"),
            AddressFault::Memory => Memory.fmt(f),
        }
    }
}

impl Error for AddressFault {}

impl From<Memory> for AddressFault {
    ghost from_gives = { λ _ fault. fault ≡ faults.Memory };

    fn from(_: Memory) -> AddressFault {
        AddressFault::Memory
    }
}

impl From<ParseError> for AddressFault {
    ghost from_gives = { λ error fault. fault ≡ parse_fault error };

    fn from(error: ParseError) -> AddressFault {
        match error {
            ParseError::OutOfMemory => AddressFault::Memory,
            // A URL of 4 GB.
            ParseError::Overflow => AddressFault::Memory,
            _ => AddressFault::Bad,
        }
    }
}
