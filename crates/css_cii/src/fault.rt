use crate::name::CiiName;
use css_num::Memory;
use css_text::TextFault;
use std::error::Error;
use std::fmt;

/// Why a message is refused.
#[derive(Clone, Copy, Debug, PartialEq, Eq)]
pub enum CiiFault {
    /// Its whole text has no reading as JSON.
    NotJson,
    /// It reads as another value than an object.
    NotObject,
    /// A property has another form than it should. Of several the first is told, in the order of
    /// [`State`](crate::State).
    Field(CiiName),
    /// Want of memory.
    Memory,
}

impl fmt::Display for CiiFault {
    ghost use Rattle.std.specs.Prelude.{Some};
    ghost use Rattle.css_cii.specs.FaultWords.{fault_words};

    ghost output = { λ fault. Some (fault_words fault) };

    fn fmt<W: fmt::Write>(&self, f: &mut fmt::Formatter<W>) -> fmt::Result {
        match self {
            CiiFault::NotJson => f.write_str("not json"),
            CiiFault::NotObject => f.write_str("not object"),
            CiiFault::Field(name) => write!(f, "field {name}"),
            CiiFault::Memory => f.write_str("out of memory"),
        }
    }
}

impl Error for CiiFault {}

impl From<Memory> for CiiFault {
    ghost use Rattle.std.specs.Prelude.{◌≡◌};
    ghost use Rattle.css_cii.specs.declared.fault.CiiFault.TheVariants as faults;

    ghost from_gives = { λ _ fault. fault ≡ faults.Memory };

    fn from(_: Memory) -> CiiFault {
        CiiFault::Memory
    }
}

impl From<TextFault> for CiiFault {
    ghost use Rattle.std.specs.Prelude.{◌≡◌};
    ghost use Rattle.css_cii.specs.Messages.{text_fault};

    ghost from_gives = { λ text fault. fault ≡ text_fault text };

    fn from(fault: TextFault) -> CiiFault {
        match fault {
            TextFault::NotJson => CiiFault::NotJson,
            TextFault::NotObject => CiiFault::NotObject,
            TextFault::Memory => CiiFault::Memory,
        }
    }
}
