use crate::name::TsName;
use css_num::Memory;
use css_text::TextFault;
use std::error::Error;
use std::fmt;

/// Why a text is refused. Of several faults the first of these is told.
#[derive(Clone, Copy, Debug, PartialEq, Eq)]
pub enum TsFault {
    /// Its whole text has no reading as JSON.
    NotJson,
    /// It reads as another value than an object.
    NotObject,
    /// The speed of a control timestamp is null in the whole text, and some numeral of the text isn't whole. Speeds are
    /// whole here.
    Fractional,
    /// A member is missing or has another form than it should. Of several the first is told.
    Field(TsName),
    /// The number of a member is out of range, where all members have their forms. Of several the first is told.
    Range(TsName),
    /// Want of memory.
    Memory,
}

impl fmt::Display for TsFault {
    ghost use Rattle.std.specs.Prelude.{Some};
    ghost use Rattle.css_tsmsg.specs.FaultWords.{fault_words};

    ghost output = { λ fault. Some (fault_words fault) };

    fn fmt<W: fmt::Write>(&self, f: &mut fmt::Formatter<W>) -> fmt::Result {
        match self {
            TsFault::NotJson => f.write_str("not json"),
            TsFault::NotObject => f.write_str("not object"),
            TsFault::Fractional => f.write_str("fractional"),
            TsFault::Field(name) => write!(f, "field {name}"),
            TsFault::Range(name) => write!(f, "range {name}"),
            TsFault::Memory => f.write_str("out of memory"),
        }
    }
}

impl Error for TsFault {}

impl From<Memory> for TsFault {
    ghost use Rattle.std.specs.Prelude.{◌≡◌};
    ghost use Rattle.css_tsmsg.specs.declared.fault.TsFault.TheVariants as faults;

    ghost from_gives = { λ _ fault. fault ≡ faults.Memory };

    fn from(_: Memory) -> TsFault {
        TsFault::Memory
    }
}

impl From<TextFault> for TsFault {
    ghost use Rattle.std.specs.Prelude.{◌≡◌};
    ghost use Rattle.css_tsmsg.specs.Faults.{text_fault};

    ghost from_gives = { λ text fault. fault ≡ text_fault text };

    fn from(fault: TextFault) -> TsFault {
        match fault {
            TextFault::NotJson => TsFault::NotJson,
            TextFault::NotObject => TsFault::NotObject,
            TextFault::Memory => TsFault::Memory,
        }
    }
}
