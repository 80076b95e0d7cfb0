use css_num::Memory;
use std::error::Error;
use std::fmt;

/// Why a text is no JSON object.
#[derive(Clone, Copy, Debug, PartialEq, Eq, Hash)]
pub enum TextFault {
    /// The whole text has no reading as JSON: it is no UTF-8, breaks the
    /// grammar, nests deeper than 127 levels, or ends too soon.
    NotJson,
    /// It reads as another value than an object.
    NotObject,
    /// Want of memory.
    Memory,
}

impl fmt::Display for TextFault {
    ghost use Rattle.std.specs.Prelude.{Some};
    ghost use Rattle.css_text.specs.FaultWords.{fault_words};

    ghost output = { λ fault. Some (fault_words fault) };

    fn fmt<W: fmt::Write>(&self, f: &mut fmt::Formatter<W>) -> fmt::Result {
        f.write_str(match self {
            TextFault::NotJson => "not json",
            TextFault::NotObject => "not object",
            TextFault::Memory => "out of memory",
        })
    }
}

impl Error for TextFault {}

impl From<Memory> for TextFault {
    ghost use Rattle.std.specs.Prelude.{◌≡◌};
    ghost use Rattle.css_text.specs.declared.faults.TextFault.TheVariants as faults;

    ghost from_gives = { λ _ fault. fault ≡ faults.Memory };

    fn from(_: Memory) -> TextFault {
        TextFault::Memory
    }
}
