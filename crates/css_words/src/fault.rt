ghost use Rattle.std.specs.Prelude.{◌≡◌};
ghost use Rattle.clap.specs.Words.{kind_of};
ghost use Rattle.css_words.specs.Faults.{address_fault, parse_fault};
ghost use Rattle.css_words.specs.declared.fault.WordsFault.TheVariants as faults;

use clap::error::ErrorKind;
use css_address::AddressFault;
use css_num::Memory;
use std::alloc::AllocError;
use std::error::Error;
use std::fmt;

/// Why words give no command.
#[derive(Clone, Copy, Debug, PartialEq, Eq)]
pub enum WordsFault {
    /// They are the words of no command.
    Usage,
    /// Memory ran out.
    Memory,
}

impl fmt::Display for WordsFault {
    ghost use Rattle.std.specs.Prelude.{Some};
    ghost use Rattle.css_words.specs.Faults.{fault_words};

    ghost output = { λ fault. Some (fault_words fault) };

    fn fmt<W: fmt::Write>(&self, f: &mut fmt::Formatter<W>) -> fmt::Result {
        match self {
            WordsFault::Usage => f.write_str("usage"),
            WordsFault::Memory => Memory.fmt(f),
        }
    }
}

impl Error for WordsFault {}

impl From<Memory> for WordsFault {
    ghost from_gives = { λ _ fault. fault ≡ faults.Memory };

    fn from(_: Memory) -> WordsFault {
        WordsFault::Memory
    }
}

impl From<AllocError> for WordsFault {
    ghost from_gives = { λ _ fault. fault ≡ faults.Memory };

    fn from(_: AllocError) -> WordsFault {
        WordsFault::Memory
    }
}

impl From<clap::Error> for WordsFault {
    ghost from_gives = { λ error fault. fault ≡ parse_fault (kind_of error) };

    fn from(error: clap::Error) -> WordsFault {
        match error.kind() {
            ErrorKind::OutOfMemory => WordsFault::Memory,
            _ => WordsFault::Usage,
        }
    }
}

impl From<AddressFault> for WordsFault {
    ghost from_gives = { λ error fault. fault ≡ address_fault error };

    fn from(error: AddressFault) -> WordsFault {
        match error {
            AddressFault::Bad => WordsFault::Usage,
            AddressFault::Memory => WordsFault::Memory,
        }
    }
}
