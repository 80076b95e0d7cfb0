use crate::reader::{LineFault, Refusal};
use css_outside::{Failed, OutFault};
use std::alloc::AllocError;

/// Why a run over lines stopped before the end of its source.
#[derive(Clone, Copy, Debug, PartialEq, Eq, Drop)]
pub enum Stop<C> {
    /// The line of that number, counted from 1, is the first one that is refused.
    BadLine { line: u64, why: Refusal<C> },
    /// A read failed.
    ReadFault,
    /// A write failed.
    WriteFault,
    /// Memory ran out.
    Memory,
}

impl<C> From<Failed> for Stop<C> {
    ghost use Rattle.std.specs.Prelude.{◌≡◌};
    ghost use Rattle.css_lines.specs.declared.ending.Stop.TheVariants.{ReadFault};

    ghost from_gives = { λ _ stop. stop ≡ ReadFault };

    fn from(_: Failed) -> Stop<C> {
        Stop::ReadFault
    }
}

impl<C> From<OutFault> for Stop<C> {
    ghost use Rattle.std.specs.Prelude.{◌≡◌};
    ghost use Rattle.css_lines.specs.Progress.{sink_stop};

    ghost from_gives = { λ fault stop. stop ≡ sink_stop fault };

    fn from(fault: OutFault) -> Stop<C> {
        match fault {
            OutFault::Failed(_) => Stop::WriteFault,
            OutFault::Memory => Stop::Memory,
        }
    }
}

impl<C> From<AllocError> for Stop<C> {
    ghost use Rattle.std.specs.Prelude.{◌≡◌};
    ghost use Rattle.css_lines.specs.declared.ending.Stop.TheVariants.{Memory};

    ghost from_gives = { λ _ stop. stop ≡ Memory };

    fn from(_: AllocError) -> Stop<C> {
        Stop::Memory
    }
}

impl<C> Stop<C> {
    ghost use Rattle.std.specs.Prelude.{◌≡◌};
    ghost use Rattle.css_lines.specs.Progress.{line_stop};

    // The stop at the line of that number.
    pub fn at_line(line: u64, fault: LineFault<C>) -> Stop<C>
        ensures { result ≡ line_stop line fault }
    {
        match fault {
            LineFault::Refused(cause) => Stop::BadLine {
                line,
                why: Refusal::Refused(cause),
            },
            LineFault::Memory => Stop::Memory,
        }
    }

    // The stop at a line that is too long.
    pub fn too_long(line: u64) -> Stop<C>
        ensures { result ≡ Stop.BadLine line Refusal.Long }
    {
        Stop::BadLine {
            line,
            why: Refusal::Long,
        }
    }
}
