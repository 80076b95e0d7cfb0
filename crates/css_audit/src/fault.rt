ghost use Rattle.std.specs.Prelude.{◌≡◌};
ghost use Rattle.css_audit.specs.Faults.{read_fault, told_fault};
ghost use Rattle.css_audit.specs.declared.fault.AuditFault.TheVariants as faults;

use css_cii::{CiiFault, CiiName};
use css_companion::{CompanionFault, Report};
use css_num::{Memory, Text};
use css_schedule::LineFault;
use std::error::Error;
use std::fmt;

/// Why a line of a record is refused, in the order in which it is tested.
#[derive(Debug, Drop)]
pub enum AuditFault {
    /// It is no line of a record, or a number of it is out of range.
    Form,
    /// Its reading is too small, by so many nanoseconds: below that of the line with the earlier number, or not above
    /// it, though the companion slept in between.
    Broken {
        earlier: u64,
        excess: i128,
    },
    /// It is a report that doesn't stand directly after a turn.
    Absent,
    /// The CII text with this number, counted from 1, has this fault, which is never `Memory`.
    BadCii {
        text: u64,
        fault: CiiFault,
    },
    /// A CII text moves this address, `wcUrl` or `tsUrl`, from one value to another.
    Moved {
        property: CiiName,
        old: Text,
        new: Text,
    },
    /// It isn't the report of what was told before it. This is.
    WrongReport {
        right: Report,
    },
    /// Want of memory.
    Memory,
}

impl fmt::Display for AuditFault {
    ghost use Rattle.std.specs.Prelude.{Some};
    ghost use Rattle.css_audit.specs.FaultWords.{fault_words};

    ghost output = { λ fault. Some (fault_words fault) };

    fn fmt<W: fmt::Write>(&self, f: &mut fmt::Formatter<W>) -> fmt::Result {
        match self {
            AuditFault::Form => f.write_str("form"),
            AuditFault::Broken { earlier, excess } => {
                write!(f, "broken with line {earlier} by {excess}")
            }
            AuditFault::Absent => f.write_str("absent"),
            AuditFault::BadCii { text, fault } => write!(f, "cii text {text}: {fault}"),
            AuditFault::Moved { property, .. } => write!(f, "moved {property}"),
            AuditFault::WrongReport { .. } => f.write_str("wrong report"),
            AuditFault::Memory => f.write_str("out of memory"),
        }
    }
}

impl Error for AuditFault {}

impl From<Memory> for AuditFault {
    ghost from_gives = { λ _ fault. fault ≡ faults.Memory };

    fn from(_: Memory) -> AuditFault {
        AuditFault::Memory
    }
}

impl From<LineFault> for AuditFault {
    ghost from_gives = { λ unread fault. fault ≡ read_fault unread };

    fn from(fault: LineFault) -> AuditFault {
        match fault {
            LineFault::Form => AuditFault::Form,
            LineFault::Memory => AuditFault::Memory,
        }
    }
}

impl From<CompanionFault> for AuditFault {
    ghost from_gives = { λ told fault. fault ≡ told_fault told };

    fn from(fault: CompanionFault) -> AuditFault {
        match fault {
            CompanionFault::BadCii { text, fault } => AuditFault::BadCii { text, fault },
            CompanionFault::Moved { property, old, new } => AuditFault::Moved {
                property,
                old,
                new,
            },
            CompanionFault::Memory => AuditFault::Memory,
        }
    }
}
