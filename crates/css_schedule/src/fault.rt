ghost use Rattle.std.specs.Prelude.{◌≡◌};
ghost use Rattle.css_schedule.specs.declared.fault.LineFault.TheVariants as faults;

use css_num::Memory;
use css_player::PlayerFault;
use std::error::Error;
use std::fmt;

/// Why bytes are no line of a schedule.
#[derive(Clone, Copy, Debug, PartialEq, Eq)]
pub enum LineFault {
    /// They are outside the grammar, or a number is outside its range.
    Form,
    /// Memory ran out.
    Memory,
}

impl fmt::Display for LineFault {
    ghost use Rattle.std.specs.Prelude.{Some};
    ghost use Rattle.css_schedule.specs.FaultWords.{fault_words};

    ghost output = { λ fault. Some (fault_words fault) };

    fn fmt<W: fmt::Write>(&self, f: &mut fmt::Formatter<W>) -> fmt::Result {
        f.write_str(match self {
            LineFault::Form => "no line of a schedule",
            LineFault::Memory => "out of memory",
        })
    }
}

impl Error for LineFault {}

impl From<Memory> for LineFault {
    ghost from_gives = { λ _ fault. fault ≡ faults.Memory };

    fn from(_: Memory) -> LineFault {
        LineFault::Memory
    }
}

/// Why a line of a schedule or a script ends the run.
#[derive(Clone, Copy, Debug, PartialEq, Eq)]
pub enum LineWhy {
    /// It has more bytes than a line of its version may have, or the first byte too many of the input stands in it.
    /// Version 1 has at most 4,096 bytes in a line and 67,108,864 in all. Version 2 has at most 4,096 bytes in line 1,
    /// 4,352 in each other one, and 134,217,728 in all.
    Long,
    /// It is outside the grammar, or a number is outside its range.
    Form,
    /// What it names isn't there: a request that wasn't sent, a take that wasn't made or has its answer, a datagram
    /// that wasn't made or answers another companion, a session that isn't open, or a text where none is in flight. A
    /// session that is opened a second time is told so too.
    Absent,
    /// The television's player refuses it. Want of memory never stands here.
    Player(PlayerFault),
}

impl fmt::Display for LineWhy {
    ghost use Rattle.std.specs.Prelude.{Some};
    ghost use Rattle.css_schedule.specs.FaultWords.{why_words};

    ghost output = { λ why. Some (why_words why) };

    fn fmt<W: fmt::Write>(&self, f: &mut fmt::Formatter<W>) -> fmt::Result {
        match self {
            LineWhy::Long => f.write_str("long"),
            LineWhy::Form => f.write_str("form"),
            LineWhy::Absent => f.write_str("absent"),
            LineWhy::Player(fault) => write!(f, "{fault}"),
        }
    }
}
