use css_num::Memory;
use css_player::PlayerFault;
use std::error::Error;
use std::fmt;

/// Why an event is refused.
#[derive(Clone, Copy, Debug, PartialEq, Eq)]
pub enum TvFault {
    /// The player refuses it. Want of memory never stands here.
    Player(PlayerFault),
    /// Want of memory.
    Memory,
}

impl fmt::Display for TvFault {
    ghost use Rattle.std.specs.Prelude.{Some};
    ghost use Rattle.css_tv.specs.FaultWords.{fault_words};

    ghost output = { λ fault. Some (fault_words fault) };

    fn fmt<W: fmt::Write>(&self, f: &mut fmt::Formatter<W>) -> fmt::Result {
        match self {
            TvFault::Player(fault) => write!(f, "{fault}"),
            TvFault::Memory => f.write_str("out of memory"),
        }
    }
}

impl Error for TvFault {}

impl From<Memory> for TvFault {
    ghost use Rattle.std.specs.Prelude.{◌≡◌};
    ghost use Rattle.css_tv.specs.declared.fault.TvFault.TheVariants as faults;

    ghost from_gives = { λ _ fault. fault ≡ faults.Memory };

    fn from(_: Memory) -> TvFault {
        TvFault::Memory
    }
}

impl From<PlayerFault> for TvFault {
    ghost use Rattle.std.specs.Prelude.{◌≡◌};
    ghost use Rattle.css_tv.specs.Outcomes.{tv_fault};

    ghost from_gives = { λ player_fault fault. fault ≡ tv_fault player_fault };

    fn from(fault: PlayerFault) -> TvFault {
        match fault {
            PlayerFault::Memory => TvFault::Memory,
            PlayerFault::NoProgramme => TvFault::Player(PlayerFault::NoProgramme),
            PlayerFault::Speed => TvFault::Player(PlayerFault::Speed),
            PlayerFault::Range => TvFault::Player(PlayerFault::Range),
            PlayerFault::Full => TvFault::Player(PlayerFault::Full),
        }
    }
}
