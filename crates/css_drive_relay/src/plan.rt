ghost use Rattle.std.specs.Prelude.{◌≡◌};
ghost use Rattle.css_drive_relay.specs.Ran.{nothing_begun, plan_of};

use crate::begun::Begun;
use crate::config::RelayRun;

/// What a visit of a relay is to do: its configuration, whose limit counts from the first visit, and what went before.
pub struct Plan {
    pub run: RelayRun,
    pub begun: Begun,
}

// By hand: a derived drop is opened at each exit of each caller's proof.
impl Drop for Plan {
    fn drop(self) {
        let Plan { run: _, begun: _ } = self;
    }
}

impl Plan {
    /// What the first visit is to do.
    pub fn new(run: RelayRun) -> Plan
        ensures { result ≡ plan_of run nothing_begun }
    {
        Plan {
            run,
            begun: Begun {
                turns: 0,
                first: None,
                turn: None,
                reached: false,
            },
        }
    }
}
