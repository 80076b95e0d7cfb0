ghost use Rattle.std.specs.Prelude.{◌≤◌};
ghost use Rattle.css_outside.specs.Limits.{IsLimit, IsLimit-prop};

use css_companion::CompanionConfig;
use css_num::Text;
use css_outside::{Address, Limit};

/// What a relay's run is to do.
pub struct RelayRun {
    /// What the relay is told of itself as a companion: its own clock. Both of its texts are UTF-8.
    pub companion: CompanionConfig,
    /// Where the television's session of CSS-CII is dialled.
    pub cii: Address,
    /// The host under which further companions reach the relay, in UTF-8.
    pub host: Text,
    /// The port on which it listens.
    pub port: u16,
    /// How long turns are made.
    pub limit: Limit,
    /// The time between two requests of the television's wall clock in nanoseconds: 1 to 10^12.
    pub ask_every: u64,
    pub ghost limit_range: { IsLimit limit } by { IsLimit-prop limit },
    pub ghost requests_apart: { 1 ≤ ask_every },
    pub ghost requests_come: { ask_every ≤ 1000000000000 },
}

// By hand: a derived drop is opened at each exit of each caller's proof.
impl Drop for RelayRun {
    fn drop(self) {
        let RelayRun {
            companion: _,
            cii: _,
            host: _,
            port: _,
            limit: _,
            ask_every: _,
        } = self;
    }
}
