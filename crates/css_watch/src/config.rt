ghost use Rattle.std.specs.Prelude.{◌≤◌};

use css_companion::CompanionConfig;
use css_outside::Address;

/// What a watch is to do.
#[derive(Drop)]
pub struct WatchConfig {
    /// What each visit's companion wants of the television, and its own clock. Both of its texts are UTF-8.
    pub companion: CompanionConfig,
    /// Where the television's session of CSS-CII is dialled.
    pub cii: Address,
    /// The first turn that begins so many seconds after the first one is the last: 1 to 31,536,000.
    pub seconds: u64,
    /// The time between two reports in nanoseconds: 1 to 10^12.
    pub report_every: u64,
    /// The time between two requests of the wall clock in nanoseconds: 1 to 10^12.
    pub ask_every: u64,
    pub ghost some_seconds: { 1 ≤ seconds },
    pub ghost few_seconds: { seconds ≤ 31536000 },
    pub ghost reports_apart: { 1 ≤ report_every },
    pub ghost reports_come: { report_every ≤ 1000000000000 },
    pub ghost requests_apart: { 1 ≤ ask_every },
    pub ghost requests_come: { ask_every ≤ 1000000000000 },
}
