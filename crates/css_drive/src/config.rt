ghost use Rattle.std.specs.Prelude.{◌≤◌};
ghost use Rattle.css_outside.specs.Limits.{IsLimit, IsLimit-prop};

use css_companion::CompanionConfig;
use css_outside::{Address, Limit};
use css_tsmsg::Bound;

/// What a companion's run is to do.
pub struct DriveConfig {
    /// What the companion wants of the television, and its own clock. Both of its texts are UTF-8.
    pub companion: CompanionConfig,
    /// Where the television's session of CSS-CII is dialled.
    pub cii: Address,
    /// How many reports are made: 1 to 1,000,000.
    pub reports: u64,
    /// How long the run goes on while reports are to be made.
    pub limit: Limit,
    /// The time between two reports in nanoseconds: 1 to 10^12.
    pub report_every: u64,
    /// The time between two requests of the wall clock in nanoseconds: 1 to 10^12.
    pub ask_every: u64,
    /// The earliest and the latest time at which the companion can present, if it tells them. The earliest is never
    /// `PlusInfinity` and the latest never `MinusInfinity`.
    pub present: Option<(Bound, Bound)>,
    pub ghost some_reports: { 1 ≤ reports },
    pub ghost few_reports: { reports ≤ 1000000 },
    pub ghost limit_range: { IsLimit limit } by { IsLimit-prop limit },
    pub ghost reports_apart: { 1 ≤ report_every },
    pub ghost reports_come: { report_every ≤ 1000000000000 },
    pub ghost requests_apart: { 1 ≤ ask_every },
    pub ghost requests_come: { ask_every ≤ 1000000000000 },
}

// By hand: a derived drop is opened at each exit of each caller's proof.
impl Drop for DriveConfig {
    fn drop(self) {
        let DriveConfig {
            companion: _,
            cii: _,
            reports: _,
            limit: _,
            report_every: _,
            ask_every: _,
            present: _,
        } = self;
    }
}
