ghost use Rattle.std.specs.Prelude.{◌≤◌, ◌<◌, ◌^◌, unwrap_or, pos, ◌≤ℤ◌};
ghost use Rattle.css_outside.specs.Limits.{IsLimit, IsLimit-prop};
ghost use Rattle.css_words.specs.Lines.{least_lines};

use css_address::Address;
use css_num::Text;
use css_outside::Limit;
use css_tsmsg::Bound;

/// Which schedule is to be generated.
#[derive(Clone, Copy, Debug, PartialEq, Eq)]
pub struct GeneratorWords {
    /// The seed: 0 to 2^63 - 1.
    pub seed: u64,
    /// How many lines it has, its header included: 9 to 200,000, and where the companions are told, at least 4 and 6
    /// for each of them.
    pub lines: u64,
    /// How many companions it has: 2 to 16. With `None` it has one, and is of version 1.
    pub companions: Option<u32>,
    pub ghost small_seed: { seed < 2 ^ 63 },
    pub ghost some_lines: { 9 ≤ lines },
    pub ghost few_lines: { lines ≤ 200000 },
    pub ghost some_companions: { 2 ≤ unwrap_or companions 2 },
    pub ghost few_companions: { unwrap_or companions 2 ≤ 16 },
    pub ghost lines_suffice: { least_lines companions ≤ lines },
}

/// What a television is started with.
#[derive(Drop)]
pub struct TvWords {
    /// The port of its wall clock: 1,024 to 65,534. The sessions' port is the next one.
    pub port: u16,
    /// How long it runs: 1 to 1,000,000 turns, or 1 to 31,536,000 seconds.
    pub limit: Limit,
    /// The precision of its wall clock: 2^precision seconds, with an exponent of -128 to 30.
    pub precision: i8,
    /// The greatest frequency error of its wall clock in 1/256 ppm, at most 25,600,000.
    pub error: u32,
    /// Whether its responses promise follow-ups.
    pub follow: bool,
    /// Whether the times of its script count from its first turn.
    pub relative: bool,
    /// The host that companions are told, which is UTF-8.
    pub host: Text,
    pub ghost least_port: { 1024 ≤ port },
    pub ghost most_port: { port ≤ 65534 },
    pub ghost limit_range: { IsLimit limit } by { IsLimit-prop limit },
    pub ghost fine: { precision ≤ℤ pos 30 },
    pub ghost small_error: { error ≤ 25600000 },
}

/// What a companion wants, wherever the television is.
#[derive(Drop)]
pub struct CompanionOptions {
    /// The timeline that it wants, in UTF-8.
    pub selector: Text,
    /// The beginning of the content ids that it wants, in UTF-8; the empty one is that of all.
    pub stem: Text,
    /// How many reports are made: 1 to 1,000,000.
    pub reports: u64,
    /// How long it runs at most: 1 to 1,000,000 turns, or 1 to 31,536,000 seconds.
    pub limit: Limit,
    /// The time between two reports in nanoseconds: 1 to 10^12.
    pub report_every: u64,
    /// The time between two requests of the wall clock in nanoseconds: 1 to 10^12.
    pub ask_every: u64,
    /// The greatest frequency error of its own clock in 1/256 ppm, at most 2,560,000.
    pub local_error: u32,
    /// How far a reading of its own clock may be off, in nanoseconds: at most 10^9.
    pub local_precision: u64,
    /// The earliest and the latest time at which it can present, if it tells them. The earliest is never
    /// `PlusInfinity` and the latest never `MinusInfinity`.
    pub present: Option<(Bound, Bound)>,
    pub ghost some_reports: { 1 ≤ reports },
    pub ghost few_reports: { reports ≤ 1000000 },
    pub ghost limit_range: { IsLimit limit } by { IsLimit-prop limit },
    pub ghost reports_apart: { 1 ≤ report_every },
    pub ghost reports_come: { report_every ≤ 1000000000000 },
    pub ghost requests_apart: { 1 ≤ ask_every },
    pub ghost requests_come: { ask_every ≤ 1000000000000 },
    pub ghost small_error: { local_error ≤ 2560000 },
    pub ghost small_precision: { local_precision ≤ 1000000000 },
}

/// A companion of the television at an address.
#[derive(Drop)]
pub struct CompanionWords {
    /// Where the television's session of CSS-CII is dialled.
    pub cii: Address,
    pub options: CompanionOptions,
    /// Whether it writes the record of its run in the place of its reports. Then the selector is a word, and the stem
    /// is a word other than `-` or empty. A word is one byte or more, each from `!` to `~`.
    pub recorded: bool,
}

/// A companion that stays with the television at an address.
#[derive(Drop)]
pub struct WatchWords {
    /// Where the television's sessions of CSS-CII are dialled, one after the other.
    pub cii: Address,
    /// The timeline that it wants, in UTF-8.
    pub selector: Text,
    /// The beginning of the content ids that it wants, in UTF-8; the empty one is that of all.
    pub stem: Text,
    /// How long it lasts in seconds: 1 to 31,536,000.
    pub seconds: u64,
    /// The time between two reports in nanoseconds: 1 to 10^12.
    pub report_every: u64,
    /// The time between two requests of the wall clock in nanoseconds: 1 to 10^12.
    pub ask_every: u64,
    /// The greatest frequency error of its own clock in 1/256 ppm, at most 2,560,000.
    pub local_error: u32,
    /// How far a reading of its own clock may be off, in nanoseconds: at most 10^9.
    pub local_precision: u64,
    pub ghost some_seconds: { 1 ≤ seconds },
    pub ghost few_seconds: { seconds ≤ 31536000 },
    pub ghost reports_apart: { 1 ≤ report_every },
    pub ghost reports_come: { report_every ≤ 1000000000000 },
    pub ghost requests_apart: { 1 ≤ ask_every },
    pub ghost requests_come: { ask_every ≤ 1000000000000 },
    pub ghost small_error: { local_error ≤ 2560000 },
    pub ghost small_precision: { local_precision ≤ 1000000000 },
}

/// A television and a companion of it. The companion's limit is the television's too.
#[derive(Drop)]
pub struct PairWords {
    pub companion: CompanionOptions,
    pub tv: TvWords,
}

/// A relay of the television at an address.
#[derive(Drop)]
pub struct RelayWords {
    /// Where the television's session of CSS-CII is dialled.
    pub cii: Address,
    /// The port of its own wall clock and sessions: 1,024 to 65,534.
    pub port: u16,
    /// How long it runs: 1 to 1,000,000 turns, or 1 to 31,536,000 seconds.
    pub limit: Limit,
    /// The time between two requests of the television's wall clock in nanoseconds: 1 to 10^12.
    pub ask_every: u64,
    /// The greatest frequency error of its own clock in 1/256 ppm, at most 2,560,000.
    pub local_error: u32,
    /// How far a reading of its own clock may be off, in nanoseconds: at most 10^9.
    pub local_precision: u64,
    /// The host that companions are told, which is UTF-8.
    pub host: Text,
    pub ghost least_port: { 1024 ≤ port },
    pub ghost most_port: { port ≤ 65534 },
    pub ghost limit_range: { IsLimit limit } by { IsLimit-prop limit },
    pub ghost requests_apart: { 1 ≤ ask_every },
    pub ghost requests_come: { ask_every ≤ 1000000000000 },
    pub ghost small_error: { local_error ≤ 2560000 },
    pub ghost small_precision: { local_precision ≤ 1000000000 },
}

/// What numbers a relay is started with.
#[derive(Clone, Copy)]
pub(crate) struct RelayNumbers {
    pub(crate) port: u16,
    pub(crate) limit: Limit,
    pub(crate) ask_every: u64,
    pub(crate) local_error: u32,
    pub(crate) local_precision: u64,
    pub(crate) ghost least_port: { 1024 ≤ port },
    pub(crate) ghost most_port: { port ≤ 65534 },
    pub(crate) ghost limit_range: { IsLimit limit } by { IsLimit-prop limit },
    pub(crate) ghost requests_apart: { 1 ≤ ask_every },
    pub(crate) ghost requests_come: { ask_every ≤ 1000000000000 },
    pub(crate) ghost small_error: { local_error ≤ 2560000 },
    pub(crate) ghost small_precision: { local_precision ≤ 1000000000 },
}
