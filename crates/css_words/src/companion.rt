ghost use Rattle.std.specs.Prelude.{◌≡◌, ◌≤◌, ℕ, IfOk, IfSome, List, Ok, codes, map, string_bytes};
ghost use Rattle.clap.specs.Words.{found_of, rows_of};
ghost use Rattle.css_num.specs.Gives.{GivesBy};
ghost use Rattle.css_words.specs.Companion as companion;
ghost use Rattle.css_words.specs.Written.{AreWritable, IsWindow};
ghost use Rattle.css_words.specs.declared.fault.WordsFault.TheVariants as faults;

use crate::bounds::{earliest, latest};
use crate::fault::WordsFault;
use crate::options::{
    Matches, NumberOption, is_set, matches_of, number_or, text_given, text_given_or,
};
use crate::recorded::check_recorded;
use crate::tv::limit;
use crate::words::{CompanionOptions, CompanionWords};
use clap::ArgMatches;
use css_address::{Address, Kind, address};
use css_num::Text;
use css_tsmsg::Bound;
use std::alloc::Global;

pub static OPTIONS: [&str; 12] = [
    "cii",
    "selector",
    "stem",
    "reports",
    "turns",
    "seconds",
    "report-every",
    "ask-every",
    "local-error",
    "local-precision",
    "earliest",
    "latest",
];

pub static FLAGS: [&str; 1] = ["record"];

pub const REPORTS: NumberOption = NumberOption {
    name: "reports",
    default: 10,
    least: 1,
    most: 1_000_000,
};

pub const REPORT_EVERY: NumberOption = NumberOption {
    name: "report-every",
    default: 1_000_000_000,
    least: 1,
    most: 1_000_000_000_000,
};

pub const ASK_EVERY: NumberOption = NumberOption {
    name: "ask-every",
    default: 1_000_000_000,
    least: 1,
    most: 1_000_000_000_000,
};

pub const LOCAL_ERROR: NumberOption = NumberOption {
    name: "local-error",
    default: 128_000,
    least: 0,
    most: 2_560_000,
};

pub const LOCAL_PRECISION: NumberOption = NumberOption {
    name: "local-precision",
    default: 1_000,
    least: 0,
    most: 1_000_000_000,
};

/// The timeline of a companion that isn't told one.
pub const DEFAULT_SELECTOR: &str = "urn:dvb:css:timeline:pts";

// How many reports are made.
fn reports(matches: &ArgMatches<'_>) -> Result<u64, WordsFault>
    ensures value { result ≡ companion.reports (rows_of (found_of matches.now)) }
    ensures least { IfOk result (λ reports. 1 ≤ reports) }
    ensures most { IfOk result (λ reports. reports ≤ 1000000) }
{
    number_or(matches, REPORTS)
}

// The time between two reports in nanoseconds.
fn report_every(matches: &ArgMatches<'_>) -> Result<u64, WordsFault>
    ensures value { result ≡ companion.period (codes "report-every") (rows_of (found_of matches.now)) }
    ensures least { IfOk result (λ period. 1 ≤ period) }
    ensures most { IfOk result (λ period. period ≤ 1000000000000) }
{
    number_or(matches, REPORT_EVERY)
}

/// The time between two requests of the wall clock in nanoseconds.
pub fn ask_every(matches: &ArgMatches<'_>) -> Result<u64, WordsFault>
    ensures value { result ≡ companion.period (codes "ask-every") (rows_of (found_of matches.now)) }
    ensures least { IfOk result (λ period. 1 ≤ period) }
    ensures most { IfOk result (λ period. period ≤ 1000000000000) }
{
    number_or(matches, ASK_EVERY)
}

/// The greatest frequency error of its own clock.
pub fn local_error(matches: &ArgMatches<'_>) -> Result<u32, WordsFault>
    ensures value { result ≡ companion.local_error (rows_of (found_of matches.now)) }
    ensures most { IfOk result (λ error. error ≤ 2560000) }
{
    let error = number_or(matches, LOCAL_ERROR)?;
    Ok(error as u32)
}

/// The precision of a reading of its own clock.
pub fn local_precision(matches: &ArgMatches<'_>) -> Result<u64, WordsFault>
    ensures value { result ≡ companion.local_precision (rows_of (found_of matches.now)) }
    ensures most { IfOk result (λ precision. precision ≤ 1000000000) }
{
    number_or(matches, LOCAL_PRECISION)
}

// Both bounds, whose texts are these.
#[tactic(auto, unfolding(crate::specs::Companion::window))]
fn window(earliest_text: &str, latest_text: &str) -> Result<(Bound, Bound), WordsFault>
    ensures value { result ≡ companion.window earliest_text.now latest_text.now }
    ensures range { IfOk result IsWindow }
{
    let earliest = earliest(earliest_text)?;
    let latest = latest(latest_text)?;
    Ok((earliest, latest))
}

/// The earliest and the latest time of presentation, where both were given.
pub fn present(matches: &ArgMatches<'_>) -> Result<Option<(Bound, Bound)>, WordsFault>
    ensures value { result ≡ companion.present (rows_of (found_of matches.now)) }
    ensures range { IfOk result (λ present. IfSome present IsWindow) }
{
    match (
        text_given(matches, "earliest"),
        text_given(matches, "latest"),
    ) {
        (None, None) => Ok(None),
        (Some(earliest), Some(latest)) => Ok(Some(window(earliest, latest)?)),
        _ => Err(WordsFault::Usage),
    }
}

/// What the options ask of a companion.
#[tactic(auto, unfolding(crate::specs::Companion::options_in))]
pub fn options_in(alloc: Global, matches: &ArgMatches<'_>) -> Result<CompanionOptions, WordsFault>
    ensures value { GivesBy companion.options_of faults.Memory result
        (companion.options_in (rows_of (found_of matches.now))) }
    ensures writable { IfOk result AreWritable }
{
    let reports = reports(matches)?;
    let limit = limit(matches)?;
    let report_every = report_every(matches)?;
    let ask_every = ask_every(matches)?;
    let local_error = local_error(matches)?;
    let local_precision = local_precision(matches)?;
    let present = present(matches)?;
    let selector = text_given_or(matches, "selector", DEFAULT_SELECTOR);
    let selector = Text::of(alloc, selector.as_bytes())?;
    let stem = text_given_or(matches, "stem", "");
    let stem = Text::of(alloc, stem.as_bytes())?;
    Ok(CompanionOptions {
        selector,
        stem,
        reports,
        limit,
        report_every,
        ask_every,
        local_error,
        local_precision,
        present,
    })
}

/// Where the television's session of CSS-CII is dialled.
pub fn cii(alloc: Global, matches: &ArgMatches<'_>) -> Result<Address, WordsFault>
    ensures { GivesBy (λ address. address) faults.Memory result (companion.cii (rows_of (found_of matches.now))) }
{
    match text_given(matches, "cii") {
        None => Err(WordsFault::Usage),
        Some(text) => Ok(address(alloc, Kind::Cii, text.as_bytes())?),
    }
}

fn companion_matches<'a>(alloc: Global, words: &'a [String]) -> Result<Matches<'a>, WordsFault>
    ensures { GivesBy (λ matches. rows_of (found_of matches.all)) faults.Memory result
        (companion.companion_rows (map string_bytes words.entry.now)) }
{
    matches_of(alloc, OPTIONS.as_slice(), FLAGS.as_slice(), words)
}

// The companion that the matches of some words ask for.
#[tactic(auto, unfolding(crate::specs::Companion::companion_in))]
fn companion_from(alloc: Global, matches: &ArgMatches<'_>) -> Result<CompanionWords, WordsFault>
    ensures value { (words : List (List ℕ)) → companion.companion_rows words ≡ Ok (rows_of (found_of matches.now))
        → GivesBy companion.companion_of faults.Memory result (companion.companion_in words) }
    ensures writable { IfOk result (λ words. AreWritable words.options) }
{
    let cii = cii(alloc, matches)?;
    let options = options_in(alloc, matches)?;
    let recorded = is_set(matches, "record");
    check_recorded(recorded, options.selector.bytes(), options.stem.bytes())?;
    Ok(CompanionWords {
        cii,
        options,
        recorded,
    })
}

/// The companion that the words of `companion` ask for.
#[tactic(auto, unfolding(crate::specs::Companion::companion_in))]
pub fn companion_words(alloc: Global, words: &[String]) -> Result<CompanionWords, WordsFault>
    ensures value { GivesBy companion.companion_of faults.Memory result
        (companion.companion_in (map string_bytes words.now)) }
    ensures writable { IfOk result (λ words. AreWritable words.options) }
{
    let matches = companion_matches(alloc, words)?;
    companion_from(alloc, &matches.all)
}
