ghost use Rattle.std.specs.Prelude.{◌≡◌, ◌≤◌, ℕ, IfOk, List, Ok, map, string_bytes};
ghost use Rattle.std.specs.Str.{IsUtf8};
ghost use Rattle.clap.specs.Words.{found_of, rows_of};
ghost use Rattle.css_num.specs.Gives.{GivesBy};
ghost use Rattle.css_outside.specs.Limits.{IsLimit};
ghost use Rattle.css_words.specs.Watch as watch;
ghost use Rattle.css_words.specs.declared.fault.WordsFault.TheVariants as faults;

use crate::companion::{cii, options_in};
use crate::fault::WordsFault;
use crate::options::{Matches, matches_of};
use crate::words::WatchWords;
use clap::ArgMatches;
use css_outside::Limit;
use std::alloc::Global;

pub static OPTIONS: [&str; 8] = [
    "cii",
    "selector",
    "stem",
    "seconds",
    "report-every",
    "ask-every",
    "local-error",
    "local-precision",
];

/// How long a watch lasts that isn't told: a day.
const DEFAULT_SECONDS: u64 = 86_400;

// How many seconds a watch lasts. It has no option for turns, so that those are the default of a companion.
fn seconds_of(limit: Limit) -> u64
    requires { IsLimit limit }
    ensures value { result ≡ watch.seconds_of limit }
    ensures least { 1 ≤ result }
    ensures most { result ≤ 31536000 }
{
    match limit {
        Limit::Turns(_) => DEFAULT_SECONDS,
        Limit::Seconds(seconds) => seconds,
    }
}

fn watch_matches<'a>(alloc: Global, words: &'a [String]) -> Result<Matches<'a>, WordsFault>
    ensures { GivesBy (λ matches. rows_of (found_of matches.all)) faults.Memory result
        (watch.watch_rows (map string_bytes words.entry.now)) }
{
    matches_of(alloc, OPTIONS.as_slice(), &[], words)
}

// The watch that the matches of some words ask for.
#[tactic(auto, unfolding(crate::specs::Watch::watch_in))]
fn watch_from(alloc: Global, matches: &ArgMatches<'_>) -> Result<WatchWords, WordsFault>
    ensures value { (words : List (List ℕ)) → watch.watch_rows words ≡ Ok (rows_of (found_of matches.now))
        → GivesBy watch.watch_of faults.Memory result (watch.watch_in words) }
    ensures selector { IfOk result (λ words. IsUtf8 words.selector) }
    ensures stem { IfOk result (λ words. IsUtf8 words.stem) }
{
    let cii = cii(alloc, matches)?;
    let options = options_in(alloc, matches)?;
    let seconds = seconds_of(options.limit);
    Ok(WatchWords {
        cii,
        selector: options.selector,
        stem: options.stem,
        seconds,
        report_every: options.report_every,
        ask_every: options.ask_every,
        local_error: options.local_error,
        local_precision: options.local_precision,
    })
}

/// The watch that the words of `watch` ask for.
#[tactic(auto, unfolding(crate::specs::Watch::watch_in))]
pub fn watch_words(alloc: Global, words: &[String]) -> Result<WatchWords, WordsFault>
    ensures value { GivesBy watch.watch_of faults.Memory result (watch.watch_in (map string_bytes words.now)) }
    ensures selector { IfOk result (λ words. IsUtf8 words.selector) }
    ensures stem { IfOk result (λ words. IsUtf8 words.stem) }
{
    let matches = watch_matches(alloc, words)?;
    watch_from(alloc, &matches.all)
}
