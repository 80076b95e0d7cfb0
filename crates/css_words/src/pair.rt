ghost use Rattle.std.specs.Prelude.{◌≡◌, ℕ, IfOk, List, Ok, map, string_bytes};
ghost use Rattle.std.specs.Str.{IsUtf8};
ghost use Rattle.clap.specs.Words.{found_of, rows_of};
ghost use Rattle.css_num.specs.Gives.{GivesBy};
ghost use Rattle.css_words.specs.Pair as pair;
ghost use Rattle.css_words.specs.Written.{AreWritable};
ghost use Rattle.css_words.specs.declared.fault.WordsFault.TheVariants as faults;

use crate::companion::options_in;
use crate::fault::WordsFault;
use crate::options::{Matches, matches_of};
use crate::tv::{FLAGS, LOCAL_HOST, tv_at};
use crate::words::PairWords;
use clap::ArgMatches;
use css_num::Text;
use std::alloc::Global;

pub static OPTIONS: [&str; 14] = [
    "selector",
    "stem",
    "reports",
    "turns",
    "seconds",
    "report-every",
    "ask-every",
    "local-error",
    "local-precision",
    "earliest",
    "latest",
    "port",
    "precision",
    "error",
];

fn pair_matches<'a>(alloc: Global, words: &'a [String]) -> Result<Matches<'a>, WordsFault>
    ensures { GivesBy (λ matches. rows_of (found_of matches.all)) faults.Memory result
        (pair.pair_rows (map string_bytes words.entry.now)) }
{
    matches_of(alloc, OPTIONS.as_slice(), FLAGS.as_slice(), words)
}

// The television and the companion that the matches of some words ask for.
#[tactic(auto, unfolding(crate::specs::Pair::pair_in))]
fn pair_from(alloc: Global, matches: &ArgMatches<'_>) -> Result<PairWords, WordsFault>
    ensures value { (words : List (List ℕ)) → pair.pair_rows words ≡ Ok (rows_of (found_of matches.now))
        → GivesBy pair.pair_of faults.Memory result (pair.pair_in words) }
    ensures utf8 { IfOk result (λ words. IsUtf8 words.tv.host) }
    ensures writable { IfOk result (λ words. AreWritable words.companion) }
{
    let companion = options_in(alloc, matches)?;
    let host = Text::of(alloc, LOCAL_HOST.as_bytes())?;
    let tv = tv_at(matches, host)?;
    Ok(PairWords { companion, tv })
}

/// The television and the companion that the words of `pair` ask for. Only this machine can reach the television.
#[tactic(auto, unfolding(crate::specs::Pair::pair_in))]
pub fn pair_words(alloc: Global, words: &[String]) -> Result<PairWords, WordsFault>
    ensures value { GivesBy pair.pair_of faults.Memory result (pair.pair_in (map string_bytes words.now)) }
    ensures utf8 { IfOk result (λ words. IsUtf8 words.tv.host) }
    ensures writable { IfOk result (λ words. AreWritable words.companion) }
{
    let matches = pair_matches(alloc, words)?;
    pair_from(alloc, &matches.all)
}
