ghost use Rattle.std.specs.Prelude.{◌≡◌, ◌≤◌, IfOk, map, string_bytes, unwrap_or};
ghost use Rattle.clap.specs.Words.{found_of, rows_of};
ghost use Rattle.css_num.specs.Gives.{GivesBy};
ghost use Rattle.css_words.specs.Generator as generator;
ghost use Rattle.css_words.specs.Lines as lines;
ghost use Rattle.css_words.specs.declared.fault.WordsFault.TheVariants as faults;

use crate::fault::WordsFault;
use crate::options::{Matches, matches_of, number, number_in, text_given};
use crate::words::GeneratorWords;
use clap::ArgMatches;
use std::alloc::Global;

pub static OPTIONS: [&str; 3] = ["seed", "lines", "companions"];

pub const MOST_SEED: u64 = (1 << 63) - 1;

pub const MOST_LINES: u64 = 200_000;

/// How many companions the schedule has, where it is told.
pub fn companions(matches: &ArgMatches<'_>) -> Result<Option<u32>, WordsFault>
    ensures value { result ≡ generator.companions (rows_of (found_of matches.now)) }
    ensures least { IfOk result (λ companions. 2 ≤ unwrap_or companions 2) }
    ensures most { IfOk result (λ companions. unwrap_or companions 2 ≤ 16) }
{
    match text_given(matches, "companions") {
        None => Ok(None),
        Some(text) => {
            let count = number_in(text, 2, 16)?;
            Ok(Some(count as u32))
        }
    }
}

/// How many lines the schedule has at least: its header, a line for each companion told, three of the television, and
/// five that open the sessions of a companion.
pub fn least_lines(companions: Option<u32>) -> u64
    requires some { 2 ≤ unwrap_or companions 2 }
    ensures value { result ≡ lines.least_lines companions }
    ensures least { 9 ≤ result }
{
    match companions {
        None => 9,
        Some(count) => 4 + 6 * u64::from(count),
    }
}

fn generator_matches<'a>(alloc: Global, words: &'a [String]) -> Result<Matches<'a>, WordsFault>
    ensures { GivesBy (λ matches. rows_of (found_of matches.all)) faults.Memory result
        (generator.generator_rows (map string_bytes words.entry.now)) }
{
    matches_of(alloc, OPTIONS.as_slice(), &[], words)
}

/// The schedule that the words of `generate` or `survey` ask for.
#[tactic(auto, unfolding(crate::specs::Generator::generator_in))]
pub fn generator_words(alloc: Global, words: &[String]) -> Result<GeneratorWords, WordsFault>
    ensures { GivesBy generator.generator_of faults.Memory result
        (generator.generator_in (map string_bytes words.now)) }
{
    let matches = generator_matches(alloc, words)?;
    let seed = number(&matches.all, "seed", 0, MOST_SEED)?;
    let companions = companions(&matches.all)?;
    let lines = number(&matches.all, "lines", least_lines(companions), MOST_LINES)?;
    Ok(GeneratorWords {
        seed,
        lines,
        companions,
    })
}
