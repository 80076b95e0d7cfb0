ghost use Rattle.std.specs.Prelude.{◌≡◌, ◌≤◌, ℕ, IfOk, List, Ok, map, string_bytes};
ghost use Rattle.std.specs.Str.{IsUtf8};
ghost use Rattle.clap.specs.Words.{found_of, rows_of};
ghost use Rattle.css_num.specs.Gives.{GivesBy};
ghost use Rattle.css_words.specs.Relay as relay;
ghost use Rattle.css_words.specs.declared.fault.WordsFault.TheVariants as faults;

use crate::companion::{ask_every, cii, local_error, local_precision};
use crate::fault::WordsFault;
use crate::options::{Matches, NumberOption, matches_of, number_or, text_given_or};
use crate::tv::{LOCAL_HOST, check_host, limit};
use crate::words::{RelayNumbers, RelayWords};
use clap::ArgMatches;
use css_num::Text;
use std::alloc::Global;

pub static OPTIONS: [&str; 8] = [
    "cii",
    "port",
    "turns",
    "seconds",
    "ask-every",
    "local-error",
    "local-precision",
    "host",
];

pub const PORT: NumberOption = NumberOption {
    name: "port",
    default: 6690,
    least: 1024,
    most: 65_534,
};

/// The port of the relay.
pub fn port(matches: &ArgMatches<'_>) -> Result<u16, WordsFault>
    ensures value { result ≡ relay.port (rows_of (found_of matches.now)) }
    ensures least { IfOk result (λ port. 1024 ≤ port) }
    ensures most { IfOk result (λ port. port ≤ 65534) }
{
    let port = number_or(matches, PORT)?;
    Ok(port as u16)
}

fn relay_matches<'a>(alloc: Global, words: &'a [String]) -> Result<Matches<'a>, WordsFault>
    ensures { GivesBy (λ matches. rows_of (found_of matches.all)) faults.Memory result
        (relay.relay_rows (map string_bytes words.entry.now)) }
{
    matches_of(alloc, OPTIONS.as_slice(), &[], words)
}

// The numbers of a relay, in their order.
fn numbers(matches: &ArgMatches<'_>) -> Result<RelayNumbers, WordsFault>
    ensures { GivesBy relay.numbers_of faults.Memory result (relay.numbers (rows_of (found_of matches.now))) }
{
    let port = port(matches)?;
    let limit = limit(matches)?;
    let ask_every = ask_every(matches)?;
    let local_error = local_error(matches)?;
    let local_precision = local_precision(matches)?;
    Ok(RelayNumbers {
        port,
        limit,
        ask_every,
        local_error,
        local_precision,
    })
}

// The relay that the matches of some words ask for.
fn relay_from(alloc: Global, matches: &ArgMatches<'_>) -> Result<RelayWords, WordsFault>
    ensures value { (words : List (List ℕ)) → relay.relay_rows words ≡ Ok (rows_of (found_of matches.now))
        → GivesBy relay.relay_of faults.Memory result (relay.relay_in words) }
    ensures utf8 { IfOk result (λ words. IsUtf8 words.host) }
{
    let cii = cii(alloc, matches)?;
    let numbers = numbers(matches)?;
    let host = text_given_or(matches, "host", LOCAL_HOST);
    let host = Text::of(alloc, host.as_bytes())?;
    check_host(alloc, host.bytes(), numbers.port)?;
    Ok(RelayWords {
        cii,
        port: numbers.port,
        limit: numbers.limit,
        ask_every: numbers.ask_every,
        local_error: numbers.local_error,
        local_precision: numbers.local_precision,
        host,
    })
}

/// The relay that the words of `relay` ask for.
#[tactic(auto, unfolding(crate::specs::Relay::relay_in))]
pub fn relay_words(alloc: Global, words: &[String]) -> Result<RelayWords, WordsFault>
    ensures value { GivesBy relay.relay_of faults.Memory result (relay.relay_in (map string_bytes words.now)) }
    ensures utf8 { IfOk result (λ words. IsUtf8 words.host) }
{
    let matches = relay_matches(alloc, words)?;
    relay_from(alloc, &matches.all)
}
