ghost use Rattle.std.specs.Prelude.{◌≡◌, ◌≤◌, IfOk, map, string_bytes, pos, ◌≤ℤ◌, Ok};
ghost use Rattle.std.specs.Str.{IsUtf8};
ghost use Rattle.clap.specs.Words.{found_of, rows_of};
ghost use Rattle.css_num.specs.Gives.{GivesBy};
ghost use Rattle.css_outside.specs.Limits.{IsLimit};
ghost use Rattle.css_words.specs.Tv as tv;
ghost use Rattle.css_words.specs.declared.fault.WordsFault.TheVariants as faults;

use crate::fault::WordsFault;
use crate::options::{
    Matches, NumberOption, is_set, matches_of, number_in, number_or, text_given, text_given_or,
};
use crate::words::TvWords;
use clap::ArgMatches;
use css_address::{Kind, address};
use css_num::{Text, signed_number};
use css_outside::Limit;
use std::alloc::Global;

pub static OPTIONS: [&str; 6] = ["port", "turns", "seconds", "precision", "error", "host"];

/// The flags of a television, whether a companion stands beside it or not.
pub static FLAGS: [&str; 2] = ["follow", "relative"];

/// The host of a television that only its own machine can reach.
pub const LOCAL_HOST: &str = "127.0.0.1";

pub const PORT: NumberOption = NumberOption {
    name: "port",
    default: 6677,
    least: 1024,
    most: 65_534,
};

pub const ERROR: NumberOption = NumberOption {
    name: "error",
    default: 128_000,
    least: 0,
    most: 25_600_000,
};

/// How many turns a run makes where no limit is given.
const DEFAULT_TURNS: u64 = 10_000;

pub const MOST_TURNS: u64 = 1_000_000;

/// A year of 365 days.
pub const MOST_SECONDS: u64 = 31_536_000;

pub const LEAST_PRECISION: i64 = -128;

pub const MOST_PRECISION: i64 = 30;

const DEFAULT_PRECISION: i8 = -20;

// The exponent of a precision, -128 to 30, that a text spells.
#[tactic(auto, unfolding(crate::specs::Tv::precision_in))]
fn precision_in(text: &str) -> Result<i8, WordsFault>
    ensures value { result ≡ tv.precision_in text.now }
    ensures most { IfOk result (λ precision. precision ≤ℤ pos 30) }
{
    let precision = signed_number(text.as_bytes(), 3).ok_or(WordsFault::Usage)?;
    if precision < LEAST_PRECISION {
        return Err(WordsFault::Usage);
    }
    if precision > MOST_PRECISION {
        return Err(WordsFault::Usage);
    }
    Ok(precision as i8)
}

/// The precision, or that of a television that isn't told one.
pub fn precision(matches: &ArgMatches<'_>) -> Result<i8, WordsFault>
    ensures value { result ≡ tv.precision (rows_of (found_of matches.now)) }
    ensures most { IfOk result (λ precision. precision ≤ℤ pos 30) }
{
    match text_given(matches, "precision") {
        None => Ok(DEFAULT_PRECISION),
        Some(text) => precision_in(text),
    }
}

/// The port.
pub fn port(matches: &ArgMatches<'_>) -> Result<u16, WordsFault>
    ensures value { result ≡ tv.port (rows_of (found_of matches.now)) }
    ensures least { IfOk result (λ port. 1024 ≤ port) }
    ensures most { IfOk result (λ port. port ≤ 65534) }
{
    let port = number_or(matches, PORT)?;
    Ok(port as u16)
}

// The greatest frequency error.
fn error(matches: &ArgMatches<'_>) -> Result<u32, WordsFault>
    ensures value { result ≡ tv.error (rows_of (found_of matches.now)) }
    ensures most { IfOk result (λ error. error ≤ 25600000) }
{
    let error = number_or(matches, ERROR)?;
    Ok(error as u32)
}

/// How long a run goes on: by turns or by seconds, and not by both.
pub fn limit(matches: &ArgMatches<'_>) -> Result<Limit, WordsFault>
    ensures value { result ≡ tv.limit (rows_of (found_of matches.now)) }
    ensures range { IfOk result IsLimit }
{
    match (text_given(matches, "turns"), text_given(matches, "seconds")) {
        (None, None) => Ok(Limit::Turns(DEFAULT_TURNS)),
        (Some(turns), None) => Ok(Limit::Turns(number_in(turns, 1, MOST_TURNS)?)),
        (None, Some(seconds)) => Ok(Limit::Seconds(number_in(seconds, 1, MOST_SECONDS)?)),
        (Some(_), Some(_)) => Err(WordsFault::Usage),
    }
}

// The URL of the session of CSS-CII at this host and port.
fn cii_url(alloc: Global, host: &[u8], port: u16) -> Result<Text, WordsFault>
    ensures { GivesBy (λ url. url) faults.Memory result (Ok (tv.cii_url host.now port)) }
{
    let mut url = Text::of(alloc, b"ws://")?;
    url.push(host)?;
    url.push(b":")?;
    url.push_number(i128::from(port))?;
    url.push(b"/cii")?;
    Ok(url)
}

/// That companions can dial this host.
pub fn check_host(alloc: Global, host: &[u8], port: u16) -> Result<(), WordsFault>
    ensures { GivesBy (λ checked. checked) faults.Memory result (tv.dialled (tv.cii_url host.now port)) }
{
    let url = cii_url(alloc, host, port)?;
    let address = address(alloc, Kind::Cii, url.bytes())?;
    drop(address);
    Ok(())
}

/// The television that the options ask for, at a host.
#[tactic(auto, unfolding(crate::specs::Tv::tv_at))]
pub fn tv_at(matches: &ArgMatches<'_>, host: Text) -> Result<TvWords, WordsFault>
    requires { IsUtf8 host }
    ensures value { GivesBy tv.tv_of faults.Memory result (tv.tv_at host (rows_of (found_of matches.now))) }
    ensures utf8 { IfOk result (λ words. IsUtf8 words.host) }
{
    let port = port(matches)?;
    let limit = limit(matches)?;
    let precision = precision(matches)?;
    let error = error(matches)?;
    let follow = is_set(matches, "follow");
    let relative = is_set(matches, "relative");
    Ok(TvWords {
        port,
        limit,
        precision,
        error,
        follow,
        relative,
        host,
    })
}

fn tv_matches<'a>(alloc: Global, words: &'a [String]) -> Result<Matches<'a>, WordsFault>
    ensures { GivesBy (λ matches. rows_of (found_of matches.all)) faults.Memory result
        (tv.tv_rows (map string_bytes words.entry.now)) }
{
    matches_of(alloc, OPTIONS.as_slice(), FLAGS.as_slice(), words)
}

/// The television that the words of `tv` ask for.
#[tactic(auto, unfolding(crate::specs::Tv::tv_in))]
pub fn tv_words(alloc: Global, words: &[String]) -> Result<TvWords, WordsFault>
    ensures value { GivesBy tv.tv_of faults.Memory result (tv.tv_in (map string_bytes words.now)) }
    ensures utf8 { IfOk result (λ words. IsUtf8 words.host) }
{
    let matches = tv_matches(alloc, words)?;
    let host = Text::of(
        alloc,
        text_given_or(&matches.all, "host", LOCAL_HOST).as_bytes(),
    )?;
    let asked = tv_at(&matches.all, host)?;
    check_host(alloc, asked.host.bytes(), asked.port)?;
    Ok(asked)
}
