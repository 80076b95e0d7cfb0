//! What is wrong with words that are those of no command. Nothing is promised of the text. Each part is asked of the
//! function that reads it, in the order in which a command is read. The error of a check is the text, and None where
//! memory ran out.

use crate::bounds::earliest;
use crate::command::is_bare_dashes;
use crate::companion::{self, DEFAULT_SELECTOR, cii, present};
use crate::fault::WordsFault;
use crate::generator::{self, MOST_LINES, MOST_SEED, companions, least_lines};
use crate::options::{
    NumberOption, command_taking, is_set, number, number_or, parsed, text_given, text_given_or,
};
use crate::recorded::check_recorded;
use crate::tv::{self, LOCAL_HOST, MOST_SECONDS, MOST_TURNS, check_host, limit, precision};
use crate::{pair, relay, watch};
use clap::ArgMatches;
use clap::error::ErrorKind;
use css_num::Text;
use std::alloc::Global;

// A line of three parts.
fn line(alloc: Global, before: &str, word: &str, after: &str) -> Option<Text> {
    let mut line = Text::of(alloc, before.as_bytes()).ok()?;
    line.push(word.as_bytes()).ok()?;
    line.push(after.as_bytes()).ok()?;
    Some(line)
}

// Where digits are spelled as no number is.
fn misspelling(digits: &[u8]) -> Option<&'static str> {
    match digits {
        [b'+' | b'-', ..] => Some(" has a sign"),
        [b'0', _, ..] => Some(" has zeros before its digits"),
        _ => None,
    }
}

// An option whose text is wrong.
fn value_wrong(alloc: Global, name: &str, text: &str, what: &str) -> Option<Text> {
    if text.is_empty() {
        return line(alloc, "--", name, " is empty");
    }
    let mut line = line(alloc, "--", name, ": ")?;
    line.push(text.as_bytes()).ok()?;
    line.push(what.as_bytes()).ok()?;
    Some(line)
}

// A text that spells no number in this range.
fn number_wrong(alloc: Global, name: &str, text: &str, least: i128, most: i128) -> Option<Text> {
    let digits = match text.as_bytes() {
        [b'-', digits @ ..] if least < 0 => digits,
        bytes => bytes,
    };
    if let Some(what) = misspelling(digits) {
        return value_wrong(alloc, name, text, what);
    }
    let mut line = value_wrong(alloc, name, text, " isn't from ")?;
    line.push_number(least).ok()?;
    line.push(b" to ").ok()?;
    line.push_number(most).ok()?;
    Some(line)
}

// An option that isn't given, or whose text is no number in this range.
fn option_wrong(
    alloc: Global,
    matches: &ArgMatches<'_>,
    name: &str,
    least: i128,
    most: i128,
) -> Option<Text> {
    match text_given(matches, name) {
        None => line(alloc, "--", name, " is missing"),
        Some("") => line(alloc, "--", name, " is empty"),
        Some(text) => number_wrong(alloc, name, text, least, most),
    }
}

// The number of an option that may be left out.
fn check_number(
    alloc: Global,
    matches: &ArgMatches<'_>,
    option: NumberOption,
) -> Result<(), Option<Text>> {
    if number_or(matches, option).is_ok() {
        return Ok(());
    }
    let (least, most) = (i128::from(option.least), i128::from(option.most));
    Err(option_wrong(alloc, matches, option.name, least, most))
}

// The number of one that has to be given.
fn check_given(
    alloc: Global,
    matches: &ArgMatches<'_>,
    name: &str,
    least: u64,
    most: u64,
) -> Result<(), Option<Text>> {
    if number(matches, name, least, most).is_ok() {
        return Ok(());
    }
    let (least, most) = (i128::from(least), i128::from(most));
    Err(option_wrong(alloc, matches, name, least, most))
}

fn check_limit(alloc: Global, matches: &ArgMatches<'_>) -> Result<(), Option<Text>> {
    if limit(matches).is_ok() {
        return Ok(());
    }
    let has_turns = text_given(matches, "turns").is_some();
    let has_seconds = text_given(matches, "seconds").is_some();
    if has_turns && has_seconds {
        return Err(line(alloc, "--seconds and --turns", " exclude each other", ""));
    }
    if has_seconds {
        return Err(option_wrong(alloc, matches, "seconds", 1, i128::from(MOST_SECONDS)));
    }
    Err(option_wrong(alloc, matches, "turns", 1, i128::from(MOST_TURNS)))
}

fn check_precision(alloc: Global, matches: &ArgMatches<'_>) -> Result<(), Option<Text>> {
    if precision(matches).is_ok() {
        return Ok(());
    }
    let (least, most) = (tv::LEAST_PRECISION as i128, tv::MOST_PRECISION as i128);
    Err(option_wrong(alloc, matches, "precision", least, most))
}

fn check_present(alloc: Global, matches: &ArgMatches<'_>) -> Result<(), Option<Text>> {
    if present(matches).is_ok() {
        return Ok(());
    }
    let Some(first) = text_given(matches, "earliest") else {
        return Err(line(alloc, "--latest", " is without --earliest", ""));
    };
    let Some(last) = text_given(matches, "latest") else {
        return Err(line(alloc, "--earliest", " is without --latest", ""));
    };
    if earliest(first).is_err() {
        let after = " isn't TICK,WALL or TICK,minusinfinity";
        return Err(value_wrong(alloc, "earliest", first, after));
    }
    Err(value_wrong(
        alloc,
        "latest",
        last,
        " isn't TICK,WALL or TICK,plusinfinity",
    ))
}

// Whether a host is one of IPv6, without its brackets.
fn is_bare_ipv6(host: &str) -> bool {
    match host.split_once(':') {
        Some((before, after)) => !before.starts_with('[') && after.contains(':'),
        None => false,
    }
}

// A text that leads to no session.
fn address_wrong(alloc: Global, text: &str) -> Option<Text> {
    if text.starts_with("wss:") {
        return line(alloc, "--cii: ", "no encryption: ws:// alone", "");
    }
    let host = match text.strip_prefix("ws://") {
        Some(rest) => up_to(rest, '/'),
        None => "",
    };
    if is_bare_ipv6(host) {
        let after = " needs brackets around IPv6, as ws://[::1]:6677/cii";
        return value_wrong(alloc, "cii", text, after);
    }
    value_wrong(alloc, "cii", text, " is no ws: address")
}

fn check_cii(alloc: Global, matches: &ArgMatches<'_>) -> Result<(), Option<Text>> {
    match cii(alloc, matches) {
        Ok(_) => Ok(()),
        Err(WordsFault::Memory) => Err(None),
        Err(WordsFault::Usage) => match text_given(matches, "cii") {
            None => Err(line(alloc, "--cii", " is missing", "")),
            Some(text) => Err(address_wrong(alloc, text)),
        },
    }
}

fn check_dialled(alloc: Global, matches: &ArgMatches<'_>, port: u16) -> Result<(), Option<Text>> {
    let host = text_given_or(matches, "host", LOCAL_HOST);
    match check_host(alloc, host.as_bytes(), port) {
        Ok(()) => Ok(()),
        Err(WordsFault::Memory) => Err(None),
        Err(WordsFault::Usage) if is_bare_ipv6(host) => {
            Err(value_wrong(alloc, "host", host, " needs brackets around IPv6, as [::1]"))
        }
        Err(WordsFault::Usage) => Err(value_wrong(alloc, "host", host, " is no host")),
    }
}

fn check_record(alloc: Global, matches: &ArgMatches<'_>) -> Result<(), Option<Text>> {
    let is_recorded = is_set(matches, "record");
    let selector = text_given_or(matches, "selector", DEFAULT_SELECTOR);
    let stem = text_given_or(matches, "stem", "");
    if check_recorded(is_recorded, selector.as_bytes(), stem.as_bytes()).is_ok() {
        return Ok(());
    }
    if check_recorded(is_recorded, selector.as_bytes(), b"").is_err() {
        return Err(value_wrong(alloc, "selector", selector, " can't stand in a record"));
    }
    Err(value_wrong(alloc, "stem", stem, " can't stand in a record"))
}

fn check_companion(alloc: Global, matches: &ArgMatches<'_>) -> Result<(), Option<Text>> {
    check_number(alloc, matches, companion::REPORTS)?;
    check_limit(alloc, matches)?;
    check_number(alloc, matches, companion::REPORT_EVERY)?;
    check_number(alloc, matches, companion::ASK_EVERY)?;
    check_number(alloc, matches, companion::LOCAL_ERROR)?;
    check_number(alloc, matches, companion::LOCAL_PRECISION)?;
    check_present(alloc, matches)
}

fn check_tv(alloc: Global, matches: &ArgMatches<'_>) -> Result<(), Option<Text>> {
    check_number(alloc, matches, tv::PORT)?;
    check_limit(alloc, matches)?;
    check_precision(alloc, matches)?;
    check_number(alloc, matches, tv::ERROR)
}

fn check_relay(alloc: Global, matches: &ArgMatches<'_>) -> Result<(), Option<Text>> {
    check_number(alloc, matches, relay::PORT)?;
    check_limit(alloc, matches)?;
    check_number(alloc, matches, companion::ASK_EVERY)?;
    check_number(alloc, matches, companion::LOCAL_ERROR)?;
    check_number(alloc, matches, companion::LOCAL_PRECISION)
}

fn check_generator(alloc: Global, matches: &ArgMatches<'_>) -> Result<(), Option<Text>> {
    check_given(alloc, matches, "seed", 0, MOST_SEED)?;
    match companions(matches) {
        Ok(companions) => {
            let least = least_lines(companions);
            check_given(alloc, matches, "lines", least, MOST_LINES)
        }
        Err(_) => Err(option_wrong(alloc, matches, "companions", 2, 16)),
    }
}

// The first part that isn't as its command wants it.
fn check(alloc: Global, name: &str, matches: &ArgMatches<'_>) -> Result<(), Option<Text>> {
    match name {
        // A watch has a part of a companion's options. It is wrong only in these.
        "companion" | "watch" => {
            check_cii(alloc, matches)?;
            check_companion(alloc, matches)?;
            check_record(alloc, matches)
        }
        "tv" => {
            check_tv(alloc, matches)?;
            check_dialled(alloc, matches, tv::port(matches).unwrap_or(0))
        }
        "pair" => {
            check_companion(alloc, matches)?;
            check_tv(alloc, matches)
        }
        "relay" => {
            check_cii(alloc, matches)?;
            check_relay(alloc, matches)?;
            check_dialled(alloc, matches, relay::port(matches).unwrap_or(0))
        }
        // Its flag has no value that could be wrong.
        "agree" => Ok(()),
        _ => check_generator(alloc, matches),
    }
}

// What stands before the first of this character.
fn up_to(text: &str, end: char) -> &str {
    match text.split_once(end) {
        Some((before, _)) => before,
        None => text,
    }
}

// What stands in the parser's message from here to the closing quote.
fn quoted<'a>(message: &'a str, opening: &str) -> &'a str {
    match message.split_once(opening) {
        Some((_, rest)) => up_to(rest, '\''),
        None => "",
    }
}

// A word that is no option of its command.
fn word_wrong(alloc: Global, word: &str) -> Option<Text> {
    if word.starts_with('-') {
        return line(alloc, "no such option: ", word, "");
    }
    line(alloc, "stray word: ", word, "")
}

// What the parser refused, by its message. It names an option as `--NAME <VALUE>`.
fn refused(alloc: Global, kind: ErrorKind, message: &str) -> Option<Text> {
    let (opening, what) = match kind {
        ErrorKind::OutOfMemory => return None,
        ErrorKind::DisplayHelp => return word_wrong(alloc, "--help"),
        ErrorKind::UnknownArgument => return word_wrong(alloc, quoted(message, "'")),
        ErrorKind::ArgumentConflict => ("'--", " is given twice"),
        ErrorKind::TooManyValues => ("for '--", " takes no value"),
        _ => ("'--", " has no value"),
    };
    line(alloc, "--", up_to(quoted(message, opening), ' '), what)
}

// What is wrong with words that the parse refuses.
fn of_refusal(alloc: Global, error: &clap::Error) -> Option<Text> {
    let message = format!(in alloc; "{error}").ok()?;
    refused(alloc, error.kind(), message.as_str())
}

// What is wrong with the words of a command with these options and flags.
fn of_options<'a>(
    alloc: Global,
    name: &str,
    names: &'a [&'a str],
    flags: &'a [&'a str],
    words: &'a [String],
) -> Option<Text> {
    let command = command_taking(alloc, names, flags).ok()?;
    match parsed(command, words) {
        Ok(matches) => check(alloc, name, &matches.all).err()?,
        Err(error) => of_refusal(alloc, &error),
    }
}

// What is wrong with the words of the command of this name, which has `rest` behind it.
fn of_command(alloc: Global, name: &str, rest: &[String], words: &[String]) -> Option<Text> {
    match name {
        "agree" => of_options(alloc, name, &[], &["pairs"], words),
        "companion" => {
            let flags = companion::FLAGS.as_slice();
            of_options(alloc, name, companion::OPTIONS.as_slice(), flags, words)
        }
        "tv" => {
            let flags = tv::FLAGS.as_slice();
            of_options(alloc, name, tv::OPTIONS.as_slice(), flags, words)
        }
        "pair" => {
            let flags = tv::FLAGS.as_slice();
            of_options(alloc, name, pair::OPTIONS.as_slice(), flags, words)
        }
        "relay" => of_options(alloc, name, relay::OPTIONS.as_slice(), &[], words),
        "watch" => of_options(alloc, name, watch::OPTIONS.as_slice(), &[], words),
        "generate" | "survey" => {
            of_options(alloc, name, generator::OPTIONS.as_slice(), &[], words)
        }
        _ => word_wrong(alloc, rest.first()?.as_str()),
    }
}

/// What is wrong with words that are `Usage`, as a line for a person without its end: the first part that isn't as the
/// command wants it. The words are those after the program's name, and the first is a command that exists.
///
/// None where nothing is wrong, or memory ran out. Nothing is promised of the text.
pub fn complaint(alloc: Global, words: &[String]) -> Option<Text> {
    let (name, rest) = words.split_first()?;
    if let Some(word) = rest.iter().find(|word| is_bare_dashes(word.as_str())) {
        return line(alloc, "stray word: ", word.as_str(), "");
    }
    of_command(alloc, name.as_str(), rest, words)
}
