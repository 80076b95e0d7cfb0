ghost use Rattle.std.specs.Prelude.{◌≡◌, ◌≤◌, IfOk, IfErr, map, option_map, string_bytes, true, false};
ghost use Rattle.clap.specs.Words.{app_of, first_of, found_of, rows_of, rule_of};
ghost use Rattle.clap.specs.Faults.{is_simple_and_free};
ghost use Rattle.css_num.specs.Gives.{GivesBy};
ghost use Rattle.css_words.specs.Options as options;
ghost use Rattle.css_words.specs.declared.fault.WordsFault.TheVariants as faults;

use crate::fault::WordsFault;
use clap::{Arg, ArgAction, ArgMatches};
use css_num::whole_number;
use std::alloc::Global;

/// An option that tells a number and may be left out.
#[derive(Clone, Copy)]
pub struct NumberOption {
    pub name: &'static str,
    /// The number where the option isn't given.
    pub default: u64,
    pub least: u64,
    pub most: u64,
    pub ghost low: { least ≤ default },
    pub ghost high: { default ≤ most },
}

/// What some words say of a command's arguments.
pub struct Matches<'a> {
    pub all: ArgMatches<'a>,
}

// One function drops its many parts: what holds one needn't see them.
impl Drop for Matches<'_> {
    fn drop(self) {
        let Matches { all: _ } = self;
    }
}

// An argument of this name, by what a use of it does.
fn arg<'a>(alloc: Global, name: &'a str, action: ArgAction) -> Arg<'a>
    ensures rule { rule_of result ≡ options.arg_rule action name.entry.now }
    ensures local { result.global ≡ false }
{
    Arg::new(alloc, name).long(name).action(action)
}

// The command with arguments of these names too.
fn with_args<'a>(
    alloc: Global,
    command: clap::Command<'a>,
    names: &'a [&'a str],
    action: ArgAction,
) -> Result<clap::Command<'a>, WordsFault>
    ensures takes { IfOk result (λ more. app_of more
        ≡ options.with_args action (app_of command.entry) (map (λ name. name.now) names.entry.now)) }
    ensures memory { IfErr result (λ fault. fault ≡ faults.Memory) }
{
    let mut more = command;
    for name in names {
        more = more.arg(arg(alloc, *name, action))?;
    }
    Ok(more)
}

/// The command with these options, each of which takes a value, and these flags. All may be left out.
pub fn command_taking<'a>(
    alloc: Global,
    names: &'a [&'a str],
    flags: &'a [&'a str],
) -> Result<clap::Command<'a>, WordsFault>
    ensures takes { IfOk result (λ command. app_of command
        ≡ options.app_taking (map (λ name. name.now) names.entry.now) (map (λ name. name.now) flags.entry.now)) }
    ensures memory { IfErr result (λ fault. fault ≡ faults.Memory) }
{
    let command = clap::Command::new(alloc, "css");
    let command = with_args(alloc, command, names, ArgAction::Set)?;
    let command = with_args(alloc, command, flags, ArgAction::SetTrue)?;
    Ok(command)
}

// What the words say of the command's arguments. The first word is the command's name.
fn matches_in<'a>(
    command: clap::Command<'a>,
    words: &'a [String],
) -> Result<Matches<'a>, WordsFault>
    requires { is_simple_and_free (app_of command) ≡ true }
    ensures { GivesBy (λ matches. rows_of (found_of matches.all)) faults.Memory result
        (options.rows_in (app_of command.entry) (map string_bytes words.entry.now)) }
{
    Ok(Matches {
        all: command.try_get_matches_from(words)?,
    })
}

/// What the words say of the command's arguments, or what a parse finds wrong with them.
pub fn parsed<'a>(
    command: clap::Command<'a>,
    words: &'a [String],
) -> Result<Matches<'a>, clap::Error> {
    Ok(Matches {
        all: command.try_get_matches_from(words)?,
    })
}

/// What the words say of a command with these options, each of which takes a value, and these flags. All may be left
/// out. The first word is the command's name.
pub fn matches_of<'a>(
    alloc: Global,
    names: &'a [&'a str],
    flags: &'a [&'a str],
    words: &'a [String],
) -> Result<Matches<'a>, WordsFault>
    requires { is_simple_and_free (options.app_taking (map (λ name. name.now) names.now)
        (map (λ name. name.now) flags.now)) ≡ true }
    ensures { GivesBy (λ matches. rows_of (found_of matches.all)) faults.Memory result
        (options.rows_in (options.app_taking (map (λ name. name.now) names.entry.now)
        (map (λ name. name.now) flags.entry.now)) (map string_bytes words.entry.now)) }
{
    let command = command_taking(alloc, names, flags)?;
    matches_in(command, words)
}

/// The text of an option, where it was given.
pub fn text_given<'a>(matches: &ArgMatches<'a>, name: &str) -> Option<&'a str>
    ensures { option_map (λ text. text.now) result ≡ first_of name.now (rows_of (found_of matches.now)) }
{
    matches.get_str(name)
}

/// The text of an option, or the default one where it wasn't given.
pub fn text_given_or<'a>(matches: &ArgMatches<'a>, name: &str, default: &'a str) -> &'a str
    ensures { result.now ≡ options.text_or default.entry.now name.now (rows_of (found_of matches.now)) }
{
    match text_given(matches, name) {
        Some(text) => text,
        None => default,
    }
}

/// Whether a flag was given.
pub fn is_set(matches: &ArgMatches<'_>, name: &str) -> bool
    ensures { result ≡ options.is_set name.now (rows_of (found_of matches.now)) }
{
    matches!(text_given(matches, name), Some("true"))
}

/// The number from `least` to `most` that a text spells.
#[tactic(auto, unfolding(crate::specs::Options::number_in))]
pub fn number_in(text: &str, least: u64, most: u64) -> Result<u64, WordsFault>
    ensures value { result ≡ options.number_in least most text.now }
    ensures least { IfOk result (λ number. least ≤ number) }
    ensures most { IfOk result (λ number. number ≤ most) }
{
    let number = whole_number(text.as_bytes(), u64::MAX).ok_or(WordsFault::Usage)?;
    if number < least {
        return Err(WordsFault::Usage);
    }
    if number > most {
        return Err(WordsFault::Usage);
    }
    Ok(number)
}

/// The number from `least` to `most` of an option that has to be given.
pub fn number(
    matches: &ArgMatches<'_>,
    name: &str,
    least: u64,
    most: u64,
) -> Result<u64, WordsFault>
    ensures value { result
        ≡ options.required (options.number_in least most) name.now (rows_of (found_of matches.now)) }
    ensures least { IfOk result (λ number. least ≤ number) }
    ensures most { IfOk result (λ number. number ≤ most) }
{
    match text_given(matches, name) {
        None => Err(WordsFault::Usage),
        Some(text) => number_in(text, least, most),
    }
}

/// The number of an option, or the default one where it wasn't given.
pub fn number_or(matches: &ArgMatches<'_>, option: NumberOption) -> Result<u64, WordsFault>
    ensures value { result ≡ options.optional option.default (options.number_in option.least option.most)
        option.name.now (rows_of (found_of matches.now)) }
    ensures least { IfOk result (λ number. option.least ≤ number) }
    ensures most { IfOk result (λ number. number ≤ option.most) }
{
    match text_given(matches, option.name) {
        None => Ok(option.default),
        Some(text) => number_in(text, option.least, option.most),
    }
}
