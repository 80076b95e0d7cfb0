ghost use Rattle.std.specs.Prelude.{◌≡◌, IfOk, map, string_bytes};
ghost use Rattle.std.specs.List.{list_any};
ghost use Rattle.css_num.specs.Gives.{GivesBy};
ghost use Rattle.css_words.specs.Commands as commands;
ghost use Rattle.css_words.specs.Written.{IsWritable};
ghost use Rattle.css_words.specs.declared.fault.WordsFault.TheVariants as faults;

use crate::companion::companion_words;
use crate::fault::WordsFault;
use crate::generator::generator_words;
use crate::pair::pair_words;
use crate::relay::relay_words;
use crate::tv::tv_words;
use crate::watch::watch_words;
use crate::words::{CompanionWords, GeneratorWords, PairWords, RelayWords, TvWords, WatchWords};
use std::alloc::Global;

/// A command of the program.
#[derive(Drop)]
pub enum Command {
    /// Replays a schedule.
    Replay,
    /// Tells what answers say together. With `pairs` it names two lines where they say nothing together.
    Agree { pairs: bool },
    /// Checks each report of a companion's record.
    Audit,
    /// Turns a schedule of version 1 into one of version 2.
    Migrate,
    /// Is a companion of the television at an address.
    Companion(CompanionWords),
    /// Is a television.
    Tv(TvWords),
    /// Starts a television, and is a companion of it.
    Pair(PairWords),
    /// Is a companion that serves the television's wall clock on.
    Relay(RelayWords),
    /// Is a companion that stays, and tells all that happens.
    Watch(WatchWords),
    /// Writes a schedule.
    Generate(GeneratorWords),
    /// Replays a generated schedule, and writes one line on its intervals.
    Survey(GeneratorWords),
}

/// Whether the word is `-` or `--` alone.
pub fn is_bare_dashes(word: &str) -> bool
    ensures { result ≡ commands.is_bare_dashes word.now }
{
    word == "-" || word == "--"
}

// Whether one of the words is.
fn has_bare_dashes(words: &[String]) -> bool
    ensures { result ≡ list_any (λ word. commands.is_bare_dashes (string_bytes word)) words.now }
{
    words.iter().any(|word| is_bare_dashes(word.as_str()))
}

// That a command without options has no words after its name.
fn no_options(rest: &[String]) -> Result<(), WordsFault>
    ensures { result ≡ commands.no_options (map string_bytes rest.now) }
{
    match rest {
        [] => Ok(()),
        _ => Err(WordsFault::Usage),
    }
}

// Whether the words after `agree` are its flag.
fn has_pairs(rest: &[String]) -> Result<bool, WordsFault>
    ensures { result ≡ commands.has_pairs (map string_bytes rest.now) }
{
    match rest {
        [] => Ok(false),
        [word] if word.as_str() == "--pairs" => Ok(true),
        _ => Err(WordsFault::Usage),
    }
}

// The command with this name. It has `rest` behind it, and both are `words`.
#[tactic(auto, unfolding(crate::specs::Commands::named))]
fn command_named(
    alloc: Global,
    name: &str,
    rest: &[String],
    words: &[String],
) -> Result<Command, WordsFault>
    ensures value { GivesBy commands.asked_of faults.Memory result
        (commands.named name.now (map string_bytes rest.now) (map string_bytes words.now)) }
    ensures writable { IfOk result IsWritable }
{
    match name {
        "replay" => {
            no_options(rest)?;
            Ok(Command::Replay)
        }
        "agree" => {
            let pairs = has_pairs(rest)?;
            Ok(Command::Agree { pairs })
        }
        "audit" => {
            no_options(rest)?;
            Ok(Command::Audit)
        }
        "migrate" => {
            no_options(rest)?;
            Ok(Command::Migrate)
        }
        "companion" => Ok(Command::Companion(companion_words(alloc, words)?)),
        "tv" => Ok(Command::Tv(tv_words(alloc, words)?)),
        "pair" => Ok(Command::Pair(pair_words(alloc, words)?)),
        "relay" => Ok(Command::Relay(relay_words(alloc, words)?)),
        "watch" => Ok(Command::Watch(watch_words(alloc, words)?)),
        "generate" => Ok(Command::Generate(generator_words(alloc, words)?)),
        "survey" => Ok(Command::Survey(generator_words(alloc, words)?)),
        _ => Err(WordsFault::Usage),
    }
}

/// The command that the words after the program's name are.
///
/// The first word is the command's name. Those after it are its options, each as `--name value` or `--name=value`; a
/// value that begins with `-` needs the second form. A number is in decimal, without zeros before its digits and
/// without `+`.
///
/// - `replay`, `audit` and `migrate` take no options.
/// - `agree` takes the flag `--pairs`.
/// - `companion` needs `--cii`, a `ws:` address. It takes `--selector`, `--stem`, `--reports`, a limit,
///   `--report-every`, `--ask-every`, `--local-error`, `--local-precision`, and both `--earliest` and `--latest`. With
///   the flag `--record` the selector is a word, and the stem is a word other than `-` or empty, where a word is one
///   byte or more, each from `!` to `~`.
/// - `tv` takes `--port`, a limit, `--precision`, `--error` and `--host`, and the flags `--follow` and `--relative`.
/// - `pair` takes what both take, without an address and a host.
/// - `relay` needs `--cii`. It takes `--port`, a limit, `--ask-every`, `--local-error`, `--local-precision` and
///   `--host`.
/// - `watch` needs `--cii`. It takes `--selector`, `--stem`, `--report-every`, `--ask-every`, `--local-error` and
///   `--local-precision` as `companion` does, and `--seconds`, 1 to 31,536,000; without it a watch lasts a day.
/// - A limit is `--turns`, 1 to 1,000,000, or `--seconds`, 1 to 31,536,000, and not both. With neither it is 10,000
///   turns.
/// - `generate` and `survey` need `--seed`, 0 to 2^63 - 1, and `--lines`, 9 to 200,000. They take `--companions`, 2 to
///   16; then there are at least 4 lines, and 6 for each companion.
///
/// `Usage` comes exactly where the words are those of no command: another name or none, an option that the command
/// hasn't, one that is given twice, has no value or a value out of its range, a required one that is missing, a word
/// that is no option, `-` or `--` alone, and `--help`.
#[tactic(auto, unfolding(crate::specs::Commands::command_in))]
pub fn command_of(alloc: Global, words: &[String]) -> Result<Command, WordsFault>
    ensures value { GivesBy commands.asked_of faults.Memory result (commands.command_in (map string_bytes words.now)) }
    ensures writable { IfOk result IsWritable }
{
    let Some((name, rest)) = words.split_first() else {
        return Err(WordsFault::Usage);
    };
    if has_bare_dashes(rest) {
        return Err(WordsFault::Usage);
    }
    command_named(alloc, name.as_str(), rest, words)
}
