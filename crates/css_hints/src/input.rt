//! What a line of the input has to be like.

use crate::absence::absent;
use crate::asked::Asked;
use crate::grammar::Grammar;
use crate::options::command_in;
use crate::walk::first_misfit;
use css_num::whole_number;
use css_schedule::PlayerFault;
use css_status::LineWhy;
use std::alloc::Global;
use std::str;

/// How long the lines of a command's input may be.
fn lengths(command: &str) -> &'static str {
    match command {
        "audit" => "a line has at most 16,777,216 bytes, and a record 268,435,456",
        "replay" =>
            "a line has at most 4,096 bytes and the input 67,108,864; in version 2 4,352 and 134,217,728",
        _ => "a line has at most 4,096 bytes, and the input 67,108,864",
    }
}

/// What the first line of a command's input is like.
fn header_of(command: &str) -> &'static str {
    match command {
        "replay" =>
            "line 1 is: css-schedule 1 MODE EW KW EL PL SELECTOR STEM, or: css-schedule 2 MODE EW KW COUNT",
        "migrate" =>
            "line 1 is: css-schedule 1 MODE EW KW EL PL SELECTOR STEM; what is of version 2 stays as it is",
        "agree" => "line 1 is: css-agree 1 EL PL",
        "audit" => "line 1 is: css-record 1 EL PL SELECTOR STEM",
        _ => script_line(),
    }
}

fn script_line() -> &'static str {
    "a line is W VERB .., with the verb programme, timeline, change, speed or seek, and single spaces"
}

/// What each further line of a command's input is like.
fn line_of(command: &str) -> &'static str {
    match command {
        "replay" =>
            "a line is T W L VERB .. (version 2: T W K L VERB ..), single spaces, numbers in their range",
        "migrate" => "a line is T W L VERB .., with single spaces, and numbers in their range",
        "agree" => "a line is: answer T1 T2 T3 T4 K E, or: at R",
        "audit" =>
            "a line is slept, turn R, ask R, land R HEX, cii HEX, ts HEX, closed cii, closed ts, or a report",
        _ => script_line(),
    }
}

/// The limit of the player that was hit.
fn limit(fault: PlayerFault) -> Option<&'static str> {
    match fault {
        PlayerFault::NoProgramme => Some(
            "there is no programme of this number, or none is shown yet",
        ),
        PlayerFault::Speed => Some("a speed is from -64 to 64"),
        PlayerFault::Range => Some("a position and a base are from -10^17 to 10^17"),
        PlayerFault::Full => Some("there are at most 1,000 programmes, and 16 timelines in each"),
        PlayerFault::Memory => None,
    }
}

const RETURNED: &str = "line 1 ends with a carriage return: end lines with a line feed alone";

const SHEET_LINE: &str =
    "a line is: cue TICK NAME, at most 1,000 of them, or: meter COUNT, at most one; single spaces";

/// What the input of a command that reads lines is.
fn grammar_of(command: &str) -> Grammar {
    match command {
        "replay" => Grammar::Schedule,
        "migrate" => Grammar::Migrated,
        "agree" => Grammar::Answers,
        "audit" => Grammar::Record,
        _ => Grammar::Script,
    }
}

/// Whether line 1 ends with a carriage return, also where it is the last and has no line feed.
fn is_returned(asked: &Asked<'_>, line: u64) -> bool {
    asked.first_line_returned
        || match asked.line {
            Some(bytes) => line == 1 && bytes.last() == Some(&b'\r'),
            None => false,
        }
}

/// The first word of the refused line that can't stand there, in words.
fn told_misfit(alloc: Global, grammar: Grammar, number: u64, line: &[u8]) -> Option<String> {
    let misfit = first_misfit(grammar, number, str::from_utf8(line).ok()?)?;
    format!(in alloc; "{misfit}").ok()
}

/// What is wrong with a line outside its grammar, or else what any line is.
fn bad_form(
    alloc: Global,
    asked: &Asked<'_>,
    grammar: Grammar,
    number: u64,
    any_line: &str,
) -> Option<String> {
    if is_returned(asked, number) {
        return String::from_str(alloc, RETURNED).ok();
    }
    if let Some(line) = asked.line {
        if let Some(words) = told_misfit(alloc, grammar, number, line) {
            return Some(words);
        }
    }
    String::from_str(alloc, any_line).ok()
}

/// Which companion's line the one with this number is, where line 1 is the header of a schedule of version 2.
fn companion_at(first_line: &str, number: u64) -> Option<u64> {
    let count = first_line
        .strip_prefix("css-schedule 2 ")?
        .split(' ')
        .nth(3)?;
    let count = whole_number(count.as_bytes(), u64::MAX)?;
    let companion = number.checked_sub(1)?;
    if (1..=count).contains(&companion) {
        Some(companion)
    } else {
        None
    }
}

/// The line of a companion that has to stand at this number of a schedule.
fn companion_line(alloc: Global, asked: &Asked<'_>, number: u64) -> Option<String> {
    let companion = companion_at(str::from_utf8(asked.first_line?).ok()?, number)?;
    format!(in alloc; "line {number} has to be: companion {companion} EL PL SELECTOR STEM").ok()
}

/// What is wrong with a line of a schedule behind its header. One that has to be a companion's and isn't begun as one
/// has no word that is wrong: that line is missing.
fn bad_schedule_line(alloc: Global, asked: &Asked<'_>, number: u64) -> Option<String> {
    let Some(wanted) = companion_line(alloc, asked, number) else {
        return bad_form(alloc, asked, Grammar::Schedule, number, line_of("replay"));
    };
    match asked.line {
        Some(line) if line.starts_with(b"companion ") => {
            bad_form(alloc, asked, Grammar::Schedule, number, wanted.as_str())
        }
        _ => Some(wanted),
    }
}

/// What a line of the input that was refused has to be like.
pub(crate) fn bad_line(
    alloc: Global,
    asked: &Asked<'_>,
    line: u64,
    why: LineWhy,
) -> Option<String> {
    let command = command_in(asked.words);
    let grammar = grammar_of(command);
    let words = match why {
        LineWhy::Long => lengths(command),
        LineWhy::Form if line == 1 => {
            return bad_form(alloc, asked, grammar, line, header_of(command));
        }
        LineWhy::Form if command == "replay" => return bad_schedule_line(alloc, asked, line),
        LineWhy::Form => return bad_form(alloc, asked, grammar, line, line_of(command)),
        LineWhy::Absent => return absent(alloc, command, asked.line),
        LineWhy::Player(fault) => limit(fault)?,
    };
    String::from_str(alloc, words).ok()
}

/// What a line of a cue sheet has to be like.
pub(crate) fn bad_sheet(alloc: Global, asked: &Asked<'_>, line: u64) -> Option<String> {
    bad_form(alloc, asked, Grammar::Sheet, line, SHEET_LINE)
}
