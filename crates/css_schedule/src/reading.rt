ghost use Rattle.std.specs.Prelude.{◌≡◌, ◌<◌, ◌^◌, ◌==◌, IfOk};
ghost use Rattle.css_num.specs.Gives.{GivesBy};
ghost use Rattle.css_schedule.specs.Words.{words_left, Reads};
ghost use Rattle.css_schedule.specs.Lines as lines;
ghost use Rattle.css_schedule.specs.Owners.{is_named};
ghost use Rattle.css_schedule.specs.Ranges.{IsVersion, IsLine, IsOf, IsScriptLine};
ghost use Rattle.css_schedule.specs.declared.fault.LineFault.TheVariants as faults;

use crate::parts::{command, earliest, kind, latest, position, time};
use crate::words::{Words, all_words, finish, number, ordinal, skip, text, word};
use crate::{Line, LineFault, ScriptLine, Verb};
use css_num::{Rate, Text};
use std::alloc::Global;

// The value, where it fits and no word is left. It alone drops a line that isn't told.
fn ended<T: Drop>(value: T, rest: Words<'_>, fits: bool) -> Result<T, LineFault>
    ensures { GivesBy (λ x. x) faults.Memory result (lines.ended value fits (words_left rest.entry)) }
{
    finish(rest)?;
    if fits {
        Ok(value)
    } else {
        Err(LineFault::Form)
    }
}

#[tactic(auto, unfolding(crate::specs::Lines::ask_at))]
fn ask<'a>(words: Words<'a>) -> Result<(Verb, Words<'a>), LineFault>
    ensures { Reads result (lines.ask_at (words_left words.entry)) }
{
    let (reading, rest) = time(words)?;
    Ok((Verb::Ask { reading }, rest))
}

#[tactic(auto, unfolding(crate::specs::Lines::take_at))]
fn take<'a>(words: Words<'a>) -> Result<(Verb, Words<'a>), LineFault>
    ensures { Reads result (lines.take_at (words_left words.entry)) }
{
    let (request, rest) = ordinal(words)?;
    let (reading, rest) = time(rest)?;
    Ok((Verb::Take { request, reading }, rest))
}

#[tactic(auto, unfolding(crate::specs::Lines::give_at))]
fn give<'a>(words: Words<'a>) -> Result<(Verb, Words<'a>), LineFault>
    ensures { Reads result (lines.give_at (words_left words.entry)) }
{
    let (take, rest) = ordinal(words)?;
    let (reading, rest) = time(rest)?;
    Ok((Verb::Give { take, reading }, rest))
}

#[tactic(auto, unfolding(crate::specs::Lines::land_at))]
fn land<'a>(words: Words<'a>) -> Result<(Verb, Words<'a>), LineFault>
    ensures { Reads result (lines.land_at (words_left words.entry)) }
{
    let (datagram, rest) = ordinal(words)?;
    let (reading, rest) = time(rest)?;
    Ok((Verb::Land { datagram, reading }, rest))
}

#[tactic(auto, unfolding(crate::specs::Lines::wall_at))]
fn wall<'a>(words: Words<'a>) -> Result<(Verb, Words<'a>), LineFault>
    ensures { Reads result (lines.wall_at (words_left words.entry)) }
{
    let (reading, rest) = time(words)?;
    Ok((Verb::Wall { reading }, rest))
}

#[tactic(auto, unfolding(crate::specs::Lines::print_at))]
fn report<'a>(words: Words<'a>) -> Result<(Verb, Words<'a>), LineFault>
    ensures { Reads result (lines.print_at (words_left words.entry)) }
{
    let (reading, rest) = time(words)?;
    Ok((Verb::Print { reading }, rest))
}

#[tactic(auto, unfolding(crate::specs::Lines::programme_at))]
fn programme<'a>(alloc: Global, words: Words<'a>) -> Result<(Verb, Words<'a>), LineFault>
    ensures { Reads result (lines.programme_at (words_left words.entry)) }
{
    let (content_id, rest) = text(words)?;
    let content_id = Text::of(alloc, content_id)?;
    Ok((Verb::Programme { content_id }, rest))
}

#[tactic(auto, unfolding(crate::specs::Lines::timeline_at))]
fn timeline<'a>(alloc: Global, words: Words<'a>) -> Result<(Verb, Words<'a>), LineFault>
    ensures { Reads result (lines.timeline_at (words_left words.entry)) }
{
    let (programme, rest) = ordinal(words)?;
    let (selector, rest) = text(rest)?;
    let (units_per_tick, rest) = ordinal(rest)?;
    let (units_per_second, rest) = ordinal(rest)?;
    let (base, rest) = position(rest)?;
    let rate = Rate::of(units_per_tick, units_per_second).ok_or(LineFault::Form)?;
    let timeline = Verb::Timeline {
        programme,
        selector: Text::of(alloc, selector)?,
        rate,
        base,
    };
    Ok((timeline, rest))
}

// A viewer's command, by its name, after the television's reading.
#[tactic(auto, unfolding(crate::specs::Lines::viewer_at))]
fn viewer<'a>(name: &[u8], words: Words<'a>) -> Result<(Verb, Words<'a>), LineFault>
    ensures { Reads result (lines.viewer_at name.now (words_left words.entry)) }
{
    let (reading, rest) = time(words)?;
    let (command, rest) = command(name, rest)?;
    Ok((Verb::Viewer { reading, command }, rest))
}

#[tactic(auto, unfolding(crate::specs::Lines::opening_at))]
fn opening<'a>(words: Words<'a>) -> Result<(Verb, Words<'a>), LineFault>
    ensures { Reads result (lines.opening_at (words_left words.entry)) }
{
    let (kind, rest) = kind(words)?;
    Ok((Verb::Opening { kind }, rest))
}

#[tactic(auto, unfolding(crate::specs::Lines::bring_at))]
fn bring<'a>(words: Words<'a>) -> Result<(Verb, Words<'a>), LineFault>
    ensures { Reads result (lines.bring_at (words_left words.entry)) }
{
    let (kind, rest) = kind(words)?;
    Ok((Verb::Bring { kind }, rest))
}

#[tactic(auto, unfolding(crate::specs::Lines::up_at))]
fn up<'a>(words: Words<'a>) -> Result<(Verb, Words<'a>), LineFault>
    ensures { Reads result (lines.up_at (words_left words.entry)) }
{
    let rest = skip(words, b"ts")?;
    Ok((Verb::Up, rest))
}

#[tactic(auto, unfolding(crate::specs::Lines::present_at))]
fn present<'a>(words: Words<'a>) -> Result<(Verb, Words<'a>), LineFault>
    ensures { Reads result (lines.present_at (words_left words.entry)) }
{
    let (earliest, rest) = earliest(words)?;
    let (latest, rest) = latest(rest)?;
    Ok((Verb::Present { earliest, latest }, rest))
}

#[tactic(auto, unfolding(crate::specs::Lines::close_at))]
fn close<'a>(words: Words<'a>) -> Result<(Verb, Words<'a>), LineFault>
    ensures { Reads result (lines.close_at (words_left words.entry)) }
{
    let (kind, rest) = kind(words)?;
    Ok((Verb::Close { kind }, rest))
}

// The operands of the verb with this name, where it is one of a session or a viewer's.
#[tactic(auto, unfolding(crate::specs::Lines::session_at))]
fn session<'a>(name: &[u8], words: Words<'a>) -> Result<(Verb, Words<'a>), LineFault>
    ensures { Reads result (lines.session_at name.now (words_left words.entry)) }
{
    if name == b"open".as_slice() {
        opening(words)
    } else if name == b"text".as_slice() {
        bring(words)
    } else if name == b"up".as_slice() {
        up(words)
    } else if name == b"present".as_slice() {
        present(words)
    } else if name == b"close".as_slice() {
        close(words)
    } else {
        viewer(name, words)
    }
}

// The operands of the verb with this name, where it isn't one of the wall clock.
#[tactic(auto, unfolding(crate::specs::Lines::timelines_at))]
fn timelines<'a>(
    alloc: Global,
    name: &[u8],
    words: Words<'a>,
) -> Result<(Verb, Words<'a>), LineFault>
    ensures { Reads result (lines.timelines_at name.now (words_left words.entry)) }
{
    if name == b"print".as_slice() {
        report(words)
    } else if name == b"programme".as_slice() {
        programme(alloc, words)
    } else if name == b"timeline".as_slice() {
        timeline(alloc, words)
    } else {
        session(name, words)
    }
}

// The operands of the verb with this name. Most lines have one of the wall clock, so these stand first.
#[tactic(auto, unfolding(crate::specs::Lines::operands_at))]
fn operands<'a>(
    alloc: Global,
    name: &[u8],
    words: Words<'a>,
) -> Result<(Verb, Words<'a>), LineFault>
    ensures { Reads result (lines.operands_at name.now (words_left words.entry)) }
{
    if name == b"ask".as_slice() {
        ask(words)
    } else if name == b"take".as_slice() {
        take(words)
    } else if name == b"give".as_slice() {
        give(words)
    } else if name == b"land".as_slice() {
        land(words)
    } else if name == b"wall".as_slice() {
        wall(words)
    } else {
        timelines(alloc, name, words)
    }
}

// The operands of the verb of version 1 or 2 with this name.
fn named<'a>(
    alloc: Global,
    name: &[u8],
    words: Words<'a>,
    first: bool,
) -> Result<(Verb, Words<'a>), LineFault>
    ensures { Reads result (lines.named_at first name.now (words_left words.entry)) }
{
    if !first && name == b"sleep".as_slice() {
        Ok((Verb::Sleep, words))
    } else {
        operands(alloc, name, words)
    }
}

#[tactic(auto, unfolding(crate::specs::Lines::verb_in))]
fn verb<'a>(alloc: Global, words: Words<'a>, first: bool) -> Result<(Verb, Words<'a>), LineFault>
    ensures { Reads result (lines.verb_in first (words_left words.entry)) }
{
    let (name, rest) = word(words)?;
    named(alloc, name, rest, first)
}

// Whether a line of version 2 may have this number and this clock of a companion.
fn is_named(who: u32, l: u64, verb: &Verb) -> bool
    ensures { result ≡ is_named who l verb.now }
{
    who != 0 || l == 0 && !verb.is_own()
}

// The number of a line's companion. In version 1 there is only one, and no word for it.
fn companion<'a>(
    words: Words<'a>,
    first: bool,
    companions: u32,
) -> Result<(u64, Words<'a>), LineFault>
    ensures value { Reads result (lines.who_at first companions (words_left words.entry)) }
    ensures range { IfOk result (λ x. x.0 < 2 ^ 32) }
{
    if first {
        Ok((1, words))
    } else {
        number(words, u64::from(companions) + 1)
    }
}

// The line of version 1 or 2 that these words are, where there are so many companions.
#[tactic(auto, unfolding(crate::specs::Lines::line_by))]
fn line(alloc: Global, words: Words<'_>, first: bool, companions: u32) -> Result<Line, LineFault>
    ensures { GivesBy (λ x. x) faults.Memory result (lines.line_by first companions (words_left words.entry)) }
{
    let (t, rest) = time(words)?;
    let (w, rest) = time(rest)?;
    let (who, rest) = companion(rest, first, companions)?;
    let (l, rest) = time(rest)?;
    let (verb, rest) = verb(alloc, rest, first)?;
    let who = who as u32;
    let named = is_named(who, l, &verb);
    ended(Line { t, w, who, l, verb }, rest, named)
}

/// Reads a line of a schedule after its header, without its line feed, in a version and with so many companions.
///
/// In version 1 the words are `T W L VERB ..`, in version 2 `T W K L VERB ..`, with exactly one space between two of
/// them. T, W and L are true time, the television's wall clock and the companion's clock, in nanoseconds below 2^32
/// seconds. K is the companion's number, or 0. The verbs, with readings R below 2^32 seconds and numbers I, J and N
/// from 1 to 2^32 - 1:
///
/// - `ask R`, `take I R`, `give J R`, `land I R`, `wall R` and `print R`
/// - `programme ID` and `timeline N SELECTOR UPT UPS BASE`: ID and SELECTOR are words of bytes from `!` to `~`, UPT
///   units per tick and UPS units per second are 1 to 10^9, and BASE is signed with at most 18 digits
/// - `change R N`, `speed R S` and `seek R M`: S is signed with at most 3 digits, M with at most 18
/// - `open KIND`, `text KIND` and `close KIND`, where KIND is `cii` or `ts`, and `up ts`
/// - `present EC EW LC LW`: the content times EC and LC are signed with at most 18 digits; the wall time EW is a number
///   below 2^63 or `minusinfinity`, and LW a number below 2^63 or `plusinfinity`
/// - `sleep`, in version 2
///
/// A line of version 1 is that of companion 1. With K 0 the line is the television's alone: L is `0`, and the verb is
/// `take`, `give`, `programme`, `timeline`, `change`, `speed` or `seek`. Anything else is `Form`.
pub fn read_line(
    alloc: Global,
    bytes: &[u8],
    version: u32,
    companions: u32,
) -> Result<Line, LineFault>
    requires { IsVersion version }
    ensures value { GivesBy (λ x. x) faults.Memory result (lines.line_in version companions bytes.now) }
    ensures range { IfOk result IsLine }
    ensures of { IfOk result (IsOf (version == 1) companions) }
{
    line(alloc, all_words(bytes), version == 1, companions)
}

// A viewer's command of a script, by its name. It has no reading, and 0 stands in its place.
#[tactic(auto, unfolding(crate::specs::Lines::due_command_at))]
fn due_command<'a>(name: &[u8], words: Words<'a>) -> Result<(Verb, Words<'a>), LineFault>
    ensures { Reads result (lines.due_command_at name.now (words_left words.entry)) }
{
    let (command, rest) = command(name, words)?;
    Ok((
        Verb::Viewer {
            reading: 0,
            command,
        },
        rest,
    ))
}

// The operands of the verb with this name in a script.
#[tactic(auto, unfolding(crate::specs::Lines::script_operands_at))]
fn script_operands<'a>(
    alloc: Global,
    name: &[u8],
    words: Words<'a>,
) -> Result<(Verb, Words<'a>), LineFault>
    ensures { Reads result (lines.script_operands_at name.now (words_left words.entry)) }
{
    if name == b"programme".as_slice() {
        programme(alloc, words)
    } else if name == b"timeline".as_slice() {
        timeline(alloc, words)
    } else {
        due_command(name, words)
    }
}

#[tactic(auto, unfolding(crate::specs::Lines::script_verb_at))]
fn script_verb<'a>(alloc: Global, words: Words<'a>) -> Result<(Verb, Words<'a>), LineFault>
    ensures { Reads result (lines.script_verb_at (words_left words.entry)) }
{
    let (name, rest) = word(words)?;
    script_operands(alloc, name, rest)
}

// The line of a script that these words are.
#[tactic(auto, unfolding(crate::specs::Lines::script_of_words))]
fn script_line(alloc: Global, words: Words<'_>) -> Result<ScriptLine, LineFault>
    ensures { GivesBy (λ x. x) faults.Memory result (lines.script_of_words (words_left words.entry)) }
{
    let (due, rest) = time(words)?;
    let (verb, rest) = script_verb(alloc, rest)?;
    ended(ScriptLine { due, verb }, rest, true)
}

/// Reads a line of a television's script, without its line feed.
///
/// The words are `W VERB ..` with exactly one space between two of them. W is the television's wall clock at which the
/// line is due, in nanoseconds below 2^32 seconds. The verbs are `programme ID`, `timeline N SELECTOR UPT UPS BASE`,
/// `change N`, `speed S` and `seek M`, with the operands of a schedule's line. Anything else is `Form`.
#[tactic(auto, using(crate::proofs::InRange::script_in_range))]
pub fn read_script(alloc: Global, bytes: &[u8]) -> Result<ScriptLine, LineFault>
    ensures value { GivesBy (λ x. x) faults.Memory result (lines.script_of bytes.now) }
    ensures range { IfOk result IsScriptLine }
{
    script_line(alloc, all_words(bytes))
}
