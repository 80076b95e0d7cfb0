ghost use Rattle.std.specs.Prelude.{◌≡◌, ◌≤◌, ◌==◌, ◌++◌, ◌∷◌, [], ℕ, length, decimal, IfOk, OnOk};
ghost use Rattle.std.specs.Fmt.{signed_decimal};
ghost use Rattle.css_tsmsg.specs.Presentations.{content_text, wall_text};
ghost use Rattle.css_schedule.specs.Headers.{max_companions, header_of, whole_header_of};
ghost use Rattle.css_schedule.specs.Lines.{line_in};
ghost use Rattle.css_printed.specs.Printed as printed;
ghost use Rattle.css_schedule.specs.Words.{with_words, stem_word};
ghost use Rattle.css_schedule.specs.Ranges.{IsVersion, IsCount, FitsFirst, IsLine, IsOf, IsPrintable};
ghost use Rattle.css_schedule.specs.declared.header.Start.TheVariants as starts;
ghost use Rattle.css_schedule.specs.declared.line.Verb.TheVariants as verbs;

use css_num::{Kind, Memory, Rate, Text};
use css_player::Command;
use css_schedule::{CompanionLine, Companions, Header, Line, Verb};
use css_tsmsg::Bound;
use std::alloc::Global;

// Each call below appends words to a text, a space before each.

fn add_word(text: &mut Text, word: &[u8]) -> Result<(), Memory>
    ensures { OnOk result (text.new ≡ with_words text.old (word.now ∷ [])) }
{
    text.push(b" ")?;
    text.push(word)
}

fn add_number(text: &mut Text, number: u64) -> Result<(), Memory>
    ensures { OnOk result (text.new ≡ with_words text.old (decimal number ∷ [])) }
{
    text.push(b" ")?;
    text.push_number(i128::from(number))
}

fn add_signed(text: &mut Text, number: i64) -> Result<(), Memory>
    ensures { OnOk result (text.new ≡ with_words text.old (signed_decimal number ∷ [])) }
{
    text.push(b" ")?;
    text.push_number(i128::from(number))
}

fn add_reading(text: &mut Text, name: &[u8], reading: u64) -> Result<(), Memory>
    ensures { OnOk result (text.new ≡ with_words text.old (name.now ∷ decimal reading ∷ [])) }
{
    add_word(text, name)?;
    add_number(text, reading)
}

fn add_numbered(text: &mut Text, name: &[u8], number: u32, reading: u64) -> Result<(), Memory>
    ensures { OnOk result (text.new ≡ with_words text.old (name.now ∷ decimal number ∷ decimal reading ∷ [])) }
{
    add_word(text, name)?;
    add_number(text, u64::from(number))?;
    add_number(text, reading)
}

fn add_programme(text: &mut Text, content_id: &Text) -> Result<(), Memory>
    ensures { OnOk result (text.new ≡ with_words text.old (printed.verb_words (verbs.Programme content_id.now))) }
{
    add_word(text, b"programme")?;
    add_word(text, content_id.bytes())
}

fn add_rate(text: &mut Text, rate: Rate) -> Result<(), Memory>
    ensures { OnOk result (text.new ≡ with_words text.old (printed.rate_words rate)) }
{
    add_number(text, u64::from(rate.units_per_tick))?;
    add_number(text, u64::from(rate.units_per_second))
}

fn add_timeline(
    text: &mut Text,
    programme: u32,
    selector: &Text,
    rate: Rate,
    base: i64,
) -> Result<(), Memory>
    ensures { OnOk result (text.new ≡ with_words text.old (printed.timeline_words programme selector.now rate base)) }
{
    add_word(text, b"timeline")?;
    add_number(text, u64::from(programme))?;
    add_word(text, selector.bytes())?;
    add_rate(text, rate)?;
    add_signed(text, base)
}

fn command_name(command: Command) -> &'static [u8]
    ensures { result.now ≡ printed.command_name command }
{
    match command {
        Command::Change(_) => b"change",
        Command::Speed(_) => b"speed",
        Command::Seek(_) => b"seek",
    }
}

fn add_operand(text: &mut Text, command: Command) -> Result<(), Memory>
    ensures { OnOk result (text.new ≡ with_words text.old (printed.command_word command ∷ [])) }
{
    match command {
        Command::Change(programme) => add_number(text, u64::from(programme)),
        Command::Speed(speed) => add_signed(text, i64::from(speed)),
        Command::Seek(media) => add_signed(text, media),
    }
}

fn add_viewer(text: &mut Text, reading: u64, command: Command) -> Result<(), Memory>
    ensures { OnOk result (text.new ≡ with_words text.old (printed.verb_words (verbs.Viewer reading command))) }
{
    add_reading(text, command_name(command), reading)?;
    add_operand(text, command)
}

fn kind_word(kind: Kind) -> &'static [u8]
    ensures { result.now ≡ printed.kind_word kind }
{
    match kind {
        Kind::Cii => b"cii",
        Kind::Ts => b"ts",
    }
}

fn add_session(text: &mut Text, name: &[u8], kind: Kind) -> Result<(), Memory>
    ensures { OnOk result (text.new ≡ with_words text.old (name.now ∷ printed.kind_word kind ∷ [])) }
{
    add_word(text, name)?;
    add_word(text, kind_word(kind))
}

fn content(bound: Bound) -> i64
    ensures { signed_decimal result ≡ content_text bound }
{
    match bound {
        Bound::At { content, .. } => content,
        Bound::MinusInfinity { content } => content,
        Bound::PlusInfinity { content } => content,
    }
}

fn add_wall_time(text: &mut Text, bound: Bound) -> Result<(), Memory>
    ensures { OnOk result (text.new ≡ with_words text.old (wall_text bound ∷ [])) }
{
    match bound {
        Bound::At { wall, .. } => add_number(text, wall),
        Bound::MinusInfinity { .. } => add_word(text, b"minusinfinity"),
        Bound::PlusInfinity { .. } => add_word(text, b"plusinfinity"),
    }
}

fn add_bound(text: &mut Text, bound: Bound) -> Result<(), Memory>
    ensures { OnOk result (text.new ≡ with_words text.old (printed.bound_words bound)) }
{
    add_signed(text, content(bound))?;
    add_wall_time(text, bound)
}

fn add_window(text: &mut Text, earliest: Bound, latest: Bound) -> Result<(), Memory>
    ensures { OnOk result (text.new ≡ with_words text.old (printed.verb_words (verbs.Present earliest latest))) }
{
    add_word(text, b"present")?;
    add_bound(text, earliest)?;
    add_bound(text, latest)
}

fn add_verb(text: &mut Text, verb: &Verb) -> Result<(), Memory>
    ensures { OnOk result (text.new ≡ with_words text.old (printed.verb_words verb.now)) }
{
    match verb {
        Verb::Ask { reading } => add_reading(text, b"ask", *reading),
        Verb::Take { request, reading } => add_numbered(text, b"take", *request, *reading),
        Verb::Give { take, reading } => add_numbered(text, b"give", *take, *reading),
        Verb::Land { datagram, reading } => add_numbered(text, b"land", *datagram, *reading),
        Verb::Wall { reading } => add_reading(text, b"wall", *reading),
        Verb::Print { reading } => add_reading(text, b"print", *reading),
        Verb::Programme { content_id } => add_programme(text, content_id),
        Verb::Timeline {
            programme,
            selector,
            rate,
            base,
        } => add_timeline(text, *programme, selector, *rate, *base),
        Verb::Viewer { reading, command } => add_viewer(text, *reading, *command),
        Verb::Opening { kind } => add_session(text, b"open", *kind),
        Verb::Bring { kind } => add_session(text, b"text", *kind),
        Verb::Up => add_session(text, b"up", Kind::Ts),
        Verb::Present { earliest, latest } => add_window(text, *earliest, *latest),
        Verb::Close { kind } => add_session(text, b"close", *kind),
        Verb::Sleep => add_word(text, b"sleep"),
    }
}

// The clocks of a line, and in version 2 the companion's number.
fn add_clocks(text: &mut Text, line: &Line, version: u32) -> Result<(), Memory>
    ensures { OnOk result (text.new ≡ with_words text.old (printed.clock_words (version == 1) line.now)) }
{
    add_number(text, line.w)?;
    if version != 1 {
        add_number(text, u64::from(line.who))?;
    }
    add_number(text, line.l)
}

/// Writes a line of a schedule after its header, in a version and without its line feed. `read_line` reads the same
/// line back, where there are enough companions.
///
/// The line's numbers are in the ranges that `read_line` names for the version, and its texts are words of bytes from
/// `!` to `~`. There are at most 16 companions.
#[tactic(auto, using(crate::proofs::ReadBack::line_back_in))]
pub fn print_line(alloc: Global, line: &Line, version: u32) -> Result<Text, Memory>
    requires version { IsVersion version }
    requires line { IsLine line.now }
    requires of { IsOf (version == 1) max_companions line.now }
    ensures text { IfOk result (λ text. text ≡ printed.line_text_in version line.now) }
    ensures read_back { IfOk result (λ text. (companions : ℕ) → line.now.who ≤ companions → companions ≤ max_companions
        → line_in version companions text ≡ Ok line.now) }
{
    let mut text = Text::new(alloc);
    text.push_number(i128::from(line.t))?;
    add_clocks(&mut text, line, version)?;
    add_verb(&mut text, &line.verb)?;
    Ok(text)
}

fn mode_word(follow: bool) -> &'static [u8]
    ensures { result.now ≡ printed.mode_word follow }
{
    if follow { b"follow" } else { b"plain" }
}

fn add_stem(text: &mut Text, stem: &Text) -> Result<(), Memory>
    ensures { OnOk result (text.new ≡ with_words text.old (stem_word stem.now ∷ [])) }
{
    if stem.bytes().is_empty() {
        add_word(text, b"-")
    } else {
        add_word(text, stem.bytes())
    }
}

fn add_companion(text: &mut Text, companion: &CompanionLine) -> Result<(), Memory>
    ensures { OnOk result (text.new ≡ with_words text.old (printed.companion_words companion.now)) }
{
    add_number(text, u64::from(companion.local.error))?;
    add_number(text, companion.local.precision)?;
    add_word(text, companion.selector.bytes())?;
    add_stem(text, &companion.stem)
}

// The words of the first companion, which is the only one in version 1.
fn add_first(text: &mut Text, companions: &Companions) -> Result<(), Memory>
    ensures { OnOk result (text.new ≡ with_words text.old (printed.first_words companions.now)) }
{
    match companions.list().first() {
        None => Ok(()),
        Some(companion) => add_companion(text, companion),
    }
}

// What the television declares, after the word for the version.
fn add_declared(text: &mut Text, version: &[u8], header: &Header) -> Result<(), Memory>
    ensures { OnOk result (text.new ≡ with_words text.old (version.now ∷ printed.declared_words header.now [])) }
{
    add_word(text, version)?;
    add_word(text, mode_word(header.follow))?;
    add_number(text, u64::from(header.tv_error))?;
    add_signed(text, i64::from(header.tv_precision))
}

// The line of the companion with this number, after a line feed.
fn add_companion_line(text: &mut Text, number: u32, companion: &CompanionLine) -> Result<(), Memory>
    ensures { OnOk result (text.new ≡ printed.with_companions text.old number (companion.now ∷ [])) }
{
    text.push(b"\ncompanion")?;
    add_number(text, u64::from(number))?;
    add_companion(text, companion)
}

// The lines of these companions, a line feed before each.
fn add_companion_lines(text: &mut Text, companions: &[CompanionLine]) -> Result<(), Memory>
    requires { IsCount (length companions.now) }
    ensures { OnOk result (text.new ≡ printed.with_companions text.old 1 companions.now) }
{
    let mut number = 1;
    for companion in companions.iter() {
        add_companion_line(text, number, companion)?;
        number += 1;
    }
    Ok(())
}

// The header's line of version 1.
fn first_header(alloc: Global, header: &Header) -> Result<Text, Memory>
    ensures { IfOk result (λ text. text ≡ printed.header_text header.now) }
{
    let mut text = Text::of(alloc, b"css-schedule")?;
    add_declared(&mut text, b"1", header)?;
    add_first(&mut text, &header.companions)?;
    Ok(text)
}

// The header's lines of version 2.
fn second_header(alloc: Global, header: &Header) -> Result<Text, Memory>
    requires { IsCount (length header.now.companions) }
    ensures { IfOk result (λ text. text ≡ printed.second_text header.now) }
{
    let companions = header.companions.list();
    let mut text = Text::of(alloc, b"css-schedule")?;
    add_declared(&mut text, b"2", header)?;
    add_number(&mut text, companions.len() as u64)?;
    add_companion_lines(&mut text, companions)?;
    Ok(text)
}

/// Writes the header of a schedule in a version: its first line and, in version 2, the lines of its companions. A line
/// feed stands between two lines, and none at the end. The same header is read back by `read_header` and, line by line,
/// by `read_companion`.
///
/// The header's numbers are in the ranges that `read_header` names. Each selector is a word of bytes from `!` to `~`,
/// and each stem is empty or such a word other than `-`. In version 1 there is one companion, in version 2 there are 1
/// to 16.
#[tactic(auto, using(crate::proofs::HeadersBack::header_back_in, crate::proofs::HeadersBack::header_back))]
pub fn print_header(alloc: Global, header: &Header, version: u32) -> Result<Text, Memory>
    requires version { IsVersion version }
    requires companions { FitsFirst (version == 1) (length header.now.companions) }
    requires range { IsPrintable header.now }
    ensures text { IfOk result (λ text. text ≡ printed.header_text_in version header.now) }
    ensures read_back { IfOk result (λ text. whole_header_of text ≡ Ok header.now) }
    ensures line { IfOk result (λ text. version ≡ 1 → header_of text ≡ Ok (starts.One header.now)) }
{
    if version == 1 {
        first_header(alloc, header)
    } else {
        second_header(alloc, header)
    }
}
