ghost use Rattle.std.specs.Prelude.{◌≡◌, ◌≤◌, ◌+◌, ◌++◌, decimal, IfOk, OnOk, OnErr};
ghost use Rattle.css_printed.specs.Printed as printed;
ghost use Rattle.css_gen.specs.Second as second;
ghost use Rattle.css_gen.specs.Standing.{IsReady};

use crate::crowd::Crowd;
use crate::opening::opening_verb;
use css_num::{Memory, Text};
use css_printed::print_line;
use css_schedule::Line;
use std::alloc::Global;

/// How many lines open the schedule: line 1, one for each companion, three of the television, and five for the sessions
/// of each companion.
fn openings(companions: u32) -> u64
    ensures { result ≡ second.openings companions }
{
    u64::from(companions) + 4 + 5 * u64::from(companions)
}

/// Appends a number in decimal.
fn push_count(text: &mut Text, count: u64) -> Result<(), Memory>
    ensures { OnOk result (text.new ≡ text.old ++ decimal count) }
{
    text.push_number(i128::from(count))
}

/// Line 1.
fn header_text(alloc: Global, companions: u64) -> Result<Text, Memory>
    ensures { IfOk result (λ text. text ≡ second.second_header_text companions) }
{
    let mut text = Text::of(alloc, b"css-schedule 2 follow 12800 -20 ")?;
    push_count(&mut text, companions)?;
    Ok(text)
}

/// The line of a companion.
fn companion_text(alloc: Global, who: u64) -> Result<Text, Memory>
    ensures { IfOk result (λ text. text ≡ second.companion_text who) }
{
    let mut text = Text::of(alloc, b"companion ")?;
    push_count(&mut text, who)?;
    text.push(b" 12800 1000 urn:dvb:css:timeline:pts dvb://")?;
    Ok(text)
}

/// The line of that place. The television's lines are at the places 2 to 4, and five of each companion follow: all of
/// them are at true time 0, where each clock shows one second.
fn line_placed(alloc: Global, place: u64) -> Result<Line, Memory>
    requires low { 2 ≤ place }
    requires high { place ≤ 84 }
    ensures { IfOk result (λ line. line ≡ second.line_placed place) }
{
    let own = place >= 5;
    let number = if own { 5 + place % 5 } else { place };
    Ok(Line {
        t: 0,
        w: 1_000_000_000,
        who: if own { (place / 5) as u32 } else { 0 },
        l: if own { 1_000_000_000 } else { 0 },
        verb: opening_verb(alloc, number)?,
    })
}

fn placed_text(alloc: Global, place: u64) -> Result<Text, Memory>
    requires low { 2 ≤ place }
    requires high { place ≤ 84 }
    ensures { IfOk result (λ text. text ≡ printed.line_text_in 2 (second.line_placed place)) }
{
    print_line(alloc, &line_placed(alloc, place)?, 2)
}

/// The text of the line of that number, from 1 on, where the lines after the opening have come to this crowd.
pub(crate) fn second_text(alloc: Global, crowd: &mut Crowd, number: u64) -> Result<Text, Memory>
    requires number { 1 ≤ number }
    requires ready { IsReady crowd.old }
    ensures text { IfOk result (λ text. text ≡ second.second_text_from crowd.old number) }
    ensures crowd { OnOk result (crowd.new ≡ second.crowd_from crowd.old number) }
    ensures refused { OnErr result (crowd.new ≡ crowd.old) }
{
    let companions = u64::from(crowd.companions);
    if number == 1 {
        header_text(alloc, companions)
    } else if number <= companions + 1 {
        companion_text(alloc, number - 1)
    } else if number <= openings(crowd.companions) {
        placed_text(alloc, number - companions)
    } else {
        crowd.next_text(alloc)
    }
}

/// The line of that number, after those of the companions, where the lines after the opening have come to this crowd.
pub(crate) fn second_line(alloc: Global, crowd: &mut Crowd, number: u64) -> Result<Line, Memory>
    requires number { crowd.old.companions + 2 ≤ number }
    requires ready { IsReady crowd.old }
    ensures line { IfOk result (λ line. line ≡ second.second_line_from crowd.old number) }
    ensures crowd { OnOk result (crowd.new ≡ second.crowd_from crowd.old number) }
    ensures refused { OnErr result (crowd.new ≡ crowd.old) }
{
    if number <= openings(crowd.companions) {
        line_placed(alloc, number - u64::from(crowd.companions))
    } else {
        crowd.next_line()
    }
}
