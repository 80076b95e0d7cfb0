ghost use Rattle.std.specs.Prelude.{◌≡◌, ◌≤◌, IfOk};
ghost use Rattle.css_gen.specs.Opening as opening;
ghost use Rattle.css_gen.specs.Generated.{header_for};

use css_num::{Memory, Rate, Text};
use css_player::Command;
use css_schedule::{CompanionLine, Companions, Header, Line, Verb};
use css_sessions::Kind;
use css_span::Local;
use std::alloc::Global;

/// The selector of a PTS timeline.
const PTS: &[u8] = b"urn:dvb:css:timeline:pts";

/// The one companion.
fn companion(alloc: Global) -> Result<CompanionLine, Memory>
    ensures { IfOk result (λ companion. companion ≡ opening.companion) }
{
    Ok(CompanionLine {
        local: Local {
            error: 12_800,
            precision: 1000,
        },
        selector: Text::of(alloc, PTS)?,
        stem: Text::of(alloc, b"dvb://")?,
    })
}

/// The header of a generated schedule of so many companions, which are declared alike.
pub(crate) fn header(alloc: Global, companions: u32) -> Result<Header, Memory>
    ensures { IfOk result (λ header. header ≡ header_for companions) }
{
    let mut list = Vec::new(alloc);
    for declared in 0..companions {
        list.push(companion(alloc)?)?;
    }
    Ok(Header {
        follow: true,
        tv_error: 12_800,
        tv_precision: -20,
        companions: Companions::of(list),
    })
}

#[tactic(auto, unfolding(crate::specs::Opening::opening_verb))]
fn programme(alloc: Global) -> Result<Verb, Memory>
    ensures { IfOk result (λ verb. verb ≡ opening.opening_verb 2) }
{
    Ok(Verb::Programme {
        content_id: Text::of(alloc, b"dvb://1.2.3")?,
    })
}

#[tactic(auto, unfolding(crate::specs::Opening::opening_verb))]
fn timeline(alloc: Global) -> Result<Verb, Memory>
    ensures { IfOk result (λ verb. verb ≡ opening.opening_verb 3) }
{
    Ok(Verb::Timeline {
        programme: 1,
        selector: Text::of(alloc, PTS)?,
        rate: Rate {
            units_per_tick: 1,
            units_per_second: 90_000,
        },
        base: 0,
    })
}

/// What happens at the line of that number, 2 to 9.
#[tactic(auto, unfolding(crate::specs::Opening::opening_verb))]
pub(crate) fn opening_verb(alloc: Global, number: u64) -> Result<Verb, Memory>
    ensures { IfOk result (λ verb. verb ≡ opening.opening_verb number) }
{
    match number {
        2 => programme(alloc),
        3 => timeline(alloc),
        4 => Ok(Verb::Viewer {
            reading: 1_000_000_000,
            command: Command::Change(1),
        }),
        5 => Ok(Verb::Opening { kind: Kind::Cii }),
        6 => Ok(Verb::Bring { kind: Kind::Cii }),
        7 => Ok(Verb::Opening { kind: Kind::Ts }),
        8 => Ok(Verb::Up),
        _ => Ok(Verb::Bring { kind: Kind::Ts }),
    }
}

/// The line of that number, 2 to 9: all of these are at true time 0, where both clocks show one second.
pub(crate) fn opening_line(alloc: Global, number: u64) -> Result<Line, Memory>
    ensures { IfOk result (λ line. line ≡ opening.opening_line number) }
{
    Ok(Line {
        t: 0,
        w: 1_000_000_000,
        who: 1,
        l: 1_000_000_000,
        verb: opening_verb(alloc, number)?,
    })
}
