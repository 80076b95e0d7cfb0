//! When a run of a companion or of a relay asks the wall clock, how long it makes turns, and how long it may rest.
ghost use Rattle.std.specs.Prelude.{◌≡◌};
ghost use Rattle.css_outside.specs.Limits.{IsLimit};
ghost use Rattle.css_drive.specs.CompanionTurns as turns;

use crate::companion_live::Live;
use css_outside::Limit;

/// Whether a request is due in a turn, where the last one was sent in the turn of this reading.
pub fn is_time(every: u64, turn: Option<u64>, asked: Option<u64>) -> bool
    ensures { result ≡ turns.is_asking every turn asked }
{
    match asked {
        None => true,
        Some(asked) => {
            let turn = turn.unwrap_or(0);
            asked <= turn && every <= turn - asked
        }
    }
}

/// Whether a turn is the last by its time.
pub fn is_late(limit: Limit, first: Option<u64>, turn: Option<u64>) -> bool
    requires { IsLimit limit }
    ensures { result ≡ turns.is_late limit first turn }
{
    match first {
        None => false,
        Some(first) => {
            let turn = turn.unwrap_or(0);
            first <= turn && limit.is_over(0, turn - first)
        }
    }
}

/// Whether another turn follows, where so many were made.
pub fn goes_on(limit: Limit, first: Option<u64>, turn: Option<u64>, made: u64) -> bool
    requires { IsLimit limit }
    ensures { result ≡ turns.goes_on limit first turn made }
{
    made < limit.most_turns() && !is_late(limit, first, turn)
}

/// The least reading at which something is due by the clock, of what a companion and a relay do alike: the next
/// request, or the last turn.
pub fn next_due(live: &Live, limit: Limit, ask_every: u64) -> u64 {
    let last = limit.last_from(live.first.unwrap_or(0));
    match (live.wc, live.asked) {
        (None, _) => last,
        (Some(_), None) => 0,
        (Some(_), Some(asked)) => last.min(asked.saturating_add(ask_every)),
    }
}
