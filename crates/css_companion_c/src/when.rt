//! When a tick is shown, by the own clock.
ghost use Rattle.std.specs.Prelude.{◌≡◌, ◌≢◌, ◌⊎◌};
ghost use Rattle.css_companion.specs.Reports.{IsTimed};
ghost use Rattle.css_companion.specs.Standing.{timing_now};
ghost use Rattle.css_companion_c.specs.Codes.{DONE, NEVER, if_agreeing, searched, Searches};
ghost use Rattle.css_companion_c.specs.When.{IsShownWithin, IsNeverShown, IsLeast, LooksAt, GoesBy};

use crate::codes;
use crate::follower::Follower;
use crate::reaching::{met, presented};
use crate::reading::cause_code;
use css_companion::{Companion, Timing};
use css_model::LIMIT;

/// Readings of the own clock, from one to another, both included.
#[repr(C)]
#[derive(Clone, Copy, Drop)]
pub struct Readings {
    pub from: u64,
    pub to: u64,
}

/// Between which readings the tick is shown by a timing, if it is.
fn between(companion: &Companion, tick: i64, timing: &Timing, out: &mut Readings) -> u32
    requires range { IsTimed timing.now }
    requires now { timing_now companion.now ≡ Ok timing.now }
    requires timed { GoesBy timing.now companion.now }
    ensures kept { result ≢ DONE → out.new ≡ out.old }
    ensures code { (result ≡ DONE) ⊎ (result ≡ NEVER) }
    ensures truth { result ≡ DONE → IsShownWithin tick out.new.from out.new.to companion.now }
    ensures least { result ≡ DONE → IsLeast tick out.new.from out.new.to companion.now }
    ensures never { result ≡ NEVER → IsNeverShown tick companion.now }
{
    let values = presented(timing, tick);
    let readings = met(
        companion.answers(),
        &companion.local(),
        &values,
        companion.floor(),
    );
    if readings.from >= readings.end {
        return codes::NEVER;
    }
    *out = Readings {
        from: readings.from as u64,
        to: (readings.end - 1) as u64,
    };
    codes::DONE
}

/// Between which readings the tick is shown, if it is. By the kept answers it may be shown at each of them.
fn found(companion: &Companion, tick: i64, out: &mut Readings) -> u32
    ensures kept { result ≢ DONE → out.new ≡ out.old }
    ensures code { Searches (searched companion.now) result }
    ensures truth { result ≡ DONE → IsShownWithin tick out.new.from out.new.to companion.now }
    ensures least { result ≡ DONE → IsLeast tick out.new.from out.new.to companion.now }
    ensures never { result ≡ NEVER → IsNeverShown tick companion.now }
{
    if companion.kept() == 0 {
        return codes::NO_ANSWER;
    }
    match companion.timing() {
        Err(cause) => cause_code(cause),
        Ok(timing) => between(companion, tick, &timing, out),
    }
}

/// The same, where the answers haven't disagreed.
pub(crate) fn when(follower: &Follower, tick: i64, out: &mut Readings) -> u32
    ensures kept { result ≢ DONE → out.new ≡ out.old }
    ensures code { Searches (if_agreeing follower.now (searched follower.now.companion)) result }
    ensures truth { result ≡ DONE → IsShownWithin tick out.new.from out.new.to follower.now.companion }
    ensures least { result ≡ DONE → IsLeast tick out.new.from out.new.to follower.now.companion }
    ensures never { result ≡ NEVER → IsNeverShown tick follower.now.companion }
{
    if follower.disagrees {
        return codes::DISAGREE;
    }
    found(&follower.companion, tick, out)
}

/// From which reading on the tick may be shown, or the greatest one where that isn't known.
pub(crate) fn first_look(companion: &Companion, tick: i64) -> u64
    ensures { LooksAt tick result companion.now }
{
    let mut readings = Readings {
        from: LIMIT - 1,
        to: LIMIT - 1,
    };
    let _ = found(companion, tick, &mut readings);
    readings.from
}
