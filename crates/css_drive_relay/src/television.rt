//! The calls that a relay makes of the television, by the stages of a companion's run. Nobody observes that run.
ghost use Rattle.std.specs.Prelude.{◌≤◌, None};
ghost use Rattle.css_companion.specs.declared.binding.Binding.TheVariants.{WallClock};
ghost use Rattle.css_drive.specs.CompanionStanding as companions;
ghost use Rattle.css_drive.specs.CompanionStanding.{shown, Calls, HasRead};
ghost use Rattle.css_drive.specs.Stages.{HearsOnce, at, at_of};
ghost use Rattle.css_drive.specs.declared.session.Session.TheVariants as sessions;
ghost use Rattle.css_drive_relay.specs.Standing.{DialsAndAsks, HasDialled, Stays, UnlessFault};

use css_companion::{Binding, Companion};
use css_drive::{Driven, Live as Own, Run, Session};
use css_outside::{Address, Clocked, Outside, Why};
use std::alloc::Global;

/// Reads the clock. Where the machine slept, the companion forgets what it asked before the reading is used.
pub fn read<O: Outside>(
    alloc: Global,
    companion: &mut Companion,
    outside: &mut O,
    own: &mut Own,
    why: Why,
) -> Result<Clocked, Driven>
    requires { companion.old.client.floor ≤ (O.counts outside.old).last }
    ensures called { Calls (shown (O.told outside.old) (O.counts outside.old))
        (shown (O.told outside.new) (O.counts outside.new)) None
        (λ old new. HasRead old new own.old own.new companion.old companion.new why) result }
    ensures stays { Stays (O.counts outside.old) (O.counts outside.new) own.old own.new companion.old companion.new
        result }
{
    let mut run = Run {
        alloc,
        companion,
        outside,
        observer: &mut (),
        live: own,
    };
    run.read(why)
}

/// Makes the calls of [`dial_and_ask`] in a run.
fn dial_and_ask_in<O: Outside>(
    run: &mut Run<'_, O, ()>,
    cii: &Address,
    every: u64,
) -> Result<(), Driven>
    requires { run.old.companion.now.client.floor ≤ (O.counts run.old.outside.now).last }
    ensures called { DialsAndAsks cii.now every (at O.told O.counts run.old) (at O.told O.counts run.new) result }
    ensures tried { UnlessFault (HasDialled (O.counts run.old.outside.now) (O.counts run.new.outside.now)
        run.new.live.now) result }
    ensures stays { companions.Stays O.counts run.old run.new result }
{
    run.dial_cii(cii)?;
    run.dial_wc()?;
    run.ask(every)
}

/// Dials the session of CSS-CII and the wall clock, while no dial of them succeeded, and asks the wall clock where it
/// is time.
pub fn dial_and_ask<O: Outside>(
    alloc: Global,
    companion: &mut Companion,
    outside: &mut O,
    own: &mut Own,
    cii: &Address,
    every: u64,
) -> Result<(), Driven>
    requires { companion.old.client.floor ≤ (O.counts outside.old).last }
    ensures called { DialsAndAsks cii.now every
        (at_of (shown (O.told outside.old) (O.counts outside.old)) own.old companion.old)
        (at_of (shown (O.told outside.new) (O.counts outside.new)) own.new companion.new) result }
    ensures tried { UnlessFault (HasDialled (O.counts outside.old) (O.counts outside.new) own.new) result }
    ensures stays { Stays (O.counts outside.old) (O.counts outside.new) own.old own.new companion.old companion.new
        result }
{
    let mut run = Run {
        alloc,
        companion,
        outside,
        observer: &mut (),
        live: own,
    };
    dial_and_ask_in(&mut run, cii, every)
}

/// Hears the session of CSS-CII, where it is open, and tells whether a text came.
pub fn hear<O: Outside>(
    alloc: Global,
    companion: &mut Companion,
    outside: &mut O,
    own: &mut Own,
) -> Result<bool, Driven>
    ensures called { HearsOnce WallClock None sessions.Cii own.old.cii_open
        (at_of (shown (O.told outside.old) (O.counts outside.old)) own.old companion.old)
        (at_of (shown (O.told outside.new) (O.counts outside.new)) own.new companion.new) result }
    ensures stays { Stays (O.counts outside.old) (O.counts outside.new) own.old own.new companion.old companion.new
        result }
{
    let mut run = Run {
        alloc,
        companion,
        outside,
        observer: &mut (),
        live: own,
    };
    run.hear(Session::Cii, Binding::WallClock)
}
