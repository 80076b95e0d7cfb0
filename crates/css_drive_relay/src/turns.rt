//! The turns of a relay's visit over any devices.
ghost use Rattle.std.specs.Prelude.{◌≡◌, ◌≤◌, ◌<◌, ◌+◌, ◌⊎◌, ℕ, [], true, false, OnOk, IfErr, IfSome, None};
ghost use Rattle.css_model.specs.History.{History};
ghost use Rattle.css_outside.specs.Outsides.{Counts};
ghost use Rattle.css_drive.specs.CompanionStanding.{Shown, shown, IsEarly, IsFault};
ghost use Rattle.css_drive_relay.specs.Due.{final, is_left};
ghost use Rattle.css_drive_relay.specs.Places.{Asked, Begun as Start, Facts};
ghost use Rattle.css_drive_relay.specs.Standing.{facts_in, placed, stood, HasDialled, HasTried, IsAt, Keeps};
ghost use Rattle.css_drive_relay.specs.Standing.{Leads, Stands, Stops, UnlessFault};

use crate::live::Live;
use crate::plan::Plan;
use crate::sessions::{Visit, hear_television, visit_all, welcome};
use crate::stages::{read, serve};
use crate::television::dial_and_ask;
use css_drive::Driven;
use css_drive::calls::rest;
use css_drive::timing::{goes_on, is_late, next_due};
use css_outside::{Outside, Why};

/// Makes the calls of a turn: to the television, to further companions, and what it hears of all of them. The turn ends
/// where the visit does.
fn calls<O: Outside>(plan: &Plan, live: &mut Live, outside: &mut O) -> Result<(), Driven>
    requires floor { live.old.relay.companion.client.floor ≤ (O.counts outside.old).last }
    ensures goes { Leads O.told O.counts plan.now outside.old outside.new live.old live.new
        (placed (λ f. Start)) (IsAt (λ f. Asked [])) result }
    ensures keeps { Keeps (O.counts outside.old) (O.counts outside.new) live.old live.new result }
    ensures tried { UnlessFault (HasDialled (O.counts outside.old) (O.counts outside.new) live.new.own) result }
{
    dial_and_ask(
        live.alloc,
        live.relay.companion(),
        outside,
        &mut live.own,
        &plan.run.cii,
        plan.run.ask_every,
    )?;
    let until = next_due(&live.own, plan.run.limit, plan.run.ask_every);
    rest(outside, plan.run.limit, until);
    let served = serve(live, outside)?;
    if !served {
        return Ok(());
    }
    welcome(live, outside)?;
    let heard = hear_television(live, outside)?;
    if !heard {
        return Ok(());
    }
    visit_all(live, outside, &Visit::Hear)
}

/// Makes a turn. One that is the last by its time ends with its reading.
fn turn<O: Outside>(plan: &Plan, live: &mut Live, outside: &mut O) -> Result<(), Driven>
    requires floor { live.old.relay.companion.client.floor ≤ (O.counts outside.old).last }
    requires few { live.old.own.made < 1099511627776 }
    requires begun { IfSome live.old.own.first (λ _. 1 ≤ live.old.own.made) }
    ensures goes { is_left plan.now (facts_in live.old) ≡ true
        → Leads O.told O.counts plan.now outside.old outside.new live.old live.new
        (placed (λ f. Asked [])) (IsAt (λ f. Asked [])) result }
    ensures floor { OnOk result (live.new.relay.companion.client.floor ≤ (O.counts outside.new).last) }
    ensures begun { UnlessFault (IfSome live.new.own.first (λ _. 1 ≤ live.new.own.made)) result }
    ensures made { OnOk result (live.new.own.made ≡ live.old.own.made + 1) }
    ensures dials { (O.counts outside.old).dial_faults ≤ (O.counts outside.new).dial_faults }
    ensures tried { (before : Counts) → before.dial_faults ≤ (O.counts outside.old).dial_faults
        → HasTried plan.now before (O.counts outside.old) live.old.own
        → UnlessFault (HasTried plan.now before (O.counts outside.new) live.new.own) result }
    ensures early { IfErr result IsEarly }
{
    let reading = read(live, outside, Why::Turn)?.reading;
    live.own.begin(reading);
    if is_late(plan.run.limit, live.own.first, live.own.turn) {
        return Ok(());
    }
    calls(plan, live, outside)
}

/// Whether a turn is left.
fn has_turn(plan: &Plan, live: &Live) -> bool
    ensures { result ≡ is_left plan.now (facts_in live.now) }
{
    let own = &live.own;
    live.parting.is_none() && goes_on(plan.run.limit, own.first, own.turn, own.made)
}

/// How a visit's run ends of which no turn is left.
fn ending(plan: &Plan, own: &css_drive::Live) -> Driven
    ensures { (f : Facts) → f.cii ≡ own.now.cii → f.turns ≡ own.now.made → result ≡ final plan.now f }
{
    if plan.begun.reached || own.cii.is_some() {
        Driven::Done
    } else {
        Driven::Unreachable { turns: own.made }
    }
}

/// Makes the turns of a visit, until it is cut short or no turn is left.
pub fn make_turns<O: Outside>(plan: &Plan, live: &mut Live, outside: &mut O) -> Driven
    requires floor { live.old.relay.companion.client.floor ≤ (O.counts outside.old).last }
    requires begun { IfSome live.old.own.first (λ _. 1 ≤ live.old.own.made) }
    requires whole { live.old.parting ≡ None }
    ensures ends { (start : Shown) (history : History)
        → Stands plan.now start (shown (O.told outside.old) (O.counts outside.old)) live.old.relay
        (stood live.old (Asked [])) history
        → Stops plan.now start (shown (O.told outside.new) (O.counts outside.new)) live.new result }
    ensures begun { IsFault result ⊎ IfSome live.new.own.first (λ _. 1 ≤ live.new.own.made) }
    ensures dials { (O.counts outside.old).dial_faults ≤ (O.counts outside.new).dial_faults }
    ensures tried { (before : Counts) → before.dial_faults ≤ (O.counts outside.old).dial_faults
        → HasTried plan.now before (O.counts outside.old) live.old.own
        → IsFault result ⊎ HasTried plan.now before (O.counts outside.new) live.new.own }
    ensures unreachable { (turns : ℕ) → result ≡ Driven.Unreachable turns
        → (1 ≤ live.new.own.made) × (plan.now.begun.reached ≡ false) × (live.new.own.cii ≡ None) }
{
    'turns: while has_turn(plan, live) {
        if let Err(ended) = turn(plan, live, outside) {
            return ended;
        }
    }
    ending(plan, &live.own)
}
