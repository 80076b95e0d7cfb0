//! A relay's visits over any devices, one after another.
ghost use Rattle.std.specs.Prelude.{◌≡◌, ◌≤◌, [], true, false, IfOk, is_some};
ghost use Rattle.css_outside.specs.Outsides.{Counts};
ghost use Rattle.css_drive.specs.CompanionStanding.{Shown, shown, IsFault, no_calls};
ghost use Rattle.css_drive.specs.Ends.{CountsDialFaults};
ghost use Rattle.css_drive.specs.Visits.{parting_words, why};
ghost use Rattle.css_drive_relay.specs.Places.{beginning};
ghost use Rattle.css_drive_relay.specs.Ran.{IsWritable, RelayRan, CountsRelayRun, begun_by, nothing_begun};
ghost use Rattle.css_drive_relay.specs.Standing.{facts_in, Knows, Stops};
ghost use Rattle.css_drive_relay.specs.Staying.{Begins, BeginsBy, CountsTries, EndsBy, HasTriedBy, HasTurns, Makes};
ghost use Rattle.css_drive_relay.specs.Staying.{Stays};

use crate::begun::Begun;
use crate::config::RelayRun;
use crate::live::{Live, Published};
use crate::plan::Plan;
use crate::sessions::hang_up_all;
use crate::turns::make_turns;
use css_cii::State;
use css_companion::CompanionConfig;
use css_drive::calls::end_of;
use css_drive::{Driven, Parting};
use css_num::Memory;
use css_outside::Outside;
use css_relay::Relay;
use std::alloc::Global;

/// The greatest number of visits.
const MOST_VISITS: u64 = 1_099_511_627_776;

/// What came of a visit.
#[derive(Drop)]
pub enum Visited {
    /// Another one follows.
    Next(Begun),
    /// The relay's run is over.
    Over(Driven),
}

/// What a companion keeps that begins a visit after these.
fn own_after(begun: &Begun) -> css_drive::Live
    ensures { result
        ≡ record no_calls { made = begun.now.turns; first = begun.now.first; turn = begun.now.turn } }
{
    let mut own = css_drive::Live::new();
    own.made = begun.turns;
    own.first = begun.first;
    own.turn = begun.turn;
    own
}

/// What a visit begins with: a new companion, and nobody to serve.
fn begin(alloc: Global, plan: &Plan) -> Result<Live, Memory>
    requires { IsWritable plan.now.run }
    ensures known { IfOk result (λ live. Knows plan.now live.relay []) }
    ensures floor { IfOk result (λ live. live.relay.companion.client.floor ≡ 0) }
    ensures facts { IfOk result (λ live. facts_in live ≡ (beginning plan.now.begun).facts) }
{
    let run = &plan.run;
    let wanted = CompanionConfig {
        selector: run.companion.selector.clone()?,
        stem: run.companion.stem.clone()?,
        local: run.companion.local,
    };
    Ok(Live {
        alloc,
        relay: Relay::new(alloc, wanted, &run.host, run.port)?,
        own: own_after(&plan.begun),
        state: Published::new(State::empty()),
        peers: Vec::new(alloc),
        parting: None,
    })
}

/// Whether a run ended by a fault of the outside, or for want of memory.
fn is_fault(ended: &Driven) -> bool
    ensures yes { result ≡ true → IsFault ended.now }
    ensures no { result ≡ false → IsFault ended.now → ⊥ }
{
    match ended {
        Driven::NetFault(_) => true,
        Driven::Memory => true,
        _ => false,
    }
}

/// Whether another visit follows one that ended so.
fn is_followed(ended: &Driven, parting: &Option<Parting>) -> bool
    ensures { result ≡ is_some (why ended.now parting.now) }
{
    match ended {
        Driven::BadCii { .. } => true,
        Driven::Moved { .. } => true,
        Driven::BadUrl { .. } => true,
        Driven::Done => is_cause(parting),
        Driven::WriteFault => is_cause(parting),
        _ => false,
    }
}

/// Whether a visit that was cut short so is followed by another one.
fn is_cause(parting: &Option<Parting>) -> bool
    ensures { result ≡ is_some (parting_words parting.now) }
{
    match parting {
        Some(Parting::Closed(_)) => true,
        Some(Parting::Disagree) => true,
        _ => false,
    }
}

/// What goes over to the next visit.
fn next(plan: &Plan, live: &Live) -> Begun
    ensures { result ≡ begun_by plan.now (facts_in live.now) }
{
    Begun {
        turns: live.own.made,
        first: live.own.first,
        turn: live.own.turn,
        reached: plan.begun.reached || live.own.cii.is_some(),
    }
}

/// What follows a visit's run that ended so: its sessions are hung up, and another visit may follow.
fn after<O: Outside>(plan: &Plan, live: &Live, ended: Driven, outside: &mut O) -> Visited
    ensures follows { (start : Shown)
        → Stops plan.now start (shown (O.told outside.old) (O.counts outside.old)) live.now ended
        → Makes plan.now start (shown (O.told outside.new) (O.counts outside.new)) result }
    ensures begun { BeginsBy (begun_by plan.now (facts_in live.now)) result }
    ensures ends { EndsBy ended result }
    ensures dials { (O.counts outside.new).dial_faults ≡ (O.counts outside.old).dial_faults }
{
    if is_fault(&ended) {
        return Visited::Over(ended);
    }
    if let Err(fault) = hang_up_all(live, outside) {
        return Visited::Over(fault);
    }
    if is_followed(&ended, &live.parting) {
        return Visited::Next(next(plan, live));
    }
    Visited::Over(ended)
}

/// Makes a visit: the run of a new companion, and the hang-ups after it.
fn visit<O: Outside>(alloc: Global, plan: &Plan, outside: &mut O) -> Visited
    requires writable { IsWritable plan.now.run }
    requires begun { HasTurns plan.now.begun }
    ensures makes { Makes plan.now (shown (O.told outside.old) (O.counts outside.old))
        (shown (O.told outside.new) (O.counts outside.new)) result }
    ensures begun { Begins HasTurns result }
    ensures dials { (O.counts outside.old).dial_faults ≤ (O.counts outside.new).dial_faults }
    ensures tried { (before : Counts) → before.dial_faults ≤ (O.counts outside.old).dial_faults
        → HasTriedBy before (O.counts outside.old) plan.now.begun
        → CountsTries before (O.counts outside.new) result }
{
    let Ok(mut live) = begin(alloc, plan) else {
        return Visited::Over(Driven::Memory);
    };
    let ended = make_turns(plan, &mut live, outside);
    after(plan, &live, ended, outside)
}

/// Makes visit after visit.
fn make_visits<O: Outside>(alloc: Global, plan: &mut Plan, outside: &mut O) -> Driven
    requires writable { IsWritable plan.old.run }
    requires fresh { plan.old.begun ≡ nothing_begun }
    ensures visits { Stays plan.old.run (shown (O.told outside.old) (O.counts outside.old))
        (shown (O.told outside.new) (O.counts outside.new)) result }
    ensures dials { CountsDialFaults (O.counts outside.old).dial_faults (O.counts outside.new).dial_faults result }
{
    let mut visits = 0u64;
    'visits: while visits < MOST_VISITS {
        visits += 1;
        match visit(alloc, plan, outside) {
            Visited::Next(next) => plan.begun = next,
            Visited::Over(ended) => return ended,
        }
    }
    Driven::Done
}

/// Makes a relay's run: it listens, and makes visit after visit until its last turn.
///
/// In each turn it dials and asks the television as a companion does. It takes one datagram: a request is answered from
/// its own estimate of the television's wall clock, or dropped where that has a fault, and anything else lands. It
/// accepts one session: one of CSS-CII is told the state that the relay tells, unless 256 are open, and any other is
/// hung up. It hears the television, and tells what is new. A text of any other session ends that session. In a turn
/// that is the last by its time it does nothing but read the clock.
///
/// A visit ends where the television closes CSS-CII, says a text that can't be read, moves its wall clock's address or
/// tells one that is none, and where its answers contradict each other. Then all sessions are hung up, the accepted
/// ones first, and the next turn begins another visit, with a new companion. So nobody who was answered in one visit
/// goes on with its sessions in the next. The relay opens no CSS-TS, so the address of that ends nothing: it is told
/// on, whatever it is.
///
/// The texts of the configuration are UTF-8. The run ends as `Done` with the last turn, or as `Unreachable` where no
/// dial of CSS-CII succeeded. A fault of the outside ends it at once, or want of memory; of the faults of a dial only
/// want of memory does.
pub fn drive_relay<O: Outside>(alloc: Global, config: RelayRun, outside: &mut O) -> Driven
    requires { IsWritable config }
    ensures ran { RelayRan config (O.told outside.old) (O.told outside.new) result }
    ensures counted { CountsRelayRun (O.counts outside.old) (O.counts outside.new) result }
{
    match outside.listen(&config.host, config.port) {
        Ok(()) => make_visits(alloc, &mut Plan::new(config), outside),
        Err(fault) => end_of(fault),
    }
}
