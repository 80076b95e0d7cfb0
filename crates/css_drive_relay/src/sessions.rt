//! What a relay does with sessions: those that were opened, the television's text, texts of the others, and their end.
ghost use Rattle.std.specs.Prelude.{◌≡◌, ◌∷◌, ◌&&◌, ℕ, List, [], true, is_some, not};
ghost use Rattle.css_relay.specs.Relays.{relayed_state};
ghost use Rattle.css_drive.specs.CompanionStanding.{shown};
ghost use Rattle.css_drive_relay.specs.Places as places;
ghost use Rattle.css_drive_relay.specs.Places.{Served, Asked, welcomed, published};
ghost use Rattle.css_drive_relay.specs.Ran.{hang_ups};
ghost use Rattle.css_drive_relay.specs.Standing.{facts_in, goes_on_at, placed, visiting};
ghost use Rattle.css_drive_relay.specs.Standing.{Hangs, IsAt, Keeps, Leads, LeadsBy};

use crate::live::{Live, Published};
use crate::plan::Plan;
use crate::stages::{cut_if, or_memory};
use crate::television::hear;
use css_drive::calls::{end_of, hang_up, send_text, take_text};
use css_drive::{Driven, Parting, Session};
use css_num::Text;
use css_outside::{Heard, Kind, Outside, Wrote};

/// What is done with each accepted session.
#[derive(Drop)]
pub enum Visit {
    /// It is told this text.
    Tell(Text),
    /// It is asked for one.
    Hear,
}

/// An accepted session is over.
fn forget(live: &mut Live, peer: u32)
    ensures facts { facts_in live.new ≡ places.lost peer (facts_in live.old) }
    ensures relay { live.new.relay ≡ live.old.relay }
{
    live.peers.retain(|other| *other != peer);
}

/// Whether a session is kept that was opened, where so many are.
fn is_kept(kind: Kind, count: usize) -> bool
    ensures { result ≡ places.is_kept kind count }
{
    match kind {
        Kind::Cii => count < 256,
        Kind::Wc | Kind::Ts => false,
    }
}

/// Tells a session the state that was opened.
fn greet<O: Outside>(live: &mut Live, outside: &mut O, peer: u32) -> Result<(), Driven>
    ensures goes { (plan : Plan) → Leads O.told O.counts plan outside.old outside.new live.old live.new
        (places.opened_if true peer) (IsAt welcomed) result }
    ensures keeps { Keeps (O.counts outside.old) (O.counts outside.new) live.old live.new result }
{
    let text = or_memory(live.state.full_text(live.alloc))?;
    or_memory(live.peers.push(peer))?;
    match send_text(outside, peer, text.bytes())? {
        Wrote::Sent => {}
        Wrote::Gone => forget(live, peer),
    }
    Ok(())
}

/// Takes the session that a peer opened, if one did: greets it, or hangs it up.
pub fn welcome<O: Outside>(live: &mut Live, outside: &mut O) -> Result<(), Driven>
    ensures goes { (plan : Plan) → Leads O.told O.counts plan outside.old outside.new live.old live.new
        (placed (λ f. Served)) (IsAt welcomed) result }
    ensures keeps { Keeps (O.counts outside.old) (O.counts outside.new) live.old live.new result }
{
    match outside.accept() {
        Err(fault) => Err(end_of(fault)),
        Ok(None) => Ok(()),
        Ok(Some((peer, kind))) => {
            if is_kept(kind, live.peers.len()) {
                return greet(live, outside, peer);
            }
            hang_up(outside, peer)
        }
    }
}

/// Visits an accepted session. A text of it ends it.
fn visit_one<O: Outside>(
    live: &mut Live,
    outside: &mut O,
    peer: u32,
    what: &Visit,
) -> Result<(), Driven>
    ensures goes { (plan : Plan) (left : List ℕ)
        → Leads O.told O.counts plan outside.old outside.new live.old live.new
        (placed (visiting what.now (peer ∷ left))) (IsAt (visiting what.now left)) result }
    ensures keeps { Keeps (O.counts outside.old) (O.counts outside.new) live.old live.new result }
{
    match what {
        Visit::Tell(text) => match send_text(outside, peer, text.bytes())? {
            Wrote::Sent => Ok(()),
            Wrote::Gone => {
                forget(live, peer);
                Ok(())
            }
        },
        Visit::Hear => match take_text(outside, peer) {
            Err(ended) => Err(ended),
            Ok(Heard::Quiet) => Ok(()),
            Ok(Heard::Closed) => {
                forget(live, peer);
                Ok(())
            }
            Ok(Heard::Text(_)) => {
                forget(live, peer);
                hang_up(outside, peer)
            }
        },
    }
}

/// Visits each accepted session.
pub fn visit_all<O: Outside>(live: &mut Live, outside: &mut O, what: &Visit) -> Result<(), Driven>
    ensures goes { (plan : Plan) → Leads O.told O.counts plan outside.old outside.new live.old live.new
        (placed (visiting what.now live.old.peers.items)) (IsAt (visiting what.now [])) result }
    ensures keeps { Keeps (O.counts outside.old) (O.counts outside.new) live.old live.new result }
{
    let left = or_memory(live.peers.clone())?;
    for peer in &left {
        visit_one(live, outside, *peer, what)?;
    }
    Ok(())
}

/// Publishes what the relay tells, and tells each accepted session what is new of it.
fn publish<O: Outside>(live: &mut Live, outside: &mut O) -> Result<(), Driven>
    ensures goes { (plan : Plan) → Leads O.told O.counts plan outside.old outside.new live.old live.new
        (published (relayed_state live.old.relay.wc_url live.old.relay.companion.state))
        (IsAt (λ f. Asked f.peers)) result }
    ensures keeps { Keeps (O.counts outside.old) (O.counts outside.new) live.old live.new result }
{
    let told = or_memory(live.relay.relayed())?;
    let state = Published::new(told);
    let change = or_memory(live.state.news(live.alloc, &state))?;
    live.state = state;
    match change {
        None => Ok(()),
        Some(text) => visit_all(live, outside, &Visit::Tell(text)),
    }
}

/// Whether a session was open and isn't any more.
fn has_closed(was: Option<u32>, is: Option<u32>) -> bool
    ensures { result ≡ (is_some was && not (is_some is)) }
{
    was.is_some() && is.is_none()
}

/// Hears the television's session, where it is open. What is new is told to each accepted session. Tells whether the
/// visit goes on: it ends with the session.
pub fn hear_television<O: Outside>(live: &mut Live, outside: &mut O) -> Result<bool, Driven>
    ensures goes { (plan : Plan) → LeadsBy O.told O.counts plan outside.old outside.new live.old live.new
        (placed welcomed) (λ on. IsAt (goes_on_at (λ f. Asked f.peers) on)) result }
    ensures keeps { Keeps (O.counts outside.old) (O.counts outside.new) live.old live.new result }
{
    let was = live.own.cii_open;
    let told = hear(live.alloc, live.relay.companion(), outside, &mut live.own)?;
    if told {
        publish(live, outside)?;
        return Ok(true);
    }
    let closed = has_closed(was, live.own.cii_open);
    Ok(cut_if(live, closed, Parting::Closed(Session::Cii)))
}

/// Hangs up all open sessions: the accepted ones, in the order in which they came, and then that of the television.
pub fn hang_up_all<O: Outside>(live: &Live, outside: &mut O) -> Result<(), Driven>
    ensures hangs { Hangs (shown (O.told outside.old) (O.counts outside.old))
        (shown (O.told outside.new) (O.counts outside.new)) (hang_ups (facts_in live.now)) result }
    ensures dials { (O.counts outside.new).dial_faults ≡ (O.counts outside.old).dial_faults }
{
    for peer in &live.peers {
        hang_up(outside, *peer)?;
    }
    match live.own.cii_open {
        None => Ok(()),
        Some(television) => hang_up(outside, television),
    }
}
