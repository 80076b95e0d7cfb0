//! What a turn of a relay has to do with clocks: its readings, its dials, its own request, what lands, and the requests
//! that it answers.
ghost use Rattle.std.specs.Prelude.{◌≡◌, ◌≤◌, ℕ, IfOk, IfErr, None, is_some, not, true, false};
ghost use Rattle.css_model.specs.History.{request_in};
ghost use Rattle.css_drive.specs.CompanionStanding.{shown, Calls};
ghost use Rattle.css_drive_relay.specs.Places.{Taken, Served};
ghost use Rattle.css_drive_relay.specs.Due.{from_take};
ghost use Rattle.css_drive_relay.specs.Standing as standing;
ghost use Rattle.css_drive_relay.specs.Standing.{Goes, HasRead, IsAt, Keeps, Lands, Leads, goes_on_at, placed};

use crate::live::Live;
use crate::plan::Plan;
use crate::television;
use css_drive::calls::{end_of, send_datagram};
use css_drive::{Driven, Parting};
use css_outside::{Clocked, Outside, Why};
use css_wc::decode;

/// What was made, whose only error is want of memory: that ends the run.
pub fn or_memory<T, E: Drop>(made: Result<T, E>) -> Result<T, Driven>
    ensures ok { IfOk result (λ value. made ≡ Ok value) }
    ensures err { IfErr result (λ ended. ended ≡ Driven.Memory) }
{
    match made {
        Ok(value) => Ok(value),
        Err(_) => Err(Driven::Memory),
    }
}

/// Reads the clock. Where the machine slept, the relay forgets what it asked before the reading is used.
pub fn read<O: Outside>(live: &mut Live, outside: &mut O, why: Why) -> Result<Clocked, Driven>
    requires { live.old.relay.companion.client.floor ≤ (O.counts outside.old).last }
    ensures told { Calls (shown (O.told outside.old) (O.counts outside.old))
        (shown (O.told outside.new) (O.counts outside.new)) None
        (λ old new. HasRead old new live.old live.new why) result }
    ensures keeps { Keeps (O.counts outside.old) (O.counts outside.new) live.old live.new result }
{
    television::read(
        live.alloc,
        live.relay.companion(),
        outside,
        &mut live.own,
        why,
    )
}

/// Receives a request, and answers it. It is dropped where it has a fault, or its answer has one.
fn respond<O: Outside>(
    live: &mut Live,
    outside: &mut O,
    peer: u32,
    bytes: &[u8],
) -> Result<(), Driven>
    requires { live.old.relay.companion.client.floor ≤ (O.counts outside.old).last }
    ensures goes { (plan : Plan) → is_some (request_in bytes.now) ≡ true
        → Leads O.told O.counts plan outside.old outside.new live.old live.new
        (placed (λ f. Taken peer bytes.now)) (IsAt (λ f. Served)) result }
    ensures keeps { Keeps (O.counts outside.old) (O.counts outside.new) live.old live.new result }
{
    let taken = read(live, outside, Why::Take)?;
    match live.relay.receive(bytes, taken.reading) {
        Err(_) => Ok(()),
        Ok(ticket) => {
            let given = read(live, outside, Why::Give)?;
            match live.relay.answer(ticket, given.reading) {
                Err(_) => Ok(()),
                Ok(answer) => send_datagram(outside, peer, &answer),
            }
        }
    }
}

/// Whether a datagram is a request of the wall clock.
fn is_request(bytes: &[u8]) -> bool
    ensures { result ≡ is_some (request_in bytes.now) }
{
    match decode(bytes) {
        Err(_) => false,
        Ok(message) => message.message_type == 0,
    }
}

/// Cuts the visit short for this reason, where it is to be. Tells whether the visit goes on.
pub fn cut_if(live: &mut Live, is_cut: bool, parting: Parting) -> bool
    ensures live { live.new ≡ standing.cut_if is_cut parting live.old }
    ensures on { result ≡ not is_cut }
{
    if is_cut {
        live.parting = Some(parting);
    }
    !is_cut
}

/// Takes in a datagram that was just taken, and tells whether the visit goes on. An answer that contradicts those
/// before it ends the visit.
fn land<O: Outside>(live: &mut Live, outside: &mut O, bytes: &[u8]) -> Result<bool, Driven>
    requires { live.old.relay.companion.client.floor ≤ (O.counts outside.old).last }
    ensures goes { (plan : Plan) (peer : ℕ) → is_some (request_in bytes.now) ≡ false
        → Lands O.told O.counts plan outside.old outside.new live.old live.new peer bytes.now result }
    ensures keeps { Keeps (O.counts outside.old) (O.counts outside.new) live.old live.new result }
{
    let landed = read(live, outside, Why::Land)?;
    if landed.slept {
        // No request from before the sleep is asked any more, so nothing lands.
        return Ok(true);
    }
    let contradicts = or_memory(live.relay.compare(bytes, landed.reading))?;
    or_memory(live.relay.land(bytes, landed.reading))?;
    Ok(cut_if(live, contradicts, Parting::Disagree))
}

/// Takes a datagram, if there is one: a request is answered, and anything else lands. Tells whether the visit goes on.
pub fn serve<O: Outside>(live: &mut Live, outside: &mut O) -> Result<bool, Driven>
    requires { live.old.relay.companion.client.floor ≤ (O.counts outside.old).last }
    ensures goes { (plan : Plan) → Goes O.told O.counts plan outside.old outside.new live.old live.new
        from_take (λ on. IsAt (goes_on_at (λ f. Served) on)) result }
    ensures keeps { Keeps (O.counts outside.old) (O.counts outside.new) live.old live.new result }
{
    let mut into = [0u8; 64];
    match outside.take_datagram(&mut into) {
        Err(fault) => Err(end_of(fault)),
        Ok(None) => Ok(true),
        Ok(Some((peer, count))) => {
            let bytes = &into[..count];
            if is_request(bytes) {
                respond(live, outside, peer, bytes)?;
                return Ok(true);
            }
            land(live, outside, bytes)
        }
    }
}
