ghost use Rattle.std.specs.Prelude.{◌≡◌, ◌<◌, ◌∷◌, [], ℕ, List, Some, None, false, IfOk, MatchResult};
ghost use Rattle.css_tv.specs.Standing.{IsEvent};
ghost use Rattle.css_tv.specs.declared.event.TvEvent.TheVariants as events;
ghost use Rattle.css_tv.specs.declared.event.TvOut.{TvOut as Output};
ghost use Rattle.css_drive.specs.CompanionStanding.{Shown, shown};
ghost use Rattle.css_drive.specs.Proper.{TakeDatagram, TakeText};
ghost use Rattle.css_drive.specs.TvProgress.{Place, Taken, Received, Served, Asked, goes_on};
ghost use Rattle.css_drive.specs.TvStanding.{From, Stops, Fails, IsRead, IsAt, Settles, Happens};
ghost use Rattle.css_drive.specs.TvStanding.{Comes, Plays, IsUnused, at_end, with_tv};
ghost use Rattle.css_drive.specs.declared.turns.OnAir.{OnAir as Loop};

use crate::calls::{end_of, hang_up, send_datagram, send_text, take_text};
use crate::driven::Driven;
use css_model::LIMIT;
use css_outside::{Heard, Kind, Outside, Why, Wrote};
use css_server::Ticket;
use css_sessions::Kind as SessionKind;
use css_tv::{Tv, TvEvent, TvOut};
use std::alloc::Global;

/// Tells the television that a session closed.
fn close(alloc: Global, tv: &mut Tv, peer: u32) -> Result<(), Driven>
    ensures { (from : From) (now : Shown) (air : Loop) (place : Place) (rest : List Output)
        → Happens place rest (events.Closed peer) from now (with_tv air tv.old)
        → MatchResult result (λ _. Settles place rest from now (with_tv air tv.new)) (Stops from now) }
{
    let mut none = Vec::new(alloc);
    match tv.step(TvEvent::Closed { peer }, &mut none) {
        Ok(()) => Ok(()),
        Err(_) => Err(Driven::Memory),
    }
}

/// Does one thing at a session. Where a text is told as gone, the session closed.
fn put_one<O: Outside>(
    alloc: Global,
    tv: &mut Tv,
    outside: &mut O,
    out: &TvOut,
) -> Result<(), Driven>
    ensures { (place : Place) (rest : List Output)
        → Plays O.told O.counts (Settles place (out.now ∷ rest)) (Settles place rest)
        outside.old tv.old outside.new tv.new result }
{
    match out {
        TvOut::Say { peer, text } => match send_text(outside, *peer, text.bytes())? {
            Wrote::Sent => Ok(()),
            Wrote::Gone => close(alloc, tv, *peer),
        },
        TvOut::HangUp { peer } => hang_up(outside, *peer),
    }
}

/// Does at the sessions what a step has the television do, in order.
pub(crate) fn put_all<O: Outside>(
    alloc: Global,
    tv: &mut Tv,
    outside: &mut O,
    outs: &[TvOut],
) -> Result<(), Driven>
    ensures { (place : Place) → Plays O.told O.counts (Settles place outs.now) (Settles place [])
        outside.old tv.old outside.new tv.new result }
{
    for out in outs {
        put_one(alloc, tv, outside, out)?;
    }
    Ok(())
}

/// Lets something happen that the player has no part in, and does what it has the television do.
fn play<O: Outside>(
    alloc: Global,
    tv: &mut Tv,
    outside: &mut O,
    event: TvEvent,
) -> Result<(), Driven>
    requires { IsEvent event tv.old.stage }
    ensures { (place : Place) → Plays O.told O.counts (Happens place [] event) (Settles place [])
        outside.old tv.old outside.new tv.new result }
{
    let mut outs = Vec::new(alloc);
    match tv.step(event, &mut outs) {
        Ok(()) => put_all(alloc, tv, outside, &outs),
        Err(_) => Err(Driven::Memory),
    }
}

/// Reads the clock. A television passes over sleeps.
pub(crate) fn read<O: Outside>(outside: &mut O, why: Why) -> Result<u64, Driven>
    ensures told { let old = shown (O.told outside.old) (O.counts outside.old) in
        let new = shown (O.told outside.new) (O.counts outside.new) in
        MatchResult result (IsRead why old new) (Fails old new) }
    ensures below { IfOk result (λ reading. reading < LIMIT) }
{
    match outside.now(why) {
        Ok(clocked) => Ok(clocked.reading),
        Err(fault) => Err(end_of(fault)),
    }
}

/// Answers a request: the response first.
fn answer<O: Outside>(tv: &Tv, outside: &mut O, peer: u32, ticket: Ticket) -> Result<(), Driven>
    ensures { Plays O.told O.counts (IsAt (Received peer ticket)) (IsAt Served)
        outside.old tv.now outside.new tv.now result }
{
    let reading = read(outside, Why::Give)?;
    let answered = tv.answer(ticket, reading);
    send_datagram(outside, peer, &answered.response)?;
    match answered.follow_up {
        None => Ok(()),
        Some(bytes) => send_datagram(outside, peer, &bytes),
    }
}

/// Receives a datagram, and drops it unless it is a request.
fn receive<O: Outside>(tv: &mut Tv, outside: &mut O, peer: u32, bytes: &[u8]) -> Result<(), Driven>
    ensures { (taken : List ℕ) → taken ≡ bytes.now
        → Plays O.told O.counts (IsAt (Taken peer taken)) (IsAt Served)
        outside.old tv.old outside.new tv.new result }
{
    let reading = read(outside, Why::Take)?;
    match tv.receive(bytes, reading) {
        Err(_) => Ok(()),
        Ok(ticket) => answer(tv, outside, peer, ticket),
    }
}

/// Takes a datagram, if there is one.
pub(crate) fn serve<O: Outside>(tv: &mut Tv, outside: &mut O) -> Result<(), Driven>
    ensures { Plays O.told O.counts (Comes (λ _ live. TakeDatagram)) (IsAt Served)
        outside.old tv.old outside.new tv.new result }
{
    let mut into = [0u8; 64];
    match outside.take_datagram(&mut into) {
        Err(fault) => Err(end_of(fault)),
        Ok(None) => Ok(()),
        Ok(Some((peer, count))) => receive(tv, outside, peer, &into[..count]),
    }
}

/// Takes the session that a peer opened, if one did.
pub(crate) fn welcome<O: Outside>(alloc: Global, tv: &mut Tv, outside: &mut O) -> Result<(), Driven>
    requires { IsUnused (shown (O.told outside.old) (O.counts outside.old)) tv.old }
    ensures { Plays O.told O.counts (IsAt Served) (IsAt (Asked None))
        outside.old tv.old outside.new tv.new result }
{
    match outside.accept() {
        Err(fault) => Err(end_of(fault)),
        Ok(None) => Ok(()),
        Ok(Some((_, Kind::Wc))) => Ok(()),
        Ok(Some((peer, Kind::Cii))) => {
            let kind = SessionKind::Cii;
            play(alloc, tv, outside, TvEvent::Opened { peer, kind })
        }
        Ok(Some((peer, Kind::Ts))) => {
            let kind = SessionKind::Ts;
            play(alloc, tv, outside, TvEvent::Opened { peer, kind })
        }
    }
}

/// Asks a session for a text.
fn hear<O: Outside>(alloc: Global, tv: &mut Tv, outside: &mut O, peer: u32) -> Result<(), Driven>
    ensures { Plays O.told O.counts (Comes (λ _ live. TakeText peer)) (IsAt (Asked (Some peer)))
        outside.old tv.old outside.new tv.new result }
{
    match take_text(outside, peer)? {
        Heard::Quiet => Ok(()),
        Heard::Text(text) => play(alloc, tv, outside, TvEvent::Heard { peer, text }),
        Heard::Closed => play(alloc, tv, outside, TvEvent::Closed { peer }),
    }
}

/// Asks each open session for a text, in order of peer.
pub(crate) fn hear_all<O: Outside>(
    alloc: Global,
    tv: &mut Tv,
    outside: &mut O,
) -> Result<(), Driven>
    ensures { Plays O.told O.counts (IsAt (Asked None)) (Comes at_end)
        outside.old tv.old outside.new tv.new result }
{
    let mut last = None;
    'peers: while let Some(peer) = tv.next_open(last) {
        hear(alloc, tv, outside, peer)?;
        last = Some(peer);
    }
    Ok(())
}

/// Hangs up each open session, in order of peer.
pub(crate) fn hang_up_all<O: Outside>(tv: &Tv, outside: &mut O) -> Driven
    ensures { (from : From) (air : Loop) → goes_on air.turns ≡ false
        → Comes at_end from (shown (O.told outside.old) (O.counts outside.old)) (with_tv air tv.now)
        → Stops from (shown (O.told outside.new) (O.counts outside.new)) result }
{
    let mut last = None;
    'peers: while let Some(peer) = tv.next_open(last) {
        if let Err(ended) = hang_up(outside, peer) {
            return ended;
        }
        last = Some(peer);
    }
    Driven::Done
}
