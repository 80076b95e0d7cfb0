//! Single calls of the outside, which the runs of a companion, of a relay and of a television make.
ghost use Rattle.std.specs.Prelude.{◌≡◌, ◌≤◌, ◌∷◌, [], Option, None, IfOk, IfErr};
ghost use Rattle.css_model.specs.History.{Sent, HungUp};
ghost use Rattle.css_outside.specs.Faults.{CountsOutFault, HasRisen};
ghost use Rattle.css_outside.specs.declared.fault.OutFault.{OutFault as Fault};
ghost use Rattle.css_outside.specs.Outsides.{heard_entries, wrote_entries};
ghost use Rattle.css_drive.specs.CompanionDue as dues;
ghost use Rattle.css_drive.specs.CompanionStanding.{Shown, shown, IsEarly, IsFault, Fails, Calls, Adds};
ghost use Rattle.css_drive.specs.CompanionStanding.{HasDialled, GivesPlace};

use crate::driven::Driven;
use css_address::{AddressFault, address};
use css_cii::CiiName;
use css_companion::CompanionFault;
use css_num::Text;
use css_outside::{Address, Failure, Heard, Kind, Limit, OutFault, Outside, Wrote};
use std::alloc::Global;

/// How a run ends with a fault of the outside, of an observer that isn't over.
pub fn end_of(fault: OutFault) -> Driven
    ensures early { IsEarly result }
    ensures fault { IsFault result }
    ensures failed { (old : Shown) → (new : Shown) → (over : Option Fault) → over ≡ None → new.told ≡ old.told
        → CountsOutFault old.counts.faults new.counts.faults fault → new.counts.dial_faults ≡ old.counts.dial_faults
        → Fails old new over result }
{
    match fault {
        OutFault::Failed(failure) => Driven::NetFault(failure),
        OutFault::Memory => Driven::Memory,
    }
}

/// How a run ends with a text that is refused.
pub fn refused(fault: CompanionFault) -> Driven
    ensures end { result ≡ dues.end_by fault }
    ensures early { IsEarly result }
{
    match fault {
        CompanionFault::BadCii { text, fault } => Driven::BadCii { text, fault },
        CompanionFault::Moved { property, old, new } => Driven::Moved { property, old, new },
        CompanionFault::Memory => Driven::Memory,
    }
}

/// The address of a property, where it isn't null.
pub fn place(
    alloc: Global,
    kind: Kind,
    property: CiiName,
    url: &Option<Text>,
) -> Result<Option<Address>, Driven>
    ensures gives { GivesPlace property (dues.place kind url.now) result }
    ensures early { IfErr result IsEarly }
{
    let Some(text) = url else {
        return Ok(None);
    };
    match address(alloc, kind, text.bytes()) {
        Ok(to) => Ok(Some(to)),
        Err(AddressFault::Bad) => Err(Driven::BadUrl { property }),
        Err(AddressFault::Memory) => Err(Driven::Memory),
    }
}

/// Tries a dial. One that fails ends nothing, and tells what the system said.
pub fn dial<O: Outside>(
    outside: &mut O,
    kind: Kind,
    to: &Address,
) -> Result<Result<u32, Failure>, Driven>
    ensures told { Calls (shown (O.told outside.old) (O.counts outside.old))
        (shown (O.told outside.new) (O.counts outside.new)) None (λ old new. HasDialled old new kind to.now) result }
    ensures last { (O.counts outside.new).last ≡ (O.counts outside.old).last }
    ensures dials { (O.counts outside.old).dial_faults ≤ (O.counts outside.new).dial_faults }
    ensures tried { IfOk result (λ tried. IfErr tried (λ _.
        HasRisen (O.counts outside.old).dial_faults (O.counts outside.new).dial_faults)) }
    ensures early { IfErr result IsEarly }
{
    match outside.dial(kind, to) {
        Ok(peer) => Ok(Ok(peer)),
        Err(OutFault::Failed(failure)) => Ok(Err(failure)),
        Err(OutFault::Memory) => Err(Driven::Memory),
    }
}

/// Says that nothing is due before a reading, in a run by time.
pub fn rest<O: Outside>(outside: &mut O, limit: Limit, until: u64)
    ensures shown { shown (O.told outside.old) (O.counts outside.old)
        ≡ shown (O.told outside.new) (O.counts outside.new) }
    ensures counted { O.counts outside.new ≡ O.counts outside.old }
{
    match limit {
        Limit::Turns(_) => {}
        Limit::Seconds(_) => outside.rest(until),
    }
}

/// Sends a datagram.
pub fn send_datagram<O: Outside>(outside: &mut O, peer: u32, bytes: &[u8; 32]) -> Result<(), Driven>
    ensures told { Calls (shown (O.told outside.old) (O.counts outside.old))
        (shown (O.told outside.new) (O.counts outside.new)) None
        (λ old new _. Adds old new (Sent peer bytes.now ∷ [])) result }
    ensures early { IfErr result IsEarly }
{
    match outside.send_datagram(peer, bytes) {
        Ok(()) => Ok(()),
        Err(fault) => Err(end_of(fault)),
    }
}

/// Sends a text on a session.
pub fn send_text<O: Outside>(outside: &mut O, peer: u32, text: &[u8]) -> Result<Wrote, Driven>
    ensures told { Calls (shown (O.told outside.old) (O.counts outside.old))
        (shown (O.told outside.new) (O.counts outside.new)) None
        (λ old new sent. Adds old new (wrote_entries peer text.now sent)) result }
    ensures early { IfErr result IsEarly }
{
    match outside.send_text(peer, text) {
        Ok(sent) => Ok(sent),
        Err(fault) => Err(end_of(fault)),
    }
}

/// Asks a session for its next text.
pub fn take_text<O: Outside>(outside: &mut O, peer: u32) -> Result<Heard, Driven>
    ensures told { Calls (shown (O.told outside.old) (O.counts outside.old))
        (shown (O.told outside.new) (O.counts outside.new)) None
        (λ old new heard. Adds old new (heard_entries peer heard)) result }
    ensures early { IfErr result IsEarly }
{
    match outside.take_text(peer) {
        Ok(heard) => Ok(heard),
        Err(fault) => Err(end_of(fault)),
    }
}

/// Hangs up a session.
pub fn hang_up<O: Outside>(outside: &mut O, peer: u32) -> Result<(), Driven>
    ensures told { Calls (shown (O.told outside.old) (O.counts outside.old))
        (shown (O.told outside.new) (O.counts outside.new)) None
        (λ old new _. Adds old new (HungUp peer ∷ [])) result }
    ensures early { IfErr result IsEarly }
{
    match outside.hang_up(peer) {
        Ok(()) => Ok(()),
        Err(fault) => Err(end_of(fault)),
    }
}
