ghost use Rattle.std.specs.Prelude.{◌≡◌, ◌<◌, List, ◌∷◌, Some, None, OnOk, OnErr, IfOk, IfErr, IfSome};
ghost use Rattle.css_num.specs.Gives.{GivesBy};
ghost use Rattle.css_model.specs.declared.TheConstants.{LIMIT};
ghost use Rattle.css_companion.specs.Standing.{own_of};
ghost use Rattle.css_audit.specs.Inputs.{IsInRange};
ghost use Rattle.css_audit.specs.Standing.{IsSound, Keeps, MayBeHanded, Tells, config_of};
ghost use Rattle.css_audit.specs.Standing as standing;
ghost use Rattle.css_audit.specs.Verdicts as verdicts;
ghost use Rattle.css_audit.specs.declared.fault.AuditFault.TheVariants as faults;
ghost use Rattle.css_audit.specs.declared.input.RecordLine.{RecordLine as Line};
ghost use Rattle.css_audit.specs.declared.input.RecordLine.TheVariants as lines;

use crate::fault::AuditFault;
use crate::input::RecordLine;
use crate::place::Place;
use css_companion::{Companion, CompanionEvent, line};
use css_model::LIMIT;
use css_num::Text;
use std::alloc::Global;

// `slept`: before the first reading the companion has nothing to forget.
fn take_sleep(companion: &mut Companion, place: &Place)
    requires { IsSound companion.old place.now }
    ensures tells { Tells companion.old companion.new place.now lines.Slept }
    ensures sound { IsSound companion.new (standing.slept place.now) }
    ensures keeps { config_of companion.new ≡ config_of companion.old }
{
    match &place.last {
        None => {}
        Some(_) => companion.slept(),
    }
}

// `turn R`
fn take_turn(companion: &Companion, place: &Place, reading: u64) -> Result<Place, AuditFault>
    requires range { reading < LIMIT }
    requires sound { IsSound companion.now place.now }
    ensures value { result ≡ standing.pass_of place.now reading (Some reading) }
    ensures tells { Tells companion.now companion.now place.now (lines.Turn reading) }
    ensures sound { IfOk result (IsSound companion.now) }
{
    place.passed(reading, Some(reading))
}

// `ask R`
fn take_request(companion: &mut Companion, place: &Place, reading: u64) -> Result<Place, AuditFault>
    requires range { reading < LIMIT }
    requires sound { IsSound companion.old place.now }
    ensures value { result ≡ standing.pass_of place.now reading None }
    ensures tells { OnOk result (Tells companion.old companion.new place.now (lines.Ask reading)) }
    ensures sound { IfOk result (IsSound companion.new) }
    ensures err { OnErr result (companion.new ≡ companion.old) }
    ensures keeps { config_of companion.new ≡ config_of companion.old }
{
    let next = place.passed(reading, None)?;
    companion.ask(reading);
    Ok(next)
}

// `land R HEX`
fn take_datagram(
    companion: &mut Companion,
    place: &Place,
    reading: u64,
    bytes: &Text,
) -> Result<Place, AuditFault>
    requires range { reading < LIMIT }
    requires sound { IsSound companion.old place.now }
    ensures value { GivesBy (λ x. x) faults.Memory result (standing.pass_of place.now reading None) }
    ensures tells { OnOk result (Tells companion.old companion.new place.now (lines.Land reading bytes.now)) }
    ensures sound { IfOk result (IsSound companion.new) }
    ensures err { OnErr result (companion.new ≡ companion.old) }
    ensures keeps { config_of companion.new ≡ config_of companion.old }
{
    let next = place.passed(reading, None)?;
    companion.land(bytes.bytes(), reading)?;
    Ok(next)
}

// A line of a session.
fn take_event(
    companion: &mut Companion,
    place: &Place,
    event: CompanionEvent,
) -> Result<Place, AuditFault>
    requires recorded { standing.IsRecorded event }
    requires sound { IsSound companion.old place.now }
    ensures value { IfOk result (λ next. next ≡ standing.counted place.now) }
    ensures verdict { GivesBy (λ _. tt) faults.Memory result (standing.event_verdict companion.old event) }
    ensures tells { OnOk result (Tells companion.old companion.new place.now (standing.line_of_event event)) }
    ensures client { companion.new.client ≡ companion.old.client }
    ensures keeps { config_of companion.new ≡ config_of companion.old }
{
    companion.step(event)?;
    Ok(place.counted())
}

// The words of a report are those of the companion's.
fn check_report(
    alloc: Global,
    companion: &Companion,
    place: &Place,
    words: Text,
) -> Result<(), AuditFault>
    requires sound { IsSound companion.now place.now }
    ensures { (older : List Line) → Keeps companion.now place.now older → GivesBy (λ x. x) faults.Memory result
        (verdicts.report_at (own_of companion.now) companion.now.setup.selector older place.now.turn words) }
{
    let Some(reading) = place.turn else {
        return Err(AuditFault::Absent);
    };
    let right = companion.report(reading);
    let due = line(alloc, place.next_report(), &right, None)?;
    let mut told = words;
    told.push(b"\n")?;
    if told != due {
        return Err(AuditFault::WrongReport { right });
    }
    Ok(())
}

/// Takes a line that was read. It gives the place after it, and tells the companion what the line tells.
pub(crate) fn take(
    alloc: Global,
    companion: &mut Companion,
    place: &Place,
    line: RecordLine,
) -> Result<Place, AuditFault>
    requires range { IsInRange line }
    requires sound { IsSound companion.old place.now }
    ensures verdict { (older : List Line) → Keeps companion.old place.now older → GivesBy (λ _. tt) faults.Memory result
        (verdicts.line_verdict (own_of companion.old) companion.old.setup.selector older line) }
    ensures stands { IfOk result (λ next. (older : List Line) → Keeps companion.old place.now older
        → Keeps companion.new next (line ∷ older)) }
    ensures sound { IfOk result (IsSound companion.new) }
    ensures client { OnErr result (companion.new.client ≡ companion.old.client) }
    ensures keeps { config_of companion.new ≡ config_of companion.old }
{
    match line {
        RecordLine::Slept => {
            take_sleep(companion, place);
            Ok(place.slept())
        }
        RecordLine::Turn { reading } => take_turn(companion, place, reading),
        RecordLine::Ask { reading } => take_request(companion, place, reading),
        RecordLine::Land { reading, bytes } => take_datagram(companion, place, reading, &bytes),
        RecordLine::Cii(text) => take_event(companion, place, CompanionEvent::CiiText(text)),
        RecordLine::Ts(text) => take_event(companion, place, CompanionEvent::TsText(text)),
        RecordLine::ClosedCii => take_event(companion, place, CompanionEvent::CiiClosed),
        RecordLine::ClosedTs => take_event(companion, place, CompanionEvent::TsClosed),
        RecordLine::Report(words) => {
            check_report(alloc, companion, place, words)?;
            Ok(place.reported())
        }
    }
}
