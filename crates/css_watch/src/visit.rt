//! A visit: a run of a new companion, and what follows it.
ghost use Rattle.std.specs.Prelude.{◌≡◌, ◌≢◌, ◌≤◌, ◌++◌, ℕ, List, [], Option, None, IfOk, IfSome, OnErr, string_bytes};
ghost use Rattle.std.specs.Option.{option_map};
ghost use Rattle.css_drive.specs.CompanionStanding.{Knows};
ghost use Rattle.css_drive.specs.Configs.{IsWindow, IsWritable};
ghost use Rattle.css_drive.specs.Ends as drives;
ghost use Rattle.css_drive.specs.declared.driven.Driven.{Driven as Ended};
ghost use Rattle.css_drive.specs.CompanionStanding.{hung};
ghost use Rattle.css_model.specs.History.{History};
ghost use Rattle.css_watch.specs.Following.{CountsDials, EndsBy, HasRun, IsRun, IsUnreachableBy, Leaves, Makes, Parts};
ghost use Rattle.css_watch.specs.Following.{Stage, stage};
ghost use Rattle.css_watch.specs.Progress.{fresh, with_visit};
ghost use Rattle.css_drive.specs.Visits as visited;
ghost use Rattle.css_drive.specs.Visits.{parting_words};
ghost use Rattle.css_watch.specs.Visits as visits;
ghost use Rattle.css_watch.specs.Visits.{Hangs, hang_ups};
ghost use Rattle.css_watch.specs.Watching.{IsFresh};
ghost use Rattle.css_watch_lines.specs.Lines.{line_text};
ghost use Rattle.css_watch.specs.declared.plan.Plan.{Plan as Planned};
ghost use Rattle.css_watch.specs.declared.progress.Begun.{Begun as Started};

use crate::ending::Watched;
use crate::plan::Plan;
use crate::progress::{Begun, Progress};
use crate::progress_steps::told_number;
use crate::watching::{Watching, put};
use css_agree::Agree;
use css_companion::Companion;
use css_drive::{Driven, Parting, Session, companion_of, drive};
use css_num::{Memory, Text};
use css_outside::{OutFault, Outside, Sink};
use css_watch_lines::{apart_end_line, end_line, front, refused_end_line};
use std::alloc::Global;
use std::mem::replace;

/// What came of a visit.
pub(crate) enum Visited {
    /// Another one follows.
    Next(Begun),
    /// The watch is over.
    Over(Watched),
}

/// How a watch ends with a fault of the outside.
fn fault_of(fault: OutFault) -> Watched
    ensures value { result ≡ visits.fault_of fault }
    ensures by { (ended : Ended) → IsUnreachableBy ended result }
{
    match fault {
        OutFault::Failed(failure) => Watched::NetFault(failure),
        OutFault::Memory => Watched::Memory,
    }
}

/// How a watch ends that couldn't write.
fn unwritten(fault: OutFault) -> Watched
    ensures value { result ≡ visits.unwritten fault }
    ensures by { (ended : Ended) → IsUnreachableBy ended result }
{
    match fault {
        OutFault::Failed(_) => Watched::WriteFault,
        OutFault::Memory => Watched::Memory,
    }
}

/// How a watch ends, by its reports.
pub(crate) fn by_reports(begun: &Begun) -> Watched
    ensures { result ≡ visits.by_reports begun.now }
{
    if begun.found {
        return Watched::Done;
    }
    Watched::NoInterval {
        reports: begun.reports,
    }
}

/// How a watch ends after its last turn.
fn last_end(ended: &Driven, begun: &Begun) -> Watched
    ensures { result ≡ visits.last_end ended.now begun.now }
{
    if !begun.reached {
        if let Driven::Unreachable { turns } = ended {
            return Watched::Unreachable { turns: *turns };
        }
    }
    by_reports(begun)
}

/// How a watch ends whose last visit's run ended so.
fn end_of(ended: &Driven, parting: &Option<Parting>, begun: &Begun) -> Watched
    ensures value { result ≡ visits.end_of ended.now parting.now begun.now }
    ensures by { IsUnreachableBy ended.now result }
{
    match ended {
        Driven::NetFault(failure) => Watched::NetFault(*failure),
        Driven::Memory => Watched::Memory,
        Driven::WriteFault => match parting {
            None => Watched::WriteFault,
            Some(_) => last_end(ended, begun),
        },
        _ => last_end(ended, begun),
    }
}

/// Why a visit was cut short, but for the last turn.
fn cut_short(parting: &Option<Parting>) -> Option<&'static str>
    ensures { option_map (λ words. words.now) result ≡ parting_words parting.now }
{
    match parting {
        Some(Parting::Closed(Session::Cii)) => Some("closed CII"),
        Some(Parting::Closed(Session::Ts)) => Some("closed TS"),
        Some(Parting::Disagree) => Some("disagree"),
        _ => None,
    }
}

/// The words of a visit that was cut short, where another one follows.
fn words(alloc: Global, parting: &Option<Parting>) -> Result<Option<String>, Memory>
    ensures words { IfOk result (λ words. option_map string_bytes words ≡ parting_words parting.now) }
    ensures err { OnErr result (parting_words parting.now ≢ None) }
{
    match cut_short(parting) {
        None => Ok(None),
        Some(words) => Ok(Some(String::from_str(alloc, words)?)),
    }
}

/// Why a visit ended, where another one follows.
fn why(alloc: Global, ended: &Driven, parting: &Option<Parting>) -> Result<Option<String>, Memory>
    ensures words { IfOk result (λ words. option_map string_bytes words ≡ visited.why ended.now parting.now) }
    ensures err { OnErr result (visited.why ended.now parting.now ≢ None) }
{
    match ended {
        Driven::BadCii { text, fault } => Ok(Some(format!(in alloc; "CII text {text}: {fault}")?)),
        Driven::Moved { property, .. } => Ok(Some(format!(in alloc; "moved {property}")?)),
        Driven::BadUrl { property } => Ok(Some(format!(in alloc; "bad {property}")?)),
        Driven::WriteFault => words(alloc, parting),
        Driven::Done => words(alloc, parting),
        _ => Ok(None),
    }
}

/// Hangs up a session, if it is open.
fn hang_up_one<O: Outside>(outside: &mut O, session: Option<u32>) -> Result<(), OutFault>
    ensures hangs { Hangs (O.told outside.old) (O.told outside.new) (O.counts outside.old).faults
        (O.counts outside.new).faults (hung session) result }
    ensures dials { (O.counts outside.new).dial_faults ≡ (O.counts outside.old).dial_faults }
{
    match session {
        None => Ok(()),
        Some(peer) => outside.hang_up(peer),
    }
}

/// Hangs up the sessions that are open, that of CSS-CII first.
fn hang_up<O: Outside>(outside: &mut O, progress: &Progress) -> Result<(), OutFault>
    ensures hangs { Hangs (O.told outside.old) (O.told outside.new) (O.counts outside.old).faults
        (O.counts outside.new).faults (hang_ups progress.now) result }
    ensures dials { (O.counts outside.new).dial_faults ≡ (O.counts outside.old).dial_faults }
{
    match hang_up_one(outside, progress.cii_open) {
        Ok(()) => {}
        Err(fault) => return Err(fault),
    }
    hang_up_one(outside, progress.ts_open)
}

/// The line of a visit's end.
fn ended_line(alloc: Global, progress: &Progress, why: &str) -> Result<Text, Memory>
    ensures { IfOk result (λ text. text ≡ line_text (visits.end_line progress.now why.now)) }
{
    let number = told_number(progress.begun.visits);
    if let Some(between) = &progress.between {
        return apart_end_line(alloc, number, why, between);
    }
    let Some(text) = &progress.unread else {
        return end_line(alloc, number, why);
    };
    let words = front(alloc, text.bytes())?;
    refused_end_line(alloc, number, why, words.as_str())
}

/// Tells why a visit ended, hangs up the sessions that are open, and goes on with the next visit.
fn go_on<K: Sink, O: Outside>(
    alloc: Global,
    why: &str,
    progress: &Progress,
    sink: &mut K,
    outside: &mut O,
) -> Visited
    ensures parts { Parts progress.now why.now
        (stage (O.told outside.old) (O.counts outside.old) (K.holds sink.old) (K.faults sink.old))
        (stage (O.told outside.new) (O.counts outside.new) (K.holds sink.new) (K.faults sink.new)) result }
    ensures dials { (O.counts outside.new).dial_faults ≡ (O.counts outside.old).dial_faults }
    ensures by { (ended : Ended) → EndsBy ended result }
{
    let line = ended_line(alloc, progress, why);
    match put(sink, line) {
        Some(fault) => Visited::Over(unwritten(fault)),
        None => match hang_up(outside, progress) {
            Ok(()) => Visited::Next(progress.begun),
            Err(fault) => Visited::Over(fault_of(fault)),
        },
    }
}

/// Hangs up the sessions that are open where the observer ended the last visit, and ends the watch so.
#[tactic(auto, using(crate::proofs::Following::leaves_fault))]
fn leave<O: Outside>(
    outside: &mut O,
    parting: &Option<Parting>,
    progress: &Progress,
    end: Watched,
) -> Watched
    ensures leaves { Leaves parting.now progress.now end (O.told outside.old) (O.told outside.new)
        (O.counts outside.old).faults (O.counts outside.new).faults result }
    ensures dials { (O.counts outside.new).dial_faults ≡ (O.counts outside.old).dial_faults }
    ensures by { (ended : Ended) → IsUnreachableBy ended end → IsUnreachableBy ended result }
{
    match parting {
        None => end,
        Some(_) => match hang_up(outside, progress) {
            Ok(()) => end,
            Err(fault) => fault_of(fault),
        },
    }
}

/// What follows a run that ended so.
fn after<K: Sink, O: Outside>(
    alloc: Global,
    ended: &Driven,
    parting: &Option<Parting>,
    progress: &Progress,
    sink: &mut K,
    outside: &mut O,
) -> Visited
    ensures makes { (plan : Planned) (begun : Started) (start : Stage) (history : History)
        → IsRun plan begun start
        (stage (O.told outside.old) (O.counts outside.old) (K.holds sink.old) (K.faults sink.old))
        history ended.now parting.now progress.now
        → Makes plan begun start
        (stage (O.told outside.new) (O.counts outside.new) (K.holds sink.new) (K.faults sink.new)) result }
    ensures dials { (O.counts outside.new).dial_faults ≡ (O.counts outside.old).dial_faults }
    ensures by { EndsBy ended.now result }
{
    match why(alloc, ended, parting) {
        Err(Memory) => Visited::Over(Watched::Memory),
        Ok(Some(why)) => go_on(alloc, why.as_str(), progress, sink, outside),
        Ok(None) => {
            let end = end_of(ended, parting, &progress.begun);
            Visited::Over(leave(outside, parting, progress, end))
        }
    }
}

/// The run of a visit, and what its observer knows at its end.
#[derive(Drop)]
struct Run {
    ended: Driven,
    parting: Option<Parting>,
    progress: Progress,
}

/// Makes the run of a visit that this observer watches.
fn drive_watching<K: Sink, O: Outside>(
    alloc: Global,
    companion: &mut Companion,
    outside: &mut O,
    watching: &mut Watching<'_, K>,
) -> Run
    requires known { Knows watching.old.plan.now.run.companion companion.old [] }
    requires floor { companion.old.client.floor ≡ 0 }
    requires bounds { IfSome watching.old.plan.now.run.present IsWindow }
    requires fresh { (begun : Started) × IsFresh watching.old.plan.now begun watching.old.progress.now
        watching.old.agree.now watching.old.over watching.old.parting }
    ensures run { (begun : Started) → watching.old.progress.now ≡ fresh (with_visit begun)
        → HasRun watching.old.plan.now begun
        (stage (O.told outside.old) (O.counts outside.old) (K.holds watching.old.sink.now)
        (K.faults watching.old.sink.now))
        (stage (O.told outside.new) (O.counts outside.new) (K.holds watching.new.sink.now)
        (K.faults watching.new.sink.now)) result.ended result.parting result.progress }
    ensures sink_name { watching.new.sink.ghost_name ≡ watching.old.sink.ghost_name }
    ensures dials { drives.CountsDialFaults (O.counts outside.old).dial_faults (O.counts outside.new).dial_faults
        result.ended }
{
    let plan = watching.plan;
    let ended = drive(alloc, &plan.run, companion, outside, watching);
    let left = Progress::fresh(watching.progress.begun);
    Run {
        ended,
        parting: watching.parting,
        progress: replace(watching.progress, left),
    }
}

/// Makes the run of a visit with this companion.
fn make_run<K: Sink, O: Outside>(
    alloc: Global,
    plan: &Plan,
    begun: Begun,
    companion: &mut Companion,
    sink: &mut K,
    outside: &mut O,
) -> Run
    requires known { Knows plan.now.run.companion companion.old [] }
    requires floor { companion.old.client.floor ≡ 0 }
    requires bounds { IfSome plan.now.run.present IsWindow }
    ensures run { HasRun plan.now begun
        (stage (O.told outside.old) (O.counts outside.old) (K.holds sink.old) (K.faults sink.old))
        (stage (O.told outside.new) (O.counts outside.new) (K.holds sink.new) (K.faults sink.new)) result.ended
        result.parting result.progress }
    ensures dials { drives.CountsDialFaults (O.counts outside.old).dial_faults (O.counts outside.new).dial_faults
        result.ended }
{
    let mut agree = Agree::new(alloc, plan.run.companion.local);
    let mut progress = Progress::fresh(begun.with_visit());
    let mut watching = Watching {
        alloc,
        plan,
        sink,
        progress: &mut progress,
        agree: &mut agree,
        over: None,
        parting: None,
    };
    drive_watching(alloc, companion, outside, &mut watching)
}

/// Makes a visit: a run of a new companion, and the hang-ups after it.
pub(crate) fn visit<K: Sink, O: Outside>(
    alloc: Global,
    plan: &Plan,
    begun: Begun,
    sink: &mut K,
    outside: &mut O,
) -> Visited
    requires { IsWritable plan.now.run }
    ensures makes { Makes plan.now begun
        (stage (O.told outside.old) (O.counts outside.old) (K.holds sink.old) (K.faults sink.old))
        (stage (O.told outside.new) (O.counts outside.new) (K.holds sink.new) (K.faults sink.new)) result }
    ensures dials { CountsDials (O.counts outside.old).dial_faults (O.counts outside.new).dial_faults result }
{
    let mut companion = match companion_of(alloc, &plan.run) {
        Ok(companion) => companion,
        Err(Memory) => return Visited::Over(Watched::Memory),
    };
    let run = make_run(alloc, plan, begun, &mut companion, sink, outside);
    after(
        alloc,
        &run.ended,
        &run.parting,
        &run.progress,
        sink,
        outside,
    )
}
