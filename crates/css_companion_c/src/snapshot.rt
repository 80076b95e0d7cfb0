//! A copy of what a companion answers by, for a thread that can't wait.
ghost use Rattle.std.specs.Prelude.{◌≡◌, ◌≢◌, ◌≤◌, ◌<◌, Ok, Some, None, IfOk, IfErr, MatchResult, length, map};
ghost use Rattle.std.specs.Prelude.{reverse, take, All};
ghost use Rattle.css_num.specs.Rates.{IsTickRate};
ghost use Rattle.css_model.specs.WallClock.{IsAnswer, IsLocal, lesser, narrowest, scaled_width};
ghost use Rattle.css_model.specs.History.{History};
ghost use Rattle.css_span.specs.WallSpans.{IsNear};
ghost use Rattle.css_companion.specs.Meanings.{report_after, timing_after};
ghost use Rattle.css_companion.specs.Reports.{IsTimed};
ghost use Rattle.css_companion.specs.Standing.{Companion as Known, StandsFor, own_of, timing_now};
ghost use Rattle.css_companion.specs.declared.report.Report.TheVariants as reports;
ghost use Rattle.css_companion_c.specs.Codes.{DONE, RANGE, at_reading, if_agreeing, report_code};
ghost use Rattle.css_companion_c.specs.Promises.{HoldsThePosition, GoesWith};
ghost use Rattle.css_companion_c.specs.Snapshots.{IsSnapshotOf, IsInRange, IsWhyNone, copied, times_of, own_in};
ghost use Rattle.css_companion_c.specs.Snapshots.{HasRanges, IsCodeOf, timing_in, timing_at, shown, at_floor};
ghost use Rattle.css_companion_c.specs.Snapshots.{span_in, IsShownBy};

use crate::codes;
use crate::follower::Follower;
use crate::reading::{Position, cause_code, placed, told};
use css_companion::{Companion, Timing, ticks_at};
use css_model::LIMIT;
use css_num::{Rate, Span};
use css_span::{Answer, Local, scaled_width, span};

/// How many answers a snapshot has room for. One is kept of each error that the television declares, and hardly any
/// declares a second one.
pub const MOST_ANSWERS: usize = 4;

/// The greatest precision that an answer can declare, in nanoseconds.
const MOST_PRECISION: u64 = 1_073_741_824_000_000_000;

/// The greatest error that it can declare, in 1/256 ppm.
const MOST_ERROR: u32 = 25_600_000;

/// An answer of the wall clock. Its times are below 2^32 seconds, in nanoseconds.
#[repr(C)]
#[derive(Clone, Copy, Drop)]
pub struct SnapshotAnswer {
    pub t1: u64,
    pub t2: u64,
    pub t3: u64,
    pub t4: u64,
    pub precision: u64,
    pub error: u32,
}

/// What positions go by, as plain numbers: the least reading that may be handed, the own clock, the answers that are
/// kept, the oldest first, and the last control timestamp with the timeline's rate.
#[repr(C)]
#[derive(Clone, Copy, Drop)]
pub struct Snapshot {
    pub floor: u64,
    pub precision: u64,
    pub error: u32,
    pub count: u32,
    pub answers: [SnapshotAnswer; MOST_ANSWERS],
    pub content: i64,
    pub wall: u64,
    pub speed: i32,
    pub units_per_tick: u32,
    pub units_per_second: u32,
}

/// Fills the room behind the last answer.
const NO_ANSWER: SnapshotAnswer = SnapshotAnswer {
    t1: 0,
    t2: 0,
    t3: 0,
    t4: 0,
    precision: 0,
    error: 0,
};

/// An answer, in plain numbers.
fn plain(answer: &Answer) -> SnapshotAnswer
    ensures { times_of result ≡ answer.now }
{
    SnapshotAnswer {
        t1: answer.t1,
        t2: answer.t2,
        t3: answer.t3,
        t4: answer.t4,
        precision: answer.precision,
        error: answer.error,
    }
}

/// Answers, in plain numbers.
fn all_plain(answers: &[Answer]) -> [SnapshotAnswer; MOST_ANSWERS]
    requires { length answers.now ≤ MOST_ANSWERS }
    ensures { map times_of (take (length answers.now) result) ≡ answers.now }
{
    let mut kept = [NO_ANSWER; MOST_ANSWERS];
    for (place, answer) in answers.iter().enumerate() {
        kept[place] = plain(answer);
    }
    kept
}

/// The snapshot of a companion that goes by this timing.
fn taken(companion: &Companion, timing: Timing) -> Snapshot
    requires few { length companion.now.client.estimate.kept ≤ MOST_ANSWERS }
    requires timing { timing_now companion.now ≡ Ok timing }
    requires meaning { (history : History) → StandsFor companion.now history
        → timing_after companion.now.setup.selector history ≡ Ok timing }
    requires timed { IsTimed timing }
    ensures { IsSnapshotOf result companion.now }
{
    let answers = companion.answers();
    let local = companion.local();
    Snapshot {
        floor: companion.floor(),
        precision: local.precision,
        error: local.error,
        count: answers.len() as u32,
        answers: all_plain(answers),
        content: timing.content,
        wall: timing.wall,
        speed: timing.speed,
        units_per_tick: timing.rate.units_per_tick,
        units_per_second: timing.rate.units_per_second,
    }
}

/// Takes a snapshot, where the companion can tell positions by so few answers.
pub(crate) fn take_snapshot(follower: &Follower, out: &mut Snapshot) -> u32
    ensures kept { result ≢ DONE → out.new ≡ out.old }
    ensures code { result ≡ if_agreeing follower.now (copied follower.now.companion) }
    ensures truth { result ≡ DONE → IsSnapshotOf out.new follower.now.companion }
{
    if follower.disagrees {
        return codes::DISAGREE;
    }
    let companion = &follower.companion;
    let kept = companion.kept();
    if kept == 0 {
        return codes::NO_ANSWER;
    }
    match companion.timing() {
        Err(cause) => cause_code(cause),
        Ok(timing) => {
            if kept > MOST_ANSWERS {
                return codes::TOO_WIDE;
            }
            *out = taken(companion, timing);
            codes::DONE
        }
    }
}

/// The answer of plain numbers, where they are in range.
fn answer_of(kept: &SnapshotAnswer) -> Result<Answer, u32>
    ensures ok { IfOk result (λ answer. answer ≡ times_of kept.now) }
    ensures range { IfOk result (λ _. IsAnswer (times_of kept.now)) }
    ensures err { IfErr result (λ code. (code ≡ RANGE) × (IsAnswer (times_of kept.now) → ⊥)) }
{
    let in_time = kept.t1 < LIMIT && kept.t2 < LIMIT && kept.t3 < LIMIT && kept.t4 < LIMIT;
    if in_time && kept.precision <= MOST_PRECISION && kept.error <= MOST_ERROR {
        Ok(Answer {
            t1: kept.t1,
            t2: kept.t2,
            t3: kept.t3,
            t4: kept.t4,
            precision: kept.precision,
            error: kept.error,
        })
    } else {
        Err(codes::RANGE)
    }
}

/// The narrower of two answers, of equals the older.
fn narrower(older: Option<Answer>, newer: Answer, local: &Local, reading: u64) -> Answer
    requires { reading < LIMIT }
    ensures { Some result ≡ lesser (λ answer. scaled_width local.now answer reading) newer older }
{
    match older {
        None => newer,
        Some(older) => if scaled_width(&newer, local, reading)
            < scaled_width(&older, local, reading)
        {
            newer
        } else {
            older
        },
    }
}

/// The narrowest of the answers, of equals the first.
fn narrowest_of(kept: &[SnapshotAnswer], local: &Local, reading: u64) -> Result<Option<Answer>, u32>
    requires { reading < LIMIT }
    ensures ok { IfOk result (λ best. best ≡ narrowest local.now reading (reverse (map times_of kept.now))) }
    ensures range { IfOk result (λ _. All (λ k. IsAnswer (times_of k)) kept.now) }
    ensures err { IfErr result (λ code. (code ≡ RANGE) × (All (λ k. IsAnswer (times_of k)) kept.now → ⊥)) }
{
    let mut best = None;
    for answer in kept {
        best = Some(narrower(best, answer_of(answer)?, local, reading));
    }
    Ok(best)
}

/// The own clock, where its numbers are in range.
fn local_of(snapshot: &Snapshot) -> Result<Local, u32>
    ensures ok { IfOk result (λ local. local ≡ own_in snapshot.now) }
    ensures range { IfOk result (λ _. IsLocal (own_in snapshot.now)) }
    ensures err { IfErr result (λ code. (code ≡ RANGE) × (IsInRange snapshot.now → ⊥)) }
{
    if snapshot.error <= 2_560_000 && snapshot.precision <= 1_000_000_000 {
        Ok(Local {
            error: snapshot.error,
            precision: snapshot.precision,
        })
    } else {
        Err(codes::RANGE)
    }
}

/// The timing, where its numbers are in range.
fn timing_of(snapshot: &Snapshot) -> Result<Timing, u32>
    ensures ok { IfOk result (λ timing. (timing ≡ timing_in snapshot.now) × IsTimed timing) }
    ensures range { IfOk result (λ _. IsTickRate (timing_in snapshot.now).rate) }
    ensures err { IfErr result (λ code. (code ≡ RANGE) × (IsInRange snapshot.now → ⊥)) }
{
    if snapshot.wall >= 1 << 63 || snapshot.speed < -64 || 64 < snapshot.speed {
        return Err(codes::RANGE);
    }
    match Rate::of(snapshot.units_per_tick, snapshot.units_per_second) {
        None => Err(codes::RANGE),
        Some(rate) => Ok(Timing {
            content: snapshot.content,
            wall: snapshot.wall,
            speed: snapshot.speed,
            rate,
        }),
    }
}

/// The span of the wall clock by a snapshot.
fn wall(snapshot: &Snapshot, reading: u64) -> Result<Span, u32>
    requires { reading < LIMIT }
    ensures ok { IfOk result (λ span. span_in snapshot.now reading ≡ Some span) }
    ensures near { IfOk result IsNear }
    ensures own { IfOk result (λ _. IsLocal (own_in snapshot.now)) }
    ensures count { IfOk result (λ _. snapshot.now.count ≤ MOST_ANSWERS) }
    ensures answers { IfOk result (λ _. All (λ k. IsAnswer (times_of k))
        (take snapshot.now.count snapshot.now.answers)) }
    ensures err { IfErr result (IsWhyNone snapshot.now reading) }
{
    let local = local_of(snapshot)?;
    let count = snapshot.count as usize;
    if count > MOST_ANSWERS {
        return Err(codes::RANGE);
    }
    match narrowest_of(&snapshot.answers[..count], &local, reading)? {
        None => Err(codes::NO_ANSWER),
        Some(answer) => {
            if scaled_width(&answer, &local, reading) < 0 {
                return Err(codes::RANGE);
            }
            Ok(span(&answer, &local, reading))
        }
    }
}

/// The position by a snapshot, or the code why there is none.
fn position_at(snapshot: &Snapshot, reading: u64) -> Result<Position, u32>
    requires { reading < LIMIT }
    ensures ok { IfOk result (λ position. shown snapshot.now reading ≡ reports.Ticks position.lo position.hi) }
    ensures timing { IfOk result (λ position. timing_in snapshot.now ≡ timing_at position) }
    ensures range { IfOk result (λ _. HasRanges snapshot.now) }
    ensures code { IsInRange snapshot.now → snapshot.now.floor ≤ reading → MatchResult result
        (λ _. report_code (shown snapshot.now reading) ≡ DONE)
        (λ code. code ≡ report_code (shown snapshot.now reading)) }
    ensures told { snapshot.now.floor ≤ reading → MatchResult result
        (λ _. report_code (shown snapshot.now reading) ≡ DONE) (IsCodeOf snapshot.now reading) }
    ensures err { IfErr result (λ code. 0 < code) }
{
    let timing = timing_of(snapshot)?;
    let span = wall(snapshot, reading)?;
    let ticks = told(&ticks_at(span, &timing))?;
    Ok(placed(ticks, timing))
}

/// RANGE or EARLY, or DONE where this reading can be handed.
fn early(snapshot: &Snapshot, reading: u64) -> u32
    ensures code { result ≡ at_floor snapshot.now.floor reading }
    ensures later { result ≡ DONE → snapshot.now.floor ≤ reading }
{
    if reading >= LIMIT {
        return codes::RANGE;
    }
    if reading < snapshot.floor {
        return codes::EARLY;
    }
    codes::DONE
}

/// The position by a snapshot: of each companion of which it is a copy, that of the companion.
pub(crate) fn position(snapshot: &Snapshot, reading: u64, out: &mut Position) -> u32
    ensures kept { result ≢ DONE → out.new ≡ out.old }
    ensures early { at_floor snapshot.now.floor reading ≢ DONE → result ≡ at_floor snapshot.now.floor reading }
    ensures told { at_floor snapshot.now.floor reading ≡ DONE → IsCodeOf snapshot.now reading result }
    ensures before { (companion : Known) → IsSnapshotOf snapshot.now companion
        → at_reading companion reading DONE ≢ DONE → result ≡ at_reading companion reading DONE }
    ensures code { (companion : Known) → IsSnapshotOf snapshot.now companion
        → at_reading companion reading DONE ≡ DONE → (history : History) → StandsFor companion history
        → result ≡ report_code (report_after (own_of companion) companion.setup.selector history reading) }
    ensures shown { result ≡ DONE → IsShownBy snapshot.now reading out.new }
    ensures truth { result ≡ DONE → (companion : Known) → IsSnapshotOf snapshot.now companion
        → HoldsThePosition reading out.new companion }
    ensures range { result ≡ DONE → HasRanges snapshot.now }
    ensures timing { result ≡ DONE → (companion : Known) → IsSnapshotOf snapshot.now companion
        → GoesWith out.new companion }
{
    let code = early(snapshot, reading);
    if code != codes::DONE {
        return code;
    }
    match position_at(snapshot, reading) {
        Err(code) => code,
        Ok(position) => {
            *out = position;
            codes::DONE
        }
    }
}
