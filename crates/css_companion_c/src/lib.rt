//! A companion of ETSI TS 103 286-2 for applications in C. No function has a `requires`: each tests what it is handed,
//! and answers a code.
#![tactic(auto)]

ghost use Rattle.std.specs.Prelude.{◌≡◌, ◌≢◌, ◌+◌, ℕ, None, IsSome, [], ◌∷◌, length};
ghost use Rattle.css_model.specs.declared.Why.TheVariants as why;
ghost use Rattle.css_model.specs.History.{History, Clock, Sent, Took, Slept, accepted_answers};
ghost use Rattle.css_model.specs.Wire.{encoded, request_at};
ghost use Rattle.css_span.specs.WallSpans.{wall_span};
ghost use Rattle.css_companion.specs.Meanings.{report_after, timing_after};
ghost use Rattle.css_companion.specs.Standing.{Companion, StandsFor, own_of, asleep};
ghost use Rattle.css_companion.specs.Printed.{line_of};
ghost use Rattle.css_companion_c.specs.Codes as answers;
ghost use Rattle.css_companion_c.specs.Codes.{DONE, CLOSED, NO_ROOM, DISAGREE, ChangesNothing, GoesOn, Answers, aged};
ghost use Rattle.css_companion_c.specs.Handles.{behind, Has, Of, Becomes, Between};
ghost use Rattle.css_companion_c.specs.Handles.{AnswerAlike, KeepsTheRest};
ghost use Rattle.css_companion_c.specs.Leads.{lead_code, HoldsTheLead, IsTheLead};
ghost use Rattle.css_companion_c.specs.Noticing.{Agrees, Asks, BeginsAnew, Notices, AreNotAllTrue};
ghost use Rattle.css_companion_c.specs.Noticing.{accepted, noticed_code};
ghost use Rattle.css_companion_c.specs.Noticing.{IsAgreedCode, IsTheirs, IsTrueOfAll};
ghost use Rattle.css_companion_c.specs.Promises.{Adds, IsFresh, HoldsTheWall, HoldsThePosition, GoesWith, IsTheWall};
ghost use Rattle.css_companion_c.specs.Snapshots.{IsSnapshotOf, IsCodeOf, IsShownBy, HasRanges, at_floor, copied};
ghost use Rattle.css_companion_c.specs.Texts.{Holds};
ghost use Rattle.css_companion_c.specs.Until.{any_kept, IsNarrowUntil, IsWideAt, IsDue};
ghost use Rattle.css_companion_c.specs.When.{IsShownWithin, IsNeverShown, IsLeast, LooksAt};

mod codes;
mod content;
mod exchange;
mod follower;
mod handle;
mod held;
pub mod laws;
mod lead;
mod making;
mod next;
mod parts;
pub mod plain;
mod presentations;
mod reaching;
mod reading;
mod sessions;
mod snapshot;
mod texts;
mod timelines;
pub mod told;
mod until;
mod when;
mod words;

use follower::Follower;
use handle::{Handle, changes, reads};
use reading::{Ends, Position};
use snapshot::Snapshot;
use std::alloc::Global;
use when::Readings;

/// Makes a companion that wants the timeline with this selector of content whose id begins with this stem. Its own
/// clock has this greatest error, in 1/256 ppm, and this precision, in nanoseconds. One that was there is freed, once
/// the new one is made.
#[unsafe(no_mangle)]
pub extern "C" fn css_companion_new(
    alloc: Global,
    handle: &mut Handle,
    selector: &[u8],
    stem: &[u8],
    error: u32,
    precision: u64,
) -> u32
    ensures refused { result ≢ DONE → answers.Refuses selector.now stem.now error precision result }
    ensures same { result ≢ DONE → handle.new ≡ handle.old }
    ensures age { result ≡ DONE → handle.new.age ≡ aged handle.old.age result }
    ensures fresh { result ≡ DONE → Of (behind handle.new) (IsFresh selector.now stem.now error precision) }
    ensures anew { result ≡ DONE → Has (behind handle.new) (λ new. BeginsAnew new []) }
    ensures unrefused { result ≡ DONE → Has (behind handle.new) (λ new. new.fault ≡ None) }
{
    match making::made(alloc, selector, stem, error, precision) {
        Ok(companion) => match Box::new(alloc, Follower::new(alloc, companion)) {
            Ok(boxed) => {
                drop(handle.take(alloc));
                handle.put(boxed, codes::DONE);
                codes::DONE
            }
            Err(_) => codes::MEMORY,
        },
        Err(code) => code,
    }
}

/// Frees the companion, if there is one, and leaves none.
#[unsafe(no_mangle)]
pub extern "C" fn css_companion_free(alloc: Global, handle: &mut Handle)
    ensures none { behind handle.new ≡ None }
    ensures age { handle.new.age ≡ handle.old.age }
{
    drop(handle.take(alloc));
}

/// How often what `wall`, `position`, `lead` and `when` answer may have changed.
#[unsafe(no_mangle)]
pub extern "C" fn css_companion_age(handle: &Handle) -> u64
    ensures { result ≡ handle.now.age }
{
    handle.age()
}

/// The machine slept.
#[unsafe(no_mangle)]
pub extern "C" fn css_companion_slept(alloc: Global, handle: &mut Handle) -> u32
    ensures code { result ≡ answers.if_open (behind handle.old) (λ _. DONE) }
    ensures same { result ≢ DONE → behind handle.new ≡ behind handle.old }
    ensures age { handle.new.age ≡ aged handle.old.age result }
    ensures told { result ≡ DONE → Between (behind handle.old) (behind handle.new) (λ old new.
        new ≡ record old { client = asleep old.client }) }
    ensures stands { result ≡ DONE → Between (behind handle.old) (behind handle.new)
        (Adds (λ _. Unit {0}) (λ history. Slept ∷ history)) }
    ensures anew { result ≡ DONE → Becomes (behind handle.old) (behind handle.new) (λ old new. (history : History)
        → Agrees old history → BeginsAnew new (Slept ∷ history)) }
    ensures refused { result ≡ DONE → Becomes (behind handle.old) (behind handle.new) (λ old new.
        new.fault ≡ old.fault) }
{
    changes!(handle, alloc, |follower| {
        follower.slept();
        codes::DONE
    })
}

/// The request to send to the television's wall clock, at this reading of the own clock.
#[unsafe(no_mangle)]
pub extern "C" fn css_companion_ask(
    alloc: Global,
    handle: &mut Handle,
    reading: u64,
    request: &mut [u8; 32],
) -> u32
    ensures kept { result ≢ DONE → request.new ≡ request.old }
    ensures code { result ≡ answers.tested (behind handle.old) reading DONE }
    ensures same { result ≢ DONE → behind handle.new ≡ behind handle.old }
    ensures age { handle.new.age ≡ handle.old.age }
    ensures keeps { result ≡ DONE → Between (behind handle.old) (behind handle.new) KeepsTheRest }
    ensures alike { result ≡ DONE → Between (behind handle.old) (behind handle.new) AnswerAlike }
    ensures asks { result ≡ DONE → Becomes (behind handle.old) (behind handle.new) (Asks reading) }
    ensures request { result ≡ DONE → request.new ≡ encoded (request_at reading) }
    ensures stands { result ≡ DONE → Between (behind handle.old) (behind handle.new) (λ old new. (peer : ℕ)
        → Adds (λ _. Unit {0}) (λ history. Sent peer request.new ∷ Clock why.Ask reading ∷ history) old new) }
{
    match handle.take(alloc) {
        Some(boxed) => {
            let mut follower = boxed;
            let code = exchange::ask(&mut follower, reading, request);
            handle.put_back(follower);
            code
        }
        None => codes::CLOSED,
    }
}

/// Takes in a datagram that landed at this reading of the own clock. DISAGREE where an answer that is accepted
/// contradicts those accepted before it since the last sleep.
#[unsafe(no_mangle)]
pub extern "C" fn css_companion_land(
    alloc: Global,
    handle: &mut Handle,
    bytes: &[u8],
    reading: u64,
) -> u32
    ensures closed { behind handle.old ≡ None → result ≡ CLOSED }
    ensures code { IsSome (behind handle.old) → Has (behind handle.old) (λ old. (history : History)
        → StandsFor old.companion history → Agrees old history → Answers (answers.at_reading old.companion reading DONE)
        (noticed_code old.companion history reading bytes.now) result) }
    ensures same { ChangesNothing result → behind handle.new ≡ behind handle.old }
    ensures age { handle.new.age ≡ aged handle.old.age result }
    ensures keeps { GoesOn result → Between (behind handle.old) (behind handle.new) KeepsTheRest }
    ensures stands { GoesOn result → Between (behind handle.old) (behind handle.new) (λ old new. (peer : ℕ)
        → Adds (λ _. Unit {0}) (λ history. Clock why.Land reading ∷ Took peer bytes.now ∷ history) old new) }
    ensures notices { GoesOn result → Becomes (behind handle.old) (behind handle.new) (λ old new. (history : History)
        (peer : ℕ) → StandsFor old.companion history → Agrees old history
        → Notices peer reading bytes.now old new history) }
    ensures untrue { result ≡ DISAGREE → Has (behind handle.old) (λ old. (history : History) (peer : ℕ)
        → StandsFor old.companion history → Agrees old history → AreNotAllTrue (own_of old.companion) reading
        (accepted old.companion (Clock why.Land reading ∷ Took peer bytes.now ∷ history))) }
{
    changes!(
        handle,
        alloc,
        |follower| exchange::land(&mut follower, bytes, reading)
    )
}

/// The span of the television's wall clock at this reading of the own clock.
#[unsafe(no_mangle)]
pub extern "C" fn css_companion_wall(
    alloc: Global,
    handle: &mut Handle,
    reading: u64,
    span: &mut Ends,
) -> u32
    ensures kept { result ≢ DONE → span.new ≡ span.old }
    ensures before { answers.noticed (behind handle.old) reading ≢ DONE
        → result ≡ answers.noticed (behind handle.old) reading }
    ensures code { answers.noticed (behind handle.old) reading ≡ DONE → Of (behind handle.old) (λ companion.
        (history : History) → StandsFor companion history → result ≡ answers.span_code
        (wall_span (own_of companion) reading (accepted_answers (own_of companion) history))) }
    ensures same { behind handle.new ≡ behind handle.old }
    ensures age { handle.new.age ≡ handle.old.age }
    ensures span { result ≡ DONE → Of (behind handle.old) (IsTheWall reading span.new) }
    ensures truth { result ≡ DONE → Of (behind handle.old) (HoldsTheWall reading span.new) }
{
    reads!(handle, alloc, |boxed| reading::wall(&boxed, reading, span))
}

/// The span of the television's wall clock that all answers accepted since the last sleep allow together, at this
/// reading of the own clock.
#[unsafe(no_mangle)]
pub extern "C" fn css_companion_agreed(
    alloc: Global,
    handle: &mut Handle,
    reading: u64,
    span: &mut Ends,
) -> u32
    ensures kept { result ≢ DONE → span.new ≡ span.old }
    ensures before { answers.noticed (behind handle.old) reading ≢ DONE
        → result ≡ answers.noticed (behind handle.old) reading }
    ensures code { answers.noticed (behind handle.old) reading ≡ DONE
        → Has (behind handle.old) (IsAgreedCode reading result) }
    ensures same { behind handle.new ≡ behind handle.old }
    ensures age { handle.new.age ≡ handle.old.age }
    ensures shared { result ≡ DONE → Has (behind handle.old) (IsTheirs reading span.new) }
    ensures truth { result ≡ DONE → Has (behind handle.old) (IsTrueOfAll reading span.new) }
{
    reads!(
        handle,
        alloc,
        |boxed| reading::agreed(&boxed, reading, span)
    )
}

/// The ticks that the television may be presenting at this reading of the own clock, and what they go by.
#[unsafe(no_mangle)]
pub extern "C" fn css_companion_position(
    alloc: Global,
    handle: &mut Handle,
    reading: u64,
    position: &mut Position,
) -> u32
    ensures kept { result ≢ DONE → position.new ≡ position.old }
    ensures before { answers.noticed (behind handle.old) reading ≢ DONE
        → result ≡ answers.noticed (behind handle.old) reading }
    ensures code { answers.noticed (behind handle.old) reading ≡ DONE → Of (behind handle.old) (λ companion.
        (history : History) → StandsFor companion history → result ≡ answers.report_code
        (report_after (own_of companion) companion.setup.selector history reading)) }
    ensures same { behind handle.new ≡ behind handle.old }
    ensures age { handle.new.age ≡ handle.old.age }
    ensures truth { result ≡ DONE → Of (behind handle.old) (HoldsThePosition reading position.new) }
    ensures timing { result ≡ DONE → Of (behind handle.old) (GoesWith position.new) }
{
    reads!(
        handle,
        alloc,
        |boxed| reading::ticks(&boxed, reading, position)
    )
}

/// By how many nanoseconds of the timeline somebody at the beginning of this tick is ahead of the television, at this
/// reading of the own clock. Below 0 it is behind.
#[unsafe(no_mangle)]
pub extern "C" fn css_companion_lead(
    alloc: Global,
    handle: &mut Handle,
    reading: u64,
    tick: i64,
    lead: &mut Ends,
) -> u32
    ensures kept { result ≢ DONE → lead.new ≡ lead.old }
    ensures before { answers.noticed (behind handle.old) reading ≢ DONE
        → result ≡ answers.noticed (behind handle.old) reading }
    ensures code { answers.noticed (behind handle.old) reading ≡ DONE → Of (behind handle.old) (λ companion.
        (history : History) → StandsFor companion history → result ≡ lead_code
        (wall_span (own_of companion) reading (accepted_answers (own_of companion) history))
        (timing_after companion.setup.selector history) tick) }
    ensures same { behind handle.new ≡ behind handle.old }
    ensures age { handle.new.age ≡ handle.old.age }
    ensures lead { result ≡ DONE → Of (behind handle.old) (IsTheLead reading tick lead.new) }
    ensures truth { result ≡ DONE → Of (behind handle.old) (HoldsTheLead reading tick lead.new) }
{
    reads!(
        handle,
        alloc,
        |boxed| lead::lead(&boxed, reading, tick, lead)
    )
}

/// Between which two readings of the own clock the television shows a tick, of those that may still be handed.
#[unsafe(no_mangle)]
pub extern "C" fn css_companion_when(
    alloc: Global,
    handle: &mut Handle,
    tick: i64,
    readings: &mut Readings,
) -> u32
    ensures kept { result ≢ DONE → readings.new ≡ readings.old }
    ensures code { answers.Searches (answers.unless_noticed (behind handle.old) answers.searched) result }
    ensures same { behind handle.new ≡ behind handle.old }
    ensures age { handle.new.age ≡ handle.old.age }
    ensures truth { result ≡ DONE → Of (behind handle.old) (IsShownWithin tick readings.new.from readings.new.to) }
    ensures least { result ≡ DONE → Of (behind handle.old) (IsLeast tick readings.new.from readings.new.to) }
    ensures never { result ≡ answers.NEVER → Of (behind handle.old) (IsNeverShown tick) }
{
    reads!(handle, alloc, |boxed| when::when(&boxed, tick, readings))
}

/// Puts the line of a report with this number into a buffer.
#[unsafe(no_mangle)]
pub extern "C" fn css_companion_report(
    alloc: Global,
    handle: &mut Handle,
    number: u64,
    reading: u64,
    out: &mut [u8],
    used: &mut usize,
) -> u32
    ensures kept { result ≢ DONE → out.new ≡ out.old }
    ensures before { answers.tested (behind handle.old) reading DONE ≢ DONE
        → result ≡ answers.tested (behind handle.old) reading DONE }
    ensures code { answers.tested (behind handle.old) reading DONE ≡ DONE → Of (behind handle.old) (λ companion.
        (history : History) → StandsFor companion history → Answers DONE (answers.room_code (line_of number
        (report_after (own_of companion) companion.setup.selector history reading) None) (length out.old)) result) }
    ensures same { behind handle.new ≡ behind handle.old }
    ensures age { handle.new.age ≡ handle.old.age }
    ensures text { result ≡ DONE → Of (behind handle.old) (λ companion. (history : History)
        → StandsFor companion history → Holds (line_of number
        (report_after (own_of companion) companion.setup.selector history reading) None) used.new out.old out.new) }
    ensures needs { result ≡ NO_ROOM → Of (behind handle.old) (λ companion. (history : History)
        → StandsFor companion history → used.new ≡ length (line_of number
        (report_after (own_of companion) companion.setup.selector history reading) None)) }
{
    reads!(
        handle,
        alloc,
        |boxed| reading::report(alloc, &boxed.companion, number, reading, out, used)
    )
}

/// The last reading up to which the span of the wall clock is at most so many nanoseconds wide.
#[unsafe(no_mangle)]
pub extern "C" fn css_companion_until(
    alloc: Global,
    handle: &mut Handle,
    width: u64,
    reading: &mut u64,
) -> u32
    ensures kept { result ≢ DONE → reading.new ≡ reading.old }
    ensures code { answers.Searches (answers.unless_noticed (behind handle.old) any_kept) result }
    ensures same { behind handle.new ≡ behind handle.old }
    ensures age { handle.new.age ≡ handle.old.age }
    ensures truth { result ≡ DONE → Of (behind handle.old) (IsNarrowUntil width reading.new) }
    ensures last { result ≡ DONE → Of (behind handle.old) (IsWideAt width (reading.new + 1)) }
    ensures never { result ≡ answers.NEVER → Of (behind handle.old) (λ companion.
        IsWideAt width companion.client.floor companion) }
{
    reads!(handle, alloc, |boxed| until::until(&boxed, width, reading))
}

/// From which reading a request is due, where the span of the wall clock is to be at most so wide, and from which the
/// tick may be shown.
#[unsafe(no_mangle)]
pub extern "C" fn css_companion_next(
    alloc: Global,
    handle: &mut Handle,
    width: u64,
    tick: i64,
    ask: &mut u64,
    look: &mut u64,
) -> u32
    ensures kept { result ≢ DONE → (ask.new ≡ ask.old) × (look.new ≡ look.old) }
    ensures code { result ≡ answers.unless_noticed (behind handle.old) (λ _. DONE) }
    ensures same { behind handle.new ≡ behind handle.old }
    ensures age { handle.new.age ≡ handle.old.age }
    ensures ask { result ≡ DONE → Has (behind handle.old) (IsDue width ask.new) }
    ensures look { result ≡ DONE → Of (behind handle.old) (LooksAt tick look.new) }
{
    reads!(
        handle,
        alloc,
        |boxed| next::next(&boxed, width, tick, ask, look)
    )
}

/// Copies what positions go by, in plain numbers. [`css_snapshot_position`] tells them without the companion.
#[unsafe(no_mangle)]
pub extern "C" fn css_companion_snapshot(
    alloc: Global,
    handle: &mut Handle,
    snapshot: &mut Snapshot,
) -> u32
    ensures kept { result ≢ DONE → snapshot.new ≡ snapshot.old }
    ensures code { result ≡ answers.unless_noticed (behind handle.old) copied }
    ensures same { behind handle.new ≡ behind handle.old }
    ensures age { handle.new.age ≡ handle.old.age }
    ensures truth { result ≡ DONE → Of (behind handle.old) (IsSnapshotOf snapshot.new) }
{
    reads!(
        handle,
        alloc,
        |boxed| snapshot::take_snapshot(&boxed, snapshot)
    )
}

/// The ticks by a snapshot at this reading: what [`css_companion_position`] would tell of a companion of which it is a
/// copy. It needs no companion and no memory.
#[unsafe(no_mangle)]
pub extern "C" fn css_snapshot_position(
    snapshot: &Snapshot,
    reading: u64,
    position: &mut Position,
) -> u32
    ensures kept { result ≢ DONE → position.new ≡ position.old }
    ensures early { at_floor snapshot.now.floor reading ≢ DONE → result ≡ at_floor snapshot.now.floor reading }
    ensures told { at_floor snapshot.now.floor reading ≡ DONE → IsCodeOf snapshot.now reading result }
    ensures before { (companion : Companion) → IsSnapshotOf snapshot.now companion
        → answers.at_reading companion reading DONE ≢ DONE → result ≡ answers.at_reading companion reading DONE }
    ensures code { (companion : Companion) → IsSnapshotOf snapshot.now companion
        → answers.at_reading companion reading DONE ≡ DONE → (history : History) → StandsFor companion history
        → result ≡ answers.report_code (report_after (own_of companion) companion.setup.selector history reading) }
    ensures shown { result ≡ DONE → IsShownBy snapshot.now reading position.new }
    ensures truth { result ≡ DONE → (companion : Companion) → IsSnapshotOf snapshot.now companion
        → HoldsThePosition reading position.new companion }
    ensures range { result ≡ DONE → HasRanges snapshot.now }
    ensures timing { result ≡ DONE → (companion : Companion) → IsSnapshotOf snapshot.now companion
        → GoesWith position.new companion }
{
    snapshot::position(snapshot, reading, position)
}
