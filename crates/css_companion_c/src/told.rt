//! Calls of the two sessions: their texts, and what the television told.
ghost use Rattle.std.specs.Prelude.{◌≡◌, ◌≢◌, ℕ, None, Some, IfSome, IsSome, ◌∷◌, length};
ghost use Rattle.css_model.specs.declared.Kind.TheVariants as kind;
ghost use Rattle.css_model.specs.History.{Entry, Heard, Dialled};
ghost use Rattle.css_cii.specs.States.{full_change};
ghost use Rattle.css_cii.specs.Texts.{change_text};
ghost use Rattle.css_tsmsg.specs.Controls.{control_of};
ghost use Rattle.css_tsmsg.specs.Setups.{setup_text};
ghost use Rattle.css_companion.specs.Meanings.{kind_of};
ghost use Rattle.css_companion.specs.Steps as steps;
ghost use Rattle.css_companion.specs.declared.event.CompanionEvent.TheVariants as event;
ghost use Rattle.css_companion_c.specs.Codes as answers;
ghost use Rattle.css_companion_c.specs.Codes.{DONE, CLOSED, NO_ROOM, ChangesNothing, GoesOn, Answers, aged};
ghost use Rattle.css_companion_c.specs.Handles.{behind, Has, Of, Becomes, Between, KeepsAgreement, KeepsBeside};
ghost use Rattle.css_companion_c.specs.Noticing.{refused_for, words_of};
ghost use Rattle.css_companion_c.specs.Promises.{Adds};
ghost use Rattle.css_companion_c.specs.Texts.{Holds, property_of, listed, TellsTimeline};

use crate::handle::{Handle, changes, reads};
use crate::timelines::{TimelineRate, timeline};
use crate::{codes, content, sessions};
use std::alloc::Global;

/// Takes in a text of the CII session.
#[unsafe(no_mangle)]
pub extern "C" fn css_companion_cii(alloc: Global, handle: &mut Handle, text: &[u8]) -> u32
    ensures code { Answers (answers.heard (behind handle.old) text.now DONE)
        (answers.if_open (behind handle.old) (λ old. answers.owed_code (steps.cii_answer old text.now))) result }
    ensures same { ChangesNothing result → behind handle.new ≡ behind handle.old }
    ensures age { handle.new.age ≡ aged handle.old.age result }
    ensures agreement { KeepsAgreement (behind handle.old) (behind handle.new) }
    ensures fault { GoesOn result → Becomes (behind handle.old) (behind handle.new) (λ old new.
        new.fault ≡ refused_for (steps.cii_answer old.companion text.now)) }
    ensures told { GoesOn result → Between (behind handle.old) (behind handle.new) (λ old new.
        new ≡ steps.with_text old text.now) }
    ensures stands { GoesOn result → Between (behind handle.old) (behind handle.new) (λ old new. (peer : ℕ)
        → Adds (λ history. kind_of peer history ≡ Some kind.Cii) (λ history. Heard peer text.now ∷ history) old new) }
{
    changes!(handle, alloc, |follower| sessions::cii(&mut follower, text))
}

/// Puts a property of the content's state into a buffer, by its number: 0 protocolVersion, 1 mrsUrl, 2 contentId,
/// 3 contentIdStatus, 4 presentationStatus, 5 wcUrl, 6 tsUrl, 7 teUrl.
#[unsafe(no_mangle)]
pub extern "C" fn css_companion_cii_field(
    alloc: Global,
    handle: &mut Handle,
    property: u32,
    out: &mut [u8],
    used: &mut usize,
) -> u32
    ensures kept { result ≢ DONE → out.new ≡ out.old }
    ensures code { result ≡ answers.if_open (behind handle.old) (λ companion.
        answers.field_code property (property_of property companion.state) (length out.old)) }
    ensures same { behind handle.new ≡ behind handle.old }
    ensures age { handle.new.age ≡ handle.old.age }
    ensures text { result ≡ DONE → Of (behind handle.old) (λ companion.
        IfSome (property_of property companion.state) (λ text. Holds text used.new out.old out.new)) }
    ensures needs { result ≡ NO_ROOM → Of (behind handle.old) (λ companion.
        IfSome (property_of property companion.state) (λ text. used.new ≡ length text)) }
{
    reads!(
        handle,
        alloc,
        |boxed| content::field(&boxed.companion, property, out, used)
    )
}

/// Puts into a buffer what was refused: the property for which the last CII text was, by its name; else why the last
/// control timestamp can't be read.
#[unsafe(no_mangle)]
pub extern "C" fn css_companion_fault(
    alloc: Global,
    handle: &mut Handle,
    out: &mut [u8],
    used: &mut usize,
) -> u32
    ensures kept { result ≢ DONE → out.new ≡ out.old }
    ensures closed { behind handle.old ≡ None → result ≡ CLOSED }
    ensures code { IsSome (behind handle.old) → Has (behind handle.old) (λ old.
        Answers DONE (answers.value_code (words_of old) (length out.old)) result) }
    ensures same { behind handle.new ≡ behind handle.old }
    ensures age { handle.new.age ≡ handle.old.age }
    ensures text { result ≡ DONE → Has (behind handle.old) (λ old.
        IfSome (words_of old) (λ words. Holds words used.new out.old out.new)) }
    ensures needs { result ≡ NO_ROOM → Has (behind handle.old) (λ old.
        IfSome (words_of old) (λ words. used.new ≡ length words)) }
{
    reads!(
        handle,
        alloc,
        |boxed| content::fault(alloc, &boxed, out, used)
    )
}

/// Puts the whole state of the content into a buffer, as the text that tells it.
#[unsafe(no_mangle)]
pub extern "C" fn css_companion_cii_state(
    alloc: Global,
    handle: &mut Handle,
    out: &mut [u8],
    used: &mut usize,
) -> u32
    ensures kept { result ≢ DONE → out.new ≡ out.old }
    ensures code { Answers (answers.if_open (behind handle.old) (λ _. DONE)) (answers.if_open (behind handle.old)
        (λ companion. answers.room_code (change_text (full_change companion.state)) (length out.old))) result }
    ensures same { behind handle.new ≡ behind handle.old }
    ensures age { handle.new.age ≡ handle.old.age }
    ensures text { result ≡ DONE → Of (behind handle.old) (λ companion.
        Holds (change_text (full_change companion.state)) used.new out.old out.new) }
    ensures needs { result ≡ NO_ROOM → Of (behind handle.old) (λ companion.
        used.new ≡ length (change_text (full_change companion.state))) }
{
    reads!(
        handle,
        alloc,
        |boxed| content::state(alloc, &boxed.companion, out, used)
    )
}

/// Puts the selector of a timeline that the television lists into a buffer, with its tick rate, by its number from 0.
#[unsafe(no_mangle)]
pub extern "C" fn css_companion_timeline(
    alloc: Global,
    handle: &mut Handle,
    number: usize,
    rate: &mut TimelineRate,
    out: &mut [u8],
    used: &mut usize,
) -> u32
    ensures kept { result ≢ DONE → (out.new ≡ out.old) × (rate.new ≡ rate.old) }
    ensures code { result ≡ answers.if_open (behind handle.old) (λ companion.
        answers.timeline_code (listed number companion.state.timelines) (length out.old)) }
    ensures same { behind handle.new ≡ behind handle.old }
    ensures age { handle.new.age ≡ handle.old.age }
    ensures told { result ≡ DONE → Of (behind handle.old) (λ companion.
        IfSome (listed number companion.state.timelines) (λ timeline.
        TellsTimeline timeline used.new out.old out.new rate.new)) }
    ensures needs { result ≡ NO_ROOM → Of (behind handle.old) (λ companion.
        IfSome (listed number companion.state.timelines) (λ timeline. used.new ≡ length timeline.selector)) }
{
    reads!(
        handle,
        alloc,
        |boxed| timeline(&boxed.companion, number, rate, out, used)
    )
}

/// Puts the text to send on a TS session that was opened into a buffer. That session begins anew: there is no control
/// timestamp until one comes on it.
#[unsafe(no_mangle)]
pub extern "C" fn css_companion_setup(
    alloc: Global,
    handle: &mut Handle,
    out: &mut [u8],
    used: &mut usize,
) -> u32
    ensures kept { result ≢ DONE → out.new ≡ out.old }
    ensures code { Answers (answers.if_open (behind handle.old) (λ _. DONE)) (answers.if_open (behind handle.old)
        (λ companion. answers.room_code (setup_text companion.setup) (length out.old))) result }
    ensures same { ChangesNothing result → behind handle.new ≡ behind handle.old }
    ensures age { handle.new.age ≡ aged handle.old.age result }
    ensures beside { KeepsBeside (behind handle.old) (behind handle.new) }
    ensures told { result ≡ DONE → Between (behind handle.old) (behind handle.new) (λ old new.
        new ≡ steps.stepped old event.TsOpened) }
    ensures text { result ≡ DONE → Of (behind handle.old) (λ companion.
        Holds (setup_text companion.setup) used.new out.old out.new) }
    ensures needs { result ≡ NO_ROOM → Of (behind handle.old) (λ companion.
        used.new ≡ length (setup_text companion.setup)) }
    ensures stands { result ≡ DONE → Between (behind handle.old) (behind handle.new) (λ old new. (peer : ℕ)
        → Adds (λ _. Unit {0}) (λ history. Dialled kind.Ts peer ∷ history) old new) }
{
    changes!(
        handle,
        alloc,
        |follower| sessions::setup(&mut follower.companion, out, used)
    )
}

/// Takes in a text of the TS session. One that can't be read takes the place of the last control timestamp too.
#[unsafe(no_mangle)]
pub extern "C" fn css_companion_control(alloc: Global, handle: &mut Handle, text: &[u8]) -> u32
    ensures code { Answers (answers.heard (behind handle.old) text.now DONE) DONE result }
    ensures same { ChangesNothing result → behind handle.new ≡ behind handle.old }
    ensures age { handle.new.age ≡ aged handle.old.age result }
    ensures beside { KeepsBeside (behind handle.old) (behind handle.new) }
    ensures told { result ≡ DONE → Between (behind handle.old) (behind handle.new) (λ old new.
        new ≡ record old { control = Some (control_of text.now) }) }
    ensures stands { result ≡ DONE → Between (behind handle.old) (behind handle.new) (λ old new. (peer : ℕ)
        → Adds (λ history. kind_of peer history ≡ Some kind.Ts) (λ history. Heard peer text.now ∷ history) old new) }
{
    changes!(
        handle,
        alloc,
        |follower| sessions::control(&mut follower.companion, text)
    )
}

/// The TS session closed.
#[unsafe(no_mangle)]
pub extern "C" fn css_companion_ts_closed(alloc: Global, handle: &mut Handle) -> u32
    ensures code { result ≡ answers.if_open (behind handle.old) (λ _. DONE) }
    ensures same { result ≢ DONE → behind handle.new ≡ behind handle.old }
    ensures age { handle.new.age ≡ aged handle.old.age result }
    ensures beside { KeepsBeside (behind handle.old) (behind handle.new) }
    ensures told { result ≡ DONE → Between (behind handle.old) (behind handle.new) (λ old new.
        new ≡ steps.stepped old event.TsClosed) }
    ensures stands { result ≡ DONE → Between (behind handle.old) (behind handle.new) (λ old new. (entry : Entry)
        → Adds (steps.IsEntryOf event.TsClosed entry) (λ history. entry ∷ history) old new) }
{
    changes!(handle, alloc, |follower| {
        follower.companion.ts_closed();
        codes::DONE
    })
}
