//! What comes on both sessions, and what is sent.
ghost use Rattle.std.specs.Prelude.{◌≡◌, ◌≢◌, ℕ, ◌∷◌, Some, Err, true, length};
ghost use Rattle.css_model.specs.History.{History, Entry, Heard, Dialled};
ghost use Rattle.css_model.specs.declared.Kind.TheVariants as kind;
ghost use Rattle.css_tsmsg.specs.Controls.{control_of};
ghost use Rattle.css_tsmsg.specs.Setups.{setup_text};
ghost use Rattle.css_companion.specs.Meanings.{kind_of};
ghost use Rattle.css_companion.specs.Standing.{StandsFor};
ghost use Rattle.css_companion.specs.Steps as steps;
ghost use Rattle.css_companion.specs.Contents.{CarriesNoMemory};
ghost use Rattle.css_companion.specs.declared.event.CompanionEvent.TheVariants as event;
ghost use Rattle.css_companion_c.specs.Codes.{if_short, owed_code, fault_code, room_code, Answers, ChangesNothing};
ghost use Rattle.css_companion_c.specs.Codes.{GoesOn, DONE, NO_ROOM};
ghost use Rattle.css_cii.specs.declared.state.State.{State};
ghost use Rattle.css_companion_c.specs.Noticing.{refused_for};
ghost use Rattle.css_companion_c.specs.Texts.{Holds};

use crate::codes;
use crate::follower::Follower;
use crate::texts::put;
use css_cii::{CiiFault, CiiName};
use css_companion::{Companion, CompanionEvent, CompanionFault};
use css_num::Text;
use std::alloc::Global;

/// The code of a fault.
fn fault_code(fault: &CompanionFault) -> u32
    ensures { result ≡ fault_code fault.now }
{
    match fault {
        CompanionFault::BadCii { fault, .. } => match fault {
            CiiFault::NotJson => codes::NOT_JSON,
            CiiFault::NotObject => codes::NOT_OBJECT,
            CiiFault::Field(_) => codes::FIELD,
            CiiFault::Memory => codes::MEMORY,
        },
        CompanionFault::Moved { .. } => codes::MOVED,
        CompanionFault::Memory => codes::MEMORY,
    }
}

/// The property for which a text is refused, if it is refused for one.
fn refused_for(fault: &CompanionFault) -> Option<CiiName>
    ensures { result ≡ refused_for {T = State} (Err fault.now) }
{
    match fault {
        CompanionFault::BadCii { fault, .. } => match fault {
            CiiFault::Field(name) => Some(*name),
            _ => None,
        },
        CompanionFault::Moved { property, .. } => Some(*property),
        CompanionFault::Memory => None,
    }
}

/// Takes in a text of the CII session.
pub(crate) fn cii(follower: &mut Follower, text: &[u8]) -> u32
    ensures code { Answers (if_short text.now DONE)
        (owed_code (steps.cii_answer follower.old.companion text.now)) result }
    ensures told { GoesOn result → follower.new ≡ record follower.old {
      companion = steps.with_text follower.old.companion text.now;
      fault = refused_for (steps.cii_answer follower.old.companion text.now);
    } }
    ensures stands { GoesOn result → (history : History) (peer : ℕ) → kind_of peer history ≡ Some kind.Cii
        → StandsFor follower.old.companion history
        → StandsFor follower.new.companion (Heard peer text.now ∷ history) }
    ensures same { ChangesNothing result → follower.new ≡ follower.old }
{
    if text.len() > codes::LONGEST_TEXT {
        return codes::RANGE;
    }
    match follower.companion.cii(text) {
        Ok(()) => {
            follower.fault = None;
            codes::DONE
        }
        Err(fault) => {
            let code = fault_code(&fault);
            if code != codes::MEMORY {
                follower.fault = refused_for(&fault);
            }
            code
        }
    }
}

/// Takes in a text of the TS session.
pub(crate) fn control(companion: &mut Companion, text: &[u8]) -> u32
    ensures code { Answers (if_short text.now DONE) DONE result }
    ensures told { result ≡ DONE → companion.new ≡ record companion.old { control = Some (control_of text.now) } }
    ensures stands { result ≡ DONE → (history : History) (peer : ℕ) → kind_of peer history ≡ Some kind.Ts
        → StandsFor companion.old history → StandsFor companion.new (Heard peer text.now ∷ history) }
    ensures same { ChangesNothing result → companion.new ≡ companion.old }
{
    if text.len() > codes::LONGEST_TEXT {
        return codes::RANGE;
    }
    match companion.control(text) {
        Ok(()) => codes::DONE,
        Err(_) => codes::MEMORY,
    }
}

/// The text of the setup, once the TS session is opened. Where it is in the buffer, that session begins anew.
pub(crate) fn setup(companion: &mut Companion, out: &mut [u8], used: &mut usize) -> u32
    ensures kept { result ≢ DONE → out.new ≡ out.old }
    ensures code { Answers DONE (room_code (setup_text companion.old.setup) (length out.old)) result }
    ensures text { result ≡ DONE → Holds (setup_text companion.old.setup) used.new out.old out.new }
    ensures needs { result ≡ NO_ROOM → used.new ≡ length (setup_text companion.old.setup) }
    ensures stands { (history : History) (peer : ℕ) → StandsFor companion.old history
        → result ≡ DONE → StandsFor companion.new (Dialled kind.Ts peer ∷ history) }
    ensures told { result ≡ DONE → companion.new ≡ steps.stepped companion.old event.TsOpened }
    ensures same { result ≢ DONE → companion.new ≡ companion.old }
{
    let Ok(text) = companion.setup() else {
        return codes::MEMORY;
    };
    let code = put(text.bytes(), out, used);
    if code == codes::DONE {
        companion.ts_opened();
    }
    code
}
