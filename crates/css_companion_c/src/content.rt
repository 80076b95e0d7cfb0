//! What the television told of its content.
ghost use Rattle.std.specs.Prelude.{◌≡◌, ◌≢◌, ℕ, IfSome, length};
ghost use Rattle.css_cii.specs.States.{full_change};
ghost use Rattle.css_cii.specs.Texts.{change_text};
ghost use Rattle.css_companion_c.specs.Codes.{field_code, room_code, value_code, Answers, DONE, NO_ROOM};
ghost use Rattle.css_companion_c.specs.Noticing.{words_of};
ghost use Rattle.css_companion_c.specs.Texts.{Holds, property_of};

use crate::codes;
use crate::follower::Follower;
use crate::texts::put;
use css_cii::{State, full, write_message};
use css_companion::{Cause, Companion, fault_text};
use css_num::Text;
use std::alloc::Global;

/// A property that is a text, by its number.
fn property(state: &State, number: u32) -> &Option<Text>
    ensures { result.now ≡ property_of number state.now }
{
    match number {
        0 => &state.protocol_version,
        1 => &state.mrs_url,
        2 => &state.content_id,
        3 => &state.content_id_status,
        4 => &state.presentation_status,
        5 => &state.wc_url,
        6 => &state.ts_url,
        _ => &state.te_url,
    }
}

/// Puts a property into a buffer.
pub(crate) fn field(companion: &Companion, number: u32, out: &mut [u8], used: &mut usize) -> u32
    ensures kept { result ≢ DONE → out.new ≡ out.old }
    ensures code { result ≡ field_code number (property_of number companion.now.state) (length out.old) }
    ensures text { result ≡ DONE → IfSome (property_of number companion.now.state)
        (λ text. Holds text used.new out.old out.new) }
    ensures needs { result ≡ NO_ROOM → IfSome (property_of number companion.now.state)
        (λ text. used.new ≡ length text) }
{
    if number > 7 {
        return codes::RANGE;
    }
    match property(companion.state(), number) {
        None => codes::IS_NULL,
        Some(text) => put(text.bytes(), out, used),
    }
}

/// Puts the words for what was refused last into a buffer.
pub(crate) fn fault(alloc: Global, follower: &Follower, out: &mut [u8], used: &mut usize) -> u32
    ensures kept { result ≢ DONE → out.new ≡ out.old }
    ensures code { Answers DONE (value_code (words_of follower.now) (length out.old)) result }
    ensures text { result ≡ DONE → IfSome (words_of follower.now)
        (λ words. Holds words used.new out.old out.new) }
    ensures needs { result ≡ NO_ROOM → IfSome (words_of follower.now) (λ words. used.new ≡ length words) }
{
    if let Some(name) = follower.fault {
        return put(name.as_str().as_bytes(), out, used);
    }
    let Err(Cause::Unreadable(fault)) = follower.companion.timing() else {
        return codes::IS_NULL;
    };
    match fault_text(alloc, fault) {
        Ok(text) => put(text.bytes(), out, used),
        Err(_) => codes::MEMORY,
    }
}

/// Puts the whole state into a buffer, as the message that tells it.
pub(crate) fn state(alloc: Global, companion: &Companion, out: &mut [u8], used: &mut usize) -> u32
    ensures kept { result ≢ DONE → out.new ≡ out.old }
    ensures code { Answers DONE (room_code (change_text (full_change companion.now.state)) (length out.old)) result }
    ensures text { result ≡ DONE → Holds (change_text (full_change companion.now.state)) used.new out.old out.new }
    ensures needs { result ≡ NO_ROOM → used.new ≡ length (change_text (full_change companion.now.state)) }
{
    let Ok(change) = full(companion.state()) else {
        return codes::MEMORY;
    };
    match write_message(alloc, &change) {
        Ok(text) => put(text.bytes(), out, used),
        Err(_) => codes::MEMORY,
    }
}
