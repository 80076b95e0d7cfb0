ghost use Rattle.std.specs.Prelude.{◌≡◌, ◌≢◌, ◌≤◌, ◌<◌, ◌∷◌, ◌==◌, if◌then◌else◌, take, unwrap_or, IfOk, OnOk, OnErr};
ghost use Rattle.css_model.specs.Wire.{second, decoded};
ghost use Rattle.css_wc.specs.Datagrams.{HasNoFault};
ghost use Rattle.css_span.specs.Frontiers.{Accepts};
ghost use Rattle.css_client.specs.Clients.{NeverFall, RemembersAll, RemembersOnly, Remembers};
ghost use Rattle.css_client.specs.Clients.{first_landed, without_promise, answer_of, is_among};
ghost use Rattle.css_client.specs.Landings.{verdict, awaited_if, judged_answer};
ghost use Rattle.css_client.specs.declared.landing.Landing.TheVariants as landings;

use crate::asked::Asked;
use crate::landing::Landing;
use crate::promises::{Promise, Promises};
use css_model::{LIMIT, Message};
use css_num::Memory;
use css_span::{AcceptFault, Answer, Estimate, Local, scaled_width};
use css_wc::{decode, precision_ns, reading as reading_of};

/// Adds a request, and forgets the responses to those that are forgotten for it. Readings never fall, so these are the
/// ones from before the oldest that is still asked.
pub(crate) fn note_request(asked: &mut Asked, promises: &mut Promises, request: u64)
    ensures asked { asked.new ≡ take 64 (request ∷ asked.old) }
    ensures all { NeverFall (request ∷ asked.old) → RemembersAll request asked.new promises.old promises.new }
    ensures only { NeverFall (request ∷ asked.old) → RemembersOnly asked.old promises.old
        → RemembersOnly asked.new promises.new }
{
    asked.note(request);
    if promises.are_none() {
        return;
    }
    if let Some(oldest) = asked.oldest() {
        promises.forget_before(oldest);
    }
}

/// The answer to one of the requests that bytes are, or why they are refused.
pub(crate) fn awaited(asked: &Asked, bytes: &[u8]) -> Result<Message, Landing>
    ensures value { result ≡ awaited_if (λ originate. is_among originate asked.now) (decoded bytes.now) }
    ensures valid { IfOk result HasNoFault }
    ensures is_answer { IfOk result (λ message. message.message_type ≢ 0) }
    ensures originate { IfOk result (λ message. message.originate.nanoseconds < second) }
{
    let message = match decode(bytes) {
        Ok(message) => message,
        Err(fault) => return Err(Landing::Undecodable(fault)),
    };
    if message.message_type == 0 {
        return Err(Landing::NotAnAnswer);
    }
    if !asked.has_originate(message.originate) {
        return Err(Landing::Unasked);
    }
    Ok(message)
}

/// What an answer to a request tells, unless it is impossible at its landing.
pub(crate) fn judged(
    promises: &Promises,
    local: &Local,
    message: &Message,
    reading: u64,
) -> Result<Answer, Landing>
    requires valid { HasNoFault message.now }
    requires is_answer { message.now.message_type ≢ 0 }
    requires originate { message.now.originate.nanoseconds < second }
    requires range { reading < LIMIT }
    ensures { result ≡ judged_answer local.now reading (answer_of promises.now reading message.now) }
{
    let answer = answer_to(promises, message, reading);
    let width = scaled_width(&answer, local, reading);
    if width < 0 {
        return Err(Landing::Impossible(width));
    }
    Ok(answer)
}

/// Takes in an answer to a request, and tells whether the estimate accepts it.
pub(crate) fn take_in(
    promises: &mut Promises,
    estimate: &mut Estimate,
    message: &Message,
    reading: u64,
) -> Result<Landing, Memory>
    requires valid { HasNoFault message.now }
    requires is_answer { message.now.message_type ≢ 0 }
    requires originate { message.now.originate.nanoseconds < second }
    requires range { reading < LIMIT }
    requires floor { estimate.old.floor ≤ reading }
    ensures landing { IfOk result
        (λ landing. landing ≡ verdict estimate.old.local reading (answer_of promises.old reading message.now)) }
    ensures promises { OnOk result (Remembers reading message.now promises.old promises.new) }
    ensures accepted { IfOk result (λ landing. landing ≡ landings.Accepted
        → Accepts estimate.old estimate.new (answer_of promises.old reading message.now) reading) }
    ensures refused { IfOk result (λ landing. landing ≢ landings.Accepted → estimate.new ≡ estimate.old) }
    ensures err { OnErr result ((promises.new ≡ promises.old) × (estimate.new ≡ estimate.old)) }
{
    let answer = answer_to(promises, message, reading);
    let is_new = remember(promises, message, reading)?;
    match estimate.accept(answer, reading) {
        Ok(()) => Ok(Landing::Accepted),
        Err(AcceptFault::Impossible(width)) => Ok(Landing::Impossible(width)),
        Err(AcceptFault::Memory) => {
            if is_new {
                promises.take_back(message.originate, message.receive);
            }
            Err(Memory)
        }
    }
}

/// Remembers a response that promises a follow-up, and tells whether it is the first with its values.
fn remember(promises: &mut Promises, message: &Message, reading: u64) -> Result<bool, Memory>
    requires valid { HasNoFault message.now }
    requires originate { message.now.originate.nanoseconds < second }
    requires range { reading < LIMIT }
    ensures ok { OnOk result (Remembers reading message.now promises.old promises.new) }
    ensures undone { IfOk result (λ is_new. promises.old
        ≡ (if is_new then without_promise message.now.originate message.now.receive promises.new else promises.new)) }
    ensures err { OnErr result (promises.new ≡ promises.old) }
{
    if message.message_type == 2 {
        promises.note(Promise {
            originate: message.originate,
            receive: message.receive,
            landed: reading,
        })
    } else {
        Ok(false)
    }
}

/// What an answer tells. A follow-up tells of the sending of its response, so it counts from the landing of that.
fn answer_to(promises: &Promises, message: &Message, reading: u64) -> Answer
    requires valid { HasNoFault message.now }
    requires is_answer { message.now.message_type ≢ 0 }
    requires originate { message.now.originate.nanoseconds < second }
    requires range { reading < LIMIT }
    ensures { result ≡ answer_of promises.now reading message.now }
{
    Answer {
        t1: reading_of(message.originate),
        t2: reading_of(message.receive),
        t3: reading_of(message.transmit),
        t4: landing_of(promises, message, reading),
        precision: precision_ns(message.precision),
        error: message.error,
    }
}

fn landing_of(promises: &Promises, message: &Message, reading: u64) -> u64
    requires valid { HasNoFault message.now }
    requires originate { message.now.originate.nanoseconds < second }
    requires range { reading < LIMIT }
    ensures value { result ≡ (if message.now.message_type == 3
        then unwrap_or (first_landed message.now.originate message.now.receive promises.now) reading else reading) }
    ensures range { result < LIMIT }
{
    if message.message_type == 3 {
        match promises.first(message.originate, message.receive) {
            Some(landed) => landed,
            None => reading,
        }
    } else {
        reading
    }
}
