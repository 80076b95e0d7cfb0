ghost use Rattle.std.specs.Prelude.{◌≡◌, ◌≤◌, ◌<◌, ℕ, [], ◌∷◌, Ok, max, take, drop};
ghost use Rattle.std.specs.Prelude.{IfOk, OnOk, OnErr};
ghost use Rattle.std.specs.Borrow.{sem};
ghost use Rattle.std.specs.Str.{IsUtf8};
ghost use Rattle.css_model.specs.declared.Why.TheVariants as why;
ghost use Rattle.css_model.specs.Numbers.{max_error};
ghost use Rattle.css_model.specs.Wire.{decoded, stamp_bytes};
ghost use Rattle.css_model.specs.History.{History, Clock, Took, accepted_answers};
ghost use Rattle.css_wc.specs.Datagrams.{HasNoFault};
ghost use Rattle.css_client.specs.Landings.{judged_of, landing_of, IsRefusal};
ghost use Rattle.css_client.specs.Standing.{AcceptsTheTruth};
ghost use Rattle.css_cii.specs.Texts.{IsUtf8State};
ghost use Rattle.css_companion.specs.Standing.{own_of, wanted_by};
ghost use Rattle.css_relay.specs.Agreeing.{Agrees, Compares, Holds};
ghost use Rattle.css_agree.specs.Disagreements.{IsPossibleAt};
ghost use Rattle.css_span.specs.Frontiers.{Answers};
ghost use Rattle.css_relay.specs.Answers.{requested_by, ticket_at, received_after, answered, answered_after};
ghost use Rattle.css_relay.specs.Answers.{unless_wide, datagram_of, Responds};
ghost use Rattle.css_relay.specs.Lending.{LendsCompanion};
ghost use Rattle.css_relay.specs.Middles.{middle_known};
ghost use Rattle.css_relay.specs.Relays.{StandsFor, state_of, wc_url_of, relayed_state};
ghost use Rattle.css_relay.specs.TwoHops.{TicketIsTrue, AnswerIsTrue};

use crate::address::wc_url;
use crate::exponent::{exponent_for, greatest_half};
use crate::fault::RelayFault;
use crate::middle::{Middle, read_middle};
use crate::ticket::RelayTicket;
use css_agree::{Agree, AgreeFault};
use css_cii::State;
use css_client::Landing;
use css_companion::{Companion, CompanionConfig};
use css_model::{LIMIT, Message, Stamp};
use css_num::{Memory, Span, Text};
use css_span::{Answer, Local};
use css_wc::{decode, encode, stamp_of};
use std::alloc::Global;
use std::marker::Model;

/// A companion that serves the television's wall clock on.
///
/// It answers a request with the middle of its span of the wall clock, and declares a precision that covers the span
/// and the greatest error that a television declared to it. So its answers are true of the television's wall clock, and
/// a companion that asks it needs to know nothing of the relay's own clock.
///
/// All readings are those of the relay's own clock, in nanoseconds, and are handed to it as to a [`Companion`].
pub struct Relay {
    companion: Companion,
    wc_url: Text,
    /// What the answers say together that were accepted since the last sleep. Where none was, it says nothing.
    agree: Agree,
}

// By hand: a derived drop is opened at each exit of each caller's proof.
impl Drop for Relay {
    fn drop(self) {
        let Relay {
            companion: _,
            wc_url: _,
            agree: _,
        } = self;
    }
}

impl Model for Relay {
    ghost use Rattle.std.specs.Str.{IsUtf8};
    ghost use Rattle.css_relay.specs.Relays.{Relay as Known};

    ghost Value = { Known };

    ghost view = { λ r. record { companion = r.companion; wc_url = r.wc_url; agree = r.agree } };

    ghost invariant = { λ r. IsUtf8 r.wc_url };
}

impl Relay {
    /// A relay that was told nothing yet, and serves the wall clock at this host and port.
    #[tactic(auto, using(crate::proofs::Begins::begins))]
    pub fn new(
        alloc: Global,
        config: CompanionConfig,
        host: &Text,
        port: u16,
    ) -> Result<Relay, Memory>
        requires selector { IsUtf8 config.selector }
        requires stem { IsUtf8 config.stem }
        requires host { IsUtf8 host.now }
        ensures wc_url { IfOk result (λ relay. relay.wc_url ≡ wc_url_of host.now port) }
        ensures setup { IfOk result (λ relay. relay.companion.setup ≡ wanted_by config) }
        ensures own { IfOk result (λ relay. own_of relay.companion ≡ config.local) }
        ensures floor { IfOk result (λ relay. relay.companion.client.floor ≡ 0) }
        ensures stands { IfOk result (λ relay. StandsFor relay.companion []) }
        ensures agrees { IfOk result (λ relay. Agrees config.local relay.agree []) }
    {
        let wc_url = wc_url(alloc, host, port)?;
        let agree = Agree::new(alloc, config.local);
        Ok(Relay {
            companion: Companion::new(alloc, config)?,
            wc_url,
            agree,
        })
    }

    /// The companion that it is, for a loop that makes a companion's calls.
    pub fn companion(&mut self) -> &mut Companion
        ensures* lends { sem 𝓛 (LendsCompanion self.entry result) }
        ensures value { result.now ≡ self.old.companion }
    {
        &mut self.companion
    }

    /// Takes in a datagram of the television that landed when the clock read so: [`Companion::land`].
    pub fn land(&mut self, bytes: &[u8], reading: u64) -> Result<Landing, Memory>
        requires range { reading < LIMIT }
        requires floor { self.old.companion.client.floor ≤ reading }
        ensures landing { (history : History) → StandsFor self.old.companion history
            → IfOk result (λ landing. landing ≡ landing_of (own_of self.old.companion) history reading bytes.now) }
        ensures stands { (history : History) (peer : ℕ) → StandsFor self.old.companion history
            → OnOk result (StandsFor self.new.companion (Clock why.Land reading ∷ Took peer bytes.now ∷ history)) }
        ensures truth { AcceptsTheTruth self.old.companion.client reading bytes.now result }
        ensures wc_url { self.new.wc_url ≡ self.old.wc_url }
        ensures agree { self.new.agree ≡ self.old.agree }
        ensures keeps { self.new.companion ≡ record self.old.companion { client = self.new.companion.client } }
        ensures own { own_of self.new.companion ≡ own_of self.old.companion }
        ensures refused { IfOk result (λ landing. IsRefusal landing → self.new ≡ self.old) }
        ensures floor { self.new.companion.client.floor ≤ reading }
        ensures after_sleep { self.new.companion.client.after_sleep ≡ self.old.companion.client.after_sleep }
        ensures err { OnErr result (self.new ≡ self.old) }
    {
        self.companion.land(bytes, reading)
    }

    /// Adds the answer that a datagram tells, where it is accepted, to those accepted since the last sleep, and says
    /// whether it contradicts them at this reading, that of its landing. It comes before [`Relay::land`].
    ///
    /// A television that contradicts itself has set its clock, or it keeps less than it declares. Then no answer counts
    /// any more, and the relay is to begin anew.
    pub fn compare(&mut self, bytes: &[u8], reading: u64) -> Result<bool, Memory>
        requires { reading < LIMIT }
        ensures compares { (history : History) → StandsFor self.old.companion history
            → Agrees (own_of self.old.companion) self.old.agree history
            → IfOk result (Compares (own_of self.old.companion) reading
            (judged_of (own_of self.old.companion) history reading bytes.now)
            (accepted_answers (own_of self.old.companion) history) self.new.agree) }
        ensures rest { self.new ≡ record self.old { agree = self.new.agree } }
    {
        self.forget_stale();
        let judged = self.companion.judge(bytes, reading);
        admit(&mut self.agree, &judged, reading)
    }

    /// Forgets the answers of before a sleep, if no answer was accepted since.
    fn forget_stale(&mut self)
        ensures stands { (history : History) → StandsFor self.old.companion history
            → Agrees (own_of self.old.companion) self.old.agree history
            → Holds (own_of self.old.companion) self.new.agree
            (accepted_answers (own_of self.old.companion) history) }
        ensures rest { self.new ≡ record self.old { agree = self.new.agree } }
    {
        if self.companion.kept() == 0 {
            self.agree.forget();
        }
    }

    /// The state that the relay tells: that of the television, with `udp://HOST:PORT` of the relay as `wcUrl` where the
    /// television told one.
    pub fn relayed(&self) -> Result<State, Memory>
        ensures value { IfOk result (λ state. state ≡ relayed_state self.now.wc_url self.now.companion.state) }
        ensures utf8 { IfOk result IsUtf8State }
        ensures meaning { (history : History) → StandsFor self.now.companion history
            → IfOk result (λ state. state ≡ relayed_state self.now.wc_url (state_of history)) }
    {
        let mut state = self.companion.state().clone()?;
        if state.wc_url.is_some() {
            state.wc_url = Some(self.wc_url.clone()?);
        }
        Ok(state)
    }

    /// Takes a request that was received when the clock read so.
    ///
    /// The ticket has the middle of the wall clock's span, cut to the readings that a clock can have, and half its
    /// width. The faults are `Undecodable`, `NotARequest`, `NoAnswer` and `Beyond`, in this order.
    pub fn receive(&self, bytes: &[u8], reading: u64) -> Result<RelayTicket, RelayFault>
        requires range { reading < LIMIT }
        requires floor { self.now.companion.client.floor ≤ reading }
        ensures value { (history : History) → StandsFor self.now.companion history
            → result ≡ received_after (own_of self.now.companion) history reading bytes.now }
        ensures originate { IfOk result (λ ticket. stamp_bytes ticket.originate ≡ take 8 (drop 8 bytes.now)) }
        ensures reads { TicketIsTrue self.now.companion reading result }
    {
        let originate = requested(bytes)?;
        ticket(originate, self.companion.wall(reading))
    }

    /// The datagram that answers the request of a ticket that this relay gave out, when the clock reads so.
    ///
    /// It is a response of type 1. Its receive value is that of the ticket, its transmit value the middle of the wall
    /// clock's span now; its precision is the least from 2^-30 s to 2^30 s that is no less than half the width of
    /// either span; and it declares the greatest error that an accepted answer does. The faults are `NoAnswer`,
    /// `Beyond` and `Wide`, in this order.
    pub fn answer(&self, ticket: RelayTicket, reading: u64) -> Result<[u8; 32], RelayFault>
        requires range { reading < LIMIT }
        requires floor { self.now.companion.client.floor ≤ reading }
        ensures value { (history : History) → StandsFor self.now.companion history → result
            ≡ datagram_of (answered_after (own_of self.now.companion) history reading ticket) }
        ensures is_true { AnswerIsTrue self.now.companion ticket reading result }
    {
        respond(
            &ticket,
            self.companion.greatest_error(),
            self.companion.wall(reading),
        )
    }
}

/// Adds an answer that was just accepted, if one was, and tells whether it contradicts those before it.
fn admit(agree: &mut Agree, judged: &Result<Answer, Landing>, reading: u64) -> Result<bool, Memory>
    requires { reading < LIMIT }
    ensures { (own : Local) (answers : Answers) → Holds own agree.old answers → IsPossibleAt own reading judged.now
        → IfOk result (Compares own reading judged.now answers agree.new) }
{
    let Ok(answer) = judged else {
        return Ok(false);
    };
    match agree.add(*answer, reading) {
        Ok(()) => Ok(agree.contradicts(reading)),
        Err(AgreeFault::Memory) => Err(Memory),
        // What is judged possible is possible.
        Err(AgreeFault::Impossible(_)) => Ok(false),
    }
}

/// The originate value of a request.
fn requested(bytes: &[u8]) -> Result<Stamp, RelayFault>
    ensures value { result ≡ requested_by (decoded bytes.now) }
    ensures originate { IfOk result (λ originate. stamp_bytes originate ≡ take 8 (drop 8 bytes.now)) }
{
    let message = decode(bytes)?;
    if message.message_type != 0 {
        return Err(RelayFault::NotARequest);
    }
    Ok(message.originate)
}

/// The ticket of a request, where this is known of the wall clock.
fn ticket(originate: Stamp, wall: Option<Span>) -> Result<RelayTicket, RelayFault>
    ensures value { result ≡ ticket_at originate (middle_known wall) }
    ensures originate { IfOk result (λ ticket. ticket.originate ≡ originate) }
{
    let middle = read_middle(wall)?;
    Ok(RelayTicket {
        originate,
        value: middle.value,
        half: middle.half,
    })
}

/// The datagram that answers a ticket's request and declares this error, where this is known of the wall clock.
fn respond(ticket: &RelayTicket, error: u32, wall: Option<Span>) -> Result<[u8; 32], RelayFault>
    requires error { error ≤ max_error }
    ensures value { result ≡ datagram_of (answered wall error ticket.now) }
    ensures read_back { IfOk result (λ bytes. Responds bytes (answered wall error ticket.now)) }
{
    let middle = read_middle(wall)?;
    let response = response(ticket, error, middle)?;
    Ok(encode(&response))
}

/// The response to a ticket's request at a middle.
fn response(ticket: &RelayTicket, error: u32, middle: Middle) -> Result<Message, RelayFault>
    requires error { error ≤ max_error }
    requires range { middle.value < LIMIT }
    ensures value { result ≡ unless_wide ticket.now error middle }
    ensures valid { IfOk result HasNoFault }
{
    let half = ticket.half.max(middle.half);
    if half > greatest_half() {
        return Err(RelayFault::Wide(half));
    }
    Ok(Message {
        message_type: 1,
        precision: exponent_for(half),
        error,
        originate: ticket.originate,
        receive: stamp_of(ticket.value),
        transmit: stamp_of(middle.value),
    })
}
