ghost use Rattle.std.specs.Prelude.{◌≡◌, ◌≤◌, ◌<◌, ◌≤ℤ◌, pos, List, [], ◌∷◌, None, Ok, OnOk, OnErr, IfOk, IfSome, take};
ghost use Rattle.std.specs.Prelude.{drop};
ghost use Rattle.std.specs.Option.{option_map};
ghost use Rattle.css_model.specs.Numbers.{max_error};
ghost use Rattle.css_model.specs.Wire.{encoded, decoded, stamp_bytes};
ghost use Rattle.css_server.specs.Tickets.{Ticket as Taken, ticket_for, answer_message, received, after_ticket};
ghost use Rattle.css_server.specs.Tickets.{response_to, follow_up_to, follow_up_for};
ghost use Rattle.css_wc.specs.Datagrams.{HasNoFault};
ghost use Rattle.css_server.specs.Exchanges.{StandsFor};

use crate::fault::ServeFault;
use css_model::{LIMIT, Message, Stamp};
use css_wc::{decode, encode, stamp_of};
use std::marker::Model;

/// The television's end of CSS-WC.
///
/// It keeps what its answers declare, and the greatest reading at which it took a request.
#[derive(Debug, Drop)]
pub struct Server {
    precision: i8,
    error: u32,
    follow: bool,
    greatest: Option<u64>,
}

impl Model for Server {
    ghost use Rattle.css_server.specs.Tickets.{Server as Known, IsServer};

    ghost Value = { Known };

    ghost view = { λ s. record { precision = s.precision; error = s.error; follow = s.follow; greatest = s.greatest } };

    ghost invariant = { λ s.
        IsServer (record { precision = s.precision; error = s.error; follow = s.follow; greatest = s.greatest }) };
}

/// A request that a server took and has not answered yet.
#[derive(Debug, Drop)]
pub struct Ticket {
    originate: Stamp,
    reading: u64,
    follow_up: bool,
}

impl Model for Ticket {
    ghost use Rattle.css_server.specs.Tickets.{Ticket as Taken, IsTicket};

    ghost Value = { Taken };

    ghost view = { λ t. record { originate = t.originate; reading = t.reading; follow_up = t.follow_up } };

    ghost invariant = { λ t.
        IsTicket (record { originate = t.originate; reading = t.reading; follow_up = t.follow_up }) };
}

/// The datagrams that answer a request, in the order of their sending.
#[derive(Clone, Copy, Debug, PartialEq, Eq)]
pub struct Answered {
    /// The response.
    pub response: [u8; 32],
    /// The follow-up that the response promises.
    pub follow_up: Option<[u8; 32]>,
}

impl Server {
    /// A server that took no request yet.
    ///
    /// Its answers declare the precision of its clock, `10^9 * 2^precision` nanoseconds with an exponent of at most 30,
    /// and the greatest error of its oscillator in 1/256 ppm, at most 25,600,000. With `follow` set it promises
    /// follow-ups.
    pub fn new(precision: i8, error: u32, follow: bool) -> Server
        requires precision { precision ≤ℤ pos 30 }
        requires error { error ≤ max_error }
        ensures value { result ≡ record { precision = precision; error = error; follow = follow; greatest = None } }
        ensures stands { StandsFor result [] }
    {
        Server {
            precision,
            error,
            follow,
            greatest: None,
        }
    }

    /// Takes a request that was received when the television's clock read so, in nanoseconds.
    ///
    /// The faults are `Undecodable`, and then `NotARequest` of an answer; after either the server is as it was. A
    /// follow-up is promised exactly where the server does so and the reading is greater than that of each earlier
    /// ticket. So no two promises have the same receive value.
    pub fn receive(&mut self, bytes: &[u8], reading: u64) -> Result<Ticket, ServeFault>
        requires { reading < LIMIT }
        ensures value { result ≡ received self.old bytes.now reading }
        ensures originate { IfOk result (λ ticket. stamp_bytes ticket.originate ≡ take 8 (drop 8 bytes.now)) }
        ensures ok { OnOk result (self.new ≡ after_ticket self.old reading) }
        ensures err { OnErr result (self.new ≡ self.old) }
        ensures stands { IfOk result (λ ticket. (tickets : List Taken) → StandsFor self.old tickets
            → StandsFor self.new (ticket ∷ tickets)) }
    {
        let message = decode(bytes)?;
        if message.message_type != 0 {
            return Err(ServeFault::NotARequest);
        }
        Ok(self.give_ticket(message.originate, reading))
    }

    fn give_ticket(&mut self, originate: Stamp, reading: u64) -> Ticket
        requires { reading < LIMIT }
        ensures ticket { result ≡ ticket_for self.old reading originate }
        ensures after { self.new ≡ after_ticket self.old reading }
    {
        let is_greatest = match self.greatest {
            None => true,
            Some(greatest) => greatest < reading,
        };
        if is_greatest {
            self.greatest = Some(reading);
        }
        Ticket {
            originate,
            reading,
            follow_up: self.follow && is_greatest,
        }
    }

    /// Answers the request of a ticket that this server gave out, when the television's clock reads so, in nanoseconds.
    ///
    /// Without a promise the response has type 1 and the reading as its transmit value. With one it has type 2 and the
    /// receive value there, and a follow-up of type 3 has the reading.
    pub fn answer(&self, ticket: Ticket, reading: u64) -> Answered
        requires { reading < LIMIT }
        ensures response { result.response ≡ encoded (response_to self.now ticket reading) }
        ensures response_read_back { decoded result.response ≡ Ok (response_to self.now ticket reading) }
        ensures follow_up { result.follow_up ≡ option_map encoded (follow_up_for self.now ticket reading) }
        ensures follow_up_read_back { IfSome result.follow_up (λ bytes.
            decoded bytes ≡ Ok (follow_up_to self.now ticket reading)) }
    {
        if ticket.follow_up {
            Answered {
                response: encode(&self.message(2, &ticket, ticket.reading)),
                follow_up: Some(encode(&self.message(3, &ticket, reading))),
            }
        } else {
            Answered {
                response: encode(&self.message(1, &ticket, reading)),
                follow_up: None,
            }
        }
    }

    fn message(&self, message_type: u8, ticket: &Ticket, transmit: u64) -> Message
        requires answer { message_type ≤ 3 }
        requires transmit { transmit < LIMIT }
        ensures value { result ≡ answer_message self.now ticket.now message_type transmit }
        ensures valid { HasNoFault result }
    {
        Message {
            message_type,
            precision: self.precision,
            error: self.error,
            originate: ticket.originate,
            receive: stamp_of(ticket.reading),
            transmit: stamp_of(transmit),
        }
    }
}
