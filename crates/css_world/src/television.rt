ghost use Rattle.std.specs.Prelude.{◌≡◌, ◌<◌, ◌≤◌, IfErr, ℕ, length, List, [], ◌∷◌, ◌++◌, Some, None, false};
ghost use Rattle.std.specs.Prelude.{Ok, IfOk, OnOk, OnErr};
ghost use Rattle.css_model.specs.Wire.{decoded, request_at};
ghost use Rattle.css_model.specs.Wire as wire;
ghost use Rattle.css_server.specs.Tickets.{Ticket as Taken, ticket_for, after_ticket};
ghost use Rattle.css_server.specs.Exchanges as servers;
ghost use Rattle.css_schedule.specs.Ranges.{IsHeader};
ghost use Rattle.css_tv.specs.Standing as tvs;
ghost use Rattle.css_tv.specs.declared.event.TvEvent.{TvEvent as Event};
ghost use Rattle.css_schedule.specs.Headers.{max_companions};
ghost use Rattle.css_meaning.specs.Numbering.{stored, spent};
ghost use Rattle.css_meaning.specs.Sessions.{addresses};
ghost use Rattle.css_meaning.specs.Happened.{server_of};
ghost use Rattle.css_world.specs.Lanes.{AllArePlayed, PlaysBy, KeepsTv, KeepsAllButTexts};
ghost use Rattle.css_world.specs.Standing.{Answers, DeclaresTheSame};
ghost use Rattle.std.specs.Option.{option_flatten};

use crate::lanes::Lanes;
use crate::place::place;
use css_meaning::WorldFault;
use css_model::LIMIT;
use css_num::{Memory, Text};
use css_schedule::Header;
use css_server::{Answered, Ticket};
use css_tv::{Tv, TvConfig, TvEvent};
use std::alloc::Global;

/// Where the television of a schedule is reached. Nobody dials it.
const HOST: &str = "127.0.0.1";

/// The port of its wall clock.
const PORT: u16 = 6677;

/// The television of a schedule: what it does.
#[derive(Drop)]
pub(crate) struct Television {
    pub(crate) tv: Tv,
    /// The tickets of its takes in their order, each until it is answered.
    pub(crate) takes: Vec<Option<Ticket>>,
}

impl Television {
    pub(crate) fn new(alloc: Global, header: &Header) -> Result<Television, Memory>
        requires { IsHeader header.now }
        ensures server { IfOk result (λ tv. tv.tv.server ≡ server_of header.now) }
        ensures serves { IfOk result (λ tv. servers.StandsFor tv.tv.server []) }
        ensures addresses { IfOk result (λ tv. tv.tv.stage.addresses ≡ addresses) }
        ensures stands { IfOk result (λ tv. tvs.StandsFor tv.tv.stage []) }
        ensures takes { IfOk result (λ tv. tv.takes.items ≡ []) }
    {
        let config = TvConfig {
            precision: header.tv_precision,
            error: header.tv_error,
            follow: header.follow,
            host: Text::of(alloc, HOST.as_bytes())?,
            port: PORT,
        };
        Ok(Television {
            tv: Tv::new(alloc, config)?,
            takes: Vec::new(alloc),
        })
    }

    /// Receives a request.
    pub(crate) fn take(&mut self, request: &[u8; 32], reading: u64) -> Result<(), Memory>
        requires request { (asked : ℕ) × (decoded request.now ≡ Ok (request_at asked)) }
        requires reading { reading < LIMIT }
        ensures stage { self.new.tv.stage ≡ self.old.tv.stage }
        ensures declared { DeclaresTheSame self.old.tv.server self.new.tv.server }
        ensures stands { (asked : ℕ) (tickets : List Taken) → decoded request.now ≡ Ok (request_at asked)
            → servers.StandsFor self.old.tv.server tickets → OnOk result (servers.StandsFor self.new.tv.server
            (ticket_for self.old.tv.server reading (wire.stamp_of asked) ∷ tickets)) }
        ensures takes { (asked : ℕ) → decoded request.now ≡ Ok (request_at asked)
            → OnOk result (self.new.takes.items ≡ self.old.takes.items
            ++ Some (ticket_for self.old.tv.server reading (wire.stamp_of asked)) ∷ []) }
    {
        let ticket = match self.tv.receive(request, reading) {
            Ok(ticket) => ticket,
            Err(_) => unreachable!(),
        };
        self.takes.push(Some(ticket))?;
        Ok(())
    }

    /// Answers a take, unless it wasn't made or has its answer.
    pub(crate) fn give(&mut self, take: u32, reading: u64) -> Option<Answered>
        requires reading { reading < LIMIT }
        ensures answered { Answers self.old.tv.server reading
            (option_flatten (stored self.old.takes.items take)) result }
        ensures takes { self.new.takes.items ≡ spent self.old.takes.items take }
        ensures rest { self.new.tv ≡ self.old.tv }
    {
        let ticket = self.spend(take)?;
        Some(self.tv.answer(ticket, reading))
    }

    /// Takes out a ticket by the number of its take.
    fn spend(&mut self, take: u32) -> Option<Ticket>
        ensures ticket { result ≡ option_flatten (stored self.old.takes.items take) }
        ensures after { self.new.takes.items ≡ spent self.old.takes.items take }
        ensures rest { self.new.tv ≡ self.old.tv }
    {
        self.takes.get_mut(place(take)?)?.take()
    }
}

/// Lets something happen at the television, and puts into flight what it tells the companions.
pub(crate) fn play(
    alloc: Global,
    tv: &mut Tv,
    lanes: &mut Lanes,
    event: TvEvent,
) -> Result<(), WorldFault>
    requires few { length lanes.old.list.items ≤ max_companions }
    requires event { tvs.IsEvent event tv.old.stage }
    requires addresses { tv.old.stage.addresses ≡ addresses }
    ensures answer { (events : List Event) → PlaysBy events event tv.old result }
    ensures played { (events : List Event) → tvs.StandsFor tv.old.stage events
        → tvs.IsFresh event (tvs.calls_of addresses events).sessions
        → OnOk result (AllArePlayed events event tv.new lanes.old.list.items lanes.new.list.items) }
    ensures tv { (tv.new.server ≡ tv.old.server) × (tv.new.stage.addresses ≡ tv.old.stage.addresses) }
    ensures lanes { KeepsAllButTexts lanes.old.list.items lanes.new.list.items }
    ensures refused { IfErr result (λ fault. KeepsTv tv.old tv.new fault) }
{
    let mut told = Vec::new(alloc);
    tv.step(event, &mut told)?;
    lanes.tell(told)?;
    Ok(())
}
