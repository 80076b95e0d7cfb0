ghost use Rattle.std.specs.Prelude.{◌≡◌, ◌↔◌, IsTrue, IsSome, ◌≤◌, ◌<◌, ◌≤ℤ◌, pos, List};
ghost use Rattle.std.specs.Prelude.{[], Ok, OnOk, OnErr, IfOk, IfSome, take, drop, option_map};
ghost use Rattle.std.specs.Str.{IsUtf8};
ghost use Rattle.css_model.specs.Numbers.{max_error};
ghost use Rattle.css_model.specs.Wire.{encoded, decoded, stamp_bytes};
ghost use Rattle.css_server.specs.Tickets.{received, after_ticket, response_to, follow_up_to, follow_up_for};
ghost use Rattle.css_server.specs.Exchanges as server;
ghost use Rattle.css_sessions.specs.Kept.{next_open, talk_of};
ghost use Rattle.css_tv.specs.States.{published_state, addresses_of};
ghost use Rattle.css_tv.specs.Outcomes.{outcome_at};
ghost use Rattle.css_tv.specs.Serving.{server_of, Serves};
ghost use Rattle.css_tv.specs.Standing.{StandsFor, IsEvent, Steps, Stands, Tells, player_after};
ghost use Rattle.css_tv.specs.declared.event.TvEvent.{TvEvent as TvEvents};

use crate::config::TvConfig;
use crate::event::{TvEvent, TvOut};
use crate::fault::TvFault;
use crate::publishing::publish;
use crate::stage::Stage;
use crate::urls::addresses_of;
use css_cii::State;
use css_model::LIMIT;
use css_num::Memory;
use css_player::Player;
use css_server::{Answered, ServeFault, Server, Ticket};
use css_sessions::Sessions;
use std::alloc::Global;
use std::marker::Model;

/// A television: its end of the wall clock, what it shows, and the sessions that it tells.
#[derive(Drop)]
pub struct Tv {
    server: Server,
    stage: Stage,
}

impl Model for Tv {
    ghost use Rattle.css_tv.specs.Stages.{Television, IsStage};

    ghost Value = { Television };

    ghost view = { λ tv. record { server = tv.server; stage = tv.stage } };

    ghost invariant = { λ tv. IsStage tv.stage };
}

impl Tv {
    /// A television that shows nothing yet and has no session.
    pub fn new(alloc: Global, config: TvConfig) -> Result<Tv, Memory>
        requires precision { config.precision ≤ℤ pos 30 }
        requires error { config.error ≤ max_error }
        requires host { IsUtf8 config.host }
        requires port { config.port ≤ 65534 }
        ensures addresses { IfOk result (λ tv. tv.stage.addresses ≡ addresses_of config.host config.port) }
        ensures stands { IfOk result (λ tv. StandsFor tv.stage []) }
        ensures server { IfOk result (λ tv. tv.server ≡ server_of config) }
        ensures serves { IfOk result (λ tv. server.StandsFor tv.server []) }
    {
        let addresses = addresses_of(alloc, &config.host, config.port)?;
        let player = Player::new(alloc);
        let mut sessions = Sessions::new(alloc);
        let mut none = Vec::new(alloc);
        publish(alloc, &addresses, &player, &mut sessions, &mut none)?;
        Ok(Tv {
            server: Server::new(config.precision, config.error, config.follow),
            stage: Stage {
                alloc,
                addresses,
                player,
                sessions,
            },
        })
    }

    /// Takes in what happened, and appends what is done at the sessions.
    ///
    /// These end in `HangUp`: a text that is refused, a text of a CII session or of a peer that has no session, and an
    /// opening where 256 sessions are open. Each command that the player accepts drops the windows in force. A
    /// presentation at speed 1 chooses the least delay that fits all windows in force, where there is one.
    ///
    /// The one fault besides want of memory is the player's. After a fault the television and `out` are as before.
    pub fn step(&mut self, event: TvEvent, out: &mut Vec<TvOut>) -> Result<(), TvFault>
        requires { IsEvent event self.old.stage }
        ensures outcome { Steps result self.old.stage self.new.stage out.old.items out.new.items
            (outcome_at event self.old.stage) }
        ensures stands { Stands result self.old.stage self.new.stage event }
        ensures told { Tells result self.old.stage out.old.items out.new.items event }
        ensures server { self.new.server ≡ self.old.server }
    {
        self.stage.step(event, out)
    }

    /// Whether a peer has a session.
    pub fn is_open(&self, peer: u32) -> bool
        ensures { IsTrue result ↔ IsSome (talk_of peer self.now.stage.sessions.list) }
    {
        self.stage.sessions.is_open(peer)
    }

    /// The first peer after the last one that has a session.
    pub fn next_open(&self, last: Option<u32>) -> Option<u32>
        ensures { result ≡ next_open last self.now.stage.sessions.list }
    {
        self.stage.sessions.next_open(last)
    }

    /// Takes a request of CSS-WC: [`Server::receive`].
    pub fn receive(&mut self, bytes: &[u8], reading: u64) -> Result<Ticket, ServeFault>
        requires { reading < LIMIT }
        ensures value { result ≡ received self.old.server bytes.now reading }
        ensures originate { IfOk result (λ ticket. stamp_bytes ticket.originate ≡ take 8 (drop 8 bytes.now)) }
        ensures ok { OnOk result (self.new.server ≡ after_ticket self.old.server reading) }
        ensures stage { self.new.stage ≡ self.old.stage }
        ensures err { OnErr result (self.new ≡ self.old) }
        ensures stands { IfOk result (Serves self.old.server self.new.server) }
    {
        self.server.receive(bytes, reading)
    }

    /// Answers a request of CSS-WC: [`Server::answer`].
    pub fn answer(&self, ticket: Ticket, reading: u64) -> Answered
        requires { reading < LIMIT }
        ensures response { result.response ≡ encoded (response_to self.now.server ticket reading) }
        ensures response_read_back { decoded result.response ≡ Ok (response_to self.now.server ticket reading) }
        ensures follow_up { result.follow_up ≡ option_map encoded (follow_up_for self.now.server ticket reading) }
        ensures follow_up_read_back { IfSome result.follow_up (λ bytes. decoded bytes ≡ Ok (follow_up_to
            self.now.server ticket reading)) }
    {
        self.server.answer(ticket, reading)
    }

    /// What can be shown and what is shown.
    pub fn player(&self) -> &Player
        ensures value { result.now ≡ self.now.stage.player }
        ensures meaning { (h : List TvEvents) → StandsFor self.now.stage h → result.now ≡ player_after
            self.now.stage.addresses h }
    {
        &self.stage.player
    }

    /// The published state.
    pub fn state(&self) -> &State
        ensures value { result.now ≡ published_state self.now.stage.addresses self.now.stage.player }
        ensures meaning { (h : List TvEvents) → StandsFor self.now.stage h → result.now ≡ published_state
            self.now.stage.addresses (player_after self.now.stage.addresses h) }
    {
        self.stage.sessions.state()
    }
}
