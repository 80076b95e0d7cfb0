use css_model::Stamp;
use std::marker::Model;

/// A request that a relay took and has not answered yet.
#[derive(Debug, Drop)]
pub struct RelayTicket {
    pub(crate) originate: Stamp,
    pub(crate) value: u64,
    pub(crate) half: u64,
}

impl Model for RelayTicket {
    ghost use Rattle.css_relay.specs.Answers.{Ticket, IsTicket};

    ghost Value = { Ticket };

    ghost view = { λ t. record { originate = t.originate; value = t.value; half = t.half } };

    ghost invariant = { λ t. IsTicket (record { originate = t.originate; value = t.value; half = t.half }) };
}
