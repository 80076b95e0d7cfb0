use css_num::Text;
use std::marker::Model;

/// A reading of an end's clock.
#[derive(Clone, Copy, Debug, PartialEq, Eq)]
pub struct Clocked {
    /// In nanoseconds.
    pub reading: u64,
    /// Whether the machine slept since the reading before.
    pub slept: bool,
}

/// Where a session is dialled, or a wall clock asked.
#[derive(Debug, Drop)]
pub struct Address {
    /// A host's name, or its IP address.
    pub host: Text,
    pub port: u16,
    /// The path from its `/` on, with the query.
    pub path: Text,
}

impl Model for Address {
    ghost use Rattle.css_model.specs.History.{Address as Place};

    ghost Value = { Place };

    ghost view = { λ address. record { host = address.host; port = address.port; path = address.path } };

    ghost inverse = { λ address. record { host = address.host; port = address.port; path = address.path } };
}

/// What a session gives that is asked for a text.
#[derive(Debug, Drop)]
pub enum Heard {
    /// Nothing came.
    Quiet,
    /// A text came.
    Text(Text),
    /// The peer closed the session.
    Closed,
}

/// What became of a text that was to be sent.
#[derive(Clone, Copy, Debug, PartialEq, Eq)]
pub enum Wrote {
    /// It was sent.
    Sent,
    /// The peer had closed the session.
    Gone,
}
