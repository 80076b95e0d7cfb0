//! What is proved of the tickets that a server gave out. Each law is the contract of a function that does nothing.

ghost use Rattle.css_server.specs.Exchanges.{NoPromiseIsRepeated, PairsAreExchanges};

/// Whatever a server was sent, and at whatever readings, no two of its promises have the same receive value.
pub fn no_promise_is_repeated()
    ensures { NoPromiseIsRepeated }
{}

/// Where a companion pairs a follow-up of a server with a response of it, by their equal originate and receive values,
/// both are of one exchange.
pub fn pairs_are_exchanges()
    ensures { PairsAreExchanges }
{}
