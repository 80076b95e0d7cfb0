//! What is proved of clients and histories. Each law is the contract of a function that does nothing.

ghost use Rattle.css_client.specs.Landings.{LandingsAreJudged};
ghost use Rattle.css_client.specs.Standing.{StandsAside as IgnoresTheRest};

/// A client stands for the same history with one more entry, unless this is a sleep, a request, the reading for one, or
/// the landing of an answer. So nobody tells a client of the other things that a companion does.
pub fn stands_aside()
    ensures { IgnoresTheRest }
{}

/// What becomes of a datagram that lands follows from what it tells. The accepted answers after it are those before,
/// with the answer that it tells in front, if it isn't refused. Where the companion slept since the datagram, nothing
/// is accepted any more.
pub fn landings_are_judged()
    ensures { LandingsAreJudged }
{}
