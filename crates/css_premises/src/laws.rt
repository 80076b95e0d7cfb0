//! The premises of laws about several ends can be met. Each law is the contract of a function that does nothing.

ghost use Rattle.css_premises.specs.Hops.{IsHops, relayed_exchange};
ghost use Rattle.css_premises.specs.Runs.{HasSecondHop};
ghost use Rattle.css_premises.specs.Answers.{AreTruthful, IsContradiction, opposite_delays, set_anew};

/// The premises of two hops can be met: a world of three clocks that drift, a relay that asks and answers there, and a
/// second companion that accepts its answer and has a span.
pub fn two_hops_can_be_met()
    ensures { IsHops relayed_exchange }
{}

/// The premises of second hops can be met: all calls of a relay's run, each of which is the one that is due, a world
/// that explains them, and a second companion that accepts what the run sent in answer and has a span.
pub fn second_hops_can_be_met()
    ensures { HasSecondHop }
{}

/// The premises of an agreement can be met: two answers that a drifting world makes truthful, each of which gives one
/// end of the span that they share. So can those of a contradiction: two answers that share no span.
pub fn agreements_can_be_met()
    ensures agreement { AreTruthful opposite_delays }
    ensures contradiction { IsContradiction set_anew }
{}
