//! What is proved of relays and histories. Each law is the contract of a function that does nothing.

ghost use Rattle.css_relay.specs.Precisions.{ExponentsAreLeast};
ghost use Rattle.css_relay.specs.TwoHops.{AnswersAreTrue, TrueIsTruthful, TwoHopsAreTrue};

/// The exponent that a relay declares is the least whose precision isn't below the half width.
pub fn exponents_are_least()
    ensures { ExponentsAreLeast }
{}

/// In each world that explains what a relay did, both values of each answer that it gave read the wall clock within its
/// precision, at the moments where the request was taken and where it was answered, and the answer declares no less
/// than the television's error.
pub fn answers_are_true()
    ensures { AnswersAreTrue }
{}

/// Such an answer is truthful to each companion of that world that sent the request no later than it was taken, and
/// where the answer lands no sooner than it was given: as if the television had given it.
pub fn true_is_truthful()
    ensures { TrueIsTruthful }
{}

/// So over two hops too, the spans of a companion that accepts nothing but a relay's answers contain the television's
/// wall clock: in each world that keeps the errors of the three clocks and explains what the relay did.
pub fn two_hops_are_true()
    ensures { TwoHopsAreTrue }
{}
