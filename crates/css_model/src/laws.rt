//! What is proved of the definitions alone. Each law is the contract of a function that does nothing, so the check
//! proves it like any contract. The crates above rest on these laws.

ghost use Rattle.css_model.specs.Explains.{AnswersAreTrue, WallIsTrue, TruthIsAccepted};
ghost use Rattle.css_model.specs.Examples.{IsExample, one_exchange, follow_up_after_sleep};
ghost use Rattle.css_model.specs.Truth.{SpansAreTrue};
ghost use Rattle.css_model.specs.WallClock.{FrontierIsEnough, NarrowestIsLeast, SpansAreTheStandard};

/// The ends of a span and its width are those of the standard's round trip, each rounding made outward. The width grows
/// with both errors. Where it isn't below zero, the ends are in order from then on.
pub fn spans_are_the_standard()
    ensures { SpansAreTheStandard }
{}

/// Let an answer's four times be readings of a world's clocks, and let it declare at least the television's error. Then
/// its span contains the television's wall clock at every later reading before a sleep.
pub fn spans_are_true()
    ensures { SpansAreTrue }
{}

/// Of some answers the narrowest is one that no other is narrower than; of equals it is the one accepted first.
pub fn narrowest_is_least()
    ensures { NarrowestIsLeast }
{}

/// For each declared error one answer is enough: of two answers of equal error the wider one is never again the
/// narrowest of all.
pub fn frontier_is_enough()
    ensures { FrontierIsEnough }
{}

/// In each world that keeps the oscillators' errors and explains what a companion did, the span of each answer that it
/// accepted contains the television's wall clock, at every reading of the companion's clock up to its next sleep.
pub fn answers_are_true()
    ensures { AnswersAreTrue }
{}

/// In each world that keeps the oscillators' errors and explains what a companion did, the span of its narrowest
/// accepted answer contains the television's wall clock, at every reading of the companion's clock. It doesn't matter
/// which datagrams were lost, repeated or reordered, or how often the companion slept.
pub fn wall_is_true()
    ensures { WallIsTrue }
{}

/// In each world that keeps the oscillators' errors and has the readings of a companion, a truthful answer is accepted
/// when it lands. So an answer that is refused as impossible isn't what a television said.
pub fn truth_is_accepted()
    ensures { TruthIsAccepted }
{}

/// The premises of the last two laws can be met: two worlds, each with a lawful history that it explains, and the span
/// that is told then. The first is one exchange between exact clocks. The second has clocks that drift, readings that
/// are off by up to their precision, a sleep, a late answer, and a response with its follow-up.
pub fn premises_can_be_met()
    ensures exact { IsExample one_exchange }
    ensures drifting { IsExample follow_up_after_sleep }
{}
