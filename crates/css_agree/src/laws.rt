//! What is proved of answers and worlds alone, with no program. Each law is the contract of a function that does
//! nothing.

ghost use Rattle.css_agree.specs.Agreements.{AgreementIsTrue, ContradictionIsFalse};
ghost use Rattle.css_agree.specs.Bests.{EndsMoveAlike};
ghost use Rattle.css_agree.specs.Carrying.{CarryingIsTrue, CarriedSpansAreTrue, CarriedForASecond};
ghost use Rattle.css_agree.specs.Disagreements.{DisagreementIsContradiction, DisagreementIsFalse};
ghost use Rattle.css_agree.specs.Promise.{PrintedIsTrue};

/// The ends of two answers of one declared error, before they are rounded, move alike: which answer has the greater
/// lower end, and which has the lesser upper end, is the same at every reading.
pub fn ends_move_alike()
    ensures { EndsMoveAlike }
{}

/// In each world that keeps the oscillators' errors and in which all answers are truthful, the span that they share
/// contains the television's wall clock.
pub fn agreement_is_true()
    ensures { AgreementIsTrue }
{}

/// Where the answers share no span, no world that keeps the oscillators' errors makes the two named ones truthful.
pub fn contradiction_is_false()
    ensures { ContradictionIsFalse }
{}

/// What is printed of answers is what they say together at the reading, and it is true in every world that makes them
/// truthful.
pub fn printed_agreement_is_true()
    ensures { PrintedIsTrue }
{}

/// Answers disagree at a reading exactly where two of them contradict each other there.
pub fn disagreement_is_contradiction()
    ensures { DisagreementIsContradiction }
{}

/// No world that keeps the oscillators' errors makes answers that disagree all truthful.
pub fn disagreement_is_false()
    ensures { DisagreementIsFalse }
{}

/// Let an answer's span at one reading of the companion's clock be carried on to another, by both oscillators' errors
/// and the companion's precision. It contains the television's wall clock there, in each world that makes the answer
/// truthful.
pub fn carrying_is_true()
    ensures { CarryingIsTrue }
{}

/// Whatever told a span that contains the wall clock at one moment: carried on, it contains the wall clock at each
/// later moment before the companion's next sleep.
pub fn carried_spans_are_true()
    ensures { CarriedSpansAreTrue }
{}

/// A span of 7,413 ns is carried on for a second, by oscillators of 250 ppm and 500 ppm.
pub fn carried_for_a_second()
    ensures { CarriedForASecond }
{}
