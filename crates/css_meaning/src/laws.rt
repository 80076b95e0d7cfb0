//! What is proved of accepted lines. Each law is the contract of a function that does nothing.

ghost use Rattle.css_meaning.specs.Truth.{AcceptedLinesAreTrue, AcceptedLinesAreWorld};

/// Of accepted lines the span at each `wall` line contains the wall clock, and no answer that lands contradicts itself.
pub fn accepted_lines_are_true()
    ensures { AcceptedLinesAreTrue }
{}

/// Accepted lines are the moments of a world that keeps the errors which the header declares. Within the declared
/// precisions this world explains what the companion did, so there is one of which the intervals are true.
pub fn accepted_lines_are_a_world()
    ensures { AcceptedLinesAreWorld }
{}
