//! What is proved of the verdicts. Each law is the contract of a function that does nothing.

ghost use Rattle.css_moments.specs.Drifts.{AcceptedKeeps, AnyTwoKeep, AcceptsExactly, RefusesTheWorst};

/// Where each line was accepted, true time never falls, and the oscillator keeps its error from each line to each later
/// one with no sleep between.
pub fn accepted_lines_keep()
    ensures each { AcceptedKeeps }
    ensures any_two { AnyTwoKeep }
{}

/// After accepted lines a line is accepted exactly where true time isn't below the last one and the oscillator keeps
/// its error from each line since the last sleep.
pub fn accepts_exactly()
    ensures { AcceptsExactly }
{}

/// A line is refused for its true time, or else for the drift from the worst of the lines since the last sleep: the
/// first one with the greatest excess.
pub fn refuses_the_worst()
    ensures { RefusesTheWorst }
{}
