//! The answers of a visit, its contradictions, and its reports.

ghost use Rattle.css_watch_laws.specs.Promises.{AnswersAreAccepted, DisagreementsAreFalse, TicksKeepTheHeadline};
ghost use Rattle.css_watch_laws.specs.Promises.{AgreedIsTrue, CarriedAgreedIsTrue, CarriedLinesAreTrue, TwoAreNamed};

/// The answers that a visit holds together are those that its companion accepted since its last sleep.
pub fn answers_are_accepted()
    ensures { AnswersAreAccepted }
{}

/// A visit ends by a disagreement only where no world that keeps the oscillators' errors makes all answers truthful
/// that its companion accepted since its last sleep.
pub fn disagreements_are_false()
    ensures { DisagreementsAreFalse }
{}

/// Where a visit ends by a disagreement, its end tells two accepted answers. The span of the one lies wholly above that
/// of the other then, so no world that keeps the oscillators' errors makes both truthful.
pub fn two_are_named()
    ensures { TwoAreNamed }
{}

/// The ticks in the line of a report keep the promise of the report at that reading: they contain the position that the
/// last control timestamp of the visit assigns to the television's wall clock then, in each world that explains what
/// happened, and they come from the visit's narrowest accepted answer.
pub fn ticks_keep_the_headline()
    ensures { TicksKeepTheHeadline }
{}

/// The ticks in the line of a report, carried on to a later reading, contain the position that the last control
/// timestamp assigns to the television's wall clock there, by the rate of the last state: in each world that keeps the
/// oscillators' errors and makes the report's answer truthful, whatever the visit was told since.
pub fn carried_lines_are_true()
    ensures { CarriedLinesAreTrue }
{}

/// The two ends in `agreed` contain the television's wall clock in each world that keeps the oscillators' errors and
/// makes all answers truthful that were accepted since the last sleep. They lie within `wall`.
pub fn agreed_is_true()
    ensures { AgreedIsTrue }
{}

/// Carried on from the report's moment, they contain it too: so do the ticks at them what the last control timestamp
/// assigns to it.
pub fn carried_agreed_is_true()
    ensures { CarriedAgreedIsTrue }
{}
