//! What is proved of reports that are carried on. A law is the contract of a function that does nothing.

ghost use Rattle.css_carry.specs.CarriedReports.{CarriedReportsAreTrue, CarriedSpansHaveTicks};

/// The ticks of a report that is carried on contain the position that the last control timestamp assigns to the
/// television's wall clock at the later reading, by the rate of the last state: in each world that keeps the
/// oscillators' errors and makes the report's answer truthful.
pub fn carried_reports_are_true()
    ensures { CarriedReportsAreTrue }
{}

/// So do those of any span that contains the wall clock when the report is made, whatever told it.
pub fn carried_spans_have_ticks()
    ensures { CarriedSpansHaveTicks }
{}
