//! What is proved of records and their audit. Each law is the contract of a function that does nothing.

ghost use Rattle.css_audit.specs.Promise.{YesIsRight};

/// Where the audit of a record says yes, each report is the one that its companion was to make there, by what the lines
/// before it tell. Nothing is assumed of the record, of the companion that wrote it, or of its television.
pub fn a_yes_is_right()
    ensures { YesIsRight }
{}
