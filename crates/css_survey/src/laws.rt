//! What is proved of generated lines in a world. A law is the contract of a function that does nothing.

ghost use Rattle.css_survey.specs.Generated.{GeneratedLinesAreAccepted};

/// A world takes each generated line after those before it: its clocks keep the errors that the header declares, its
/// readings are in order, and what it names is there. So a replay of generated lines is never refused. It is so with
/// one companion, and with several.
pub fn generated_lines_are_accepted()
    ensures { GeneratedLinesAreAccepted }
{}
