//! What is proved of generated lines. A law is the contract of a function that does nothing.

ghost use Rattle.css_gen.specs.Readable.{GeneratedLinesAreRead, SecondLinesAreRead};

/// What is written of each generated line is read as that line.
pub fn generated_lines_are_read()
    ensures { GeneratedLinesAreRead }
{}

/// The same of the lines of several companions, which are of version 2.
pub fn lines_of_several_are_read()
    ensures { SecondLinesAreRead }
{}
