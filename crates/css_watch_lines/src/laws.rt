//! What is proved of lines alone. A law is the contract of a function that does nothing.

ghost use Rattle.css_watch_lines.specs.Lines.{Line, line_data, IsReadBack};
ghost use Rattle.css_watch_lines.specs.Ranges.{IsTellable};

/// Each line, without its line feed, is read back as the object that it tells.
pub fn lines_are_read_back()
    ensures { (line : Line) → IsTellable line → IsReadBack (line_data line) }
{}
