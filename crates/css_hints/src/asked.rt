use crate::course::Course;
use css_outside::Failure;

/// What is known of a run beside its status.
#[derive(Clone, Copy)]
pub struct Asked<'a> {
    /// The words after the program's name.
    pub words: &'a [String],
    /// How the last dial failed, where one did.
    pub dial: Option<Failure>,
    /// What was wrong with the answer to that dial, where it was one that makes no session.
    pub wrong_answer: Option<&'a str>,
    /// The line of the input that the status refuses, without its line feed, where it is known.
    pub line: Option<&'a [u8]>,
    /// Line 1 of the input, without its line feed, where it is still kept.
    pub first_line: Option<&'a [u8]>,
    /// Whether line 1 of the input ended with a carriage return.
    pub first_line_returned: bool,
    /// What the run has seen of its television.
    pub course: Course<'a>,
}
