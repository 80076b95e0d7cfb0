/// A reading of a clock, and the number of the line where it was taken.
#[derive(Clone, Copy)]
pub struct Reading {
    /// The number of the line.
    pub line: u64,
    /// What was read, in nanoseconds.
    pub value: u64,
}
