use css_span::{Answer, Span};

/// What the answers that were added say together of the television's wall clock.
#[derive(Clone, Copy, Debug, PartialEq, Eq)]
pub enum Agreed {
    /// No answer was added.
    Nothing,
    /// The spans of all answers share this one, in nanoseconds of the television's wall clock.
    Within(Span),
    /// The spans share nothing, nor do those of these two answers: the span of `low` begins after that of `high` ends.
    Disagree {
        /// The answer whose span has the greatest lower end.
        low: Answer,
        /// The answer whose span has the least upper end.
        high: Answer,
    },
}
