use css_num::{Rate, Span};
use css_span::Answer;

/// The ticks of a report: one from `lo` to `hi`, both included.
#[derive(Clone, Copy, Debug, PartialEq, Eq)]
pub struct Ticks {
    pub lo: i128,
    pub hi: i128,
}

/// What a report with ticks tells. Whoever reads it can carry it on without the companion.
#[derive(Clone, Copy, Debug, PartialEq, Eq)]
pub struct Known {
    /// The ticks of which the television may be presenting one.
    pub ticks: Ticks,
    /// The two ends of the television's wall clock that all answers since the last sleep allow together at the report's
    /// reading, in nanoseconds. They lie within `wall`.
    pub agreed: Span,
    /// The span of the television's wall clock at the report's reading, in nanoseconds, by the narrowest answer alone.
    pub wall: Span,
    /// The greatest error of the television's oscillator, in 1/256 ppm, as the answer behind the span declares it.
    pub error: u32,
    /// The timeline's tick rate.
    pub rate: Rate,
    /// The timeline goes at so many times its rate: 0 is a pause.
    pub speed: i32,
}

/// Two answers that contradict each other: the span of the one lies wholly above that of the other.
#[derive(Clone, Copy, Debug, PartialEq, Eq)]
pub struct Between {
    pub above: Answer,
    pub below: Answer,
}
