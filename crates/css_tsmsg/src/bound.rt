/// One end of a presentation window (ETSI TS 103 286-2, CSS-TS): when the
/// companion can present a tick of the timeline.
#[derive(Clone, Copy, Debug, PartialEq, Eq)]
pub enum Bound {
    /// Tick `content` at wall clock value `wall`, in nanoseconds.
    At { content: i64, wall: u64 },
    /// Tick `content`, however early.
    MinusInfinity { content: i64 },
    /// Tick `content`, however late.
    PlusInfinity { content: i64 },
}

/// When a companion can present, as it tells a television (ETSI TS 103 286-2, CSS-TS, AptEptLpt).
#[derive(Clone, Copy, Debug, PartialEq, Eq)]
pub struct Presentation {
    /// The earliest time, which is never `PlusInfinity`.
    pub earliest: Bound,
    /// The latest time, which is never `MinusInfinity`.
    pub latest: Bound,
    /// The time at which it presents now, which is `At` where it is told.
    pub actual: Option<Bound>,
}
