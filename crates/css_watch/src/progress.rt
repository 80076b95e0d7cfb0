use css_client::Landing;
use css_num::Text;
use css_outside::Failure;
use css_watch_lines::Between;

/// What the visits of a watch did so far.
#[derive(Clone, Copy)]
pub struct Begun {
    /// How many visits were begun.
    pub visits: u64,
    /// The reading of the watch's first turn.
    pub first: Option<u64>,
    /// How many reports were made.
    pub reports: u64,
    /// Whether a dial of CSS-CII succeeded.
    pub reached: bool,
    /// Whether a report had ticks.
    pub found: bool,
}

/// What became of the last dial of a service in a visit.
#[derive(Clone, Copy)]
pub enum Tried {
    /// None was made.
    Never,
    /// It failed. The system said this of it.
    Failed(Failure),
    /// It succeeded.
    Open,
}

/// How far a visit came.
pub struct Progress {
    /// What the visits of the watch did, this one among them.
    pub begun: Begun,
    /// Whether a turn of this visit was begun.
    pub entered: bool,
    /// Whether a sleep was noticed whose reading isn't told yet.
    pub slept: bool,
    /// The last dials.
    pub cii: Tried,
    pub wc: Tried,
    pub ts: Tried,
    /// The peers of the sessions that are open.
    pub cii_open: Option<u32>,
    pub ts_open: Option<u32>,
    /// Whether the television had closed CSS-TS when the last turn began.
    pub ts_closed: bool,
    /// Whether a request was sent since the last sleep.
    pub asked: bool,
    /// How many requests were sent since the last landing or sleep.
    pub waiting: u64,
    /// Why the datagram that landed last since the last sleep was refused, if it was.
    pub refused: Option<Landing>,
    /// The text of CSS-CII that was refused for what it says, if one was. It ends the visit.
    pub unread: Option<Text>,
    /// The answers that contradict each other, if the one that landed last contradicts another. It ends the visit.
    pub between: Option<Between>,
}

// One function drops it, so that its callers' proofs don't open each of its fields.
impl Drop for Progress {
    fn drop(self) {
        let Progress {
            begun: _,
            entered: _,
            slept: _,
            cii: _,
            wc: _,
            ts: _,
            cii_open: _,
            ts_open: _,
            ts_closed: _,
            asked: _,
            waiting: _,
            refused: _,
            unread: _,
            between: _,
        } = self;
    }
}
