/// Which protocol a session speaks (ETSI TS 103 286-2).
#[derive(Clone, Copy, Debug, PartialEq, Eq)]
pub enum Kind {
    /// CSS-CII: the companion is told the published state.
    Cii,
    /// CSS-TS: the companion sends its setup, and is told control timestamps.
    Ts,
}
