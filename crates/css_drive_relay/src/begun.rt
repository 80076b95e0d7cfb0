/// What the visits of a relay made so far.
#[derive(Clone, Copy)]
pub struct Begun {
    /// How many turns were begun.
    pub turns: u64,
    /// The reading of the first turn, and that of the last one.
    pub first: Option<u64>,
    pub turn: Option<u64>,
    /// Whether a dial of CSS-CII succeeded.
    pub reached: bool,
}
