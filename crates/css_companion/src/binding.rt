/// Which addresses bind a companion. A text of CSS-CII that moves one of them is refused.
#[derive(Clone, Copy, Debug, PartialEq, Eq)]
pub enum Binding {
    /// `wcUrl` and `tsUrl`.
    Both,
    /// `wcUrl` alone: of a companion that opens no session of CSS-TS.
    WallClock,
}
