/// A companion's session.
#[derive(Clone, Copy)]
pub enum Session {
    /// Of CSS-CII.
    Cii,
    /// Of CSS-TS.
    Ts,
}
