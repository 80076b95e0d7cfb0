use crate::session::Session;

/// Why a visit is cut short: a run of a companion that another one follows, as a watch or a relay makes it.
#[derive(Clone, Copy)]
pub enum Parting {
    /// The television closed this session.
    Closed(Session),
    /// The answers that were accepted since the last sleep contradict each other.
    Disagree,
    /// The turn is the last of all visits, by its time.
    Late,
}
