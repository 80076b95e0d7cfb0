use css_model::WcFault;

/// What became of a datagram that landed. All but `Accepted` are refusals, and the first that fits is told.
#[derive(Clone, Copy, Debug, PartialEq, Eq)]
pub enum Landing {
    /// An answer that the estimate now rests on too.
    Accepted,
    /// The bytes are no datagram of CSS-WC, with their first fault.
    Undecodable(WcFault),
    /// The datagram is a request.
    NotAnAnswer,
    /// The answer's originate value is that of none of the last 64 requests since the last sleep.
    Unasked,
    /// The answer contradicts itself: its scaled width at its own landing, which is below zero.
    Impossible(i128),
}
