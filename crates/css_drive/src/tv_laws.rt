//! What is proved of every television's run. Each law is the contract of a function that does nothing.
ghost use Rattle.css_drive.specs.TvTold.{SessionsAreTold};

/// The texts that a run sent to a session are the first ones of those that the session was to be told, by what happened
/// so far; and all of them where nothing is still to be sent, but for a last one that was told as gone.
#[tactic(auto, using(crate::proofs::TvTold::sessions_are_told))]
pub fn sessions_are_told()
    ensures { SessionsAreTold }
{}
