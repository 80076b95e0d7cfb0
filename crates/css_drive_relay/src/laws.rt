//! What is proved of the run of every visit of a relay. Each law is the contract of a function that does nothing.
ghost use Rattle.css_drive_relay.specs.Laws.{AnswersAreTrueTo};
ghost use Rattle.css_drive_relay.specs.Made.{TurnsAreMade};
ghost use Rattle.css_drive_relay.specs.SecondHop.{SentIsKnown, GivenIsTrue, SecondHopsAreTrue};
ghost use Rattle.css_drive_relay.specs.Told.{SessionsAreTold};

/// What a run sends in answer is the relay's answer to a request that it took. It is true in every world that explains
/// what the run's calls told, and so it is truthful to each companion that asked for it.
#[tactic(auto, using(crate::proofs::SecondHop::answers_are_true))]
pub fn answers_are_true_to()
    ensures { AnswersAreTrueTo }
{}

/// The texts that a run sent to a session are the first ones of those that the session was to be told. These are the
/// state that the relay had published last as it accepted the session, in full, and what is new in each state that it
/// published while the session was open. At most one of them is unsent. Where the run's end is due, this is one that
/// was told as gone.
///
/// The calls are those of a run, and each peer that was accepted has a greater number than those before it.
#[tactic(auto, using(crate::proofs::ToldSessions::sessions_are_told))]
pub fn sessions_are_told()
    ensures { SessionsAreTold }
{}

/// Where a run is done that wasn't cut short, all turns were made, and a dial of CSS-CII succeeded. Where it is
/// unreachable, all turns were made too, and no dial of CSS-CII succeeded. The turns and dials of earlier visits count.
/// The calls are those of a run, which ended where it may.
#[tactic(auto, using(crate::proofs::Follows::turns_are_made))]
pub fn turns_are_made()
    ensures { TurnsAreMade }
{}

/// Each datagram that a whole run sent is a request of its own, at the reading just before, or the datagram of the
/// response that it gave at the reading just before. The calls are those of a run.
#[tactic(auto, using(crate::proofs::SecondHop::sent_is_known))]
pub fn sent_is_known()
    ensures { SentIsKnown }
{}

/// Each response that a whole run gave reads the television's wall clock, at the moment where its request was taken and
/// at the one where it was given, within the precision that it declares. So it is truthful to each companion that sent
/// its request no later than it was taken, and where it lands no sooner than it was given.
///
/// The world keeps its errors and ranges and explains the run's calls, which are lawful.
pub fn given_is_true()
    ensures { GivenIsTrue }
{}

/// So the spans of a second companion contain the television's wall clock, if it accepts nothing but answers that were
/// read from what a run sent in answer.
///
/// The world keeps the errors of the three clocks and its ranges, explains the run's calls, and has the second
/// companion's readings. Both companions' calls are lawful. The second companion sent each request no later than the
/// run took it, and no answer landed there before the reading at which the run gave it.
pub fn second_hops_are_true()
    ensures { SecondHopsAreTrue }
{}
