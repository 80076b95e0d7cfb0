//! What is proved of every companion's run. Each law is the contract of a function that does nothing.
ghost use Rattle.css_drive.specs.CompanionLaws.{ReportsAreAsAsked, FollowersHear, SameEventsAreReportedAlike};

/// A run never makes more reports than it is asked for, and it ends as `Done` with exactly as many.
#[tactic(auto, using(crate::proofs::CompanionLaws::reports_as_asked))]
pub fn reports_are_as_asked()
    ensures { ReportsAreAsAsked }
{}

/// Each follower of a run hears all of its reports in turn until it is done, and speaks one text for each.
#[tactic(auto, using(crate::proofs::CompanionLaws::followers_hear))]
pub fn followers_hear_the_run()
    ensures { FollowersHear }
{}

/// A live run and a replay report alike: where their histories tell the companion the same requests, landings, sleeps,
/// texts, and starts and ends of TS sessions, the report at a reading is the same, and so are its line, the position
/// and the state of the content. The numbers of peers, and calls to which nothing came, make no difference.
pub fn same_events_are_reported_alike()
    ensures { SameEventsAreReportedAlike }
{}
