//! The laws. Each is the contract of a function that does nothing, so the check proves it like any contract.

ghost use Rattle.css_limits.specs.Histories.{FollowUpsHaveLimits, ResponsesHaveLimits};
ghost use Rattle.css_limits.specs.Limits.{EndsAreReached, NoneIsNarrower, TellsMore, UpperEndIsReached};

/// Where some world explains an answer and a later reading, two such worlds are given. In one the wall clock shows at
/// most 4 ns more than the lower end of the answer's span, in the other at least 4 ns less than the upper end.
pub fn ends_are_reached()
    ensures { EndsAreReached 4 }
{}

/// So each interval that contains the wall clock in every such world contains each value from 4 ns above the lower end
/// to 4 ns below the upper end.
pub fn none_is_narrower()
    ensures { NoneIsNarrower 4 }
{}

/// The upper end is reached so however short a time the television's wall clock has run.
pub fn upper_end_is_reached()
    ensures { UpperEndIsReached 4 }
{}

/// The same of a history: the reading at which a request was sent, a response and its landing, and a later reading. Two
/// worlds explain it, and each interval that is true in every such world contains each value between their wall clocks.
pub fn responses_have_limits()
    ensures { ResponsesHaveLimits 4 }
{}

/// The same of a response whose follow-up landed between: the follow-up's transmit value counts, with the response's
/// landing.
pub fn follow_ups_have_limits()
    ensures { FollowUpsHaveLimits 4 }
{}

/// Why the wall clock has to have run for a while: one that began to count with the request can't have shown less than
/// the round trip's time at the landing, though its answer's span begins below zero.
pub fn young_clocks_tell_more()
    ensures { TellsMore 1001 1001 }
{}
