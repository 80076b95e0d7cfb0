//! What is proved of command lines. Each law is the contract of a function that does nothing.

ghost use Rattle.css_words.specs.Laws.{CompanionsCanBeTold, SchedulesCanBeTold, UnknownOptionsAreUsage};

/// `--NAME` and `--NAME=VALUE` make a command line one of no command, wherever they stand, where the command has no
/// option of just this name: neither a beginning of a name nor `--help` is one.
pub fn unknown_options_are_usage()
    ensures { UnknownOptionsAreUsage }
{}

/// Every seed from 0 to 2^63 - 1 can be told, and every number of lines from 9 to 200,000.
pub fn schedules_can_be_told()
    ensures { SchedulesCanBeTold }
{}

/// So can every number of companions from 2 to 16, where there are at least 4 lines and 6 for each of them.
pub fn companions_can_be_told()
    ensures { CompanionsCanBeTold }
{}
