//! A replay beside a schedule whose lines have other numbers, and beside what another command writes.

ghost use Rattle.css_laws.specs.Generations.{GeneratedSchedulesAreReplayed};
ghost use Rattle.css_laws.specs.Numbers.{NumbersAreReadOff, NumbersDontMatter};
ghost use Rattle.css_laws.specs.Raised.{MigratedSchedulesAreReplayedAlike};
ghost use Rattle.css_laws.specs.Writing.{WrittenIsReplayedAlike};

/// What becomes of a line depends on the numbers of lines only where it names them. Where the number of each line is
/// raised by one, the same is printed with the line's number raised by one, and the same fault is told with the earlier
/// line's number raised by one.
pub fn numbers_dont_matter()
    ensures { NumbersDontMatter }
{}

/// The number of a line is read off what is printed for it: it is the first word. So what two replays print says which
/// lines they print it for.
pub fn numbers_are_read_off()
    ensures { NumbersAreReadOff }
{}

/// A replay of a migrated schedule says the same as a replay of the schedule, with the number of each line raised by
/// one: what is printed, the line that is refused, and why.
pub fn migrated_schedules_are_replayed_alike()
    ensures { MigratedSchedulesAreReplayedAlike }
{}

/// So a replay of what a run of `migrate` wrote says the same, whatever run it was that read its schedule to the end.
pub fn written_is_replayed_alike()
    ensures { WrittenIsReplayedAlike }
{}

/// A replay of a generated schedule accepts each line, and prints exactly the reports that a survey of it counts.
pub fn generated_schedules_are_replayed()
    ensures { GeneratedSchedulesAreReplayed }
{}
