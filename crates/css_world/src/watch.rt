ghost use Rattle.std.specs.Prelude.{◌≡◌, ◌≤◌, ◌<◌, ◌-◌, pos, List, [], ◌∷◌, false, None, Some, MatchResult};
ghost use Rattle.std.specs.Prelude.{Ok, Err, OnOk, OnErr};
ghost use Rattle.std.specs.Option.{ForSome};
ghost use Rattle.std.specs.Result.{result_map_both};
ghost use Rattle.css_moments.specs.Drifts.{Told, Showed, verdict};
ghost use Rattle.css_moments.specs.Standing.{StandsFor};
ghost use Rattle.css_schedule.specs.Owners.{is_sleep};
ghost use Rattle.css_meaning.specs.Clocks as clocks;

use css_meaning::{Reading, WorldFault};
use css_model::LIMIT;
use css_moments::Drift;
use css_schedule::Verb;

/// The clock of one end, as the lines tell of it.
#[derive(Drop)]
pub(crate) struct Watch {
    pub(crate) drift: Drift,
    /// How far a reading may be from what the clock shows, in nanoseconds.
    pub(crate) precision: u64,
    pub(crate) last: Option<Reading>,
    /// Whether the end slept since the last reading.
    pub(crate) woken: bool,
}

impl Watch {
    pub(crate) fn new(error: u32, precision: u64) -> Watch
        requires { error ≤ 25600000 }
        ensures drift { (result.drift.error ≡ error) × (result.drift.last ≡ None) × StandsFor result.drift [] }
        ensures precision { result.precision ≡ precision }
        ensures last { (result.last ≡ None) × (result.woken ≡ false) }
    {
        Watch {
            drift: Drift::new(error),
            precision,
            last: None,
            woken: false,
        }
    }

    /// Where the end wakes up at a line, what its clock showed before says nothing of it any more.
    pub(crate) fn wake_at(&mut self, verb: &Verb)
        ensures stands { (told : List Told) → StandsFor self.old.drift told
            → StandsFor self.new.drift (clocks.told_with (is_sleep verb.now) told) }
        ensures drift { (self.new.drift.last ≡ self.old.drift.last) × (self.new.drift.error ≡ self.old.drift.error) }
        ensures rest { (self.new.precision ≡ self.old.precision) × (self.new.last ≡ self.old.last)
            × (self.new.woken ≡ self.old.woken) }
    {
        if let Verb::Sleep = verb {
            self.drift.slept();
        }
    }

    /// Tests true time and what the clock shows at a line.
    pub(crate) fn show(&mut self, line: u64, time: u64, shown: u64) -> Result<(), WorldFault>
        requires time { time < LIMIT }
        requires shown { shown < LIMIT }
        requires next { ForSome self.old.drift.last (λ last. last.line < line) }
        ensures verdict { (told : List Told) → StandsFor self.old.drift told
            → result ≡ result_map_both (λ x. x) clocks.broken_by
            (verdict self.old.drift.error told (record { line = line; time = time; value = shown })) }
        ensures stands { (told : List Told) → StandsFor self.old.drift told
            → OnOk result (StandsFor self.new.drift
            (Showed (record { line = line; time = time; value = shown }) ∷ told)) }
        ensures last { OnOk result (self.new.drift.last ≡ Some (record { line = line; time = time })) }
        ensures rest { (self.new.drift.error ≡ self.old.drift.error) × (self.new.precision ≡ self.old.precision)
            × (self.new.last ≡ self.old.last) × (self.new.woken ≡ self.old.woken) }
    {
        Ok(self.drift.add(line, time, shown)?)
    }

    /// Tests the end's reading of the clock at a line where it shows this, and keeps it.
    pub(crate) fn read(&mut self, line: u64, shown: u64, reading: u64) -> Result<(), WorldFault>
        ensures verdict { result ≡ clocks.read_verdict line self.old.precision shown self.old.woken self.old.last
            reading }
        ensures last { OnOk result (self.new.last ≡ Some (record { line = line; value = reading })) }
        ensures awake { OnOk result (self.new.woken ≡ false) }
        ensures least { OnOk result (clocks.least_next self.old.woken self.old.last ≤ reading) }
        ensures rest { (self.new.drift ≡ self.old.drift) × (self.new.precision ≡ self.old.precision) }
        ensures err { OnErr result ((self.new.last ≡ self.old.last) × (self.new.woken ≡ self.old.woken)) }
    {
        check_near(line, self.precision, shown, reading)?;
        check_later(&self.last, self.woken, reading)?;
        self.last = Some(Reading {
            line,
            value: reading,
        });
        self.woken = false;
        Ok(())
    }
}

/// That a reading is no farther from what the clock shows than the precision allows.
fn check_near(line: u64, precision: u64, shown: u64, reading: u64) -> Result<(), WorldFault>
    ensures { result ≡ clocks.near_verdict line precision shown reading }
{
    let distance = reading.abs_diff(shown);
    if distance > precision {
        return Err(WorldFault::Broken {
            earlier: line,
            excess: i128::from(distance - precision),
        });
    }
    Ok(())
}

/// That a reading isn't below the last one, and is above it where the end slept since.
fn check_later(last: &Option<Reading>, woken: bool, reading: u64) -> Result<(), WorldFault>
    ensures verdict { result ≡ clocks.order_verdict woken last.now reading }
    ensures least { OnOk result (clocks.least_next woken last.now ≤ reading) }
{
    let Some(last) = last else {
        return Ok(());
    };
    let lack = lack_after(last.value, woken, reading);
    if lack > 0 {
        return Err(WorldFault::Broken {
            earlier: last.line,
            excess: lack,
        });
    }
    Ok(())
}

/// How far a reading is below the least one that may come after this one; 0 where it isn't.
fn lack_after(last: u64, woken: bool, reading: u64) -> i128
    ensures { result ≡ pos (clocks.least_after woken last - reading) }
{
    if woken && reading <= last {
        i128::from(last - reading) + 1
    } else if reading < last {
        i128::from(last - reading)
    } else {
        0
    }
}
