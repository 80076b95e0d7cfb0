ghost use Rattle.std.specs.Prelude.{◌≡◌, ◌≤◌, ◌<◌, ◌-◌, ◌^◌, pos, []};
ghost use Rattle.css_companion.specs.Contents.{next_number};
ghost use Rattle.css_audit.specs.Standing as standing;
ghost use Rattle.css_audit.specs.Verdicts as verdicts;

use crate::fault::AuditFault;

/// The last reading of a record, in nanoseconds, and the number of its line.
#[derive(Clone, Copy)]
pub(crate) struct LastReading {
    pub(crate) line: u64,
    pub(crate) reading: u64,
}

/// Where an audit stands in a record.
#[derive(Clone, Copy)]
pub(crate) struct Place {
    /// How many lines were taken, the header among them.
    pub(crate) lines: u64,
    /// How many of them were reports.
    pub(crate) reports: u64,
    pub(crate) last: Option<LastReading>,
    /// Whether the companion slept since the last reading.
    pub(crate) slept: bool,
    /// The reading of the last line, where that was a turn.
    pub(crate) turn: Option<u64>,
}

// The least reading after one: a clock that stood still while the companion slept is above it.
fn least_after(reading: u64, slept: bool) -> u128
    ensures value { result ≡ verdicts.least_after reading slept }
    ensures bound { result < 2 ^ 65 }
{
    if slept {
        u128::from(reading) + 1
    } else {
        u128::from(reading)
    }
}

// By how much a reading is too small.
fn missing(least: u128, reading: u64) -> i128
    requires below { reading ≤ least }
    requires bound { least < 2 ^ 65 }
    ensures { result ≡ pos (least - reading) }
{
    (least - u128::from(reading)) as i128
}

// A reading isn't below the least one that may come next.
fn check_order(last: &LastReading, slept: bool, reading: u64) -> Result<(), AuditFault>
    ensures { result ≡ verdicts.order_after last.now slept reading }
{
    let least = least_after(last.reading, slept);
    if u128::from(reading) < least {
        return Err(AuditFault::Broken {
            earlier: last.line,
            excess: missing(least, reading),
        });
    }
    Ok(())
}

// The first reading is in order, and each other one that isn't below the last; after a sleep it is above it.
fn check_reading(place: &Place, reading: u64) -> Result<(), AuditFault>
    ensures { result ≡ verdicts.order_of place.now.last place.now.slept reading }
{
    match &place.last {
        None => Ok(()),
        Some(last) => check_order(last, place.slept, reading),
    }
}

impl Place {
    /// The place after the header.
    pub(crate) fn start() -> Place
        ensures { result ≡ standing.place_in [] }
    {
        Place {
            lines: 1,
            reports: 0,
            last: None,
            slept: false,
            turn: None,
        }
    }

    fn next_line(&self) -> u64
        ensures { result ≡ next_number self.now.lines }
    {
        self.lines.saturating_add(1)
    }

    /// The place after a line without a reading.
    pub(crate) fn counted(&self) -> Place
        ensures { result ≡ standing.counted self.now }
    {
        Place {
            lines: self.next_line(),
            turn: None,
            ..*self
        }
    }

    /// The place after a sleep.
    pub(crate) fn slept(&self) -> Place
        ensures { result ≡ standing.slept self.now }
    {
        Place {
            lines: self.next_line(),
            slept: true,
            turn: None,
            ..*self
        }
    }

    /// The place after a report.
    pub(crate) fn reported(&self) -> Place
        ensures { result ≡ standing.reported self.now }
    {
        Place {
            lines: self.next_line(),
            reports: self.next_report(),
            turn: None,
            ..*self
        }
    }

    /// The number of the next report.
    pub(crate) fn next_report(&self) -> u64
        ensures { result ≡ next_number self.now.reports }
    {
        self.reports.saturating_add(1)
    }

    /// The place after a line with a reading, which may be that of a turn.
    pub(crate) fn passed(&self, reading: u64, turn: Option<u64>) -> Result<Place, AuditFault>
        ensures { result ≡ standing.pass_of self.now reading turn }
    {
        check_reading(self, reading)?;
        let line = self.next_line();
        Ok(Place {
            lines: line,
            last: Some(LastReading { line, reading }),
            slept: false,
            turn,
            ..*self
        })
    }
}
