ghost use Rattle.std.specs.Prelude.{◌≡◌, ◌++◌, ◌-◌, ◌-ℤ◌, [], false, if◌then◌else◌, nat_lt, IfOk, OnOk};
ghost use Rattle.std.specs.Fmt.{signed_decimal};
ghost use Rattle.css_follow.specs.Standing.{intervals_in};
ghost use Rattle.css_follow.specs.Widths.{width_line, is_interval};

use crate::follower::Follower;
use crate::notes::{Note, take_note};
use crate::sheet::Sheet;
use css_companion::Report;
use css_num::{Memory, Text};
use std::alloc::Global;
use std::marker::Model;

// How many of these notes have an interval.
fn count_intervals(notes: &[Note]) -> usize
    ensures { result ≡ intervals_in notes.now }
{
    notes
        .iter()
        .filter(|note| matches!(note.report, Report::Ticks { .. }))
        .count()
}

// How many of so many intervals are still to be measured after these notes.
fn left_of(count: u32, notes: &[Note]) -> u32
    ensures { result ≡ count - intervals_in notes.now }
{
    let measured = count_intervals(notes) as u64;
    u64::from(count).saturating_sub(measured) as u32
}

// How many are still to be measured after a report, of so many before it.
fn left_after(left: u32, report: &Report) -> u32
    ensures { result ≡ (if is_interval report.now then left - 1 else left) }
{
    match report {
        Report::Ticks { .. } => left.saturating_sub(1),
        Report::None(_) => left,
    }
}

// Adds the difference of two numbers in decimal, which may be beyond an `i128`.
fn push_difference(alloc: Global, out: &mut Text, high: i128, low: i128) -> Result<(), Memory>
    ensures { OnOk result (out.new ≡ out.old ++ signed_decimal (high -ℤ low)) }
{
    let size = high.abs_diff(low);
    if high < low {
        out.push(b"-")?;
    }
    let digits = format!(in alloc; "{size}")?;
    out.push(digits.as_bytes())
}

// The line that tells how wide a report is, nothing where it has no interval.
fn width(alloc: Global, report: &Report) -> Result<Text, Memory>
    ensures { IfOk result (λ text. text ≡ width_line report.now) }
{
    let mut out = Text::new(alloc);
    if let Report::Ticks { lo, hi } = report {
        out.push(b"width ")?;
        push_difference(alloc, &mut out, *hi, *lo)?;
        out.push(b"\n")?;
    }
    Ok(out)
}

// What is said of a report, where so many intervals are still to be measured.
fn measurement(alloc: Global, left: u32, report: &Report) -> Result<Text, Memory>
    ensures { IfOk result (λ text. text ≡ (if nat_lt 0 left then width_line report.now else [])) }
{
    if left == 0 {
        return Ok(Text::new(alloc));
    }
    width(alloc, report)
}

/// Says how wide the first intervals are. It is done when it has measured as many as its sheet asks for.
///
/// Contracts see this number, and what it heard and said.
#[derive(Drop)]
pub struct Meter {
    alloc: Global,
    count: u32,
    // How many are still to be measured.
    left: u32,
    notes: Vec<Note>,
    done: bool,
}

impl Model for Meter {
    ghost use Rattle.std.specs.Prelude.{◌≡◌, ◌-◌};
    ghost use Rattle.css_follow.specs.Measuring.{Measuring};
    ghost use Rattle.css_follow.specs.Standing.{intervals_in, seen_by};

    ghost Value = { Measuring };

    ghost view = { λ m. record { count = m.count; seen = seen_by m.notes.items m.done } };

    ghost invariant = { λ m. m.left ≡ m.count - intervals_in m.notes.items };
}

impl Meter {
    /// It has an empty sheet, and heard nothing.
    pub fn new(alloc: Global) -> Meter
        ensures { result ≡ record { count = 0; seen = record { heard = []; spoken = []; done = false } } }
    {
        Meter {
            alloc,
            count: 0,
            left: 0,
            notes: Vec::new(alloc),
            done: false,
        }
    }
}

impl Follower for Meter {
    ghost use Rattle.std.specs.Prelude.{◌≡◌, OnOk, OnErr};
    ghost use Rattle.css_follow.specs.Measuring.{count_of, plan_of, says_of, ends_of};

    ghost seen = { λ m. m.seen };

    ghost plan = { λ m. plan_of m.count };

    ghost takes = { λ _ sheet. plan_of (count_of sheet.meter) };

    ghost says = { says_of };

    ghost ends = { ends_of };

    /// Takes the number of intervals of a sheet in the place of that which it had.
    fn prepare(&mut self, sheet: &Sheet) -> Result<(), Memory>
        ensures seen { self.new.seen ≡ self.old.seen }
        ensures count { OnOk result (self.new.count ≡ count_of sheet.now.meter) }
        ensures err { OnErr result (self.new.count ≡ self.old.count) }
    {
        self.count = sheet.meter.unwrap_or(0);
        self.left = left_of(self.count, &self.notes);
        Ok(())
    }

    fn told(&mut self, report: &Report, out: &mut Text) -> Result<bool, Memory> {
        if self.done {
            return Ok(false);
        }
        let text = measurement(self.alloc, self.left, report)?;
        take_note(&mut self.notes, out, *report, text)?;
        self.left = left_after(self.left, report);
        self.done = self.left == 0;
        Ok(!self.done)
    }
}
