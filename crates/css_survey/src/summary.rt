ghost use Rattle.std.specs.Prelude.{◌≡◌, ◌<◌, ◌^◌, IfOk, string_bytes};
ghost use Rattle.css_survey.specs.Surveyed as surveyed;

use css_companion::Report;
use css_num::Memory;
use std::alloc::Global;

/// The reports that a replay printed, counted.
#[derive(Clone, Copy, Debug, PartialEq, Eq)]
pub struct Summary {
    /// How many there are.
    pub prints: u64,
    /// How many of them are intervals.
    pub intervals: u64,
    /// The greatest width of an interval, in ticks, and 0 where there is none.
    pub widest: u128,
}

impl Summary {
    /// Nothing was printed yet.
    pub(crate) fn new() -> Summary
        ensures { result ≡ surveyed.none_told }
    {
        Summary {
            prints: 0,
            intervals: 0,
            widest: 0,
        }
    }

    /// One report more.
    pub(crate) fn count(&mut self, report: &Report)
        requires prints { self.old.prints < 2 ^ 32 }
        requires intervals { self.old.intervals < 2 ^ 32 }
        ensures { self.new ≡ surveyed.counted report.now self.old }
    {
        self.prints += 1;
        if let Report::Ticks { lo, hi } = report {
            self.intervals += 1;
            self.widest = self.widest.max(hi.abs_diff(*lo));
        }
    }

    /// The line that tells it, of a schedule of so many lines.
    pub fn line(&self, alloc: Global, lines: u64) -> Result<String, Memory>
        ensures { IfOk result (λ text. string_bytes text ≡ surveyed.summary_line lines self.now) }
    {
        let Summary {
            prints,
            intervals,
            widest,
        } = *self;
        let line = format!(in alloc;
            "lines {lines} prints {prints} intervals {intervals} widest {widest}\n"
        )?;
        Ok(line)
    }
}
