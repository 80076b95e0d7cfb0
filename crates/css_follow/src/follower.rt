ghost use Rattle.std.specs.Prelude.{◌≡◌, ◌++◌, List, ℕ, Bool, not, IfOk, OnOk, OnErr};
ghost use Rattle.css_companion.specs.declared.report.Report.{Report};
ghost use Rattle.css_follow.specs.Following.{Seen, Plan, RestsWhenDone, told, says_by, ends_by};
ghost use Rattle.css_follow.specs.declared.sheet.Sheet as sheets;

use crate::sheet::Sheet;
use css_companion::Report;
use css_num::{Memory, Text};

/// One who hears the reports of a companion, and says something of each until it is done.
pub trait Follower: Drop {
    /// Which reports it heard, what it said of each, and whether it is done.
    ghost seen: { Self → Seen };

    /// By which plan it speaks: what it says of a report after those that it heard, and whether it is done then. Only a
    /// cue sheet changes it.
    ghost plan: { Self → Plan };

    /// The plan that a cue sheet gives it.
    ghost takes: { Self → sheets.Sheet → Plan };

    /// What it would say of a report now.
    ghost says: { Self → Report → List ℕ };

    /// Whether it would be done after a report that it hears now.
    ghost ends: { Self → Report → Bool };

    /// Takes a cue sheet, which says what to follow: it speaks by the plan of this sheet from now on. Whatever it
    /// answers, it has heard and said what it had before, and is done where it was.
    fn prepare(&mut self, sheet: &Sheet) -> Result<(), Memory>
        ensures same_seen { seen self.new ≡ seen self.old }
        ensures as_sheet { OnOk result (plan self.new ≡ takes self.old sheet.now) };

    /// Hears a report, and adds to `out` what it says of it. It answers whether it goes on: false where it is done now.
    ///
    /// One that was done already stays as it is and says nothing. After want of memory `out` is as before, and it has
    /// heard and said what it had before.
    fn told(&mut self, report: &Report, out: &mut Text) -> Result<bool, Memory>
        ensures heard { OnOk result (seen self.new ≡
            told report.now (says self.old report.now) (ends self.old report.now) (seen self.old)) }
        ensures said { OnOk result (out.new ≡ out.old ++ says self.old report.now) }
        ensures keeps { plan self.new ≡ plan self.old }
        ensures as_planned { says self.old report.now ≡ says_by (plan self.old) (seen self.old) report.now }
        ensures ends_as_planned { ends self.old report.now ≡ ends_by (plan self.old) (seen self.old) report.now }
        ensures rests { RestsWhenDone (seen self.old) (says self.old report.now) (ends self.old report.now) }
        ensures goes_on { IfOk result (λ goes_on. goes_on ≡ not (seen self.new).done) }
        ensures err { OnErr result (seen self.new ≡ seen self.old) }
        ensures out_err { OnErr result (out.new ≡ out.old) };
}
