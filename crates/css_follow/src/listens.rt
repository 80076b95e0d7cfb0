//! Those who follow a companion's run.
ghost use Rattle.std.specs.Prelude.{◌≡◌, List, OnOk};
ghost use Rattle.css_follow.specs.Following.{Plan};
ghost use Rattle.css_follow.specs.declared.sheet.Sheet as sheets;
ghost use Rattle.css_follow.specs.Listening.{Listener, TellsEach, all_plans, all_seen};

use crate::follower::Follower;
use crate::sheet::Sheet;
use css_companion::Report;
use css_num::{Memory, Text};

/// Those who follow a companion's run, in their order. A run is generic in them: it boxes none.
pub trait Listens {
    /// What there is to see of each of them, and by which plan each speaks.
    ghost heard: { Self → List Listener };

    /// The plans that a cue sheet gives them, in their order.
    ghost takes: { Self → sheets.Sheet → List Plan };

    /// Hands a cue sheet to each of them, up to the first that lacks memory: each speaks by the plan of this sheet from
    /// now on. Whatever it answers, each of them has heard and said what it had before, and is done where it was.
    fn prepare(&mut self, sheet: &Sheet) -> Result<(), Memory>
        ensures same_seen { all_seen (heard self.new) ≡ all_seen (heard self.old) }
        ensures as_sheet { OnOk result (all_plans (heard self.new) ≡ takes self.old sheet.now) };

    /// Tells each of them a report, and adds to `out` what they say of it by their plans, which stay. Those that are
    /// done stay as they are and say nothing. After want of memory the first of them have heard the report.
    fn tell(&mut self, report: &Report, out: &mut Text) -> Result<(), Memory>
        ensures { TellsEach result report.now (heard self.old) (heard self.new) out.old out.new };
}

/// No one follows the run.
#[derive(Clone, Copy, Debug, PartialEq, Eq)]
pub struct Nobody;

impl Listens for Nobody {
    ghost use Rattle.std.specs.Prelude.{[]};

    ghost heard = { λ _. [] };

    ghost takes = { λ _ _. [] };

    fn prepare(&mut self, _sheet: &Sheet) -> Result<(), Memory> {
        Ok(())
    }

    fn tell(&mut self, _report: &Report, _out: &mut Text) -> Result<(), Memory> {
        Ok(())
    }
}

/// A follower, and those who are told after it.
#[derive(Drop)]
pub struct Before<A, B> {
    /// The follower.
    pub first: A,
    /// The others.
    pub rest: B,
}

impl<A: Follower, B: Listens> Listens for Before<A, B> {
    ghost use Rattle.std.specs.Prelude.{◌∷◌};

    ghost heard = { λ both. record { plan = A.plan both.first; seen = A.seen both.first } ∷ B.heard both.rest };

    ghost takes = { λ both sheet. A.takes both.first sheet ∷ B.takes both.rest sheet };

    fn prepare(&mut self, sheet: &Sheet) -> Result<(), Memory> {
        self.first.prepare(sheet)?;
        self.rest.prepare(sheet)
    }

    fn tell(&mut self, report: &Report, out: &mut Text) -> Result<(), Memory> {
        let _ = self.first.told(report, out)?;
        self.rest.tell(report, out)
    }
}
