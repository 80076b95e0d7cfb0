ghost use Rattle.std.specs.Prelude.{◌≡◌, [], false};

use crate::follower::Follower;
use crate::notes::{Note, take_note};
use crate::sheet::Sheet;
use crate::waiting::{Waiting, all_passed, announcement, mark_all, waiting_for};
use css_companion::Report;
use css_num::{Memory, Text};
use std::alloc::Global;
use std::marker::Model;

/// Says which cues of its sheet a report may have reached, and which it has passed. It is done when each was passed.
///
/// Contracts see its cues, and what it heard and said.
#[derive(Drop)]
pub struct Cues {
    alloc: Global,
    list: Vec<Waiting>,
    notes: Vec<Note>,
    done: bool,
}

impl Model for Cues {
    ghost use Rattle.std.specs.Prelude.{map};
    ghost use Rattle.css_follow.specs.Announcing.{Announcing};
    ghost use Rattle.css_follow.specs.Standing.{cues_in, seen_by, AreMarked};

    ghost Value = { Announcing };

    ghost view = { λ c. record { cues = cues_in c.list.items; seen = seen_by c.notes.items c.done } };

    ghost invariant = { λ c. AreMarked c.notes.items c.list.items };
}

impl Cues {
    ghost use Rattle.css_follow.specs.Following.{Seen};

    /// It has an empty sheet, and heard nothing.
    pub fn new(alloc: Global) -> Cues
        ensures { result ≡ record { cues = []; seen = record { heard = []; spoken = []; done = false } } }
    {
        Cues {
            alloc,
            list: Vec::new(alloc),
            notes: Vec::new(alloc),
            done: false,
        }
    }
}

impl Follower for Cues {
    ghost use Rattle.std.specs.Prelude.{◌≡◌, OnOk, OnErr};
    ghost use Rattle.css_follow.specs.Announcing.{plan_of, says_of, ends_of};

    ghost seen = { λ c. c.seen };

    ghost plan = { λ c. plan_of c.cues };

    ghost takes = { λ _ sheet. plan_of sheet.cues };

    ghost says = { says_of };

    ghost ends = { ends_of };

    /// Takes the cues of a sheet in the place of those that it had. After want of memory it is as before.
    fn prepare(&mut self, sheet: &Sheet) -> Result<(), Memory>
        ensures seen { self.new.seen ≡ self.old.seen }
        ensures cues { OnOk result (self.new.cues ≡ sheet.now.cues) }
        ensures err { OnErr result (self.new.cues ≡ self.old.cues) }
    {
        self.list = waiting_for(self.alloc, &sheet.cues, &self.notes)?;
        Ok(())
    }

    fn told(&mut self, report: &Report, out: &mut Text) -> Result<bool, Memory> {
        if self.done {
            return Ok(false);
        }
        let text = announcement(self.alloc, &self.list, report)?;
        take_note(&mut self.notes, out, *report, text)?;
        mark_all(&mut self.list, report);
        self.done = all_passed(&self.list);
        Ok(!self.done)
    }
}
