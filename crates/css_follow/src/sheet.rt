ghost use Rattle.std.specs.Prelude.{◌≡◌, ◌++◌, ◌∷◌, [], None, length, slice_get, IfOk, OnOk, OnErr};
ghost use Rattle.std.specs.Option.{option_copied};

use css_num::{Memory, Text};
use std::alloc::Global;
use std::marker::Model;

/// A point of the timeline that is announced.
#[derive(Drop)]
pub struct Cue {
    /// Where it is, in ticks of the timeline: at most 18 digits.
    pub tick: i64,
    /// What it is called: a word of bytes from `!` to `~`.
    pub name: Text,
}

impl Cue {
    pub(crate) fn copied(&self) -> Result<Cue, Memory>
        ensures { IfOk result (λ cue. cue ≡ self.now) }
    {
        Ok(Cue {
            tick: self.tick,
            name: self.name.clone()?,
        })
    }
}

/// The cues of a sheet, in its order.
#[derive(Drop)]
pub struct CueList {
    list: Vec<Cue>,
}

impl Model for CueList {
    ghost use Rattle.std.specs.Prelude.{List};
    ghost use Rattle.css_follow.specs.declared.sheet.Cue.{Cue};

    ghost Value = { List Cue };

    ghost view = { λ cues. cues.list.items };
}

impl CueList {
    /// No cue.
    pub(crate) fn new(alloc: Global) -> CueList
        ensures { result ≡ [] }
    {
        CueList {
            list: Vec::new(alloc),
        }
    }

    /// Adds a cue at the end. After want of memory the list is as before.
    pub(crate) fn push(&mut self, cue: Cue) -> Result<(), Memory>
        ensures ok { OnOk result (self.new ≡ self.old ++ cue ∷ []) }
        ensures err { OnErr result (self.new ≡ self.old) }
    {
        self.list.push(cue)?;
        Ok(())
    }

    /// The cues in their order.
    pub(crate) fn as_slice(&self) -> &[Cue]
        ensures { result.now ≡ self.now }
    {
        self.list.as_slice()
    }

    /// How many cues there are.
    pub fn len(&self) -> usize
        ensures { result ≡ length self.now }
    {
        self.list.len()
    }

    /// The cue at an index, counted from 0. It is None exactly where the index isn't below the length.
    pub fn at(&self, index: usize) -> Option<&Cue>
        ensures { option_copied result ≡ slice_get self.now index }
    {
        self.list.get(index)
    }
}

/// A cue sheet: what the followers of a companion's reports announce.
#[derive(Drop)]
pub struct Sheet {
    pub cues: CueList,
    /// How many intervals are measured, 1 to 1,000,000, where the sheet says it.
    pub meter: Option<u32>,
}

impl Sheet {
    /// The sheet without a line.
    pub fn empty(alloc: Global) -> Sheet
        ensures cues { result.cues ≡ [] }
        ensures meter { result.meter ≡ None }
    {
        Sheet {
            cues: CueList::new(alloc),
            meter: None,
        }
    }
}
