ghost use Rattle.std.specs.Prelude.{◌≡◌, ◌↔◌, IsTrue, IfOk};

use crate::rate::Rate;
use crate::text::Text;
use std::alloc::AllocError;
use std::marker::Model;

/// A timeline that a television offers (ETSI TS 103 286-2, CSS-CII): the text
/// that selects it and its tick rate.
#[derive(Clone, Debug, Drop, PartialEq, Eq)]
pub struct Timeline {
    pub selector: Text,
    pub rate: Rate,
}

/// The timelines that a television offers, in its order.
#[derive(Debug, Drop)]
pub struct Timelines {
    list: Vec<Timeline>,
}

impl Model for Timelines {
    ghost use Rattle.std.specs.Prelude.{List};
    ghost use Rattle.css_num.specs.declared.timeline.Timeline.{Timeline};

    ghost Value = { List Timeline };

    ghost view = { λ t. t.list.items };
}

impl Timelines {
    /// These timelines, in this order.
    pub fn of(list: Vec<Timeline>) -> Timelines
        ensures { result ≡ list.items }
    {
        Timelines { list }
    }

    /// The timelines in their order.
    pub fn list(&self) -> &[Timeline]
        ensures { result.now ≡ self.now }
    {
        self.list.as_slice()
    }

    fn copied(&self) -> Result<Timelines, AllocError>
        ensures { IfOk result (λ copy. copy ≡ self.now) }
    {
        Ok(Timelines {
            list: self.list.clone()?,
        })
    }
}

impl PartialEq for Timelines {
    ghost use Rattle.std.specs.Prelude.{◌≡◌, ◌↔◌, IsTrue};
    ghost use Rattle.std.proofs.Common.{rules};
    ghost use Rattle.std.specs.Cmp.Rules.{comparing};
    ghost use Rattle.css_num.specs.Timelines.{timelines_eq};

    ghost eq = { timelines_eq };

    ghost laws = { Prim.search (comparing, rules) depth 9 };

    fn eq(&self, other: &Timelines) -> bool
        ensures value { result ≡ timelines_eq self.now other.now }
        ensures exact { IsTrue result ↔ (self.now ≡ other.now) }
    {
        self.list == other.list
    }
}

impl Eq for Timelines {
    ghost use Rattle.std.proofs.Common.{rules};
    ghost use Rattle.std.specs.Cmp.Rules.{comparing};

    ghost laws = { Prim.search (comparing, rules) depth 9 };
}

impl Clone for Timelines {
    ghost use Rattle.std.specs.Prelude.{◌≡◌};

    ghost is_clone = { λ timelines copy. copy ≡ timelines };

    fn clone(&self) -> Result<Timelines, AllocError> {
        self.copied()
    }
}
