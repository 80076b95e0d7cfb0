ghost use Rattle.std.specs.Prelude.{◌≡◌, List, [], ◌∷◌};
ghost use Rattle.std.specs.Borrow.{ftrue};
ghost use Rattle.css_outside.specs.Spawners.{Spawned};
ghost use Rattle.css_told.specs.StoredChildren.{children_code};

use crate::happening::Happening;
use std::marker::Model;

/// A list of what children did, that only proofs see. It takes no room, and its methods do nothing when they run.
#[derive(Drop)]
pub struct Roll {
    pub ghost children: { List Spawned } by { children_code },
}

impl Model for Roll {
    ghost also_owns = { λ _. ftrue };
}

impl Roll {
    ghost use Rattle.css_told.specs.Noted.{spawned_of};

    /// No child yet.
    pub fn new() -> Roll
        ensures { result.children ≡ [] }
    {
        Roll {}
    }

    /// Adds what a child did.
    pub fn note(&mut self, _happening: &Happening<'_>)
        ensures { self.new.children ≡ spawned_of _happening.now ∷ self.old.children }
    {}
}
