ghost use Rattle.std.specs.Prelude.{◌≡◌, ℕ, List, [], ◌++◌, take};
ghost use Rattle.std.specs.Borrow.{ftrue};

use std::marker::Model;

/// A list of bytes that only proofs see. It takes no room, and its methods do nothing when they run.
#[derive(Drop)]
pub struct Given {
    pub ghost bytes: { List ℕ },
}

impl Model for Given {
    ghost also_owns = { λ _. ftrue };
}

impl Given {
    /// No bytes yet.
    pub fn new() -> Given
        ensures { result.bytes ≡ [] }
    {
        Given {}
    }

    /// Adds the first `count` of these bytes.
    pub fn add(&mut self, _bytes: &[u8], _count: usize)
        ensures { self.new.bytes ≡ self.old.bytes ++ take _count _bytes.now }
    {}
}
