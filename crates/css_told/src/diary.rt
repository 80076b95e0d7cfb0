ghost use Rattle.std.specs.Prelude.{◌≡◌, [], ◌++◌};
ghost use Rattle.std.specs.Borrow.{ftrue};
ghost use Rattle.css_model.specs.History.{History};
ghost use Rattle.css_told.specs.Stored.{history_code};

use crate::note::Note;
use std::marker::Model;

/// A history that only proofs see. It takes no room, and its methods do nothing when they run.
#[derive(Drop)]
pub struct Diary {
    pub ghost history: { History } by { history_code },
}

impl Model for Diary {
    ghost also_owns = { λ _. ftrue };
}

impl Diary {
    ghost use Rattle.css_told.specs.Noted.{entries_of};

    /// No call yet.
    pub fn new() -> Diary
        ensures { result.history ≡ [] }
    {
        Diary {}
    }

    /// Adds the entries of a call.
    pub fn note(&mut self, _note: &Note<'_>)
        ensures { self.new.history ≡ entries_of _note.now ++ self.old.history }
    {}
}
