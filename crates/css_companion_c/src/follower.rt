//! A companion beside what its answers say together.
ghost use Rattle.std.specs.Prelude.{◌≡◌, None, [], ◌∷◌};
ghost use Rattle.css_model.specs.History.{History, Slept};
ghost use Rattle.css_companion.specs.Standing.{StandsFor, asleep};
ghost use Rattle.css_companion_c.specs.Noticing.{Agrees, BeginsAnew};

use css_agree::Agree;
use css_cii::CiiName;
use css_companion::Companion;
use std::alloc::Global;

/// A companion with what its calls tell beside it.
pub struct Follower {
    pub(crate) companion: Companion,
    /// What the answers say together that were accepted since the last sleep.
    pub(crate) agree: Agree,
    /// Whether they ever disagreed where one landed.
    pub(crate) disagrees: bool,
    /// The reading of the last request since the last sleep, and whether an answer to it was accepted.
    pub(crate) asked: Option<u64>,
    pub(crate) answered: bool,
    /// The property for which the last CII text was refused, if it was refused for one.
    pub(crate) fault: Option<CiiName>,
}

// By hand: a derived drop is opened at each exit of each caller's proof.
impl Drop for Follower {
    fn drop(self) {
        let Follower {
            companion: _,
            agree: _,
            disagrees: _,
            asked: _,
            answered: _,
            fault: _,
        } = self;
    }
}

impl Follower {
    /// The follower of a companion that accepted no answer yet.
    pub(crate) fn new(alloc: Global, companion: Companion) -> Follower
        ensures companion { result.companion ≡ companion }
        ensures anew { BeginsAnew result [] }
        ensures unrefused { result.fault ≡ None }
    {
        let agree = Agree::new(alloc, companion.local());
        Follower {
            companion,
            agree,
            disagrees: false,
            asked: None,
            answered: false,
            fault: None,
        }
    }

    /// The machine slept: all requests and answers are forgotten.
    pub(crate) fn slept(&mut self)
        ensures told { self.new.companion ≡ record self.old.companion { client = asleep self.old.companion.client } }
        ensures stands { (history : History) → StandsFor self.old.companion history
            → StandsFor self.new.companion (Slept ∷ history) }
        ensures anew { (history : History) → Agrees self.old history → BeginsAnew self.new (Slept ∷ history) }
        ensures refused { self.new.fault ≡ self.old.fault }
    {
        self.companion.slept();
        self.agree.forget();
        self.disagrees = false;
        self.asked = None;
        self.answered = false;
    }
}
