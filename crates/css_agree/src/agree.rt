ghost use Rattle.std.specs.Prelude.{◌≡◌, ◌≤◌, ◌<◌, ◌*◌, max, [], length, IfOk, OnOk, OnErr};
ghost use Rattle.css_num.specs.Gives.{GivesBy};
ghost use Rattle.css_span.specs.Frontiers.{Answers, error_count};
ghost use Rattle.css_agree.specs.Agreements.{AgreesAt, ArePossible, TellsTruth};
ghost use Rattle.css_agree.specs.Disagreements.{disagree};
ghost use Rattle.css_agree.specs.Keeping.{StandsFor, Adds, CanGoBack, GoesBack, before};
ghost use Rattle.css_agree.specs.Told.{agreed_of};
ghost use Rattle.css_agree.specs.Verdicts.{verdict};

use crate::agreed::Agreed;
use crate::best::{Best, Replaced, best_of_all, keep, take_back};
use crate::ends::{are_apart, highest, lowest};
use crate::fault::AgreeFault;
use css_model::LIMIT;
use css_span::{Answer, Local, Span, scaled_width};
use std::alloc::Global;
use std::marker::Model;

/// What all answers that were added say together of the television's wall clock.
///
/// Answers may be added, and asked about, at readings in any order. Of each declared error it keeps two answers at
/// most, the best at each end of the span. Contracts see the companion's own clock, what is kept, and a floor: the
/// greatest reading at which an answer was added. Each answer is possible at every reading from there on.
#[derive(Drop)]
pub struct Agree {
    local: Local,
    kept: Vec<Best>,
    floor: u64,
}

/// What an agreement was before an answer was added, for [`Agree::take_back`].
#[derive(Clone, Copy)]
pub struct Added {
    replaced: Option<Replaced>,
    floor: u64,
}

impl Model for Agree {
    ghost use Rattle.css_agree.specs.Keeping.{Kept, IsKept};

    ghost Value = { Kept };

    ghost view = { λ a. record { local = a.local; bests = a.kept.items; floor = a.floor } };

    ghost invariant = { λ a. IsKept (record { local = a.local; bests = a.kept.items; floor = a.floor }) };
}

impl Agree {
    /// The agreement of no answers yet, for a companion with this clock.
    pub fn new(alloc: Global, local: Local) -> Agree
        ensures value { result ≡ record { local = local; bests = []; floor = 0 } }
        ensures stands { StandsFor result [] }
    {
        Agree {
            local,
            kept: Vec::new(alloc),
            floor: 0,
        }
    }

    /// Adds an answer at a reading, that of its landing for instance. Earlier calls may have had greater readings.
    ///
    /// It is `Impossible`, with its scaled width at the reading, exactly where this is below zero. After a refusal the
    /// agreement is as it was. The work grows with the number of declared errors alone.
    pub fn add(&mut self, answer: Answer, reading: u64) -> Result<(), AgreeFault>
        requires range { reading < LIMIT }
        ensures verdict { GivesBy (λ done. done) AgreeFault.Memory result (verdict self.old.local reading answer) }
        ensures ok { OnOk result (Adds self.old self.new answer reading) }
        ensures err { OnErr result (self.new ≡ self.old) }

        // Whatever the answer, the floor rises no further than to the reading.
        ensures next { self.new.floor ≤ max self.old.floor reading }
    {
        match self.try_add(answer, reading) {
            Ok(_) => Ok(()),
            Err(fault) => Err(fault),
        }
    }

    /// [`Agree::add`], with what [`Agree::take_back`] needs.
    pub fn try_add(&mut self, answer: Answer, reading: u64) -> Result<Added, AgreeFault>
        requires range { reading < LIMIT }
        ensures verdict { GivesBy (λ _. tt) AgreeFault.Memory result (verdict self.old.local reading answer) }
        ensures ok { OnOk result (Adds self.old self.new answer reading) }
        ensures undone { IfOk result (λ added. GoesBack added self.new self.old) }
        ensures err { OnErr result (self.new ≡ self.old) }
        ensures next { self.new.floor ≤ max self.old.floor reading }
    {
        let width = scaled_width(&answer, &self.local, reading);
        if width < 0 {
            return Err(AgreeFault::Impossible(width));
        }
        let replaced = keep(&mut self.kept, &self.local, answer, reading)?;
        let floor = self.floor;
        self.floor = self.floor.max(reading);
        Ok(Added { replaced, floor })
    }

    /// Takes the answer back that was added last, by [`Agree::try_add`].
    pub fn take_back(&mut self, added: &Added)
        requires { CanGoBack added.now self.old }
        ensures { self.new ≡ before added.now self.old }
    {
        take_back(&mut self.kept, &added.replaced);
        self.floor = added.floor;
    }

    /// Forgets all answers, as where the companion slept.
    pub fn forget(&mut self)
        ensures value { self.new ≡ record self.old { bests = [] } }
        ensures stands { StandsFor self.new [] }
    {
        self.kept.clear();
    }

    /// What the answers say at a reading: the span from the greatest lower end of their spans at the reading to the
    /// least upper end. Where these are out of order, it names an answer that has the one and an answer that has the
    /// other. They may be the same answer at a reading before its landing. Where several have an end, before it is
    /// rounded, it names the one that landed first.
    ///
    /// What is said is true of moments at which all answers have landed.
    pub fn at(&self, reading: u64) -> Agreed
        requires range { reading < LIMIT }
        ensures value { (added : Answers) → StandsFor self.now added → result ≡ agreed_of self.now.local reading added }
        ensures agrees { (added : Answers) → StandsFor self.now added → AgreesAt self.now.local reading added result }
        ensures truth { (added : Answers) → StandsFor self.now added → TellsTruth self.now.local reading added result }
        ensures possible { self.now.floor ≤ reading → ArePossible self.now.local reading result }
    {
        let Some(best) = best_of_all(&self.kept, &self.local, reading) else {
            return Agreed::Nothing;
        };
        let lo = lowest(&best.low, &self.local, reading);
        let hi = highest(&best.high, &self.local, reading);
        if lo <= hi {
            Agreed::Within(Span { lo, hi })
        } else {
            Agreed::Disagree {
                low: best.low,
                high: best.high,
            }
        }
    }

    /// Whether the answers contradict each other at a reading: `at` then tells which two disagree.
    pub fn contradicts(&self, reading: u64) -> bool
        requires range { reading < LIMIT }
        ensures value { (added : Answers) → StandsFor self.now added
            → result ≡ disagree self.now.local reading added }
    {
        match best_of_all(&self.kept, &self.local, reading) {
            None => false,
            Some(best) => are_apart(&best.low, &best.high, &self.local, reading),
        }
    }

    /// The companion's own clock.
    pub fn local(&self) -> &Local
        ensures value { result.now ≡ self.now.local }
    {
        &self.local
    }

    /// How many answers are kept: two for each different error that the answers declare.
    pub fn kept(&self) -> usize
        ensures count { result ≡ 2 * length self.now.bests }
        ensures errors { (added : Answers) → StandsFor self.now added → result ≡ 2 * error_count added }
    {
        2 * self.kept.len()
    }
}
