ghost use Rattle.std.specs.Prelude.{◌≡◌, ◌≤◌, ◌<◌, ◌↔◌, [], length, reverse, OnOk, OnErr, IsNone};
ghost use Rattle.std.specs.Prelude.{IfSome, All, ℕ};
ghost use Rattle.css_num.specs.Gives.{GivesBy};
ghost use Rattle.css_span.specs.Frontiers.{Answers, StandsFor, Accepts, IsPossible, error_count};
ghost use Rattle.css_span.specs.Frontiers as frontiers;
ghost use Rattle.css_model.specs.Numbers.{max_error};
ghost use Rattle.css_model.specs.WallClock as wall_clock;
ghost use Rattle.css_span.specs.WallSpans.{wall_span, IsNear};
ghost use Rattle.css_span.specs.Verdicts.{verdict};

use crate::answer::{Answer, Local};
use crate::fault::AcceptFault;
use crate::frontier::{greatest_error, keep, narrowest};
use crate::width::{scaled_width, span};
use css_model::LIMIT;
use css_num::Span;
use std::alloc::Global;
use std::marker::Model;

/// What a companion knows of the television's wall clock from all answers that it accepted.
///
/// It keeps one answer of each declared error, the narrowest. Contracts see the companion's own clock, the kept
/// answers, the newest first, and the least reading that it may be handed next.
#[derive(Debug, Drop)]
pub struct Estimate {
    local: Local,
    kept: Vec<Answer>,
    floor: u64,
}

impl Model for Estimate {
    ghost use Rattle.std.specs.Prelude.{reverse};
    ghost use Rattle.css_span.specs.Frontiers.{Frontier, IsFrontier};

    ghost Value = { Frontier };

    ghost view = { λ e. record { local = e.local; kept = reverse e.kept.items; floor = e.floor } };

    ghost invariant = { λ e. IsFrontier (record { local = e.local; kept = reverse e.kept.items; floor = e.floor }) };
}

impl Estimate {
    /// The estimate of a companion with this clock that accepted no answer yet.
    pub fn new(alloc: Global, local: Local) -> Estimate
        ensures value { result ≡ record { local = local; kept = []; floor = 0 } }
        ensures stands { StandsFor result [] }
    {
        Estimate {
            local,
            kept: Vec::new(alloc),
            floor: 0,
        }
    }

    /// Accepts an answer at a reading that isn't below that of the last answer accepted.
    ///
    /// It is `Impossible`, with its scaled width at the reading, exactly where this is below zero. After a refusal
    /// the estimate is as it was.
    pub fn accept(&mut self, answer: Answer, reading: u64) -> Result<(), AcceptFault>
        requires range { reading < LIMIT }
        requires floor { self.old.floor ≤ reading }
        ensures verdict { GivesBy (λ done. done) AcceptFault.Memory result (verdict self.old.local reading answer) }
        ensures ok { OnOk result (Accepts self.old self.new answer reading) }
        ensures err { OnErr result (self.new ≡ self.old) }

        // Whatever the answer, this reading may be handed next.
        ensures next { self.new.floor ≤ reading }
    {
        let width = scaled_width(&answer, &self.local, reading);
        if width < 0 {
            return Err(AcceptFault::Impossible(width));
        }
        keep(&mut self.kept, &self.local, answer, reading)?;
        self.floor = reading;
        Ok(())
    }

    /// The accepted answer with the least scaled width at a reading, of equals the one accepted first. None where none
    /// was accepted. The reading isn't below that of the last answer accepted.
    pub fn answer(&self, reading: u64) -> Option<Answer>
        requires range { reading < LIMIT }
        requires floor { self.now.floor ≤ reading }
        ensures narrowest { (accepted : Answers) → StandsFor self.now accepted
            → result ≡ wall_clock.narrowest self.now.local reading accepted }
        ensures possible { IfSome result (IsPossible self.now.local reading) }
    {
        narrowest(&self.kept, &self.local, reading)
    }

    /// The span of the wall clock at a reading, in nanoseconds: that of [`Estimate::answer`]. None where no answer was
    /// accepted.
    pub fn at(&self, reading: u64) -> Option<Span>
        requires range { reading < LIMIT }
        requires floor { self.now.floor ≤ reading }
        ensures span { (accepted : Answers) → StandsFor self.now accepted
            → result ≡ wall_span self.now.local reading accepted }
        ensures none { (accepted : Answers) → StandsFor self.now accepted → IsNone result ↔ (accepted ≡ []) }
        ensures near { IfSome result IsNear }
    {
        let answer = self.answer(reading)?;
        Some(span(&answer, &self.local, reading))
    }

    /// How many answers are kept: as many as there are different declared errors among the accepted ones.
    pub fn kept(&self) -> usize
        ensures count { result ≡ length self.now.kept }
        ensures errors { (accepted : Answers) → StandsFor self.now accepted → result ≡ error_count accepted }
    {
        self.kept.len()
    }

    /// The kept answers, the oldest first: of each declared error the narrowest.
    pub fn answers(&self) -> &[Answer]
        ensures kept { result.now ≡ reverse self.now.kept }
        ensures possible { (reading : ℕ) → self.now.floor ≤ reading
            → All (IsPossible self.now.local reading) self.now.kept }
    {
        &self.kept
    }

    /// The greatest max_freq_error that an accepted answer declares, in 1/256 ppm. It is 0 where none was accepted.
    pub fn greatest_error(&self) -> u32
        ensures value { result ≡ frontiers.greatest_error self.now.kept }
        ensures accepted { (accepted : Answers) → StandsFor self.now accepted
            → result ≡ frontiers.greatest_error accepted }
        ensures range { result ≤ max_error }
    {
        greatest_error(&self.kept)
    }
}
