ghost use Rattle.std.specs.Prelude.{◌≡◌, ◌≤◌, ◌<◌, List, [], ◌∷◌, None, Some, OnOk, OnErr};
ghost use Rattle.std.specs.Option.{ForSome};
ghost use Rattle.css_moments.specs.Drifts.{Told, Showed, Slept, verdict};
ghost use Rattle.css_moments.specs.Steps.{test_time, test_drift, AreSmall};
ghost use Rattle.css_moments.specs.Standing.{StandsFor};

use crate::fault::DriftFault;
use crate::kept::{Extremes, Last};
use css_model::LIMIT;
use std::marker::Model;

/// The watch over one clock of a schedule. It tests that true time never falls, and that the clock keeps the declared
/// error of its oscillator between any two lines with no sleep between. It keeps a few numbers, however many lines
/// there are.
///
/// Contracts see the oscillator's error, the last line, and the least lead and lag since the last sleep.
#[derive(Drop)]
pub struct Drift {
    error: u32,
    last: Option<Last>,
    lately: Option<Extremes>,
}

impl Model for Drift {
    ghost use Rattle.css_moments.specs.Standing.{Drift as Kept, IsDrift};

    ghost Value = { Kept };

    ghost view = { λ d. record { error = d.error; last = d.last; lately = d.lately } };

    ghost invariant = { λ d. IsDrift (record { error = d.error; last = d.last; lately = d.lately }) };

    ghost inverse = { λ d. record { error = d.error; last = d.last; lately = d.lately } };
}

impl Drift {
    /// The watch over a clock whose oscillator has this error, in 1/256 ppm: at most 25,600,000. It was told nothing
    /// yet.
    pub fn new(error: u32) -> Drift
        requires { error ≤ 25600000 }
        ensures value { result ≡ record { error = error; last = None; lately = None } }
        ensures stands { StandsFor result [] }
    {
        Drift {
            error,
            last: None,
            lately: None,
        }
    }

    /// Tells what the clock showed at a line. The line's number is above that of the last line. True time and the
    /// clock's value are in nanoseconds below 2^32 seconds.
    ///
    /// It is `Broken` exactly where true time fell since the last line, or else where the clock drifted from some line
    /// since the last sleep by more than the error allows and one nanosecond. After a refusal the drift is as before.
    pub fn add(&mut self, line: u64, time: u64, value: u64) -> Result<(), DriftFault>
        requires time { time < LIMIT }
        requires value { value < LIMIT }
        requires next { ForSome self.old.last (λ last. last.line < line) }
        ensures verdict { (told : List Told) → StandsFor self.old told
            → result ≡ verdict self.old.error told (record { line = line; time = time; value = value }) }
        ensures stands { (told : List Told) → StandsFor self.old told
            → OnOk result (StandsFor self.new (Showed (record { line = line; time = time; value = value }) ∷ told)) }
        ensures last { OnOk result (self.new.last ≡ Some (record { line = line; time = time })) }
        ensures err { OnErr result (self.new ≡ self.old) }
        ensures error { self.new.error ≡ self.old.error }
    {
        let now = Extremes::at(self.error, line, time, value);
        self.test_time(time)?;
        self.test_drift(&now)?;
        self.last = Some(Last { line, time });
        self.lately = Some(now.after(self.lately));
        Ok(())
    }

    /// The clock's machine slept: the clock stood still for an unknown time, so the lines before say nothing of it any
    /// more. True time may still not fall.
    pub fn slept(&mut self)
        ensures value { self.new ≡ record self.old { lately = None } }
        ensures stands { (told : List Told) → StandsFor self.old told → StandsFor self.new (Slept ∷ told) }
    {
        self.lately = None;
    }

    /// True time may not be below that of the last line.
    fn test_time(&self, time: u64) -> Result<(), DriftFault>
        ensures { result ≡ test_time self.now.last time }
    {
        match &self.last {
            Some(last) if time < last.time => Err(DriftFault::Broken {
                earlier: last.line,
                excess: i128::from(last.time - time),
            }),
            _ => Ok(()),
        }
    }

    /// Neither the lead nor the lag may have risen too much since its least one. At most one of them has: if the lead
    /// has since one line and the lag since another, these two lines would have broken the error between them.
    fn test_drift(&self, now: &Extremes) -> Result<(), DriftFault>
        requires { AreSmall now.now }
        ensures { result ≡ test_drift self.now.lately now.now }
    {
        match &self.lately {
            None => Ok(()),
            Some(lately) => {
                lately.lead.test_rise(&now.lead)?;
                lately.lag.test_rise(&now.lag)
            }
        }
    }
}
