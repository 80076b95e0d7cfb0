use std::marker::Model;

/// An answer to a request: the four times of a round trip, and what the television declares of its clock. A response
/// gives one, and so does its follow-up.
///
/// The times are readings in nanoseconds, below 2^32 seconds.
#[derive(Clone, Copy, Debug, PartialEq, Eq)]
pub struct Answer {
    /// When the request was sent, by the companion's clock: the originate time.
    pub t1: u64,
    /// When the request was received, by the television's clock: the receive time.
    pub t2: u64,
    /// When the answer was sent, by the television's clock: the transmit time.
    pub t3: u64,
    /// When the answer landed, by the companion's clock.
    pub t4: u64,
    /// How near the television's readings come to its clock, in nanoseconds: at most those of the exponent 30.
    pub precision: u64,
    /// The max_freq_error that the television declares, in 1/256 ppm: at most 25,600,000.
    pub error: u32,
}

impl Model for Answer {
    ghost use Rattle.css_model.specs.WallClock.{Answer as Times, IsAnswer};

    ghost Value = { Times };

    ghost view = { λ a. record {
      t1 = a.t1;
      t2 = a.t2;
      t3 = a.t3;
      t4 = a.t4;
      precision = a.precision;
      error = a.error;
    } };

    ghost invariant = { λ a.
        IsAnswer (record { t1 = a.t1; t2 = a.t2; t3 = a.t3; t4 = a.t4; precision = a.precision; error = a.error }) };

    ghost inverse = { λ a. record {
      t1 = a.t1;
      t2 = a.t2;
      t3 = a.t3;
      t4 = a.t4;
      precision = a.precision;
      error = a.error;
    } };
}

/// A companion's own clock.
#[derive(Clone, Copy, Debug, PartialEq, Eq)]
pub struct Local {
    /// The error of its oscillator, in 1/256 ppm: at most 2,560,000.
    pub error: u32,
    /// How near its readings come to it, in nanoseconds: at most a second.
    pub precision: u64,
}

impl Model for Local {
    ghost use Rattle.css_model.specs.WallClock.{Local as Own, IsLocal};

    ghost Value = { Own };

    ghost view = { λ a. record { error = a.error; precision = a.precision } };

    ghost invariant = { λ a. IsLocal (record { error = a.error; precision = a.precision }) };

    ghost inverse = { λ a. record { error = a.error; precision = a.precision } };
}
