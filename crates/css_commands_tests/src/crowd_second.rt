//! The spans of companions, computed a second time in a plain way: whole lists of what was done stand here, and each
//! span is computed from them anew.

use std::alloc::{AllocError, Global};

/// One whole and the error of 50 ppm that each end declares, and one whole less that error.
const FAST: i128 = 256_012_800;

const SLOW: i128 = 255_987_200;

/// What a reading of the television's clock may be off by, with a nanosecond for its rounding.
const OFF: i128 = 955;

/// What two readings of a companion's clock may be off by together, with a nanosecond for its rounding.
const OWN_OFF: i128 = 2001;

/// An answer, with the readings that it tells and that at which it landed. It may promise a follow-up, or be one.
#[derive(Clone, Copy)]
struct Answer {
    promises: bool,
    follows: bool,
    originate: u64,
    receive: u64,
    transmit: u64,
    landed: u64,
}

/// How far one reading is above another.
fn above(reading: u64, other: u64) -> i128 {
    i128::from(reading).wrapping_sub(i128::from(other))
}

impl Answer {
    /// The least of the wall clock that can have passed since the landing, times `FAST`.
    fn least(&self, reading: u64) -> i128 {
        let passed = above(reading, self.landed).wrapping_sub(OWN_OFF);
        passed.wrapping_mul(SLOW)
    }

    /// The most of it that can have passed since the request was sent, times `SLOW`.
    fn most(&self, reading: u64) -> i128 {
        let passed = above(reading, self.originate).wrapping_add(OWN_OFF);
        passed.wrapping_mul(FAST)
    }

    /// The width of the span at a reading before rounding, times `FAST` and `SLOW`.
    fn width(&self, reading: u64) -> i128 {
        let away = above(self.receive, self.transmit).wrapping_add(2 * OFF);
        let most = self.most(reading).wrapping_mul(FAST);
        let least = self.least(reading).wrapping_mul(SLOW);
        let passed = most.wrapping_sub(least);
        away.wrapping_mul(FAST)
            .wrapping_mul(SLOW)
            .wrapping_add(passed)
    }

    /// The ends of the span at a reading: the lower one is rounded down, the upper one up.
    fn ends(&self, reading: u64) -> (i128, i128) {
        let low = self.least(reading).div_euclid(256_012_800);
        let minus_high = self.most(reading).wrapping_neg().div_euclid(255_987_200);
        (
            above(self.transmit, 0).wrapping_sub(OFF).wrapping_add(low),
            above(self.receive, 0)
                .wrapping_add(OFF)
                .wrapping_sub(minus_high),
        )
    }
}

/// What a companion did since its last sleep.
#[derive(Drop)]
struct Companion {
    requests: Vec<u64>,
    /// The responses that promised a follow-up.
    promises: Vec<Answer>,
    accepted: Vec<Answer>,
}

impl Companion {
    /// An answer counts if it is to one of the last 64 requests and contradicts nothing.
    fn land(&mut self, told: Answer, reading: u64) -> Result<(), AllocError> {
        if !self.is_asked(told.originate) {
            return Ok(());
        }
        let landed = self.landed(told).unwrap_or(reading);
        let answer = Answer { landed, ..told };
        if answer.promises {
            self.promises.push(answer)?;
        }
        if answer.width(reading) >= 0 {
            self.accepted.push(answer)?;
        }
        Ok(())
    }

    fn is_asked(&self, originate: u64) -> bool {
        let mut last = self.requests.iter().rev().take(64);
        last.any(|request| *request == originate)
    }

    /// When the first response landed that promised this follow-up.
    fn landed(&self, told: Answer) -> Option<u64> {
        for first in &self.promises {
            let is_pair = first.originate == told.originate && first.receive == told.receive;
            if told.follows && is_pair {
                return Some(first.landed);
            }
        }
        None
    }

    /// The ends of the narrowest span at a reading; of equals, that which was accepted first.
    fn span(&self, reading: u64) -> Option<(i128, i128)> {
        let mut narrowest = *self.accepted.first()?;
        for answer in &self.accepted {
            if answer.width(reading) < narrowest.width(reading) {
                narrowest = *answer;
            }
        }
        Some(narrowest.ends(reading))
    }
}

/// All requests, takes and datagrams, each in its order, and the companions. Each is counted from 1. A take stands as
/// the first answer to it.
#[derive(Drop)]
pub(crate) struct Second {
    follow: bool,
    requests: Vec<u64>,
    takes: Vec<Answer>,
    datagrams: Vec<Answer>,
    companions: Vec<Companion>,
}

impl Second {
    pub(crate) fn new(alloc: Global, follow: bool) -> Second {
        Second {
            follow,
            requests: Vec::new(alloc),
            takes: Vec::new(alloc),
            datagrams: Vec::new(alloc),
            companions: Vec::new(alloc),
        }
    }

    pub(crate) fn add_companion(&mut self, alloc: Global) -> Result<(), AllocError> {
        self.companions.push(Companion {
            requests: Vec::new(alloc),
            promises: Vec::new(alloc),
            accepted: Vec::new(alloc),
        })?;
        Ok(())
    }

    /// A companion sent a request at this reading. The number of the request.
    pub(crate) fn ask(&mut self, who: u64, reading: u64) -> Result<u64, AllocError> {
        self.requests.push(reading)?;
        if let Some(companion) = self.companions.get_mut(index(who)) {
            companion.requests.push(reading)?;
        }
        Ok(self.requests.len() as u64)
    }

    /// A follow-up is promised where the reading is above those of all takes before. The number of the take.
    pub(crate) fn take(&mut self, request: u64, reading: u64) -> Result<u64, AllocError> {
        let mut promised = self.follow;
        for take in &self.takes {
            promised = promised && take.receive < reading;
        }
        self.takes.push(Answer {
            promises: promised,
            follows: false,
            originate: self.requests.get(index(request)).copied().unwrap_or(0),
            receive: reading,
            transmit: reading,
            landed: 0,
        })?;
        Ok(self.takes.len() as u64)
    }

    /// A response that promises a follow-up tells the reading of its take twice.
    pub(crate) fn give(&mut self, take: u64, reading: u64) -> Result<(), AllocError> {
        let Some(mut answer) = self.takes.get(index(take)).copied() else {
            return Ok(());
        };
        if answer.promises {
            self.datagrams.push(answer)?;
            answer.promises = false;
            answer.follows = true;
        }
        answer.transmit = reading;
        self.datagrams.push(answer)?;
        Ok(())
    }

    /// How many datagrams there are.
    pub(crate) fn datagrams(&self) -> u64 {
        self.datagrams.len() as u64
    }

    pub(crate) fn land(&mut self, who: u64, datagram: u64, reading: u64) -> Result<(), AllocError> {
        let told = self.datagrams.get(index(datagram)).copied();
        match (told, self.companions.get_mut(index(who))) {
            (Some(told), Some(companion)) => companion.land(told, reading),
            _ => Ok(()),
        }
    }

    pub(crate) fn sleep(&mut self, who: u64) {
        if let Some(companion) = self.companions.get_mut(index(who)) {
            companion.requests.clear();
            companion.promises.clear();
            companion.accepted.clear();
        }
    }

    /// The ends of a companion's span at a reading.
    pub(crate) fn span(&self, who: u64, reading: u64) -> Option<(i128, i128)> {
        self.companions.get(index(who))?.span(reading)
    }
}

/// Where something stands that is counted from 1.
pub(crate) fn index(number: u64) -> usize {
    (number as usize).wrapping_sub(1)
}
