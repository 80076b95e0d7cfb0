//! Clocks of drawn schedules.

use rand_core::utils::NextWord;
use rand_pcg::Lcg64Xsh32;

/// A number below another, or 0 where that is 0.
pub(crate) fn draw(words: &mut Lcg64Xsh32, below: u32) -> u32 {
    words.next_word() % below.max(1)
}

/// A clock that showed `start` at a true time, and since then runs fast or slow by `wrong` of 256,000,000 parts.
#[derive(Clone, Copy)]
pub(crate) struct Clock {
    since: u64,
    start: u64,
    wrong: u64,
    fast: bool,
    precision: u32,
    /// The least reading that may come next.
    floor: u64,
}

impl Clock {
    /// A clock that is wrong by 50 ppm, or by less. It shows 1 to 5 seconds at the beginning.
    pub(crate) fn new(words: &mut Lcg64Xsh32, precision: u32) -> Clock {
        let start = u64::from(words.next_word()).wrapping_add(1_000_000_000);
        Clock {
            since: 0,
            start,
            wrong: wrong(words),
            fast: draw(words, 2) == 0,
            precision,
            floor: 0,
        }
    }

    /// What it shows at a true time.
    pub(crate) fn at(&self, time: u64) -> u64 {
        let gone = time.wrapping_sub(self.since);
        let drift = gone.wrapping_mul(self.wrong) / 256_000_000;
        let shown = self.start.wrapping_add(gone);
        if self.fast {
            shown.wrapping_add(drift)
        } else {
            shown.wrapping_sub(drift)
        }
    }

    /// A reading of it, off by no more than its precision.
    pub(crate) fn read(&mut self, words: &mut Lcg64Xsh32, time: u64) -> u64 {
        let off = draw(words, self.precision.wrapping_mul(2).wrapping_add(1));
        let least = self.at(time).saturating_sub(u64::from(self.precision));
        let reading = least.wrapping_add(u64::from(off)).max(self.floor);
        self.floor = reading;
        reading
    }

    /// It slept, and stood still for a part of the time since its last reading. Its next reading is above the last one.
    pub(crate) fn sleep(&mut self, words: &mut Lcg64Xsh32, time: u64) {
        let floor = self.floor.wrapping_add(1);
        let shown = self.at(time);
        let stood = shown.saturating_sub(floor).min(4_000_000_000);
        let lost = u64::from(words.next_word()) % stood.max(1);
        *self = Clock {
            since: time,
            start: shown.wrapping_sub(lost),
            wrong: wrong(words),
            fast: draw(words, 2) == 0,
            precision: self.precision,
            floor,
        };
    }
}

/// By how much a clock is wrong: in every second case by as much as its error allows.
fn wrong(words: &mut Lcg64Xsh32) -> u64 {
    if draw(words, 2) == 0 {
        12_800
    } else {
        u64::from(draw(words, 12_801))
    }
}
