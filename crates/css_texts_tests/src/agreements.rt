//! What all answers of a wall clock say together.
ghost use Rattle.std.specs.Prelude.{◌<◌};

use crate::common::{check_that, next_word};
use css_agree::{Agree, AgreeFault, Agreed, Answer, Local, Span};
use css_model::LIMIT;
use css_span::{scaled_width, span};
use std::alloc::Global;
use std::process::Abort;

#[rattlefmt::skip]
const EXACT: Local = Local { error: 0, precision: 0 };

/// 500 ppm, and readings that are off by up to 20 ns.
#[rattlefmt::skip]
const FAIR: Local = Local { error: 128_000, precision: 20 };

/// The worst clock that a companion may have.
#[rattlefmt::skip]
const WORST: Local = Local { error: 2_560_000, precision: 1_000_000_000 };

#[rattlefmt::skip]
const FIRST: Answer = Answer { t1: 1000, t2: 5000, t3: 5200, t4: 1600, precision: 1, error: 0 };

#[rattlefmt::skip]
const SECOND: Answer = Answer { t1: 2000, t2: 5700, t3: 5900, t4: 2400, ..FIRST };

/// From a television that put its clock forward by 1300 ns.
#[rattlefmt::skip]
const MOVED: Answer = Answer { t2: 7000, t3: 7200, ..SECOND };

/// It was answered 1000 ns after it was received, in a round trip of 600 ns.
const IMPOSSIBLE: Answer = Answer { t3: 6000, ..FIRST };

/// It landed 400 ns before its request was sent, by readings that contradict its precision.
#[rattlefmt::skip]
const BACKWARD: Answer = Answer { t1: 2000, t3: 5000, ..FIRST };

/// The same of a television that received it 400 ns after it answered.
#[rattlefmt::skip]
const BOTH_BACKWARD: Answer = Answer { t2: 5400, ..BACKWARD };

/// The last times that there are.
const LAST: Answer = Answer {
    t1: LIMIT - 1,
    t2: LIMIT - 1,
    t3: LIMIT - 1,
    t4: LIMIT - 1,
    precision: 1_073_741_824_000_000_000,
    error: 25_600_000,
};

/// The widest span that an answer can have.
#[rattlefmt::skip]
const WIDEST: Answer = Answer { t1: 0, t3: 0, ..LAST };

/// The scaled width of those that are impossible, by 394 ns.
const TOO_NARROW: AgreeFault = AgreeFault::Impossible(-394 * 65_536_000_000_000_000);

/// It was answered 500 ns after it was received, in a round trip of 600 ns, by a clock that may be off by 100,000 ppm.
#[rattlefmt::skip]
const LOOSE: Answer = Answer { t3: 5500, error: 25_600_000, ..FIRST };

/// Its scaled width 900 ns before it landed, which is below zero by 14 ns.
const TOO_EARLY: AgreeFault = AgreeFault::Impossible(-14 * 65_536_000_000_000_000);

/// An answer, the reading at which it is added, what comes of it, and what all answers say then.
type Step = (Answer, u64, Result<(), AgreeFault>, Agreed);

#[rattlefmt::skip]
const ONE: Agreed = Agreed::Within(Span { lo: 5197, hi: 5603 });

/// What the answers say at a reading is this, and so is whether they contradict each other.
fn check_told(rt: &impl Abort, agree: &Agree, reading: u64, told: &Agreed)
    requires { reading < LIMIT }
{
    let found = agree.at(reading);
    assert!(rt; found == *told, "at {reading}: {found:?} and not {told:?}");
    let apart = matches!(told, Agreed::Disagree { .. });
    check_that(rt, agree.contradicts(reading) == apart, "a contradiction");
}

/// What comes of each step is what it says.
fn check_steps(rt: &impl Abort, alloc: Global, local: Local, steps: &[Step]) {
    let mut agree = Agree::new(alloc, local);
    check_told(rt, &agree, 0, &Agreed::Nothing);
    for (answer, reading, done, told) in steps {
        assert!(rt; *reading < LIMIT);
        let added = agree.add(*answer, *reading);
        assert!(rt; added == *done, "at {reading}: {added:?} and not {done:?}");
        check_told(rt, &agree, *reading, told);
    }
    check_that(rt, agree.kept() == 2, "two are kept");
}

/// Two answers share less than each has, and come in any order. An impossible one changes nothing.
#[rattlefmt::skip]
#[test]
fn answers_share_what_each_has(rt: HostRuntime) {
    let both = Agreed::Within(Span { lo: 5997, hi: 6103 });
    let second = Agreed::Within(Span { lo: 5897, hi: 6103 });
    let earlier = Agreed::Within(Span { lo: 5197, hi: 5303 });
    let later = Agreed::Within(Span { lo: 5997, hi: 6103 });
    let steps = [(FIRST, 1600, Ok(()), ONE), (SECOND, 2400, Ok(()), both)];
    check_steps(&rt, rt.alloc(), EXACT, &steps);
    let steps = [(SECOND, 2400, Ok(()), second), (FIRST, 1600, Ok(()), earlier),
        (IMPOSSIBLE, 2400, Err(TOO_NARROW), later)];
    check_steps(&rt, rt.alloc(), EXACT, &steps);
}

/// Answers contradict each other, or one itself before it can have landed.
#[rattlefmt::skip]
#[test]
fn answers_are_apart(rt: HostRuntime) {
    let landed = Agreed::Within(Span { lo: 5497, hi: 5664 });
    let steps = [(LOOSE, 700, Err(TOO_EARLY), Agreed::Nothing), (LOOSE, 1600, Ok(()), landed),
        (LOOSE, 700, Err(TOO_EARLY), Agreed::Disagree { low: LOOSE, high: LOOSE })];
    check_steps(&rt, rt.alloc(), EXACT, &steps);
    let steps = [(FIRST, 1600, Ok(()), ONE), (MOVED, 2400, Ok(()), Agreed::Disagree { low: MOVED, high: FIRST })];
    check_steps(&rt, rt.alloc(), EXACT, &steps);
    let later = Agreed::Within(Span { lo: 5597, hi: 6003 });
    let steps = [(IMPOSSIBLE, 1600, Err(TOO_NARROW), Agreed::Nothing), (FIRST, 1600, Ok(()), ONE),
        (IMPOSSIBLE, 1600, Err(TOO_NARROW), ONE), (BACKWARD, 2000, Err(TOO_NARROW), later),
        (BOTH_BACKWARD, 2000, Ok(()), Agreed::Disagree { low: FIRST, high: BOTH_BACKWARD })];
    check_steps(&rt, rt.alloc(), EXACT, &steps);
}

/// Of answers that share an end the one is named that landed first, whichever error it declares, in any order.
#[rattlefmt::skip]
#[test]
fn the_earliest_is_named(rt: HostRuntime) {
    let early = Answer { t1: 900, t2: 4900, t4: 1500, ..FIRST };
    let loose = Answer { t3: 7191, t4: 2390, error: 25_600_000, ..MOVED };
    for answers in [[FIRST, early, MOVED, loose], [loose, MOVED, early, FIRST]] {
        let mut agree = Agree::new(rt.alloc(), EXACT);
        for answer in &answers {
            agree.add(*answer, 2401).expect(&rt, "an answer");
        }
        let told = Agreed::Disagree { low: loose, high: early };
        check_told(&rt, &agree, 2401, &told);
    }
}

#[rattlefmt::skip]
#[test]
fn numbers_may_be_at_their_ends(rt: HostRuntime) {
    let widest = Span { lo: -1_073_741_825_782_178_220, hi: 10_140_895_006_666_666_667 };
    let both = Span { lo: 3_221_225_470_217_821_779, hi: 5_368_709_122_222_222_224 };
    let steps = [(WIDEST, LIMIT - 1, Ok(()), Agreed::Within(widest)), (LAST, LIMIT - 1, Ok(()), Agreed::Within(both))];
    check_steps(&rt, rt.alloc(), WORST, &steps);
}

/// The greatest lower end and the least upper end over all answers, where each has a span.
fn plain_ends(answers: &[Answer], local: &Local, reading: u64) -> Option<(i128, i128)>
    requires { reading < 5000000000 }
{
    let mut shared: Option<(i128, i128)> = None;
    for answer in answers {
        if scaled_width(answer, local, reading) < 0 {
            return None;
        }
        let span = span(answer, local, reading);
        shared = Some(match shared {
            None => (span.lo, span.hi),
            Some((low, high)) => (low.max(span.lo), high.min(span.hi)),
        });
    }
    shared
}

/// Whether what is told of the answers is what the plain scan over all of them finds.
fn is_plain(told: &Agreed, answers: &[Answer], local: &Local, reading: u64) -> bool
    requires { reading < 5000000000 }
{
    let ends = plain_ends(answers, local, reading);
    match told {
        Agreed::Nothing => answers.is_empty(),
        Agreed::Within(span) => ends == Some((span.lo, span.hi)),
        Agreed::Disagree { low, high } => {
            if scaled_width(low, local, reading) < 0 || scaled_width(high, local, reading) < 0 {
                return false;
            }
            let (lo, hi) = (span(low, local, reading).lo, span(high, local, reading).hi);
            hi < lo && ends == Some((lo, hi)) && answers.contains(low) && answers.contains(high)
        }
    }
}

/// Which kinds of agreement came.
#[derive(Drop)]
struct Seen {
    within: bool,
    disagree: bool,
}

/// What both tell at a reading is the same.
fn compare_at(rt: &impl Abort, agree: &Agree, plain: &[Answer], reading: u64, seen: &mut Seen)
    requires { reading < 5000000000 }
{
    let told = agree.at(reading);
    let same = is_plain(&told, plain, agree.local(), reading);
    check_that(rt, same, "what all answers say");
    seen.within |= matches!(told, Agreed::Within(_));
    seen.disagree |= matches!(told, Agreed::Disagree { .. });
}

/// Adds a drawn answer to both, and compares them when all have landed, and later.
fn compare(
    rt: &impl Abort,
    agree: &mut Agree,
    plain: &mut Vec<Answer>,
    answer: Answer,
    landed: u64,
    seen: &mut Seen,
)
    requires { landed < 1000000 }
{
    let is_possible = scaled_width(&answer, agree.local(), landed) >= 0;
    let added = agree.add(answer, landed);
    check_that(rt, added.is_ok() == is_possible, "an answer");
    if is_possible {
        plain.push(answer).expect(rt, "memory");
    }
    for reading in [12_000, 12_700, 312_000, 4_000_012_000] {
        compare_at(rt, agree, plain, reading, seen);
    }
}

/// An answer of one of four errors, which took one of eight times under way, and was late at the television or not. One
/// in eight comes from a television that put its clock forward.
fn drawn(word: u64, asked: u64) -> Answer
    requires { asked < 1000000 }
{
    let t1 = asked;
    let forward = if word / 1280 % 8 == 0 { 400 } else { 0 };
    let t2 = asked + 5000 + word % 60 + forward;
    Answer {
        t1,
        t2,
        t3: t2 + 100 + (word / 4 % 5) * 60,
        t4: t1 + 300 + (word / 20 % 8) * 20,
        precision: 1 + word / 160 % 2,
        error: [0, 64_000, 128_000, 256_000][(word / 320 % 4) as usize],
    }
}

/// Adds a dozen answers drawn from the word to a new agreement, in another order than they landed, and returns the last
/// word.
fn compare_dozen(
    rt: &impl Abort,
    alloc: Global,
    local: &Local,
    first: u64,
    seen: &mut Seen,
) -> u64 {
    let mut agree = Agree::new(alloc, *local);
    let mut plain = Vec::new(alloc);
    let mut word = first;
    for i in 0..12 {
        word = next_word(word);
        let asked = i * 5 % 12 * 1000;
        let answer = drawn(word >> 33, asked);
        compare(rt, &mut agree, &mut plain, answer, asked + 500, seen);
    }
    check_that(rt, agree.kept() <= 8, "two are kept of each error");
    word
}

#[test]
fn tells_what_a_plain_scan_finds(rt: HostRuntime) {
    let mut word = 1;
    for local in [EXACT, FAIR] {
        let mut seen = Seen {
            within: false,
            disagree: false,
        };
        for _ in 0..30 {
            word = compare_dozen(&rt, rt.alloc(), &local, word, &mut seen);
        }
        check_that(&rt, seen.within && seen.disagree, "both kinds");
    }
}
