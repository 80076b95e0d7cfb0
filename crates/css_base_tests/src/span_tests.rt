ghost use Rattle.std.specs.Prelude.{◌<◌, ◌≤◌};

use crate::common::{check_that, next_word};
use css_span::{AcceptFault, Answer, Estimate, Local, Span, scaled_width, span};
use std::alloc::Global;
use std::process::Abort;

#[rattlefmt::skip]
const EXACT: Local = Local { error: 0, precision: 0 };

/// 500 ppm.
#[rattlefmt::skip]
const FAIR: Local = Local { error: 128_000, precision: 0 };

/// The square of one whole, `256_000_000`.
const WHOLE_SQUARED: i128 = 65_536_000_000_000_000;

/// The readings between two generated answers.
const STEP: u64 = 1000;

fn answer_at(t3: u64, error: u32) -> Answer
    requires time { t3 < 10000 }
    requires error { error < 1000000 }
{
    Answer {
        t1: 1000,
        t2: 5000,
        t3,
        t4: 1600,
        precision: 1,
        error,
    }
}

/// Finds these ends of the span at a reading.
fn check_at(rt: &impl Abort, estimate: &Estimate, reading: u64, expected: Option<(i128, i128)>)
    requires range { reading < 5000000000 }
    requires floor { estimate.now.floor ≤ reading }
{
    let ends = estimate.at(reading).map(|span| (span.lo, span.hi));
    assert!(rt; ends == expected, "at {reading}");
}

#[test]
fn an_impossible_answer_changes_nothing(rt: HostRuntime) {
    let mut estimate = Estimate::new(rt.alloc(), EXACT);
    let impossible = Err(AcceptFault::Impossible(-394 * WHOLE_SQUARED));
    let accepted = estimate.accept(answer_at(6000, 0), 1600);
    check_that(&rt, accepted == impossible, "impossible");
    check_at(&rt, &estimate, 1600, None);
    let accepted = estimate.accept(answer_at(5200, 0), 1600);
    accepted.expect(&rt, "possible");
    let accepted = estimate.accept(answer_at(6000, 0), 1600);
    check_that(&rt, accepted == impossible, "impossible again");
    check_at(&rt, &estimate, 1600, Some((5197, 5603)));
}

#[test]
fn both_errors_widen_a_span(rt: HostRuntime) {
    let answer = answer_at(5200, 128_000);
    let unit: i128 = 16_384_000_000;
    let width = scaled_width(&answer, &FAIR, 1600);
    check_that(&rt, width == 1_626_400_798 * unit, "its width");
    let later = scaled_width(&answer, &FAIR, 1_000_001_600);
    check_that(&rt, later == 8_001_626_400_798 * unit, "a second later");
    let mut estimate = Estimate::new(rt.alloc(), FAIR);
    estimate.accept(answer, 1600).expect(&rt, "possible");
    check_at(&rt, &estimate, 1600, Some((5197, 5604)));
    let later = Some((999_005_696, 1_001_006_104));
    check_at(&rt, &estimate, 1_000_001_600, later);
}

#[test]
fn a_smaller_error_wins_later(rt: HostRuntime) {
    let mut estimate = Estimate::new(rt.alloc(), EXACT);
    let accepted = estimate.accept(answer_at(5200, 256_000), 1600);
    accepted.expect(&rt, "possible");
    let second = Answer {
        t1: 2000,
        t2: 6000,
        t3: 6200,
        t4: 4000,
        precision: 1,
        error: 0,
    };
    estimate.accept(second, 4000).expect(&rt, "possible");
    check_at(&rt, &estimate, 701_300, Some((704_197, 706_004)));
    check_at(&rt, &estimate, 701_301, Some((703_498, 705_304)));
    check_that(&rt, estimate.kept() == 2, "both are kept");
    let greatest = estimate.greatest_error();
    check_that(&rt, greatest == 256_000, "the greatest error");
}

/// The narrowest of all answers, of equals the first.
fn plain_narrowest<'a>(answers: &'a [Answer], local: &Local, reading: u64) -> Option<&'a Answer>
    requires { reading < 5000000000 }
{
    let mut narrowest: Option<&'a Answer> = None;
    for answer in answers {
        let is_narrower = match narrowest {
            None => true,
            Some(found) => {
                scaled_width(answer, local, reading) < scaled_width(found, local, reading)
            }
        };
        if is_narrower {
            narrowest = Some(answer);
        }
    }
    narrowest
}

/// The estimate that keeps every answer.
fn plain_at(answers: &[Answer], local: &Local, reading: u64) -> Option<Span>
    requires { reading < 5000000000 }
{
    let narrowest = plain_narrowest(answers, local, reading)?;
    if scaled_width(narrowest, local, reading) >= 0 {
        Some(span(narrowest, local, reading))
    } else {
        None
    }
}

fn check_same(rt: &impl Abort, estimate: &Estimate, plain: &[Answer], local: &Local, reading: u64)
    requires range { reading < 5000000000 }
    requires floor { estimate.now.floor ≤ reading }
{
    let expected = plain_at(plain, local, reading);
    assert!(rt; estimate.at(reading) == expected, "at {reading}");
    let (found, narrowest) = (
        estimate.answer(reading),
        plain_narrowest(plain, local, reading),
    );
    assert!(rt; found == narrowest.copied(), "the answer at {reading}");
}

/// Accepts a drawn answer in both, and compares them then and later.
fn compare(
    rt: &impl Abort,
    estimate: &mut Estimate,
    plain: &mut Vec<Answer>,
    local: &Local,
    answer: Answer,
    landed: u64,
)
    requires range { landed < 1000000 }
    requires floor { estimate.old.floor ≤ landed }
    ensures next { estimate.new.floor ≤ landed }
{
    let is_possible = scaled_width(&answer, local, landed) >= 0;
    let accepted = estimate.accept(answer, landed);
    check_that(rt, accepted.is_ok() == is_possible, "an answer");
    if is_possible {
        plain.push(answer).expect(rt, "memory");
    }
    for later in [0, 700, 300_000, 4_000_000_000] {
        check_same(rt, estimate, plain, local, landed + later);
    }
}

/// An answer of one of four errors, which took one of eight times under way, and was late at the television or not.
fn drawn(word: u64, asked: u64) -> Answer
    requires { asked < 1000000 }
{
    let t1 = asked;
    let t2 = asked + 5000 + word % 4;
    Answer {
        t1,
        t2,
        t3: t2 + 100 + (word / 4 % 5) * 60,
        t4: t1 + 300 + (word / 20 % 8) * 20,
        precision: 1 + word / 160 % 2,
        error: [0, 64_000, 128_000, 256_000][(word / 320 % 4) as usize],
    }
}

#[test]
fn keeps_what_a_plain_scan_finds(rt: HostRuntime) {
    for local in [EXACT, FAIR] {
        compare_all(&rt, rt.alloc(), local);
    }
}

fn compare_all(rt: &impl Abort, alloc: Global, local: Local) {
    let mut estimate = Estimate::new(alloc, local);
    let mut plain = Vec::new(alloc);
    let mut word = 1;
    for i in 1..200 {
        word = next_word(word);
        let answer = drawn(word >> 33, i * STEP);
        let landed = i * STEP + 500;
        compare(rt, &mut estimate, &mut plain, &local, answer, landed);
    }
    let (kept, all) = (estimate.kept(), plain.len());
    check_that(rt, kept == 4 && all > 100, "what is kept");
}
