use self::Call::{Available, Clock, Convert, Root, Set, Value};
use crate::common::check_that;
use css_clock::{Correlated, Root as RootClock, Tick};
use css_num::{Rate, Span};
use css_tree::ClockFault::{
    self, Beyond, Deep, Full, IsRoot, NoCommon, NoSuch, Stopped, Unavailable,
};
use css_tree::Tree;
use std::process::Abort;

/// A call of a forest.
#[derive(Clone, Copy, Debug)]
enum Call {
    /// A root of this tick rate.
    Root((u32, u32)),
    /// A clock on this one, with its tick rate, its speed and its correlation.
    Clock(u32, (u32, u32), i32, (i64, i64)),
    /// A clock's speed, and its correlation.
    Set(u32, i32, (i64, i64)),
    /// Whether a clock is available.
    Available(u32, bool),
    /// A clock's ticks at a value of its root.
    Value(u32, i64),
    /// A span of one clock's ticks as ticks of another.
    Convert(u32, u32, (i64, i64)),
}

/// What a call answers: the ends of a span, a number twice, or twice 0.
pub(crate) type Answer = Result<(i128, i128), ClockFault>;

const DONE: Answer = Ok((0, 0));

pub(crate) fn rate(rt: &impl Abort, parts: (u32, u32)) -> Rate {
    Rate::of(parts.0, parts.1).expect(rt, "no rate")
}

fn twice(number: i64) -> (i128, i128) {
    (i128::from(number), i128::from(number))
}

fn add(
    rt: &impl Abort,
    tree: &mut Tree,
    parent: u32,
    own: (u32, u32),
    speed: i32,
    (parent_ticks, child_ticks): (i64, i64),
) -> Answer {
    assert!(rt; -64 <= speed && speed <= 64);
    let id = tree.add(parent, rate(rt, own), speed, parent_ticks, child_ticks)?;
    Ok(twice(i64::from(id)))
}

fn set(
    rt: &impl Abort,
    tree: &mut Tree,
    id: u32,
    speed: i32,
    (parent_ticks, child_ticks): (i64, i64),
) -> Answer {
    assert!(rt; -64 <= speed && speed <= 64);
    tree.set(id, speed, parent_ticks, child_ticks)?;
    DONE
}

pub(crate) fn convert(
    rt: &impl Abort,
    tree: &Tree,
    from: u32,
    to: u32,
    (lo, hi): (i64, i64),
) -> Answer {
    assert!(rt; lo <= hi);
    let span = Span {
        lo: i128::from(lo),
        hi: i128::from(hi),
    };
    let answer = tree.convert(from, to, span)?;
    Ok((answer.lo, answer.hi))
}

fn answer(rt: &impl Abort, tree: &mut Tree, call: Call) -> Answer {
    match call {
        Root(own) => Ok(twice(i64::from(tree.add_root(rate(rt, own))?))),
        Clock(parent, own, speed, ticks) => add(rt, tree, parent, own, speed, ticks),
        Set(id, speed, ticks) => set(rt, tree, id, speed, ticks),
        Available(id, available) => {
            tree.set_available(id, available)?;
            DONE
        }
        Value(id, root) => Ok(twice(tree.value(id, root)?)),
        Convert(from, to, span) => convert(rt, tree, from, to, span),
    }
}

/// Makes the calls of a table, each of which is to give its answer.
fn check(rt: &impl Abort, tree: &mut Tree, rows: &[(Call, Answer)]) {
    for (call, expected) in rows {
        let told = answer(rt, tree, *call);
        assert!(rt;
            told == *expected,
            "{call:?}: {told:?} and not {expected:?}"
        );
    }
}

/// A root of nanoseconds, on it a clock of 90,000 ticks a second, and on that one of 25 frames a second.
#[rattlefmt::skip]
const FRAMES: [(Call, Answer); 22] = [
    (Root((1, 1_000_000_000)), Ok((0, 0))),
    (Clock(0, (1, 90_000), 1, (0, 0)), Ok((1, 1))),
    (Clock(1, (1, 25), 1, (0, 100)), Ok((2, 2))),
    (Value(2, 39_999_999), Ok((100, 100))),
    (Value(2, 40_000_000), Ok((101, 101))),
    (Convert(2, 1, (125, 125)), Ok((90_000, 93_600))),
    (Convert(2, 0, (125, 125)), Ok((1_000_000_000, 1_040_011_112))),
    (Set(1, -2, (1_000_000_000, 50)), DONE),
    (Value(1, 1_000_000_001), Ok((49, 49))),
    (Value(2, 1_000_000_000), Ok((100, 100))),
    (Available(1, false), DONE),
    (Available(0, false), DONE),
    (Value(2, 0), Err(Unavailable(1))),
    (Available(1, true), DONE),
    (Value(2, 0), Err(Unavailable(0))),
    (Set(0, 1, (0, 0)), Err(IsRoot(0))),
    (Set(3, 1, (0, 0)), Err(NoSuch(3))),
    (Available(3, true), Err(NoSuch(3))),
    (Clock(3, (1, 1), 1, (0, 0)), Err(NoSuch(3))),
    (Value(9, 0), Err(NoSuch(9))),
    (Root((1, 1)), Ok((3, 3))),
    (Convert(3, 0, (0, 0)), Err(NoCommon)),
];

/// A root with clocks on three sides: 1, on it 2, on that 7; 3, on it 4, on that 5, on that 6.
const BRANCHES: [(Call, Answer); 16] = [
    (Root((1, 1_000_000_000)), Ok((0, 0))),
    (Clock(0, (1, 90_000), 1, (1000, 0)), Ok((1, 1))),
    (Clock(1, (1, 25), -2, (0, 100)), Ok((2, 2))),
    (Clock(0, (1, 48_000), 64, (0, -5)), Ok((3, 3))),
    (Clock(3, (1, 1000), 1, (0, 0)), Ok((4, 4))),
    (Clock(4, (1, 30), -1, (48, 7)), Ok((5, 5))),
    (Clock(5, (1001, 24_000), 0, (0, 77)), Ok((6, 6))),
    (Clock(2, (1, 50), 64, (3, -9)), Ok((7, 7))),
    (Convert(2, 2, (-1, 1)), Ok((-1, 1))),
    (Convert(2, 5, (-3, 3)), Ok((-3947, -3678))),
    (Convert(5, 2, (7, 9)), Ok((99, 100))),
    (Convert(5, 0, (-1, 0)), Ok((3_876_627, 4_939_454))),
    (Convert(3, 1, (-64, 64)), Ok((-2, 1))),
    (Convert(7, 4, (-9, 40)), Ok((121_599, 124_160))),
    (Convert(7, 6, (0, 0)), Ok((77, 77))),
    (Convert(6, 0, (0, 0)), Err(Stopped(6))),
];

/// The greatest part of a rate.
const MOST: u32 = 1_000_000_000;

const QUINTILLION: i128 = 1_000_000_000_000_000_000;

/// Clocks at the ends of the range of a rate, and a product that is too large.
#[rattlefmt::skip]
const RATES: [(Call, Answer); 9] = [
    (Root((MOST, 1)), Ok((0, 0))),
    (Clock(0, (1, MOST), 1, (-2, 3)), Ok((1, 1))),
    (Convert(0, 1, (-5, 6)), Ok((3 - 3 * QUINTILLION, 3 + 8 * QUINTILLION))),
    (Convert(1, 0, (-5, 6)), Ok((-3, -1))),
    (Clock(0, (1, MOST), 64, (0, 0)), Ok((2, 2))),
    (Value(2, 1 << 61), Err(Beyond(2))),
    (Value(2, i64::MIN), Err(Beyond(2))),
    (Convert(0, 2, (0, 1 << 61)), Err(Beyond(2))),
    (Convert(0, 2, (-(1 << 61), 0)), Err(Beyond(2))),
];

/// The parent's ticks of such a clock are out of range.
const LATE: (i64, i64) = (i64::MAX, -i64::MAX);

/// The ticks of such a clock are out of range itself.
const EARLY: (i64, i64) = (-i64::MAX, i64::MAX);

/// A root 0 with the clocks 1, 2 on that, and 3, 4 on that; and a root 5. Each fault of a conversion is told, and
/// mended before the next.
const FAULTS: [(Call, Answer); 36] = [
    (Root((1, 1)), Ok((0, 0))),
    (Clock(0, (1, 1), 0, (0, 0)), Ok((1, 1))),
    (Clock(1, (1, 1), 0, (0, 0)), Ok((2, 2))),
    (Clock(0, (1, 1), 1, EARLY), Ok((3, 3))),
    (Clock(3, (1, 1), 1, EARLY), Ok((4, 4))),
    (Root((1, 1)), Ok((5, 5))),
    (Available(0, false), DONE),
    (Available(1, false), DONE),
    (Available(2, false), DONE),
    (Available(3, false), DONE),
    (Available(4, false), DONE),
    (Convert(9, 8, (0, 0)), Err(NoSuch(9))),
    (Convert(2, 8, (0, 0)), Err(NoSuch(8))),
    (Convert(2, 5, (0, 0)), Err(NoCommon)),
    (Convert(2, 4, (0, 0)), Err(Unavailable(2))),
    (Available(2, true), DONE),
    (Convert(2, 4, (0, 0)), Err(Unavailable(1))),
    (Available(1, true), DONE),
    (Convert(2, 4, (0, 0)), Err(Unavailable(0))),
    (Available(0, true), DONE),
    (Convert(2, 4, (0, 0)), Err(Unavailable(4))),
    (Available(4, true), DONE),
    (Convert(2, 4, (0, 0)), Err(Unavailable(3))),
    (Value(4, 0), Err(Unavailable(3))),
    (Available(3, true), DONE),
    (Value(4, 0), Err(Beyond(3))),
    (Convert(2, 4, (0, 0)), Err(Stopped(2))),
    (Set(2, 1, LATE), DONE),
    (Convert(2, 4, (0, 0)), Err(Beyond(1))),
    (Set(2, 1, (0, 0)), DONE),
    (Convert(2, 4, (0, 0)), Err(Stopped(1))),
    (Set(1, 1, LATE), DONE),
    (Convert(2, 4, (0, 0)), Err(Beyond(0))),
    (Set(1, 1, (0, 0)), DONE),
    (Convert(2, 4, (0, 0)), Err(Beyond(3))),
    (Set(3, 1, (0, 0)), DONE),
];

#[test]
fn calls_of_forests_are_answered(rt: HostRuntime) {
    check(&rt, &mut Tree::new(rt.alloc()), &FRAMES);
    check(&rt, &mut Tree::new(rt.alloc()), &BRANCHES);
    check(&rt, &mut Tree::new(rt.alloc()), &RATES);
    check(&rt, &mut Tree::new(rt.alloc()), &FAULTS);
}

#[test]
fn a_forest_has_a_greatest_depth_and_size(rt: HostRuntime) {
    let mut tree = Tree::new(rt.alloc());
    let root = Root((1, 1));
    check(&rt, &mut tree, &[(root, DONE)]);
    for parent in 0..16 {
        let added = answer(&rt, &mut tree, Clock(parent, (1, 1), 1, (0, 0)));
        check_that(&rt, added.is_ok(), "a clock");
    }
    let deeper = Clock(16, (1, 1), 1, (0, 0));
    check(&rt, &mut tree, &[(deeper, Err(Deep))]);
    for _ in 17..4096 {
        check_that(&rt, answer(&rt, &mut tree, root).is_ok(), "a root more");
    }
    // That there are too many is told before that it is too deep.
    check(&rt, &mut tree, &[(root, Err(Full)), (deeper, Err(Full))]);
}

/// A timeline of 90,000 ticks a second that reads 900,000 ten seconds after the wall clock's 0.
fn timeline(rt: &impl Abort, speed: i32) -> Correlated<RootClock> {
    assert!(rt; -64 <= speed && speed <= 64);
    Correlated {
        parent: RootClock {
            rate: rate(rt, (1, 1_000_000_000)),
        },
        rate: rate(rt, (1, 90_000)),
        speed,
        parent_ticks: 10_000_000_000,
        child_ticks: 900_000,
    }
}

/// The ends of the span of what a clock reads, where its products fit.
fn span_of<T: Tick>(rt: &impl Abort, clock: &T, lo: i128, hi: i128) -> Option<(i128, i128)> {
    assert!(rt; lo <= hi);
    let root = Span { lo, hi };
    if clock.holds(root) {
        let span = clock.span(root);
        Some((span.lo, span.hi))
    } else {
        None
    }
}

/// A speed, a span of nanoseconds, and the ticks.
#[rattlefmt::skip]
const TICKS: [(i32, i128, i128, Option<(i128, i128)>); 5] = [
    (1, 10_500_000_000, 10_500_022_222, Some((945_000, 945_001))),
    (-2, 10_500_000_000, 10_500_022_222, Some((809_996, 810_000))),
    (0, 10_500_000_000, 10_500_022_222, Some((900_000, 900_000))),
    (64, 0, 1 << 104, None),
    (64, -(1 << 104), 0, None),
];

#[test]
fn a_span_has_the_lesser_tick_first(rt: HostRuntime) {
    for (speed, lo, hi, expected) in &TICKS {
        let found = span_of(&rt, &timeline(&rt, *speed), *lo, *hi);
        assert!(rt; found == *expected, "at speed {speed}");
    }
}

#[test]
fn clocks_stand_on_clocks(rt: HostRuntime) {
    let frames = rate(&rt, (1, 25));
    let clock = Correlated {
        parent: timeline(&rt, -1),
        rate: frames,
        speed: -1,
        parent_ticks: 0,
        child_ticks: 100,
    };
    let at = span_of(&rt, &clock, 10_000_000_000, 10_000_000_000);
    check_that(&rt, at == Some((-150, -150)), "a clock");
    check_that(&rt, clock.rate() == frames, "its rate");
    let root = RootClock { rate: frames };
    let last = (1 << 126) - 1;
    let widest = span_of(&rt, &root, 0, last);
    check_that(&rt, widest == Some((0, last)), "the widest span");
    let wider = span_of(&rt, &root, 0, last + 1);
    check_that(&rt, wider.is_none(), "too wide a span");
}
