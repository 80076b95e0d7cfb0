use crate::common::{check, check_that};
use css_num::{
    Rate, Span, Text, Timeline, Timelines, ceil_div, fits, floor_div, image, signed_number,
    whole_number,
};
use std::process::Abort;

const LIMIT: i128 = 1 << 126;

/// A number, a divisor, and the quotient rounded down and rounded up.
type Quotient = (i128, i128, (i128, i128));

const QUOTIENTS: [Quotient; 5] = [
    (7, 2, (3, 4)),
    (-7, 2, (-4, -3)),
    (-6, 3, (-2, -2)),
    (LIMIT - 1, 2, (LIMIT / 2 - 1, LIMIT / 2)),
    (1 - LIMIT, 2, (-(LIMIT / 2), 1 - LIMIT / 2)),
];

fn check_quotient(rt: &impl Abort, row: &Quotient) {
    let (a, b, expected) = *row;
    assert!(rt; 0 < b && a.unsigned_abs() < 1 << 126);
    let found = (floor_div(a, b), ceil_div(a, b));
    assert!(rt; found == expected, "{a} / {b}: {found:?}");
}

#[test]
fn quotients_are_rounded_down_and_up(rt: HostRuntime) {
    for row in &QUOTIENTS {
        check_quotient(&rt, row);
    }
}

/// A span, the numerator and the divisor of a factor, and the image, where the products fit.
type Image = ((i128, i128), i128, i128, Option<(i128, i128)>);

/// The rows with 90,000 go from half a second to 22,222 ns more, at 90,000 ticks a second, and at speeds of 1 and -2.
#[rattlefmt::skip]
const IMAGES: [Image; 9] = [
    ((1, 5), -2, 3, Some((-4, -1))),
    ((1, 5), 0, 3, Some((0, 0))),
    ((500_000_000, 500_022_222), 90_000, 1_000_000_000, Some((45_000, 45_001))),
    ((500_000_000, 500_022_222), -180_000, 1_000_000_000, Some((-90_004, -90_000))),
    ((1 - LIMIT, LIMIT - 1), -1, 1, Some((1 - LIMIT, LIMIT - 1))),
    ((0, LIMIT), -1, 1, None),
    ((-LIMIT, 0), 1, 1, None),
    ((0, 1 << 100), 1 << 100, 1, None),
    ((i128::MIN, 0), -1, 1, None),
];

fn image_of(rt: &impl Abort, row: &Image) -> Option<(i128, i128)> {
    let ((lo, hi), num, den, _) = *row;
    assert!(rt; lo <= hi && 0 < den);
    let span = Span { lo, hi };
    if fits(span, num) {
        let image = image(span, num, den);
        Some((image.lo, image.hi))
    } else {
        None
    }
}

#[test]
fn an_image_has_the_lesser_end_first(rt: HostRuntime) {
    for row in &IMAGES {
        assert!(rt; image_of(&rt, row) == row.3, "{row:?}");
    }
}

/// A word, the limit of the number, and the number that it spells.
#[rattlefmt::skip]
const WHOLE: [(&str, u64, Option<u64>); 9] = [
    ("0", 1, Some(0)),
    ("18446744073709551614", u64::MAX, Some(18_446_744_073_709_551_614)),
    ("0", 0, None),
    ("100", 100, None),
    ("18446744073709551616", u64::MAX, None),
    ("", 100, None),
    ("07", 100, None),
    ("+7", 100, None),
    ("7 ", 100, None),
];

#[test]
fn whole_numbers_have_one_spelling_each(rt: HostRuntime) {
    for (word, below, expected) in &WHOLE {
        let found = whole_number(word.as_bytes(), *below);
        assert!(rt; found == *expected, "{word}");
    }
}

/// A word, how many digits it may have, and the number that it spells.
const SIGNED: [(&str, u32, Option<i64>); 9] = [
    ("0", 1, Some(0)),
    ("-999", 3, Some(-999)),
    ("999999999999999999", 18, Some(999_999_999_999_999_999)),
    ("-1000000000000000000", 18, None),
    ("1000", 3, None),
    ("-", 3, None),
    ("-0", 3, None),
    ("-07", 3, None),
    ("--7", 3, None),
];

#[test]
fn signed_numbers_have_one_spelling_each(rt: HostRuntime) {
    for (word, digits, expected) in &SIGNED {
        assert!(rt; *digits <= 18);
        let found = signed_number(word.as_bytes(), *digits);
        assert!(rt; found == *expected, "{word}");
    }
}

#[test]
fn bytes_and_numbers_are_appended(rt: HostRuntime) {
    let mut text = Text::of(rt.alloc(), b"from ").expect(&rt, "memory");
    text.push_number(i128::MIN).expect(&rt, "memory");
    text.push(b" to \xff").expect(&rt, "memory");
    text.push_number(i128::MAX).expect(&rt, "memory");
    let expected =
        b"from -170141183460469231731687303715884105728 to \xff170141183460469231731687303715884105727";
    check(&rt, text.bytes(), expected);
    let copy = text.clone().expect(&rt, "memory");
    check(&rt, copy.bytes(), expected);
}

#[test]
fn a_list_of_timelines_is_copied(rt: HostRuntime) {
    let mut list = Vec::new(rt.alloc());
    let timeline = Timeline {
        selector: Text::of(rt.alloc(), b"urn:dvb:css:timeline:pts").expect(&rt, "memory"),
        rate: Rate::of(1, 90_000).expect(&rt, "a rate"),
    };
    list.push(timeline).expect(&rt, "memory");
    let timelines = Timelines::of(list);
    let copy = timelines.clone().expect(&rt, "memory");
    check_that(&rt, copy == timelines && copy.list().len() == 1, "a copy");
}
