//! What is read of sheets, and what followers say of reports.

/// How many cues a sheet has, and its meter; or the number of the first line that is refused.
pub type Read = Result<(usize, Option<u32>), u64>;

const REFUSED: Read = Err(1);

const ONE_CUE: Read = Ok((1, None));

#[rattlefmt::skip]
pub const SHEETS: [(&[u8], Read); 17] = [
    (b"", Ok((0, None))),
    (b"cue 945000 start\nmeter 1\n", Ok((1, Some(1)))),
    (b"meter 1000000\ncue 1 a\ncue 1 a", Ok((2, Some(1_000_000)))),
    (b"cue 999999999999999999 a", ONE_CUE),
    (b"cue -999999999999999999 a", ONE_CUE),
    (b"cue -1000000000000000000 a", REFUSED),
    (b"meter 0", REFUSED),
    (b"meter 1000001", REFUSED),
    (b"meter 18446744073709551617", REFUSED),
    (b"meter 1\ncue 5 a\nmeter 1", Err(3)),
    (b"cue 1", REFUSED),
    (b"cue\t1 a", REFUSED),
    (b"cue 1 a\r\n", REFUSED),
    (b"Cue 1 a", REFUSED),
    (b"\n", REFUSED),
    (b"cue 1 a\n\n", Err(2)),
    (b"cue 1 a\ncue 2 b\ncue c", Err(3)),
];

/// Parts of sheets, each so many times in a row.
#[rattlefmt::skip]
pub const LONG_SHEETS: [(&[(&str, usize)], Read); 5] = [
    (&[("cue 1 a\n", 1001)], Err(1001)),
    (&[("cue 1 a\n", 999), ("meter 2\n", 1), ("cue 1 a", 1)], Ok((1000, Some(2)))),
    (&[("cue 1 a\n", 1000), ("meter 2\n", 1), ("cue 1 a", 1)], Err(1002)),
    (&[("cue 1 ", 1), ("a", 4090), ("\ncue 1 ", 1), ("b", 4090), ("\n", 1)], Ok((2, None))),
    (&[("cue 1 a\ncue 1 ", 1), ("a", 4091), ("\n", 1)], Err(2)),
];

/// A sheet, unless the one before stays, an interval or a cause, what is said of it, and whether the follower goes on.
pub type Step<'a> = (&'a str, Option<(i128, i128)>, &'a str, bool);

#[rattlefmt::skip]
pub const CUES: &[&[Step]] = &[
    // A cause says nothing. A cue is possible from just above the lower end to the upper end.
    &[
        ("cue 5 a", None, "", true),
        ("", Some((3, 4)), "", true),
        ("", Some((4, 5)), "cue a possible\n", true),
        ("", Some((4, 6)), "", true),
        ("", None, "", true),
        ("", Some((5, 9)), "cue a passed\n", false),
        ("", Some((4, 6)), "", false),
    ],
    // The order is that of the sheet. One that was passed is never possible any more.
    &[
        ("cue 7 late\ncue -3 early\ncue 7 late\n", Some((-4, -3)), "cue early possible\n", true),
        ("", Some((-3, 7)), "cue late possible\ncue early passed\ncue late possible\n", true),
        ("", Some((-9, 8)), "", true),
        ("", Some((7, 8)), "cue late passed\ncue late passed\n", false),
        ("", Some((-9, 8)), "", false),
    ],
    // What was heard counts for each later sheet.
    &[
        ("cue 5 a\ncue 9 b", Some((5, 6)), "cue a passed\n", true),
        ("cue 5 c\ncue 6 d\ncue 7 e", Some((5, 7)), "cue e possible\n", true),
        ("cue 5 c\ncue 6 d\ncue 7 e", Some((7, 7)), "cue d passed\ncue e passed\n", false),
    ],
    &[
        (
            "cue 999999999999999999 z", Some((999_999_999_999_999_998, 999_999_999_999_999_999)),
            "cue z possible\n", true,
        ),
        ("", Some((999_999_999_999_999_999, i128::MAX)), "cue z passed\n", false),
    ],
    // Without cues it is done at once.
    &[("", None, "", false), ("", Some((1, 1)), "", false)],
];

#[rattlefmt::skip]
pub const METERS: &[&[Step]] = &[
    // A report may have any two numbers.
    &[
        ("meter 3", Some((9, 4)), "width -5\n", true),
        ("", None, "", true),
        ("", Some((i128::MIN, i128::MAX)), "width 340282366920938463463374607431768211455\n", true),
        ("", Some((i128::MAX, i128::MIN)), "width -340282366920938463463374607431768211455\n", false),
        ("", Some((5, 6)), "", false),
    ],
    &[("", None, "", false), ("", Some((1, 1)), "", false)],
];
