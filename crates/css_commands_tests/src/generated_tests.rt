//! What `generate` and `survey` write.

use crate::running::{BLANK, Case, Row, check_rows, check_run, over};
use std::alloc::Global;
use std::process::Abort;

/// What each generated schedule of one companion begins with.
const OPENING: &str = "css-schedule 1 follow 12800 -20 12800 1000 urn:dvb:css:timeline:pts dvb://
0 1000000000 1000000000 programme dvb://1.2.3
0 1000000000 1000000000 timeline 1 urn:dvb:css:timeline:pts 1 90000 0
0 1000000000 1000000000 change 1000000000 1
0 1000000000 1000000000 open cii
0 1000000000 1000000000 text cii
0 1000000000 1000000000 open ts
0 1000000000 1000000000 up ts
0 1000000000 1000000000 text ts
";

/// Command lines, and what each of them writes. The surveys come from another program.
#[rattlefmt::skip]
const COMMANDS: [(&str, &str); 5] = [
    ("generate --seed 1 --lines 9", OPENING),
    ("survey --seed 1 --lines 9", "lines 9 prints 0 intervals 0 widest 0\n"),
    ("survey --lines=2000 --seed=1", "lines 2000 prints 512 intervals 508 widest 2295\n"),
    ("survey --seed 1 --lines 2000 --companions 2", "lines 2000 prints 438 intervals 0 widest 0\n"),
    ("survey --seed 1 --lines 100 --companions 16", "lines 100 prints 0 intervals 0 widest 0\n"),
];

fn check_commands(rt: &impl Abort, alloc: Global, rows: &[(&'static str, &str)]) {
    for (words, printed) in rows {
        let case = over(words, "");
        check_run(rt, alloc, words, &case, "done", printed.as_bytes());
    }
}

#[test]
fn schedules_are_generated_and_surveyed(rt: HostRuntime) {
    check_commands(&rt, rt.alloc(), &COMMANDS);
}

const GENERATE: &str = "generate --seed 1 --lines 9";

const SURVEY: &str = "survey --seed 1 --lines 9";

/// Each line is written at once.
#[rattlefmt::skip]
const FAILING: &[Row] = &[
    ("the first line", Case { writes: &[1], words: GENERATE, ..BLANK }, "write fault", b""),
    ("a part of a line", Case { writes: &[3], piece: 5, words: GENERATE, ..BLANK }, "write fault", b"css-schedu"),
    ("the survey", Case { writes: &[1], words: SURVEY, ..BLANK }, "write fault", b""),
    ("a part of the survey", Case { writes: &[3], piece: 5, words: SURVEY, ..BLANK }, "write fault", b"lines 9 pr"),
];

#[test]
fn a_failed_write_ends_both_commands(rt: HostRuntime) {
    check_rows(&rt, rt.alloc(), FAILING);
}
