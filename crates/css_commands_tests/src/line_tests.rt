//! What `agree`, `audit` and `migrate` print, and what they refuse.

use crate::live_tables::RECORD;
use crate::running::{BLANK, Case, EXCHANGE, NO_MEMORY, Row, check_rows, check_run, over};
use std::alloc::Global;
use std::process::Abort;

/// The input of a run, how it ends, and what it prints.
type Lines = (&'static str, &'static str, &'static str);

/// Runs a command over what was begun and each row.
fn check_lines(rt: &impl Abort, alloc: Global, words: &'static str, begun: &str, rows: &[Lines]) {
    for (rest, ended, printed) in rows {
        let input = format!(in alloc; "{begun}{rest}").expect(rt, NO_MEMORY);
        let case = over(words, &input);
        check_run(rt, alloc, rest, &case, ended, printed.as_bytes());
    }
}

/// Answers after their header, which agree, disagree or are impossible, and readings that fall by 1 ns.
#[rattlefmt::skip]
const ANSWERS: &[Lines] = &[
    ("answer 1000 5000 5200 1600 -30 0\nanswer 2000 5700 5900 2400 -30 0\nat 2400\n", "done", "4 agree 5997 6103\n"),
    ("answer 1000 5000 5200 1600 -30 0\nanswer 2000 7000 7200 2400 -30 0\nat 2400\n", "done", "4 disagree 7197 6403\n"),
    ("answer 1000 5000 6000 1600 -30 0\nat 1600\n", "done", "2 impossible\n3 none NoAnswer\n"),
    ("answer 1600 5000 5200 1000 -30 0", "done", "2 impossible\n"),
    ("at 0\nat 0\nat 4294967295999999999\n", "done", "2 none NoAnswer\n3 none NoAnswer\n4 none NoAnswer\n"),
    ("at 5\nat 4\n", "line 3: broken with line 2 by 1", "2 none NoAnswer\n"),
    ("at 5\nanswer 1 2 3 4 -30 0\n", "line 3: broken with line 2 by 1", "2 none NoAnswer\n"),
    ("answer 1000 5000 6000 1600 -30 0\nat 1599\n", "line 3: broken with line 2 by 1", "2 impossible\n"),
    ("answer 1000 5000 5200 1600 -30 0\nat 1599\nat x\n", "line 3: broken with line 2 by 1", ""),
];

/// Which two answers are named. In the second row three answers have one lower end at 2401, and two of these declare
/// another error. Two have one upper end. Of each the first is named.
#[rattlefmt::skip]
const PAIRS: &[Lines] = &[
    ("answer 1000 5000 5200 1600 -30 0\nat 1600\nanswer 2000 15700 15900 2400 -30 0\nat 2400\n", "done",
        "3 agree 5197 5603\n5 disagree 15897 6403\n5 between 4 2\n"),
    ("answer 1000 5000 5200 1600 -30 0\nanswer 1000 5000 5200 1600 -30 0\nanswer 2000 15700 15900 2400 -30 1\n\
      answer 2000 15700 15900 2400 -30 0\nanswer 2000 15700 15900 2400 -30 1\nat 2400\nat 2401\nat 2403\n", "done",
        "7 disagree 15897 6403\n7 between 4 2\n8 disagree 15898 6404\n8 between 4 2\n9 disagree 15900 6406\n\
         9 between 5 2\n"),
    ("answer 1000 5000 6000 1600 -30 0\nat 1600\nat 1599\n", "line 4: broken with line 3 by 1",
        "2 impossible\n3 none NoAnswer\n"),
    ("answer 1000 5000 5200 1600 -30 0\nanswer 2000 15700 15900 2400 -30 0\nat 2400\nat x\n", "line 5: form",
        "4 disagree 15897 6403\n4 between 3 2\n"),
];

/// Lines outside the grammar of answers.
#[rattlefmt::skip]
const NO_ANSWERS: &[Lines] = &[
    ("css-agree 1 0 0\n", "line 2: form", ""),
    ("at\n", "line 2: form", ""),
    ("at 4294967296000000000\n", "line 2: form", ""),
    ("At 1\n", "line 2: form", ""),
    ("answer 1 2 3 4 -30\n", "line 2: form", ""),
    ("answer 1 2 3 4 -30 0 0\n", "line 2: form", ""),
    ("answer 4294967296000000000 2 3 4 -30 0\n", "line 2: form", ""),
    ("answer 1 4294967296000000000 3 4 -30 0\n", "line 2: form", ""),
    ("answer 1 2 3 4 -129 0\n", "line 2: form", ""),
    ("answer 1 2 3 4 -30 25600001\n", "line 2: form", ""),
    ("answer  1 2 3 4 -30 0\n", "line 2: form", ""),
];

/// Headers.
#[rattlefmt::skip]
const HEADERS: &[Lines] = &[
    ("css-agree 1 2560000 1000000000", "done", ""),
    ("", "line 1: form", ""),
    ("\n", "line 1: form", ""),
    ("css-agree 2 0 0\n", "line 1: form", ""),
    ("css-agree 1 0\n", "line 1: form", ""),
    ("css-agree 1 2560001 0\n", "line 1: form", ""),
    ("css-agree 1 0 1000000001\n", "line 1: form", ""),
];

#[test]
fn answers_agree_or_are_refused(rt: HostRuntime) {
    let begun = "css-agree 1 0 0\n";
    check_lines(&rt, rt.alloc(), "agree", begun, ANSWERS);
    check_lines(&rt, rt.alloc(), "agree", begun, NO_ANSWERS);
    check_lines(&rt, rt.alloc(), "agree", "", HEADERS);
}

#[test]
fn two_answers_are_named(rt: HostRuntime) {
    let begun = "css-agree 1 0 0\n";
    check_lines(&rt, rt.alloc(), "agree --pairs", begun, PAIRS);
    check_lines(&rt, rt.alloc(), "agree --pairs", begun, NO_ANSWERS);
    check_lines(&rt, rt.alloc(), "agree --pairs", "", HEADERS);
}

/// The last line of the record.
const LAST: &str = "report 2 ticks 900000 900000\n";

/// What stands in its place.
#[rattlefmt::skip]
const REPORTS: &[Lines] = &[
    (LAST, "done", "reports 2\n"),
    ("", "done", "reports 1\n"),
    ("report 2 ticks 900000 900001\n", "line 11: wrong report", ""),
    ("report 3 ticks 900000 900000\n", "line 11: wrong report", ""),
    ("turn 20\nreport 2 none NoAnswer\n", "line 12: wrong report", ""),
    ("turn\n", "line 11: form", ""),
    ("turn 19\n", "line 11: broken with line 10 by 1", ""),
    ("slept\nreport 2 none NoAnswer\n", "line 12: absent", ""),
    ("cii 7b\n", "cii text 2: not json", ""),
    ("cii 7b22776355726c223a227564703a2f2f3132372e302e302e313a36363739227d\n", "moved wcUrl", ""),
];

/// Whole records.
#[rattlefmt::skip]
const RECORDS: &[Lines] = &[
    ("", "line 1: form", ""),
    ("css-record 2 0 0 urn:x -\n", "line 1: form", ""),
    ("css-record 1 0 0 urn:x -\n", "done", "reports 0\n"),
];

/// A line of bytes that aren't UTF-8.
#[rattlefmt::skip]
const NO_TEXT: Case<'static> = Case { words: "audit", input: b"css-record 1 0 0 urn:x -\nturn \xff\n", ..BLANK };

#[test]
fn reports_are_right_or_refused(rt: HostRuntime) {
    let record = str::from_utf8(RECORD).unwrap_or("");
    let begun = record.strip_suffix(LAST).expect(&rt, "a record");
    check_lines(&rt, rt.alloc(), "audit", begun, REPORTS);
    check_lines(&rt, rt.alloc(), "audit", "", RECORDS);
    check_run(&rt, rt.alloc(), "bytes", &NO_TEXT, "line 2: form", b"");
}

/// The exchange as a schedule of version 2.
const SECOND: &[u8] = b"css-schedule 2 plain 0 -30 1
companion 1 0 0 urn:dvb:css:timeline:pts -
1000 4800 1 1000 ask 1000
1200 5000 1 1200 take 1 5000
1400 5200 1 1400 give 1 5200
1600 5400 1 1600 land 1 1600
1600 5400 1 1600 wall 1600
";

#[rattlefmt::skip]
const EXCHANGES: &[Row] = &[
    ("one exchange", Case { words: "migrate", ..EXCHANGE }, "done", SECOND),
    ("one exchange byte by byte", Case { piece: 1, words: "migrate", ..EXCHANGE }, "done", SECOND),
    ("the source fails", Case { reads: &[1], words: "migrate", ..EXCHANGE }, "read fault", b""),
    ("the sink fails", Case { writes: &[1], words: "migrate", ..EXCHANGE }, "write fault", b""),
];

/// A header of version 2 is none of version 1. What the lines before a refused one become is written.
#[rattlefmt::skip]
const NO_FIRST: &[Lines] = &[
    ("", "line 1: form", ""),
    ("1000 4800 1000 ask 1000\n", "line 1: form", ""),
    ("css-schedule 2 plain 0 -30 1\ncompanion 1 0 0 urn:dvb:css:timeline:pts -\n", "line 1: form", ""),
    ("css-schedule 1 follow 0 -30 0 0 s t\n1 2 3 wall 4\n5 6 7 walk 8\n9 9 9 wall 9\n", "line 3: form",
        "css-schedule 2 follow 0 -30 1\ncompanion 1 0 0 s t\n1 2 1 3 wall 4\n"),
];

#[test]
fn a_schedule_becomes_one_of_version_2(rt: HostRuntime) {
    check_rows(&rt, rt.alloc(), EXCHANGES);
    check_lines(&rt, rt.alloc(), "migrate", "", NO_FIRST);
}
