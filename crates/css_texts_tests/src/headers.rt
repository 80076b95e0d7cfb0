//! Headers of schedules and the lines of their companions. Schedules that are generated have a printed header.

use crate::common::{check, parts, shown};
use css_schedule::{read_companion, read_header};
use std::alloc::Global;
use std::process::Abort;

/// Headers, and what each is read as. Words are told by their bytes.
const HEADERS: &str = "\
css-schedule 1 plain 25600000 -128 2560000 1000000000 !~ -0 = Ok(One(Header { follow: false, tv_error: 25600000, \
tv_precision: -128, companions: Companions { list: [CompanionLine { local: Local { error: 2560000, \
precision: 1000000000 }, selector: Text { bytes: [33, 126] }, stem: Text { bytes: [45, 48] } }] } }))
css-schedule 1 follow 12800 30 0 0 - - = Ok(One(Header { follow: true, tv_error: 12800, tv_precision: 30, \
companions: Companions { list: [CompanionLine { local: Local { error: 0, precision: 0 }, \
selector: Text { bytes: [45] }, stem: Text { bytes: [] } }] } }))
css-schedule 2 plain 0 -30 1 = Ok(Two { header: Header { follow: false, tv_error: 0, tv_precision: -30, \
companions: Companions { list: [] } }, companions: 1 })
css-schedule 2 follow 25600000 -128 16 = Ok(Two { header: Header { follow: true, tv_error: 25600000, \
tv_precision: -128, companions: Companions { list: [] } }, companions: 16 })
companion 2 2560000 1000000000 !~ -0 = Ok(CompanionLine { local: Local { error: 2560000, precision: 1000000000 }, \
selector: Text { bytes: [33, 126] }, stem: Text { bytes: [45, 48] } })";

/// What the line of companion 2, or else a header, is read as.
fn told(rt: &impl Abort, alloc: Global, is_companion: bool, line: &str) -> String {
    if is_companion {
        shown(rt, alloc, &read_companion(alloc, line.as_bytes(), 2))
    } else {
        shown(rt, alloc, &read_header(alloc, line.as_bytes()))
    }
}

fn check_line(rt: &impl Abort, alloc: Global, is_companion: bool, line: &str, expected: &str) {
    let told = told(rt, alloc, is_companion, line);
    check(rt, line, &told, expected);
}

#[test]
fn headers_are_read(rt: HostRuntime) {
    for row in HEADERS.lines() {
        let (line, expected) = parts(&rt, row);
        let is_companion = line.starts_with("companion");
        check_line(&rt, rt.alloc(), is_companion, line, expected);
    }
}

/// What is no header after its first word, a bar between two: words, spaces, versions, numbers, and bytes of words.
const NO_HEADER: &str = "\
|1|1 follow|1 plain 0 -30 0 0 urn:x|1 plain 0 -30 0 0 urn:x - -|1 0 -30 0 0 urn:x -| 1 plain 0 -30 0 0 urn:x -\
|1 plain 0 -30 0 0 urn:x - |1 plain 0 -30 0 0 urn:x |1 plain 0 -30 0 0  -|1\tplain 0 -30 0 0 urn:x -\
|1 plain 0 -30 0 0 urn:x -\r|1 plain 0 -30 0 0 urn:x -\n|0 plain 0 -30 0 0 urn:x -|01 plain 0 -30 0 0 urn:x -\
|3 plain 0 -30 1|1 Plain 0 -30 0 0 urn:x -|1 follows 0 -30 0 0 urn:x -|1 - 0 -30 0 0 urn:x -\
|1 plain 25600001 -30 0 0 urn:x -|1 plain 00 -30 0 0 urn:x -|1 plain +0 -30 0 0 urn:x -|1 plain -0 -30 0 0 urn:x -\
|1 plain 0 -129 0 0 urn:x -|1 plain 0 31 0 0 urn:x -|1 plain 0 -030 0 0 urn:x -|1 plain 0 +30 0 0 urn:x -\
|1 plain 0 -0 0 0 urn:x -|1 plain 0 - 0 0 urn:x -|1 plain 0 -1000 0 0 urn:x -|1 plain 0 -30 2560001 0 urn:x -\
|1 plain 0 -30 01 0 urn:x -|1 plain 0 -30 -1 0 urn:x -|1 plain 0 -30 0 1000000001 urn:x -|1 plain 0 -30 0 +1 urn:x -\
|1 plain 0 -30 0 0 urn:\u{7f} -|1 plain 0 -30 0 0 urn:\0 -|1 plain 0 -30 0 0 urn:\u{1f} -\
|1 plain 0 -30 0 0 urn:x \u{e9}|2|02 plain 0 -30 1|2 plain 0 -30 0|2 plain 0 -30 17|2 plain 0 -30 01|2 plain 0 -30 -1\
|2 plain 0 -30 +1|2 plain 0 -30 4294967297|2 plain 0 -30|2 plain 0 -30 |2 plain 0 -30 1 1|2 plain 0 -30 1 \
|2 plain 0 31 1|2 plain 25600001 -30 1|2 loud 0 -30 1|2 plain 0 -30 0 0 urn:x -";

/// Other first words.
const NO_SCHEDULE: &str = "\
| |css-schedule| css-schedule 1 plain 0 -30 0 0 urn:x -|css-schedules 1 plain 0 -30 0 0 urn:x -\
|CSS-schedule 1 plain 0 -30 0 0 urn:x -|\u{feff}css-schedule 1 plain 0 -30 0 0 urn:x -";

/// What isn't the line of companion 2: another number, a word too few or too many, a bad number, another line.
const NO_COMPANION: &str = "\
|companion 1 0 0 urn:x -|companion 3 0 0 urn:x -|companion 0 0 0 urn:x -|companion 02 0 0 urn:x -\
|companion +2 0 0 urn:x -|companion 17 0 0 urn:x -|companion 0 0 urn:x -|companion 2 0 0 urn:x\
|companion 2 0 0 urn:x - -|companion 2 0 0 urn:x - |companion  2 0 0 urn:x -| companion 2 0 0 urn:x -\
|companion 2 2560001 0 urn:x -|companion 2 0 1000000001 urn:x -|companion 2 0 -1 urn:x -|companion 2 0 0 \u{7f} -\
|companions 2 0 0 urn:x -|Companion 2 0 0 urn:x -|css-schedule 2 plain 0 -30 2|1000 4800 2 1000 ask 1000";

fn check_no_headers(rt: &impl Abort, alloc: Global, first: &str, headers: &str) {
    for header in headers.split('|') {
        let text = format!(in alloc; "{first}{header}").expect(rt, "memory");
        check_line(rt, alloc, false, &text, "Err(Form)");
    }
}

#[test]
fn what_is_no_header_is_refused(rt: HostRuntime) {
    check_no_headers(&rt, rt.alloc(), "css-schedule ", NO_HEADER);
    check_no_headers(&rt, rt.alloc(), "", NO_SCHEDULE);
    for line in NO_COMPANION.split('|') {
        check_line(&rt, rt.alloc(), true, line, "Err(Form)");
    }
}
