//! Lines of schedules and of scripts, read and printed.

use crate::common::{check, parts, shown, words};
use css_num::Text;
use css_printed::print_line;
use css_schedule::{Line, LineFault, read_line, read_script};
use std::alloc::Global;
use std::process::Abort;

/// Lines of version 1, and what each is read as: true time, the wall clock, the companion and its clock, and the verb.
/// Words are told by their bytes.
const FIRST: &str = "\
1000 4294967295999999999 0 ask 0 = 1000 4294967295999999999 1 0 Ask { reading: 0 }
4294967295999999999 0 1 take 1 5000 = 4294967295999999999 0 1 1 Take { request: 1, reading: 5000 }
0 1 4294967295999999999 give 4294967295 52 = 0 1 1 4294967295999999999 Give { take: 4294967295, reading: 52 }
5 6 7 land 10 1600 = 5 6 1 7 Land { datagram: 10, reading: 1600 }
5 6 7 wall 4294967295999999999 = 5 6 1 7 Wall { reading: 4294967295999999999 }
5 6 7 print 12 = 5 6 1 7 Print { reading: 12 }
5 6 7 programme !~ = 5 6 1 7 Programme { content_id: Text { bytes: [33, 126] } }
5 6 7 timeline 3 - 1000 1000000 999999999999999999 = 5 6 1 7 Timeline { programme: 3, selector: Text { bytes: [45] }, \
rate: Rate { units_per_tick: 1000, units_per_second: 1000000 }, base: 999999999999999999 }
5 6 7 timeline 4294967295 a 1000000000 1 -999999999999999999 = 5 6 1 7 Timeline { programme: 4294967295, \
selector: Text { bytes: [97] }, rate: Rate { units_per_tick: 1000000000, units_per_second: 1 }, \
base: -999999999999999999 }
5 6 7 change 9 1 = 5 6 1 7 Viewer { reading: 9, command: Change(1) }
5 6 7 change 9 4294967295 = 5 6 1 7 Viewer { reading: 9, command: Change(4294967295) }
5 6 7 speed 9 0 = 5 6 1 7 Viewer { reading: 9, command: Speed(0) }
5 6 7 speed 9 999 = 5 6 1 7 Viewer { reading: 9, command: Speed(999) }
5 6 7 speed 9 -999 = 5 6 1 7 Viewer { reading: 9, command: Speed(-999) }
5 6 7 seek 9 999999999999999999 = 5 6 1 7 Viewer { reading: 9, command: Seek(999999999999999999) }
5 6 7 seek 9 -999999999999999999 = 5 6 1 7 Viewer { reading: 9, command: Seek(-999999999999999999) }
5 6 7 open cii = 5 6 1 7 Opening { kind: Cii }
5 6 7 open ts = 5 6 1 7 Opening { kind: Ts }
5 6 7 text cii = 5 6 1 7 Bring { kind: Cii }
5 6 7 text ts = 5 6 1 7 Bring { kind: Ts }
5 6 7 up ts = 5 6 1 7 Up
5 6 7 present 1 2 -3 4 = 5 6 1 7 Present { earliest: At { content: 1, wall: 2 }, latest: At { content: -3, wall: 4 } }
5 6 7 present -999999999999999999 minusinfinity 999999999999999999 9223372036854775807 = 5 6 1 7 Present { \
earliest: MinusInfinity { content: -999999999999999999 }, \
latest: At { content: 999999999999999999, wall: 9223372036854775807 } }
5 6 7 present 0 9223372036854775807 0 plusinfinity = 5 6 1 7 Present { \
earliest: At { content: 0, wall: 9223372036854775807 }, latest: PlusInfinity { content: 0 } }
5 6 7 close cii = 5 6 1 7 Close { kind: Cii }
5 6 7 close ts = 5 6 1 7 Close { kind: Ts }";

/// Lines of version 2 with 16 companions, and what each is read as.
const SECOND: &str = "\
5 6 1 7 ask 7 = 5 6 1 7 Ask { reading: 7 }
5 6 16 7 sleep = 5 6 16 7 Sleep
5 6 2 0 close ts = 5 6 2 0 Close { kind: Ts }
5 6 0 0 take 1 9 = 5 6 0 0 Take { request: 1, reading: 9 }
5 6 2 9 take 1 9 = 5 6 2 9 Take { request: 1, reading: 9 }
5 6 0 0 give 1 9 = 5 6 0 0 Give { take: 1, reading: 9 }
5 6 0 0 seek 9 -1000 = 5 6 0 0 Viewer { reading: 9, command: Seek(-1000) }
5 6 0 0 programme - = 5 6 0 0 Programme { content_id: Text { bytes: [45] } }";

/// Lines of a script, and what each is read as: when it is due, and the verb.
const SCRIPT: &str = "\
0 programme !~ = 0 Programme { content_id: Text { bytes: [33, 126] } }
4294967295999999999 timeline 3 - 1000 1000000 0 = 4294967295999999999 Timeline { programme: 3, \
selector: Text { bytes: [45] }, rate: Rate { units_per_tick: 1000, units_per_second: 1000000 }, base: 0 }
9 change 4294967295 = 9 Viewer { reading: 0, command: Change(4294967295) }
9 speed -999 = 9 Viewer { reading: 0, command: Speed(-999) }
9 seek 999999999999999999 = 9 Viewer { reading: 0, command: Seek(999999999999999999) }";

/// Reads a line of version 1, or of version 2 with so many companions.
fn read(alloc: Global, companions: Option<u32>, bytes: &[u8]) -> Result<Line, LineFault> {
    match companions {
        None => read_line(alloc, bytes, 1, 1),
        Some(companions) => read_line(alloc, bytes, 2, companions),
    }
}

/// What a line is read as, or its fault.
fn told(rt: &impl Abort, alloc: Global, companions: Option<u32>, text: &str) -> String {
    match read(alloc, companions, text.as_bytes()) {
        Ok(line) => {
            let (t, w, who, l) = (line.t, line.w, line.who, line.l);
            format!(in alloc; "{t} {w} {who} {l} {:?}", line.verb).expect(rt, "memory")
        }
        Err(fault) => shown(rt, alloc, &fault),
    }
}

fn check_read(rt: &impl Abort, alloc: Global, companions: Option<u32>, rows: &str) {
    for row in rows.lines() {
        let (text, expected) = parts(rt, row);
        check(rt, text, &told(rt, alloc, companions, text), expected);
    }
}

fn script_told(rt: &impl Abort, alloc: Global, text: &str) -> String {
    match read_script(alloc, text.as_bytes()) {
        Ok(script) => format!(in alloc; "{} {:?}", script.due, script.verb).expect(rt, "memory"),
        Err(fault) => shown(rt, alloc, &fault),
    }
}

#[test]
fn lines_are_read(rt: HostRuntime) {
    check_read(&rt, rt.alloc(), None, FIRST);
    check_read(&rt, rt.alloc(), Some(16), SECOND);
    for row in SCRIPT.lines() {
        let (text, expected) = parts(&rt, row);
        check(&rt, text, &script_told(&rt, rt.alloc(), text), expected);
    }
}

/// Lines of version 1, and how they are printed in version 2.
const PRINTED: &str = "\
1000 4800 1000 ask 1000 = 1000 4800 1 1000 ask 1000
1200 5000 1200 take 1 5000 = 1200 5000 1 1200 take 1 5000
1 2 3 programme dvb://1.2.3 = 1 2 1 3 programme dvb://1.2.3
1 2 3 timeline 4294967295 - 1000000000 1 -999999999999999999 \
= 1 2 1 3 timeline 4294967295 - 1000000000 1 -999999999999999999
1 2 3 speed 4800 -64 = 1 2 1 3 speed 4800 -64
1 2 3 present -1 minusinfinity -2 9223372036854775807 = 1 2 1 3 present -1 minusinfinity -2 9223372036854775807
1 2 3 present 9 10040000000 9 plusinfinity = 1 2 1 3 present 9 10040000000 9 plusinfinity
1 2 3 close ts = 1 2 1 3 close ts";

/// A line of version 1, printed in version 1 and in version 2.
fn printed(rt: &impl Abort, alloc: Global, text: &str) -> (Text, Text) {
    let line = read_line(alloc, text.as_bytes(), 1, 1).expect(rt, "a line");
    let first = print_line(alloc, &line, 1).expect(rt, "memory");
    (first, print_line(alloc, &line, 2).expect(rt, "memory"))
}

#[test]
fn lines_are_printed(rt: HostRuntime) {
    for row in PRINTED.lines() {
        let (text, expected) = parts(&rt, row);
        let (first, second) = printed(&rt, rt.alloc(), text);
        check(&rt, text, words(&first), text);
        check(&rt, text, words(&second), expected);
    }
}

/// What is no line of version 1 after its clocks, with a bar between two: a word too few or too many for the verb, and
/// numbers and words out of their ranges.
const NO_VERBS: &str = "\
|print|print 1000 1|print 4294967296000000000|print -1|prints 1000|programme|programme |programme dvb://1.2.3 1\
|programme dvb://\u{e9}|timeline 1 urn:x 1 90000|timeline 1 urn:x 1 90000 0 0|timeline urn:x 1 90000 0\
|timeline 0 urn:x 1 90000 0|timeline 4294967296 urn:x 1 90000 0|timeline 01 urn:x 1 90000 0|timeline 1  1 90000 0\
|timeline 1 urn:x 0 90000 0|timeline 1 urn:x 1000000001 90000 0|timeline 1 urn:x 1 0 0|timeline 1 urn:x 1 1000000001 0\
|timeline 1 urn:x 1 4294967296 0|timeline 1 urn:x 1 90000 1000000000000000000\
|timeline 1 urn:x 1 90000 -1000000000000000000|timeline 1 urn:x 1 90000 -0|timeline 1 urn:x 1 90000 +1|change 4800\
|change 4800 1 1|change 4294967296000000000 1|change 4800 0|change 4800 4294967296|speed 4800|speed 4800 0 0\
|speed 4294967296000000000 0|speed 4800 1000|speed 4800 -1000|speed 4800 -0|speed 4800 1.0|seek 4800|seek 4800 0 0\
|seek 4294967296000000000 0|seek 4800 1000000000000000000|seek 4800 -1000000000000000000|seek 4800 0001|open\
|open cii ts|open wc|open CII|open tss|Open cii|text|text ts ts|text wc|up|up ts ts|up cii|present 0 0 0\
|present 0 0 0 0 0|present minusinfinity 0 plusinfinity|present 1000000000000000000 0 0 0\
|present -1000000000000000000 0 0 0|present 0 9223372036854775808 0 0|present 0 -1 0 0|present 0 plusinfinity 0 0\
|present 0 infinity 0 0|present minusinfinity 0 0 0|present 0 0 1000000000000000000 0\
|present 0 0 -1000000000000000000 0|present 0 0 0 9223372036854775808|present 0 0 0 -1|present 0 0 0 minusinfinity\
|present 0 0 plusinfinity 0|present 0 00 0 0|close|close ts 1|close t|ask|ask 1000 1000|ask 4294967296000000000\
|ask 01000|ask +1000|ask -1000|ask -0|ask 1e3|ask R|ask |ask  1000|ask 1000 |ask\t1000|ask 1000\r|ask 1000\n\
|ask 1000\0|ask 1000\u{7f}|1000 ask|as 1000|asks 1000|Ask 1000|w\u{e4}ll 1000|wall|wall 1 1000\
|wall 4294967296000000000|take 1|take 1 5000 1|take 0 5000|take 01 5000|take +1 5000|take 4294967296 5000\
|take 1 4294967296000000000|take 1 05000|give 1|give 1 5000 1|give 0 5000|give 01 5000|give 4294967296 5000\
|give 1 4294967296000000000|land 1|land 1 1600 1|land 0 1600|land 01 1600|land 4294967296 1600\
|land 1 4294967296000000000|sleep|7 ask 7|0 take 1 9";

/// What is no line of version 1: spaces, clocks, and another line.
const NO_FIRST: &str = "\
| |1000|1000 4800|1000 4800 1000| 1000 4800 1000 ask 1000|1000  4800 1000 ask 1000|1000 4800  1000 ask 1000\
|1000\t4800 1000 ask 1000|\u{feff}1000 4800 1000 ask 1000|01000 4800 1000 ask 1000|1000 00 1000 ask 1000\
|1000 4800 +1000 ask 1000|-0 4800 1000 ask 1000|1000 4800 -1000 ask 1000|1e3 4800 1000 ask 1000\
|1000 4800.0 1000 ask 1000|1000 4800 0x3e8 ask 1000|4294967296000000000 4800 1000 ask 1000\
|1000 4294967296000000000 1000 ask 1000|1000 4800 4294967296000000000 ask 1000\
|18446744073709551616 4800 1000 ask 1000|1000 340282366920938463463374607431768211456 1000 ask 1000\
|css-schedule 1 plain 0 -30 0 0 urn:x -";

/// What is no line of version 2 with two companions.
const NO_SECOND: &str = "\
|5 6 7 ask 7|5 6 3 7 ask 7|5 6 3 7 take 1 9|5 6 02 7 ask 7|5 6 -1 7 ask 7|5 6 4294967297 7 ask 7|5 6 0 7 take 1 9\
|5 6 0 1 programme dvb://1.2.3|5 6 0 00 take 1 9|5 6 0 0 ask 0|5 6 0 0 land 1 0|5 6 0 0 wall 0|5 6 0 0 print 0\
|5 6 0 0 open cii|5 6 0 0 text ts|5 6 0 0 up ts|5 6 0 0 present 0 0 0 0|5 6 0 0 close ts|5 6 0 0 sleep|5 6 1 7 sleep 7\
|5 6 1 7 sleep |5 6 1 7 Sleep|5 6 1 sleep|companion 1 0 0 urn:x -|css-schedule 2 plain 0 -30 2";

/// What is no line of a script: a verb that isn't the television's own, and operands that aren't those of its verb.
const NO_SCRIPT: &str = "\
|0 ask 0|0 take 1 0|0 give 1 0|0 land 1 0|0 wall 0|0 print 0|0 open cii|0 text ts|0 up ts|0 present 0 0 0 0|0 close ts\
|0 change 0 1|0 speed 0 1|0 seek 0 1|0 0 0 programme dvb://1.2.3|0 change|0 change 0|0 change 4294967296|0 speed\
|0 speed 1000|0 speed -1000|0 seek|0 seek 1000000000000000000|0 seek 1 1|0 programme|0 programme dvb://1.2.3 1\
|0 timeline 1 urn:x 1 90000|0 timeline 1 urn:x 1 90000 0 0|0 timeline 1 urn:x 0 90000 0|4294967296000000000 speed 1\
|-1 speed 1|00 speed 1|speed 1|0 Speed 1|0  speed 1| 0 speed 1|0 speed 1 |0";

fn check_refused(
    rt: &impl Abort,
    alloc: Global,
    companions: Option<u32>,
    clocks: &str,
    lines: &str,
) {
    for line in lines.split('|') {
        let text = format!(in alloc; "{clocks}{line}").expect(rt, "memory");
        check(rt, &text, &told(rt, alloc, companions, &text), "Form");
    }
}

#[test]
fn what_is_no_line_is_refused(rt: HostRuntime) {
    check_refused(&rt, rt.alloc(), None, "5 6 7 ", NO_VERBS);
    check_refused(&rt, rt.alloc(), None, "", NO_FIRST);
    check_refused(&rt, rt.alloc(), Some(2), "", NO_SECOND);
    for text in NO_SCRIPT.split('|') {
        check(&rt, text, &script_told(&rt, rt.alloc(), text), "Form");
    }
}

/// Bytes that aren't UTF-8.
const NO_WORDS: [&[u8]; 3] = [b"1\xa02 3 ask 4", b"1 2 3 ask 4\xff", b"1 2 3 w\xe4ll 4"];

#[test]
fn other_bytes_are_refused(rt: HostRuntime) {
    for bytes in NO_WORDS {
        let read = read(rt.alloc(), None, bytes);
        assert!(rt; matches!(read, Err(LineFault::Form)), "{bytes:?}");
    }
}
