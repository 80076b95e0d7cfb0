//! Replays of schedules.

use crate::replay_tables::{AT_ONCE, FIRST, REFUSED, REFUSED_SECOND, SECOND, SHORT, TICKS};
use crate::running::{Case, EXCHANGE, NO_MEMORY, Row, check_rows, check_run, over};
use std::alloc::Global;
use std::process::Abort;

/// How the replay of a row ends, its schedule, and what is printed.
fn replay_of(row: &str) -> Option<(&str, &str, &str)> {
    let (head, rest) = row.split_once('\n')?;
    let (_, ended) = head.split_once("=> ")?;
    let (schedule, printed) = rest.split_once("> ").unwrap_or((rest, ""));
    Some((ended, schedule, printed))
}

fn check_replay(rt: &impl Abort, alloc: Global, row: &str) {
    let (ended, schedule, printed) = replay_of(row).expect(rt, "a row without its parts");
    let case = over("replay", schedule);
    check_run(rt, alloc, row, &case, ended, printed.as_bytes());
}

fn check_table(rt: &impl Abort, alloc: Global, table: &str) {
    let mut text = table.to_string(alloc).expect(rt, NO_MEMORY);
    for (short, whole) in &SHORT {
        text = text.replace(alloc, short, whole).expect(rt, NO_MEMORY);
    }
    for row in text.split("# ").skip(1) {
        check_replay(rt, alloc, row);
    }
}

#[test]
fn each_schedule_prints_what_it_should(rt: HostRuntime) {
    for table in [FIRST, TICKS, SECOND, REFUSED, REFUSED_SECOND, AT_ONCE] {
        check_table(&rt, rt.alloc(), table);
    }
}

/// Devices that fail in mid-stream.
#[rattlefmt::skip]
const FAILING: &[Row] = &[
    ("the first read", Case { reads: &[1], piece: 1, ..EXCHANGE }, "read fault", b""),
    ("the read of the last line feed", Case { reads: &[188], piece: 1, ..EXCHANGE }, "read fault", b""),
    ("the read at the end", Case { reads: &[189], piece: 1, ..EXCHANGE }, "read fault", b"6 wall 5197 5603 at 5400\n"),
    ("the first write", Case { writes: &[1], piece: 1, ..EXCHANGE }, "write fault", b""),
    ("the third write", Case { writes: &[3], piece: 1, ..EXCHANGE }, "write fault", b"6 "),
    ("the second write of 10 bytes", Case { writes: &[2], piece: 10, ..EXCHANGE }, "write fault", b"6 wall 519"),
];

#[test]
fn what_was_read_before_a_fault_is_carried_out(rt: HostRuntime) {
    check_rows(&rt, rt.alloc(), FAILING);
}

const COMPANION: &str = "css-schedule 2 plain 0 -30 1\ncompanion 1 0 0 urn:x -\n";

/// What a schedule begins with, a line and the length to which it is filled up, the rest of the schedule, and how a
/// replay of it ends.
#[rattlefmt::skip]
const LONG: [(&str, &str, usize, &str, &str); 6] = [
    ("", "css-schedule 1 plain 0 -30 0 0 ", 4094, " -\n", "done"),
    ("", "css-schedule 1 plain 0 -30 0 0 ", 4095, " -\n", "line 1: long"),
    ("css-schedule 2 plain 0 -30 1\n", "companion 1 0 0 urn:x ", 4352, "\n", "done"),
    ("css-schedule 2 plain 0 -30 1\n", "companion 1 0 0 urn:x ", 4353, "\n", "line 2: long"),
    (COMPANION, "0 0 0 0 programme dvb://", 4352, "\n0 0 1 0 open cii\n", "done"),
    (COMPANION, "0 0 0 0 programme dvb://", 4353, "\n0 0 1 0 open cii\n", "line 3: long"),
];

/// Each line is filled up to its length.
fn check_long(rt: &impl Abort, alloc: Global, rows: &[(&str, &str, usize, &str, &str)]) {
    for (before, line, length, after, ended) in rows {
        let filling = "a".repeat(alloc, length.saturating_sub(line.len()));
        let filling = filling.expect(rt, NO_MEMORY);
        let text = format!(in alloc; "{before}{line}{filling}{after}").expect(rt, NO_MEMORY);
        check_run(rt, alloc, line, &over("replay", &text), ended, b"");
    }
}

#[test]
fn a_line_has_at_most_so_many_bytes(rt: HostRuntime) {
    check_long(&rt, rt.alloc(), &LONG);
}
