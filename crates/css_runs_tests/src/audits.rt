//! Audits of records: each refusal is a row.
use crate::companion_rows::RECORD;
use crate::rows::{HEADER, lines_of, text_of};
use crate::runs::NO_MEMORY;
use css_audit::{
    Audit, AuditFault, Auditing, LineFault, print_header, print_line, read_header, read_line,
};
use css_lines::{Lines, Refusal, Stop, drive};
use css_memory::{MemorySink, MemorySource};
use css_outside::{Sink, Source};
use std::alloc::{AllocError, Global};
use std::process::Abort;

fn stop_words(alloc: Global, stop: &Stop<AuditFault>) -> Result<String, AllocError> {
    let Stop::BadLine { line, why } = stop else {
        return format!(in alloc; "{stop:?}");
    };
    match why {
        Refusal::Long => format!(in alloc; "line {line}: long"),
        Refusal::Refused(AuditFault::WrongReport { right }) => {
            format!(in alloc; "line {line}: wrong report, {right:?}")
        }
        Refusal::Refused(fault) => format!(in alloc; "line {line}: {fault}"),
    }
}

// Over any source and any sink: the proof is small where it knows nothing of what they keep.
fn audited<S: Source, K: Sink>(
    alloc: Global,
    source: &mut S,
    sink: &mut K,
) -> Result<(), Stop<AuditFault>> {
    let mut reader = Auditing::new(alloc);
    let ended = drive(alloc, source, sink, &mut reader);
    drop(reader);
    ended
}

fn end_words(
    alloc: Global,
    ended: &Result<(), Stop<AuditFault>>,
    printed: &[u8],
) -> Result<Vec<u8>, AllocError> {
    match ended {
        Ok(()) => Vec::from_slice(alloc, printed),
        Err(stop) => Ok(stop_words(alloc, stop)?.into_bytes()),
    }
}

/// What an audit of these bytes tells: what it prints, or which line is refused and why.
pub fn words(rt: &impl Abort, alloc: Global, bytes: &[u8]) -> Vec<u8> {
    let mut source = MemorySource::new(alloc, bytes, 4096, &[]).expect(rt, NO_MEMORY);
    let mut sink = MemorySink::new(alloc, 100, &[]).expect(rt, NO_MEMORY);
    let ended = audited(alloc, &mut source, &mut sink);
    end_words(alloc, &ended, sink.bytes()).expect(rt, NO_MEMORY)
}

/// Audits these bytes.
fn assert_audit(rt: &impl Abort, alloc: Global, bytes: &[u8], wanted: &str) {
    let told = words(rt, alloc, bytes);
    let (record, text) = (text_of(bytes), text_of(&told));
    assert!(rt; text == wanted, "{text} and not {wanted} of\n{record}");
}

/// Audits lines that are told in short.
fn assert_short(rt: &impl Abort, alloc: Global, short: &str, wanted: &str) {
    let lines = lines_of(alloc, short, usize::MAX).expect(rt, NO_MEMORY);
    assert_audit(rt, alloc, lines.as_bytes(), wanted);
}

/// Records in short, and what is told.
#[rattlefmt::skip]
const RECORDS: &[(&str, &str)] = &[
    ("HEADER", "reports 0\n"),
    ("css-record 1 2560000 1000000000 urn:x dvb://1", "reports 0\n"),
    (RECORD, "reports 2\n"),
    // Readings after a sleep, and without one.
    ("HEADER; slept; turn 0; report 1 none NoAnswer", "reports 1\n"),
    ("HEADER; turn 7; slept; turn 8", "reports 0\n"),
    ("HEADER; turn 7; slept; turn 7", "line 4: broken with line 2 by 1"),
    ("HEADER; turn 7; slept; slept; ask 5", "line 5: broken with line 2 by 3"),
    ("HEADER; ask 7; slept; slept; ask 8; slept; ask 9", "reports 0\n"),
    ("HEADER; turn 4294967295999999999; slept; turn 4294967295999999999", "line 4: broken with line 2 by 1"),
    // A sleep forgets the answer, and without one there is none.
    ("HEADER; turn 0; ADDRESSES; turn 5; ask 6; LANDING; CONTROL; turn 10; report 1 ticks 900000 900000; \
        slept; turn 20; report 2 none NoAnswer", "reports 2\n"),
    ("HEADER; turn 0; ADDRESSES; turn 5; ask 6; CONTROL; turn 10; report 1 ticks 900000 900000",
        "line 8: wrong report, None(NoAnswer)"),
    // A report stands after a turn.
    ("HEADER; turn 1; report 1 none NoAnswer", "reports 1\n"),
    ("HEADER; turn 1; slept; report 1 none NoAnswer", "line 4: absent"),
    ("HEADER; turn 1; ask 1; report 1 none NoAnswer", "line 4: absent"),
    ("HEADER; turn 1; closed ts; report 1 none NoAnswer", "line 4: absent"),
    // Texts of the first session.
    ("HEADER; cii 7b", "line 2: cii text 1: not json"),
    ("HEADER; ADDRESSES; cii -", "line 3: cii text 2: not json"),
    ("HEADER; ADDRESSES; cii 5b5d", "line 3: cii text 2: not object"),
    ("HEADER; ADDRESSES; MOVED", "line 3: moved wcUrl"),
    ("HEADER; ADDRESSES; closed cii; ADDRESSES; turn 5; report 1 none NoAnswer", "reports 1\n"),
    ("HEADER; ADDRESSES; closed cii; MOVED", "line 4: moved wcUrl"),
];

#[test]
fn records_are_right_or_refused(rt: HostRuntime) {
    for (short, wanted) in RECORDS {
        assert_short(&rt, rt.alloc(), short, wanted);
    }
}

const WRONG: &str = "line 11: wrong report, Ticks { lo: 900000, hi: 900000 }";

/// A line of the record, another line in its place, and what is told.
#[rattlefmt::skip]
const CHANGED: &[(&str, &str, &str)] = &[
    ("report 2 ticks 900000 900000", "report 2 ticks 900000 900001", WRONG),
    ("report 2 ticks 900000 900000", "report 2 ticks 899999 900000", WRONG),
    ("report 2 ticks 900000 900000", "report 3 ticks 900000 900000", WRONG),
    ("report 2 ticks 900000 900000", "report 2 ticks 900000 900000 ", WRONG),
    ("report 2 ticks 900000 900000", "report 2 none NoAnswer", WRONG),
    ("report 2 ticks 900000 900000", "report ", WRONG),
    ("LANDING", "closed cii", "line 9: wrong report, None(NoAnswer)"),
    ("CONTROL", "closed cii", "line 9: wrong report, None(NoTimestamp)"),
    ("HEADER", "css-record 1 0 0 urn:other -", "line 9: wrong report, None(NoRate)"),
    ("turn 20", "turn 9", "line 10: broken with line 8 by 1"),
    ("turn 20", "ask 0", "line 10: broken with line 8 by 10"),
    ("turn 20", "land 3 -", "line 10: broken with line 8 by 7"),
    ("turn 0", "report 1 none NoAnswer", "line 2: absent"),
    ("turn 20", "report 2 ticks 900000 900000", "line 10: absent"),
];

#[test]
fn a_changed_line_is_found(rt: HostRuntime) {
    for (line, other, wanted) in CHANGED {
        let short = RECORD
            .replace(rt.alloc(), *line, other)
            .expect(&rt, NO_MEMORY);
        assert_short(&rt, rt.alloc(), &short, wanted);
    }
}

/// How many bytes fewer than the record has, and what is told.
#[rattlefmt::skip]
const CUT: &[(usize, &str)] =
    &[(1, "reports 2\n"), (2, WRONG), (22, WRONG), (23, "line 11: form"), (29, "reports 1\n")];

#[test]
fn a_record_may_be_cut_in_its_last_line(rt: HostRuntime) {
    let whole = lines_of(rt.alloc(), RECORD, usize::MAX).expect(&rt, NO_MEMORY);
    for (fewer, wanted) in CUT {
        let length = whole.len().saturating_sub(*fewer);
        assert_audit(&rt, rt.alloc(), &whole.as_bytes()[..length], wanted);
    }
}

/// A record of one report.
const SHORT: &str =
    "HEADER; turn 5; ask 6; LANDING; CONTROL; turn 10; report 1 ticks 900000 900000";

/// Its bytes whose last bit may be turned, and it is right again. Found by hand and by a plain computation: digits of
/// the header's clock, the stem, two readings of turns and that of the landing, the response's precision, reserved byte
/// and declared error, nanoseconds that leave the span within one tick, a speed of 0, and the control timestamp's wall
/// clock.
#[rattlefmt::skip]
const RIGHT_AGAIN: [usize; 24] = [
    13, 15, 42, 49, 62, 68, 69, 70, 71, 73, 74, 75, 76, 77, 78, 79, 110, 111, 124, 125, 127, 233, 271, 283,
];

#[test]
fn a_turned_bit_is_found_unless_the_record_is_right_again(rt: HostRuntime) {
    let record = lines_of(rt.alloc(), SHORT, usize::MAX).expect(&rt, NO_MEMORY);
    for index in 0..record.len() {
        let mut bytes = Vec::from_slice(rt.alloc(), record.as_bytes()).expect(&rt, NO_MEMORY);
        if let Some(byte) = bytes.get_mut(index) {
            *byte ^= 1;
        }
        let is_right = words(&rt, rt.alloc(), &bytes).starts_with(b"reports ");
        assert!(rt; is_right == RIGHT_AGAIN.contains(&index), "byte {index}");
    }
}

/// Has these lines audited one by one, and then a wrong one.
fn assert_lines(rt: &impl Abort, audit: &mut Audit, lines: &str) {
    for line in lines.lines().skip(1) {
        audit.line(line.as_bytes()).expect(rt, "a line");
    }
    assert_eq!(rt; audit.reports(), 2);
    let (earlier, excess) = match audit.line(b"turn 19") {
        Err(AuditFault::Broken { earlier, excess }) => (earlier, excess),
        _ => (0, 0),
    };
    assert!(rt; earlier == 10 && excess == 1);
}

#[test]
fn an_audit_goes_line_by_line(rt: HostRuntime) {
    let lines = lines_of(rt.alloc(), RECORD, usize::MAX).expect(&rt, NO_MEMORY);
    let mut audit = Audit::new(rt.alloc(), HEADER.as_bytes()).expect(&rt, "a header");
    assert_lines(&rt, &mut audit, &lines);
}

/// Lines that are none of a record, with a `|` before each.
const NO_LINES: &str = "||slept |Slept|turn|turn |turn 01|turn +1|turn -1|turn 1 2|turn  1| turn 1|\
    turn 4294967296000000000|ask|ask 1 |land 1|land 1 |land 1 0|land 1 0A|land 1 0g|land 1 00 |land 1  00|\
    land - 00|cii|cii |cii 7|cii 7B7D|cii --|cii 7b 7d|ts|ts 0|ts zz|closed|closed |closed wc|closed cii |\
    closed ts ts|report|reports 1|report \x1f|report \x7f|report 1\ttick|report \r|css-record 1 0 0 urn:x -|\
    turn 1\r|land 1 \u{e9}";

/// First lines that are no header, with a `|` before each.
const NO_HEADERS: &str = "||css-record|css-record 2 0 0 urn:x -|css-record 1 2560001 0 urn:x -|\
    css-record 1 0 1000000001 urn:x -|css-record 1 0 0 urn:x|css-record 1 0 0 urn:x - -|css-record 1 0 0  -|\
    css-record 1 00 0 urn:x -|css-agree 1 0 0 urn:x -|css-record 1 0 0 urn:x -\r|css-record 1 0 0 urn:\u{e9} -";

/// Audits each line behind these words.
fn assert_each(rt: &impl Abort, alloc: Global, before: &str, lines: &str, wanted: &str) {
    for line in lines.split('|').skip(1) {
        let text = format!(in alloc; "{before}{line}\n").expect(rt, NO_MEMORY);
        assert_audit(rt, alloc, text.as_bytes(), wanted);
    }
}

#[test]
fn lines_outside_the_grammar_are_refused(rt: HostRuntime) {
    let header = lines_of(rt.alloc(), "HEADER", 1).expect(&rt, NO_MEMORY);
    assert_each(&rt, rt.alloc(), &header, NO_LINES, "line 2: form");
    assert_each(&rt, rt.alloc(), "", NO_HEADERS, "line 1: form");
    assert_audit(&rt, rt.alloc(), b"", "line 1: form");
    let short = Audit::new(rt.alloc(), b"css-record");
    assert!(rt; matches!(&short, Err(AuditFault::Form)));
}

/// A header, and a line of so many bytes.
fn long_line(alloc: Global, length: usize) -> Result<Vec<u8>, AllocError> {
    let mut bytes = lines_of(alloc, "HEADER", 1)?.into_bytes();
    bytes.extend_from_slice(&vec![in alloc; b' '; length]?)?;
    bytes.push(b'\n')?;
    Ok(bytes)
}

// A record of the greatest length would take the memory of three.
#[test]
fn a_line_has_at_most_16777216_bytes(rt: HostRuntime) {
    let line = long_line(rt.alloc(), 16_777_217).expect(&rt, NO_MEMORY);
    let told = words(&rt, rt.alloc(), &line);
    assert_eq!(rt; told.as_slice(), b"line 2: long".as_slice());
    assert_eq!(rt; Auditing::new(rt.alloc()).longest_line(), 16_777_216);
    assert_eq!(rt; Auditing::new(rt.alloc()).longest_input(), 268_435_456);
}

/// Each kind of line behind the header.
const LINES: &str =
    "turn 0; ADDRESSES; ask 6; LANDING; CONTROL; turn 10; report 1 ticks 900000 900000; turn 20; \
    report 2 ticks 900000 900000; slept; cii -; closed cii; closed ts; land 4294967295999999999 -; report  x ; report ";

#[test]
fn a_line_is_printed_as_it_was_read(rt: HostRuntime) {
    let lines = lines_of(rt.alloc(), LINES, usize::MAX).expect(&rt, NO_MEMORY);
    for line in lines.lines() {
        let read = read_line(rt.alloc(), line.as_bytes()).expect(&rt, "a line");
        let printed = print_line(rt.alloc(), &read).expect(&rt, NO_MEMORY);
        assert!(rt; printed.bytes() == line.as_bytes(), "{line}");
    }
    assert!(rt; matches!(&read_line(rt.alloc(), b"land 1 f"), Err(LineFault::Form)));
}

#[test]
fn a_header_is_printed_as_it_was_read(rt: HostRuntime) {
    for header in [HEADER, "css-record 1 2560000 1000000000 urn:x dvb://1"] {
        let read = read_header(rt.alloc(), header.as_bytes()).expect(&rt, "a header");
        let printed = print_header(rt.alloc(), &read).expect(&rt, NO_MEMORY);
        assert!(rt; printed.bytes() == header.as_bytes(), "{header}");
    }
    let short = read_header(rt.alloc(), b"css-record 1 0 0 -");
    assert!(rt; matches!(&short, Err(LineFault::Form)));
}
