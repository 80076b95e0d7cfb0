//! A companion's runs, their followers, their records, and audits of these: each fault, each refusal and each end is a
//! row.
use crate::audits::words;
use crate::companion_rows::{
    ANSWERS, CUES, CUES_CUT, CUTS, DIALS, K, LACKING, REFUSALS, SESSIONS, TURNS, UNWRITTEN,
};
use crate::rows::{Row, lines_of};
use crate::runs::{NO_MEMORY, assert_told, companion, recorded};
use crate::scripts::outside_of;
use css_companion::Report;
use css_drive::{Before, Listens, Nobody};
use css_follow::{Cues, Follower, Meter, Sheet, SheetLines};
use css_lines::{PIECE, drive};
use css_memory::MemorySink;
use css_num::{Memory, Text};
use css_outside::{NeverFailsSink, NeverFailsSource};
use std::alloc::Global;
use std::process::Abort;

/// Makes the run of a row, and finds what it wrote.
fn assert_row<F: Listens>(rt: &impl Abort, alloc: Global, row: &Row, followers: &mut F) {
    let mut outside = outside_of(rt, alloc, row);
    let mut sink = MemorySink::new(alloc, 4096, row.sink_fails).expect(rt, NO_MEMORY);
    companion(rt, alloc, row, &mut sink, &mut outside, followers);
    assert_told(rt, alloc, row, sink.bytes(), row.told, usize::MAX);
}

/// The same of its record.
fn assert_record(rt: &impl Abort, alloc: Global, row: &Row, lines: &str) {
    let mut outside = outside_of(rt, alloc, row);
    let mut sink = MemorySink::new(alloc, 4096, row.sink_fails).expect(rt, NO_MEMORY);
    recorded(rt, alloc, row, &mut sink, &mut outside);
    assert_told(rt, alloc, row, sink.bytes(), lines, row.lines);
}

/// Finds that a record is right, but for one without a line and one that ends with a refused text.
fn assert_right(rt: &impl Abort, alloc: Global, row: &Row, lines: &str) {
    let record = lines_of(alloc, lines, row.lines).expect(rt, NO_MEMORY);
    let told = words(rt, alloc, record.as_bytes());
    let is_wrong = row.lines == 0 || row.ended.starts_with("BadCii");
    assert!(rt; told.starts_with(b"reports ") != is_wrong, "{}", row.name);
}

/// Makes the recorded runs of those rows whose record is looked at, and audits it.
fn assert_records(rt: &impl Abort, alloc: Global, rows: &[Row]) {
    for row in rows {
        if let Some(lines) = row.record {
            assert_record(rt, alloc, row, lines);
            assert_right(rt, alloc, row, lines);
        }
    }
}

/// Makes the runs of these rows, without and with a record.
fn assert_rows(rt: &impl Abort, alloc: Global, rows: &[Row]) {
    for row in rows {
        assert_row(rt, alloc, row, &mut Nobody);
    }
    assert_records(rt, alloc, rows);
}

#[test]
fn each_run_ends_as_its_row_says(rt: HostRuntime) {
    for rows in [ANSWERS, SESSIONS, REFUSALS, TURNS, DIALS] {
        assert_rows(&rt, rt.alloc(), rows);
    }
}

#[rattlefmt::skip]
fn cut_call(fails: &'static [u64], told: &'static str, lines: usize) -> Row {
    Row { name: "a call fails", fails, ended: "NetFault", told, lines, ..K }
}

#[rattlefmt::skip]
fn cut_write(sink_fails: &'static [u64], lines: usize) -> Row {
    Row { name: "a write of a record fails", sink_fails, ended: "WriteFault", lines, ..K }
}

#[test]
fn each_call_and_each_write_fails_once(rt: HostRuntime) {
    for (fails, told, lines) in CUTS {
        assert_rows(&rt, rt.alloc(), &[cut_call(fails, told, *lines)]);
    }
    for (sink_fails, lines) in UNWRITTEN {
        assert_records(&rt, rt.alloc(), &[cut_write(sink_fails, *lines)]);
    }
}

/// Says nothing of the first report that it hears, and lacks memory at each other.
#[derive(Drop)]
struct Lacking {
    heard: bool,
}

impl Follower for Lacking {
    ghost use Rattle.std.specs.Prelude.{[], true};

    ghost seen = { λ _. record { heard = []; spoken = []; done = true } };

    ghost plan = { λ _. record { says = λ _ _. []; ends = λ _ _. true } };

    ghost takes = { λ _ _. record { says = λ _ _. []; ends = λ _ _. true } };

    ghost says = { λ _ _. [] };

    ghost ends = { λ _ _. true };

    fn prepare(&mut self, _sheet: &Sheet) -> Result<(), Memory> {
        Ok(())
    }

    fn told(&mut self, _report: &Report, _out: &mut Text) -> Result<bool, Memory> {
        if self.heard {
            return Err(Memory);
        }
        self.heard = true;
        Ok(false)
    }
}

/// The sheet of these lines.
fn sheet_of(rt: &impl Abort, alloc: Global, lines: &[u8]) -> Sheet {
    let mut source = NeverFailsSource::new(alloc, lines, PIECE).expect(rt, NO_MEMORY);
    let mut sink = NeverFailsSink::new(alloc, PIECE).expect(rt, NO_MEMORY);
    let mut reader = SheetLines::new(alloc);
    let ended = drive(alloc, &mut source, &mut sink, &mut reader);
    assert!(rt; ended.is_ok(), "a sheet");
    reader.sheet()
}

/// Has followers follow a sheet through the run of a row.
fn assert_followed<F: Listens>(
    rt: &impl Abort,
    alloc: Global,
    row: &Row,
    sheet: &[u8],
    followers: &mut F,
) {
    followers
        .prepare(&sheet_of(rt, alloc, sheet))
        .expect(rt, NO_MEMORY);
    assert_row(rt, alloc, row, followers);
}

#[test]
fn cues_and_widths_stand_behind_their_report(rt: HostRuntime) {
    for row in &[CUES, CUES_CUT] {
        let mut followers = Before {
            first: Cues::new(rt.alloc()),
            rest: Before {
                first: Meter::new(rt.alloc()),
                rest: Nobody,
            },
        };
        let sheet = b"cue 900000 start\nmeter 1\n";
        assert_followed(&rt, rt.alloc(), row, sheet, &mut followers);
    }
}

#[test]
fn a_follower_that_lacks_memory_ends_the_run(rt: HostRuntime) {
    let mut followers = Before {
        first: Meter::new(rt.alloc()),
        rest: Before {
            first: Lacking { heard: false },
            rest: Nobody,
        },
    };
    assert_followed(&rt, rt.alloc(), &LACKING, b"meter 2\n", &mut followers);
}
