//! Worked cases of sheets and followers.

use crate::common::{check, check_that, words};
use crate::follow_rows::*;
use css_companion::{Cause, Report};
use css_follow::{Before, Cues, Follower, Listens, Meter, Nobody, Sheet, SheetLines};
use css_lines::{PIECE, Stop, drive};
use css_num::{Memory, Text};
use css_outside::{NeverFailsSink, NeverFailsSource};
use std::alloc::Global;
use std::process::Abort;

/// The sheet that bytes are, or the number of the first line that is refused.
fn read_sheet(rt: &impl Abort, alloc: Global, bytes: &[u8]) -> Result<Sheet, u64> {
    let mut source = NeverFailsSource::new(alloc, bytes, PIECE).expect(rt, "memory");
    let mut sink = NeverFailsSink::new(alloc, PIECE).expect(rt, "memory");
    let mut lines = SheetLines::new(alloc);
    match drive(alloc, &mut source, &mut sink, &mut lines) {
        Ok(()) => Ok(lines.sheet()),
        Err(Stop::BadLine { line, .. }) => Err(line),
        Err(_) => panic!(rt; "memory"),
    }
}

/// How many cues a sheet has, and its meter.
fn counts(rt: &impl Abort, alloc: Global, bytes: &[u8]) -> Read {
    let sheet = read_sheet(rt, alloc, bytes)?;
    Ok((sheet.cues.len(), sheet.meter))
}

#[test]
fn sheets_are_read_by_their_grammar(rt: HostRuntime) {
    for (bytes, expected) in &SHEETS {
        assert!(rt; counts(&rt, rt.alloc(), bytes) == *expected, "{bytes:?}");
    }
}

fn long_sheet(rt: &impl Abort, alloc: Global, parts: &[(&str, usize)]) -> String {
    let mut sheet = String::new(alloc);
    for (part, count) in parts {
        let part = part.repeat(alloc, *count).expect(rt, "memory");
        sheet.push_str(&part).expect(rt, "memory");
    }
    sheet
}

#[test]
fn sheets_have_their_limits(rt: HostRuntime) {
    for (parts, expected) in &LONG_SHEETS {
        let sheet = long_sheet(&rt, rt.alloc(), parts);
        assert!(rt;
            counts(&rt, rt.alloc(), sheet.as_bytes()) == *expected,
            "{parts:?}"
        );
    }
}

fn sheet(rt: &impl Abort, alloc: Global, lines: &str) -> Sheet {
    read_sheet(rt, alloc, lines.as_bytes()).expect(rt, "a sheet")
}

fn report_of(interval: Option<(i128, i128)>) -> Report {
    match interval {
        Some((lo, hi)) => Report::Ticks { lo, hi },
        None => Report::None(Cause::NoAnswer),
    }
}

/// Finds that a follower says what each step tells.
fn check_follower<F: Follower>(rt: &impl Abort, alloc: Global, mut follower: F, steps: &[Step]) {
    for (place, (lines, interval, said, goes_on)) in steps.iter().enumerate() {
        if !lines.is_empty() {
            let prepared = follower.prepare(&sheet(rt, alloc, lines));
            prepared.expect(rt, "memory");
        }
        let mut out = Text::new(alloc);
        let told = follower.told(&report_of(*interval), &mut out);
        let told = told.expect(rt, "memory");
        check(rt, place, words(&out), said);
        check_that(rt, told == *goes_on, said);
    }
}

#[test]
fn cues_and_widths_are_said_once(rt: HostRuntime) {
    for steps in CUES {
        check_follower(&rt, rt.alloc(), Cues::new(rt.alloc()), steps);
    }
    for steps in METERS {
        check_follower(&rt, rt.alloc(), Meter::new(rt.alloc()), steps);
    }
}

/// A follower that lacks memory at each report, and at each sheet where it is told so.
#[derive(Drop)]
struct Lacks {
    sheets: bool,
}

impl Follower for Lacks {
    ghost use Rattle.std.specs.Prelude.{[], false};

    ghost seen = { λ _. record { heard = []; spoken = []; done = false } };

    ghost plan = { λ _. record { says = λ _ _. []; ends = λ _ _. false } };

    ghost takes = { λ _ _. record { says = λ _ _. []; ends = λ _ _. false } };

    ghost says = { λ _ _. [] };

    ghost ends = { λ _ _. false };

    fn prepare(&mut self, _sheet: &Sheet) -> Result<(), Memory> {
        if self.sheets { Err(Memory) } else { Ok(()) }
    }

    fn told(&mut self, _report: &Report, _out: &mut Text) -> Result<bool, Memory> {
        Err(Memory)
    }
}

/// `Cues`, one that lacks memory, and `Meter`.
fn lacking(alloc: Global, sheets: bool) -> Before<Cues, Before<Lacks, Before<Meter, Nobody>>> {
    let meter = Before {
        first: Meter::new(alloc),
        rest: Nobody,
    };
    let rest = Before {
        first: Lacks { sheets },
        rest: meter,
    };
    Before {
        first: Cues::new(alloc),
        rest,
    }
}

#[test]
fn want_of_memory_ends_the_telling(rt: HostRuntime) {
    for sheets in [false, true] {
        let mut followers = lacking(rt.alloc(), sheets);
        let prepared = followers.prepare(&sheet(&rt, rt.alloc(), "cue 5 a\nmeter 1"));
        check_that(&rt, prepared.is_err() == sheets, "a sheet");
        let mut out = Text::new(rt.alloc());
        for interval in [(4, 5), (5, 5)] {
            let told = followers.tell(&report_of(Some(interval)), &mut out);
            check_that(&rt, told.is_err(), "want of memory");
        }
        let said = "cue a possible\ncue a passed\n";
        check(&rt, usize::from(sheets), words(&out), said);
    }
}
