//! One test of each device.
ghost use Rattle.std.specs.Prelude.{◌<◌, true, false};

use css_devices::Tally;
use css_net::{ChildSpawner, StdSink, StdSource};
use css_num::Text;
use css_outside::{Sink, Source, Spawner};
use std::alloc::Global;
use std::cell::Cell;
use std::io;
use std::io::ErrorKind;
use std::process::Abort;
use std::time::{Clock, Duration};

#[test]
fn bytes_go_through_the_streams(rt: HostRuntime) {
    let mut source = StdSource::new(b"a line\n".as_slice(), &rt);
    let mut piece = [0u8; 16];
    let count = source.read(&mut piece).expect(&rt, "a piece");
    let read = piece.get(..count).expect(&rt, "a count in the room");
    let mut held = Vec::new(rt.alloc());
    let mut sink = StdSink::new(&mut held, &rt);
    let written = sink.write(read).expect(&rt, "a piece");
    assert!(rt; written == 7 && held.as_slice() == b"a line\n".as_slice());
}

fn add_lines(rt: &impl Abort, lines: &mut Vec<u8>, line: &[u8], count: usize) {
    for _ in 0..count {
        lines.extend_from_slice(line).expect(rt, "memory");
    }
}

/// Some 50,000 bytes. Line 9,002 is the marked one.
fn many_lines(rt: &impl Abort, alloc: Global) -> Vec<u8> {
    let mut lines = Vec::new(alloc);
    add_lines(rt, &mut lines, b"first\r\n", 1);
    add_lines(rt, &mut lines, b"line\n", 9_000);
    add_lines(rt, &mut lines, b"marked\n", 1);
    add_lines(rt, &mut lines, b"line\n", 900);
    lines
}

#[test]
fn a_source_keeps_its_last_lines(rt: HostRuntime) {
    let input = many_lines(&rt, rt.alloc());
    let mut source = StdSource::new(input.as_slice(), &rt);
    source.keep_lines();
    let mut piece = [0u8; 1_000];
    for _ in 0..60 {
        source.read(&mut piece).expect(&rt, "a piece");
    }
    source.end_lines();
    assert!(rt; source.first_line_returned());
    assert!(rt; source.line(1).is_none());
    assert!(rt; source.line(9_001) == Some(b"line".as_slice()));
    assert!(rt; source.line(9_002) == Some(b"marked".as_slice()));
    assert!(rt; source.line(9_003) == Some(b"line".as_slice()));
}

#[test]
fn a_child_ends_with_its_status(rt: HostRuntime) {
    let mut words = Vec::new(rt.alloc());
    for word in ["-c", "read status; exit $status"] {
        let word = Text::of(rt.alloc(), word.as_bytes()).expect(&rt, "memory");
        words.push(word).expect(&rt, "memory");
    }
    let mut spawner = ChildSpawner::of_program(rt.alloc(), &rt, "/bin/sh");
    spawner.start(&words, b"3\n").expect(&rt, "a child");
    assert!(rt; spawner.finish() == Ok(3));
}

/// A clock that shows these times in turn, the monotone one's and the system's. A system's time of 0 can't be read.
#[derive(Drop)]
struct Shown {
    rows: [(u64, u64); 9],
    at: Cell<usize>,
}

impl Shown {
    fn row(&self) -> (u64, u64) {
        match self.rows.get(self.at.get()) {
            Some(row) => *row,
            None => (0, 0),
        }
    }
}

impl Clock for Shown {
    fn monotonic(&self) -> io::Result<Duration> {
        Ok(Duration::from_nanos(self.row().0))
    }

    fn since_1970(&self) -> io::Result<Duration> {
        let (_, system) = self.row();
        self.at.set(self.at.get().saturating_add(1));
        if system == 0 {
            return Err(io::Error::from(ErrorKind::Other));
        }
        Ok(Duration::from_nanos(system))
    }
}

/// The readings that are told, and whether the clock slept.
#[rattlefmt::skip]
const TOLD: [(u64, bool); 9] =
    [(5, false), (10, false), (11, true), (11, false), (12, true), (12, false), (13, false), (14, true), (15, false)];

#[test]
fn a_sleep_is_told_once(rt: HostRuntime) {
    let shown = Shown {
        rows: [
            (5, 1_000),
            (10, 1_005),
            (11, 2_000_001_007),
            (11, 2_000_001_007),
            (11, 5_000_000_000),
            (11, 5_000_000_000),
            (13, 7_000_000_002),
            (13, 9_000_000_003),
            (15, 0),
        ],
        at: Cell::new(0),
    };
    let mut tally = Tally::new();
    for (reading, slept) in TOLD {
        let clocked = tally.now(&shown).expect(&rt, "a reading");
        assert!(rt;
            clocked.reading == reading && clocked.slept == slept,
            "{reading}"
        );
    }
}
