//! Runs of the program over devices in memory.

use crate::outside::{SILENT, World, script_of};
use css_app::{Status, run};
use css_drive::{Before, Listens, Nobody};
use css_follow::{Cues, Meter};
use css_memory::{MemoryOutside, MemorySink, MemorySource, MemorySpawner};
use css_outside::{Failure, Outside, Sink, Source, Spawner};
use std::alloc::Global;
use std::process::Abort;

/// A run: its words, its input, its devices, and which of their calls fail, counted from 1.
#[derive(Clone, Copy)]
pub struct Case<'a> {
    /// The words, as [`words_of`] finds them.
    pub words: &'static str,
    pub input: &'a [u8],
    /// How many bytes a call of the source or of the sink takes at most.
    pub piece: usize,
    pub world: World,
    /// How the children end.
    pub children: &'a [i32],
    pub reads: &'a [u64],
    pub writes: &'a [u64],
    /// Those of the outside.
    pub calls: &'a [u64],
    /// What the system says of each dial that fails, in order.
    pub failures: &'a [Failure],
    /// Those of the spawner.
    pub spawns: &'a [u64],
}

/// A run without words, over devices that never fail and to which nothing comes.
pub const BLANK: Case<'static> = Case {
    words: "",
    input: b"",
    piece: 4096,
    world: SILENT,
    children: &[],
    reads: &[],
    writes: &[],
    calls: &[],
    failures: &[],
    spawns: &[],
};

/// A run of a command over an input.
pub fn over<'a>(words: &'static str, input: &'a str) -> Case<'a> {
    Case {
        words,
        input: input.as_bytes(),
        ..BLANK
    }
}

/// One exchange, of 188 bytes.
pub const EXCHANGE: Case<'static> = Case {
    words: "replay",
    input: b"css-schedule 1 plain 0 -30 0 0 urn:dvb:css:timeline:pts -
1000 4800 1000 ask 1000
1200 5000 1200 take 1 5000
1400 5200 1400 give 1 5200
1600 5400 1600 land 1 1600
1600 5400 1600 wall 1600
",
    ..BLANK
};

/// A name, a run, its status in words, and what it prints.
pub type Row = (&'static str, Case<'static>, &'static str, &'static [u8]);

/// The words of a line, separated by spaces. Without bytes there are none.
pub fn words_of(rt: &impl Abort, alloc: Global, line: &str) -> Vec<String> {
    let mut words = Vec::new(alloc);
    if !line.is_empty() {
        for word in line.split(' ') {
            let word = word.to_string(alloc).expect(rt, NO_MEMORY);
            words.push(word).expect(rt, NO_MEMORY);
        }
    }
    words
}

/// Runs these words. It promises nothing, so that no test has what `run` promises in its context.
fn status_of<S: Source, K: Sink, O: Outside, P: Spawner, F: Listens>(
    alloc: Global,
    words: &[String],
    source: &mut S,
    sink: &mut K,
    outside: &mut O,
    spawner: &mut P,
    followers: &mut F,
) -> Status {
    run(alloc, words, source, sink, outside, spawner, followers)
}

/// What is told when memory runs out.
pub const NO_MEMORY: &str = "no memory";

/// Makes a run with the followers of the program. Its status in words, and what it printed.
pub fn run_case(rt: &impl Abort, alloc: Global, case: &Case<'_>) -> (String, Vec<u8>) {
    let piece = case.piece.max(1);
    let mut source = MemorySource::new(alloc, case.input, piece, case.reads).expect(rt, NO_MEMORY);
    let mut sink = MemorySink::new(alloc, piece, case.writes).expect(rt, NO_MEMORY);
    let script = script_of(rt, alloc, &case.world, case.calls);
    let failures = case.failures.to_vec(alloc).expect(rt, NO_MEMORY);
    let outside = MemoryOutside::new(alloc, script).expect(rt, NO_MEMORY);
    let mut outside = outside.failing_by(failures);
    let mut spawner = MemorySpawner::new(alloc, case.children, case.spawns).expect(rt, NO_MEMORY);
    let (first, second) = (Cues::new(alloc), Meter::new(alloc));
    let status = status_of(
        alloc,
        &words_of(rt, alloc, case.words),
        &mut source,
        &mut sink,
        &mut outside,
        &mut spawner,
        &mut before(first, before(second, Nobody)),
    );
    let ended = format!(in alloc; "{status}").expect(rt, NO_MEMORY);
    (ended, sink.bytes().to_vec(alloc).expect(rt, NO_MEMORY))
}

fn before<F, R>(first: F, rest: R) -> Before<F, R> {
    Before { first, rest }
}

fn text_of(bytes: &[u8]) -> &str {
    str::from_utf8(bytes).unwrap_or("bytes that aren't UTF-8")
}

/// What was printed is this.
pub fn check(rt: &impl Abort, told: &[u8], expected: &[u8], name: &str) {
    let (text, wanted) = (text_of(told), text_of(expected));
    assert!(rt;
        told == expected,
        "{name}: printed\n{text}\nand not\n{wanted}"
    );
}

/// Makes a run, which ends so and prints this.
pub fn check_run(
    rt: &impl Abort,
    alloc: Global,
    name: &str,
    case: &Case<'_>,
    ended: &str,
    printed: &[u8],
) {
    let (status, output) = run_case(rt, alloc, case);
    let (words, text, wanted) = (case.words, text_of(&output), text_of(printed));
    assert!(rt;
        status.as_str() == ended && output.as_slice() == printed,
        "{name}: {words}: {status} and not {ended}: printed\n{text}\nand not\n{wanted}"
    );
}

/// Makes the run of each row.
pub fn check_rows(rt: &impl Abort, alloc: Global, rows: &[Row]) {
    for (name, case, ended, printed) in rows {
        check_run(rt, alloc, name, case, ended, printed);
    }
}
