ghost use Rattle.std.specs.Prelude.{◌≡◌, ◌≤◌, ◌++◌, ◌∷◌, [], OnOk, OnErr, decimal, false};

use crate::common::check;
use css_lines::Refusal::{Long, Refused};
use css_lines::{LineFault, Lines, Stop, drive};
use css_memory::{MemorySink, MemorySource};
use css_outside::{Memory, Sink, Source};
use std::alloc::Global;
use std::process::Abort;

/// Why `Echo` refuses a line.
#[derive(Clone, Copy, Debug, PartialEq)]
enum Cause {
    Stop,
    NoLine,
}

/// Prints each line after its number, and `end` after the last. It refuses the line `stop`, and an input without lines.
/// Lines have at most 4 bytes, and the input 20; after a line `wide` twice as many.
#[derive(Drop)]
struct Echo {
    alloc: Global,
    taken: u64,
    wide: bool,
}

fn print_line(alloc: Global, number: u64, text: &[u8], out: &mut Vec<u8>) -> Result<(), Memory>
    ensures ok { OnOk result (out.new.items ≡ out.old.items ++ (decimal number ++ 32 ∷ [] ++ text.now ++ 10 ∷ [])) }
    ensures err { OnErr result (out.new.items ≡ out.old.items) }
{
    let mut line = format!(in alloc; "{number} ")?.into_bytes();
    line.extend_from_slice(text)?;
    line.push(b'\n')?;
    out.extend_from_slice(&line)?;
    Ok(())
}

impl Echo {
    fn new(alloc: Global) -> Echo
        ensures taken { result.taken ≡ 0 }
        ensures wide { result.wide ≡ false }
    {
        Echo {
            alloc,
            taken: 0,
            wide: false,
        }
    }
}

impl Lines for Echo {
    ghost use Rattle.std.specs.Prelude.{◌≡◌, ◌+◌, ◌^◌, ◌≤◌, ◌==◌, if◌then◌else◌, List, ℕ, []};
    ghost use Rattle.std.specs.Prelude.{◌∷◌, ◌++◌, Ok, Err, length, OnOk, decimal, codes};
    ghost use Rattle.std.specs.Str.{bytes_eq};
    ghost use Rattle.std.specs.List.{list_any};
    ghost use Rattle.css_base_tests.specs.declared.line_tests.Cause.TheVariants.{Stop, NoLine};

    type Cause = Cause;

    ghost meaning = { record {
      longest_line = λ before. if list_any (λ line. bytes_eq line (codes "wide")) before then 8 else 4;
      longest_input = λ before. if list_any (λ line. bytes_eq line (codes "wide")) before then 40 else 20;
      line = λ before text. if bytes_eq text (codes "stop") then Err Stop
          else Ok (decimal (length before + 1) ++ 32 ∷ [] ++ text ++ 10 ∷ []);
      finish = λ before. if length before == 0 then Err NoLine else Ok (codes "end" ++ 10 ∷ []);
    } };

    ghost stands = { λ echo before. (echo.taken ≡ length before)
        × (echo.wide ≡ list_any (λ line. bytes_eq line (codes "wide")) before) };

    fn longest_line(&self) -> usize {
        if self.wide { 8 } else { 4 }
    }

    fn longest_input(&self) -> u64 {
        if self.wide { 40 } else { 20 }
    }

    fn line(
        &mut self,
        number: u64,
        text: &[u8],
        out: &mut Vec<u8>,
    ) -> Result<(), LineFault<Cause>> {
        if text == b"stop".as_slice() {
            return Err(LineFault::Refused(Cause::Stop));
        }
        if print_line(self.alloc, number, text, out).is_err() {
            return Err(LineFault::Memory);
        }
        self.taken = number;
        self.wide = self.wide || text == b"wide".as_slice();
        Ok(())
    }

    fn finish(&mut self, out: &mut Vec<u8>) -> Result<(), LineFault<Cause>> {
        if self.taken == 0 {
            return Err(LineFault::Refused(Cause::NoLine));
        }
        match out.extend_from_slice(b"end\n") {
            Ok(()) => Ok(()),
            Err(_) => Err(LineFault::Memory),
        }
    }
}

/// How a run ends.
type End = Result<(), Stop<Cause>>;

/// An input, how a run over it ends, and what it prints.
type Row = (&'static [u8], End, &'static [u8]);

/// The input has at most 20 bytes, and a line feed stands in the line that it ends.
#[rattlefmt::skip]
const ROWS: [Row; 10] = [
    (b"a\n\nbc", Ok(()), b"1 a\n2 \n3 bc\nend\n"),
    (b"wide\nabcdefgh", Ok(()), b"1 wide\n2 abcdefgh\nend\n"),
    (b"abcd\nabcd\nabcd\n\nabcd", Ok(()), b"1 abcd\n2 abcd\n3 abcd\n4 \n5 abcd\nend\n"),
    (b"", Err(Stop::BadLine { line: 1, why: Refused(Cause::NoLine) }), b""),
    (b"a\nstop\nb\n", Err(Stop::BadLine { line: 2, why: Refused(Cause::Stop) }), b"1 a\n"),
    (b"a\nstop", Err(Stop::BadLine { line: 2, why: Refused(Cause::Stop) }), b"1 a\n"),
    (b"a\nabcde", Err(Stop::BadLine { line: 2, why: Long }), b"1 a\n"),
    (b"wide\nabcdefghi\n", Err(Stop::BadLine { line: 2, why: Long }), b"1 wide\n"),
    (b"abcd\nabcd\nabcd\nabcd\n\n", Err(Stop::BadLine { line: 5, why: Long }), b"1 abcd\n2 abcd\n3 abcd\n4 abcd\n"),
    (b"abcd\nabcd\nabcd\n\nabcd\n", Err(Stop::BadLine { line: 5, why: Long }), b"1 abcd\n2 abcd\n3 abcd\n4 \n"),
];

/// How many bytes a read and a write take at most, and the numbers of the read and of the write that fail, or 0.
type Faults = (usize, usize, u64, u64);

/// Any run. It promises nothing, so that no test has what `drive` promises in its context.
fn run<S: Source, K: Sink, L: Lines>(
    alloc: Global,
    source: &mut S,
    sink: &mut K,
    lines: &mut L,
) -> Result<(), Stop<L::Cause>>
    requires { L.stands lines.old [] }
{
    drive(alloc, source, sink, lines)
}

fn check_run(rt: &impl Abort, alloc: Global, row: &Row, faults: Faults) {
    let (bytes, wanted, output) = *row;
    let (read, written, failing_read, failing_write) = faults;
    assert!(rt; 1 <= read && 1 <= written);
    let source = MemorySource::new(alloc, bytes, read, &[failing_read]);
    let mut source = source.expect(rt, "memory");
    let mut sink = MemorySink::new(alloc, written, &[failing_write]).expect(rt, "memory");
    let ended = run(alloc, &mut source, &mut sink, &mut Echo::new(alloc));
    let input = str::from_utf8(bytes);
    assert!(rt;
        ended == wanted,
        "{input:?} {faults:?}: {ended:?} and not {wanted:?}"
    );
    check(rt, sink.bytes(), output);
}

#[test]
fn lines_are_printed_up_to_a_refusal(rt: HostRuntime) {
    for row in &ROWS {
        for piece in [1, 5, 100] {
            check_run(&rt, rt.alloc(), row, (piece, piece, 0, 0));
        }
    }
}

/// Which call fails in a run over two lines, how the run ends, and what it prints. A read fails at the first byte, at a
/// line feed, just after it, and in a line.
const FAULTS: [(Faults, Stop<Cause>, &[u8]); 8] = [
    ((1, 100, 1, 0), Stop::ReadFault, b""),
    ((1, 100, 3, 0), Stop::ReadFault, b""),
    ((1, 100, 4, 0), Stop::ReadFault, b"1 ab\n"),
    ((1, 100, 5, 0), Stop::ReadFault, b"1 ab\n"),
    ((100, 100, 0, 1), Stop::WriteFault, b""),
    ((100, 100, 0, 2), Stop::WriteFault, b"1 ab\n"),
    ((100, 100, 0, 3), Stop::WriteFault, b"1 ab\n2 cd\n"),
    ((100, 3, 0, 2), Stop::WriteFault, b"1 a"),
];

#[test]
fn a_fault_leaves_what_was_written(rt: HostRuntime) {
    for (faults, stop, output) in &FAULTS {
        let row = (b"ab\ncd".as_slice(), Err(*stop), *output);
        check_run(&rt, rt.alloc(), &row, *faults);
    }
}
