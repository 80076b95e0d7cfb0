ghost use Rattle.std.specs.Prelude.{◌≡◌, ◌+◌, ◌^◌, ◌<◌, ◌≤◌, List, ℕ, [], ◌∷◌, ◌++◌, Option};
ghost use Rattle.std.specs.Prelude.{Some, length, MatchOption, MatchResult, OnOk, IfErr};
ghost use Rattle.css_lines.specs.Progress.{HasNoFeed, IsCut, IsPlaced, Progress, Advances, AllTaken, TakesLine};
ghost use Rattle.css_lines.specs.Progress.{StoppedAtEnd, Finished};
ghost use Rattle.css_lines.specs.Ending.{Finishes, Stops, RanToEnd, RanUntil, CountsReads, CountsWrites};

use crate::ending::Stop;
use crate::pending::Pending;
use crate::reader::Lines;
use css_outside::{Sink, Source, write_all};
use memchr::memchr;
use std::alloc::Global;

/// The most bytes that are read at a time.
pub const PIECE: usize = 4096;

const LINE_FEED: u8 = b'\n';

// Hands the pending line to its reader, and writes what is printed for it.
fn take_line<K: Sink, L: Lines>(
    pending: &mut Pending,
    lines: &mut L,
    sink: &mut K,
) -> Result<(), Stop<L::Cause>>
    requires room { pending.old.taken + 1 ≤ pending.old.count }
    requires placed { IsPlaced L.stands lines.old pending.old }

    ensures taken { (before : List (List ℕ)) → L.stands lines.old before → pending.old.taken ≡ length before →
        TakesLine (L.meaning.line before pending.old.text.items) (pending.old.taken + 1) (K.holds sink.old)
        (K.holds sink.new) result }
    ensures stands { OnOk result ((before : List (List ℕ)) → L.stands lines.old before
        → pending.old.taken ≡ length before → L.stands lines.new (before ++ pending.old.text.items ∷ [])) }
    ensures text { OnOk result (pending.new.text.items ≡ []) }
    ensures number { OnOk result (pending.new.taken ≡ pending.old.taken + 1) }
    ensures count { OnOk result (pending.new.count ≡ pending.old.count) }
    ensures counted { CountsWrites (K.faults sink.old) (K.faults sink.new) result }
{
    pending.out.clear();
    let number = pending.taken + 1;
    if let Err(fault) = lines.line(number, &pending.text, &mut pending.out) {
        return Err(Stop::at_line(number, fault));
    }
    write_all(sink, &pending.out)?;
    pending.text.clear();
    pending.taken = number;
    Ok(())
}

// Tells the reader that no line follows, and writes what is printed then.
fn conclude<K: Sink, L: Lines>(
    pending: &mut Pending,
    lines: &mut L,
    sink: &mut K,
) -> Result<(), Stop<L::Cause>>
    ensures taken { (before : List (List ℕ)) → L.stands lines.old before →
        TakesLine (L.meaning.finish before) (pending.old.taken + 1) (K.holds sink.old) (K.holds sink.new) result }
    ensures stands { OnOk result ((before : List (List ℕ)) → L.stands lines.old before → L.stands lines.new before) }
    ensures counted { CountsWrites (K.faults sink.old) (K.faults sink.new) result }
{
    pending.out.clear();
    if let Err(fault) = lines.finish(&mut pending.out) {
        return Err(Stop::at_line(pending.taken + 1, fault));
    }
    Ok(write_all(sink, &pending.out)?)
}

// The bytes before the first line feed, and those after it.
fn split_line(bytes: &[u8]) -> Option<(&[u8], &[u8])>
    ensures { MatchOption result (HasNoFeed bytes.now) (λ cut. IsCut bytes.now cut.0.now cut.1.now) }
{
    match memchr(LINE_FEED, bytes) {
        None => None,
        Some(feed) => Some((&bytes[..feed], &bytes[feed + 1..])),
    }
}

// Takes the next bytes, which have no line feed.
fn take_stretch<L: Lines>(
    bytes: &[u8],
    pending: &mut Pending,
    lines: &L,
) -> Result<(), Stop<L::Cause>>
    requires free { HasNoFeed bytes.now }
    requires placed { IsPlaced L.stands lines.now pending.old }

    ensures progress { (holds : Option (List ℕ)) →
        Advances L.meaning L.stands bytes.now (lines.now, pending.old, holds) (lines.now, pending.new, holds) result }
    ensures count { OnOk result (pending.new.count ≡ pending.old.count + length bytes.now) }
    ensures placed { OnOk result (IsPlaced L.stands lines.now pending.new) }
    ensures counted { (count : ℕ) → CountsWrites count count result }
{
    let room = lines.longest_line().saturating_sub(pending.text.len());
    let room_in_all = lines.longest_input().saturating_sub(pending.count);
    if bytes.len() > room || bytes.len() as u64 > room_in_all {
        return Err(Stop::too_long(pending.taken + 1));
    }
    pending.text.extend_from_slice(bytes)?;
    pending.count += bytes.len() as u64;
    Ok(())
}

// Takes a line feed.
fn take_feed<K: Sink, L: Lines>(
    pending: &mut Pending,
    lines: &mut L,
    sink: &mut K,
) -> Result<(), Stop<L::Cause>>
    requires { IsPlaced L.stands lines.old pending.old }

    ensures progress { Advances L.meaning L.stands (10 ∷ [])
        (lines.old, pending.old, K.holds sink.old) (lines.new, pending.new, K.holds sink.new) result }
    ensures count { OnOk result (pending.new.count ≡ pending.old.count + 1) }
    ensures placed { OnOk result (IsPlaced L.stands lines.new pending.new) }
    ensures counted { CountsWrites (K.faults sink.old) (K.faults sink.new) result }
{
    if pending.count >= lines.longest_input() {
        return Err(Stop::too_long(pending.taken + 1));
    }
    pending.count += 1;
    take_line(pending, lines, sink)
}

// Takes the next bytes, line after line.
fn feed_all<K: Sink, L: Lines>(
    bytes: &[u8],
    pending: &mut Pending,
    lines: &mut L,
    sink: &mut K,
) -> Result<(), Stop<L::Cause>>
    requires { IsPlaced L.stands lines.old pending.old }

    ensures progress { Advances L.meaning L.stands bytes.now
        (lines.old, pending.old, K.holds sink.old) (lines.new, pending.new, K.holds sink.new) result }
    ensures count { OnOk result (pending.new.count ≡ pending.old.count + length bytes.now) }
    ensures placed { OnOk result (IsPlaced L.stands lines.new pending.new) }
    ensures counted { CountsWrites (K.faults sink.old) (K.faults sink.new) result }
{
    let mut rest = bytes;
    'lines: while let Some((line, after)) = split_line(rest) {
        take_stretch(line, pending, lines)?;
        take_feed(pending, lines, sink)?;
        rest = after;
    }
    take_stretch(rest, pending, lines)
}

// Takes the last line, which lacks its line feed.
fn take_last<K: Sink, L: Lines>(
    pending: &mut Pending,
    lines: &mut L,
    sink: &mut K,
) -> Result<(), Stop<L::Cause>>
    requires { IsPlaced L.stands lines.old pending.old }

    ensures all { (start : Option (List ℕ)) (read : List ℕ)
        → Progress L.meaning L.stands start read lines.old pending.old (K.holds sink.old) →
        MatchResult result
        (λ _. AllTaken L.meaning L.stands start read lines.new pending.new (K.holds sink.new))
        (StoppedAtEnd L.meaning start read (K.holds sink.new)) }
    ensures counted { CountsWrites (K.faults sink.old) (K.faults sink.new) result }
{
    if pending.text.is_empty() {
        return Ok(());
    }
    take_line(pending, lines, sink)
}

// Takes what is left, where the source ended.
fn end<K: Sink, L: Lines>(
    pending: &mut Pending,
    lines: &mut L,
    sink: &mut K,
) -> Result<(), Stop<L::Cause>>
    requires { IsPlaced L.stands lines.old pending.old }

    ensures all { (start : Option (List ℕ)) (read : List ℕ)
        → Progress L.meaning L.stands start read lines.old pending.old (K.holds sink.old) →
        MatchResult result
        (λ _. Finished L.meaning L.stands start read lines.new (K.holds sink.new))
        (StoppedAtEnd L.meaning start read (K.holds sink.new)) }
    ensures counted { CountsWrites (K.faults sink.old) (K.faults sink.new) result }
{
    take_last(pending, lines, sink)?;
    conclude(pending, lines, sink)
}

// Reads piece after piece.
fn drive_pieces<S: Source, K: Sink, L: Lines>(
    alloc: Global,
    source: &mut S,
    sink: &mut K,
    lines: &mut L,
) -> Result<(), Stop<L::Cause>>
    requires { L.stands lines.old [] }

    ensures done { OnOk result (Finishes L.meaning L.stands (S.left source.old) (S.left source.new) (K.holds sink.old)
        (K.holds sink.new) lines.new) }
    ensures stopped { IfErr result
        (λ stop. Stops L.meaning (S.left source.old) (S.left source.new) (K.holds sink.old) (K.holds sink.new) stop) }
    ensures counted_reads { CountsReads (S.faults source.old) (S.faults source.new) result }
    ensures counted_writes { CountsWrites (K.faults sink.old) (K.faults sink.new) result }
{
    let mut piece = [0u8; PIECE];
    let mut pending = Pending {
        text: Vec::new(alloc),
        out: Vec::new(alloc),
        taken: 0,
        count: 0,
    };
    'pieces: loop {
        let count = source.read(&mut piece)?;
        if count == 0 {
            return end(&mut pending, lines, sink);
        }
        feed_all(&piece[..count], &mut pending, lines, sink)?;
    }
}

/// Reads the source line by line, and writes what is printed for each line before it reads on.
///
/// A line is handed to its reader when its line feed was read, and the last one also where the source ends without
/// it. At most one line and one piece are kept. The run stops at the first refusal, fault of a device or want of
/// memory.
pub fn drive<S: Source, K: Sink, L: Lines>(
    alloc: Global,
    source: &mut S,
    sink: &mut K,
    lines: &mut L,
) -> Result<(), Stop<L::Cause>>
    requires { L.stands lines.old [] }

    // Of a source that tells its bytes: what became of them.
    ensures ran { (bytes : List ℕ) → S.left source.old ≡ Some bytes → MatchResult result
        (λ _. RanToEnd L.meaning L.stands bytes (S.left source.new) (K.holds sink.old) (K.holds sink.new) lines.new)
        (RanUntil L.meaning bytes (S.left source.new) (K.holds sink.old) (K.holds sink.new)) }

    // Of every source.
    ensures done { OnOk result (Finishes L.meaning L.stands (S.left source.old) (S.left source.new) (K.holds sink.old)
        (K.holds sink.new) lines.new) }
    ensures stopped { IfErr result
        (λ stop. Stops L.meaning (S.left source.old) (S.left source.new) (K.holds sink.old) (K.holds sink.new) stop) }

    // A fault is told only where the device has failed, and no other failure of a device goes untold.
    ensures counted_reads { CountsReads (S.faults source.old) (S.faults source.new) result }
    ensures counted_writes { CountsWrites (K.faults sink.old) (K.faults sink.new) result }
{
    drive_pieces(alloc, source, sink, lines)
}
