ghost use Rattle.std.specs.Prelude.{◌≡◌, ◌≢◌, ◌==◌, ◌<◌, ◌^◌, reverse, position, unsigned_abs};
ghost use Rattle.std.specs.Prelude.{All, IfNone, OnOk, OnErr};
ghost use Rattle.css_agree.specs.Named as names;
ghost use Rattle.css_agree.specs.NamesKept.{kept_with};

use crate::ends::{lower_end, upper_end};
use css_model::LIMIT;
use css_num::Memory;
use css_span::{Answer, Local};

/// An end of a span.
#[derive(Clone, Copy)]
pub(crate) enum End {
    /// The lower end. The greatest one is the best.
    Low,
    /// The upper end. The least one is the best.
    High,
}

/// An answer, and the number of its line.
#[derive(Clone, Copy)]
pub(crate) struct Named {
    pub(crate) number: u64,
    pub(crate) answer: Answer,
}

// How good an end is, before it is rounded: of two answers the one with the greater value has the better end.
fn measure(end: End, answer: &Answer, local: &Local, reading: u64) -> i128
    requires { reading < LIMIT }
    ensures value { result ≡ names.measure end local.now answer.now reading }
    ensures bound { unsigned_abs result < 2 ^ 95 }
{
    match end {
        End::Low => lower_end(answer, local, reading),
        End::High => -upper_end(answer, local, reading),
    }
}

// The answer with the better end; of equals the one of the earlier line.
fn chosen(end: End, first: &Named, second: &Named, local: &Local, reading: u64) -> Named
    requires { reading < LIMIT }
    ensures { result ≡ names.chosen end local.now reading first.now second.now }
{
    let one = measure(end, &first.answer, local, reading);
    let other = measure(end, &second.answer, local, reading);
    if one < other {
        *second
    } else if other < one {
        *first
    } else if second.number < first.number {
        *second
    } else {
        *first
    }
}

/// The number of the first line with the best end at the reading.
pub(crate) fn number_of_best(end: End, kept: &[Named], local: &Local, reading: u64) -> Option<u64>
    requires { reading < LIMIT }
    ensures { result ≡ names.number_of_best end local.now reading (reverse kept.now) }
{
    let mut found: Option<Named> = None;
    for named in kept {
        found = Some(match &found {
            None => *named,
            Some(found) => chosen(end, found, named, local, reading),
        });
    }
    match found {
        None => None,
        Some(named) => Some(named.number),
    }
}

/// Takes an answer in: of those of its declared error the one with the best end is kept, as the ends of answers of one
/// error move alike.
pub(crate) fn keep_named(
    end: End,
    kept: &mut Vec<Named>,
    local: &Local,
    named: &Named,
    reading: u64,
) -> Result<(), Memory>
    requires { reading < LIMIT }
    ensures ok { OnOk result (kept.new.items ≡ kept_with end local.now reading named.now kept.old.items) }
    ensures err { OnErr result (kept.new.items ≡ kept.old.items) }
{
    match place_of(kept, named.answer.error) {
        None => kept.push(*named)?,
        Some(place) => kept[place] = chosen(end, &kept[place], named, local, reading),
    }
    Ok(())
}

fn place_of(kept: &[Named], error: u32) -> Option<usize>
    ensures first { result ≡ position (λ named. named.answer.error == error) kept.now }
    ensures none { IfNone result (All (λ named. named.answer.error ≢ error) kept.now) }
{
    kept.iter().position(|named| named.answer.error == error)
}
