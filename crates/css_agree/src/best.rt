ghost use Rattle.std.specs.Prelude.{◌≡◌, ◌≢◌, ◌==◌, ◌<◌, reverse, position, All, IfNone, IfOk, OnOk, OnErr};
ghost use Rattle.css_model.specs.WallClock.{IsAnswer};
ghost use Rattle.css_agree.specs.Bests as bests;

use crate::ends::{lower_end, upper_end};
use css_model::LIMIT;
use css_num::Memory;
use css_span::{Answer, Local};

/// The best of some answers at each end of the span. One answer may be both.
#[derive(Clone, Copy)]
pub(crate) struct Best {
    /// The answer whose lower end, before it is rounded, is greatest.
    pub(crate) low: Answer,
    /// The answer whose upper end, before it is rounded, is least.
    pub(crate) high: Answer,
}

/// The best of a declared error that made room for a better one, and its place.
#[derive(Clone, Copy)]
pub(crate) struct Replaced {
    pub(crate) place: usize,
    pub(crate) best: Best,
}

/// The answer with the greater lower end. Of equals it is the one that landed earlier, or else the first.
fn higher_low(first: &Answer, second: &Answer, local: &Local, reading: u64) -> Answer
    requires { reading < LIMIT }
    ensures { result ≡ bests.higher_low local.now reading first.now second.now }
{
    let one = lower_end(first, local, reading);
    let other = lower_end(second, local, reading);
    if one < other {
        *second
    } else if other < one {
        *first
    } else if second.t4 < first.t4 {
        *second
    } else {
        *first
    }
}

/// The answer with the lesser upper end. Of equals it is the one that landed earlier, or else the first.
fn lesser_high(first: &Answer, second: &Answer, local: &Local, reading: u64) -> Answer
    requires { reading < LIMIT }
    ensures { result ≡ bests.lesser_high local.now reading first.now second.now }
{
    let one = upper_end(first, local, reading);
    let other = upper_end(second, local, reading);
    if other < one {
        *second
    } else if one < other {
        *first
    } else if second.t4 < first.t4 {
        *second
    } else {
        *first
    }
}

/// The better answer of the two at each end.
// A call of this, or of `best_of_all`, would copy both answers once more.
#[inline(always)]
fn better(first: &Best, second: &Best, local: &Local, reading: u64) -> Best
    requires { reading < LIMIT }
    ensures { result ≡ bests.better_of local.now reading first.now second.now }
{
    Best {
        low: higher_low(&first.low, &second.low, local, reading),
        high: lesser_high(&first.high, &second.high, local, reading),
    }
}

/// The best at the reading of all that are kept, whatever errors they declare.
#[inline(always)]
pub(crate) fn best_of_all(kept: &[Best], local: &Local, reading: u64) -> Option<Best>
    requires { reading < LIMIT }
    ensures { result ≡ bests.best_of local.now reading (reverse kept.now) }
{
    let mut found: Option<Best> = None;
    for best in kept {
        found = Some(match &found {
            None => *best,
            Some(found) => better(found, best, local, reading),
        });
    }
    found
}

/// Takes an answer in: of those of its declared error the best at each end are kept. The ends of answers of one error
/// move alike, so none that is dropped would be the best later. It tells what made room for it, if something did.
pub(crate) fn keep(
    kept: &mut Vec<Best>,
    local: &Local,
    answer: Answer,
    reading: u64,
) -> Result<Option<Replaced>, Memory>
    requires { reading < LIMIT }
    ensures ok { OnOk result (kept.new.items ≡ bests.kept_with local.now reading answer kept.old.items) }
    ensures undone { IfOk result (λ replaced. bests.Undoes replaced kept.new.items kept.old.items) }
    ensures err { OnErr result (kept.new.items ≡ kept.old.items) }

    // The caller never reads the answer's fields, so it learns of their ranges here.
    ensures ranges { IsAnswer answer }
{
    let alone = Best {
        low: answer,
        high: answer,
    };
    match place_of(kept, answer.error) {
        None => {
            kept.push(alone)?;
            Ok(None)
        }
        Some(place) => {
            let best = kept[place];
            kept[place] = better(&best, &alone, local, reading);
            Ok(Some(Replaced { place, best }))
        }
    }
}

/// Undoes what [`keep`] did.
pub(crate) fn take_back(kept: &mut Vec<Best>, replaced: &Option<Replaced>)
    requires { bests.HasPlace replaced.now kept.old.items }
    ensures { kept.new.items ≡ bests.undone replaced.now kept.old.items }
{
    match replaced {
        None => {
            let _ = kept.pop();
        }
        Some(replaced) => kept[replaced.place] = replaced.best,
    }
}

fn place_of(kept: &[Best], error: u32) -> Option<usize>
    ensures first { result ≡ position (λ best. best.low.error == error) kept.now }
    ensures none { IfNone result (All (λ best. best.low.error ≢ error) kept.now) }
{
    kept.iter().position(|best| best.low.error == error)
}
