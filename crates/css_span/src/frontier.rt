ghost use Rattle.std.specs.Prelude.{◌≡◌, ◌≢◌, ◌<◌, ◌≤ℤ◌, pos, length, reverse, slice_get, All, IfSome, IfNone, OnOk};
ghost use Rattle.std.specs.Prelude.{OnErr};
ghost use Rattle.css_model.specs.WallClock as wall_clock;
ghost use Rattle.css_span.specs.Frontiers as frontiers;
ghost use Rattle.css_span.specs.Frontiers.{KeepsFrontier};

use crate::answer::{Answer, Local};
use crate::width::scaled_width;
use css_model::LIMIT;
use css_num::Memory;

/// The narrowest of the answers at a reading, of equals the first.
pub(crate) fn narrowest(answers: &[Answer], local: &Local, reading: u64) -> Option<Answer>
    requires { reading < LIMIT }
    ensures { result ≡ wall_clock.narrowest local.now reading (reverse answers.now) }
{
    let mut best: Option<Answer> = None;
    for answer in answers {
        let is_narrower = match &best {
            None => true,
            Some(found) => {
                scaled_width(answer, local, reading) < scaled_width(found, local, reading)
            }
        };
        if is_narrower {
            best = Some(*answer);
        }
    }
    best
}

/// Takes an answer in: the narrowest of its declared error is kept, of equals the first. Widths of answers of one error
/// grow alike, so none that is dropped could be the narrowest later.
pub(crate) fn keep(
    kept: &mut Vec<Answer>,
    local: &Local,
    answer: Answer,
    reading: u64,
) -> Result<(), Memory>
    requires range { reading < LIMIT }
    requires possible { pos 0 ≤ℤ wall_clock.scaled_width local.now answer reading }
    ensures ok { OnOk result
        (KeepsFrontier local.now reading answer (reverse kept.old.items) (reverse kept.new.items)) }
    ensures err { OnErr result (kept.new.items ≡ kept.old.items) }
{
    match place_of(kept, answer.error) {
        None => kept.push(answer)?,
        Some(place) => {
            let width = scaled_width(&answer, local, reading);
            if width < scaled_width(&kept[place], local, reading) {
                kept.push(answer)?;
                let _ = kept.remove(place);
            }
        }
    }
    Ok(())
}

/// The greatest error that the answers declare, 0 where there are none.
pub(crate) fn greatest_error(answers: &[Answer]) -> u32
    ensures { result ≡ frontiers.greatest_error (reverse answers.now) }
{
    let mut greatest = 0;
    for answer in answers {
        greatest = greatest.max(answer.error);
    }
    greatest
}

fn place_of(answers: &[Answer], error: u32) -> Option<usize>
    ensures found { IfSome result (λ i. (i < length answers.now)
        × IfSome (slice_get answers.now i) (λ a. a.error ≡ error)) }
    ensures none { IfNone result (All (λ a. a.error ≢ error) answers.now) }
{
    answers.iter().position(|answer| answer.error == error)
}
