//! Until when the television's wall clock is known narrowly enough.
ghost use Rattle.std.specs.Prelude.{◌≡◌, ◌≢◌, ◌+◌, ◌-◌, ◌*◌, ◌≤◌, ◌<◌, ◌^◌, ◌↔◌, ℕ, pos, ◌+ℤ◌, ◌-ℤ◌, ◌≤ℤ◌, ◌<ℤ◌};
ghost use Rattle.std.specs.Prelude.{unsigned_abs};
ghost use Rattle.css_model.specs.WallClock.{IsAnswer, IsLocal, scaled_width};
ghost use Rattle.css_companion_c.specs.Codes.{DONE, NEVER, if_agreeing, Searches};
ghost use Rattle.css_companion_c.specs.Until as at;
ghost use Rattle.css_companion_c.specs.Until.{IsNarrowUntil, IsLastNarrow, IsWideAt, IsDue};

use crate::codes;
use crate::follower::Follower;
use crate::lead::lengths;
use crate::reaching::needed;
use css_companion::Companion;
use css_model::{F, LIMIT};
use css_span::{Answer, Local, scaled_width};

/// How long an answer is waited for, in nanoseconds, before the next request.
pub const WAIT: u64 = 1_000_000_000;

/// How long after a request that was answered the next one may be sent, in nanoseconds.
pub const SOONEST: u64 = 100_000_000;

/// What a scaled width is multiplied by.
fn scale(local: &Local) -> u64
    ensures value { result ≡ (F + local.now.error) * (F - local.now.error) }
    ensures small { result ≤ 2 ^ 60 }
    ensures local { IsLocal local.now }
{
    (F + u64::from(local.error)) * (F - u64::from(local.error))
}

/// One nanosecond less than a width.
fn less_one(width: u64) -> i128
    ensures value { result ≡ pos width -ℤ pos 1 }
    ensures small { unsigned_abs result ≤ 2 ^ 64 }
{
    i128::from(width) - 1
}

/// The greatest scaled width of a span that is at most so wide, however it is rounded.
fn limit_of(width: u64, local: &Local) -> i128
    ensures value { result ≡ at.limit_of width local.now }
    ensures small { unsigned_abs result ≤ 2 ^ 124 }
    ensures local { IsLocal local.now }
{
    lengths(less_one(width), scale(local))
}

/// By how much the scaled width of an answer's span rises in a nanosecond.
fn growth(answer: &Answer, local: &Local) -> u64
    ensures value { result ≡ 2 * F * (answer.now.error + local.now.error) }

    // The caller never reads their fields, so it learns of their ranges here.
    ensures answer { IsAnswer answer.now }
    ensures local { IsLocal local.now }
{
    2 * F * u64::from(answer.error + local.error)
}

/// By how much a scaled width rises until it is above the limit.
fn left(limit: i128, width: i128) -> i128
    requires limit { unsigned_abs limit ≤ 2 ^ 124 }
    requires width { unsigned_abs width ≤ 2 ^ 123 }
    ensures value { result ≡ (limit -ℤ width) +ℤ pos 1 }
    ensures small { unsigned_abs result ≤ 2 ^ 125 }
{
    limit - width + 1
}

/// The first reading at which the scaled width of an answer's span is above the limit. It rises evenly.
fn wide_from(answer: &Answer, local: &Local, limit: i128) -> i128
    requires { unsigned_abs limit ≤ 2 ^ 124 }
    ensures { (reading : ℕ) → reading < LIMIT → (result ≤ℤ pos reading)
        ↔ (limit <ℤ scaled_width local.now answer.now reading) }
{
    let growth = growth(answer, local);
    needed(left(limit, scaled_width(answer, local, 0)), growth)
}

/// The first reading, of those from the floor on, at which the spans of all answers are too wide.
fn all_wide_from(answers: &[Answer], local: &Local, width: u64, floor: u64) -> i128
    ensures wide { at.IsWideFrom local.now width floor answers.now result }
    ensures local { IsLocal local.now }
{
    let limit = limit_of(width, local);
    let mut end = i128::from(floor);
    for answer in answers {
        end = end.max(wide_from(answer, local, limit));
    }
    end
}

/// The last reading up to which the wall clock's span is at most so wide, if there is one.
fn last_narrow(companion: &Companion, width: u64) -> Option<u64>
    ensures { IsLastNarrow width result companion.now }
{
    let floor = companion.floor();
    let wide = all_wide_from(companion.answers(), &companion.local(), width, floor);
    let end = wide.min(i128::from(LIMIT));
    if end <= i128::from(floor) {
        return None;
    }
    Some((end - 1) as u64)
}

/// The same, where there is an answer, and the answers haven't disagreed.
pub(crate) fn until(follower: &Follower, width: u64, out: &mut u64) -> u32
    ensures kept { result ≢ DONE → out.new ≡ out.old }
    ensures code { Searches (if_agreeing follower.now (at.any_kept follower.now.companion)) result }
    ensures truth { result ≡ DONE → IsNarrowUntil width out.new follower.now.companion }
    ensures last { result ≡ DONE → IsWideAt width (out.new + 1) follower.now.companion }
    ensures never { result ≡ NEVER
        → IsWideAt width follower.now.companion.client.floor follower.now.companion }
{
    if follower.disagrees {
        return codes::DISAGREE;
    }
    if follower.companion.kept() == 0 {
        return codes::NO_ANSWER;
    }
    match last_narrow(&follower.companion, width) {
        None => codes::NEVER,
        Some(last) => {
            *out = last;
            codes::DONE
        }
    }
}

/// From which reading a request is due: at once where none was sent since the last sleep; a second after the last one
/// where no answer to it was accepted; else where the wall clock's span becomes wider, and no sooner than 100 ms after
/// the last one.
pub(crate) fn due(follower: &Follower, width: u64) -> u64
    ensures { IsDue width result follower.now }
{
    let Some(asked) = follower.asked else {
        return follower.companion.floor();
    };
    if !follower.answered {
        return asked.saturating_add(WAIT);
    }
    let last = last_narrow(&follower.companion, width).unwrap_or(0);
    asked.saturating_add(SOONEST).max(last)
}
