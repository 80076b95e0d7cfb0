//! Reports of drawn texts, against a plain second computation.

ghost use Rattle.std.specs.Prelude.{◌≤◌, ◌<◌};
ghost use Rattle.css_companion.specs.Steps.{IsEvent};

use crate::common::{Dice, EXACT, check_that, text};
use crate::companion::{new_companion, play, report, step};
use crate::companion_rows::ANSWERED;
use css_companion::{Cause, Companion, CompanionEvent, Report};
use css_model::LIMIT;
use css_num::Text;
use css_tsmsg::{TsFault, TsName};
use std::alloc::Global;
use std::process::Abort;

/// What is known: the ticks in a second, and the last content time, wall time and speed.
#[derive(Clone, Copy)]
struct Plain {
    rate: Option<u32>,
    last: Result<(u32, u64, i32), Cause>,
}

impl Plain {
    /// The position at a value of the wall clock.
    fn position(&self, wall: i128) -> Result<i128, Cause> {
        let (content, from, speed) = self.last?;
        let rate = i128::from(self.rate.ok_or(Cause::NoRate)?);
        let since = wall.wrapping_sub(i128::from(from));
        let gone = since.wrapping_mul(i128::from(speed)).wrapping_mul(rate);
        Ok(i128::from(content).wrapping_add(gone.div_euclid(1_000_000_000)))
    }

    /// The report 200 ns after the answer of [`ANSWERED`], by the span of the wall clock.
    fn report(&self) -> Report {
        match (self.position(10_000_000_197), self.position(10_000_000_403)) {
            (Ok(one), Ok(other)) => Report::Ticks {
                lo: one.min(other),
                hi: one.max(other),
            },
            (Err(cause), _) | (_, Err(cause)) => Report::None(cause),
        }
    }
}

/// Ticks in a second, and a CII text that tells them of the timeline `urn:x:1`.
#[rattlefmt::skip]
const RATES: [(u32, &str); 3] = [
    (50, concat!(r#"{"timelines":[{"timelineSelector":"urn:x:1","#,
        r#""timelineProperties":{"unitsPerTick":1,"unitsPerSecond":50}}]}"#)),
    (1000, concat!(r#"{"timelines":[{"timelineSelector":"urn:x:1","#,
        r#""timelineProperties":{"unitsPerTick":1,"unitsPerSecond":1000}}]}"#)),
    (90_000, concat!(r#"{"timelines":[{"timelineSelector":"urn:x:1","#,
        r#""timelineProperties":{"unitsPerTick":1,"unitsPerSecond":90000}}]}"#)),
];

/// A CII text, some of which tell nothing of the timeline.
fn drawn_cii(dice: &mut Dice, plain: &mut Plain) -> &'static str {
    let (rate, told) = RATES[dice.next(3) as usize];
    match dice.next(6) {
        0 => "[]",
        1 => r#"{"timelines":null,"teUrl":5}"#,
        2 => {
            plain.rate = None;
            r#"{"timelines":null}"#
        }
        _ => {
            plain.rate = Some(rate);
            told
        }
    }
}

/// A text of the TS session.
fn drawn_ts(rt: &impl Abort, alloc: Global, dice: &mut Dice, plain: &mut Plain) -> Text {
    let content = dice.next(2_000_000_000);
    let wall = 10 * u64::from(dice.next(2_000_000_000));
    let speed = [-64, -3, 0, 1, 64][dice.next(5) as usize];
    match dice.next(8) {
        0 => {
            plain.last = Err(Cause::Unavailable);
            text(rt, alloc, r#"{"contentTime":null,"wallClockTime":5}"#)
        }
        1 => {
            plain.last = Err(Cause::Unreadable(TsFault::Field(TsName::ContentTime)));
            text(rt, alloc, "{}")
        }
        _ => {
            plain.last = Ok((content, wall, speed));
            let words = format!(in alloc;
                "{{\"contentTime\":\"{content}\",\"wallClockTime\":\"{wall}\",\
                 \"timelineSpeedMultiplier\":{speed}}}"
            );
            text(rt, alloc, &words.expect(rt, "memory"))
        }
    }
}

fn drawn(rt: &impl Abort, alloc: Global, dice: &mut Dice, plain: &mut Plain) -> CompanionEvent
    ensures { IsEvent result }
{
    if dice.next(2) == 0 {
        CompanionEvent::CiiText(text(rt, alloc, drawn_cii(dice, plain)))
    } else {
        CompanionEvent::TsText(drawn_ts(rt, alloc, dice, plain))
    }
}

/// Whether both reports and both positions are equal.
fn agree(companion: &Companion, plain: &Plain, reading: u64) -> bool
    requires range { reading < LIMIT }
    requires floor { companion.now.client.floor ≤ reading }
{
    report(companion, reading) == plain.report()
        && companion.assigned(10_000_000_017) == plain.position(10_000_000_017).ok()
}

fn compare_drawn(rt: &impl Abort, alloc: Global, companion: &mut Companion, reading: u64)
    requires range { reading < LIMIT }
    requires floor { companion.old.client.floor ≤ reading }
{
    let mut dice = Dice { seed: 1 };
    let mut plain = Plain {
        rate: None,
        last: Err(Cause::NoTimestamp),
    };
    for _ in 0..1000 {
        let event = drawn(rt, alloc, &mut dice, &mut plain);
        let _ = step(companion, event);
        check_that(rt, agree(companion, &plain, reading), "a drawn text");
    }
}

#[test]
fn drawn_texts_give_the_same_reports(rt: HostRuntime) {
    let mut companion = new_companion(&rt, rt.alloc(), "urn:x:1", "dvb://", EXACT);
    let reading = play(&rt, rt.alloc(), &mut companion, ANSWERED);
    compare_drawn(&rt, rt.alloc(), &mut companion, reading);
}
