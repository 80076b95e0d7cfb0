//! The timelines that the television lists.
ghost use Rattle.std.specs.Prelude.{◌≡◌, ◌≢◌, Some, None, slice_get, length, IfSome};
ghost use Rattle.css_companion_c.specs.Codes.{timeline_code, DONE, NO_ROOM};
ghost use Rattle.css_companion_c.specs.Texts.{listed, TellsTimeline};

use crate::codes;
use crate::texts::put;
use css_companion::Companion;
use css_num::Timeline;

/// The tick rate of a timeline: `units_per_second / units_per_tick` ticks a second.
#[repr(C)]
#[derive(Clone, Copy, Drop)]
pub struct TimelineRate {
    pub units_per_tick: u32,
    pub units_per_second: u32,
}

/// Puts a timeline's selector into a buffer, with its tick rate.
fn put_timeline(
    timeline: &Timeline,
    rate: &mut TimelineRate,
    out: &mut [u8],
    used: &mut usize,
) -> u32
    ensures kept { result ≢ DONE → (out.new ≡ out.old) × (rate.new ≡ rate.old) }
    ensures code { result ≡ timeline_code (Some timeline.now) (length out.old) }
    ensures told { result ≡ DONE → TellsTimeline timeline.now used.new out.old out.new rate.new }
    ensures needs { result ≡ NO_ROOM → used.new ≡ length timeline.now.selector }
{
    let code = put(timeline.selector.bytes(), out, used);
    if code == codes::DONE {
        *rate = TimelineRate {
            units_per_tick: timeline.rate.units_per_tick,
            units_per_second: timeline.rate.units_per_second,
        };
    }
    code
}

/// Puts a timeline of the state into a buffer, by its number from 0, with its tick rate.
pub(crate) fn timeline(
    companion: &Companion,
    number: usize,
    rate: &mut TimelineRate,
    out: &mut [u8],
    used: &mut usize,
) -> u32
    ensures kept { result ≢ DONE → (out.new ≡ out.old) × (rate.new ≡ rate.old) }
    ensures code { result ≡ timeline_code (listed number companion.now.state.timelines) (length out.old) }
    ensures told { result ≡ DONE → IfSome (listed number companion.now.state.timelines) (λ timeline.
        TellsTimeline timeline used.new out.old out.new rate.new) }
    ensures needs { result ≡ NO_ROOM → IfSome (listed number companion.now.state.timelines) (λ timeline.
        used.new ≡ length timeline.selector) }
{
    match &companion.state().timelines {
        None => codes::IS_NULL,
        Some(timelines) => match timelines.list().get(number) {
            None => codes::IS_NULL,
            Some(timeline) => put_timeline(timeline, rate, out, used),
        },
    }
}
