ghost use Rattle.std.specs.Prelude.{◌≡◌, IfOk, option_map};
ghost use Rattle.serde_json.specs.View.{view, items_view, members_view};
ghost use Rattle.std.specs.Str.{IsUtf8};
ghost use Rattle.css_cii.specs.Texts as texts;
ghost use Rattle.css_cii.specs.Timelines as timelines;

use css_num::{Memory, Rate, Text, Timeline, Timelines};
use css_text::{Field, Map, field_of, member, object};
use serde_json::Value;
use std::alloc::Global;

/// A whole number as a part of a rate, where it is in range.
fn part_of(number: i64) -> Option<u32>
    ensures { result ≡ timelines.part_of number }
{
    if 1 <= number && number <= 1_000_000_000 {
        Some(number as u32)
    } else {
        None
    }
}

/// The part of a rate that the member of this name is.
fn part_in(alloc: Global, map: &Map, name: &str) -> Result<Option<u32>, Memory>
    ensures { IfOk result (λ part. part ≡ timelines.part_in name.now (members_view map.now.entries)) }
{
    match field_of(alloc, map, name)? {
        Field::Whole(number) => Ok(part_of(number)),
        _ => Ok(None),
    }
}

/// The rate that the properties of a timeline are.
fn rate_in(alloc: Global, properties: Option<&Value>) -> Result<Option<Rate>, Memory>
    ensures { IfOk result (λ rate. rate ≡ timelines.rate_in (option_map (λ value. view value.now) properties.entry)) }
{
    let Some(value) = properties else {
        return Ok(None);
    };
    let Some(map) = object(value) else {
        return Ok(None);
    };
    let Some(units_per_tick) = part_in(alloc, map, "unitsPerTick")? else {
        return Ok(None);
    };
    let Some(units_per_second) = part_in(alloc, map, "unitsPerSecond")? else {
        return Ok(None);
    };
    Ok(Rate::of(units_per_tick, units_per_second))
}

/// The timeline that an entry of the list is.
fn timeline_in(alloc: Global, value: &Value) -> Result<Option<Timeline>, Memory>
    ensures value { IfOk result (λ timeline. timeline ≡ timelines.timeline_of (view value.now)) }
    ensures utf8 { IfOk result (texts.EachIn (λ timeline. IsUtf8 timeline.selector)) }
{
    let Some(map) = object(value) else {
        return Ok(None);
    };
    let Field::Words(selector) = field_of(alloc, map, "timelineSelector")? else {
        return Ok(None);
    };
    let Some(rate) = rate_in(alloc, member(map, "timelineProperties"))? else {
        return Ok(None);
    };
    Ok(Some(Timeline { selector, rate }))
}

/// The timelines of a list, where each entry is one.
pub(crate) fn timelines_in(alloc: Global, values: &Vec<Value>) -> Result<Option<Timelines>, Memory>
    ensures value { IfOk result (λ told. told ≡ timelines.timelines_of (items_view values.now.items)) }
    ensures utf8 { IfOk result (texts.EachIn texts.SelectorsAreUtf8) }
{
    let mut found = Vec::new(alloc);
    for value in values {
        let Some(timeline) = timeline_in(alloc, value)? else {
            return Ok(None);
        };
        found.push(timeline)?;
    }
    Ok(Some(Timelines::of(found)))
}
