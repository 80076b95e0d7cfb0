ghost use Rattle.std.specs.Prelude.{◌≡◌, IfOk, OnOk, Ok};
ghost use Rattle.std.specs.Str.{IsUtf8};
ghost use Rattle.serde_json.specs.Data.{string, object};
ghost use Rattle.serde_json.specs.View.{view, members_view};
ghost use Rattle.css_cii.specs.Messages.{message_of};
ghost use Rattle.css_num.specs.Rates.{IsTickRate};
ghost use Rattle.css_cii.specs.States.{full_change};
ghost use Rattle.css_cii.specs.Texts as texts;
ghost use Rattle.css_cii.specs.declared.name.CiiName.TheVariants as names;

use crate::change::{Change, Told};
use crate::merging::full;
use crate::name::CiiName;
use crate::state::State;
use css_num::{Memory, Rate, Text, Timeline, Timelines};
use css_text::{Map, write_value};
use serde_json::{Value, json};
use std::alloc::{AllocError, Global};

/// The value of a text.
fn words_value(alloc: Global, words: &Text) -> Result<Value, Memory>
    requires { IsUtf8 words.now }
    ensures { IfOk result (λ value. view value ≡ string words.now) }
{
    match str::from_utf8(words.bytes()) {
        Ok(words) => Ok(Value::String(String::from_str(alloc, words)?)),
        Err(_) => unreachable!(),
    }
}

/// The JSON object of a tick rate, as the properties of a timeline: `unitsPerSecond` and `unitsPerTick`.
pub fn rate_value(alloc: Global, rate: Rate) -> Result<Value, AllocError>
    ensures value { IfOk result (λ value. view value ≡ texts.rate_data rate) }
    ensures in_range { IsTickRate rate }
{
    json!(in alloc; {"unitsPerSecond": rate.units_per_second, "unitsPerTick": rate.units_per_tick})
}

/// The value of a timeline.
fn timeline_value(alloc: Global, timeline: &Timeline) -> Result<Value, Memory>
    requires { IsUtf8 timeline.now.selector }
    ensures value { IfOk result (λ value. view value ≡ texts.timeline_data timeline.now) }
    ensures in_range { IsTickRate timeline.now.rate }
{
    let properties = rate_value(alloc, timeline.rate)?;
    let selector = words_value(alloc, &timeline.selector)?;
    let value = json!(in alloc; {"timelineProperties": properties, "timelineSelector": selector})?;
    Ok(value)
}

/// The value of a list of timelines.
fn timelines_value(alloc: Global, timelines: &[Timeline]) -> Result<Value, Memory>
    requires { texts.SelectorsAreUtf8 timelines.now }
    ensures value { IfOk result (λ value. view value ≡ texts.timelines_data timelines.now) }
    ensures in_range { OnOk result (texts.RatesAreInRange timelines.now) }
{
    let mut values = Vec::new(alloc);
    for timeline in timelines {
        values.push(timeline_value(alloc, timeline)?)?;
    }
    Ok(Value::Array(values))
}

/// The value of a text that may be null.
fn words_or_null(alloc: Global, words: &Option<Text>) -> Result<Value, Memory>
    requires { texts.EachIn IsUtf8 words.now }
    ensures { IfOk result (λ value. view value ≡ texts.or_null string words.now) }
{
    match words {
        None => Ok(Value::Null),
        Some(words) => words_value(alloc, words),
    }
}

/// The value of timelines that may be null.
fn timelines_or_null(alloc: Global, timelines: &Option<Timelines>) -> Result<Value, Memory>
    requires { texts.EachIn texts.SelectorsAreUtf8 timelines.now }
    ensures value { IfOk result (λ value. view value ≡ texts.or_null texts.timelines_data timelines.now) }
    ensures in_range { OnOk result (texts.EachIn texts.RatesAreInRange timelines.now) }
{
    match timelines {
        None => Ok(Value::Null),
        Some(timelines) => timelines_value(alloc, timelines.list()),
    }
}

/// Adds a property that is a text, where it is said.
fn tell_words(
    alloc: Global,
    members: &mut Map,
    property: CiiName,
    told: &Told<Text>,
) -> Result<(), Memory>
    requires { texts.EachOf IsUtf8 told.now }
    ensures { OnOk result (members_view members.new.entries
        ≡ texts.with_told string property told.now (members_view members.old.entries)) }
{
    match told {
        Told::Unsaid => Ok(()),
        Told::Said(words) => {
            let value = words_or_null(alloc, words)?;
            serde_json::put(members, alloc, property.as_str(), value)?;
            Ok(())
        }
    }
}

/// Adds the timelines, where they are said.
fn tell_timelines(alloc: Global, members: &mut Map, told: &Told<Timelines>) -> Result<(), Memory>
    requires { texts.EachOf texts.SelectorsAreUtf8 told.now }
    ensures members { OnOk result (members_view members.new.entries
        ≡ texts.with_told texts.timelines_data names.Timelines told.now (members_view members.old.entries)) }
    ensures in_range { OnOk result (texts.EachOf texts.RatesAreInRange told.now) }
{
    match told {
        Told::Unsaid => Ok(()),
        Told::Said(timelines) => {
            let value = timelines_or_null(alloc, timelines)?;
            serde_json::put(members, alloc, CiiName::Timelines.as_str(), value)?;
            Ok(())
        }
    }
}

/// The object of the properties that are said.
fn change_map(alloc: Global, change: &Change) -> Result<Map, Memory>
    requires { texts.IsUtf8Change change.now }
    ensures members { IfOk result (λ map. members_view map.entries ≡ texts.change_members change.now) }
    ensures in_range { OnOk result (texts.EachOf texts.RatesAreInRange change.now.timelines) }
{
    let mut members = Map::new(alloc);
    // From the last name to the first: each goes before those that are there.
    tell_words(alloc, &mut members, CiiName::WcUrl, &change.wc_url)?;
    tell_words(alloc, &mut members, CiiName::TsUrl, &change.ts_url)?;
    tell_timelines(alloc, &mut members, &change.timelines)?;
    tell_words(alloc, &mut members, CiiName::TeUrl, &change.te_url)?;
    tell_words(
        alloc,
        &mut members,
        CiiName::ProtocolVersion,
        &change.protocol_version,
    )?;
    tell_words(
        alloc,
        &mut members,
        CiiName::PresentationStatus,
        &change.presentation_status,
    )?;
    tell_words(alloc, &mut members, CiiName::MrsUrl, &change.mrs_url)?;
    tell_words(
        alloc,
        &mut members,
        CiiName::ContentIdStatus,
        &change.content_id_status,
    )?;
    tell_words(alloc, &mut members, CiiName::ContentId, &change.content_id)?;
    Ok(members)
}

/// The JSON object of a state: all nine properties, null where they are, with their names in alphabetical order. Each
/// text is UTF-8.
#[tactic(auto, unfolding(crate::specs::States::full_change))]
pub fn state_value(alloc: Global, state: &State) -> Result<Value, Memory>
    requires { texts.IsUtf8State state.now }
    ensures value { IfOk result (λ value. view value ≡ object (texts.change_members (full_change state.now))) }
    ensures in_range { OnOk result (texts.EachIn texts.RatesAreInRange state.now.timelines) }
{
    let change = full(state)?;
    let map = change_map(alloc, &change)?;
    Ok(Value::Object(map))
}

/// Writes a message of CSS-CII (ETSI TS 103 286-2): the properties that are
/// said, as a compact JSON object with their names in alphabetical order.
/// `read_message` reads the same change back. Each text is UTF-8.
pub fn write_message(alloc: Global, change: &Change) -> Result<Text, Memory>
    requires { texts.IsUtf8Change change.now }
    ensures text { IfOk result (λ text. text ≡ texts.change_text change.now) }
    ensures read_back { IfOk result (λ text. message_of text ≡ Ok change.now) }
    ensures in_range { OnOk result (texts.EachOf texts.RatesAreInRange change.now.timelines) }
{
    let map = change_map(alloc, change)?;
    write_value(alloc, &Value::Object(map))
}
