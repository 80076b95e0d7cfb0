ghost use Rattle.std.specs.Prelude.{◌≡◌, Some, IfOk};
ghost use Rattle.std.specs.Str.{IsUtf8};
ghost use Rattle.css_num.specs.Gives.{GivesBy};
ghost use Rattle.serde_json.specs.View.{members_view, view};
ghost use Rattle.css_cii.specs.Messages as messages;
ghost use Rattle.css_cii.specs.Texts as texts;
ghost use Rattle.css_cii.specs.declared.fault.CiiFault.TheVariants as faults;

use crate::change::{Change, Told};
use crate::fault::CiiFault;
use crate::name::CiiName;
use crate::timelines::timelines_in;
use css_num::{Text, Timelines};
use css_text::{Field, Map, field_of, member, read_object};
use serde_json::Value;
use std::alloc::Global;

/// What an object says of a property that is a text.
fn words_in(alloc: Global, map: &Map, property: CiiName) -> Result<Told<Text>, CiiFault>
    ensures value { GivesBy
        (λ told. told) faults.Memory result (messages.words_in property (members_view map.now.entries)) }
    ensures utf8 { IfOk result (texts.EachOf IsUtf8) }
{
    match field_of(alloc, map, property.as_str())? {
        Field::Missing => Ok(Told::Unsaid),
        Field::Null => Ok(Told::Said(None)),
        Field::Words(words) => Ok(Told::Said(Some(words))),
        Field::Whole(_) => Err(CiiFault::Field(property)),
        Field::List => Err(CiiFault::Field(property)),
        Field::Object => Err(CiiFault::Field(property)),
        Field::Other => Err(CiiFault::Field(property)),
    }
}

/// What a value says of the timelines.
fn timelines_from(alloc: Global, value: &Value) -> Result<Told<Timelines>, CiiFault>
    ensures value { GivesBy (λ told. told) faults.Memory result (messages.timelines_from (Some (view value.now))) }
    ensures utf8 { IfOk result (texts.EachOf texts.SelectorsAreUtf8) }
{
    let fault = CiiFault::Field(CiiName::Timelines);
    match value {
        Value::Null => Ok(Told::Said(None)),
        Value::Array(values) => match timelines_in(alloc, values)? {
            Some(timelines) => Ok(Told::Said(Some(timelines))),
            None => Err(fault),
        },
        Value::Bool(_) => Err(fault),
        Value::Number(_) => Err(fault),
        Value::String(_) => Err(fault),
        Value::Object(_) => Err(fault),
    }
}

/// What an object says of the timelines.
fn timelines_told(alloc: Global, map: &Map) -> Result<Told<Timelines>, CiiFault>
    ensures value { GivesBy (λ told. told) faults.Memory result (messages.timelines_in (members_view map.now.entries)) }
    ensures utf8 { IfOk result (texts.EachOf texts.SelectorsAreUtf8) }
{
    match member(map, CiiName::Timelines.as_str()) {
        None => Ok(Told::Unsaid),
        Some(value) => timelines_from(alloc, value),
    }
}

/// Says of a property that is a text what an object says of it.
fn read_words(
    told: &mut Told<Text>,
    alloc: Global,
    map: &Map,
    property: CiiName,
) -> Result<(), CiiFault>
    ensures value { GivesBy
        (λ done. told.new) faults.Memory result (messages.words_in property (members_view map.now.entries)) }
    ensures utf8 { IfOk result (λ done. texts.EachOf IsUtf8 told.new) }
{
    *told = words_in(alloc, map, property)?;
    Ok(())
}

/// Says of the nine properties what an object says of them.
#[tactic(auto, unfolding(crate::specs::Messages::change_in))]
fn read_change(change: &mut Change, alloc: Global, map: &Map) -> Result<(), CiiFault>
    ensures value { GivesBy
        (λ done. change.new) faults.Memory result (messages.change_in (members_view map.now.entries)) }
    ensures utf8 { IfOk result (λ done. texts.IsUtf8Change change.new) }
{
    read_words(
        &mut change.protocol_version,
        alloc,
        map,
        CiiName::ProtocolVersion,
    )?;
    read_words(&mut change.mrs_url, alloc, map, CiiName::MrsUrl)?;
    read_words(&mut change.content_id, alloc, map, CiiName::ContentId)?;
    read_words(
        &mut change.content_id_status,
        alloc,
        map,
        CiiName::ContentIdStatus,
    )?;
    read_words(
        &mut change.presentation_status,
        alloc,
        map,
        CiiName::PresentationStatus,
    )?;
    read_words(&mut change.wc_url, alloc, map, CiiName::WcUrl)?;
    read_words(&mut change.ts_url, alloc, map, CiiName::TsUrl)?;
    read_words(&mut change.te_url, alloc, map, CiiName::TeUrl)?;
    change.timelines = timelines_told(alloc, map)?;
    Ok(())
}

/// What an object says of the nine properties.
fn change_in(alloc: Global, map: &Map) -> Result<Change, CiiFault>
    ensures value { GivesBy
        (λ change. change) faults.Memory result (messages.change_in (members_view map.now.entries)) }
    ensures utf8 { IfOk result texts.IsUtf8Change }
{
    let mut change = Change::nothing();
    read_change(&mut change, alloc, map)?;
    Ok(change)
}

/// Reads a message of CSS-CII (ETSI TS 103 286-2): a JSON object. Other members than the nine properties are passed
/// over.
///
/// `protocolVersion`, `mrsUrl`, `contentId`, `contentIdStatus`, `presentationStatus`, `wcUrl`, `tsUrl` and `teUrl` are
/// texts or null. `timelines` is a list or null. Each entry of the list is an object with the text `timelineSelector`
/// and the object `timelineProperties`, which has whole `unitsPerTick` and `unitsPerSecond`, each 1 to 10^9.
///
/// The first property of another form, in the order of [`State`](crate::State), is the fault `Field`. Each text that is
/// read is UTF-8.
#[tactic(auto, unfolding(crate::specs::Messages::message_of))]
pub fn read_message(alloc: Global, bytes: &[u8]) -> Result<Change, CiiFault>
    ensures value { GivesBy (λ change. change) faults.Memory result (messages.message_of bytes.now) }
    ensures utf8 { IfOk result texts.IsUtf8Change }
{
    let read = read_object(alloc, bytes)?;
    change_in(alloc, &read.map)
}
