ghost use Rattle.std.specs.Prelude.{◌≡◌, IfOk, OnOk, Ok, codes, string_bytes, decimal};
ghost use Rattle.std.specs.Fmt.{signed_decimal};
ghost use Rattle.std.specs.Str.{IsUtf8};
ghost use Rattle.serde_json.specs.Data.{null, no_members, number, object, put, string};
ghost use Rattle.serde_json.specs.Find.{of_integer};
ghost use Rattle.serde_json.specs.View.{members_view, view};
ghost use Rattle.css_tsmsg.specs.Controls as controls;
ghost use Rattle.css_tsmsg.specs.Presentations as presentations;
ghost use Rattle.css_tsmsg.specs.Setups as setups;

use crate::bound::{Bound, Presentation};
use crate::setup::Setup;
use crate::written::words_of;
use css_num::{Control, Memory, Text};
use css_text::{Map, write_value};
use serde_json::Value;
use std::alloc::{AllocError, Global};

/// The words of a text.
fn words(text: &Text) -> &str
    requires { IsUtf8 text.now }
    ensures { result.now ≡ text.now }
{
    match str::from_utf8(text.bytes()) {
        Ok(words) => words,
        Err(_) => unreachable!(),
    }
}

/// The value of a text.
fn words_value(alloc: Global, words: &str) -> Result<Value, AllocError>
    ensures { IfOk result (λ value. view value ≡ string words.now) }
{
    Ok(Value::String(String::from_str(alloc, words)?))
}

/// The object of two members.
fn object_of_two(
    alloc: Global,
    first_name: &str,
    first: Value,
    second_name: &str,
    second: Value,
) -> Result<Value, AllocError>
    ensures { IfOk result (λ value.
        view value ≡ object (put first_name.now (view first) (put second_name.now (view second) no_members))) }
{
    let mut members = Map::new(alloc);
    serde_json::put(&mut members, alloc, second_name, second)?;
    serde_json::put(&mut members, alloc, first_name, first)?;
    Ok(Value::Object(members))
}

/// The value of a setup.
fn setup_value(alloc: Global, setup: &Setup) -> Result<Value, AllocError>
    requires { setups.IsUtf8Setup setup.now }
    ensures { IfOk result (λ value. view value ≡ setups.setup_data setup.now) }
{
    let stem = words_value(alloc, words(&setup.stem))?;
    let selector = words_value(alloc, words(&setup.selector))?;
    object_of_two(alloc, "contentIdStem", stem, "timelineSelector", selector)
}

/// Writes the setup data of CSS-TS (ETSI TS 103 286-2) as a compact JSON object
/// with its names in alphabetical order. `read_setup` reads the same setup back.
/// Each text is UTF-8.
pub fn write_setup(alloc: Global, setup: &Setup) -> Result<Text, Memory>
    requires { setups.IsUtf8Setup setup.now }
    ensures text { IfOk result (λ text. text ≡ setups.setup_text setup.now) }
    ensures read_back { IfOk result (λ text. setups.setup_of text ≡ Ok setup.now) }
{
    let value = setup_value(alloc, setup)?;
    write_value(alloc, &value)
}

/// The value of a control timestamp of an available timeline.
fn available_value(alloc: Global, content: i64, wall: u64, speed: i32) -> Result<Value, AllocError>
    ensures { IfOk result (λ value.
        view value ≡ controls.times_data (string (signed_decimal content)) (number (of_integer speed))
        (string (decimal wall))) }
{
    let mut members = Map::new(alloc);
    let wall = format!(in alloc; "{wall}")?;
    serde_json::put(&mut members, alloc, "wallClockTime", Value::String(wall))?;
    let speed = Value::from(speed);
    serde_json::put(&mut members, alloc, "timelineSpeedMultiplier", speed)?;
    let content = format!(in alloc; "{content}")?;
    serde_json::put(&mut members, alloc, "contentTime", Value::String(content))?;
    Ok(Value::Object(members))
}

/// The value of a control timestamp of a timeline that isn't available.
fn unavailable_value(alloc: Global) -> Result<Value, AllocError>
    ensures { IfOk result (λ value. view value ≡ controls.times_data null null (string (codes "0"))) }
{
    let mut members = Map::new(alloc);
    let wall = words_value(alloc, "0")?;
    serde_json::put(&mut members, alloc, "wallClockTime", wall)?;
    serde_json::put(&mut members, alloc, "timelineSpeedMultiplier", Value::Null)?;
    serde_json::put(&mut members, alloc, "contentTime", Value::Null)?;
    Ok(Value::Object(members))
}

/// The JSON object of a control timestamp, with its names in alphabetical order.
pub fn control_value(alloc: Global, control: &Control) -> Result<Value, AllocError>
    ensures { IfOk result (λ value. view value ≡ controls.control_data control.now) }
{
    match control {
        Control::Available {
            content,
            wall,
            speed,
        } => { available_value(alloc, *content, *wall, *speed) }
        Control::Unavailable => unavailable_value(alloc),
    }
}

/// Writes a control timestamp of CSS-TS (ETSI TS 103 286-2) as a compact JSON
/// object with its names in alphabetical order. `read_control` reads the same
/// value back. Its content time has at most 18 digits, its wall time is below
/// 2^63, and its speed is -64 to 64.
pub fn write_control(alloc: Global, control: &Control) -> Result<Text, Memory>
    requires { controls.IsInRange control.now }
    ensures text { IfOk result (λ text. text ≡ controls.control_text control.now) }
    ensures read_back { IfOk result (λ text. controls.control_of text ≡ Ok control.now) }
{
    let words = words_of(alloc, control)?;
    Text::of(alloc, words.as_bytes())
}

/// The words of a content time.
fn content_text(alloc: Global, bound: &Bound) -> Result<String, AllocError>
    ensures { IfOk result (λ words. string_bytes words ≡ presentations.content_text bound.now) }
{
    match bound {
        Bound::At { content, .. } => format!(in alloc; "{content}"),
        Bound::MinusInfinity { content } => format!(in alloc; "{content}"),
        Bound::PlusInfinity { content } => format!(in alloc; "{content}"),
    }
}

/// The words of a wall time.
fn wall_text(alloc: Global, bound: &Bound) -> Result<String, AllocError>
    ensures { IfOk result (λ words. string_bytes words ≡ presentations.wall_text bound.now) }
{
    match bound {
        Bound::At { wall, .. } => format!(in alloc; "{wall}"),
        Bound::MinusInfinity { .. } => String::from_str(alloc, "minusinfinity"),
        Bound::PlusInfinity { .. } => String::from_str(alloc, "plusinfinity"),
    }
}

/// The value of a bound.
fn bound_value(alloc: Global, bound: &Bound) -> Result<Value, AllocError>
    ensures { IfOk result (λ value. view value ≡ presentations.bound_data bound.now) }
{
    let content = content_text(alloc, bound)?;
    let wall = wall_text(alloc, bound)?;
    object_of_two(
        alloc,
        "contentTime",
        Value::String(content),
        "wallClockTime",
        Value::String(wall),
    )
}

/// Adds a bound to an object, before its other members.
fn put_bound(alloc: Global, members: &mut Map, name: &str, bound: &Bound) -> Result<(), AllocError>
    ensures { OnOk result (members_view members.new.entries
        ≡ put name.now (presentations.bound_data bound.now) (members_view members.old.entries)) }
{
    let value = bound_value(alloc, bound)?;
    serde_json::put(members, alloc, name, value)?;
    Ok(())
}

/// The value of a window without its actual bound.
fn window_value(alloc: Global, earliest: &Bound, latest: &Bound) -> Result<Value, AllocError>
    ensures { IfOk result (λ value. view value ≡ presentations.window_data earliest.now latest.now) }
{
    let mut members = Map::new(alloc);
    put_bound(alloc, &mut members, "latest", latest)?;
    put_bound(alloc, &mut members, "earliest", earliest)?;
    Ok(Value::Object(members))
}

/// The value of a window with its actual bound.
fn told_value(
    alloc: Global,
    earliest: &Bound,
    latest: &Bound,
    actual: &Bound,
) -> Result<Value, AllocError>
    ensures { IfOk result (λ value. view value ≡ presentations.told_data earliest.now latest.now actual.now) }
{
    let mut members = Map::new(alloc);
    put_bound(alloc, &mut members, "latest", latest)?;
    put_bound(alloc, &mut members, "earliest", earliest)?;
    put_bound(alloc, &mut members, "actual", actual)?;
    Ok(Value::Object(members))
}

/// The value of a presentation.
fn presentation_value(alloc: Global, presentation: &Presentation) -> Result<Value, AllocError>
    ensures { IfOk result (λ value. view value ≡ presentations.presentation_data presentation.now) }
{
    match &presentation.actual {
        None => window_value(alloc, &presentation.earliest, &presentation.latest),
        Some(actual) => told_value(alloc, &presentation.earliest, &presentation.latest, actual),
    }
}

/// Writes a presentation of CSS-TS (ETSI TS 103 286-2, AptEptLpt) as a compact JSON object with its names in
/// alphabetical order. An absent actual bound is left out. `read_presentation` reads the same presentation back.
///
/// The earliest bound isn't `PlusInfinity`, the latest isn't `MinusInfinity`, and the actual one is `At`. Content times
/// have at most 18 digits, and wall times are below 2^63.
pub fn write_presentation(alloc: Global, presentation: &Presentation) -> Result<Text, Memory>
    requires { presentations.IsPresentation presentation.now }
    ensures text { IfOk result (λ text. text ≡ presentations.presentation_text presentation.now) }
    ensures read_back { IfOk result (λ text. presentations.presentation_of text ≡ Ok presentation.now) }
{
    let value = presentation_value(alloc, presentation)?;
    write_value(alloc, &value)
}
