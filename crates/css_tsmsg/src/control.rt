ghost use Rattle.std.specs.Prelude.{◌≡◌, true, option_copied, IfOk};
ghost use Rattle.serde_json.specs.View.{members_view};
ghost use Rattle.css_num.specs.Gives.{GivesBy};
ghost use Rattle.css_tsmsg.specs.Controls as controls;
ghost use Rattle.css_tsmsg.specs.Times as times;
ghost use Rattle.css_tsmsg.specs.declared.fault.TsFault.TheVariants as faults;

use crate::digits::{content_value, digits_value, is_wall, without_minus};
use crate::fault::TsFault;
use crate::name::TsName;
use crate::written::read_written;
use css_num::Control;
use css_text::{Field, Map, field_of, read_object};
use std::alloc::Global;

/// The content time that a field is.
pub(crate) fn content_words(field: &Field) -> Option<&[u8]>
    ensures { option_copied result ≡ times.words_that times.is_content field.now }
{
    match field {
        Field::Words(words) => if is_wall(without_minus(words.bytes())) {
            Some(words.bytes())
        } else {
            None
        },
        _ => None,
    }
}

/// The wall time that a field is.
pub(crate) fn wall_words(field: &Field) -> Option<&[u8]>
    ensures { option_copied result ≡ times.words_that times.is_wall field.now }
{
    match field {
        Field::Words(words) => if is_wall(words.bytes()) {
            Some(words.bytes())
        } else {
            None
        },
        _ => None,
    }
}

fn whole_in(field: &Field) -> Option<i64>
    ensures { result ≡ controls.whole_in field.now }
{
    match field {
        Field::Whole(number) => Some(*number),
        _ => None,
    }
}

fn is_null(field: &Field) -> bool
    ensures { result ≡ controls.is_null field.now }
{
    matches!(field, Field::Null)
}

/// The control timestamp of members that have their forms.
pub(crate) fn in_range(content: &[u8], speed: i64, wall: &[u8]) -> Result<Control, TsFault>
    requires content_form { times.is_content content.now ≡ true }
    requires wall_form { times.is_wall wall.now ≡ true }
    ensures value { result ≡ controls.in_range content.now speed wall.now }
    ensures in_range { IfOk result controls.IsInRange }
{
    if without_minus(content).len() > 18 {
        return Err(TsFault::Range(TsName::ContentTime));
    }
    if speed < -64 || speed > 64 {
        return Err(TsFault::Range(TsName::TimelineSpeedMultiplier));
    }
    if wall.len() > 19 {
        return Err(TsFault::Range(TsName::WallClockTime));
    }
    let wall = digits_value(wall);
    if wall >= 1 << 63 {
        return Err(TsFault::Range(TsName::WallClockTime));
    }
    Ok(Control::Available {
        content: content_value(content),
        wall,
        speed: speed as i32,
    })
}

/// The control timestamp of three fields, where `odd` says that some numeral of
/// the text isn't whole.
fn control_from(content: &Field, speed: &Field, wall: &Field, odd: bool) -> Result<Control, TsFault>
    ensures value { result ≡ controls.control_from content.now speed.now wall.now odd }
    ensures in_range { IfOk result controls.IsInRange }
{
    if is_null(content) {
        return Ok(Control::Unavailable);
    }
    if is_null(speed) && odd {
        return Err(TsFault::Fractional);
    }
    let Some(content) = content_words(content) else {
        return Err(TsFault::Field(TsName::ContentTime));
    };
    let Some(speed) = whole_in(speed) else {
        return Err(TsFault::Field(TsName::TimelineSpeedMultiplier));
    };
    let Some(wall) = wall_words(wall) else {
        return Err(TsFault::Field(TsName::WallClockTime));
    };
    in_range(content, speed, wall)
}

/// The control timestamp that an object is.
#[tactic(auto, unfolding(crate::specs::Controls::control_in))]
fn control_in(alloc: Global, map: &Map, odd: bool) -> Result<Control, TsFault>
    ensures value { GivesBy (λ control. control) faults.Memory result
        (controls.control_in (members_view map.now.entries) odd) }
    ensures in_range { IfOk result controls.IsInRange }
{
    let content = field_of(alloc, map, TsName::ContentTime.as_str())?;
    let speed = field_of(alloc, map, TsName::TimelineSpeedMultiplier.as_str())?;
    let wall = field_of(alloc, map, TsName::WallClockTime.as_str())?;
    control_from(&content, &speed, &wall, odd)
}

/// Reads a control timestamp of CSS-TS (ETSI TS 103 286-2): an object with the members `contentTime`,
/// `timelineSpeedMultiplier` and `wallClockTime`.
///
/// Where `contentTime` is null the timeline is unavailable, whatever the other members are. Otherwise the members have
/// these forms:
///
/// - `contentTime` is a text of at most 18 digits, with or without a `-` before them
/// - `timelineSpeedMultiplier` is a whole number of -64 to 64
/// - `wallClockTime` is a text of at most 19 digits whose number is below 2^63
///
/// The faults are tested in this order. `Fractional` is a speed that is null in the whole text, where some numeral of
/// the text isn't whole. `Field` is a member that is missing or of another form, and `Range` a number out of range.
///
/// A text as [`write_control`](crate::write_control) writes it takes a third of the time of another.
#[tactic(auto, unfolding(crate::specs::Controls::control_of))]
pub fn read_control(alloc: Global, bytes: &[u8]) -> Result<Control, TsFault>
    ensures value { GivesBy (λ control. control) faults.Memory result (controls.control_of bytes.now) }
    ensures in_range { IfOk result controls.IsInRange }
{
    if let Some(control) = read_written(alloc, bytes)? {
        return Ok(control);
    }
    let read = read_object(alloc, bytes)?;
    control_in(alloc, &read.map, read.odd > 0)
}
