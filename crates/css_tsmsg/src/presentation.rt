ghost use Rattle.std.specs.Prelude.{◌≡◌, ◌≤◌, IfOk, IfSome, MatchOption, Ok, Some, None, option_map, length, true};
ghost use Rattle.css_num.specs.Gives.{GivesBy};
ghost use Rattle.serde_json.specs.View.{members_view, view};
ghost use Rattle.css_tsmsg.specs.Presentations as presentations;
ghost use Rattle.css_tsmsg.specs.Times as times;
ghost use Rattle.css_tsmsg.specs.declared.fault.TsFault.TheVariants as faults;
ghost use Rattle.css_tsmsg.specs.declared.name.TsName.TheVariants as names;

use crate::bound::{Bound, Presentation};
use crate::digits::{content_value, digits_value, is_wall, without_minus};
use crate::fault::TsFault;
use crate::name::TsName;
use css_num::Text;
use css_text::{Field, Map, field_of, member, object, read_object};
use serde_json::Value;
use std::alloc::Global;

/// The two times of a bound as they are written. An infinite wall time is None.
pub(crate) struct Form {
    pub(crate) content: Text,
    pub(crate) wall: Option<Text>,
}

// By hand: a derived drop is opened at each exit of each caller's proof.
impl Drop for Form {
    fn drop(self) {
        let Form {
            content: _,
            wall: _,
        } = self;
    }
}

/// Whether the words are those of the infinite wall time that this end may have.
fn is_infinite(end: TsName, words: &[u8]) -> bool
    ensures { result ≡ presentations.is_infinite end words.now }
{
    match end {
        TsName::Earliest => words == b"minusinfinity".as_slice(),
        TsName::Latest => words == b"plusinfinity".as_slice(),
        _ => false,
    }
}

/// The content time that a field is.
fn content_form(field: Field) -> Option<Text>
    ensures value { result ≡ times.words_that times.is_content field }
    ensures form { IfSome result (λ words. times.is_content words ≡ true) }
{
    match field {
        Field::Words(words) => if is_wall(without_minus(words.bytes())) {
            Some(words)
        } else {
            None
        },
        _ => None,
    }
}

/// The wall time that a field is, where it may be infinite.
fn wall_form(end: TsName, field: Field) -> Option<Option<Text>>
    ensures value { result ≡ presentations.wall_form end field }
    ensures form { IfSome result (presentations.IsWallForm end) }
{
    match field {
        Field::Words(words) => if is_infinite(end, words.bytes()) {
            Some(None)
        } else if is_wall(words.bytes()) {
            Some(Some(words))
        } else {
            None
        },
        _ => None,
    }
}

/// The form of both times.
fn form_from(
    end: TsName,
    content: Option<Text>,
    wall: Option<Option<Text>>,
) -> Result<Form, TsFault>
    requires content { IfSome content (λ words. times.is_content words ≡ true) }
    requires wall { IfSome wall (presentations.IsWallForm end) }
    ensures value { result ≡ presentations.form_from end content wall }
    ensures form { IfOk result (presentations.IsForm end) }
{
    let Some(content) = content else {
        return Err(TsFault::Field(end));
    };
    let Some(wall) = wall else {
        return Err(TsFault::Field(end));
    };
    Ok(Form { content, wall })
}

/// The form of an object.
fn form_in(alloc: Global, end: TsName, map: &Map) -> Result<Form, TsFault>
    ensures value { GivesBy (λ form. form) faults.Memory result
        (presentations.form_in end (members_view map.now.entries)) }
    ensures form { IfOk result (presentations.IsForm end) }
{
    let content = content_form(field_of(alloc, map, TsName::ContentTime.as_str())?);
    let wall = wall_form(end, field_of(alloc, map, TsName::WallClockTime.as_str())?);
    form_from(end, content, wall)
}

/// The form of a member.
fn form_of(alloc: Global, end: TsName, value: Option<&Value>) -> Result<Form, TsFault>
    ensures value { GivesBy (λ form. form) faults.Memory result
        (presentations.form_of end (option_map (λ value. view value.now) value.entry)) }
    ensures form { IfOk result (presentations.IsForm end) }
{
    let Some(value) = value else {
        return Err(TsFault::Field(end));
    };
    match object(value) {
        Some(map) => form_in(alloc, end, map),
        None => Err(TsFault::Field(end)),
    }
}

/// The form of a member that may be absent or null.
fn actual_form(alloc: Global, value: Option<&Value>) -> Result<Option<Form>, TsFault>
    ensures value { GivesBy (λ form. form) faults.Memory result
        (presentations.actual_form (option_map (λ value. view value.now) value.entry)) }
    ensures form { IfOk result (λ form. IfSome form (presentations.IsForm names.Actual)) }
{
    match value {
        None => Ok(None),
        Some(Value::Null) => Ok(None),
        Some(_) => Ok(Some(form_of(alloc, TsName::Actual, value)?)),
    }
}

/// The bound of a content time and a wall time.
fn wall_in_range(end: TsName, content: i64, wall: &Option<Text>) -> Result<Bound, TsFault>
    requires content { times.IsContent content }
    requires wall { presentations.IsWallForm end wall.now }
    ensures value { result ≡ presentations.wall_in_range end content wall.now }
    ensures in_range { IfOk result (presentations.IsBoundOf end) }
{
    match wall {
        None => match end {
            TsName::Earliest => Ok(Bound::MinusInfinity { content }),
            _ => Ok(Bound::PlusInfinity { content }),
        },
        Some(wall) => finite_bound(end, content, wall.bytes()),
    }
}

/// The bound of a content time and a wall time that isn't infinite.
fn finite_bound(end: TsName, content: i64, wall: &[u8]) -> Result<Bound, TsFault>
    requires content { times.IsContent content }
    requires wall { times.is_wall wall.now ≡ true }
    ensures value { result ≡ presentations.wall_in_range end content (Some wall.now) }
    ensures in_range { IfOk result presentations.IsFinite }
{
    if wall.len() > 19 {
        return Err(TsFault::Range(end));
    }
    let wall = digits_value(wall);
    if wall >= 1 << 63 {
        return Err(TsFault::Range(end));
    }
    Ok(Bound::At { content, wall })
}

/// The bound of a form whose numbers are in range.
fn bound_of(end: TsName, form: &Form) -> Result<Bound, TsFault>
    requires { presentations.IsForm end form.now }
    ensures value { result ≡ presentations.bound_of end form.now }
    ensures in_range { IfOk result (presentations.IsBoundOf end) }
{
    let content = form.content.bytes();
    if without_minus(content).len() > 18 {
        return Err(TsFault::Range(end));
    }
    wall_in_range(end, content_value(content), &form.wall)
}

/// The bound of a form that may be absent.
fn actual_bound(form: &Option<Form>) -> Result<Option<Bound>, TsFault>
    requires { IfSome form.now (presentations.IsForm names.Actual) }
    ensures value { result ≡ presentations.actual_bound form.now }
    ensures in_range { IfOk result presentations.IsActual }
{
    match form {
        None => Ok(None),
        Some(form) => Ok(Some(bound_of(TsName::Actual, form)?)),
    }
}

/// The presentation of three forms whose numbers are in range.
fn presentation_from(
    earliest: &Form,
    latest: &Form,
    actual: &Option<Form>,
) -> Result<Presentation, TsFault>
    requires earliest { presentations.IsForm names.Earliest earliest.now }
    requires latest { presentations.IsForm names.Latest latest.now }
    requires actual { IfSome actual.now (presentations.IsForm names.Actual) }
    ensures value { result ≡ presentations.presentation_from earliest.now latest.now actual.now }
    ensures in_range { IfOk result presentations.IsPresentation }
{
    Ok(Presentation {
        earliest: bound_of(TsName::Earliest, earliest)?,
        latest: bound_of(TsName::Latest, latest)?,
        actual: actual_bound(actual)?,
    })
}

/// The presentation that an object is: all forms are tested before all ranges.
#[tactic(auto, unfolding(crate::specs::Presentations::presentation_in))]
fn presentation_in(alloc: Global, map: &Map) -> Result<Presentation, TsFault>
    ensures value { GivesBy (λ told. told) faults.Memory result
        (presentations.presentation_in (members_view map.now.entries)) }
    ensures in_range { IfOk result presentations.IsPresentation }
{
    let earliest = form_of(
        alloc,
        TsName::Earliest,
        member(map, TsName::Earliest.as_str()),
    )?;
    let latest = form_of(alloc, TsName::Latest, member(map, TsName::Latest.as_str()))?;
    let actual = actual_form(alloc, member(map, TsName::Actual.as_str()))?;
    presentation_from(&earliest, &latest, &actual)
}

/// Reads a presentation of CSS-TS (ETSI TS 103 286-2, AptEptLpt): an object with the members `earliest`, `latest` and
/// `actual`. The last may be absent or null.
///
/// Each is an object with a `contentTime` and a `wallClockTime` as in a control timestamp. The wall time of `earliest`
/// may be `minusinfinity`, and that of `latest` `plusinfinity`. `Field` and `Range` name the member of the three that
/// has the fault.
#[tactic(auto, unfolding(crate::specs::Presentations::presentation_of))]
pub fn read_presentation(alloc: Global, bytes: &[u8]) -> Result<Presentation, TsFault>
    ensures value { GivesBy (λ told. told) faults.Memory result (presentations.presentation_of bytes.now) }
    ensures in_range { IfOk result presentations.IsPresentation }
{
    let read = read_object(alloc, bytes)?;
    presentation_in(alloc, &read.map)
}
