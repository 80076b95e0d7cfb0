ghost use Rattle.std.specs.Prelude.{◌≡◌, IfOk, option_map, option_and_then};
ghost use Rattle.serde_json.specs.Data.{Data};
ghost use Rattle.serde_json.specs.Find.{get_member, as_array, as_object};
ghost use Rattle.serde_json.specs.View.{view, items_view, members_view};
ghost use Rattle.css_text.specs.Fields.{field_at, field_of_data, HasUtf8};

use crate::reading::Map;
use css_num::{Memory, Text};
use serde_json::Value;
use std::alloc::Global;

/// What a member of an object holds.
#[derive(Debug, Drop)]
pub enum Field {
    /// The object has no member of this name.
    Missing,
    /// `null`.
    Null,
    /// A text.
    Words(Text),
    /// A whole number.
    Whole(i64),
    /// An array.
    List,
    /// An object.
    Object,
    /// A truth value, or a whole number that an `i64` doesn't hold.
    Other,
}

/// The value of the member of this name, and None where there is none.
pub fn member<'a>(map: &'a Map, name: &str) -> Option<&'a Value>
    ensures { option_map (λ value. view value.now) result ≡ get_member name.now (members_view map.now.entries) }
{
    map.get(name)
}

/// What a value is.
fn field_in(alloc: Global, value: &Value) -> Result<Field, Memory>
    ensures value { IfOk result (λ field. field ≡ field_of_data (view value.now)) }
    ensures utf8 { IfOk result HasUtf8 }
{
    match value {
        Value::Null => Ok(Field::Null),
        Value::Bool(_) => Ok(Field::Other),
        Value::Number(number) => match number.as_i64() {
            Some(whole) => Ok(Field::Whole(whole)),
            None => Ok(Field::Other),
        },
        Value::String(words) => Ok(Field::Words(Text::of(alloc, words.as_bytes())?)),
        Value::Array(_) => Ok(Field::List),
        Value::Object(_) => Ok(Field::Object),
    }
}

/// What the member of this name holds. A text is UTF-8.
pub fn field_of(alloc: Global, map: &Map, name: &str) -> Result<Field, Memory>
    ensures value { IfOk result (λ field. field ≡ field_at name.now (members_view map.now.entries)) }
    ensures utf8 { IfOk result HasUtf8 }
{
    match member(map, name) {
        Some(value) => field_in(alloc, value),
        None => Ok(Field::Missing),
    }
}

/// The array that the member of this name is, and None where it is missing or
/// no array.
pub fn list<'a>(map: &'a Map, name: &str) -> Option<&'a Vec<Value>>
    ensures { option_map (λ values. items_view values.now.items) result
        ≡ option_and_then as_array (get_member name.now (members_view map.now.entries)) }
{
    match member(map, name) {
        Some(value) => value.as_array(),
        None => None,
    }
}

/// The object that a value is, and None where it is no object.
pub fn object(value: &Value) -> Option<&Map>
    ensures { option_map (λ map. members_view map.now.entries) result ≡ as_object (view value.now) }
{
    value.as_object()
}
