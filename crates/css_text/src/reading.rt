ghost use Rattle.std.specs.Prelude.{◌≡◌, ◌-◌, ◌^◌, min, MatchResult, IfOk, Ok, Err};
ghost use Rattle.css_num.specs.Gives.{GivesBy};
ghost use Rattle.css_text.specs.WholeTexts.{odd_count};
ghost use Rattle.css_text.specs.Readings.{object_of, value_or_fault, members_or_fault, reading};
ghost use Rattle.css_text.specs.declared.faults.TextFault.TheVariants as faults;
ghost use Rattle.serde_json.specs.View.{members_view, view};

use crate::faults::TextFault;
use crate::whole_text::rewrite_numerals;
use serde_json::Value;
use serde_json::error::Category;
use std::alloc::Global;

/// A JSON object: its members in the order of their names, each name once.
pub type Map = serde_json::Map<String, Value>;

/// What bytes read as.
fn value_in(alloc: Global, bytes: &[u8]) -> Result<Value, TextFault>
    ensures { GivesBy view faults.Memory result (value_or_fault (reading bytes.now)) }
{
    match Value::from_slice(alloc, bytes) {
        Ok(value) => Ok(value),
        Err(error) => match error.classify() {
            Category::Memory => Err(TextFault::Memory),
            _ => Err(TextFault::NotJson),
        },
    }
}

/// The object that a value is.
fn into_object(value: Value) -> Result<Map, TextFault>
    ensures { MatchResult result
        (λ map. members_or_fault (Ok (view value)) ≡ Ok (members_view map.entries))
        (λ fault. members_or_fault (Ok (view value)) ≡ Err fault) }
{
    match value {
        Value::Object(map) => Ok(map),
        Value::Null => Err(TextFault::NotObject),
        Value::Bool(_) => Err(TextFault::NotObject),
        Value::Number(_) => Err(TextFault::NotObject),
        Value::String(_) => Err(TextFault::NotObject),
        Value::Array(_) => Err(TextFault::NotObject),
    }
}

/// The object that bytes read as.
fn object_in(alloc: Global, bytes: &[u8]) -> Result<Map, TextFault>
    ensures { GivesBy (λ map. members_view map.entries) faults.Memory result
        (members_or_fault (value_or_fault (reading bytes.now))) }
{
    let value = value_in(alloc, bytes)?;
    into_object(value)
}

/// The object that a whole text reads as.
#[derive(Drop)]
pub struct Read {
    /// Its members.
    pub map: Map,
    /// How many numerals of the text became `null`: `u32::MAX` stands for that
    /// many or more.
    pub odd: u32,
}

/// Reads the whole text of these bytes as a JSON object. Of a repeated name the last value counts.
///
/// `NotJson` comes exactly where the whole text has no reading. Wrong UTF-8 and more than 127 levels of arrays and
/// objects have none. `NotObject` comes exactly where it reads as another value.
#[tactic(auto, unfolding(crate::specs::Readings::object_of))]
pub fn read_object(alloc: Global, bytes: &[u8]) -> Result<Read, TextFault>
    ensures object { GivesBy (λ read. members_view read.map.entries) faults.Memory result (object_of bytes.now) }
    ensures odd { IfOk result (λ read. read.odd ≡ min (odd_count bytes.now) (2 ^ 32 - 1)) }
{
    let whole = rewrite_numerals(alloc, bytes)?;
    let map = object_in(alloc, whole.text.bytes())?;
    Ok(Read {
        map,
        odd: whole.odd,
    })
}
