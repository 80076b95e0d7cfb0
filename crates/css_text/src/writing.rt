ghost use Rattle.std.specs.Prelude.{◌≡◌, ◌≤◌, IfOk, Ok};
ghost use Rattle.serde_json.specs.Data.{depth};
ghost use Rattle.serde_json.specs.Read.{max_depth};
ghost use Rattle.serde_json.specs.View.{view};
ghost use Rattle.serde_json.specs.Written.{compact_text};
ghost use Rattle.css_text.specs.CompactTexts.{IsPlain};
ghost use Rattle.css_text.specs.Readings.{object_of, members_or_fault};
ghost use Rattle.css_text.specs.WholeTexts.{odd_count};

use css_num::{Memory, Text};
use serde_json::Value;
use std::alloc::Global;

/// The compact text of a value: no spaces, and the names of each object in alphabetical order.
///
/// The value's numbers are whole and have at most 18 digits, it has no truth value, and it nests at most 127 levels
/// deep. Such a text is its own whole text. So it is read back as the same value.
pub fn write_value(alloc: Global, value: &Value) -> Result<Text, Memory>
    requires plain { IsPlain (view value.now) }
    requires shallow { depth (view value.now) ≤ max_depth }
    ensures text { IfOk result (λ text. text ≡ compact_text (view value.now)) }
    ensures read_back { IfOk result (λ text. object_of text ≡ members_or_fault (Ok (view value.now))) }
    ensures none_odd { IfOk result (λ text. odd_count text ≡ 0) }
{
    let bytes = value.to_vec(alloc)?;
    Text::of(alloc, bytes.as_slice())
}
