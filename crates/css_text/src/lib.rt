//! Whole texts and the JSON objects that they read as: what the messages of
//! companion screen synchronisation (ETSI TS 103 286-2, CSS-CII and CSS-TS) are
//! read and written with.
//!
//! A message may spell one whole number in several ways, as `1` and `1.0`. Its
//! whole text has each of them in one spelling, and `null` in place of every
//! numeral that isn't whole, so a reader meets whole numbers alone.
#![tactic(auto)]

mod faults;
mod fields;
mod numerals;
mod reading;
mod whole_text;
mod writing;

ghost use Rattle.std.specs.Prelude.{◌≡◌, ◌≤◌, Ok};
ghost use Rattle.serde_json.specs.Data.{Data, depth};
ghost use Rattle.serde_json.specs.Read.{max_depth};
ghost use Rattle.serde_json.specs.Written.{compact_text};
ghost use Rattle.css_text.specs.CompactTexts.{IsPlain};
ghost use Rattle.css_text.specs.Ordered.{HasUtf8, IsOrdered};
ghost use Rattle.css_text.specs.Readings.{object_of, members_or_fault};

pub use faults::TextFault;
pub use fields::{Field, field_of, list, member, object};
pub use reading::{Map, Read, read_object};
pub use whole_text::{Whole, rewrite_numerals};
pub use writing::write_value;

/// The compact text of a plain value is read back as that value.
pub fn compact_texts_are_read_back()
    ensures { (d : Data) → IsPlain d → depth d ≤ max_depth → HasUtf8 d → IsOrdered d
        → object_of (compact_text d) ≡ members_or_fault (Ok d) }
{}
