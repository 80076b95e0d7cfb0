ghost use Rattle.std.specs.Prelude.{◌≡◌, IfOk};
ghost use Rattle.std.specs.Str.{IsUtf8};
ghost use Rattle.css_num.specs.Gives.{GivesBy};
ghost use Rattle.css_text.specs.Fields.{HasUtf8};
ghost use Rattle.serde_json.specs.View.{members_view};
ghost use Rattle.css_tsmsg.specs.Setups as setups;
ghost use Rattle.css_tsmsg.specs.declared.fault.TsFault.TheVariants as faults;

use crate::fault::TsFault;
use crate::name::TsName;
use css_num::Text;
use css_text::{Field, Map, field_of, read_object};
use std::alloc::Global;

/// What a companion asks for (ETSI TS 103 286-2, CSS-TS, setup data).
#[derive(Clone, Debug, PartialEq, Eq)]
pub struct Setup {
    /// How the content id has to begin; empty for any content.
    pub stem: Text,
    /// The timeline that it wants.
    pub selector: Text,
}

// By hand: a derived drop is opened at each exit of each caller's proof.
impl Drop for Setup {
    fn drop(self) {
        let Setup {
            stem: _,
            selector: _,
        } = self;
    }
}

/// The text that a field is.
fn words_from(name: TsName, field: Field) -> Result<Text, TsFault>
    requires { HasUtf8 field }
    ensures value { result ≡ setups.words_from name field }
    ensures utf8 { IfOk result IsUtf8 }
{
    match field {
        Field::Words(words) => Ok(words),
        Field::Missing => Err(TsFault::Field(name)),
        Field::Null => Err(TsFault::Field(name)),
        Field::Whole(_) => Err(TsFault::Field(name)),
        Field::List => Err(TsFault::Field(name)),
        Field::Object => Err(TsFault::Field(name)),
        Field::Other => Err(TsFault::Field(name)),
    }
}

/// The text that a member is.
fn words_in(alloc: Global, map: &Map, name: TsName) -> Result<Text, TsFault>
    ensures value { GivesBy (λ words. words) faults.Memory result
        (setups.words_in name (members_view map.now.entries)) }
    ensures utf8 { IfOk result IsUtf8 }
{
    let field = field_of(alloc, map, name.as_str())?;
    words_from(name, field)
}

/// The setup that an object is.
#[tactic(auto, unfolding(crate::specs::Setups::setup_in))]
fn setup_in(alloc: Global, map: &Map) -> Result<Setup, TsFault>
    ensures value { GivesBy (λ setup. setup) faults.Memory result (setups.setup_in (members_view map.now.entries)) }
    ensures utf8 { IfOk result setups.IsUtf8Setup }
{
    Ok(Setup {
        stem: words_in(alloc, map, TsName::ContentIdStem)?,
        selector: words_in(alloc, map, TsName::TimelineSelector)?,
    })
}

/// Reads the setup data of CSS-TS (ETSI TS 103 286-2): an object with the texts
/// `contentIdStem` and `timelineSelector`. A member that is missing or no text
/// is the fault `Field`. Each text that is read is UTF-8.
#[tactic(auto, unfolding(crate::specs::Setups::setup_of))]
pub fn read_setup(alloc: Global, bytes: &[u8]) -> Result<Setup, TsFault>
    ensures value { GivesBy (λ setup. setup) faults.Memory result (setups.setup_of bytes.now) }
    ensures utf8 { IfOk result setups.IsUtf8Setup }
{
    let read = read_object(alloc, bytes)?;
    setup_in(alloc, &read.map)
}
