ghost use Rattle.std.specs.Prelude.{◌≡◌, ◌↔◌, List, IfOk, IsTrue};
ghost use Rattle.css_cii.specs.States as states;
ghost use Rattle.css_cii.specs.Texts.{IsUtf8State, IsUtf8Change, AreUtf8Changes};
ghost use Rattle.css_cii.specs.declared.change.Told.TheVariants.{Said as said};
ghost use Rattle.css_cii.specs.declared.state.State.{State as state};

use crate::change::{Change, Told};
use crate::state::State;
use css_num::{Memory, Text, Timelines};
use std::alloc::AllocError;

/// A property after what a message says of it.
fn words_after(old: &Option<Text>, told: &Told<Text>) -> Result<Option<Text>, Memory>
    ensures { IfOk result (λ value. value ≡ states.after old.now told.now) }
{
    match told {
        Told::Unsaid => Ok(old.clone()?),
        Told::Said(value) => Ok(value.clone()?),
    }
}

/// The timelines after what a message says of them.
fn timelines_after(
    old: &Option<Timelines>,
    told: &Told<Timelines>,
) -> Result<Option<Timelines>, Memory>
    ensures { IfOk result (λ value. value ≡ states.after old.now told.now) }
{
    match told {
        Told::Unsaid => Ok(old.clone()?),
        Told::Said(value) => Ok(value.clone()?),
    }
}

/// Sets a property to what it is after a message.
fn set_words_after(
    property: &mut Option<Text>,
    old: &Option<Text>,
    told: &Told<Text>,
) -> Result<(), Memory>
    ensures { IfOk result (λ done. property.new ≡ states.after old.now told.now) }
{
    *property = words_after(old, told)?;
    Ok(())
}

/// Sets the timelines to what they are after a message.
fn set_timelines_after(
    property: &mut Option<Timelines>,
    old: &Option<Timelines>,
    told: &Told<Timelines>,
) -> Result<(), Memory>
    ensures { IfOk result (λ done. property.new ≡ states.after old.now told.now) }
{
    *property = timelines_after(old, told)?;
    Ok(())
}

/// Sets each property to what it is after a message.
#[tactic(auto, unfolding(crate::specs::States::applied))]
fn set_properties_after(new: &mut State, state: &State, change: &Change) -> Result<(), Memory>
    ensures { IfOk result (λ done. new.new ≡ states.applied state.now change.now) }
{
    set_words_after(
        &mut new.protocol_version,
        &state.protocol_version,
        &change.protocol_version,
    )?;
    set_words_after(&mut new.mrs_url, &state.mrs_url, &change.mrs_url)?;
    set_words_after(&mut new.content_id, &state.content_id, &change.content_id)?;
    set_words_after(
        &mut new.content_id_status,
        &state.content_id_status,
        &change.content_id_status,
    )?;
    set_words_after(
        &mut new.presentation_status,
        &state.presentation_status,
        &change.presentation_status,
    )?;
    set_words_after(&mut new.wc_url, &state.wc_url, &change.wc_url)?;
    set_words_after(&mut new.ts_url, &state.ts_url, &change.ts_url)?;
    set_words_after(&mut new.te_url, &state.te_url, &change.te_url)?;
    set_timelines_after(&mut new.timelines, &state.timelines, &change.timelines)?;
    Ok(())
}

/// Each property after a message.
fn properties_after(state: &State, change: &Change) -> Result<State, Memory>
    ensures { IfOk result (λ new. new ≡ states.applied state.now change.now) }
{
    let mut new = State::empty();
    set_properties_after(&mut new, state, change)?;
    Ok(new)
}

/// The state after a message: what the message says is set, and the rest stays.
/// Where the texts of both are UTF-8, so are those of the new state.
pub fn apply(state: &State, change: &Change) -> Result<State, Memory>
    ensures value { IfOk result (λ new. new ≡ states.applied state.now change.now) }
    ensures utf8 { IfOk result (λ new. IsUtf8State state.now → IsUtf8Change change.now → IsUtf8State new) }
{
    properties_after(state, change)
}

/// Sets a property to what a message says of it.
pub(crate) fn set_words(property: &mut Option<Text>, told: Told<Text>)
    ensures { property.new ≡ states.after property.old told }
{
    if let Told::Said(value) = told {
        *property = value;
    }
}

/// Sets the timelines to what a message says of them.
pub(crate) fn set_timelines(property: &mut Option<Timelines>, told: Told<Timelines>)
    ensures { property.new ≡ states.after property.old told }
{
    if let Told::Said(value) = told {
        *property = value;
    }
}

/// Applies a message to a state in place: what the message says is set, and the rest stays. This takes no memory, and
/// copies nothing. Where the texts of both are UTF-8, so are those of the new state.
pub fn apply_to(state: &mut State, change: Change)
    ensures value { state.new ≡ states.applied state.old change }
    ensures utf8 { IsUtf8State state.old → IsUtf8Change change → IsUtf8State state.new }
{
    change.set(state);
}

/// The state after the messages of a connection so far.
///
/// Let them tell the states of a television, one after another: the first message says at least each property that
/// isn't null in the first state, and each later one at least each property that changed, each with its value in that
/// state. Then it is the last of these states.
pub fn merge(changes: &[Change]) -> Result<State, Memory>
    ensures value { IfOk result (λ last. last ≡ states.merged changes.now) }
    ensures session { IfOk result
        (λ last. (told : List state) → states.IsSession told changes.now → last ≡ states.last_state told) }
    ensures utf8 { IfOk result (λ last. AreUtf8Changes changes.now → IsUtf8State last) }
{
    let mut state = State::empty();
    for change in changes {
        state = apply(&state, change)?;
    }
    Ok(state)
}

/// What is said of a property that had one value and has another.
fn words_told(old: &Option<Text>, new: &Option<Text>) -> Result<Told<Text>, Memory>
    ensures { IfOk result (λ told. told ≡ states.words_told old.now new.now) }
{
    if *old == *new {
        Ok(Told::Unsaid)
    } else {
        Ok(Told::Said(new.clone()?))
    }
}

/// What is said of the timelines.
fn timelines_told(
    old: &Option<Timelines>,
    new: &Option<Timelines>,
) -> Result<Told<Timelines>, Memory>
    ensures { IfOk result (λ told. told ≡ states.timelines_told old.now new.now) }
{
    if *old == *new {
        Ok(Told::Unsaid)
    } else {
        Ok(Told::Said(new.clone()?))
    }
}

/// Says of a property what is new.
fn tell_words(told: &mut Told<Text>, old: &Option<Text>, new: &Option<Text>) -> Result<(), Memory>
    ensures { IfOk result (λ done. told.new ≡ states.words_told old.now new.now) }
{
    *told = words_told(old, new)?;
    Ok(())
}

/// Says of the timelines what is new.
fn tell_timelines(
    told: &mut Told<Timelines>,
    old: &Option<Timelines>,
    new: &Option<Timelines>,
) -> Result<(), Memory>
    ensures { IfOk result (λ done. told.new ≡ states.timelines_told old.now new.now) }
{
    *told = timelines_told(old, new)?;
    Ok(())
}

/// Says of each property what is new.
#[tactic(auto, unfolding(crate::specs::States::difference))]
fn tell_difference(change: &mut Change, old: &State, new: &State) -> Result<(), Memory>
    ensures { IfOk result (λ done. change.new ≡ states.difference old.now new.now) }
{
    tell_words(
        &mut change.protocol_version,
        &old.protocol_version,
        &new.protocol_version,
    )?;
    tell_words(&mut change.mrs_url, &old.mrs_url, &new.mrs_url)?;
    tell_words(&mut change.content_id, &old.content_id, &new.content_id)?;
    tell_words(
        &mut change.content_id_status,
        &old.content_id_status,
        &new.content_id_status,
    )?;
    tell_words(
        &mut change.presentation_status,
        &old.presentation_status,
        &new.presentation_status,
    )?;
    tell_words(&mut change.wc_url, &old.wc_url, &new.wc_url)?;
    tell_words(&mut change.ts_url, &old.ts_url, &new.ts_url)?;
    tell_words(&mut change.te_url, &old.te_url, &new.te_url)?;
    tell_timelines(&mut change.timelines, &old.timelines, &new.timelines)?;
    Ok(())
}

/// What is said of each property.
fn difference(old: &State, new: &State) -> Result<Change, Memory>
    ensures { IfOk result (λ change. change ≡ states.difference old.now new.now) }
{
    let mut change = Change::nothing();
    tell_difference(&mut change, old, new)?;
    Ok(change)
}

/// The change from one state to another: exactly the properties that differ,
/// also those that became null. It is UTF-8 where the texts of the new state are.
pub fn diff(old: &State, new: &State) -> Result<Change, Memory>
    ensures value { IfOk result (λ change. change ≡ states.difference old.now new.now) }
    ensures exact { IfOk result (states.TellsDifference old.now new.now) }
    ensures empty { IfOk result (λ change. IsTrue (states.is_empty change) ↔ (old.now ≡ new.now)) }
    ensures applied { IfOk result (λ change. states.applied old.now change ≡ new.now) }
    ensures utf8 { IfOk result (λ change. IsUtf8State new.now → IsUtf8Change change) }
{
    difference(old, new)
}

/// Says the value of a property.
fn say_words(told: &mut Told<Text>, value: &Option<Text>) -> Result<(), AllocError>
    ensures { IfOk result (λ done. told.new ≡ said value.now) }
{
    *told = Told::Said(value.clone()?);
    Ok(())
}

/// Says the timelines.
fn say_timelines(told: &mut Told<Timelines>, value: &Option<Timelines>) -> Result<(), AllocError>
    ensures { IfOk result (λ done. told.new ≡ said value.now) }
{
    *told = Told::Said(value.clone()?);
    Ok(())
}

/// Says each property of a state.
#[tactic(auto, unfolding(crate::specs::States::full_change))]
fn say_all(change: &mut Change, state: &State) -> Result<(), AllocError>
    ensures { IfOk result (λ done. change.new ≡ states.full_change state.now) }
{
    say_words(&mut change.protocol_version, &state.protocol_version)?;
    say_words(&mut change.mrs_url, &state.mrs_url)?;
    say_words(&mut change.content_id, &state.content_id)?;
    say_words(&mut change.content_id_status, &state.content_id_status)?;
    say_words(&mut change.presentation_status, &state.presentation_status)?;
    say_words(&mut change.wc_url, &state.wc_url)?;
    say_words(&mut change.ts_url, &state.ts_url)?;
    say_words(&mut change.te_url, &state.te_url)?;
    say_timelines(&mut change.timelines, &state.timelines)?;
    Ok(())
}

/// What is said of a state in whole.
pub(crate) fn all_said(state: &State) -> Result<Change, AllocError>
    ensures { IfOk result (λ change. change ≡ states.full_change state.now) }
{
    let mut change = Change::nothing();
    say_all(&mut change, state)?;
    Ok(change)
}

/// The change that says all nine properties of a state, as the first message of
/// a connection does. It is UTF-8 where the texts of the state are.
pub fn full(state: &State) -> Result<Change, Memory>
    ensures value { IfOk result (λ change. change ≡ states.full_change state.now) }
    ensures utf8 { IfOk result (λ change. IsUtf8State state.now → IsUtf8Change change) }
{
    Ok(all_said(state)?)
}
