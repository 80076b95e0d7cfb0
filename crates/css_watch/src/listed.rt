//! The timelines that a set lists, in words.
ghost use Rattle.std.specs.Prelude.{◌≡◌, ◌++◌, [], IfOk, OnOk, bytes_eq, string_bytes, unwrap_or};
ghost use Rattle.css_cii.specs.Texts.{EachIn, SelectorsAreUtf8};
ghost use Rattle.css_watch.specs.Telling as telling;

use css_num::{Memory, Text, Timeline, Timelines};
use css_watch_lines::words_of;
use std::alloc::Global;

/// Whether a timeline with this selector is listed.
fn is_listed(selector: &[u8], timelines: &[Timeline]) -> bool
    ensures { result ≡ telling.is_listed selector.now timelines.now }
{
    timelines
        .iter()
        .any(|timeline| timeline.selector.bytes() == selector)
}

/// Adds the selectors of timelines, each behind a comma.
fn add_further(words: &mut String, timelines: &[Timeline]) -> Result<(), Memory>
    requires { SelectorsAreUtf8 timelines.now }
    ensures { OnOk result (string_bytes words.new ≡ string_bytes words.old ++ telling.further_words timelines.now) }
{
    for timeline in timelines {
        words.push_str(", ")?;
        words.push_str(words_of(&timeline.selector))?;
    }
    Ok(())
}

/// Adds the selectors of the first eight timelines.
fn add_listed(words: &mut String, timelines: &[Timeline]) -> Result<(), Memory>
    requires { SelectorsAreUtf8 timelines.now }
    ensures { OnOk result (string_bytes words.new ≡ string_bytes words.old ++ telling.listed_words timelines.now) }
{
    let Some((first, rest)) = timelines.split_first() else {
        words.push_str("no timeline")?;
        return Ok(());
    };
    words.push_str(words_of(&first.selector))?;
    add_further(words, &rest[..rest.len().min(7)])
}

/// What a visit lacks that has no interval of this timeline: that the set lists it.
fn lacks_timeline(alloc: Global, selector: &[u8], timelines: &[Timeline]) -> Result<String, Memory>
    requires { SelectorsAreUtf8 timelines.now }
    ensures { IfOk result (λ words. string_bytes words ≡ telling.lacks_timeline selector.now timelines.now) }
{
    if is_listed(selector, timelines) {
        return Ok(String::new(alloc));
    }
    let mut words = String::from_str(alloc, "the set lists ")?;
    add_listed(&mut words, timelines)?;
    Ok(words)
}

/// The same of the timelines of a state.
pub(crate) fn lacks_listed(
    alloc: Global,
    selector: &Text,
    timelines: &Option<Timelines>,
) -> Result<String, Memory>
    requires { EachIn SelectorsAreUtf8 timelines.now }
    ensures { IfOk result (λ words. string_bytes words
        ≡ telling.lacks_timeline selector.now (unwrap_or timelines.now [])) }
{
    match timelines {
        None => lacks_timeline(alloc, selector.bytes(), &[]),
        Some(timelines) => lacks_timeline(alloc, selector.bytes(), timelines.list()),
    }
}
