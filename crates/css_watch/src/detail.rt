//! How far a visit came, in words.
ghost use Rattle.std.specs.Prelude.{◌≡◌, IfOk, string_bytes};
ghost use Rattle.css_cii.specs.Texts.{IsUtf8State};
ghost use Rattle.css_watch.specs.Telling as telling;

use crate::listed::lacks_listed;
use crate::progress::Progress;
use css_cii::State;
use css_client::Landing;
use css_companion::Cause;
use css_num::{Memory, Text};
use css_watch_lines::landing_words;
use std::alloc::Global;

fn words(alloc: Global, words: &str) -> Result<String, Memory>
    ensures { IfOk result (λ copy. string_bytes copy ≡ words.now) }
{
    Ok(String::from_str(alloc, words)?)
}

fn refused_words(alloc: Global, refused: &Option<Landing>) -> Result<String, Memory>
    ensures { IfOk result (λ words. string_bytes words ≡ telling.refused_words refused.now) }
{
    match refused {
        None => Ok(String::new(alloc)),
        Some(refusal) => {
            let why = landing_words(refusal);
            Ok(format!(in alloc; "the last datagram was refused: {why}")?)
        }
    }
}

fn waiting_words(alloc: Global, count: u64) -> Result<String, Memory>
    ensures { IfOk result (λ words. string_bytes words ≡ telling.waiting_words count) }
{
    Ok(format!(in alloc; "no response to {count} requests")?)
}

/// What a visit lacks that asks the wall clock and has no answer.
fn lacks_response(alloc: Global, progress: &Progress) -> Result<String, Memory>
    ensures { IfOk result (λ words. string_bytes words ≡ telling.lacks_response progress.now) }
{
    if !progress.asked {
        return words(alloc, "nothing was asked");
    }
    if progress.waiting > 0 {
        return waiting_words(alloc, progress.waiting);
    }
    refused_words(alloc, &progress.refused)
}

/// What a visit lacks that has no answer.
fn lacks_answer(alloc: Global, state: &State, progress: &Progress) -> Result<String, Memory>
    ensures { IfOk result (λ words. string_bytes words ≡ telling.lacks_answer state.now progress.now) }
{
    if progress.cii_open.is_none() {
        return words(alloc, "CII isn't open");
    }
    if state.wc_url.is_none() {
        return words(alloc, "no wcUrl");
    }
    if !progress.wc.is_open() {
        return words(alloc, "WC isn't open");
    }
    lacks_response(alloc, progress)
}

/// What a visit lacks that has no control timestamp.
fn lacks_timestamp(alloc: Global, state: &State, progress: &Progress) -> Result<String, Memory>
    ensures { IfOk result (λ words. string_bytes words ≡ telling.lacks_timestamp state.now progress.now) }
{
    if progress.cii_open.is_none() {
        return words(alloc, "CII isn't open");
    }
    if state.ts_url.is_none() {
        return words(alloc, "no tsUrl");
    }
    if !progress.ts.is_open() {
        return words(alloc, "TS isn't open");
    }
    words(alloc, "no text came")
}

/// How far a visit came whose report has this cause: what it lacks.
pub(crate) fn detail(
    alloc: Global,
    selector: &Text,
    cause: &Cause,
    state: &State,
    progress: &Progress,
) -> Result<String, Memory>
    requires { IsUtf8State state.now }
    ensures { IfOk result
        (λ words. string_bytes words ≡ telling.detail_of selector.now cause.now state.now progress.now) }
{
    match cause {
        Cause::NoAnswer => lacks_answer(alloc, state, progress),
        Cause::NoTimestamp => lacks_timestamp(alloc, state, progress),
        Cause::Unavailable | Cause::NoRate => lacks_listed(alloc, selector, &state.timelines),
        Cause::SessionClosed | Cause::Unreadable(_) => Ok(String::new(alloc)),
    }
}
