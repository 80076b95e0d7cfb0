//! A companion, as C asks for one.
ghost use Rattle.std.specs.Prelude.{◌≡◌, true, false, IfOk, IfErr, []};
ghost use Rattle.std.specs.Str.{IsUtf8};
ghost use Rattle.css_companion.specs.Standing.{StandsFor, own_of};
ghost use Rattle.css_companion_c.specs.Codes.{out_of_range, AreUtf8, Refuses};

use crate::codes;
use css_client::Local;
use css_companion::{Companion, CompanionConfig};
use css_num::{Memory, Text};
use std::alloc::Global;

/// Whether a length or a number is out of range.
fn is_out_of_range(selector: &[u8], stem: &[u8], error: u32, precision: u64) -> bool
    ensures { result ≡ out_of_range selector.now stem.now error precision }
{
    selector.len() > codes::LONGEST_TEXT
        || stem.len() > codes::LONGEST_TEXT
        || error > 2_560_000
        || precision > 1_000_000_000
}

/// Whether these bytes are UTF-8.
fn is_utf8(bytes: &[u8]) -> bool
    ensures yes { result ≡ true → IsUtf8 bytes.now }
    ensures no { result ≡ false → IsUtf8 bytes.now → ⊥ }
{
    str::from_utf8(bytes).is_ok()
}

fn configured(
    alloc: Global,
    selector: &[u8],
    stem: &[u8],
    local: Local,
) -> Result<CompanionConfig, Memory>
    ensures selector { IfOk result (λ config. config.selector ≡ selector.now) }
    ensures stem { IfOk result (λ config. config.stem ≡ stem.now) }
    ensures local { IfOk result (λ config. config.local ≡ local) }
{
    Ok(CompanionConfig {
        selector: Text::of(alloc, selector)?,
        stem: Text::of(alloc, stem)?,
        local,
    })
}

/// A companion that was told nothing yet, or the code why there is none.
pub(crate) fn made(
    alloc: Global,
    selector: &[u8],
    stem: &[u8],
    error: u32,
    precision: u64,
) -> Result<Companion, u32>
    ensures code { IfErr result (Refuses selector.now stem.now error precision) }
    ensures range { IfOk result (λ companion. out_of_range selector.now stem.now error precision ≡ false) }
    ensures utf8 { IfOk result (λ companion. AreUtf8 selector.now stem.now) }
    ensures setup { IfOk result (λ companion.
        companion.setup ≡ record { stem = stem.now; selector = selector.now }) }
    ensures own { IfOk result (λ companion.
        own_of companion ≡ record { error = error; precision = precision }) }
    ensures floor { IfOk result (λ companion. companion.client.floor ≡ 0) }
    ensures stands { IfOk result (λ companion. StandsFor companion []) }
{
    if is_out_of_range(selector, stem, error, precision) {
        return Err(codes::RANGE);
    }
    if !is_utf8(selector) || !is_utf8(stem) {
        return Err(codes::NOT_UTF8);
    }
    let Ok(config) = configured(alloc, selector, stem, Local { error, precision }) else {
        return Err(codes::MEMORY);
    };
    match Companion::new(alloc, config) {
        Ok(companion) => Ok(companion),
        Err(_) => Err(codes::MEMORY),
    }
}
