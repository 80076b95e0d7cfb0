//! Control timestamps in the form in which they are written here.
ghost use Rattle.std.specs.Prelude.{◌≡◌, IfOk, IfSome, string_bytes};
ghost use Rattle.css_tsmsg.specs.Controls.{IsInRange, control_text};

use crate::control::in_range;
use crate::digits::{content_value, is_wall, without_minus};
use css_num::{Control, Memory};
use std::alloc::{AllocError, Global};

/// The compact object of a control timestamp, with its names in alphabetical order.
pub(crate) fn words_of(alloc: Global, control: &Control) -> Result<String, AllocError>
    requires { IsInRange control.now }
    ensures { IfOk result (λ words. string_bytes words ≡ control_text control.now) }
{
    match control {
        Control::Available {
            content,
            wall,
            speed,
        } => {
            format!(in alloc;
                "{{\"contentTime\":\"{content}\",\"timelineSpeedMultiplier\":{speed},\"wallClockTime\":\"{wall}\"}}"
            )
        }
        Control::Unavailable => {
            String::from_str(
                alloc,
                "{\"contentTime\":null,\"timelineSpeedMultiplier\":null,\"wallClockTime\":\"0\"}",
            )
        }
    }
}

fn is_of_number(byte: u8) -> bool {
    byte.is_ascii_digit() || byte == b'-'
}

/// The first run of digits and `-`, and what follows it.
fn next_number(bytes: &[u8]) -> Option<(&[u8], &[u8])> {
    let start = bytes.iter().position(|byte| is_of_number(*byte))?;
    let from = &bytes[start..];
    let end = from.iter().position(|byte| !is_of_number(*byte))?;
    Some(from.split_at(end))
}

/// The number of a few digits, with or without a `-`.
fn small_number(digits: &[u8]) -> Option<i64> {
    let unsigned = without_minus(digits);
    if is_wall(unsigned) && unsigned.len() <= 18 {
        Some(content_value(digits))
    } else {
        None
    }
}

/// The control timestamp that these bytes are, if they are one as it is written here.
fn guess(bytes: &[u8]) -> Option<Control>
    ensures { IfSome result IsInRange }
{
    let (content, rest) = next_number(bytes)?;
    let (speed, rest) = next_number(rest)?;
    let (wall, _) = next_number(rest)?;
    let speed = small_number(speed)?;
    if !is_wall(without_minus(content)) || !is_wall(wall) {
        return None;
    }
    match in_range(content, speed, wall) {
        Ok(control) => Some(control),
        Err(_) => None,
    }
}

/// The control timestamp of which these bytes are the text, byte by byte as it is written here. That is found without
/// reading JSON.
pub(crate) fn read_written(alloc: Global, bytes: &[u8]) -> Result<Option<Control>, Memory>
    ensures text { IfOk result (λ found. IfSome found (λ control. bytes.now ≡ control_text control)) }
    ensures in_range { IfOk result (λ found. IfSome found IsInRange) }
{
    let Some(control) = guess(bytes) else {
        return Ok(None);
    };
    let words = words_of(alloc, &control)?;
    if words.as_bytes() == bytes {
        Ok(Some(control))
    } else {
        Ok(None)
    }
}
