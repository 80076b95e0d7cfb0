//! What is meant by a value that isn't of the form that its option wants.

use crate::options::up_to;
use std::alloc::Global;

/// An address as a television has it.
const EXAMPLE: &str = "ws://192.168.1.20:6677/cii";

/// Whether a text is digits alone, one of them at least.
pub(crate) fn are_digits(text: &str) -> bool {
    !text.is_empty() && text.bytes().all(|byte| byte.is_ascii_digit())
}

/// The number that digits spell, each of which counts a tenth of `unit` where it stands behind the point. None where it
/// is no whole number, or too large.
fn number_of(whole: &str, part: &str, unit: u64) -> Option<u64> {
    let mut number: u64 = 0;
    for byte in whole.bytes() {
        number = number
            .checked_mul(10)?
            .checked_add(u64::from(byte.saturating_sub(b'0')))?;
    }
    number = number.checked_mul(unit)?;
    let mut place = unit;
    for byte in part.bytes() {
        place = place / 10;
        if place == 0 && byte != b'0' {
            return None;
        }
        number = number.checked_add(place.checked_mul(u64::from(byte.saturating_sub(b'0')))?)?;
    }
    Some(number)
}

/// A text without its unit, and the unit in nanoseconds. Seconds are meant where it has a point and no unit.
fn unit_of(text: &str) -> Option<(&str, u64)> {
    if let Some(rest) = text.strip_suffix("ns") {
        return Some((rest, 1));
    }
    if let Some(rest) = text.strip_suffix("us") {
        return Some((rest, 1_000));
    }
    if let Some(rest) = text.strip_suffix("ms") {
        return Some((rest, 1_000_000));
    }
    match text.strip_suffix('s') {
        Some(rest) => Some((rest, 1_000_000_000)),
        None if text.contains('.') => Some((text, 1_000_000_000)),
        None => None,
    }
}

/// The nanoseconds that are meant by a decimal of seconds, or a number with a unit.
pub(crate) fn nanoseconds(text: &str) -> Option<u64> {
    let (number, unit) = unit_of(text)?;
    match number.split_once('.') {
        None if are_digits(number) => number_of(number, "", unit),
        Some((whole, part)) if are_digits(whole) && are_digits(part) => number_of(
            whole, part, unit,
        ),
        _ => None,
    }
}

/// The host and port of an address that may lack its scheme or its path, where it has both.
fn authority(rest: &str) -> Option<&str> {
    let authority = up_to(rest, '/');
    let (host, port) = authority.rsplit_once(':')?;
    let is_plain = !host.is_empty() && (!host.contains(':') || host.starts_with('['));
    (is_plain && are_digits(port)).then_some(authority)
}

/// An address as it is meant, where its scheme or its path is missing or another one.
fn address_meant(alloc: Global, text: &str) -> Option<String> {
    let rest = match text.split_once("://") {
        Some((_, rest)) => rest,
        None => text,
    };
    let authority = authority(rest)?;
    match rest.split_once('/') {
        Some((_, path)) if !path.is_empty() => format!(in alloc; "ws://{authority}/{path}"),
        _ => format!(in alloc; "ws://{authority}/cii"),
    }
    .ok()
}

/// Whether the port of an address is past the last one.
fn is_port_past(text: &str) -> bool {
    let rest = match text.split_once("://") {
        Some((_, rest)) => rest,
        None => text,
    };
    match authority(rest).unwrap_or("").rsplit_once(':') {
        Some((_, port)) => number_of(port, "", 1).unwrap_or(u64::MAX) > 65_535,
        None => false,
    }
}

/// What helps where no address was given.
pub(crate) fn no_address(alloc: Global) -> Option<String> {
    format!(in alloc; "--cii is missing: give the television's address, as in --cii {EXAMPLE}").ok()
}

/// What helps with a text that is no address of CSS-CII.
pub(crate) fn about_address(alloc: Global, text: &str) -> Option<String> {
    if is_port_past(text) {
        return format!(in alloc; "--cii: {text}: a port is from 1 to 65535, as in {EXAMPLE}").ok();
    }
    let meant = address_meant(alloc, text);
    let meant = match &meant {
        Some(meant) => meant.as_str(),
        None => EXAMPLE,
    };
    if text.starts_with("wss:") {
        return format!(in alloc;
            "--cii: there is no encryption, so no wss: give a ws: address, as in {meant}"
        ).ok();
    }
    format!(in alloc; "--cii: {text} is no ws: address, as in {meant}").ok()
}
