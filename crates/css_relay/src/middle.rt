ghost use Rattle.std.specs.Prelude.{◌≡◌, ◌≤◌, ◌<◌, IfOk};
ghost use Rattle.css_relay.specs.Middles as spec;

use crate::fault::RelayFault;
use css_model::LIMIT;
use css_num::Span;

/// One reading for the whole of a span, in nanoseconds.
#[derive(Clone, Copy, Debug, PartialEq, Eq)]
pub(crate) struct Middle {
    /// The middle of the span.
    pub(crate) value: u64,
    /// How far a number of the span can be from it.
    pub(crate) half: u64,
}

fn cut(number: i128) -> u64
    ensures value { result ≡ spec.cut number }
    ensures range { result < LIMIT }
{
    number.clamp(0, i128::from(LIMIT - 1)) as u64
}

fn between(low: u64, high: u64) -> Middle
    requires order { low ≤ high }
    requires range { high < LIMIT }
    ensures value { result ≡ spec.between low high }
    ensures range { result.value < LIMIT }
{
    Middle {
        value: (low + high) / 2,
        half: (high - low).div_ceil(2),
    }
}

/// The middle of a span that is cut to the readings that a clock can have.
fn middle_of(span: Span) -> Result<Middle, RelayFault>
    ensures value { result ≡ spec.middle_of span }
    ensures range { IfOk result (λ middle. middle.value < LIMIT) }
{
    if span.hi < 0 || span.lo >= i128::from(LIMIT) {
        return Err(RelayFault::Beyond(span));
    }
    Ok(between(cut(span.lo), cut(span.hi)))
}

/// The middle of what is known of the wall clock.
pub(crate) fn read_middle(wall: Option<Span>) -> Result<Middle, RelayFault>
    ensures value { result ≡ spec.middle_known wall }
    ensures range { IfOk result (λ middle. middle.value < LIMIT) }
{
    match wall {
        None => Err(RelayFault::NoAnswer),
        Some(span) => middle_of(span),
    }
}
