ghost use Rattle.std.specs.Prelude.{◌≡◌, ◌↔◌, IsSome};
ghost use Rattle.css_num.specs.Rates.{is_rate_part, rate_of, IsTickRate};

use std::marker::Model;

/// The greatest value of either part of a [`Rate`].
const MAX_PART: u32 = 1_000_000_000;

/// The tick rate of a clock or a timeline: `units_per_second / units_per_tick`
/// ticks in one second. Both parts are 1 to 10^9.
///
/// They are the `unitsPerTick` and `unitsPerSecond` of the timelines that a
/// television offers (ETSI TS 103 286-2, CSS-CII).
#[derive(Clone, Copy, Debug, PartialEq, Eq)]
pub struct Rate {
    pub units_per_tick: u32,
    pub units_per_second: u32,
}

impl Model for Rate {
    ghost use Rattle.css_num.specs.Rates.{TickRate, IsTickRate};

    ghost Value = { TickRate };

    ghost view = { λ a. record { units_per_tick = a.units_per_tick; units_per_second = a.units_per_second } };

    ghost invariant = { λ a.
        IsTickRate (record { units_per_tick = a.units_per_tick; units_per_second = a.units_per_second }) };

    ghost inverse = { λ a. record { units_per_tick = a.units_per_tick; units_per_second = a.units_per_second } };
}

/// Whether a part of a rate is in range.
fn is_part(part: u32) -> bool
    ensures { result ≡ is_rate_part part }
{
    (1..=MAX_PART).contains(&part)
}

impl Rate {
    /// The rate of these two parts, or None where one is 0 or above 10^9.
    pub fn of(units_per_tick: u32, units_per_second: u32) -> Option<Rate>
        ensures value { result ≡ rate_of units_per_tick units_per_second }
        ensures in_range { IsSome result
            ↔ IsTickRate (record { units_per_tick = units_per_tick; units_per_second = units_per_second }) }
    {
        if is_part(units_per_tick) && is_part(units_per_second) {
            Some(Rate {
                units_per_tick,
                units_per_second,
            })
        } else {
            None
        }
    }
}
