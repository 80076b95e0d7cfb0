ghost use Rattle.std.specs.Prelude.{◌≡◌, ◌↔◌, ◌+◌, ◌<◌, ◌≤◌, ◌^◌, ℤ, pos, ◌*ℤ◌, unsigned_abs, IsTrue};
ghost use Rattle.css_num.specs.Rates.{TickRate};
ghost use Rattle.css_clock.specs.Ticks as ticks;

use css_num::{Rate, Span};

/// A clock object, by the values of the root clock that it stands on.
///
/// As in companion screen libraries it has a tick rate and a conversion from root ticks. Here ticks are whole, and a
/// clock tells spans beside points.
pub trait Tick {
    /// The clock's tick rate.
    ghost rate_of: { Self → TickRate };

    /// What the clock reads at each value of its root.
    ghost value_at: { Self → ℤ → ℤ };

    /// The root values at which no clock between goes beyond its range.
    ghost holds_at: { Self → ℤ → Type 0 };

    /// The product of the speeds of the clocks from the root to this one.
    ghost speeds: { Self → ℤ };

    /// The tick rate.
    fn rate(&self) -> Rate
        ensures { result ≡ rate_of self.now };

    /// Whether [`Tick::value`] and [`Tick::span`] may be asked for these values of the root: at both ends each product
    /// on the way is below 2^126 either way.
    fn holds(&self, root: Span) -> bool
        ensures { IsTrue result ↔ ticks.HoldsOver (holds_at self.now) root };

    /// What the clock reads, in its ticks, at a value of the root: a library's
    /// conversion from root ticks, rounded down.
    fn value(&self, root: i128) -> i128
        requires { holds_at self.now root }
        ensures value { result ≡ value_at self.now root }
        ensures near { unsigned_abs result ≤ 2 ^ 126 + 2 ^ 63 };

    /// The least span that has what the clock reads at each value of the root
    /// in `root`.
    fn span(&self, root: Span) -> Span
        requires { ticks.HoldsOver (holds_at self.now) root }
        ensures value { result ≡ ticks.span_of (value_at self.now) root }
        ensures meaning { ticks.IsSpanOf (value_at self.now) root result }
        ensures near_lo { unsigned_abs result.lo ≤ 2 ^ 126 + 2 ^ 63 }
        ensures near_hi { unsigned_abs result.hi ≤ 2 ^ 126 + 2 ^ 63 };

    /// As the root rises the clock never falls, or never rises, by the sign of the product of the speeds.
    ///
    /// This is a law of every clock: its call does nothing.
    fn goes(&self)
        ensures { ticks.GoesBy (speeds self.now) (value_at self.now) };
}

/// The limit of root values, either way.
const ROOT_LIMIT: u128 = 1 << 126;

/// A clock with no parent.
#[derive(Clone, Copy, Debug, PartialEq, Eq)]
pub struct Root {
    /// Its tick rate.
    pub rate: Rate,
}

impl Tick for Root {
    ghost rate_of = { λ clock. clock.rate };

    ghost value_at = { λ _ root. root };

    ghost holds_at = { λ _ root. ticks.IsSmall root };

    ghost speeds = { λ _. pos 1 };

    fn rate(&self) -> Rate {
        self.rate
    }

    fn holds(&self, root: Span) -> bool {
        root.lo.unsigned_abs() < ROOT_LIMIT && root.hi.unsigned_abs() < ROOT_LIMIT
    }

    fn value(&self, root: i128) -> i128 {
        root
    }

    fn span(&self, root: Span) -> Span {
        root
    }

    fn goes(&self) {}
}
