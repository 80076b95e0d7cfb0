ghost use Rattle.css_clock.specs.Ticks.{IsSpeed};

use crate::steps::{child_span, divisor, factor, since};
use crate::tick::Tick;
use css_num::{Rate, Span, fits};

/// A clock that goes by a parent clock, as the correlated clock of companion screen libraries does.
///
/// Where the parent reads `parent_ticks` it reads `child_ticks`. From there it goes at `speed` times its tick rate, in
/// whole ticks, rounded down. A speed is whole, -64 to 64: 0 where the clock is stopped, below 0 where it goes
/// backward.
#[derive(Drop)]
pub struct Correlated<P: Tick> {
    /// The clock that it goes by.
    pub parent: P,
    /// Its tick rate at speed 1.
    pub rate: Rate,
    /// How fast it goes.
    pub speed: i32,
    /// A tick of the parent.
    pub parent_ticks: i64,
    /// Its own tick there.
    pub child_ticks: i64,
    pub ghost is_speed: { IsSpeed speed },
}

impl<P: Tick> Tick for Correlated<P> {
    ghost use Rattle.std.specs.Prelude.{◌≡◌, ◌*ℤ◌};
    ghost use Rattle.css_clock.specs.Ticks as ticks;

    ghost rate_of = { λ clock. clock.rate };

    ghost value_at = { λ clock root.
        ticks.child_value clock.rate (P.rate_of clock.parent)
        (record { speed = clock.speed; parent_ticks = clock.parent_ticks; child_ticks = clock.child_ticks })
        (P.value_at clock.parent root) };

    ghost holds_at = { λ clock root.
        ticks.HoldsOn (P.holds_at clock.parent root)
        (ticks.product_of clock.rate (P.rate_of clock.parent)
        (record { speed = clock.speed; parent_ticks = clock.parent_ticks; child_ticks = clock.child_ticks })
        (P.value_at clock.parent root)) };

    ghost speeds = { λ clock. P.speeds clock.parent *ℤ clock.speed };

    fn rate(&self) -> Rate {
        self.rate
    }

    fn holds(&self, root: Span) -> bool {
        self.parent.holds(root)
            && fits(
                since(self.parent.span(root), self.parent_ticks),
                factor(self.rate, self.parent.rate(), self.speed),
            )
    }

    fn value(&self, root: i128) -> i128 {
        self.span(Span { lo: root, hi: root }).lo
    }

    fn span(&self, root: Span) -> Span {
        self.parent.goes();
        let parent = self.parent.rate();
        child_span(
            since(self.parent.span(root), self.parent_ticks),
            factor(self.rate, parent, self.speed),
            divisor(self.rate, parent),
            self.child_ticks,
        )
    }

    fn goes(&self) {
        self.parent.goes();
    }
}
