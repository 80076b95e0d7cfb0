ghost use Rattle.std.specs.Prelude.{◌≡◌, Option, true};
ghost use Rattle.css_num.specs.Rates.{IsTickRate};

use css_num::Rate;

/// How a clock goes by its parent.
#[derive(Clone, Copy)]
pub struct Link {
    pub parent: u32,
    pub speed: i32,
    pub parent_ticks: i64,
    pub child_ticks: i64,
}

/// A clock of a forest. A root has no link.
#[derive(Clone, Copy)]
pub struct Node {
    pub rate: Rate,
    pub link: Option<Link>,
    pub available: bool,
}

/// How a clock goes by its parent, with the rates of both.
#[derive(Clone, Copy)]
pub struct Gear {
    pub rate: Rate,
    pub parent_rate: Rate,
    pub link: Link,
}

impl Node {
    /// A clock that is available.
    pub(crate) fn new(rate: Rate, link: Option<Link>) -> Node
        ensures value { result ≡ record { rate = rate; link = link; available = true } }
        ensures rate { IsTickRate rate }
    {
        let _ = &rate.units_per_tick;
        Node {
            rate,
            link,
            available: true,
        }
    }
}
