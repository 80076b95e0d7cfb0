ghost use Rattle.std.specs.Prelude.{◌≡◌, ◌↔◌, IsTrue};

/// The value of a control timestamp (ETSI TS 103 286-2, CSS-TS): which tick of
/// the timeline the television presents at which value of the wall clock.
#[derive(Clone, Copy, Debug)]
pub enum Control {
    /// The television presents tick `content` of the timeline when its wall clock shows `wall`, in nanoseconds. The
    /// timeline goes at `speed` times its tick rate: 0 is a pause, and below 0 it goes backward.
    Available { content: i64, wall: u64, speed: i32 },
    /// The timeline isn't being presented.
    Unavailable,
}

impl PartialEq for Control {
    ghost use Rattle.std.specs.Prelude.{◌≡◌, ◌↔◌, IsTrue};
    ghost use Rattle.std.proofs.Common.{rules};
    ghost use Rattle.std.specs.Cmp.Rules.{comparing};
    ghost use Rattle.css_num.specs.Controls.{control_eq};

    ghost eq = { control_eq };

    ghost laws = { Prim.search (comparing, rules) depth 9 };

    fn eq(&self, other: &Control) -> bool
        ensures value { result ≡ control_eq self.now other.now }
        ensures exact { IsTrue result ↔ (self.now ≡ other.now) }
    {
        match (self, other) {
            (Control::Unavailable, Control::Unavailable) => true,
            (
                Control::Available {
                    content,
                    wall,
                    speed,
                },
                Control::Available {
                    content: other_content,
                    wall: other_wall,
                    speed: other_speed,
                },
            ) => content == other_content && wall == other_wall && speed == other_speed,
            _ => false,
        }
    }
}

impl Eq for Control {
    ghost use Rattle.std.proofs.Common.{rules};
    ghost use Rattle.std.specs.Cmp.Rules.{comparing};

    ghost laws = { Prim.search (comparing, rules) depth 9 };
}
