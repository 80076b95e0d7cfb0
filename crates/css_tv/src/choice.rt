ghost use Rattle.std.specs.Prelude.{◌≡◌, ◌≤◌, IfSome};
ghost use Rattle.css_player.specs.Player.{max_delay};
ghost use Rattle.css_window.specs.Least.{least_fit};
ghost use Rattle.css_tv.specs.Outcomes.{other_than};

use css_window::{Chosen, Window, choose};

/// The greatest presentation delay, in nanoseconds.
const MAX_DELAY: u64 = 10_000_000_000;

/// The least delay that fits every window, in nanoseconds, where there is one and it isn't the present delay.
pub fn other_delay(windows: &[Window], present: u64) -> Option<u64>
    ensures value { result ≡ other_than present (least_fit max_delay windows.now) }
    ensures small { IfSome result (λ delay. delay ≤ max_delay) }
{
    match choose(windows, MAX_DELAY) {
        Chosen::Nothing { .. } => None,
        Chosen::Fits { delay, .. } => { if delay == present { None } else { Some(delay) } }
    }
}
