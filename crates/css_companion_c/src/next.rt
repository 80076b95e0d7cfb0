//! What an application does next.
ghost use Rattle.std.specs.Prelude.{◌≡◌, ◌≢◌};
ghost use Rattle.css_companion_c.specs.Codes.{DONE, if_agreeing};
ghost use Rattle.css_companion_c.specs.Until.{IsDue};
ghost use Rattle.css_companion_c.specs.When.{LooksAt};

use crate::codes;
use crate::follower::Follower;
use crate::until::due;
use crate::when::first_look;

/// From which reading a request is due, and from which the tick may be shown.
pub(crate) fn next(follower: &Follower, width: u64, tick: i64, ask: &mut u64, look: &mut u64) -> u32
    ensures kept { result ≢ DONE → (ask.new ≡ ask.old) × (look.new ≡ look.old) }
    ensures code { result ≡ if_agreeing follower.now DONE }
    ensures ask { result ≡ DONE → IsDue width ask.new follower.now }
    ensures look { result ≡ DONE → LooksAt tick look.new follower.now.companion }
{
    if follower.disagrees {
        return codes::DISAGREE;
    }
    *ask = due(follower, width);
    *look = first_look(&follower.companion, tick);
    codes::DONE
}
