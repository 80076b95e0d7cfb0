ghost use Rattle.std.specs.Prelude.{IsTrue};
ghost use Rattle.css_memory.specs.Scripts.{are_readings};

use css_model::{Kind, LIMIT};
use css_num::Text;
use css_outside::{Clocked, Heard};

/// A datagram that comes, and who sends it.
#[derive(Drop)]
pub struct Datagram {
    pub peer: u32,
    pub bytes: Text,
}

/// What a session gives. Sessions are counted from 1, in the order of the dials of CSS-CII and CSS-TS that succeed and
/// of the openings.
#[derive(Drop)]
pub struct SessionHeard {
    pub session: u32,
    pub heard: Heard,
}

/// What an outside in memory gives, each list in its order.
pub struct OutsideScript {
    /// What each reading of the clock tells. Past the end the last reading is told again, without a sleep.
    pub readings: Vec<Clocked>,
    /// What each `take_datagram` takes. Past the end there is none.
    pub datagrams: Vec<Option<Datagram>>,
    /// What each `accept` tells. Past the end no session comes.
    pub openings: Vec<Option<Kind>>,
    /// What each `take_text` of a session tells. Past the end a session is quiet.
    pub texts: Vec<SessionHeard>,
    /// The numbers of the texts that are told as gone: of the calls of `send_text` that are Ok, counted from 1.
    pub gone: Vec<u64>,
    /// The numbers of the calls that fail, counted from 1 over all calls.
    pub fails: Vec<u64>,
}

// One function drops it, so that its callers' proofs don't open each of its fields.
impl Drop for OutsideScript {
    fn drop(self) {
        let OutsideScript {
            readings: _,
            datagrams: _,
            openings: _,
            texts: _,
            gone: _,
            fails: _,
        } = self;
    }
}

/// Whether a clock can read these, one after the other.
pub fn can_be_read(readings: &[Clocked]) -> bool
    ensures { IsTrue result → IsTrue (are_readings 0 readings.now) }
{
    let mut last = 0;
    for clocked in readings {
        let fell = clocked.reading < last || clocked.slept && clocked.reading == last;
        if fell || clocked.reading >= LIMIT {
            return false;
        }
        last = clocked.reading;
    }
    true
}
