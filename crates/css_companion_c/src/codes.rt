//! What the functions answer, in four groups.
ghost use Rattle.std.specs.Prelude.{◌≡◌};
ghost use Rattle.css_companion_c.specs.Codes.{aged};

/// The version of this interface. It rises whenever a call, a code or a struct of C changes its meaning.
pub const VERSION: u32 = 2;

/// It is done.
pub const DONE: u32 = 0;

// ---- 1 to 15: nothing has changed

/// The allocator refused.
pub const MEMORY: u32 = 1;

/// A number, or the length of a text, is out of range.
pub const RANGE: u32 = 2;

/// The reading is below one that may come next.
pub const EARLY: u32 = 3;

/// There is no companion behind the handle.
pub const CLOSED: u32 = 4;

/// The buffer is too short; the length that is needed is told.
pub const NO_ROOM: u32 = 5;

/// The interval doesn't fit 64 bits.
pub const TOO_WIDE: u32 = 6;

/// A text isn't UTF-8.
pub const NOT_UTF8: u32 = 7;

// ---- 16 to 31: a datagram was refused, and the history goes on

/// It is no datagram of CSS-WC.
pub const UNDECODABLE: u32 = 16;

/// It is a request.
pub const NOT_AN_ANSWER: u32 = 17;

/// It answers none of the last 64 requests since the last sleep.
pub const UNASKED: u32 = 18;

/// It contradicts itself.
pub const IMPOSSIBLE: u32 = 19;

// ---- 32 to 47: a text was refused, or an answer noticed, and the history goes on

/// The text is no JSON.
pub const NOT_JSON: u32 = 32;

/// The text is no JSON object.
pub const NOT_OBJECT: u32 = 33;

/// A property has another form than it should.
pub const FIELD: u32 = 34;

/// The text moves an address.
pub const MOVED: u32 = 35;

/// Answers contradict each other. Of the group since it asks for the same: a new companion.
pub const DISAGREE: u32 = 36;

// ---- 48 to 63: why there is no interval, or no text

/// No answer was accepted since the last sleep.
pub const NO_ANSWER: u32 = 48;

/// No control timestamp came.
pub const NO_TIMESTAMP: u32 = 49;

/// The TS session closed.
pub const SESSION_CLOSED: u32 = 50;

/// The last control timestamp can't be read.
pub const UNREADABLE: u32 = 51;

/// The timeline isn't being presented.
pub const UNAVAILABLE: u32 = 52;

/// The timeline's tick rate isn't known.
pub const NO_RATE: u32 = 53;

/// The property is null.
pub const IS_NULL: u32 = 54;

/// The tick isn't shown, as far as is known.
pub const NEVER: u32 = 55;

/// The age of a handle after a call that came to this code: it rises with each call that may change what is answered.
pub(crate) fn aged(age: u64, code: u32) -> u64
    ensures { result ≡ aged age code }
{
    if code == DONE || (16..48).contains(&code) {
        age.saturating_add(1)
    } else {
        age
    }
}

/// The greatest length of a text that is taken in, in bytes.
pub const LONGEST_TEXT: usize = 262_144;
