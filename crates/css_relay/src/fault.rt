ghost use Rattle.std.specs.Prelude.{◌≡◌};
ghost use Rattle.css_relay.specs.declared.fault.RelayFault.TheVariants as faults;

use css_model::WcFault;
use css_num::Span;
use std::error::Error;
use std::fmt;

/// Why a relay takes no request from a datagram, or gives it no answer. The faults are tested in this order.
#[derive(Clone, Copy, Debug, PartialEq, Eq)]
pub enum RelayFault {
    /// The bytes are no datagram of CSS-WC, with their first fault.
    Undecodable(WcFault),
    /// The datagram is an answer, of one of the types 1 to 3.
    NotARequest,
    /// The relay accepted no answer since its last sleep, so it doesn't know the wall clock.
    NoAnswer,
    /// The wall clock's span, in nanoseconds, has no number from 0 to below 2^32 seconds.
    Beyond(Span),
    /// The greater half width, in nanoseconds, which is above 2^30 seconds: no precision declares so much.
    Wide(u64),
}

impl fmt::Display for RelayFault {
    ghost use Rattle.std.specs.Prelude.{Some};
    ghost use Rattle.css_relay.specs.FaultWords.{fault_words};

    ghost output = { λ fault. Some (fault_words fault) };

    fn fmt<W: fmt::Write>(&self, f: &mut fmt::Formatter<W>) -> fmt::Result {
        match self {
            RelayFault::Undecodable(fault) => write!(f, "no datagram of the protocol: {fault}"),
            RelayFault::NotARequest => f.write_str("an answer where a request was awaited"),
            RelayFault::NoAnswer => f.write_str("the wall clock isn't known"),
            RelayFault::Beyond(span) => {
                write!(f, "no reading of a wall clock: {} to {}", span.lo, span.hi)
            }
            RelayFault::Wide(half) => write!(f, "too wide: {half} either way"),
        }
    }
}

impl Error for RelayFault {}

impl From<WcFault> for RelayFault {
    ghost from_gives = { λ fault relay_fault. relay_fault ≡ faults.Undecodable fault };

    fn from(fault: WcFault) -> RelayFault {
        RelayFault::Undecodable(fault)
    }
}
