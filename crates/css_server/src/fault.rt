ghost use Rattle.std.specs.Prelude.{◌≡◌};
ghost use Rattle.css_server.specs.declared.fault.ServeFault.TheVariants as faults;

use css_model::WcFault;
use std::error::Error;
use std::fmt;

/// Why a server takes no request from a datagram. The faults are tested in this order.
#[derive(Clone, Copy, Debug, PartialEq, Eq)]
pub enum ServeFault {
    /// The bytes are no datagram of CSS-WC, with their first fault.
    Undecodable(WcFault),
    /// The datagram is an answer, of one of the types 1 to 3.
    NotARequest,
}

impl fmt::Display for ServeFault {
    ghost use Rattle.std.specs.Prelude.{Some};
    ghost use Rattle.css_server.specs.FaultWords.{fault_words};

    ghost output = { λ fault. Some (fault_words fault) };

    fn fmt<W: fmt::Write>(&self, f: &mut fmt::Formatter<W>) -> fmt::Result {
        match self {
            ServeFault::Undecodable(fault) => write!(f, "no datagram of the protocol: {fault}"),
            ServeFault::NotARequest => f.write_str("an answer where a request was awaited"),
        }
    }
}

impl Error for ServeFault {}

impl From<WcFault> for ServeFault {
    ghost from_gives = { λ fault serve_fault. serve_fault ≡ faults.Undecodable fault };

    fn from(fault: WcFault) -> ServeFault {
        ServeFault::Undecodable(fault)
    }
}
