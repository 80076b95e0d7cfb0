use css_cii::{CiiFault, CiiName};
use css_num::Text;
use css_outside::Failure;
use css_schedule::LineWhy;

/// How a run ended.
#[derive(Drop)]
pub enum Driven {
    /// The run was made to its end: all reports were written, or the last turn was made.
    Done,
    /// This line of the script, counted from 1, is refused.
    BadLine {
        line: u64,
        why: LineWhy,
    },
    /// A write failed.
    WriteFault,
    /// A call of the network or of the clock failed. The system said this of it.
    NetFault(Failure),
    /// The CII text with this number, counted from 1, has this fault, which is never `Memory`.
    BadCii {
        text: u64,
        fault: CiiFault,
    },
    /// A CII text moves this address, `wcUrl` or `tsUrl`, from one value to another. Null is no value.
    Moved {
        property: CiiName,
        old: Text,
        new: Text,
    },
    /// The last turn was made, as many as these, a dial succeeded, and the last report did not come.
    Spent {
        turns: u64,
    },
    /// The last turn was made, as many as these, every dial failed, and the last report did not come.
    Unreachable {
        turns: u64,
    },
    /// This property of the CII state, `wcUrl` or `tsUrl`, is no address.
    BadUrl {
        property: CiiName,
    },
    /// Want of memory.
    Memory,
}
