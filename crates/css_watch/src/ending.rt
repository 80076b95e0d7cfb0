use css_outside::Failure;

/// How a watch ended.
#[derive(Clone, Copy, Debug, PartialEq, Eq)]
pub enum Watched {
    /// The last turn was made, and a report had ticks.
    Done,
    /// The last turn was made, as many as these, and no dial of CSS-CII succeeded.
    Unreachable { turns: u64 },
    /// The last turn was made, a dial succeeded, and none of these reports had ticks.
    NoInterval { reports: u64 },
    /// A write failed.
    WriteFault,
    /// A call of the network or of the clock failed. The system said this of it.
    NetFault(Failure),
    /// Want of memory.
    Memory,
}
