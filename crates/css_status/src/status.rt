use css_cii::{CiiFault, CiiName};
use css_companion::Report;
use css_num::Text;
use css_outside::Failure;
use css_schedule::LineWhy;
use std::fmt;

/// How a run ended. It is printed in the words of the program's status line.
#[derive(Debug, PartialEq, Eq, Drop)]
pub enum Status {
    /// The input was read to its end, and all output was written. Of a live command: all reports were written, or all
    /// turns were made.
    Done,
    /// The words are those of no command. No device was touched.
    Usage,
    /// This line, counted from 1, is the first one that is refused. The output of the lines before was written. Of a
    /// television's script it is refused before the run, or by the player when it is due.
    BadLine {
        line: u64,
        why: LineWhy,
    },
    /// This line, counted from 1, is the first one that is refused, since its numbers contradict those of an earlier
    /// one: true time fell, a clock drifted by more than its oscillator's error allows, or a reading fell. Where a
    /// reading differs from its clock by more than the precision, the earlier line is the line itself. The excess is in
    /// 1/256,000,000 ns where a clock drifted, and else in nanoseconds. The output of the lines before was written.
    Broken {
        line: u64,
        earlier: u64,
        excess: i128,
    },
    /// A read failed. The output of each line whose line feed was read was written.
    ReadFault,
    /// A write failed. A part of the output of the lines that were read, or of the reports that were due, was written.
    WriteFault,
    /// A call of the network or of the clock failed, and the system said this of it. Of a dial that failed nothing is
    /// told here: it is made again.
    NetFault(Failure),
    /// The text of the CSS-CII session with this number, counted from 1, has this fault, which is never `Memory`.
    BadCii {
        text: u64,
        fault: CiiFault,
    },
    /// A text of the CSS-CII session moves this address, `wcUrl` or `tsUrl`, from one value to another.
    Moved {
        property: CiiName,
        old: Text,
        new: Text,
    },
    /// All turns were made, a dial succeeded, and the last report did not come.
    Spent {
        turns: u64,
    },
    /// All turns were made, every dial failed, and the last report did not come.
    Unreachable {
        turns: u64,
    },
    /// The child ended with this status, which isn't 0; or it couldn't be started, or waited for, and the system said
    /// this of it.
    ChildFault {
        status: Result<i32, Failure>,
    },
    /// This line of the cue sheet, counted from 1, is the first one that is outside the grammar.
    BadSheet {
        line: u64,
    },
    /// This property of the CSS-CII state, `wcUrl` or `tsUrl`, is no address.
    BadUrl {
        property: CiiName,
    },
    /// The report in this line of a record, counted from 1, is the first one that isn't the report of what was told
    /// before it, which this is.
    WrongReport {
        line: u64,
        right: Report,
    },
    /// A watch made its last turn, a dial of the CSS-CII session succeeded, and none of these reports had ticks.
    NoInterval {
        reports: u64,
    },
    /// Memory ran out. A part of the output of the lines that were read, or of the reports that were due, was written.
    Memory,
}

impl Status {
    ghost use Rattle.std.specs.Prelude.{◌≡◌};
    ghost use Rattle.css_status.specs.Ended.{status_number};

    /// The exit status of the program.
    pub fn number(&self) -> u8
        ensures { result ≡ status_number self.now }
    {
        match self {
            Status::Done => 0,
            Status::Usage => 1,
            Status::BadLine { .. } => 2,
            Status::Broken { .. } => 3,
            Status::ReadFault => 4,
            Status::WriteFault => 5,
            Status::NetFault(_) => 6,
            Status::BadCii { .. } => 7,
            Status::Moved { .. } => 8,
            Status::Spent { .. } => 9,
            Status::Unreachable { .. } => 10,
            Status::ChildFault { .. } => 11,
            Status::BadSheet { .. } => 12,
            Status::BadUrl { .. } => 13,
            Status::Memory => 14,
            Status::WrongReport { .. } => 15,
            Status::NoInterval { .. } => 16,
        }
    }
}

impl fmt::Display for Status {
    ghost use Rattle.std.specs.Prelude.{Some};
    ghost use Rattle.css_status.specs.Ended.{status_words};

    ghost output = { λ status. Some (status_words status) };

    fn fmt<W: fmt::Write>(&self, f: &mut fmt::Formatter<W>) -> fmt::Result {
        match self {
            Status::Done => f.write_str("done"),
            Status::Usage => f.write_str("usage"),
            Status::BadLine { line, why } => write!(f, "line {line}: {why}"),
            Status::Broken {
                line,
                earlier,
                excess,
            } => write!(f, "line {line}: broken with line {earlier} by {excess}"),
            Status::ReadFault => f.write_str("read fault"),
            Status::WriteFault => f.write_str("write fault"),
            Status::NetFault(_) => f.write_str("net fault"),
            Status::BadCii { text, fault } => write!(f, "cii text {text}: {fault}"),
            Status::Moved { property, .. } => write!(f, "moved {property}"),
            Status::Spent { turns } => write!(f, "spent after {turns} turns"),
            Status::Unreachable { turns } => write!(f, "unreachable after {turns} turns"),
            Status::ChildFault { status: Err(_) } => f.write_str("child fault"),
            Status::ChildFault { status: Ok(status) } => write!(f, "child status {status}"),
            Status::BadSheet { line } => write!(f, "sheet line {line}"),
            Status::BadUrl { property } => write!(f, "bad url {property}"),
            Status::WrongReport { line, .. } => write!(f, "line {line}: wrong report"),
            Status::NoInterval { reports } => write!(f, "no interval in {reports} reports"),
            Status::Memory => f.write_str("memory"),
        }
    }
}
