//! Each status, its exit status, and its line on standard error.

use crate::running::{NO_MEMORY, check};
use css_app::{LineWhy, Status, tell};
use css_cii::{CiiFault, CiiName};
use css_companion::{Cause, Report};
use css_memory::MemorySink;
use css_outside::{Failure, OutFault};
use css_schedule::PlayerFault;
use std::alloc::Global;
use std::process::Abort;

pub fn check_told(rt: &impl Abort, alloc: Global, status: &Status, number: u8, line: &str) {
    let mut sink = MemorySink::new(alloc, 1, &[]).expect(rt, NO_MEMORY);
    let ending = tell(alloc, status, &mut sink);
    check(rt, sink.bytes(), line.as_bytes(), line);
    assert!(rt; ending.number == number && ending.told == Ok(()), "{line}");
}

fn check_all(rt: &impl Abort, alloc: Global, statuses: &[(Status, u8, &str)]) {
    for (status, number, line) in statuses {
        check_told(rt, alloc, status, *number, line);
    }
}

/// Each status with its numbers, its exit status, and how it is told.
#[rattlefmt::skip]
const STATUSES: [(Status, u8, &str); 24] = [
    (Status::Done, 0, ""),
    (Status::Usage, 1, "css: usage\n"),
    (Status::BadLine { line: 1, why: LineWhy::Long }, 2, "css: line 1: long\n"),
    (Status::BadLine { line: 20, why: LineWhy::Form }, 2, "css: line 20: form\n"),
    (Status::BadLine { line: 3, why: LineWhy::Absent }, 2, "css: line 3: absent\n"),
    (Status::BadLine { line: 3, why: LineWhy::Player(PlayerFault::NoProgramme) }, 2, "css: line 3: no programme\n"),
    (Status::BadLine { line: 3, why: LineWhy::Player(PlayerFault::Speed) }, 2, "css: line 3: speed\n"),
    (Status::BadLine { line: 3, why: LineWhy::Player(PlayerFault::Range) }, 2, "css: line 3: range\n"),
    (Status::BadLine { line: 3, why: LineWhy::Player(PlayerFault::Full) }, 2, "css: line 3: full\n"),
    (Status::Broken { line: 4, earlier: 2, excess: 256_000_000 }, 3, "css: line 4: broken with line 2 by 256000000\n"),
    (Status::ReadFault, 4, "css: read fault\n"),
    (Status::WriteFault, 5, "css: write fault\n"),
    (Status::NetFault(Failure::InUse), 6, "css: net fault\n"),
    (Status::BadCii { text: 1, fault: CiiFault::NotJson }, 7, "css: cii text 1: not json\n"),
    (Status::BadCii { text: 3, fault: CiiFault::Field(CiiName::ContentId) }, 7, "css: cii text 3: field contentId\n"),
    (Status::Spent { turns: 10_000 }, 9, "css: spent after 10000 turns\n"),
    (Status::Unreachable { turns: 3 }, 10, "css: unreachable after 3 turns\n"),
    (Status::ChildFault { status: Err(Failure::Other) }, 11, "css: child fault\n"),
    (Status::ChildFault { status: Ok(i32::MIN) }, 11, "css: child status -2147483648\n"),
    (Status::BadSheet { line: 12 }, 12, "css: sheet line 12\n"),
    (Status::BadUrl { property: CiiName::TsUrl }, 13, "css: bad url tsUrl\n"),
    (Status::Memory, 14, "css: memory\n"),
    (Status::WrongReport { line: 7, right: Report::None(Cause::NoAnswer) }, 15, "css: line 7: wrong report\n"),
    (Status::NoInterval { reports: 9 }, 16, "css: no interval in 9 reports\n"),
];

#[test]
fn each_status_is_told(rt: HostRuntime) {
    check_all(&rt, rt.alloc(), &STATUSES);
}

#[test]
fn a_line_that_is_not_printed_changes_no_number(rt: HostRuntime) {
    let mut sink = MemorySink::new(rt.alloc(), 7, &[2]).expect(&rt, NO_MEMORY);
    let ending = tell(rt.alloc(), &Status::ReadFault, &mut sink);
    check(&rt, sink.bytes(), b"css: re", "what is printed");
    assert!(rt;
        ending.number == 4 && ending.told == Err(OutFault::Failed(Failure::Other)),
        "its number"
    );
}
