//! The command `watch` over devices in memory.

use crate::running::{Case, NO_MEMORY, check_run};
use crate::watch_tables::{CLOSED, CLOSES, FAILING, REASONS, VISITS, WATCHES, WatchRow};
use css_num::Text;
use std::alloc::Global;
use std::process::Abort;

fn text_of(rt: &impl Abort, alloc: Global, lines: &[&str]) -> Text {
    let mut text = Text::new(alloc);
    for line in lines {
        text.push(line.as_bytes()).expect(rt, NO_MEMORY);
        text.push(b"\n").expect(rt, NO_MEMORY);
    }
    text
}

fn check_watches(rt: &impl Abort, alloc: Global, rows: &[WatchRow]) {
    for (name, case, ended, lines) in rows {
        let text = text_of(rt, alloc, lines);
        check_run(rt, alloc, name, case, ended, text.bytes());
    }
}

#[test]
fn each_watch_tells_what_happens(rt: HostRuntime) {
    check_watches(&rt, rt.alloc(), WATCHES);
}

#[test]
fn each_watch_says_why(rt: HostRuntime) {
    check_watches(&rt, rt.alloc(), REASONS);
}

#[test]
fn each_watch_goes_on(rt: HostRuntime) {
    check_watches(&rt, rt.alloc(), VISITS);
}

/// A watch that fails writes the first of these lines, so many.
fn check_front(
    rt: &impl Abort,
    alloc: Global,
    case: &Case<'_>,
    ended: &str,
    lines: &[&str],
    count: usize,
) {
    let front = lines.get(..count).expect(rt, "lines");
    let text = text_of(rt, alloc, front);
    let name = format!(in alloc; "{ended} after {count} lines").expect(rt, NO_MEMORY);
    check_run(rt, alloc, &name, case, ended, text.bytes());
}

#[test]
fn each_call_of_a_watch_fails_once(rt: HostRuntime) {
    for (calls, count) in FAILING {
        for call in *calls {
            let case = Case {
                calls: &[*call],
                ..CLOSES
            };
            check_front(&rt, rt.alloc(), &case, "net fault", CLOSED, *count);
        }
    }
}

// Each line is one write.
#[test]
fn each_write_of_a_watch_fails_once(rt: HostRuntime) {
    for count in 0..CLOSED.len() {
        let write = (count as u64).saturating_add(1);
        let case = Case {
            writes: &[write],
            ..CLOSES
        };
        check_front(&rt, rt.alloc(), &case, "write fault", CLOSED, count);
    }
}
