//! The live commands over devices in memory.

use crate::live_tables::{COMPANIONS, EARLY, FAILING, PAIR, PAIRS, RECORDS, TELEVISIONS, TIMED};
use crate::running::{Case, NO_MEMORY, check_rows, check_run};
use std::alloc::Global;
use std::process::Abort;

#[test]
fn each_run_ends_as_it_should(rt: HostRuntime) {
    for rows in [COMPANIONS, EARLY, TELEVISIONS, PAIRS, RECORDS, TIMED] {
        check_rows(&rt, rt.alloc(), rows);
    }
}

fn check_fails(rt: &impl Abort, alloc: Global, calls: &[u64], ended: &str, printed: &[u8]) {
    for call in calls {
        let case = Case {
            calls: &[*call],
            ..PAIR
        };
        let name = format!(in alloc; "call {call}").expect(rt, NO_MEMORY);
        check_run(rt, alloc, &name, &case, ended, printed);
    }
}

#[test]
fn each_call_of_a_pair_fails_once(rt: HostRuntime) {
    for (calls, ended, printed) in FAILING {
        check_fails(&rt, rt.alloc(), calls, ended, printed);
    }
}
