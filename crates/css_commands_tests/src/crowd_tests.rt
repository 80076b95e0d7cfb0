//! Drawn schedules are replayed as they are computed a second time.

use crate::crowds::{Crowd, Plan};
use crate::running::{check_run, over};
use std::alloc::Global;
use std::process::Abort;

#[rattlefmt::skip]
const PLANS: [Plan; 3] = [
    Plan { name: "16 companions", seed: 1, companions: 16, follow: true, asks: 1, turns: 700 },
    Plan { name: "2 companions", seed: 8, companions: 2, follow: true, asks: 3, turns: 500 },
    Plan { name: "3 companions", seed: 1, companions: 3, follow: false, asks: 1, turns: 400 },
];

/// A replay of a drawn schedule prints what is computed for it. At least half of that are intervals.
fn check_computed(rt: &impl Abort, alloc: Global, plan: Plan) {
    let mut crowd = Crowd::new(alloc, plan);
    crowd.draw(alloc).expect(rt, "memory");
    let case = over("replay", &crowd.schedule);
    let printed = crowd.printed.as_bytes();
    check_run(rt, alloc, plan.name, &case, "done", printed);
    let twice = crowd.intervals.wrapping_mul(2);
    assert!(rt;
        crowd.sleeps > 0 && crowd.prints > 0 && twice >= crowd.prints,
        "{}",
        plan.name
    );
}

#[test]
fn drawn_schedules_are_replayed_as_computed(rt: HostRuntime) {
    for plan in PLANS {
        check_computed(&rt, rt.alloc(), plan);
    }
}
