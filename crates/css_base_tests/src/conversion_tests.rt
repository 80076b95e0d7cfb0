//! Conversions between clocks of drawn forests, beside a search over the values of their root.
ghost use Rattle.std.specs.Prelude.{◌<◌, ◌≤◌, pos, ◌≤ℤ◌, ◌<ℤ◌};

use crate::clock_tests::{convert, rate};
use crate::common::{check_that, next_word};
use css_num::Rate;
use css_tree::{ClockFault, Tree};
use std::alloc::Global;
use std::process::Abort;

/// Numbers that look drawn, and are the same at each run.
#[derive(Drop)]
struct Draws {
    word: u64,
}

impl Draws {
    fn below(&mut self, limit: u32) -> i32
        requires positive { 0 < limit }
        requires small { limit ≤ 1000 }
        ensures low { pos 0 ≤ℤ result }
        ensures high { result <ℤ pos limit }
    {
        self.word = next_word(self.word);
        ((self.word >> 33) % u64::from(limit)) as i32
    }
}

/// A rate of two parts from 1 to 3.
fn drawn_rate(rt: &impl Abort, draws: &mut Draws) -> Rate {
    let units_per_tick = draws.below(3) + 1;
    let units_per_second = draws.below(3) + 1;
    rate(rt, (units_per_tick as u32, units_per_second as u32))
}

/// A forest of one root and seven clocks, each on one before it, at speeds -2 to 2.
fn drawn_tree(rt: &impl Abort, alloc: Global, draws: &mut Draws) -> Tree {
    let mut tree = Tree::new(alloc);
    tree.add_root(drawn_rate(rt, draws)).expect(rt, "a root");
    for clocks in 1..8 {
        let parent = draws.below(clocks);
        let own = drawn_rate(rt, draws);
        let speed = draws.below(5) - 2;
        let parent_ticks = i64::from(draws.below(7) - 3);
        let child_ticks = i64::from(draws.below(7) - 3);
        let added = tree.add(parent as u32, own, speed, parent_ticks, child_ticks);
        added.expect(rt, "a clock");
    }
    tree
}

fn covers((lo, hi): (i128, i128), number: i64) -> bool {
    lo <= i128::from(number) && i128::from(number) <= hi
}

/// Tries each root value of a window: where `from` reads a tick of the span, `to` is to read one of the answer. Counts
/// those root values.
fn search(
    rt: &impl Abort,
    tree: &Tree,
    (from, to): (u32, u32),
    span: (i128, i128),
    answer: (i128, i128),
) -> u64 {
    let mut found: u64 = 0;
    for root in -40..41 {
        if covers(span, tree.value(from, root).expect(rt, "a tick")) {
            let is_covered = covers(answer, tree.value(to, root).expect(rt, "a tick"));
            check_that(rt, is_covered, "a tick outside");
            found = found.saturating_add(1);
        }
    }
    found
}

/// Converts a drawn span between two clocks, and compares it with the search, which it counts. A clock that is stopped
/// on the way up gives 0.
fn compare(rt: &impl Abort, tree: &Tree, draws: &mut Draws, clocks: (u32, u32)) -> u64 {
    let lo = i64::from(draws.below(41) - 20);
    let hi = lo + i64::from(draws.below(4));
    match convert(rt, tree, clocks.0, clocks.1, (lo, hi)) {
        Ok(answer) => search(rt, tree, clocks, (i128::from(lo), i128::from(hi)), answer),
        Err(ClockFault::Stopped(_)) => 0,
        Err(fault) => panic!(rt; "{fault:?}"),
    }
}

#[test]
fn a_plain_search_finds_nothing_outside(rt: HostRuntime) {
    let mut draws = Draws { word: 1 };
    let mut found: u64 = 0;
    for _ in 0..12 {
        let tree = drawn_tree(&rt, rt.alloc(), &mut draws);
        for pair in 0..64 {
            let more = compare(&rt, &tree, &mut draws, (pair / 8, pair % 8));
            found = found.saturating_add(more);
        }
    }
    check_that(&rt, found > 500, "few are found");
}
