ghost use Rattle.std.specs.Prelude.{◌≡◌, ◌↔◌, IfOk, IsTrue, Contains, if◌then◌else◌};
ghost use Rattle.css_outside.specs.Faults.{HasRisenOnce};
ghost use Rattle.css_memory.specs.Failing.{next_count};

use css_num::Memory;
use std::alloc::Global;
use std::marker::Model;

/// Which calls of a device fail.
#[derive(Drop)]
pub struct FailingCalls {
    fails: Vec<u64>,
    calls: u64,
    faults: u64,
}

impl Model for FailingCalls {
    ghost use Rattle.css_memory.specs.Failing.{Failures};

    ghost Value = { Failures };

    ghost view = { λ failing. record { fails = failing.fails.items; calls = failing.calls; faults = failing.faults } };
}

impl FailingCalls {
    pub fn new(alloc: Global, fails: &[u64]) -> Result<FailingCalls, Memory>
        ensures { IfOk result (λ failing. failing ≡ record { fails = fails.now; calls = 0; faults = 0 }) }
    {
        Ok(FailingCalls {
            fails: fails.to_vec(alloc)?,
            calls: 0,
            faults: 0,
        })
    }

    /// Counts the next call, and tells whether it fails.
    pub fn next_fails(&mut self) -> bool
        ensures fails { IsTrue result ↔ Contains self.old.fails (next_count self.old.calls) }
        ensures counted { self.new ≡ record self.old {
          calls = next_count self.old.calls;
          faults = if result then next_count self.old.faults else self.old.faults;
        } }
        ensures risen { IsTrue result → HasRisenOnce self.old.faults self.new.faults }
    {
        self.calls = self.calls.saturating_add(1);
        let fails = self.fails.contains(&self.calls);
        if fails {
            self.faults = self.faults.saturating_add(1);
        }
        fails
    }
}
