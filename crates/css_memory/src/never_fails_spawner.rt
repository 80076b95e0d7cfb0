ghost use Rattle.std.specs.Prelude.{◌≡◌, ◌≢◌, ◌+◌, ◌<◌, [], Some, Err, drop, IfOk, OnOk, OnErr};
ghost use Rattle.css_outside.specs.Faults.{CountsCall, HasFailed};
ghost use Rattle.css_outside.specs.Spawners.{Started, Finished, TellsSpawned};
ghost use Rattle.css_memory.specs.Spawning as spawners;

use crate::memory_spawner::MemorySpawner;
use css_num::{Memory, Text};
use css_outside::{OutFault, Spawner};
use std::alloc::Global;
use std::marker::Model;

/// A spawner in memory none of whose calls fails. It may lack memory.
#[derive(Drop)]
pub struct NeverFailsSpawner {
    inner: MemorySpawner,
}

impl Model for NeverFailsSpawner {
    ghost use Rattle.std.specs.Prelude.{◌≡◌, []};
    ghost use Rattle.css_memory.specs.Spawning.{Spawning};

    ghost Value = { Spawning };

    ghost view = { λ spawner. spawner.inner };

    ghost invariant = { λ spawner. spawner.inner.failing.fails ≡ [] };
}

impl NeverFailsSpawner {
    /// A spawner whose k-th `finish` that is Ok gives the k-th status, and 0 past the end.
    pub fn new(alloc: Global, statuses: &[i32]) -> Result<NeverFailsSpawner, Memory>
        ensures { IfOk result (λ spawner. spawner ≡ record {
          statuses = statuses.now;
          told = [];
          failing = record { fails = []; calls = 0; faults = 0 };
        }) }
    {
        Ok(NeverFailsSpawner {
            inner: MemorySpawner::new(alloc, statuses, &[])?,
        })
    }
}

impl Spawner for NeverFailsSpawner {
    ghost told = { λ spawner. Some spawner.told };

    ghost running = { λ spawner. spawners.running_of spawner.told };

    ghost faults = { λ _. 0 };

    fn start(&mut self, words: &[Text], input: &[u8]) -> Result<(), OutFault>
        ensures told { TellsSpawned (Some self.old.told) (Some self.new.told) result
            (λ _. Started words.now input.now) }
        ensures ok { OnOk result (spawners.running_of self.new.told ≡ spawners.running_of self.old.told + 1) }
        ensures err { OnErr result (spawners.running_of self.new.told ≡ spawners.running_of self.old.told) }
        ensures counted { CountsCall 0 0 result }
        ensures never { HasFailed result → ⊥ }
        ensures statuses { self.new.statuses ≡ self.old.statuses }
    {
        self.inner.start(words, input)
    }

    fn finish(&mut self) -> Result<i32, OutFault>
        requires { 0 < spawners.running_of self.old.told }
        ensures told { TellsSpawned (Some self.old.told) (Some self.new.told) result Finished }
        ensures ok { OnOk result (spawners.running_of self.new.told + 1 ≡ spawners.running_of self.old.told) }
        ensures err { OnErr result (spawners.running_of self.new.told ≡ spawners.running_of self.old.told) }
        ensures counted { CountsCall 0 0 result }
        ensures never { HasFailed result → ⊥ }
        ensures value { IfOk result (λ status. status ≡ spawners.next_status self.old.statuses) }
        ensures next { OnOk result (self.new.statuses ≡ drop 1 self.old.statuses) }
    {
        self.inner.finish()
    }
}
