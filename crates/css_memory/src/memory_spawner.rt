ghost use Rattle.std.specs.Prelude.{◌≡◌, ◌≢◌, ◌+◌, ◌<◌, ◌≤◌, ◌∷◌, [], Some, Err, drop, length, IfOk, OnOk, OnErr};
ghost use Rattle.css_memory.specs.Failing.{next_count};
ghost use Rattle.css_outside.specs.Faults.{CountsCall};
ghost use Rattle.css_outside.specs.Spawners.{Started, Finished, TellsSpawned};
ghost use Rattle.css_memory.specs.Spawning.{SpawnFailsWhereTold};
ghost use Rattle.css_memory.specs.Spawning as spawners;

use crate::failing::FailingCalls;
use crate::places::past;
use css_num::{Memory, Text};
use css_outside::{Failure, OutFault, Spawner};
use std::alloc::Global;
use std::marker::Model;

/// What was done with a child.
#[derive(Drop)]
pub enum SpawnNote {
    Started(Vec<Text>, Text),
    Finished(i32),
}

/// Notes what was done.
fn add_note(notes: &mut Vec<SpawnNote>, made: SpawnNote) -> Result<(), Memory>
    ensures ok { OnOk result
        (spawners.spawned_of notes.new.items ≡ spawners.spawned_by made ∷ spawners.spawned_of notes.old.items) }
    ensures err { OnErr result (notes.new.items ≡ notes.old.items) }
{
    notes.push(made)?;
    Ok(())
}

/// The status at a place, and 0 past the end.
fn next_status(statuses: &[i32], at: usize) -> i32
    requires { at ≤ length statuses.now }
    ensures { result ≡ spawners.next_status (drop at statuses.now) }
{
    if at < statuses.len() { statuses[at] } else { 0 }
}

/// Equal words.
fn copied(alloc: Global, words: &[Text]) -> Result<Vec<Text>, Memory>
    ensures { IfOk result (λ copy. copy.items ≡ words.now) }
{
    Ok(words.to_vec(alloc)?)
}

/// A spawner in memory: its children end with given statuses, and its calls fail where they are told to.
pub struct MemorySpawner {
    alloc: Global,
    statuses: Vec<i32>,
    ended: usize,
    notes: Vec<SpawnNote>,
    failing: FailingCalls,
}

// One function drops it, so that its callers' proofs don't open each of its fields.
impl Drop for MemorySpawner {
    fn drop(self) {
        let MemorySpawner {
            alloc: _,
            statuses: _,
            ended: _,
            notes: _,
            failing: _,
        } = self;
    }
}

impl Model for MemorySpawner {
    ghost use Rattle.std.specs.Prelude.{◌≤◌, drop, length};
    ghost use Rattle.css_memory.specs.Spawning.{Spawning, spawned_of};

    ghost Value = { Spawning };

    ghost view = { λ s. record {
      statuses = drop s.ended s.statuses.items;
      told = spawned_of s.notes.items;
      failing = s.failing;
    } };

    ghost invariant = { λ s. s.ended ≤ length s.statuses.items };
}

impl MemorySpawner {
    /// A spawner whose k-th `finish` that is Ok gives the k-th status, and 0 past the end. The calls whose numbers
    /// stand in `fails` fail: they are counted from 1, the failed ones too.
    pub fn new(alloc: Global, statuses: &[i32], fails: &[u64]) -> Result<MemorySpawner, Memory>
        ensures { IfOk result (λ spawner. spawner ≡ record {
          statuses = statuses.now;
          told = [];
          failing = record { fails = fails.now; calls = 0; faults = 0 };
        }) }
    {
        Ok(MemorySpawner {
            alloc,
            statuses: statuses.to_vec(alloc)?,
            ended: 0,
            notes: Vec::new(alloc),
            failing: FailingCalls::new(alloc, fails)?,
        })
    }
}

impl Spawner for MemorySpawner {
    ghost told = { λ spawner. Some spawner.told };

    ghost running = { λ spawner. spawners.running_of spawner.told };

    ghost faults = { λ spawner. spawner.failing.faults };

    fn start(&mut self, words: &[Text], input: &[u8]) -> Result<(), OutFault>
        ensures told { TellsSpawned (Some self.old.told) (Some self.new.told) result
            (λ _. Started words.now input.now) }
        ensures ok { OnOk result (spawners.running_of self.new.told ≡ spawners.running_of self.old.told + 1) }
        ensures err { OnErr result (spawners.running_of self.new.told ≡ spawners.running_of self.old.told) }
        ensures counted { CountsCall self.old.failing.faults self.new.failing.faults result }
        ensures fails { SpawnFailsWhereTold self.old.failing result }
        ensures calls { (self.new.failing.fails ≡ self.old.failing.fails)
            × (self.new.failing.calls ≡ next_count self.old.failing.calls) }
        ensures statuses { self.new.statuses ≡ self.old.statuses }
    {
        if self.failing.next_fails() {
            return Err(OutFault::Failed(Failure::Other));
        }
        let words = copied(self.alloc, words)?;
        let input = Text::of(self.alloc, input)?;
        add_note(&mut self.notes, SpawnNote::Started(words, input))?;
        Ok(())
    }

    fn finish(&mut self) -> Result<i32, OutFault>
        requires { 0 < spawners.running_of self.old.told }
        ensures told { TellsSpawned (Some self.old.told) (Some self.new.told) result Finished }
        ensures ok { OnOk result (spawners.running_of self.new.told + 1 ≡ spawners.running_of self.old.told) }
        ensures err { OnErr result (spawners.running_of self.new.told ≡ spawners.running_of self.old.told) }
        ensures counted { CountsCall self.old.failing.faults self.new.failing.faults result }
        ensures fails { SpawnFailsWhereTold self.old.failing result }
        ensures calls { (self.new.failing.fails ≡ self.old.failing.fails)
            × (self.new.failing.calls ≡ next_count self.old.failing.calls) }
        ensures value { IfOk result (λ status. status ≡ spawners.next_status self.old.statuses) }
        ensures next { OnOk result (self.new.statuses ≡ drop 1 self.old.statuses) }
    {
        if self.failing.next_fails() {
            return Err(OutFault::Failed(Failure::Other));
        }
        let status = next_status(&self.statuses, self.ended);
        add_note(&mut self.notes, SpawnNote::Finished(status))?;
        self.ended = past(&self.statuses, self.ended);
        Ok(status)
    }
}
