ghost use Rattle.std.specs.Prelude.{◌≡◌, ◌+◌, ◌<◌, Some, [], OnOk, OnErr};
ghost use Rattle.css_outside.specs.Faults.{CountsCall};
ghost use Rattle.css_outside.specs.Spawners.{Started, Finished, TellsSpawned};
ghost use Rattle.css_told.specs.Noted.{TellsAsNoted};

use crate::happening::Happening;
use crate::roll::Roll;
use css_num::Text;
use css_outside::{OutFault, Spawner};

/// A spawner that tells what its inner spawner answered.
#[derive(Drop)]
pub struct TellingSpawner<S> {
    inner: S,
    roll: Roll,
}

impl<S: Spawner> TellingSpawner<S> {
    /// No child was started yet.
    pub fn new(inner: S) -> TellingSpawner<S>
        ensures roll { result.roll.children ≡ [] }
        ensures inner { result.inner ≡ inner }
    {
        TellingSpawner {
            inner,
            roll: Roll::new(),
        }
    }
}

impl<S: Spawner> Spawner for TellingSpawner<S> {
    ghost told = { λ spawner. Some spawner.roll.children };

    ghost running = { λ spawner. S.running spawner.inner };

    ghost faults = { λ spawner. S.faults spawner.inner };

    fn start(&mut self, words: &[Text], input: &[u8]) -> Result<(), OutFault>
        ensures told { TellsSpawned (Some self.old.roll.children) (Some self.new.roll.children)
            result (λ _. Started words.now input.now) }
        ensures ok { OnOk result (S.running self.new.inner ≡ S.running self.old.inner + 1) }
        ensures err { OnErr result (S.running self.new.inner ≡ S.running self.old.inner) }
        ensures counted { CountsCall (S.faults self.old.inner) (S.faults self.new.inner) result }
        ensures inner { TellsAsNoted (S.told self.old.inner) (S.told self.new.inner)
            self.old.roll.children self.new.roll.children }
    {
        self.inner.start(words, input)?;
        self.roll.note(&Happening::Starts(words, input));
        Ok(())
    }

    fn finish(&mut self) -> Result<i32, OutFault>
        requires { 0 < S.running self.old.inner }
        ensures told { TellsSpawned (Some self.old.roll.children) (Some self.new.roll.children) result Finished }
        ensures ok { OnOk result (S.running self.new.inner + 1 ≡ S.running self.old.inner) }
        ensures err { OnErr result (S.running self.new.inner ≡ S.running self.old.inner) }
        ensures counted { CountsCall (S.faults self.old.inner) (S.faults self.new.inner) result }
        ensures inner { TellsAsNoted (S.told self.old.inner) (S.told self.new.inner)
            self.old.roll.children self.new.roll.children }
    {
        let status = self.inner.finish()?;
        self.roll.note(&Happening::Finishes(status));
        Ok(status)
    }
}
