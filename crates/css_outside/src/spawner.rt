ghost use Rattle.std.specs.Prelude.{◌≡◌, ◌+◌, ◌<◌, ℕ, List, Option, OnOk, OnErr};
ghost use Rattle.css_outside.specs.Faults.{CountsCall};
ghost use Rattle.css_outside.specs.Spawners.{Spawned, Started, Finished, TellsSpawned};

use crate::fault::OutFault;
use css_num::Text;

/// What starts child programs.
///
/// A call that fails raises the count of faults. A call that is Ok, or lacks memory, leaves it.
pub trait Spawner {
    /// The children that were started, and how they ended, the newest first, where it tells that.
    ghost told: { Self → Option (List Spawned) };

    /// How many children were started and haven't ended.
    ghost running: { Self → ℕ };

    /// How often a call has failed.
    ghost faults: { Self → ℕ };

    /// Starts a child with these words after its program's name, and this standard input.
    fn start(&mut self, words: &[Text], input: &[u8]) -> Result<(), OutFault>
        ensures told { TellsSpawned (told self.old) (told self.new) result (λ _. Started words.now input.now) }
        ensures ok { OnOk result (running self.new ≡ running self.old + 1) }
        ensures err { OnErr result (running self.new ≡ running self.old) }
        ensures counted { CountsCall (faults self.old) (faults self.new) result };

    /// Waits for a child to end, and gives its exit status.
    fn finish(&mut self) -> Result<i32, OutFault>
        requires { 0 < running self.old }
        ensures told { TellsSpawned (told self.old) (told self.new) result Finished }
        ensures ok { OnOk result (running self.new + 1 ≡ running self.old) }
        ensures err { OnErr result (running self.new ≡ running self.old) }
        ensures counted { CountsCall (faults self.old) (faults self.new) result };
}
