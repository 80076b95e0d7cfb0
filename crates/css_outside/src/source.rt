ghost use Rattle.std.specs.Prelude.{List, ℕ, Option};
ghost use Rattle.std.specs.Io.{ReadsAtMost};
ghost use Rattle.std.specs.Io.KnownBytes.{ReadConsumes};
ghost use Rattle.css_outside.specs.Faults.{CountsReadFaults};

use crate::fault::Failed;

/// Where bytes come from.
pub trait Source {
    /// The bytes that are still to come, where the source tells them.
    ghost left: { Self → Option (List ℕ) };

    /// How often a read has failed. It never falls, and rises only in a read that answers `Failed`.
    ghost faults: { Self → ℕ };

    /// Takes the next bytes into the front of `into`, and tells how many: 0 only at the end, or for an empty slice.
    /// A read that fails takes nothing.
    fn read(&mut self, into: &mut [u8]) -> Result<usize, Failed>
        ensures bound { ReadsAtMost result into.new }
        ensures bytes { ReadConsumes (left self.old) (left self.new) result into.new }
        ensures counted { CountsReadFaults (faults self.old) (faults self.new) result };
}
