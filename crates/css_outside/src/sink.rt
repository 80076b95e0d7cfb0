ghost use Rattle.std.specs.Prelude.{◌<◌, ◌≤◌, List, ℕ, Option, length, IfOk, OnOk, OnErr};
ghost use Rattle.std.specs.Io.KnownBytes.{Appends, WriteAppends};
ghost use Rattle.css_outside.specs.Faults.{CountsCall};
ghost use Rattle.css_outside.specs.Bytes.{AppendsPrefix};

use crate::fault::OutFault;

/// Where bytes go.
pub trait Sink {
    /// The bytes that it was given, where the sink tells them.
    ghost holds: { Self → Option (List ℕ) };

    /// How often a write has failed. It never falls, and rises only in a write that answers `Failed`.
    ghost faults: { Self → ℕ };

    /// Takes some of the bytes, from their front on, and tells how many: at least one where there are any. A write
    /// that fails takes none.
    fn write(&mut self, bytes: &[u8]) -> Result<usize, OutFault>
        ensures bound { IfOk result (λ count. count ≤ length bytes.now) }
        ensures some { IfOk result (λ count. 0 < length bytes.now → 0 < count) }
        ensures bytes { WriteAppends (holds self.old) (holds self.new) result bytes.now }
        ensures counted { CountsCall (faults self.old) (faults self.new) result };
}

/// Writes all of the bytes, or at a fault a part of them from their front on. No failed write is tried again.
pub fn write_all<K: Sink>(sink: &mut K, bytes: &[u8]) -> Result<(), OutFault>
    ensures ok { OnOk result (Appends (K.holds sink.old) (K.holds sink.new) bytes.now) }
    ensures err { OnErr result (AppendsPrefix (K.holds sink.old) (K.holds sink.new) bytes.now) }
    ensures counted { CountsCall (K.faults sink.old) (K.faults sink.new) result }
{
    let mut written = 0;
    while written < bytes.len() {
        let count = sink.write(&bytes[written..])?;
        written += count;
    }
    Ok(())
}
