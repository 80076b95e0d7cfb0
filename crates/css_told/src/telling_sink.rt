ghost use Rattle.std.specs.Prelude.{◌≡◌, ◌<◌, ◌≤◌, Some, [], length, IfOk};
ghost use Rattle.std.specs.Io.KnownBytes.{WriteAppends};
ghost use Rattle.css_outside.specs.Faults.{CountsCall};
ghost use Rattle.css_told.specs.Noted.{HoldsAsGiven};

use crate::given::Given;
use css_outside::{OutFault, Sink};

/// A sink that tells the bytes which its inner sink answered to have taken.
#[derive(Drop)]
pub struct TellingSink<K> {
    inner: K,
    given: Given,
}

impl<K: Sink> TellingSink<K> {
    /// Nothing was given yet.
    pub fn new(inner: K) -> TellingSink<K>
        ensures given { result.given.bytes ≡ [] }
        ensures inner { result.inner ≡ inner }
    {
        TellingSink {
            inner,
            given: Given::new(),
        }
    }
}

impl<K: Sink> Sink for TellingSink<K> {
    ghost holds = { λ sink. Some sink.given.bytes };

    ghost faults = { λ sink. K.faults sink.inner };

    fn write(&mut self, bytes: &[u8]) -> Result<usize, OutFault>
        ensures bound { IfOk result (λ count. count ≤ length bytes.now) }
        ensures some { IfOk result (λ count. 0 < length bytes.now → 0 < count) }
        ensures bytes { WriteAppends (Some self.old.given.bytes) (Some self.new.given.bytes) result bytes.now }
        ensures counted { CountsCall (K.faults self.old.inner) (K.faults self.new.inner) result }
        ensures inner { HoldsAsGiven (K.holds self.old.inner) (K.holds self.new.inner)
            self.old.given.bytes self.new.given.bytes }
    {
        let count = self.inner.write(bytes)?;
        self.given.add(bytes, count);
        Ok(count)
    }
}
