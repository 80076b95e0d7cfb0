//! The masking keys of sessions.

use css_devices::faults::fault_of;
use css_outside::OutFault;
use rand_chacha::ChaCha20Rng;
use rand_core::{Rng, SeedableRng};
use std::random::RandomSource;
use tungstenite::MaskKeys;

/// The keys of a session's frames. Those of a session that was dialled come from 32 random bytes of the system; a
/// session that a peer opened masks nothing.
#[derive(Drop)]
pub(crate) struct Masks {
    rng: ChaCha20Rng,
}

impl Masks {
    /// Keys that nobody can guess.
    pub(crate) fn drawn<R: RandomSource>(rt: &R) -> Result<Masks, OutFault> {
        let mut seed = [0u8; 32];
        rt.fill_bytes(&mut seed).map_err(fault_of)?;
        Ok(Masks {
            rng: ChaCha20Rng::from_seed(seed),
        })
    }

    /// The keys of a session that masks nothing.
    pub(crate) fn unused() -> Masks {
        Masks {
            rng: ChaCha20Rng::from_seed([0u8; 32]),
        }
    }
}

impl MaskKeys for Masks {
    fn next_key(&mut self) -> [u8; 4] {
        self.rng.next_u32().to_le_bytes()
    }
}
