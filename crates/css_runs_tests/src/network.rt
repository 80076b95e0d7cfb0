//! A network of datagrams between two ends.
use crate::noted::{Sending, keep};
use css_num::{Memory, Text};
use rand_core::SeedableRng;
use rand_core::utils::NextWord;
use rand_pcg::Lcg64Xsh32;
use std::alloc::Global;

/// Datagrams on their way, in the order in which they are sent. Half of them are lost, and the others come late and in
/// any order.
#[derive(Drop)]
pub struct Network {
    flight: Vec<Sending>,
    words: Lcg64Xsh32,
}

impl Network {
    /// A network that brings these, drawn from a seed.
    pub fn new(alloc: Global, seed: u64, sent: &[Sending]) -> Result<Network, Memory> {
        let mut words = Lcg64Xsh32::seed_from_u64(seed);
        let mut flight = Vec::new(alloc);
        for one in sent {
            if words.next_word() % 2 == 0 {
                keep(alloc, &mut flight, one.turn, one.peer, one.bytes.bytes())?;
            }
        }
        Ok(Network { flight, words })
    }

    /// One of those that were sent before a turn. In one case of four none comes, though there may be some.
    pub fn come(&mut self, turn: u64) -> Option<Text> {
        let mut sent = 0usize;
        for one in &self.flight {
            sent = sent.wrapping_add(usize::from(one.turn < turn));
        }
        if sent == 0 || self.words.next_word() % 4 == 0 {
            return None;
        }
        let at = self.words.next_word() as usize % sent;
        if at < self.flight.len() {
            Some(self.flight.remove(at).bytes)
        } else {
            None
        }
    }
}
