ghost use Rattle.std.specs.Prelude.{◌≡◌, ◌≤◌, ◌<◌, ◌-◌, ◌*◌, ◌^◌, ◌++◌, ◌∷◌, [], min, length, slice_index, OnOk, OnErr};
ghost use Rattle.css_gen.specs.Crowd.{datagrams};

use css_num::Memory;
use std::alloc::Global;
use std::marker::Model;

/// The companion that sent each request, or the request of each take, in order. Requests and takes are counted from 1.
#[derive(Drop)]
pub(crate) struct Senders {
    list: Vec<u32>,
}

impl Model for Senders {
    ghost use Rattle.std.specs.Prelude.{List, ℕ};

    ghost Value = { List ℕ };

    ghost view = { λ senders. senders.list.items };
}

impl Senders {
    /// No one has sent anything.
    pub(crate) fn new(alloc: Global) -> Senders
        ensures { result ≡ [] }
    {
        Senders {
            list: Vec::new(alloc),
        }
    }

    /// The next one is this companion's.
    pub(crate) fn push(&mut self, who: u32) -> Result<(), Memory>
        ensures added { OnOk result (self.new ≡ self.old ++ who ∷ []) }
        ensures kept { OnErr result (self.new ≡ self.old) }
    {
        self.list.push(who)?;
        Ok(())
    }

    /// The companion that sent the one with this number.
    pub(crate) fn at(&self, number: u32) -> u32
        requires low { 1 ≤ number }
        requires high { number ≤ length self.now }
        ensures { result ≡ slice_index self.now (number - 1) }
    {
        self.list[number as usize - 1]
    }

    /// How many of the first `answers` takes are of a companion's requests. At most 4 are counted, from the last one
    /// on.
    #[tactic(auto, unfolding(crate::specs::Crowd::datagrams))]
    fn recent_answers(&self, who: u32, answers: u32) -> u32
        requires { answers ≤ length self.now }
        ensures few { result ≤ 4 }
        ensures many { min (2 * result) 8 ≡ min (length (datagrams who self.now answers)) 8 }
    {
        let mut found = 0;
        let mut take = answers;
        'takes: while take > 0 && found < 4 {
            if self.at(take) == who {
                found += 1;
            }
            take -= 1;
        }
        found
    }

    /// How many datagrams answer a companion's requests, where the first `answers` takes were answered. At most 8 are
    /// counted.
    pub(crate) fn recent_datagrams(&self, who: u32, answers: u32) -> u32
        requires { answers ≤ length self.now }
        ensures { result ≡ min (length (datagrams who self.now answers)) 8 }
    {
        2 * self.recent_answers(who, answers)
    }

    /// One of these datagrams, which was made so many before the last of them. Each answer makes two.
    #[tactic(auto, unfolding(crate::specs::Crowd::datagrams))]
    pub(crate) fn datagram(&self, who: u32, answers: u32, back: u32) -> u32
        requires some { back < length (datagrams who self.now answers) }
        requires made { answers ≤ length self.now }
        requires few { answers < 2 ^ 24 }
        ensures { result ≡ slice_index (datagrams who self.now answers) back }
    {
        let mut before = back;
        let mut take = answers;
        'takes: while take > 0 {
            if self.at(take) == who {
                if before < 2 {
                    return 2 * take - before;
                }
                before -= 2;
            }
            take -= 1;
        }
        unreachable!()
    }
}
