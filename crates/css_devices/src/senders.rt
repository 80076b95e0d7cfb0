//! The numbers of those who send datagrams to a socket that listens.
ghost use Rattle.std.specs.Prelude.{◌≡◌, ◌≢◌, ◌%◌, ◌<◌, ℕ, IsTrue, IfSome, IfNone};
ghost use Rattle.std.specs.declared.net.socket_addr.SocketAddr.{SocketAddr};
ghost use Rattle.css_devices.specs.Senders.{Means, IsNumbered};

use crate::sender::Sender;
use crate::tally::FIRST_SENDER;
use std::marker::Model;
use std::net::SocketAddr;

/// How many senders are remembered. The answer to a request goes out before the next is taken.
const MOST_SENDERS: usize = 64;

/// Those who sent datagrams to a socket that listens. A number means one address until it is forgotten.
#[derive(Drop)]
pub struct Senders {
    /// The sender with the number n stands at n % 64, in the place of the one with n - 64.
    list: [Option<Sender>; MOST_SENDERS],
    /// The number of the next sender that isn't remembered. This one and those above mean nobody.
    next: u32,
}

/// Where the sender with this number stands.
fn place_of(peer: u32) -> usize
    ensures { result ≡ peer % 64 }
{
    peer as usize % MOST_SENDERS
}

fn is_same(one: SocketAddr, other: SocketAddr) -> bool
    ensures { IsTrue result → one ≡ other }
{
    one == other
}

impl Model for Senders {
    ghost use Rattle.css_devices.specs.Senders.{Remembered};

    ghost Value = { Remembered };

    ghost view = { λ senders. record { list = senders.list; next = senders.next } };
}

impl Senders {
    /// Nobody sent anything.
    pub fn new() -> Senders
        ensures nobody { (peer : ℕ) → (known : SocketAddr) → ¬ Means result peer known }
        ensures first { result.next ≡ 2147483648 }
    {
        Senders {
            list: [None; MOST_SENDERS],
            next: FIRST_SENDER,
        }
    }

    /// The address that a number means, if it means one.
    pub fn address_of(&self, peer: u32) -> Option<SocketAddr>
        ensures means { IfSome result (Means self.now peer) }
        ensures nobody { IfNone result ((known : SocketAddr) → ¬ Means self.now peer known) }
    {
        if peer >= self.next {
            return None;
        }
        let kept = self.list[place_of(peer)];
        match kept {
            Some(sender) if sender.peer == peer => Some(sender.address),
            _ => None,
        }
    }

    fn is_of(&self, peer: u32, address: SocketAddr) -> bool
        ensures { IsTrue result → Means self.now peer address }
    {
        match self.address_of(peer) {
            Some(known) => is_same(known, address),
            None => false,
        }
    }

    /// The number of a sender that is remembered.
    fn known(&self, address: SocketAddr) -> Option<u32>
        ensures { IfSome result (λ peer. Means self.now peer address) }
    {
        for sender in self.list.iter().flatten() {
            if self.is_of(sender.peer, address) {
                return Some(sender.peer);
            }
        }
        None
    }

    /// Gives a sender the next number. After the greatest comes the first.
    fn add(&mut self, address: SocketAddr) -> u32
        ensures { IsNumbered self.old self.new address result }
    {
        let peer = if self.next < u32::MAX {
            self.next
        } else {
            FIRST_SENDER
        };
        self.list[place_of(peer)] = Some(Sender { peer, address });
        self.next = peer + 1;
        peer
    }

    /// The number of a sender: its own, or the next where it isn't remembered. The oldest one makes room.
    pub fn peer_of(&mut self, address: SocketAddr) -> u32
        ensures numbered { IsNumbered self.old self.new address result }
    {
        match self.known(address) {
            Some(peer) => peer,
            None => self.add(address),
        }
    }
}
