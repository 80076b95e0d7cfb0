ghost use Rattle.std.specs.Prelude.{◌≡◌, Option, IfOk, [], ◌∷◌};
ghost use Rattle.css_model.specs.History.{History, Listening, Sent, HungUp};
ghost use Rattle.css_outside.specs.Outsides.{Counts, Tells, TellsDial, CountsPlain, CountsClock};
ghost use Rattle.css_outside.specs.Outsides.{CountsDial, CountsOpening, FitsRoom};
ghost use Rattle.css_outside.specs.Outsides as calls;

use crate::calls::{Address, Clocked, Heard, Wrote};
use crate::fault::OutFault;
use css_model::{Kind, Why};
use css_num::Text;

/// An end's clock and its sockets.
///
/// A call that is Ok adds to a history what it did, where the outside tells that. A call that fails raises its count of
/// faults, that of dials or that of all other calls. It adds nothing, but for a dial, which adds that it failed. A call
/// that lacks memory leaves the counts.
pub trait Outside {
    /// What its calls did, the newest first, where it tells that.
    ghost told: { Self → Option History };

    /// How often its calls failed, the greatest reading, and the greatest number of a peer so far.
    ghost counts: { Self → Counts };

    /// Listens for datagrams and sessions of CSS-CII on this port of the host, and for sessions of CSS-TS on the next.
    fn listen(&mut self, host: &Text, port: u16) -> Result<(), OutFault>
        ensures told { Tells (told self.old) (told self.new) result (λ _. Listening host.now port ∷ []) }
        ensures counted { CountsPlain (counts self.old) (counts self.new) result };

    /// Reads the clock.
    fn now(&mut self, why: Why) -> Result<Clocked, OutFault>
        ensures told { Tells (told self.old) (told self.new) result (calls.clock_entries why) }
        ensures counted { CountsClock (counts self.old) (counts self.new) result };

    /// Says that nothing is due before this reading of the clock, so that the outside may pause until then, where
    /// nothing comes. It promises no pause.
    fn rest(&mut self, until: u64)
        ensures told { told self.new ≡ told self.old }
        ensures counted { counts self.new ≡ counts self.old };

    /// Opens a session of this kind, or the socket from which the wall clock is asked, and gives the peer's number.
    fn dial(&mut self, kind: Kind, to: &Address) -> Result<u32, OutFault>
        ensures told { TellsDial (told self.old) (told self.new) kind to.now result }
        ensures counted { CountsDial (counts self.old) (counts self.new) result };

    /// The next session that a peer opened, if there is one.
    fn accept(&mut self) -> Result<Option<(u32, Kind)>, OutFault>
        ensures told { Tells (told self.old) (told self.new) result calls.opening_entries }
        ensures counted { CountsOpening (counts self.old) (counts self.new) result };

    /// Sends a datagram to a peer.
    fn send_datagram(&mut self, peer: u32, bytes: &[u8; 32]) -> Result<(), OutFault>
        ensures told { Tells (told self.old) (told self.new) result (λ _. Sent peer bytes.now ∷ []) }
        ensures counted { CountsPlain (counts self.old) (counts self.new) result };

    /// Moves the next datagram, if there is one, into the front of `into`, and gives its sender and its length. A
    /// longer datagram is told by its first 64 bytes.
    fn take_datagram(&mut self, into: &mut [u8; 64]) -> Result<Option<(u32, usize)>, OutFault>
        ensures told { Tells (told self.old) (told self.new) result (calls.datagram_entries into.new) }
        ensures room { IfOk result FitsRoom }
        ensures counted { CountsPlain (counts self.old) (counts self.new) result };

    /// Asks a session for its next text.
    fn take_text(&mut self, peer: u32) -> Result<Heard, OutFault>
        ensures told { Tells (told self.old) (told self.new) result (calls.heard_entries peer) }
        ensures counted { CountsPlain (counts self.old) (counts self.new) result };

    /// Sends a text on a session.
    fn send_text(&mut self, peer: u32, text: &[u8]) -> Result<Wrote, OutFault>
        ensures told { Tells (told self.old) (told self.new) result (calls.wrote_entries peer text.now) }
        ensures counted { CountsPlain (counts self.old) (counts self.new) result };

    /// Closes a session.
    fn hang_up(&mut self, peer: u32) -> Result<(), OutFault>
        ensures told { Tells (told self.old) (told self.new) result (λ _. HungUp peer ∷ []) }
        ensures counted { CountsPlain (counts self.old) (counts self.new) result };
}
