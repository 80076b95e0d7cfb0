ghost use Rattle.std.specs.Prelude.{◌≡◌, Some, [], ◌∷◌, IfOk};
ghost use Rattle.css_model.specs.History.{Listening, Sent, HungUp};
ghost use Rattle.css_outside.specs.Outsides.{Tells, TellsDial, CountsPlain, CountsClock};
ghost use Rattle.css_outside.specs.Outsides.{CountsDial, CountsOpening, FitsRoom};
ghost use Rattle.css_outside.specs.Outsides as calls;
ghost use Rattle.css_told.specs.Noted.{TellsAsNoted};

use crate::diary::Diary;
use crate::note::Note;
use css_model::{Kind, Why};
use css_num::Text;
use css_outside::{Address, Clocked, Heard, OutFault, Outside, Wrote};

/// An outside that tells what its inner outside answered.
#[derive(Drop)]
pub struct TellingOutside<O> {
    inner: O,
    diary: Diary,
}

impl<O: Outside> TellingOutside<O> {
    /// No call was made yet.
    pub fn new(inner: O) -> TellingOutside<O>
        ensures diary { result.diary.history ≡ [] }
        ensures inner { result.inner ≡ inner }
    {
        TellingOutside {
            inner,
            diary: Diary::new(),
        }
    }

    /// The inner outside, once the run is over.
    pub fn into_inner(self) -> O
        ensures { result ≡ self.inner }
    {
        let TellingOutside { inner, diary: _ } = self;
        inner
    }
}

impl<O: Outside> Outside for TellingOutside<O> {
    ghost told = { λ outside. Some outside.diary.history };

    ghost counts = { λ outside. O.counts outside.inner };

    fn listen(&mut self, host: &Text, port: u16) -> Result<(), OutFault>
        ensures told { Tells (Some self.old.diary.history) (Some self.new.diary.history)
            result (λ _. Listening host.now port ∷ []) }
        ensures counted { CountsPlain (O.counts self.old.inner) (O.counts self.new.inner) result }
        ensures inner { TellsAsNoted (O.told self.old.inner) (O.told self.new.inner)
            self.old.diary.history self.new.diary.history }
    {
        self.inner.listen(host, port)?;
        self.diary.note(&Note::Listens(host, port));
        Ok(())
    }

    fn now(&mut self, why: Why) -> Result<Clocked, OutFault>
        ensures told { Tells (Some self.old.diary.history) (Some self.new.diary.history)
            result (calls.clock_entries why) }
        ensures counted { CountsClock (O.counts self.old.inner) (O.counts self.new.inner) result }
        ensures inner { TellsAsNoted (O.told self.old.inner) (O.told self.new.inner)
            self.old.diary.history self.new.diary.history }
    {
        let clocked = self.inner.now(why)?;
        self.diary.note(&Note::Reads(why, clocked));
        Ok(clocked)
    }

    fn rest(&mut self, until: u64)
        ensures told { self.new.diary.history ≡ self.old.diary.history }
        ensures counted { O.counts self.new.inner ≡ O.counts self.old.inner }
        ensures inner { TellsAsNoted (O.told self.old.inner) (O.told self.new.inner)
            self.old.diary.history self.new.diary.history }
    {
        self.inner.rest(until);
    }

    fn dial(&mut self, kind: Kind, to: &Address) -> Result<u32, OutFault>
        ensures told { TellsDial (Some self.old.diary.history) (Some self.new.diary.history) kind to.now result }
        ensures counted { CountsDial (O.counts self.old.inner) (O.counts self.new.inner) result }
        ensures inner { TellsAsNoted (O.told self.old.inner) (O.told self.new.inner)
            self.old.diary.history self.new.diary.history }
    {
        let dialled = self.inner.dial(kind, to);
        match dialled {
            Ok(peer) => self.diary.note(&Note::Dials(kind, to, peer)),
            Err(OutFault::Failed(failure)) => self
                .diary
                .note(&Note::DialsInVain(kind, to, failure)),
            Err(OutFault::Memory) => {}
        }
        dialled
    }

    fn accept(&mut self) -> Result<Option<(u32, Kind)>, OutFault>
        ensures told { Tells (Some self.old.diary.history) (Some self.new.diary.history) result calls.opening_entries }
        ensures counted { CountsOpening (O.counts self.old.inner) (O.counts self.new.inner) result }
        ensures inner { TellsAsNoted (O.told self.old.inner) (O.told self.new.inner)
            self.old.diary.history self.new.diary.history }
    {
        let came = self.inner.accept()?;
        self.diary.note(&Note::Opens(came));
        Ok(came)
    }

    fn send_datagram(&mut self, peer: u32, bytes: &[u8; 32]) -> Result<(), OutFault>
        ensures told { Tells (Some self.old.diary.history) (Some self.new.diary.history)
            result (λ _. Sent peer bytes.now ∷ []) }
        ensures counted { CountsPlain (O.counts self.old.inner) (O.counts self.new.inner) result }
        ensures inner { TellsAsNoted (O.told self.old.inner) (O.told self.new.inner)
            self.old.diary.history self.new.diary.history }
    {
        self.inner.send_datagram(peer, bytes)?;
        self.diary.note(&Note::Sends(peer, bytes));
        Ok(())
    }

    fn take_datagram(&mut self, into: &mut [u8; 64]) -> Result<Option<(u32, usize)>, OutFault>
        ensures told { Tells (Some self.old.diary.history) (Some self.new.diary.history)
            result (calls.datagram_entries into.new) }
        ensures room { IfOk result FitsRoom }
        ensures counted { CountsPlain (O.counts self.old.inner) (O.counts self.new.inner) result }
        ensures inner { TellsAsNoted (O.told self.old.inner) (O.told self.new.inner)
            self.old.diary.history self.new.diary.history }
    {
        let came = self.inner.take_datagram(into)?;
        self.diary.note(&Note::Takes(into, came));
        Ok(came)
    }

    fn take_text(&mut self, peer: u32) -> Result<Heard, OutFault>
        ensures told { Tells (Some self.old.diary.history) (Some self.new.diary.history)
            result (calls.heard_entries peer) }
        ensures counted { CountsPlain (O.counts self.old.inner) (O.counts self.new.inner) result }
        ensures inner { TellsAsNoted (O.told self.old.inner) (O.told self.new.inner)
            self.old.diary.history self.new.diary.history }
    {
        let heard = self.inner.take_text(peer)?;
        self.diary.note(&Note::Hears(peer, &heard));
        Ok(heard)
    }

    fn send_text(&mut self, peer: u32, text: &[u8]) -> Result<Wrote, OutFault>
        ensures told { Tells (Some self.old.diary.history) (Some self.new.diary.history)
            result (calls.wrote_entries peer text.now) }
        ensures counted { CountsPlain (O.counts self.old.inner) (O.counts self.new.inner) result }
        ensures inner { TellsAsNoted (O.told self.old.inner) (O.told self.new.inner)
            self.old.diary.history self.new.diary.history }
    {
        let wrote = self.inner.send_text(peer, text)?;
        self.diary.note(&Note::Writes(peer, text, wrote));
        Ok(wrote)
    }

    fn hang_up(&mut self, peer: u32) -> Result<(), OutFault>
        ensures told { Tells (Some self.old.diary.history) (Some self.new.diary.history)
            result (λ _. HungUp peer ∷ []) }
        ensures counted { CountsPlain (O.counts self.old.inner) (O.counts self.new.inner) result }
        ensures inner { TellsAsNoted (O.told self.old.inner) (O.told self.new.inner)
            self.old.diary.history self.new.diary.history }
    {
        self.inner.hang_up(peer)?;
        self.diary.note(&Note::HangsUp(peer));
        Ok(())
    }
}
