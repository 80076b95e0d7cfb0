//! What a turn of a companion asks and hears, and the end of its sessions.
ghost use Rattle.std.specs.Prelude.{◌≡◌, ◌≤◌, ◌∷◌, ◌⊎◌, ℕ, None, Some, OnOk, IfOk, IfErr, MatchResult, true};
ghost use Rattle.css_model.specs.History.{History, Closed, Took};
ghost use Rattle.css_model.specs.declared.Why.TheVariants as whys;
ghost use Rattle.css_companion.specs.Meanings.{kind_of};
ghost use Rattle.css_drive.specs.CompanionDue.{due, from_ask, from_take, from_cii_text, hang_up};
ghost use Rattle.css_drive.specs.CompanionStanding.{Shown, shown_of, Stands, Knows, Leads, Goes, Stops, Stays, Names};
ghost use Rattle.css_drive.specs.CompanionStanding.{IsDue, IsEarly, Hangs, TakesIn, a_reading};
ghost use Rattle.css_drive.specs.CompanionStanding.{kind_for, open_of, from_text, after_text, KnowsUnder};
ghost use Rattle.css_drive.specs.CompanionTurns.{is_asking};
ghost use Rattle.css_drive.specs.Proper.{Due};
ghost use Rattle.css_drive.specs.Stages.{AsksOnce, Lands, FailsLanding, HearsOnce, at};
ghost use Rattle.css_drive.specs.declared.config.DriveConfig.{DriveConfig as Config};
ghost use Rattle.css_companion.specs.declared.config.CompanionConfig.{CompanionConfig};

use crate::calls;
use crate::calls::{end_of, refused, send_datagram, take_text};
use crate::companion_calls::{check, note_sleep, tell};
use crate::companion_live::{Live, Run};
use crate::driven::Driven;
use crate::observes::Observes;
use crate::session::Session;
use crate::timing::is_time;
use css_companion::{Binding, Companion, CompanionEvent};
use css_num::Text;
use css_outside::{Heard, Outside, Why};

/// Takes a text of a session in, and tells that one came.
fn take_in(
    companion: &mut Companion,
    binding: Binding,
    session: Session,
    text: Text,
) -> Result<bool, Driven>
    ensures told { (own : CompanionConfig) → (peer : ℕ) → (history : History)
        → kind_of peer history ≡ Some (kind_for session) → KnowsUnder binding own companion.old history
        → TakesIn binding own session peer text history companion.new result }
    ensures came { IfOk result (λ came. came ≡ true) }
    ensures early { IfErr result IsEarly }
    ensures same { companion.new.client ≡ companion.old.client }
{
    match session {
        Session::Cii => match companion.step_under(binding, CompanionEvent::CiiText(text)) {
            Ok(_) => Ok(true),
            Err(fault) => Err(refused(fault)),
        },
        Session::Ts => match companion.step_under(binding, CompanionEvent::TsText(text)) {
            Ok(_) => Ok(true),
            Err(_) => Err(Driven::Memory),
        },
    }
}

/// Tells the companion that a session is over.
fn let_go(companion: &mut Companion, binding: Binding, session: Session) -> Result<(), Driven>
    ensures told { (own : CompanionConfig) → (peer : ℕ) → (history : History)
        → kind_of peer history ≡ Some (kind_for session) → KnowsUnder binding own companion.old history
        → OnOk result (KnowsUnder binding own companion.new (Closed peer ∷ history)) }
    ensures err { IfErr result (λ ended. ended ≡ Driven.Memory) }
    ensures same { companion.new.client ≡ companion.old.client }
{
    match session {
        Session::Cii => tell(companion, binding, CompanionEvent::CiiClosed),
        Session::Ts => tell(companion, binding, CompanionEvent::TsClosed),
    }
}

impl Live {
    /// The peer of a session that is open.
    fn peer_of(&self, session: Session) -> Option<u32>
        ensures { result ≡ open_of session self.now }
    {
        match session {
            Session::Cii => self.cii_open,
            Session::Ts => self.ts_open,
        }
    }
}

impl<O: Outside, W: Observes> Run<'_, O, W> {
    /// Reads the clock for a request, and sends the request of that reading.
    fn request(&mut self, peer: u32) -> Result<(), Driven>
        requires { self.old.companion.now.client.floor ≤ (O.counts self.old.outside.now).last }
        ensures called { AsksOnce (W.over self.new.observer.now) (Some peer) true (at O.told O.counts self.old)
            (at O.told O.counts self.new) result }
        ensures goes { self.old.live.now.wc ≡ Some peer → (config : Config) → Leads O.told O.counts W.saw W.over config
            self.old self.new (a_reading whys.Ask) from_take result }
        ensures stays { Stays O.counts self.old self.new result }
    {
        let clocked = self.read(Why::Ask)?;
        note_sleep(self.observer, &clocked);
        let bytes = self.companion.ask(clocked.reading);
        check(self.observer)?;
        send_datagram(self.outside, peer, &bytes)?;
        self.observer.asked(clocked.reading);
        self.live.asked = self.live.turn;
        Ok(())
    }

    /// Asks the wall clock, where it was dialled and it is time.
    pub fn ask(&mut self, every: u64) -> Result<(), Driven>
        requires { self.old.companion.now.client.floor ≤ (O.counts self.old.outside.now).last }
        ensures called { AsksOnce (W.over self.new.observer.now) self.old.live.now.wc
            (is_asking every self.old.live.now.turn self.old.live.now.asked) (at O.told O.counts self.old)
            (at O.told O.counts self.new) result }
        ensures goes { (config : Config) → config.ask_every ≡ every
            → Leads O.told O.counts W.saw W.over config self.old self.new from_ask from_take result }
        ensures stays { Stays O.counts self.old self.new result }
    {
        let Some(peer) = self.live.wc else {
            return Ok(());
        };
        if !is_time(every, self.live.turn, self.live.asked) {
            return Ok(());
        }
        self.request(peer)
    }

    /// Reads the clock for a datagram that was just taken, and takes it in.
    pub fn land(&mut self, bytes: &[u8]) -> Result<(), Driven>
        requires { self.old.companion.now.client.floor ≤ (O.counts self.old.outside.now).last }
        ensures called { MatchResult result
            (λ _. Lands bytes.now (at O.told O.counts self.old) (at O.told O.counts self.new))
            (FailsLanding (W.over self.new.observer.now) (at O.told O.counts self.old) (at O.told O.counts self.new)) }
        ensures goes { (config : Config) → (before : Shown) → (started : W) → (history : History) → (peer : ℕ)
            → Stands config before (shown_of O.told O.counts self.old) (W.saw started self.old.observer.now)
            self.old.live.now (Took peer bytes.now ∷ history)
            → Knows config.companion self.old.companion.now history
            → Goes config before (shown_of O.told O.counts self.new) (W.saw started self.new.observer.now)
            (W.over self.new.observer.now) self.new.live.now self.new.companion.now
            (λ _. IsDue config from_cii_text) result }
        ensures stays { Stays O.counts self.old self.new result }
    {
        let clocked = self.read(Why::Land)?;
        self.observer.landed(&clocked, bytes, self.companion);
        if clocked.slept {
            // No request from before the sleep is asked any more, so nothing lands.
            return Ok(());
        }
        match self.companion.land(bytes, clocked.reading) {
            Ok(_) => Ok(()),
            Err(_) => Err(Driven::Memory),
        }
    }

    /// Takes a datagram, where the wall clock was dialled.
    pub fn take(&mut self) -> Result<(), Driven>
        requires { self.old.companion.now.client.floor ≤ (O.counts self.old.outside.now).last }
        ensures goes { (config : Config)
            → Leads O.told O.counts W.saw W.over config self.old self.new from_take from_cii_text result }
        ensures stays { Stays O.counts self.old self.new result }
    {
        let Some(_) = self.live.wc else {
            return Ok(());
        };
        check(self.observer)?;
        let mut into = [0u8; 64];
        match self.outside.take_datagram(&mut into) {
            Err(fault) => Err(end_of(fault)),
            Ok(None) => Ok(()),
            Ok(Some((_, count))) => self.land(&into[..count]),
        }
    }

    /// Hears a session, where it is open, and tells whether a text came. These addresses bind the companion.
    pub fn hear(&mut self, session: Session, binding: Binding) -> Result<bool, Driven>
        ensures called { HearsOnce binding (W.over self.new.observer.now) session (open_of session self.old.live.now)
            (at O.told O.counts self.old) (at O.told O.counts self.new) result }
        ensures goes { binding ≡ Binding.Both → (config : Config) → Leads O.told O.counts W.saw W.over config
            self.old self.new (from_text session) (after_text session) result }
        ensures stays { Stays O.counts self.old self.new result }
    {
        let Some(peer) = self.live.peer_of(session) else {
            return Ok(false);
        };
        check(self.observer)?;
        match take_text(self.outside, peer)? {
            Heard::Quiet => Ok(false),
            Heard::Text(text) => {
                self.observer.heard(session, &text, self.companion);
                take_in(self.companion, binding, session, text)
            }
            Heard::Closed => {
                self.observer.closed(session);
                self.live.close(peer);
                let_go(self.companion, binding, session)?;
                Ok(false)
            }
        }
    }

    /// Hangs up a session, if it is open.
    fn hang_up_one(&mut self, session: Session) -> Result<(), Driven>
        ensures goes { (config : Config) → (before : Shown) → (started : W) → (end : Driven)
            → (from : Hangs config before (shown_of O.told O.counts self.old) (W.saw started self.old.observer.now)
            self.old.live.now end)
            → (rest : Due) → due config from.history ≡ hang_up (open_of session self.old.live.now) rest
            → MatchResult result
            (λ _. Hangs config before (shown_of O.told O.counts self.new) (W.saw started self.new.observer.now)
            self.new.live.now end)
            (Stops config before (shown_of O.told O.counts self.new) (W.saw started self.new.observer.now)
            (W.over self.new.observer.now)) }
        ensures shut { OnOk result (open_of session self.new.live.now ≡ None) }
        ensures cii { OnOk result (self.old.live.now.cii_open ≡ None → self.new.live.now.cii_open ≡ None) }
        ensures stays { Stays O.counts self.old self.new result }
    {
        let Some(peer) = self.live.peer_of(session) else {
            return Ok(());
        };
        check(self.observer)?;
        calls::hang_up(self.outside, peer)?;
        self.live.close(peer);
        Ok(())
    }

    /// Hangs up the sessions that are open, that of CSS-CII first, and ends the run so.
    // Each goal has its answer: the search would not end.
    #[tactic(none)]
    pub fn hang_up(&mut self, end: Driven) -> Driven
        ensures stops { (config : Config) → (before : Shown) → (started : W)
            → Hangs config before (shown_of O.told O.counts self.old) (W.saw started self.old.observer.now)
            self.old.live.now end
            → Stops config before (shown_of O.told O.counts self.new) (W.saw started self.new.observer.now)
            (W.over self.new.observer.now) result }
        ensures names { Names self.old self.new }
        ensures dials { (O.counts self.old.outside.now).dial_faults ≤ (O.counts self.new.outside.now).dial_faults }
        ensures kind { (result ≡ end) ⊎ IsEarly result }
    {
        match self.hang_up_one(Session::Cii) {
            Ok(()) => {}
            Err(ended) => return ended,
        }
        match self.hang_up_one(Session::Ts) {
            Ok(()) => end,
            Err(ended) => ended,
        }
    }
}
