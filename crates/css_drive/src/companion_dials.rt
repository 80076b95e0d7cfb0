//! The dials of a turn of a companion, and what the television is told first.
ghost use Rattle.std.specs.Prelude.{◌≡◌, ◌∷◌, ℕ, List, OnOk, IfOk, IfErr, IfSome, None, Some, Ok};
ghost use Rattle.css_model.specs.History.{Entry, History};
ghost use Rattle.css_model.specs.declared.Kind.TheVariants as kinds;
ghost use Rattle.css_outside.specs.Faults.{HasRisen};
ghost use Rattle.css_tsmsg.specs.Setups.{setup_text};
ghost use Rattle.css_cii.specs.declared.name.CiiName.TheVariants.{WcUrl};
ghost use Rattle.css_companion.specs.Standing.{wanted_by};
ghost use Rattle.css_companion.specs.Steps as steps;
ghost use Rattle.css_companion.specs.declared.config.CompanionConfig.{CompanionConfig};
ghost use Rattle.css_drive.specs.CompanionDue as dues;
ghost use Rattle.css_drive.specs.CompanionDue.{from_cii, from_wc, from_ts, from_ask, Connected, SetUp};
ghost use Rattle.css_drive.specs.Configs.{IsWindow};
ghost use Rattle.css_drive.specs.CompanionStanding.{IsAt, IsDue, Leads, LeadsFrom, Knows, Stays};
ghost use Rattle.css_drive.specs.Stages.{DialsOnce, DialsTold, at};
ghost use Rattle.css_drive.specs.declared.config.DriveConfig.{DriveConfig as Config};

use crate::calls::place;
use crate::companion_calls::try_dial;
use crate::companion_live::Run;
use crate::config::DriveConfig;
use crate::driven::Driven;
use crate::observes::Observes;
use css_cii::CiiName;
use css_companion::{Companion, CompanionEvent};
use css_num::Text;
use css_outside::{Address, Kind, Outside, Wrote};

/// The text that the companion owes the television after an event, which always owes one.
fn owed(companion: &mut Companion, event: CompanionEvent) -> Result<Text, Driven>
    requires event { steps.IsEvent event }
    requires some { (told : List ℕ) × (steps.owed companion.old event ≡ Ok (Some told)) }
    ensures text { IfOk result (λ text. (told : List ℕ) → steps.owed companion.old event ≡ Ok (Some told)
        → text ≡ told) }
    ensures err { IfErr result (λ ended. ended ≡ Driven.Memory) }
    ensures known { (own : CompanionConfig) → (history : History) → (entry : Entry) → Knows own companion.old history
        → steps.IsEntryOf event entry history → OnOk result (Knows own companion.new (entry ∷ history)) }
    ensures same { OnOk result (companion.new ≡ steps.stepped companion.old event) }
    ensures client { companion.new.client ≡ companion.old.client }
{
    match companion.step(event) {
        Ok(Some(text)) => Ok(text),
        Ok(None) => unreachable!(),
        Err(_) => Err(Driven::Memory),
    }
}

impl<O: Outside, W: Observes> Run<'_, O, W> {
    /// Dials the session of CSS-CII, while no dial of it succeeded.
    pub fn dial_cii(&mut self, to: &Address) -> Result<(), Driven>
        ensures called { DialsOnce (W.over self.new.observer.now) kinds.Cii self.old.live.now.cii to.now
            (at O.told O.counts self.old) (at O.told O.counts self.new) result }
        ensures goes { (config : Config) → config.cii ≡ to.now
            → Leads O.told O.counts W.saw W.over config self.old self.new from_cii from_wc result }
        ensures stays { Stays O.counts self.old self.new result }
        ensures tried { OnOk result (self.new.live.now.cii ≡ None
            → HasRisen (O.counts self.old.outside.now).dial_faults (O.counts self.new.outside.now).dial_faults) }
    {
        let None = self.live.cii else {
            return Ok(());
        };
        let Ok(peer) = try_dial(self.outside, self.observer, Kind::Cii, to)? else {
            return Ok(());
        };
        self.live.cii = Some(peer);
        self.live.cii_open = Some(peer);
        Ok(())
    }

    /// Dials the wall clock, while no dial of it succeeded and its address is told.
    pub fn dial_wc(&mut self) -> Result<(), Driven>
        ensures called { DialsTold (W.over self.new.observer.now) kinds.Wc WcUrl self.old.live.now.wc
            (dues.place kinds.Wc self.old.companion.now.state.wc_url)
            (at O.told O.counts self.old) (at O.told O.counts self.new) result }
        ensures goes { (config : Config)
            → Leads O.told O.counts W.saw W.over config self.old self.new from_wc from_ts result }
        ensures stays { Stays O.counts self.old self.new result }
    {
        let None = self.live.wc else {
            return Ok(());
        };
        let url = &self.companion.state().wc_url;
        let Some(to) = place(self.alloc, Kind::Wc, CiiName::WcUrl, url)? else {
            return Ok(());
        };
        let Ok(peer) = try_dial(self.outside, self.observer, Kind::Wc, &to)? else {
            return Ok(());
        };
        self.live.wc = Some(peer);
        Ok(())
    }

    /// Sends the presentation, if the configuration has one.
    fn present(&mut self, config: &DriveConfig, peer: u32) -> Result<(), Driven>
        requires { IfSome config.now.present IsWindow }
        ensures goes { self.old.live.now.ts_open ≡ Some peer → LeadsFrom O.told O.counts W.saw W.over config.now
            self.old self.new (IsAt config.now (SetUp peer)) (λ _. IsDue config.now from_ask) result }
        ensures stays { Stays O.counts self.old self.new result }
    {
        let Some((earliest, latest)) = config.present else {
            return Ok(());
        };
        let text = owed(self.companion, CompanionEvent::Present { earliest, latest })?;
        self.say(peer, text.bytes())?;
        Ok(())
    }

    /// Sends the setup, and after it the presentation.
    fn introduce(&mut self, config: &DriveConfig, peer: u32, setup: &Text) -> Result<(), Driven>
        requires { IfSome config.now.present IsWindow }
        ensures goes { self.old.live.now.ts_open ≡ Some peer → setup.now ≡ setup_text (wanted_by config.now.companion)
            → LeadsFrom O.told O.counts W.saw W.over config.now self.old self.new
            (IsAt config.now (Connected peer)) (λ _. IsDue config.now from_ask) result }
        ensures stays { Stays O.counts self.old self.new result }
    {
        match self.say(peer, setup.bytes())? {
            Wrote::Sent => self.present(config, peer),
            Wrote::Gone => Ok(()),
        }
    }

    /// Dials the session of CSS-TS, while no dial of it succeeded and its address is told. Its setup is sent at once.
    pub fn dial_ts(&mut self, config: &DriveConfig) -> Result<(), Driven>
        requires { IfSome config.now.present IsWindow }
        ensures goes { Leads O.told O.counts W.saw W.over config.now self.old self.new from_ts from_ask result }
        ensures stays { Stays O.counts self.old self.new result }
    {
        let None = self.live.ts else {
            return Ok(());
        };
        let url = &self.companion.state().ts_url;
        let Some(to) = place(self.alloc, Kind::Ts, CiiName::TsUrl, url)? else {
            return Ok(());
        };
        let Ok(peer) = try_dial(self.outside, self.observer, Kind::Ts, &to)? else {
            return Ok(());
        };
        self.live.ts = Some(peer);
        self.live.ts_open = Some(peer);
        let setup = owed(self.companion, CompanionEvent::TsOpened)?;
        self.introduce(config, peer, &setup)
    }
}
