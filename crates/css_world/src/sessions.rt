ghost use Rattle.std.specs.Prelude.{◌≤◌, IfErr, length};
ghost use Rattle.css_schedule.specs.declared.line.Verb.TheVariants as events;
ghost use Rattle.css_companion.specs.Steps.{window};
ghost use Rattle.css_tsmsg.specs.Presentations.{IsPresentation};
ghost use Rattle.css_world.specs.Standing.{Ready, CarriesOut, KeepsRefused};

use crate::both::Ends;
use crate::lane::{closed, heard};
use crate::session::peer_of;
use crate::television::play;
use css_companion::CompanionEvent;
use css_meaning::WorldFault;
use css_sessions::Kind;
use css_tsmsg::Bound;
use css_tv::TvEvent;

/// What happens at the sessions of the companions with the television.
impl Ends {
    /// Opens a session at both ends. The companion owes its setup to a TS session at once.
    pub(crate) fn open(&mut self, who: u32, kind: Kind) -> Result<(), WorldFault>
        requires first { 1 ≤ who }
        requires within { who ≤ length self.old.lanes.list.items }
        requires ready { Ready self.old }
        ensures carries { CarriesOut self.old self.new result who (events.Opening kind) }
        ensures refused { IfErr result (λ fault. KeepsRefused self.old self.new fault) }
    {
        let lane = self.lanes.lane(who);
        lane.open(kind)?;
        let event = TvEvent::Opened {
            peer: peer_of(who, kind),
            kind,
        };
        play(self.alloc, &mut self.tv.tv, &mut self.lanes, event)?;
        let lane = self.lanes.lane(who);
        lane.greet(kind)?;
        Ok(())
    }

    /// Brings the next text in flight to the companion.
    pub(crate) fn bring(&mut self, who: u32, kind: Kind) -> Result<(), WorldFault>
        requires first { 1 ≤ who }
        requires within { who ≤ length self.old.lanes.list.items }
        requires ready { Ready self.old }
        ensures carries { CarriesOut self.old self.new result who (events.Bring kind) }
        ensures refused { IfErr result (λ fault. KeepsRefused self.old self.new fault) }
    {
        let lane = self.lanes.lane(who);
        let Some(text) = lane.next_down(kind) else {
            return Err(WorldFault::Absent);
        };
        lane.attend(heard(kind, text))?;
        Ok(())
    }

    /// Brings the companion's next text in flight to the television.
    pub(crate) fn up(&mut self, who: u32) -> Result<(), WorldFault>
        requires first { 1 ≤ who }
        requires within { who ≤ length self.old.lanes.list.items }
        requires ready { Ready self.old }
        ensures carries { CarriesOut self.old self.new result who events.Up }
        ensures refused { IfErr result (λ fault. KeepsRefused self.old self.new fault) }
    {
        let lane = self.lanes.lane(who);
        let Some(text) = lane.ts.next_up() else {
            return Err(WorldFault::Absent);
        };
        let event = TvEvent::Heard {
            peer: peer_of(who, Kind::Ts),
            text,
        };
        play(self.alloc, &mut self.tv.tv, &mut self.lanes, event)?;
        Ok(())
    }

    /// The companion sends a presentation.
    pub(crate) fn present(
        &mut self,
        who: u32,
        earliest: Bound,
        latest: Bound,
    ) -> Result<(), WorldFault>
        requires first { 1 ≤ who }
        requires within { who ≤ length self.old.lanes.list.items }
        requires window { IsPresentation (window earliest latest) }
        ensures carries { CarriesOut self.old self.new result who (events.Present earliest latest) }
        ensures refused { IfErr result (λ fault. KeepsRefused self.old self.new fault) }
    {
        let lane = self.lanes.lane(who);
        if !lane.ts.is_open() {
            return Err(WorldFault::Absent);
        }
        lane.attend(CompanionEvent::Present { earliest, latest })?;
        Ok(())
    }

    /// Closes a session at both ends.
    pub(crate) fn close(&mut self, who: u32, kind: Kind) -> Result<(), WorldFault>
        requires first { 1 ≤ who }
        requires within { who ≤ length self.old.lanes.list.items }
        requires ready { Ready self.old }
        ensures carries { CarriesOut self.old self.new result who (events.Close kind) }
        ensures refused { IfErr result (λ fault. KeepsRefused self.old self.new fault) }
    {
        let lane = self.lanes.lane(who);
        lane.close(kind)?;
        let event = TvEvent::Closed {
            peer: peer_of(who, kind),
        };
        play(self.alloc, &mut self.tv.tv, &mut self.lanes, event)?;
        let lane = self.lanes.lane(who);
        lane.attend(closed(kind))?;
        Ok(())
    }
}
