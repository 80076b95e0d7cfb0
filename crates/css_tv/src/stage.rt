ghost use Rattle.std.specs.Prelude.{◌≡◌, ◌<◌, ◌≤◌, ◌++◌, ◌∷◌, [], Some, None, Ok, false, IfOk, IfSome, OnOk, OnErr};
ghost use Rattle.std.specs.Str.{IsUtf8};
ghost use Rattle.css_player.specs.Player.{max_delay};
ghost use Rattle.css_tsmsg.specs.Setups.{setup_of};
ghost use Rattle.css_tsmsg.specs.Presentations.{presentation_of};
ghost use Rattle.css_sessions.specs.Kept.{set_up_in, talk_of};
ghost use Rattle.css_sessions.specs.Offsets.{IsBound};
ghost use Rattle.css_tv.specs.Stages.{IsStage};
ghost use Rattle.css_tv.specs.Outcomes as spec;
ghost use Rattle.css_tv.specs.Standing.{IsEvent, IsFresh, Any, Steps, GrowsBy};
ghost use Rattle.css_tv.specs.declared.event.TvEvent.TheVariants as event;
ghost use Rattle.css_tv.specs.declared.event.TvOut.TheVariants as outs;

use crate::choice::other_delay;
use crate::event::{TvEvent, TvOut};
use crate::fault::TvFault;
use crate::publishing::{deliver, make_room, publish};
use crate::state::Addresses;
use css_num::{Memory, Rate};
use css_player::{Command, Player};
use css_sessions::{Kind, SessionFault, Sessions};
use css_tsmsg::{Presentation, TsFault, read_presentation};
use std::alloc::Global;
use std::marker::Model;

/// What a television shows, and the sessions that are told of it.
///
/// Each call makes its outputs first, and puts what is new in its place last, where no memory is taken.
pub struct Stage {
    pub alloc: Global,
    pub addresses: Addresses,
    pub player: Player,
    pub sessions: Sessions,
}

// By hand: a derived drop is opened at each exit of each caller's proof.
impl Drop for Stage {
    fn drop(self) {
        let Stage {
            alloc: _,
            addresses: _,
            player: _,
            sessions: _,
        } = self;
    }
}

impl Model for Stage {
    ghost use Rattle.css_tv.specs.Stages.{Stage as Shown};

    ghost Value = { Shown };

    ghost view = { λ s. record { addresses = s.addresses; player = s.player; sessions = s.sessions } };
}

/// Appends that a session is closed.
fn hung_up(peer: u32, out: &mut Vec<TvOut>) -> Result<(), Memory>
    ensures ok { OnOk result (out.new.items ≡ out.old.items ++ outs.HangUp peer ∷ []) }
    ensures err { OnErr result (out.new.items ≡ out.old.items) }
{
    out.push(TvOut::HangUp { peer })?;
    Ok(())
}

impl Stage {
    /// Adds a programme. Nothing is told, since it isn't shown yet.
    fn programme(&mut self, content_id: &[u8], out: &mut Vec<TvOut>) -> Result<(), TvFault>
        requires { IsUtf8 content_id.now }
        ensures steps { Steps result self.old self.new out.old.items out.new.items (spec.outcome_at
            (event.Programme content_id.now) self.old) }
        ensures stands { OnOk result (GrowsBy Any self.old self.new (spec.outcome_at
            (event.Programme content_id.now) self.old)) }
    {
        self.player.add_programme(self.alloc, content_id)?;
        Ok(())
    }

    /// Adds a timeline, on a copy of the player: a player has no way back from it.
    fn timeline(
        &mut self,
        programme: u32,
        selector: &[u8],
        rate: Rate,
        base: i64,
        out: &mut Vec<TvOut>,
    ) -> Result<(), TvFault>
        requires stage { IsStage self.old }
        requires selector { IsUtf8 selector.now }
        ensures steps { Steps result self.old self.new out.old.items out.new.items (spec.outcome_at
            (event.AddTimeline programme selector.now rate base) self.old) }
        ensures stands { OnOk result (GrowsBy Any self.old self.new (spec.outcome_at
            (event.AddTimeline programme selector.now rate base) self.old)) }
    {
        let mut player = self.player.copy()?;
        player.add_timeline(self.alloc, programme, selector, rate, base)?;
        publish(
            self.alloc,
            &self.addresses,
            &player,
            &mut self.sessions,
            out,
        )?;
        self.player = player;
        Ok(())
    }

    /// Does what a viewer asks. All windows are dropped.
    fn command(
        &mut self,
        command: Command,
        reading: u64,
        out: &mut Vec<TvOut>,
    ) -> Result<(), TvFault>
        requires stage { IsStage self.old }
        requires reading { reading < 4294967296000000000 }
        ensures steps { Steps result self.old self.new out.old.items out.new.items (spec.outcome_at
            (event.Viewer command reading) self.old) }
        ensures stands { OnOk result (GrowsBy Any self.old self.new (spec.outcome_at
            (event.Viewer command reading) self.old)) }
    {
        let before = self.player.segment();
        self.player.command(command, reading)?;
        let told = publish(
            self.alloc,
            &self.addresses,
            &self.player,
            &mut self.sessions,
            out,
        );
        if told.is_err() {
            self.player.put_back(before);
            return Err(TvFault::Memory);
        }
        self.sessions.drop_windows();
        Ok(())
    }

    /// Closes a session, where there is one.
    fn hang_up(&mut self, peer: u32, out: &mut Vec<TvOut>) -> Result<(), TvFault>
        ensures steps { Steps result self.old self.new out.old.items out.new.items (Ok
            (spec.hung_up peer self.old.player)) }
        ensures stands { OnOk result (GrowsBy Any self.old self.new (Ok (spec.hung_up peer self.old.player))) }
    {
        hung_up(peer, out)?;
        self.sessions.closed(peer);
        Ok(())
    }

    /// Opens a session, unless there are too many.
    fn opened(&mut self, peer: u32, kind: Kind, out: &mut Vec<TvOut>) -> Result<(), TvFault>
        requires stage { IsStage self.old }
        requires absent { talk_of peer self.old.sessions.list ≡ None }
        ensures steps { Steps result self.old self.new out.old.items out.new.items (spec.outcome_at
            (event.Opened peer kind) self.old) }
        ensures stands { OnOk result (GrowsBy (IsFresh (event.Opened peer kind)) self.old self.new
            (spec.outcome_at (event.Opened peer kind) self.old)) }
    {
        make_room(out, 1)?;
        let mut said = Vec::new(self.alloc);
        match self.sessions.opened(self.alloc, peer, kind, &mut said) {
            Ok(()) => {
                deliver(said, out);
                Ok(())
            }
            Err(SessionFault::Memory) => Err(TvFault::Memory),
            Err(_) => self.hang_up(peer, out),
        }
    }

    /// Takes the first text of a TS session, which is its setup.
    fn setup(&mut self, peer: u32, bytes: &[u8], out: &mut Vec<TvOut>) -> Result<(), TvFault>
        requires { set_up_in (talk_of peer self.old.sessions.list) ≡ Some false }
        ensures steps { Steps result self.old self.new out.old.items out.new.items (Ok
            (spec.by_setup peer self.old.player (setup_of bytes.now))) }
        ensures stands { OnOk result (GrowsBy Any self.old self.new (Ok (spec.by_setup peer self.old.player
            (setup_of bytes.now)))) }
    {
        make_room(out, 1)?;
        let mut said = Vec::new(self.alloc);
        match self
            .sessions
            .setup(self.alloc, peer, bytes, &self.player, &mut said)
        {
            Ok(()) => {
                deliver(said, out);
                Ok(())
            }
            Err(SessionFault::Memory) => Err(TvFault::Memory),
            Err(_) => self.hang_up(peer, out),
        }
    }

    /// The delay that the windows ask for after a presentation, where it isn't the present one.
    fn choice(&self, peer: u32, presentation: &Presentation) -> Result<Option<u64>, Memory>
        requires earliest { IsBound presentation.now.earliest }
        requires latest { IsBound presentation.now.latest }
        ensures value { IfOk result (λ delay. delay ≡ spec.choice self.now.player.segment
            (spec.windows_after peer presentation.now self.now.player self.now.sessions)) }
        ensures small { IfOk result (λ delay. IfSome delay (λ d. d ≤ max_delay)) }
    {
        let Some(segment) = self.player.segment() else {
            return Ok(None);
        };
        if segment.speed != 1 {
            return Ok(None);
        }
        let windows = self
            .sessions
            .windows_after(self.alloc, peer, presentation, &self.player)?;
        Ok(other_delay(windows.as_slice(), segment.delay))
    }

    /// Publishes another delay, and puts the window in its place that asked for it.
    fn delay(
        &mut self,
        peer: u32,
        presentation: &Presentation,
        delay: u64,
        out: &mut Vec<TvOut>,
    ) -> Result<(), TvFault>
        requires stage { IsStage self.old }
        requires small { delay ≤ max_delay }
        requires earliest { IsBound presentation.now.earliest }
        requires latest { IsBound presentation.now.latest }
        ensures steps { Steps result self.old self.new out.old.items out.new.items (Ok
            (spec.presented self.old.addresses peer presentation.now self.old.player (Some delay))) }
        ensures stands { OnOk result (GrowsBy Any self.old self.new (Ok
            (spec.presented self.old.addresses peer presentation.now self.old.player (Some delay)))) }
    {
        let before = self.player.segment();
        self.player.delay(delay);
        let told = publish(
            self.alloc,
            &self.addresses,
            &self.player,
            &mut self.sessions,
            out,
        );
        let after = self.player.segment();
        self.player.put_back(before);
        if told.is_err() {
            return Err(TvFault::Memory);
        }
        self.sessions.present(peer, presentation, &self.player);
        self.player.put_back(after);
        Ok(())
    }

    /// Takes a window, and chooses the delay anew.
    fn present(
        &mut self,
        peer: u32,
        presentation: &Presentation,
        out: &mut Vec<TvOut>,
    ) -> Result<(), TvFault>
        requires stage { IsStage self.old }
        requires earliest { IsBound presentation.now.earliest }
        requires latest { IsBound presentation.now.latest }
        ensures steps { Steps result self.old self.new out.old.items out.new.items (Ok
            (spec.by_presentation self.old.addresses peer self.old.player self.old.sessions (Ok presentation.now))) }
        ensures stands { OnOk result (GrowsBy Any self.old self.new (Ok
            (spec.by_presentation self.old.addresses peer self.old.player self.old.sessions (Ok presentation.now)))) }
    {
        match self.choice(peer, presentation)? {
            None => {
                self.sessions.present(peer, presentation, &self.player);
                Ok(())
            }
            Some(delay) => self.delay(peer, presentation, delay, out),
        }
    }

    /// Takes a later text of a TS session, which is a presentation.
    fn presentation(&mut self, peer: u32, bytes: &[u8], out: &mut Vec<TvOut>) -> Result<(), TvFault>
        requires { IsStage self.old }
        ensures steps { Steps result self.old self.new out.old.items out.new.items (Ok
            (spec.by_presentation self.old.addresses peer self.old.player self.old.sessions
            (presentation_of bytes.now))) }
        ensures stands { OnOk result (GrowsBy Any self.old self.new (Ok
            (spec.by_presentation self.old.addresses peer self.old.player self.old.sessions
            (presentation_of bytes.now)))) }
    {
        match read_presentation(self.alloc, bytes) {
            Ok(presentation) => self.present(peer, &presentation, out),
            Err(fault) => match fault {
                TsFault::Memory => Err(TvFault::Memory),
                _ => self.hang_up(peer, out),
            },
        }
    }

    /// Takes a text of a session.
    fn heard(&mut self, peer: u32, bytes: &[u8], out: &mut Vec<TvOut>) -> Result<(), TvFault>
        requires { IsStage self.old }
        ensures steps { Steps result self.old self.new out.old.items out.new.items (spec.outcome_at
            (event.Heard peer bytes.now) self.old) }
        ensures stands { OnOk result (GrowsBy Any self.old self.new (spec.outcome_at
            (event.Heard peer bytes.now) self.old)) }
    {
        match self.sessions.is_setup(peer) {
            None => self.hang_up(peer, out),
            Some(false) => self.setup(peer, bytes, out),
            Some(true) => self.presentation(peer, bytes, out),
        }
    }

    /// Takes in what happened.
    pub fn step(&mut self, event: TvEvent, out: &mut Vec<TvOut>) -> Result<(), TvFault>
        requires stage { IsStage self.old }
        requires event { IsEvent event self.old }
        ensures steps { Steps result self.old self.new out.old.items out.new.items (spec.outcome_at event self.old) }
        ensures stands { OnOk result (GrowsBy (IsFresh event) self.old self.new (spec.outcome_at event self.old)) }
    {
        match event {
            TvEvent::Programme(content_id) => self.programme(content_id.bytes(), out),
            TvEvent::AddTimeline {
                programme,
                selector,
                rate,
                base,
            } => self.timeline(programme, selector.bytes(), rate, base, out),
            TvEvent::Viewer { command, reading } => self.command(command, reading, out),
            TvEvent::Opened { peer, kind } => self.opened(peer, kind, out),
            TvEvent::Heard { peer, text } => self.heard(peer, text.bytes(), out),
            TvEvent::Closed { peer } => {
                self.sessions.closed(peer);
                Ok(())
            }
        }
    }
}
