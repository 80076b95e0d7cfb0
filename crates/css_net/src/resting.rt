//! The pauses of an end, and its rests: until something comes or is due.
ghost use Rattle.std.specs.Prelude.{IfOk};
ghost use Rattle.css_outside.specs.Outsides.{FitsRoom};

use crate::pace::{left, time};
use crate::rest::{FINE, wait_of};
use crate::sockets::Sockets;
use css_outside::OutFault;
use std::thread;
use std::time::{Clock, Duration};

/// How often a pause goes on that was cut for nothing.
const MOST_CUTS: usize = 8;

impl Sockets {
    /// A turn begins. Where the turn before had neither a pause nor a datagram there is a pause now, so that no peer
    /// can use turns up but by datagrams.
    pub(crate) fn begin_turn<C: Clock>(&mut self, rt: &C) -> Result<(), OutFault> {
        if !self.paused {
            match self.rest.told(time(rt)) {
                Some(until) => self.rest_until(rt, until)?,
                None => self.pause(rt)?,
            }
        }
        self.paused = false;
        self.rest.begin_turn(time(rt));
        Ok(())
    }

    /// Pauses, whatever comes.
    fn pause<C: Clock>(&mut self, rt: &C) -> Result<(), OutFault> {
        let begun = time(rt);
        self.gather(rt, left(rt, begun))?;
        thread::sleep(rt, left(rt, begun));
        Ok(())
    }

    /// Nothing is due before this reading, in the turn that was begun.
    pub(crate) fn tell_rest(&mut self, until: u64) {
        self.rest.tell(until);
    }

    /// When a dial has something to do that was asked for in this turn.
    fn next_dial(&self) -> u64 {
        let cii = self.rest.in_turn(self.dials.cii.next());
        let ts = self.rest.in_turn(self.dials.ts.next());
        let wc = self.rest.in_turn(self.datagrams.next_dial());
        cii.min(ts).min(wc)
    }

    /// When a turn has something to do, though nothing comes.
    fn next(&self, now: u64) -> u64 {
        if self.rest.came {
            return 0;
        }
        let handshakes = self.upgrades.next(now).min(self.next_dial());
        self.sessions.next().min(handshakes)
    }

    /// Rests until something comes, or until this time. It may end early.
    fn rest_until<C: Clock>(&mut self, rt: &C, until: u64) -> Result<(), OutFault> {
        let begun = time(rt);
        for _ in 0..MOST_CUTS {
            let now = time(rt);
            let until = until.min(self.next(now));
            // What parts needs no turn.
            let left = until.min(self.partings.next()).saturating_sub(now);
            self.gather(rt, wait_of(left))?;
            if until <= now || self.rest.came {
                break;
            }
            if left > 0 && left <= FINE {
                thread::sleep(rt, Duration::from_nanos(left));
            }
        }
        self.rest.end(begun, time(rt));
        Ok(())
    }

    /// Waits for a datagram. A pause that was cut for nothing goes on.
    fn wait_for<C: Clock>(
        &mut self,
        rt: &C,
        into: &mut [u8; 64],
    ) -> Result<Option<(u32, usize)>, OutFault>
        ensures room { IfOk result FitsRoom }
    {
        let begun = time(rt);
        for _ in 0..MOST_CUTS {
            let left = left(rt, begun);
            if left == Duration::ZERO {
                return Ok(None);
            }
            self.datagrams.wait(rt, left)?;
            if let Some(taken) = self.datagrams.take(into)? {
                return Ok(Some(taken));
            }
        }
        thread::sleep(rt, left(rt, begun));
        Ok(None)
    }

    /// The next datagram. Where none has come it is waited for, or the end rests.
    pub(crate) fn take_datagram<C: Clock>(
        &mut self,
        rt: &C,
        into: &mut [u8; 64],
    ) -> Result<Option<(u32, usize)>, OutFault>
        ensures room { IfOk result FitsRoom }
    {
        self.stale = true;
        self.paused = true;
        if let Some(taken) = self.datagrams.take(into)? {
            return Ok(Some(taken));
        }
        match self.rest.told(time(rt)) {
            None => self.wait_for(rt, into),
            Some(until) => {
                self.rest_until(rt, until)?;
                self.datagrams.take(into)
            }
        }
    }
}
