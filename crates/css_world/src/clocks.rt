ghost use Rattle.std.specs.Prelude.{◌≡◌, ◌≤◌, Some, [], length, IfOk, All};
ghost use Rattle.std.specs.Borrow.{sem};
ghost use Rattle.css_schedule.specs.Ranges.{IsHeader, IsCompanion, IsLine, IsSecond};
ghost use Rattle.css_meaning.specs.Numbering.{stored};
ghost use Rattle.css_world.specs.Lending.{LendsWatch};
ghost use Rattle.css_world.specs.Standing.{ClocksStand, IsNew, AreNew, AreNext, ShowsBy, ShownTo, ReadsBy, ReadTo};

use crate::watch::Watch;
use css_meaning::WorldFault;
use css_num::Memory;
use css_schedule::{CompanionLine, Header, Line, Verb};
use css_wc::precision_ns;
use std::alloc::Global;

/// The clocks of both ends, as the lines tell of them.
#[derive(Drop)]
pub(crate) struct Clocks {
    /// The television's wall clock.
    pub(crate) tv: Watch,
    /// The companions' own clocks, numbered from 1 in this order.
    pub(crate) own: Vec<Watch>,
}

impl Clocks {
    pub(crate) fn new(alloc: Global, header: &Header) -> Result<Clocks, Memory>
        requires { IsHeader header.now }
        ensures { IfOk result (λ clocks. ClocksStand header.now clocks [] []) }
    {
        Ok(Clocks {
            tv: Watch::new(header.tv_error, precision_ns(header.tv_precision)),
            own: watches(alloc, header.companions.list())?,
        })
    }

    /// The watch of the companion with this number, which there is.
    fn own(&mut self, who: u32) -> &mut Watch
        requires first { 1 ≤ who }
        requires within { who ≤ length self.old.own.items }
        ensures* lends { sem 𝓛 (LendsWatch self.entry who result) }
        ensures value { stored self.old.own.items who ≡ Some result.now }
    {
        &mut self.own[who as usize - 1]
    }

    /// Tests true time, the wall clock, and the clock of the line's companion.
    pub(crate) fn show(&mut self, number: u64, line: &Line) -> Result<(), WorldFault>
        requires line { IsLine line.now }
        requires of { IsSecond (length self.old.own.items) line.now }
        requires next { AreNext self.old number }
        ensures verdict { ShowsBy self.old result (record { number = number; line = line.now }) }
        ensures stands { ShownTo self.old self.new result (record { number = number; line = line.now }) }
        ensures count { length self.new.own.items ≡ length self.old.own.items }
    {
        self.tv.show(number, line.t, line.w)?;
        if line.who == 0 {
            return Ok(());
        }
        let clock = self.own(line.who);
        clock.wake_at(&line.verb);
        clock.show(number, line.t, line.l)
    }

    /// Tests the reading at a line, which the television takes of its clock, or the companion of its own. After a sleep
    /// the companion's next reading has to be above its last one.
    pub(crate) fn read(&mut self, number: u64, line: &Line) -> Result<(), WorldFault>
        requires of { IsSecond (length self.old.own.items) line.now }
        ensures verdict { ReadsBy self.old result (record { number = number; line = line.now }) }
        ensures stands { ReadTo self.old self.new result (record { number = number; line = line.now }) }
    {
        match line.verb {
            Verb::Take { reading, .. }
            | Verb::Give { reading, .. }
            | Verb::Viewer { reading, .. } => { self.tv.read(number, line.w, reading) }
            Verb::Ask { reading }
            | Verb::Land { reading, .. }
            | Verb::Wall { reading }
            | Verb::Print { reading } => {
                let clock = self.own(line.who);
                clock.read(number, line.l, reading)
            }
            Verb::Sleep => {
                let clock = self.own(line.who);
                clock.woken = true;
                Ok(())
            }
            _ => Ok(()),
        }
    }
}

/// The watch of this companion.
fn watch(companion: &CompanionLine) -> Watch
    ensures { IsNew companion.now result }
{
    let local = companion.local;
    Watch::new(local.error, local.precision)
}

/// A watch for each of these companions.
fn watches(alloc: Global, companions: &[CompanionLine]) -> Result<Vec<Watch>, Memory>
    requires { All IsCompanion companions.now }
    ensures { IfOk result (λ new. AreNew companions.now new.items) }
{
    let mut own = Vec::new(alloc);
    for companion in companions.iter() {
        own.push(watch(companion))?;
    }
    Ok(own)
}
