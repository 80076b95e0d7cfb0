ghost use Rattle.std.specs.Prelude.{◌≡◌, ◌≤◌, [], ◌∷◌, length, ℕ, None, Some, All, IfOk, IfNone, IfSome, OnOk};
ghost use Rattle.std.specs.Borrow.{sem};
ghost use Rattle.css_schedule.specs.Headers.{max_companions};
ghost use Rattle.css_schedule.specs.Ranges.{IsCompanion};
ghost use Rattle.css_num.specs.declared.protocol.Kind.TheVariants as kinds;
ghost use Rattle.css_meaning.specs.Numbering.{stored};
ghost use Rattle.css_meaning.specs.Sessions as sessions;
ghost use Rattle.css_world.specs.Flights as flights;
ghost use Rattle.css_world.specs.Lanes as lanes;
ghost use Rattle.css_world.specs.Lending.{LendsLane};

use crate::lane::Lane;
use crate::place::place;
use css_num::Memory;
use css_schedule::CompanionLine;
use css_tv::TvOut;
use std::alloc::Global;

/// The companions of a schedule, numbered from 1 in this order.
#[derive(Drop)]
pub(crate) struct Lanes {
    pub(crate) list: Vec<Lane>,
}

impl Lanes {
    /// One lane for each of these companions.
    pub(crate) fn new(alloc: Global, companions: &[CompanionLine]) -> Result<Lanes, Memory>
        requires { All IsCompanion companions.now }
        ensures { IfOk result (λ new. lanes.AreFresh companions.now new.list.items) }
    {
        let mut list = Vec::new(alloc);
        for companion in companions.iter() {
            let lane = Lane::new(alloc, companion)?;
            list.push(lane)?;
        }
        Ok(Lanes { list })
    }

    /// The lane of the companion with this number, if there is one.
    pub(crate) fn get(&self, who: u32) -> Option<&Lane>
        ensures some { IfSome result (λ lane. stored self.now.list.items who ≡ Some lane.now) }
        ensures none { IfNone result (stored self.now.list.items who ≡ None) }
    {
        self.list.get(place(who)?)
    }

    /// The lane of the companion with this number, which there is.
    pub(crate) fn lane(&mut self, who: u32) -> &mut Lane
        requires first { 1 ≤ who }
        requires within { who ≤ length self.old.list.items }
        ensures* lends { sem 𝓛 (LendsLane self.entry who result) }
        ensures value { stored self.old.list.items who ≡ Some result.now }
    {
        &mut self.list[who as usize - 1]
    }

    /// Puts a text of the television into flight, if it is for one of these companions.
    fn tell_one(&mut self, out: TvOut) -> Result<(), Memory>
        requires few { length self.old.list.items ≤ max_companions }
        ensures told { OnOk result (lanes.AllTakeUp (out ∷ []) self.old.list.items self.new.list.items) }
        ensures rest { lanes.KeepsAllButTexts self.old.list.items self.new.list.items }
    {
        let who = told_companion(&out);
        if who == 0 || who as usize > self.list.len() {
            return Ok(());
        }
        let lane = self.lane(who);
        lane.tell(who, out)
    }

    /// Puts into flight what the television told these companions.
    pub(crate) fn tell(&mut self, told: Vec<TvOut>) -> Result<(), Memory>
        requires few { length self.old.list.items ≤ max_companions }
        ensures told { OnOk result (lanes.AllTakeUp told.items self.old.list.items self.new.list.items) }
        ensures rest { lanes.KeepsAllButTexts self.old.list.items self.new.list.items }
    {
        for out in told {
            self.tell_one(out)?;
        }
        Ok(())
    }
}

/// The number of the companion that the television tells something, and 0 where it tells none. Peers are 2K - 1 and 2K
/// for companion K.
#[tactic(auto, using(crate::proofs::Delivered::said_for, crate::proofs::Delivered::hung_up_for))]
fn told_companion(out: &TvOut) -> u32
    ensures { lanes.IsFor out.now result }
{
    match out {
        TvOut::Say { peer, .. } => *peer / 2 + *peer % 2,
        TvOut::HangUp { .. } => 0,
    }
}
