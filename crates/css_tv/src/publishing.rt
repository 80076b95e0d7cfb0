ghost use Rattle.std.specs.Prelude.{◌≡◌, ◌<◌, ◌≤◌, ◌+◌, ◌++◌, ◌∷◌, [], List, map, length, OnOk, OnErr};
ghost use Rattle.std.specs.Str.{IsUtf8};
ghost use Rattle.std.specs.Vec.{vec_len, vec_capacity};
ghost use Rattle.css_sessions.specs.Kept.{Event, step_of};
ghost use Rattle.css_sessions.specs.Told as told;
ghost use Rattle.css_tv.specs.Stages.{max_sessions};
ghost use Rattle.css_tv.specs.Outcomes.{published, say};

use crate::event::TvOut;
use crate::state::{Addresses, state_of};
use css_num::Memory;
use css_player::Player;
use css_sessions::{Said, Sessions};
use std::alloc::Global;

/// How many sessions can be open.
const MAX_SESSIONS: usize = 256;

/// Makes room for so many outputs.
pub fn make_room(out: &mut Vec<TvOut>, count: usize) -> Result<(), Memory>
    ensures items { out.new.items ≡ out.old.items }
    ensures ok { OnOk result (vec_len out.new + count ≤ vec_capacity out.new) }
{
    out.reserve(count)?;
    Ok(())
}

/// Appends a text, where there is room for it.
fn put(said: Said, out: &mut Vec<TvOut>)
    requires { vec_len out.old < vec_capacity out.old }
    ensures items { out.new.items ≡ out.old.items ++ say said ∷ [] }
    ensures len { vec_len out.new ≡ vec_len out.old + 1 }
    ensures capacity { vec_capacity out.old ≤ vec_capacity out.new }
{
    let _ = out.push(TvOut::Say {
        peer: said.peer,
        text: said.text,
    });
}

/// Moves texts to what is told, where there is room for them.
pub fn deliver(mut said: Vec<Said>, out: &mut Vec<TvOut>)
    requires { vec_len out.old + vec_len said ≤ vec_capacity out.old }
    ensures { out.new.items ≡ out.old.items ++ map say said.items }
{
    said.reverse();
    while let Some(one) = said.pop() {
        put(one, out);
    }
}

/// Tells each session what is new to it of what is shown.
pub fn publish(
    alloc: Global,
    addresses: &Addresses,
    player: &Player,
    sessions: &mut Sessions,
    out: &mut Vec<TvOut>,
) -> Result<(), Memory>
    requires wc_url { IsUtf8 addresses.now.wc_url }
    requires ts_url { IsUtf8 addresses.now.ts_url }
    requires few { length sessions.old.list ≤ max_sessions }
    ensures kept { OnOk result (sessions.new ≡ (step_of (published addresses.now player.now) sessions.old).kept) }
    ensures said { OnOk result (out.new.items ≡ out.old.items ++ map say (step_of
        (published addresses.now player.now) sessions.old).said) }
    ensures stands { OnOk result ((h : List Event) → told.StandsFor sessions.old h → told.StandsFor sessions.new
        (published addresses.now player.now ∷ h)) }
    ensures err { OnErr result ((sessions.new ≡ sessions.old) × (out.new.items ≡ out.old.items)) }
{
    make_room(out, MAX_SESSIONS)?;
    let state = state_of(alloc, addresses, player)?;
    let mut said = Vec::new(alloc);
    sessions.published(alloc, state, player, &mut said)?;
    deliver(said, out);
    Ok(())
}
