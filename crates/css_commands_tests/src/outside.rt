//! What comes from outside in a run.
ghost use Rattle.std.specs.Prelude.{◌≡◌, [], IsTrue};
ghost use Rattle.css_memory.specs.Scripts.{are_readings};

use css_memory::{Datagram, OutsideScript, SessionHeard, can_be_read};
use css_num::Text;
use css_outside::{Clocked, Heard};
use std::alloc::Global;
use std::process::Abort;

/// What a session gives.
#[derive(Clone, Copy)]
pub enum Said {
    Text(&'static str),
    Closed,
}

/// What comes from outside.
#[derive(Clone, Copy)]
pub struct World {
    /// What the clock reads.
    pub times: &'static [u64],
    /// The machine slept before the readings that stand here, too.
    pub slept: &'static [u64],
    /// By the calls that take them. An empty one is none.
    pub datagrams: &'static [&'static [u8]],
    /// By the number of the session.
    pub texts: &'static [(u32, Said)],
}

/// Nothing comes but three readings.
#[rattlefmt::skip]
pub const SILENT: World = World { times: &[0, 1, 2], slept: &[], datagrams: &[], texts: &[] };

fn readings_of(rt: &impl Abort, alloc: Global, world: &World) -> Vec<Clocked>
    ensures { IsTrue (are_readings 0 result.items) }
{
    let mut readings = Vec::new(alloc);
    for reading in world.times {
        let slept = world.slept.contains(reading);
        let reading = *reading;
        readings
            .push(Clocked { reading, slept })
            .expect(rt, "memory");
    }
    assert!(rt; can_be_read(&readings));
    readings
}

fn heard_of(rt: &impl Abort, alloc: Global, said: &Said) -> Heard {
    match said {
        Said::Text(words) => Heard::Text(Text::of(alloc, words.as_bytes()).expect(rt, "memory")),
        Said::Closed => Heard::Closed,
    }
}

fn texts_of(rt: &impl Abort, alloc: Global, rows: &[(u32, Said)]) -> Vec<SessionHeard> {
    let mut texts = Vec::new(alloc);
    for (session, said) in rows {
        let (session, heard) = (*session, heard_of(rt, alloc, said));
        texts
            .push(SessionHeard { session, heard })
            .expect(rt, "memory");
    }
    texts
}

fn datagram_of(rt: &impl Abort, alloc: Global, bytes: &[u8]) -> Option<Datagram> {
    if bytes.is_empty() {
        return None;
    }
    let bytes = Text::of(alloc, bytes).expect(rt, "memory");
    Some(Datagram { peer: 2, bytes })
}

fn datagrams_of(rt: &impl Abort, alloc: Global, rows: &[&[u8]]) -> Vec<Option<Datagram>> {
    let mut datagrams = Vec::new(alloc);
    for bytes in rows {
        let datagram = datagram_of(rt, alloc, bytes);
        datagrams.push(datagram).expect(rt, "memory");
    }
    datagrams
}

/// The script of a world whose calls of these numbers fail.
pub fn script_of(rt: &impl Abort, alloc: Global, world: &World, fails: &[u64]) -> OutsideScript
    ensures readings { IsTrue (are_readings 0 result.readings.items) }
    ensures openings { result.openings.items ≡ [] }
    ensures fails { result.fails.items ≡ fails.now }
{
    OutsideScript {
        readings: readings_of(rt, alloc, world),
        datagrams: datagrams_of(rt, alloc, world.datagrams),
        openings: Vec::new(alloc),
        texts: texts_of(rt, alloc, world.texts),
        gone: Vec::new(alloc),
        fails: fails.to_vec(alloc).expect(rt, "memory"),
    }
}
