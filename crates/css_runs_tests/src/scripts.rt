//! What an outside in memory gives in the run of a row.
ghost use Rattle.std.specs.Prelude.{IsTrue};
ghost use Rattle.css_memory.specs.Scripts.{are_sessions};

use crate::noted::{Log, Noted};
use crate::rows::Row;
use crate::runs::NO_MEMORY;
use css_memory::{Datagram, MemoryOutside, OutsideScript, SessionHeard, can_be_read};
use css_num::{Memory, Text};
use css_outside::{Clocked, Heard, Kind};
use std::alloc::Global;
use std::process::Abort;

/// The machine slept before the readings that stand in `slept`, too.
pub fn add_readings(
    script: &mut OutsideScript,
    times: &[u64],
    slept: &[u64],
) -> Result<(), Memory> {
    for reading in times {
        script.readings.push(Clocked {
            reading: *reading,
            slept: slept.contains(reading),
        })?;
    }
    Ok(())
}

/// At the next take this datagram comes, if there is one.
pub fn add_datagram(
    alloc: Global,
    script: &mut OutsideScript,
    peer: u32,
    bytes: Option<&[u8]>,
) -> Result<(), Memory> {
    let datagram = match bytes {
        None => None,
        Some(bytes) => Some(Datagram {
            peer,
            bytes: Text::of(alloc, bytes)?,
        }),
    };
    script.datagrams.push(datagram)?;
    Ok(())
}

/// The session of this number gives this next.
pub fn add_heard(script: &mut OutsideScript, session: u32, heard: Heard) -> Result<(), Memory> {
    script.texts.push(SessionHeard { session, heard })?;
    Ok(())
}

fn add_texts(
    alloc: Global,
    script: &mut OutsideScript,
    texts: &[(u32, Option<&str>)],
) -> Result<(), Memory> {
    for (session, said) in texts {
        let heard = match said {
            None => Heard::Closed,
            Some(words) => Heard::Text(Text::of(alloc, words.as_bytes())?),
        };
        add_heard(script, *session, heard)?;
    }
    Ok(())
}

fn add_datagrams(alloc: Global, script: &mut OutsideScript, row: &Row) -> Result<(), Memory> {
    for bytes in row.datagrams {
        let some = (!bytes.is_empty()).then_some(*bytes);
        add_datagram(alloc, script, row.sender, some)?;
    }
    Ok(())
}

/// What the outside of a row gives.
pub fn script_of(rt: &impl Abort, alloc: Global, row: &Row) -> OutsideScript {
    let mut script = OutsideScript {
        readings: Vec::new(alloc),
        datagrams: Vec::new(alloc),
        openings: row.openings.to_vec(alloc).expect(rt, NO_MEMORY),
        texts: Vec::new(alloc),
        gone: row.gone.to_vec(alloc).expect(rt, NO_MEMORY),
        fails: row.fails.to_vec(alloc).expect(rt, NO_MEMORY),
    };
    add_readings(&mut script, row.times, row.slept).expect(rt, NO_MEMORY);
    add_datagrams(alloc, &mut script, row).expect(rt, NO_MEMORY);
    add_texts(alloc, &mut script, row.texts).expect(rt, NO_MEMORY);
    script
}

/// Whether sessions alone are opened, and no wall clock.
fn can_be_opened(openings: &[Option<Kind>]) -> bool
    ensures { IsTrue result → IsTrue (are_sessions openings.now) }
{
    for opening in openings {
        if matches!(opening, Some(Kind::Wc)) {
            return false;
        }
    }
    true
}

/// The outside of a script.
pub fn outside_giving(rt: &impl Abort, alloc: Global, script: OutsideScript) -> Noted {
    assert!(rt; can_be_read(&script.readings));
    assert!(rt; can_be_opened(&script.openings));
    let outside = MemoryOutside::new(alloc, script).expect(rt, NO_MEMORY);
    let log = Log::new(alloc);
    Noted { outside, log }
}

/// The outside of a row.
pub fn outside_of(rt: &impl Abort, alloc: Global, row: &Row) -> Noted {
    outside_giving(rt, alloc, script_of(rt, alloc, row))
}
