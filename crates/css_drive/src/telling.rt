//! The observer that writes a run's reports, with what its followers say of them.
ghost use Rattle.css_drive.specs.Telling.{CountsOver, Tells, Writes, audience};

use crate::observes::Observes;
use crate::session::Session;
use css_companion::{Companion, Report, line};
use css_follow::Listens;
use css_num::Text;
use css_outside::{Clocked, Failure, Kind, OutFault, Sink, write_all};
use std::alloc::Global;

/// Writes each report to a sink, with what the followers say of it, in one write.
#[derive(Drop)]
pub(crate) struct Telling<'a, K: Sink, F: Listens> {
    pub(crate) alloc: Global,
    pub(crate) sink: &'a mut K,
    pub(crate) followers: &'a mut F,
    /// Why no report is written any more, if none is.
    pub(crate) over: Option<OutFault>,
}

/// Writes a report's line, and after it what the followers say of it, at once. Says why not, if it fails.
fn tell_report<K: Sink, F: Listens>(
    alloc: Global,
    number: u64,
    report: &Report,
    sink: &mut K,
    followers: &mut F,
) -> Option<OutFault>
    ensures written { Writes result (audience (K.holds sink.old) (F.heard followers.old))
        (audience (K.holds sink.new) (F.heard followers.new)) number report.now }
    ensures counted { CountsOver result (K.faults sink.old) (K.faults sink.new) }
{
    let Ok(mut text) = line(alloc, number, report, None) else {
        return Some(OutFault::Memory);
    };
    let Ok(()) = followers.tell(report, &mut text) else {
        return Some(OutFault::Memory);
    };
    write_all(sink, text.bytes()).err()
}

impl<K: Sink, F: Listens> Observes for Telling<'_, K, F> {
    ghost use Rattle.std.specs.Prelude.{◌≡◌};

    ghost saw = { λ started telling notes. (telling.sink.ghost_name ≡ started.sink.ghost_name)
        × (telling.followers.ghost_name ≡ started.followers.ghost_name)
        × Tells telling.over (audience (K.holds started.sink.now) (F.heard started.followers.now))
        (audience (K.holds telling.sink.now) (F.heard telling.followers.now)) (K.faults started.sink.now)
        (K.faults telling.sink.now) notes };

    ghost over = { λ telling. telling.over };

    fn check(&self) -> Result<(), OutFault> {
        match self.over {
            None => Ok(()),
            Some(fault) => Err(fault),
        }
    }

    fn next_due(&self, _turn: u64, due: u64) -> u64 {
        due
    }

    fn slept(&mut self) {}

    fn turned(&mut self, _clocked: &Clocked, _companion: &Companion) {}

    fn reported(
        &mut self,
        _clocked: &Clocked,
        number: u64,
        report: &Report,
        _companion: &Companion,
    ) {
        self.over = tell_report(self.alloc, number, report, self.sink, self.followers);
    }

    fn dialled(&mut self, _kind: Kind, _tried: Result<u32, Failure>) {}

    fn asked(&mut self, _reading: u64) {}

    fn landed(&mut self, _clocked: &Clocked, _bytes: &[u8], _companion: &Companion) {}

    fn heard(&mut self, _session: Session, _text: &Text, _companion: &Companion) {}

    fn closed(&mut self, _session: Session) {}
}
