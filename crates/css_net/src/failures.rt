//! How dials failed.

use crate::answers::{DialFault, Wrong};
use css_outside::{Failure, Kind, OutFault};

/// How the last dial of each kind failed. Before one has, no answer came in time.
#[derive(Clone, Copy)]
pub(crate) struct Failures {
    last: Option<Failure>,
    /// What was wrong with the answer to the last dial of all that failed.
    wrong: Option<Wrong>,
    wc: Failure,
    cii: Failure,
    ts: Failure,
}

impl Failures {
    /// None has failed.
    pub(crate) fn new() -> Failures {
        Failures {
            last: None,
            wrong: None,
            wc: Failure::TimedOut,
            cii: Failure::TimedOut,
            ts: Failure::TimedOut,
        }
    }

    fn of(&mut self, kind: Kind) -> &mut Failure {
        match kind {
            Kind::Wc => &mut self.wc,
            Kind::Cii => &mut self.cii,
            Kind::Ts => &mut self.ts,
        }
    }

    /// How the last dial of all failed. One that isn't done counts where none has failed.
    pub(crate) fn last(&self) -> Option<Failure> {
        self.last
    }

    /// What was wrong with the answer to the last dial of all that failed, where it failed by that.
    pub(crate) fn wrong(&self) -> Option<Wrong> {
        self.wrong
    }

    /// Notes that a dial of a kind failed. Want of memory is no failure of a dial.
    pub(crate) fn fail(&mut self, kind: Kind, fault: DialFault) {
        if let OutFault::Failed(failure) = fault.plain() {
            self.last = Some(failure);
            self.wrong = fault.wrong();
            *self.of(kind) = failure;
        }
    }

    /// How a dial of a kind is told that isn't done, or may not begin yet: as the last of its kind that failed.
    pub(crate) fn wait(&mut self, kind: Kind) -> Failure {
        let failure = *self.of(kind);
        if self.last.is_none() {
            self.last = Some(failure);
        }
        failure
    }
}
