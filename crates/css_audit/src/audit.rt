ghost use Rattle.std.specs.Prelude.{◌≡◌, [], List, Ok, OnOk, IfOk};
ghost use Rattle.css_num.specs.Gives.{GivesBy};
ghost use Rattle.css_audit.specs.Entries.{reports_in};
ghost use Rattle.css_audit.specs.Inputs.{header_of, line_of};
ghost use Rattle.css_audit.specs.Reading.{IsRead, verdict_of};
ghost use Rattle.css_audit.specs.Standing.{StandsFor, config_of, opened};
ghost use Rattle.css_audit.specs.Verdicts.{with_line};
ghost use Rattle.css_audit.specs.declared.fault.AuditFault.TheVariants as faults;
ghost use Rattle.css_audit.specs.declared.input.RecordLine.{RecordLine as Line};

use crate::fault::AuditFault;
use crate::input::{read_header, read_line};
use crate::place::Place;
use crate::taking::take;
use css_companion::Companion;
use std::alloc::Global;
use std::marker::Model;

/// The audit of a record, line by line. Its companion is told what the lines tell, and each report is compared with
/// that companion's.
#[derive(Drop)]
pub struct Audit {
    companion: Companion,
    place: Place,
    alloc: Global,
}

impl Model for Audit {
    ghost use Rattle.css_audit.specs.Standing.{Audit as Known, IsSound, known};

    ghost Value = { Known };

    ghost view = { λ a. known a.companion a.place };

    ghost invariant = { λ a. IsSound a.companion a.place };
}

impl Audit {
    /// Begins the audit of a record with this header, `css-record 1 EL PL SELECTOR STEM`, which comes without its line
    /// feed. It answers `Form` where the bytes are no such header.
    pub fn new(alloc: Global, header: &[u8]) -> Result<Audit, AuditFault>
        ensures header { GivesBy (λ audit. config_of audit.companion) faults.Memory result
            (opened (header_of header.now)) }
        ensures stands { IfOk result (λ audit. StandsFor audit []) }
    {
        let config = read_header(alloc, header)?;
        Ok(Audit {
            companion: Companion::new(alloc, config)?,
            place: Place::start(),
            alloc,
        })
    }

    /// How many reports were right, up to the greatest count.
    pub fn reports(&self) -> u64
        ensures value { result ≡ self.now.place.reports }
        ensures count { (older : List Line) → StandsFor self.now older → result ≡ reports_in older }
    {
        self.place.reports
    }

    /// Takes the next line of the record, which comes without its line feed. Lines are counted from 1, the header.
    ///
    /// The refusals are tested in this order: `Form`; `Broken`, of a reading; `Absent`, of a report; `BadCii`, and then
    /// `Moved`, of a text of the CII session; `WrongReport`, where the words of a report aren't those of the
    /// companion's report with the next number at the reading of the turn just before. After a fault the audit is used
    /// no more.
    pub fn line(&mut self, bytes: &[u8]) -> Result<(), AuditFault>
        ensures verdict { (older : List Line) → StandsFor self.old older
            → GivesBy (λ x. x) faults.Memory result (verdict_of self.old older bytes.now) }
        ensures stands { OnOk result ((older : List Line) → StandsFor self.old older
            → StandsFor self.new (with_line older (line_of bytes.now))) }
        ensures read { OnOk result (IsRead bytes.now) }
        ensures keeps { config_of self.new.companion ≡ config_of self.old.companion }
    {
        let line = read_line(self.alloc, bytes)?;
        self.place = take(self.alloc, &mut self.companion, &self.place, line)?;
        Ok(())
    }
}
