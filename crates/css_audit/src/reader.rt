ghost use Rattle.std.specs.Prelude.{◌≡◌, ◌++◌, OnOk, OnErr, List};
ghost use Rattle.css_audit.specs.Auditing.{engine_fault, count_line};
ghost use Rattle.css_audit.specs.Inputs.{line_of};
ghost use Rattle.css_audit.specs.Reading.{IsMeant, IsRead, Opens};
ghost use Rattle.css_audit.specs.Standing.{StandsFor, config_of};
ghost use Rattle.css_audit.specs.Verdicts.{with_line};
ghost use Rattle.css_audit.specs.declared.input.RecordLine.{RecordLine as Line};

use crate::audit::Audit;
use crate::fault::AuditFault;
use css_lines::{LineFault, Lines};
use std::alloc::{AllocError, Global};

/// Reads a record line by line and audits it. Where every line is right, it prints how many reports there were.
#[derive(Drop)]
pub struct Auditing {
    alloc: Global,
    audit: Option<Audit>,
}

const LONGEST_LINE: usize = 16_777_216;

const LONGEST_INPUT: u64 = 268_435_456;

// What the engine is told of a fault.
fn told(fault: AuditFault) -> LineFault<AuditFault>
    ensures { result ≡ engine_fault fault }
{
    match fault {
        AuditFault::Memory => LineFault::Memory,
        _ => LineFault::Refused(fault),
    }
}

// Begins the audit of a record with this header.
fn open(alloc: Global, text: &[u8]) -> Result<Audit, LineFault<AuditFault>>
    ensures { Opens text.now result }
{
    match Audit::new(alloc, text) {
        Ok(audit) => Ok(audit),
        Err(fault) => Err(told(fault)),
    }
}

// Audits a line after the header.
fn take_line(audit: &mut Audit, text: &[u8]) -> Result<(), LineFault<AuditFault>>
    ensures meant { (older : List Line) → StandsFor audit.old older → IsMeant audit.old older text.now result }
    ensures stands { OnOk result ((older : List Line) → StandsFor audit.old older
        → StandsFor audit.new (with_line older (line_of text.now))) }
    ensures read { OnOk result (IsRead text.now) }
    ensures keeps { config_of audit.new.companion ≡ config_of audit.old.companion }
{
    match audit.line(text) {
        Ok(()) => Ok(()),
        Err(fault) => Err(told(fault)),
    }
}

// Adds `reports K`.
fn print_count(alloc: Global, reports: u64, out: &mut Vec<u8>) -> Result<(), AllocError>
    ensures ok { OnOk result (out.new.items ≡ out.old.items ++ count_line reports) }
    ensures err { OnErr result (out.new.items ≡ out.old.items) }
{
    let line = format!(in alloc; "reports {reports}\n")?;
    out.extend_from_slice(line.as_bytes())
}

impl Auditing {
    ghost use Rattle.std.specs.Prelude.{[]};
    ghost use Rattle.css_audit.specs.Reading.{Stands};

    /// No line was taken yet.
    pub fn new(alloc: Global) -> Auditing
        ensures { Stands result [] }
    {
        Auditing { alloc, audit: None }
    }
}

impl Lines for Auditing {
    ghost use Rattle.std.specs.Prelude.{◌≡◌, ◌+◌, ◌^◌, ◌≤◌, [], ◌∷◌, ◌++◌, List, ℕ, length, OnOk};
    ghost use Rattle.css_audit.specs.Auditing.{auditing};
    ghost use Rattle.css_audit.specs.Reading.{Stands};

    type Cause = AuditFault;

    ghost meaning = { auditing };

    ghost stands = { Stands };

    fn longest_line(&self) -> usize {
        LONGEST_LINE
    }

    fn longest_input(&self) -> u64 {
        LONGEST_INPUT
    }

    fn line(
        &mut self,
        _number: u64,
        text: &[u8],
        _out: &mut Vec<u8>,
    ) -> Result<(), LineFault<AuditFault>> {
        match &mut self.audit {
            None => {
                self.audit = Some(open(self.alloc, text)?);
                Ok(())
            }
            Some(audit) => take_line(audit, text),
        }
    }

    fn finish(&mut self, out: &mut Vec<u8>) -> Result<(), LineFault<AuditFault>> {
        let Some(audit) = &self.audit else {
            return Err(LineFault::Refused(AuditFault::Form));
        };
        match print_count(self.alloc, audit.reports(), out) {
            Ok(()) => Ok(()),
            Err(_) => Err(LineFault::Memory),
        }
    }
}
