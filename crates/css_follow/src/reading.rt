ghost use Rattle.std.specs.Prelude.{[]};
ghost use Rattle.css_num.specs.Gives.{LeavesBy};
ghost use Rattle.css_lines.specs.declared.reader.LineFault.TheVariants as lacks;
ghost use Rattle.css_follow.specs.Reading.{with_line};

use crate::line::{Form, SheetLine, read_line};
use crate::sheet::Sheet;
use css_lines::{LineFault, Lines};
use std::alloc::Global;

/// The most cues of a sheet.
const MOST_CUES: usize = 1000;

/// The most bytes of a line, without its line feed.
const LONGEST_LINE: usize = 4096;

/// The most bytes of a sheet.
const LONGEST_INPUT: u64 = 67_108_864;

/// Reads a cue sheet line by line.
///
/// It has lines `cue TICK NAME`, at most 1,000 of them, and at most one line `meter COUNT`. Each ends with a line feed,
/// which the last one may lack; exactly one space stands between two words. TICK is signed with at most 18 digits,
/// NAME is a word of bytes from `!` to `~`, and COUNT is 1 to 1,000,000. A sheet may be empty. A line has at most 4,096
/// bytes without its line feed, and a sheet at most 67,108,864.
#[derive(Drop)]
pub struct SheetLines {
    alloc: Global,
    sheet: Sheet,
}

// Adds a line to a sheet, if it may stand there.
fn add(sheet: &mut Sheet, line: SheetLine) -> Result<(), LineFault<Form>>
    ensures { LeavesBy lacks.Memory result sheet.old sheet.new (with_line sheet.old line) }
{
    match line {
        SheetLine::Announce(cue) => {
            if sheet.cues.len() >= MOST_CUES {
                return Err(LineFault::Refused(Form));
            }
            match sheet.cues.push(cue) {
                Ok(()) => Ok(()),
                Err(_) => Err(LineFault::Memory),
            }
        }
        SheetLine::Measure(count) => {
            if sheet.meter.is_some() {
                return Err(LineFault::Refused(Form));
            }
            sheet.meter = Some(count);
            Ok(())
        }
    }
}

impl SheetLines {
    ghost use Rattle.std.specs.Prelude.{◌≡◌, []};
    ghost use Rattle.css_follow.specs.Reading.{Stands};

    /// No line was read yet.
    #[tactic(auto, unfolding(crate::specs::Sheets::sheet_of))]
    pub fn new(alloc: Global) -> SheetLines
        ensures { Stands result [] }
    {
        SheetLines {
            alloc,
            sheet: Sheet::empty(alloc),
        }
    }

    /// The sheet of the lines that were read.
    pub fn sheet(self) -> Sheet
        ensures { result ≡ self.sheet }
    {
        let SheetLines { alloc: _, sheet } = self;
        sheet
    }
}

impl Lines for SheetLines {
    ghost use Rattle.css_follow.specs.Sheets.{sheet_lines};
    ghost use Rattle.css_follow.specs.Reading.{Stands};

    type Cause = Form;

    ghost meaning = { sheet_lines };

    ghost stands = { Stands };

    fn longest_line(&self) -> usize {
        LONGEST_LINE
    }

    fn longest_input(&self) -> u64 {
        LONGEST_INPUT
    }

    fn line(
        &mut self,
        _number: u64,
        text: &[u8],
        _out: &mut Vec<u8>,
    ) -> Result<(), LineFault<Form>> {
        match read_line(self.alloc, text) {
            Ok(line) => add(&mut self.sheet, line),
            Err(css_schedule::LineFault::Form) => Err(LineFault::Refused(Form)),
            Err(css_schedule::LineFault::Memory) => Err(LineFault::Memory),
        }
    }

    fn finish(&mut self, _out: &mut Vec<u8>) -> Result<(), LineFault<Form>> {
        Ok(())
    }
}
