ghost use Rattle.std.specs.Prelude.{◌≡◌, ◌≤◌, ◌<◌, ◌+◌, ◌^◌, List, ◌∷◌, length};
ghost use Rattle.std.specs.Prelude.{Some, IfOk, OnOk};
ghost use Rattle.css_meaning.specs.Accepted as accepted;
ghost use Rattle.css_meaning.specs.Happened.{Numbered};
ghost use Rattle.css_meaning.specs.Verdicts as verdicts;
ghost use Rattle.css_world.specs.Standing as worlds;
ghost use Rattle.css_gen.specs.Second.{least_lines};
ghost use Rattle.css_gen.specs.Standing.{AreSome};
ghost use Rattle.css_survey.specs.Generated as generated;
ghost use Rattle.css_survey.specs.Surveyed as surveyed;
ghost use Rattle.css_survey.specs.Surveys.{Stands, HasTaken};

use crate::summary::Summary;
use css_companion::Report;
use css_gen::Generator;
use css_num::Memory;
use css_schedule::{Line, Verb};
use css_world::{World, WorldFault};
use std::alloc::Global;

/// A replay of lines that a world takes, of which only the reports are counted.
pub(crate) struct Surveyor {
    world: World,
    /// What is printed for a line. It is counted, and kept no longer.
    printed: Vec<u8>,
    summary: Summary,
}

// By hand: a derived drop is opened at each exit of each caller's proof.
impl Drop for Surveyor {
    fn drop(self) {
        let Surveyor {
            world: _,
            printed: _,
            summary: _,
        } = self;
    }
}

// Its companion's reading, where a report is printed.
fn asked_at(verb: &Verb) -> Option<u64>
    ensures { result ≡ surveyed.asked_by verb.now }
{
    match verb {
        Verb::Print { reading } => Some(*reading),
        _ => None,
    }
}

// Lets the world take a line that it doesn't refuse.
fn carry_out(
    world: &mut World,
    number: u64,
    line: Line,
    printed: &mut Vec<u8>,
) -> Result<(), Memory>
    requires { (older : List Numbered) × worlds.StandsFor world.old older
        × accepted.AreAccepted world.old.header (record { number = number; line = line } ∷ older) }
    ensures header { world.new.header ≡ world.old.header }
    ensures stands { (older : List Numbered) → worlds.StandsFor world.old older → accepted.IsNext number older
        → OnOk result (worlds.StandsFor world.new (record { number = number; line = line } ∷ older)) }
{
    match world.line(number, line, printed) {
        Ok(()) => Ok(()),
        Err(WorldFault::Memory) => Err(Memory),
        Err(WorldFault::Broken { .. }) | Err(WorldFault::Absent) | Err(WorldFault::Player(_)) => {
            unreachable!()
        }
    }
}

// The report of the last line, at which the clock of this companion was read.
fn last_report(world: &World, who: u32, reading: u64) -> Report
    requires { (now : Numbered) × (older : List Numbered) × worlds.StandsFor world.now (now ∷ older)
        × (surveyed.asked_by now.line.verb ≡ Some reading) × (now.line.who ≡ who) }
    ensures { (now : Numbered) (older : List Numbered) → worlds.StandsFor world.now (now ∷ older)
        → surveyed.asked_by now.line.verb ≡ Some reading → now.line.who ≡ who
        → result ≡ verdicts.report_at now.line.who world.now.header older reading }
{
    match world.companion(who) {
        Some(companion) => companion.report(reading),
        None => unreachable!(),
    }
}

impl Surveyor {
    // Takes the line of that number.
    fn take(&mut self, number: u64, line: Line) -> Result<(), Memory>
        requires { (older : List Numbered) × Stands self.old older × (length older < 200000)
            × accepted.AreAccepted self.old.world.header (record { number = number; line = line } ∷ older) }
        ensures header { self.new.world.header ≡ self.old.world.header }
        ensures stands { (older : List Numbered) → Stands self.old older → accepted.IsNext number older
            → OnOk result (Stands self.new (record { number = number; line = line } ∷ older)) }
    {
        let who = line.who;
        let asked = asked_at(&line.verb);
        carry_out(&mut self.world, number, line, &mut self.printed)?;
        self.printed.clear();
        self.count(who, asked);
        Ok(())
    }

    // Counts the report of the last line, which is of this companion, where it asked for one.
    fn count(&mut self, who: u32, asked: Option<u64>)
        requires told { (now : Numbered) × (older : List Numbered) × worlds.StandsFor self.old.world (now ∷ older)
            × (surveyed.asked_by now.line.verb ≡ asked) × (now.line.who ≡ who) }
        requires prints { self.old.summary.prints < 2 ^ 32 }
        requires intervals { self.old.summary.intervals < 2 ^ 32 }
        ensures world { self.new.world ≡ self.old.world }
        ensures summary { (now : Numbered) (older : List Numbered) → worlds.StandsFor self.old.world (now ∷ older)
            → surveyed.asked_by now.line.verb ≡ asked → now.line.who ≡ who → self.new.summary
            ≡ surveyed.counted_with (surveyed.told_at self.old.world.header older now) self.old.summary }
    {
        if let Some(reading) = asked {
            let report = last_report(&self.world, who, reading);
            self.summary.count(&report);
        }
    }
}

// How many lines declare the header of so many companions.
fn heading(companions: u32) -> u64
    ensures { result ≡ generated.heading companions }
{
    if companions == 1 {
        1
    } else {
        u64::from(companions) + 1
    }
}

// Begins a survey with the header that a new generator gives.
fn begin(alloc: Global, generator: &mut Generator) -> Result<Surveyor, Memory>
    requires some { AreSome generator.old.companions }
    requires given { generator.old.given ≡ 0 }
    ensures generator { OnOk result
        (generator.new ≡ record generator.old { given = generated.heading generator.old.companions }) }
    ensures taken { IfOk result (λ survey. HasTaken survey generator.old.seed generator.old.companions
        (generated.heading generator.old.companions)) }
{
    let header = generator.header(alloc)?;
    Ok(Surveyor {
        world: World::new(alloc, header)?,
        printed: Vec::new(alloc),
        summary: Summary::new(),
    })
}

// Takes the line after so many.
fn take_next(
    alloc: Global,
    given: u64,
    generator: &mut Generator,
    survey: &mut Surveyor,
) -> Result<(), Memory>
    requires some { AreSome generator.old.companions }
    requires header { generated.heading generator.old.companions ≤ given }
    requires more { given < generator.old.lines }
    requires most { generator.old.lines ≤ 200000 }
    requires given { generator.old.given ≡ given }
    requires taken { HasTaken survey.old generator.old.seed generator.old.companions given }
    ensures generator { OnOk result (generator.new ≡ record generator.old { given = given + 1 }) }
    ensures taken { OnOk result (HasTaken survey.new generator.old.seed generator.old.companions (given + 1)) }
{
    let line = generator.line(alloc)?;
    survey.take(given + 1, line)
}

// Takes each line after the first ones, which are so many.
fn take_all(
    alloc: Global,
    first: u64,
    lines: u64,
    generator: &mut Generator,
    survey: &mut Surveyor,
) -> Result<(), Memory>
    requires some { AreSome generator.old.companions }
    requires header { generated.heading generator.old.companions ≡ first }
    requires within { first ≤ lines }
    requires all { generator.old.lines ≡ lines }
    requires most { lines ≤ 200000 }
    requires given { generator.old.given ≡ first }
    requires taken { HasTaken survey.old generator.old.seed generator.old.companions first }
    ensures { OnOk result (HasTaken survey.new generator.old.seed generator.old.companions lines) }
{
    for given in first..lines {
        take_next(alloc, given, generator, survey)?;
    }
    Ok(())
}

/// Replays the schedule that is generated of the seed, and counts the reports that are printed for its lines. It has so
/// many lines, at most 200,000, and so many companions, 1 to 16. With one companion it has at least 9 lines. With
/// several it has 4 lines, and 6 for each companion, at least. No line is kept longer than it is replayed.
pub fn survey(alloc: Global, seed: u64, lines: u64, companions: u32) -> Result<Summary, Memory>
    requires some { 1 ≤ companions }
    requires few { companions ≤ 16 }
    requires least { least_lines companions ≤ lines }
    requires most { lines ≤ 200000 }
    ensures { IfOk result
        (λ summary. summary ≡ surveyed.summary_of (surveyed.told_in seed companions lines)) }
{
    let mut generator = Generator::new(alloc, seed, lines, companions);
    let mut survey = begin(alloc, &mut generator)?;
    take_all(
        alloc,
        heading(companions),
        lines,
        &mut generator,
        &mut survey,
    )?;
    Ok(survey.summary)
}
