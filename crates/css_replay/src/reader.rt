ghost use Rattle.std.specs.Prelude.{◌≡◌};
ghost use Rattle.css_replay.specs.Stands.{told_of, unread_fault};

use css_lines::Lines;
use css_schedule::{Header, LineFault, PlayerFault, Start, read_companion, read_header, read_line};
use css_world::{World, WorldFault};
use std::alloc::Global;

/// Why a line of a schedule is refused.
#[derive(Clone, Copy)]
pub enum Cause {
    /// It is outside the grammar, or a number is outside its range.
    Form,
    /// What it names isn't there.
    Absent,
    /// The television's player refuses it.
    Player(PlayerFault),
    /// Its numbers contradict those of an earlier line, or each other, by so much.
    Broken { earlier: u64, excess: i128 },
}

/// Replays a schedule: carries out its lines, and prints the span of the wall clock, or a companion's report, where a
/// line asks for it.
#[derive(Drop)]
pub struct Replay {
    alloc: Global,
    /// The version of the next line. Line 1 counts as one of version 1.
    version: u32,
    /// How many companions the schedule has, once line 1 was read.
    companions: u32,
    /// The header, while lines of its companions are to come.
    header: Option<Header>,
    /// The world that carries out the lines after the header.
    world: Option<World>,
}

// What the engine is told of a line that was not read.
fn unread(fault: LineFault) -> css_lines::LineFault<Cause>
    ensures { result ≡ unread_fault fault }
{
    match fault {
        LineFault::Form => css_lines::LineFault::Refused(Cause::Form),
        LineFault::Memory => css_lines::LineFault::Memory,
    }
}

// What the engine is told of a line that was carried out, or was not.
fn told(done: Result<(), WorldFault>) -> Result<(), css_lines::LineFault<Cause>>
    ensures { result ≡ told_of done }
{
    let cause = match done {
        Ok(()) => return Ok(()),
        Err(WorldFault::Broken { earlier, excess }) => Cause::Broken { earlier, excess },
        Err(WorldFault::Absent) => Cause::Absent,
        Err(WorldFault::Player(fault)) => Cause::Player(fault),
        Err(WorldFault::Memory) => return Err(css_lines::LineFault::Memory),
    };
    Err(css_lines::LineFault::Refused(cause))
}

impl Replay {
    ghost use Rattle.std.specs.Prelude.{◌≡◌, ℕ, [], None};
    ghost use Rattle.css_replay.specs.Replayed.{Extent, version_of};
    ghost use Rattle.css_replay.specs.Stands.{IsWell, ReadsOn, Stands, StandsAt, stage_of};

    /// No line was taken yet.
    pub fn new(alloc: Global) -> Replay
        ensures { Stands result [] }
    {
        Replay {
            alloc,
            version: 1,
            companions: 0,
            header: None,
            world: None,
        }
    }

    // Reads a line of the header: line 1, or that of the next companion.
    fn read_on(&mut self, text: &[u8]) -> Result<Header, LineFault>
        requires well { (number : ℕ) × (extent : Extent) × StandsAt self.old extent × IsWell number extent }
        requires none { self.old.world ≡ None }
        ensures reads { (extent : Extent) → StandsAt self.old extent → ReadsOn extent text.now result
            (λ next header. (next ≡ stage_of header self.new) × (self.new.version ≡ version_of next)) }
        ensures kept { self.new.world ≡ self.old.world }
    {
        let Some(mut header) = self.header.take() else {
            return match read_header(self.alloc, text)? {
                Start::One(header) => {
                    self.companions = 1;
                    Ok(header)
                }
                Start::Two { header, companions } => {
                    self.version = 2;
                    self.companions = companions;
                    Ok(header)
                }
            };
        };
        let number = header.companions.list().len() as u32 + 1;
        header.add(read_companion(self.alloc, text, number)?)?;
        Ok(header)
    }

    // Takes a line of the header. A world is large: in a function of its own its room is cleared once, and not at each
    // line.
    #[cold]
    #[inline(never)]
    fn open(&mut self, text: &[u8]) -> Result<(), LineFault>
        requires well { (number : ℕ) × (extent : Extent) × StandsAt self.old extent × IsWell number extent }
        requires none { self.old.world ≡ None }
        ensures { (extent : Extent) → StandsAt self.old extent
            → ReadsOn extent text.now result (λ next done. StandsAt self.new next) }
    {
        let header = self.read_on(text)?;
        if header.companions.list().len() == self.companions as usize {
            self.world = Some(World::new(self.alloc, header)?);
        } else {
            self.header = Some(header);
        }
        Ok(())
    }
}

impl Lines for Replay {
    ghost use Rattle.css_replay.specs.Replayed.{replayed};
    ghost use Rattle.css_replay.specs.Stands.{Stands};

    type Cause = Cause;

    ghost meaning = { replayed };

    ghost stands = { Stands };

    fn longest_line(&self) -> usize {
        if self.version == 1 { 4096 } else { 4352 }
    }

    fn longest_input(&self) -> u64 {
        if self.version == 1 {
            67_108_864
        } else {
            134_217_728
        }
    }

    fn line(
        &mut self,
        number: u64,
        text: &[u8],
        out: &mut Vec<u8>,
    ) -> Result<(), css_lines::LineFault<Cause>> {
        let Some(world) = &mut self.world else {
            return match self.open(text) {
                Ok(()) => Ok(()),
                Err(fault) => Err(unread(fault)),
            };
        };
        match read_line(self.alloc, text, self.version, self.companions) {
            Ok(line) => told(world.line(number, line, out)),
            Err(fault) => Err(unread(fault)),
        }
    }

    fn finish(&mut self, _out: &mut Vec<u8>) -> Result<(), css_lines::LineFault<Cause>> {
        match &self.world {
            Some(_) => Ok(()),
            None => Err(css_lines::LineFault::Refused(Cause::Form)),
        }
    }
}
