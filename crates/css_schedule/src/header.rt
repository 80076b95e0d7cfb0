use css_num::{Memory, Text};
use css_span::Local;
use std::marker::Model;

/// What a schedule says of one companion.
#[derive(Debug)]
pub struct CompanionLine {
    /// Its oscillator's error and its precision of reading.
    pub local: Local,
    /// The selector of the timeline that it wants.
    pub selector: Text,
    /// How the content id has to begin; empty for any content.
    pub stem: Text,
}

// By hand: a derived drop is opened at each exit of each caller's proof.
impl Drop for CompanionLine {
    fn drop(self) {
        let CompanionLine {
            local: _,
            selector: _,
            stem: _,
        } = self;
    }
}

/// The companions of a schedule, numbered from 1 in this order.
#[derive(Debug, Drop)]
pub struct Companions {
    list: Vec<CompanionLine>,
}

impl Model for Companions {
    ghost use Rattle.std.specs.Prelude.{List};
    ghost use Rattle.css_schedule.specs.declared.header.CompanionLine.{CompanionLine};

    ghost Value = { List CompanionLine };

    ghost view = { λ companions. companions.list.items };
}

impl Companions {
    ghost use Rattle.std.specs.Prelude.{◌≡◌, ◌++◌, ◌∷◌, [], OnOk, OnErr};

    /// These companions.
    pub fn of(list: Vec<CompanionLine>) -> Companions
        ensures { result ≡ list.items }
    {
        Companions { list }
    }

    /// The companions, in order of their numbers.
    pub fn list(&self) -> &Vec<CompanionLine>
        ensures { result.now.items ≡ self.now }
    {
        &self.list
    }

    // One more, after them.
    fn push(&mut self, companion: CompanionLine) -> Result<(), Memory>
        ensures added { OnOk result (self.new ≡ self.old ++ companion ∷ []) }
        ensures kept { OnErr result (self.new ≡ self.old) }
    {
        self.list.push(companion)?;
        Ok(())
    }
}

/// The header of a schedule: what the two ends declare.
#[derive(Debug, Drop)]
pub struct Header {
    /// Whether the television promises follow-ups.
    pub follow: bool,
    /// The television's oscillator error, in 1/256 ppm: at most 25,600,000.
    pub tv_error: u32,
    /// The television's precision, as the base-2 logarithm of seconds: -128 to 30.
    pub tv_precision: i8,
    /// The companions; one of them in version 1, and 1 to 16 in version 2.
    pub companions: Companions,
}

impl Header {
    ghost use Rattle.std.specs.Prelude.{◌≡◌, OnOk, OnErr};
    ghost use Rattle.css_schedule.specs.Headers.{with_companion};
    ghost use Rattle.css_schedule.specs.Ranges.{IsGoodHeader, IsGoodCompanion};

    /// Adds the next companion. For want of memory it isn't added, and the header is as it was.
    pub fn add(&mut self, companion: CompanionLine) -> Result<(), Memory>
        ensures added { OnOk result (self.new ≡ with_companion self.old companion) }
        ensures range { OnOk result (IsGoodHeader self.old → IsGoodCompanion companion → IsGoodHeader self.new) }
        ensures kept { OnErr result (self.new ≡ self.old) }
    {
        self.companions.push(companion)
    }
}

/// How a schedule starts.
#[derive(Debug, Drop)]
pub enum Start {
    /// Version 1: the header whole, with its one companion.
    One(Header),
    /// Version 2: the header without its companions, and how many lines of companions follow it.
    Two { header: Header, companions: u32 },
}
