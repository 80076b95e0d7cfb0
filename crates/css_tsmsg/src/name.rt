ghost use Rattle.std.specs.Prelude.{◌≡◌};
ghost use Rattle.css_tsmsg.specs.Names.{json_name};

use std::fmt;

/// A member of the texts of CSS-TS (ETSI TS 103 286-2). It is printed as its
/// name in them.
#[derive(Clone, Copy, Debug, PartialEq, Eq)]
pub enum TsName {
    ContentIdStem,
    TimelineSelector,
    ContentTime,
    TimelineSpeedMultiplier,
    WallClockTime,
    Earliest,
    Latest,
    Actual,
}

impl TsName {
    /// The name of the member in the texts.
    pub fn as_str(self) -> &'static str
        ensures { result.now ≡ json_name self }
    {
        match self {
            TsName::ContentIdStem => "contentIdStem",
            TsName::TimelineSelector => "timelineSelector",
            TsName::ContentTime => "contentTime",
            TsName::TimelineSpeedMultiplier => "timelineSpeedMultiplier",
            TsName::WallClockTime => "wallClockTime",
            TsName::Earliest => "earliest",
            TsName::Latest => "latest",
            TsName::Actual => "actual",
        }
    }
}

impl fmt::Display for TsName {
    ghost use Rattle.std.specs.Prelude.{Some};

    ghost output = { λ name. Some (json_name name) };

    fn fmt<W: fmt::Write>(&self, f: &mut fmt::Formatter<W>) -> fmt::Result {
        f.write_str(self.as_str())
    }
}
