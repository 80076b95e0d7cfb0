ghost use Rattle.std.specs.Prelude.{◌≡◌};
ghost use Rattle.css_cii.specs.Names.{json_name};

use std::fmt;

/// A property of the state (ETSI TS 103 286-2, CSS-CII). It is printed as its
/// name in the messages.
#[derive(Clone, Copy, Debug, PartialEq, Eq)]
pub enum CiiName {
    ProtocolVersion,
    MrsUrl,
    ContentId,
    ContentIdStatus,
    PresentationStatus,
    WcUrl,
    TsUrl,
    TeUrl,
    Timelines,
}

impl CiiName {
    /// The name of the property in the messages.
    pub fn as_str(self) -> &'static str
        ensures { result.now ≡ json_name self }
    {
        match self {
            CiiName::ProtocolVersion => "protocolVersion",
            CiiName::MrsUrl => "mrsUrl",
            CiiName::ContentId => "contentId",
            CiiName::ContentIdStatus => "contentIdStatus",
            CiiName::PresentationStatus => "presentationStatus",
            CiiName::WcUrl => "wcUrl",
            CiiName::TsUrl => "tsUrl",
            CiiName::TeUrl => "teUrl",
            CiiName::Timelines => "timelines",
        }
    }
}

impl fmt::Display for CiiName {
    ghost use Rattle.std.specs.Prelude.{Some};

    ghost output = { λ name. Some (json_name name) };

    fn fmt<W: fmt::Write>(&self, f: &mut fmt::Formatter<W>) -> fmt::Result {
        f.write_str(self.as_str())
    }
}
