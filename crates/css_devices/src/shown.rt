//! What the system's two clocks show.
ghost use Rattle.std.specs.Prelude.{◌<◌};
ghost use Rattle.css_model.specs.declared.TheConstants.{LIMIT};

/// The two clocks at one moment.
#[derive(Clone, Copy)]
pub(crate) struct Clocks {
    /// `CLOCK_MONOTONIC`: it never goes back, and stands still while the machine sleeps. The readings are from it.
    pub(crate) monotone: u64,
    /// `CLOCK_REALTIME`, where it shows a time of 1970 to 2554: it goes on in a sleep. A person, or a time service, may
    /// set it.
    pub(crate) system: Option<u64>,
    ghost monotone_below: { monotone < LIMIT },
}
