use css_outside::Limit;
use css_tv::TvConfig;

/// What a television's run is to do.
#[derive(Drop)]
pub struct TvDrive {
    /// The television, and where it is reached.
    pub tv: TvConfig,
    /// How long the run goes on.
    pub limit: Limit,
    /// Whether the times of the script, in nanoseconds below 2^32 seconds, count from the reading of the first turn.
    /// Else they are readings.
    pub relative: bool,
}
