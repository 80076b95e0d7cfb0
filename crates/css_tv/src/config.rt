use css_num::Text;

/// What a television is started with.
#[derive(Debug, Drop)]
pub struct TvConfig {
    /// The precision of its wall clock: 2^precision seconds, with an exponent of at most 30.
    pub precision: i8,
    /// The greatest frequency error of its wall clock in 1/256 ppm, at most 25,600,000.
    pub error: u32,
    /// Whether its responses promise follow-ups.
    pub follow: bool,
    /// The host that companions are told, which is UTF-8.
    pub host: Text,
    /// The port of its wall clock, at most 65,534. The sessions' port is the next one.
    pub port: u16,
}
