/// The greatest media position either way, in nanoseconds, and the greatest base tick of a timeline either way.
pub const MAX_POSITION: u64 = 100_000_000_000_000_000;

/// The greatest speed, forward and backward.
pub const MAX_SPEED: u32 = 64;

/// The programmes that a player has at most.
pub const MAX_PROGRAMMES: usize = 1000;

/// The timelines that a programme has at most.
pub const MAX_TIMELINES: usize = 16;
