use css_num::{Rate, Text};
use css_player::Command;
use css_sessions::Kind;

/// What happens at a television.
#[derive(Debug, Drop)]
pub enum TvEvent {
    /// A programme is added with this content id, which is UTF-8.
    Programme(Text),
    /// A programme, counted from 1, gets a timeline. Its selector is UTF-8; `base` is the tick at the media position 0.
    AddTimeline {
        programme: u32,
        selector: Text,
        rate: Rate,
        base: i64,
    },
    /// A viewer gives a command at this reading of the wall clock, in nanoseconds.
    Viewer {
        command: Command,
        reading: u64,
    },
    /// A session was opened. Its number was never used before.
    Opened {
        peer: u32,
        kind: Kind,
    },
    /// A text came on a session.
    Heard {
        peer: u32,
        text: Text,
    },
    /// A session was closed.
    Closed {
        peer: u32,
    },
}

/// What a television does at its sessions.
#[derive(Debug, Drop, PartialEq, Eq)]
pub enum TvOut {
    /// Sends a text.
    Say { peer: u32, text: Text },
    /// Closes the session.
    HangUp { peer: u32 },
}
