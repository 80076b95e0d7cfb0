//! The last lines that went through a source, for a person who asks which of them was refused. They are kept where no
//! memory is asked for: a run that lacks some ends as it would without them.

use std::simd::prelude::*;

/// How many of the last bytes are kept.
const KEPT: usize = 32_768;
/// How many bytes are added at once at most.
const PART: usize = 4_096;
/// How many bytes are looked at at once. Each counts in a lane of its own.
const LANES: usize = 64;
/// How many times a lane can count.
const MOST_COUNTED: usize = 255;

const LINE_FEED: u8 = b'\n';

const CARRIAGE_RETURN: u8 = b'\r';

/// The last lines of an input.
#[derive(Drop)]
pub(crate) struct Window {
    /// A ring: the next byte takes the place of the oldest one.
    bytes: [u8; KEPT],
    /// The place of the next byte.
    next: usize,
    /// How many bytes are kept.
    count: usize,
    /// The number of the line that the oldest byte is of, counted from 1.
    number: u64,
    /// Whether that line is there from its beginning.
    is_whole: bool,
    /// Whether line 1 ended with a carriage return, once it has ended.
    returned: Option<bool>,
}

/// Adds to each lane whether its byte is a line feed.
fn add_feeds(lanes: u8x64, row: &[u8; LANES]) -> u8x64 {
    let is_feed = u8x64::from_array(*row).simd_eq(u8x64::splat(LINE_FEED));
    lanes + is_feed.select(u8x64::splat(1), u8x64::splat(0))
}

fn feeds_in(bytes: &[u8]) -> u64 {
    let (rows, rest) = bytes.as_chunks::<LANES>();
    let mut feeds = rest.iter().filter(|byte| **byte == LINE_FEED).count() as u64;
    for some in rows.chunks(MOST_COUNTED) {
        let lanes = some.iter().fold(u8x64::splat(0), add_feeds);
        feeds = feeds.wrapping_add(u64::from(lanes.cast::<u16>().reduce_sum()));
    }
    feeds
}

/// Whether the first line of these bytes ends with a carriage return, where it ends.
fn first_returns(bytes: &[u8]) -> Option<bool> {
    let feed = bytes.iter().position(|byte| *byte == LINE_FEED)?;
    let line = bytes.get(..feed)?;
    Some(line.last() == Some(&CARRIAGE_RETURN))
}

impl Window {
    /// No line has come.
    pub(crate) fn new() -> Window {
        Window {
            bytes: [0; KEPT],
            next: 0,
            count: 0,
            number: 1,
            is_whole: true,
            returned: None,
        }
    }

    /// What is kept, where the oldest byte is at the front of the ring.
    fn kept(&self) -> &[u8] {
        let (kept, _) = self.bytes.split_at(self.count.min(KEPT));
        kept
    }

    /// Puts bytes in the place of the oldest ones, where they fit behind them.
    fn put(&mut self, part: &[u8]) {
        let (_, behind) = self.bytes.split_at_mut(self.next.min(KEPT));
        let Some(place) = behind.get_mut(..part.len()) else {
            return;
        };
        if self.count == KEPT {
            self.is_whole = place.last() == Some(&LINE_FEED);
            self.number = self.number.saturating_add(feeds_in(place));
        }
        place.copy_from_slice(part);
        self.count = self.count.saturating_add(part.len()).min(KEPT);
        self.next = self.next.saturating_add(part.len()) % KEPT;
    }

    /// Adds what came.
    pub(crate) fn add(&mut self, piece: &[u8]) {
        for part in piece.chunks(PART) {
            let behind = KEPT.saturating_sub(self.next);
            let (first, others) = part.split_at(part.len().min(behind));
            self.put(first);
            if !others.is_empty() {
                self.put(others);
            }
            if self.returned.is_none() && self.count < KEPT {
                self.returned = first_returns(self.kept());
            }
        }
    }

    /// Brings the oldest byte to the front of the ring.
    pub(crate) fn turn(&mut self) {
        if self.count == KEPT {
            self.bytes.rotate_left(self.next.min(KEPT));
            self.next = 0;
        }
    }

    /// The line with this number, without its line feed, where all of it is still kept. The ring was turned since the
    /// last bytes came.
    pub(crate) fn line(&self, number: u64) -> Option<&[u8]> {
        let place = number.checked_sub(self.number)?;
        if place == 0 && !self.is_whole {
            return None;
        }
        self.kept()
            .split(|byte| *byte == LINE_FEED)
            .nth(place as usize)
    }

    /// Whether line 1 ended with a carriage return.
    pub(crate) fn has_returned(&self) -> bool {
        self.returned == Some(true)
    }
}
