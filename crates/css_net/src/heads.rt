//! The heads of requests and responses, as they come, and their fields.

use css_devices::faults::would_wait;
use css_num::Memory;
use httparse::Header;
use std::alloc::Global;
use std::io::Read;
use std::str;

/// How many bytes one read asks for.
const PIECE: usize = 4_096;
/// The greatest length of a head, in bytes.
const LONGEST_HEAD: usize = 65_536;
/// How many fields a head has at most.
pub(crate) const MOST_FIELDS: usize = 124;
/// The line that ends a head, after the end of the line before.
const BLANK_LINE: &[u8] = b"\r\n\r\n";

/// What a read of a head came to.
#[derive(Clone, Copy)]
pub(crate) enum Progress {
    /// The head is whole.
    Whole,
    /// Some of it came.
    More,
    /// Nothing comes for now.
    Waits,
    /// It is too long.
    TooLong,
    /// The stream ended, or broke.
    Ended,
}

/// A head, as far as it has come.
#[derive(Drop)]
pub(crate) struct Head {
    bytes: Vec<u8>,
    /// Its length, once it is whole. What came after it is the session's.
    length: usize,
}

/// Where a head ends that has its blank line at this place or later.
fn end_of(bytes: &[u8], from: usize) -> Option<usize> {
    let rest = bytes.get(from..)?;
    let place = rest.windows(4).position(|window| window == BLANK_LINE)?;
    Some(from.saturating_add(place).saturating_add(4))
}

impl Head {
    /// Nothing of it has come.
    pub(crate) fn new(alloc: Global) -> Head {
        Head {
            bytes: Vec::new(alloc),
            length: 0,
        }
    }

    /// Reads once.
    pub(crate) fn read<S: Read>(&mut self, stream: &mut S) -> Result<Progress, Memory> {
        let mut piece = [0u8; PIECE];
        match stream.read(&mut piece) {
            Ok(0) => Ok(Progress::Ended),
            Ok(count) => self.add(piece.get(..count).unwrap_or(&[])),
            Err(error) => {
                if would_wait(error.kind()) {
                    Ok(Progress::Waits)
                } else {
                    Ok(Progress::Ended)
                }
            }
        }
    }

    fn add(&mut self, piece: &[u8]) -> Result<Progress, Memory> {
        let from = self.bytes.len().saturating_sub(BLANK_LINE.len() - 1);
        self.bytes.extend_from_slice(piece)?;
        match end_of(&self.bytes, from) {
            Some(length) => {
                self.length = length;
                Ok(Progress::Whole)
            }
            None if self.bytes.len() > LONGEST_HEAD => Ok(Progress::TooLong),
            None => Ok(Progress::More),
        }
    }

    /// Whether some of it has come.
    pub(crate) fn has_begun(&self) -> bool {
        !self.bytes.is_empty()
    }

    /// The bytes of a head that is whole.
    pub(crate) fn bytes(&self) -> &[u8] {
        self.bytes.get(..self.length).unwrap_or(&[])
    }

    /// What came after it.
    pub(crate) fn rest(&self, alloc: Global) -> Result<Vec<u8>, Memory> {
        let rest = self.bytes.get(self.length..).unwrap_or(&[]);
        Ok(Vec::from_slice(alloc, rest)?)
    }
}

/// The value of the first field of a name.
pub(crate) fn value_of<'a>(fields: &[Header<'a>], name: &str) -> Option<&'a [u8]> {
    for field in fields {
        if field.name.eq_ignore_ascii_case(name) {
            return Some(field.value);
        }
    }
    None
}

/// The value of the only field of a name. None where there are several.
pub(crate) fn sole_value_of<'a>(fields: &[Header<'a>], name: &str) -> Option<&'a [u8]> {
    let mut sole = None;
    for field in fields {
        if field.name.eq_ignore_ascii_case(name) {
            if sole.is_some() {
                return None;
            }
            sole = Some(field.value);
        }
    }
    sole
}

/// Whether a token stands in a list, in any case.
fn lists(list: &[u8], token: &str) -> bool {
    match str::from_utf8(list) {
        Ok(list) => list
            .split(',')
            .any(|part| part.trim().eq_ignore_ascii_case(token)),
        Err(_) => false,
    }
}

/// Whether a token stands in the lists of the fields of a name.
pub(crate) fn has_token(fields: &[Header<'_>], name: &str, token: &str) -> bool {
    for field in fields {
        if field.name.eq_ignore_ascii_case(name) && lists(field.value, token) {
            return true;
        }
    }
    false
}
