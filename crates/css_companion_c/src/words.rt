//! A word for each code, for logs.
ghost use Rattle.std.specs.Prelude.{◌≡◌};
ghost use Rattle.css_companion_c.specs.Words.{word_of};

/// The word for a code.
pub(crate) fn word(code: u32) -> &'static str
    ensures { result.now ≡ word_of code }
{
    match code {
        0 => "done",
        1 => "out of memory",
        2 => "a number or a length is out of range",
        3 => "the reading is below an earlier one",
        4 => "there is no companion behind the handle",
        5 => "the buffer is too short",
        6 => "the interval doesn't fit 64 bits",
        7 => "the text isn't UTF-8",
        16 => "no datagram of CSS-WC",
        17 => "a request and no answer",
        18 => "an answer to no request",
        19 => "an answer that contradicts itself",
        32 => "not json",
        33 => "not an object",
        34 => "a property has a wrong form",
        35 => "an address was moved",
        36 => "answers disagree",
        48 => "NoAnswer",
        49 => "NoTimestamp",
        50 => "SessionClosed",
        51 => "Unreadable",
        52 => "Unavailable",
        53 => "NoRate",
        54 => "null",
        55 => "never",
        _ => "no code",
    }
}
