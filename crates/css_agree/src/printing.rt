ghost use Rattle.std.specs.Prelude.{◌≡◌, ◌<◌, ◌++◌, decimal, OnOk, OnErr};
ghost use Rattle.css_agree.specs.Printed.{agreed_text, ends_line};

use crate::agreed::Agreed;
use crate::ends::{highest, lowest};
use css_model::LIMIT;
use css_span::{Local, Span};
use std::alloc::{AllocError, Global};

/// Adds a number and words.
pub(crate) fn print_words(
    alloc: Global,
    number: u64,
    words: &str,
    out: &mut Vec<u8>,
) -> Result<(), AllocError>
    ensures ok { OnOk result (out.new.items ≡ out.old.items ++ decimal number ++ words.now) }
    ensures err { OnErr result (out.new.items ≡ out.old.items) }
{
    let line = format!(in alloc; "{number}{words}")?;
    out.extend_from_slice(line.as_bytes())
}

// A word and two ends.
fn print_ends(
    alloc: Global,
    number: u64,
    word: &str,
    low: i128,
    high: i128,
    out: &mut Vec<u8>,
) -> Result<(), AllocError>
    ensures ok { OnOk result (out.new.items ≡ out.old.items ++ ends_line number word.now low high) }
    ensures err { OnErr result (out.new.items ≡ out.old.items) }
{
    let line = format!(in alloc; "{number}{word}{low} {high}\n")?;
    out.extend_from_slice(line.as_bytes())
}

/// Adds the line of what answers say at a reading: `N none NoAnswer`, `N agree LO HI` or `N disagree LO HI`.
pub(crate) fn print_agreed(
    alloc: Global,
    number: u64,
    agreed: &Agreed,
    local: &Local,
    reading: u64,
    out: &mut Vec<u8>,
) -> Result<(), AllocError>
    requires { reading < LIMIT }
    ensures ok { OnOk result (out.new.items ≡ out.old.items ++ agreed_text local.now number reading agreed.now) }
    ensures err { OnErr result (out.new.items ≡ out.old.items) }
{
    match agreed {
        Agreed::Nothing => print_words(alloc, number, " none NoAnswer\n", out),
        Agreed::Within(Span { lo, hi }) => print_ends(alloc, number, " agree ", *lo, *hi, out),
        Agreed::Disagree { low, high } => {
            let low = lowest(low, local, reading);
            let high = highest(high, local, reading);
            print_ends(alloc, number, " disagree ", low, high, out)
        }
    }
}
