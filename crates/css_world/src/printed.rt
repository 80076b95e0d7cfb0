ghost use Rattle.std.specs.Prelude.{◌≡◌, ◌++◌, length, take, Some, OnOk, OnErr};
ghost use Rattle.css_companion.specs.Printed.{line_of};
ghost use Rattle.css_companion.specs.declared.report.Report.TheVariants as reports;
ghost use Rattle.css_meaning.specs.Printed.{ends_line, wall_line, wall_text};

use css_companion::{Report, line as report_line};
use css_num::{Memory, Span};
use itoa::{Buffer, Integer};
use std::alloc::{AllocError, Global};

/// Adds the line that is printed for the span of the wall clock: `N wall LO HI at W`, or `N none NoAnswer`.
pub(crate) fn print_wall(
    number: u64,
    span: Option<Span>,
    w: u64,
    out: &mut Vec<u8>,
) -> Result<(), AllocError>
    ensures ok { OnOk result (out.new.items ≡ out.old.items ++ wall_text number span w) }
    ensures err { OnErr result (out.new.items ≡ out.old.items) }
{
    let length = out.len();
    let printed = match span {
        None => add(number, b" none NoAnswer\n", out),
        Some(Span { lo, hi }) => print_span(number, lo, hi, w, out),
    };
    if printed.is_err() {
        out.truncate(length);
    }
    printed
}

/// Where memory runs out, a part of the line may be there.
fn print_span(number: u64, lo: i128, hi: i128, w: u64, out: &mut Vec<u8>) -> Result<(), AllocError>
    ensures ok { OnOk result (out.new.items ≡ out.old.items ++ wall_line number (record { lo = lo; hi = hi }) w) }
    ensures err { OnErr result (take (length out.old.items) out.new.items ≡ out.old.items) }
{
    print_ends(number, b" wall ", lo, hi, w, out)
}

/// Adds the line that is printed for a report: `N ticks LO HI at P`, or `N none CAUSE`. P is the position that is
/// assigned to the line's value of the wall clock.
pub(crate) fn print_report(
    alloc: Global,
    number: u64,
    report: &Report,
    assigned: Option<i128>,
    out: &mut Vec<u8>,
) -> Result<(), Memory>
    ensures ok { OnOk result (out.new.items ≡ out.old.items ++ line_of number report.now assigned) }
    ensures err { OnErr result (out.new.items ≡ out.old.items) }
{
    match report {
        Report::Ticks { lo, hi } => match assigned {
            Some(position) => {
                print_ticks(number, *lo, *hi, position, out)?;
                Ok(())
            }
            None => print_text(alloc, number, report, assigned, out),
        },
        Report::None(_) => print_text(alloc, number, report, assigned, out),
    }
}

/// Most reports are ticks. Their line is written in place.
fn print_ticks(
    number: u64,
    lo: i128,
    hi: i128,
    position: i128,
    out: &mut Vec<u8>,
) -> Result<(), AllocError>
    ensures ok { OnOk result (out.new.items ≡ out.old.items
        ++ line_of number (reports.Ticks lo hi) (Some position)) }
    ensures err { OnErr result (out.new.items ≡ out.old.items) }
{
    let length = out.len();
    let printed = print_ends(number, b" ticks ", lo, hi, position, out);
    if printed.is_err() {
        out.truncate(length);
    }
    printed
}

fn print_text(
    alloc: Global,
    number: u64,
    report: &Report,
    assigned: Option<i128>,
    out: &mut Vec<u8>,
) -> Result<(), Memory>
    ensures ok { OnOk result (out.new.items ≡ out.old.items ++ line_of number report.now assigned) }
    ensures err { OnErr result (out.new.items ≡ out.old.items) }
{
    let text = report_line(alloc, number, report, assigned)?;
    out.extend_from_slice(text.bytes())?;
    Ok(())
}

/// Adds a line with the two ends of a span, and the place that it is at. Where memory runs out, a part of the line may
/// be there.
fn print_ends<I: Integer>(
    number: u64,
    name: &[u8],
    lo: i128,
    hi: i128,
    at: I,
    out: &mut Vec<u8>,
) -> Result<(), AllocError>
    ensures ok { OnOk result (out.new.items ≡ out.old.items ++ ends_line number name.now lo hi (I.text at)) }
    ensures err { OnErr result (take (length out.old.items) out.new.items ≡ out.old.items) }
{
    add(number, name, out)?;
    add(lo, b" ", out)?;
    add(hi, b" at ", out)?;
    add(at, b"\n", out)
}

/// Adds a number in decimal, and a text; where memory runs out, a part of both may be there.
fn add<I: Integer>(number: I, text: &[u8], out: &mut Vec<u8>) -> Result<(), AllocError>
    ensures ok { OnOk result (out.new.items ≡ out.old.items ++ I.text number ++ text.now) }
    ensures err { OnErr result (take (length out.old.items) out.new.items ≡ out.old.items) }
{
    out.extend_from_slice(Buffer::new().format(number).as_bytes())?;
    out.extend_from_slice(text)
}
