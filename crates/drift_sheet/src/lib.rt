// The sheet of the three drifts over a span of days: what is printed for an input, line by line.
#![tactic(auto)]

ghost use Rattle.std.specs.Prelude.{◌≡◌, length};
ghost use Rattle.text.specs.Lines.{Holds};
ghost use Rattle.text.specs.Sheets.{line_at};
ghost use Rattle.drift_sheet.specs.DriftSheets.{drift_heading, drift_line_of, drifts_read, drift_lines};

use days::refusal::Refusal;
use older_motions::{Drifts, Farthest};
use text::Line;

// The heading, and a line for each of the three.
pub const LINES: usize = 4;

// The drifts over an input's span.
pub fn read_drifts(input: &[u8]) -> Result<Drifts, Refusal>
    ensures { result ≡ drifts_read input.now }
{
    let span = span_line::of_input(input)?;
    older_motions::drift(span.first, span.last)
}

fn heading() -> Line
    ensures { Holds result drift_heading }
{
    Line::empty().text(b"body numerator divisor day date\n")
}

fn body_line(body: usize, farthest: Farthest) -> Line
    ensures { Holds result (drift_line_of body farthest) }
{
    let names = words::BODY_NAMES;
    let name = words::name_at(&names, body);
    let fraction = Line::empty()
        .text(name)
        .byte(b' ')
        .wide_number(farthest.numerator)
        .byte(b' ')
        .wide_number(farthest.divisor)
        .byte(b' ');
    dated::put_day(fraction, farthest.day).byte(b'\n')
}

// How many lines are printed for drifts; a refusal is one.
pub fn line_count(drifts: Result<Drifts, Refusal>) -> usize
    ensures { result ≡ length (drift_lines drifts) }
{
    match drifts {
        Ok(_) => LINES,
        Err(_) => 1,
    }
}

// One of the lines that are printed for drifts, counted from 0; behind the last one nothing.
pub fn line(drifts: Result<Drifts, Refusal>, index: usize) -> Line
    ensures { Holds result (line_at (drift_lines drifts) index) }
{
    match (drifts, index) {
        (Ok(_), 0) => heading(),
        (Ok(drifts), 1) => body_line(0, drifts.sun),
        (Ok(drifts), 2) => body_line(1, drifts.moon),
        (Ok(drifts), 3) => body_line(2, drifts.apogee),
        (Err(refusal), 0) => text::refusal_line(refusal.number()),
        _ => Line::empty(),
    }
}
