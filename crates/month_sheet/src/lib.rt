// The almanac desk's sheet of a month: what is printed for an input, line by line.
#![tactic(auto)]

ghost use Rattle.std.specs.Prelude.{◌≡◌, length};
ghost use Rattle.text.specs.Lines.{Holds};
ghost use Rattle.text.specs.Sheets.{line_at};
ghost use Rattle.month_sheet.specs.MonthSheets.{month_heading, record_line, month_lines, month_read};

use days::refusal::Refusal;
use records::{DayRecord, MONTH};
use text::Line;

// The heading, and a line for each record.
pub const LINES: usize = 1 + MONTH;

// The month from an input's day on, in the first edition.
pub fn read_month(input: &[u8]) -> Result<[DayRecord; MONTH], Refusal>
    ensures { result ≡ month_read input.now }
{
    let first = text::read_day(input)?;
    records::month_from(panchanga::FIRST_EDITION, first)
}

pub fn heading() -> Line
    ensures { Holds result month_heading }
{
    Line::empty().text(
        b"day weekday sun moon apogee node mars mercury jupiter venus saturn true_sun true_moon tithi nakshatra yoga karana\n",
    )
}

// A record's numbers in the heading's order. One that is no day's may have too many digits for a line, and is refused.
pub fn record_line(filled: DayRecord) -> Line
    ensures { Holds result (record_line filled) }
{
    let means = filled.longitudes;
    let elements = [
        filled.sun,
        filled.moon,
        filled.tithi,
        filled.nakshatra,
        filled.yoga,
        filled.karana,
    ];
    Line::empty()
        .number(filled.day)
        .numbers(&[filled.weekday])
        .numbers(&means)
        .numbers(&elements)
        .ended()
}

// How many lines are printed for a month; a refusal is one.
pub fn line_count(month: Result<[DayRecord; MONTH], Refusal>) -> usize
    ensures { result ≡ length (month_lines month) }
{
    match month {
        Ok(_) => LINES,
        Err(_) => 1,
    }
}

// One of the lines that are printed for a month, counted from 0; behind the last one nothing.
pub fn line(month: Result<[DayRecord; MONTH], Refusal>, index: usize) -> Line
    ensures { Holds result (line_at (month_lines month) index) }
{
    match month {
        Ok(_) if index == 0 => heading(),
        Ok(records) if index < LINES => record_line(records[index - 1]),
        Err(refusal) if index == 0 => text::refusal_line(refusal.number()),
        _ => Line::empty(),
    }
}
