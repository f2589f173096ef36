// What is printed and said of an almanac file: a month's heading and a line for each of its days, or its refusal and
// the block at fault.
#![tactic(auto)]

ghost use Rattle.std.specs.Prelude.{◌≡◌, length};
ghost use Rattle.text.specs.Lines.{with_bytes, Holds};
ghost use Rattle.text.specs.Sheets.{line_at};
ghost use Rattle.almanac_sheet.specs.AlmanacSheets.{fault_text, fault_line, day_line, days_lines, reading_lines};

use almanac::Reading;
use days::Day;
use days::refusal::{self, Refusal};
use text::Line;

fn with_reason(line: Line, refusal: u32) -> Line
    ensures { result ≡ with_bytes line (fault_text refusal) }
{
    match refusal {
        refusal::BAD_LENGTH => line.text(
            b"the file's length is not what its first block demands\n",
        ),
        refusal::BAD_CHECKSUM => line.text(b"the checksum does not hold\n"),
        refusal::BAD_INDEX => line.text(b"the index or the number of days is not the one due\n"),
        refusal::NOT_ZERO => line.text(b"a byte that should be zero is not\n"),
        _ => line.text(b"a day is not the one due, or its numbers are not its own\n"),
    }
}

// Which block of a file is at fault, and why.
pub fn fault(block: u32, refusal: u32) -> Line
    ensures { Holds result (fault_line block refusal) }
{
    let place = Line::empty().text(b"block ").number(block).text(b": ");
    with_reason(place, refusal)
}

// The line of a day, as a month's sheet has it; nothing for a number that is no day.
fn day_line(day: u64) -> Line
    ensures { Holds result (day_line day) }
{
    if (Day::LAST as u64) < day {
        return Line::empty();
    }
    let filled = records::record_of(panchanga::FIRST_EDITION, day as u32).unwrap();
    month_sheet::record_line(filled)
}

// How many lines are printed of what was read; a refusal is one.
pub fn line_count(reading: Result<Reading, Refusal>) -> usize
    ensures { result ≡ length (reading_lines reading) }
{
    match reading {
        Ok(reading) => 1 + reading.count as usize,
        Err(_) => 1,
    }
}

// One of the lines that are printed of what was read, counted from 0; behind the last one nothing.
pub fn line(reading: Result<Reading, Refusal>, index: usize) -> Line
    ensures { Holds result (line_at (reading_lines reading) index) }
{
    match reading {
        Ok(reading) => read_line(reading, index),
        Err(refusal) => {
            if index == 0 {
                return text::refusal_line(refusal.number());
            }
            Line::empty()
        }
    }
}

// The same of days that were read.
fn read_line(reading: Reading, index: usize) -> Line
    ensures { Holds result (line_at (days_lines reading) index) }
{
    if index == 0 {
        return month_sheet::heading();
    }
    if (reading.count as usize) < index {
        return Line::empty();
    }
    let before = index - 1;
    day_line(reading.first as u64 + before as u64)
}
