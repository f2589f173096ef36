// The printers' sheet of signs: what is printed for an input, line by line.
#![tactic(auto)]

ghost use Rattle.std.specs.Prelude.{◌≡◌, List, ℕ, ◌≤◌, length};
ghost use Rattle.days.specs.Days.{last_day};
ghost use Rattle.entries.specs.Entries.{capacity, entry_at};
ghost use Rattle.text.specs.Lines.{Holds};
ghost use Rattle.text.specs.Sheets.{line_at};
ghost use Rattle.sign_sheet.specs.SignSheets.{sun_meant, sign_heading, sign_line, sign_lines_for, listed_line, lines_listed, listing_lines, listed_for, list_for};

use days::Day;
use entries::NotPut;
use text::Line;
use zodiac::Sun;

// The most entries that a span has, by either Sun: those of all days.
pub const MOST_ENTRIES: usize = 13194;

// The bytes of a list for so many entries, into which those of every span go.
pub const LIST: usize = entries::ENTRY_BYTES * MOST_ENTRIES;

// By which Sun entries are listed, and how many they are.
#[derive(Clone, Copy)]
pub struct Listed {
    pub sun: Sun,
    pub listing: Result<u32, NotPut>,
}

// The true Sun where the word `true` stands behind the days, else the mean one.
fn sun_meant(marked: bool) -> Sun
    ensures { result ≡ sun_meant marked }
{
    if marked { Sun::True } else { Sun::Mean }
}

// The entries of the span that an input means, put at the front of the list; their lines are those that are printed for
// it.
pub fn list_entries(input: &[u8], list: &mut [u8; LIST]) -> Listed
    ensures value { result ≡ listed_for input.now (capacity list.old) }
    ensures list_after { list.new ≡ list_for input.now list.old }
    ensures list_after_2 { listing_lines result.sun result.listing list.new ≡ sign_lines_for input.now }
{
    let asked = span_line::of_marked_input(input, b"true");
    let sun = sun_meant(asked.marked);
    match asked.span {
        Ok(span) => {
            let listing = zodiac::entries_by(sun, span.first, span.last, list);
            Listed { sun, listing }
        }
        Err(refusal) => Listed {
            sun,
            listing: Err(NotPut::Refused(refusal)),
        },
    }
}

fn heading() -> Line
    ensures { Holds result sign_heading }
{
    Line::empty().text(b"day date weekday sign\n")
}

fn entry_line(sun: Sun, day: u32) -> Line
    requires { day ≤ last_day }
    ensures { Holds result (sign_line sun day) }
{
    let sign = zodiac::sign_by(sun, Day::at(day)).unwrap();
    dated::put_named_day(Line::empty(), day)
        .numbers(&[sign])
        .byte(b'\n')
}

// The line of an entry of the list; nothing where it has none, or one that is no day.
fn listed_line(sun: Sun, list: &[u8], index: usize) -> Line
    ensures { Holds result (listed_line sun (entry_at list.now index)) }
{
    let Ok(due) = entries::entry_at(list, index) else {
        return Line::empty();
    };
    if Day::LAST < due {
        return Line::empty();
    }
    entry_line(sun, due)
}

// How many lines are printed for a listing; a refusal is one.
pub fn line_count(listing: Result<u32, NotPut>) -> usize
    ensures { (sun : Sun) (list : List ℕ) → result ≡ length (listing_lines sun listing list) }
{
    match listing {
        Ok(length) => 1 + length as usize,
        Err(_) => 1,
    }
}

// One of the lines that are printed for a listing, counted from 0; behind the last one nothing.
pub fn line(sun: Sun, listing: Result<u32, NotPut>, list: &[u8; LIST], index: usize) -> Line
    ensures { Holds result (line_at (listing_lines sun listing list.now) index) }
{
    match listing {
        Ok(length) => line_of(sun, length, list, index),
        Err(not) => {
            if index == 0 {
                return text::refusal_line(not.refusal().number());
            }
            Line::empty()
        }
    }
}

// The same for so many entries.
fn line_of(sun: Sun, length: u32, list: &[u8; LIST], index: usize) -> Line
    ensures { Holds result (line_at (lines_listed sun length list.now) index) }
{
    if index == 0 {
        return heading();
    }
    if (length as usize) < index {
        return Line::empty();
    }
    listed_line(sun, list, index - 1)
}
