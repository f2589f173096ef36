// The engravers' plate: a day's nine mean longitudes in degrees, minutes, seconds and thirds, line by line.
#![tactic(auto)]

ghost use Rattle.std.specs.Prelude.{◌≡◌, ◌<◌, ◌≤◌, length};
ghost use Rattle.days.specs.Days.{last_day};
ghost use Rattle.text.specs.Lines.{Holds};
ghost use Rattle.text.specs.Sheets.{line_at};
ghost use Rattle.plate.specs.Plates.{plate_heading, body_line, lines_of, plate_lines};

use days::Day;
use text::Line;

// The heading, and a line for each body.
pub const LINES: usize = 1 + longitudes::BODIES;

fn heading() -> Line
    ensures { Holds result plate_heading }
{
    Line::empty().text(b"body degrees minutes seconds thirds\n")
}

fn body_line(body: usize, seconds: u32, thirds: u32) -> Line
    requires { (body < 9) × (seconds < 1296000) × (thirds < 60) }
    ensures { Holds result (body_line body seconds thirds) }
{
    let names = words::BODY_NAMES;
    let name = words::name_at(&names, body);
    let columns = [seconds / 3600, seconds / 60 % 60, seconds % 60, thirds];
    Line::empty().text(name).numbers(&columns).byte(b'\n')
}

// How many lines are printed for an input; a refusal is one.
#[tactic(auto, unfolding(crate::specs::Plates::plate_lines, crate::specs::Plates::body_lines))]
pub fn line_count(input: &[u8]) -> usize
    ensures { result ≡ length (plate_lines input.now) }
{
    match text::read_day(input) {
        Ok(_) => LINES,
        Err(_) => 1,
    }
}

// One of the lines of a day; behind the last one nothing.
fn day_line(number: u32, index: usize) -> Line
    requires { number ≤ last_day }
    ensures { Holds result (line_at (lines_of number) index) }
{
    if index == 0 {
        return heading();
    }
    if LINES <= index {
        return Line::empty();
    }
    let body = index - 1;
    let all = longitudes::mean_longitudes(Day::at(number)).unwrap();
    let longitudes = all.longitudes;
    let thirds = all.thirds;
    body_line(body, longitudes[body], thirds[body])
}

// One of the lines that are printed for an input, counted from 0; behind the last one nothing.
#[tactic(auto, unfolding(crate::specs::Plates::plate_lines))]
pub fn line(input: &[u8], index: usize) -> Line
    ensures { Holds result (line_at (plate_lines input.now) index) }
{
    match text::read_day(input) {
        Ok(number) => day_line(number, index),
        Err(refusal) if index == 0 => text::refusal_line(refusal.number()),
        Err(_) => Line::empty(),
    }
}
