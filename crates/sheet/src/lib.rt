// The day sheet: what is printed for an input, as a line of bytes.
#![tactic(auto)]

ghost use Rattle.std.specs.Prelude.{◌≡◌, ◌≤◌};
ghost use Rattle.days.specs.Days.{last_day};
ghost use Rattle.text.specs.Lines.{Holds};
ghost use Rattle.sheet.specs.Sheets.{two_lines, sheet_of};

use days::Day;
use panchanga::FIRST_EDITION;
use text::{Line, refusal_line};

// The heading and the day's numbers.
fn two_lines(number: u32) -> Line
    requires { number ≤ last_day }
    ensures { Holds result (two_lines number) }
{
    let day = Day::at(number);
    let elements = panchanga::of_day(FIRST_EDITION, day).unwrap();
    let started = Line::empty()
        .text(b"day cycle within weekday sun moon tithi nakshatra yoga karana\n")
        .number(number);
    let columns = [
        day.cycle,
        day.within,
        days::weekday_on(number),
        elements.sun,
        elements.moon,
        elements.tithi,
        elements.nakshatra,
        elements.yoga,
        elements.karana,
    ];
    started.numbers(&columns).byte(b'\n')
}

// All that is printed for an input.
#[tactic(auto, unfolding(crate::specs::Sheets::sheet_of))]
pub fn sheet(input: &[u8]) -> Line
    ensures { Holds result (sheet_of input.now) }
{
    match text::read_day(input) {
        Ok(number) => two_lines(number),
        Err(refusal) => refusal_line(refusal.number()),
    }
}
