// The sheet of a lunar month: what is printed for an input that asks for a day.
#![tactic(auto)]

ghost use Rattle.std.specs.Prelude.{◌≡◌, ◌≤◌, IfSome};
ghost use Rattle.days.specs.Days.{last_day};
ghost use Rattle.text.specs.Lines.{Holds};
ghost use Rattle.lunar_month_sheet.specs.MonthSheets.{edition_read, asked, asked_line, asked_input, month_sheet, month_printed};

use days::refusal::{Refusal, result_number};
use lunar_months::MonthStart;
use panchanga::{FIRST_EDITION, is_edition};
use text::{Line, TOO_LONG};
use words::{after_word, first_word, run_length, up_to};

// What an input asks.
#[derive(Clone, Copy)]
struct Asked {
    day: u32,
    edition: u32,
}

#[tactic(auto, unfolding(crate::specs::MonthSheets::edition_read))]
fn read_edition(word: &[u8]) -> Result<u32, Refusal>
    ensures { result ≡ edition_read word.now }
{
    if word.len() == 0 {
        return Ok(FIRST_EDITION);
    }
    text::read_decimal(word)
}

// A day or an edition of another form comes first, then a number that is no edition, then the day's own refusal.
fn both(day: Result<u32, Refusal>, edition: Result<u32, Refusal>) -> Result<Asked, Refusal>
    ensures { result ≡ asked day edition }
{
    let Ok(edition) = edition else {
        return Err(Refusal::BadInput);
    };
    if result_number(day) == Refusal::BadInput.number() {
        return Err(Refusal::BadInput);
    }
    if !is_edition(edition) {
        return Err(Refusal::BadEdition);
    }
    let day = day?;
    Ok(Asked { day, edition })
}

// The day and the edition of a line that has no third word.
fn read_words(line: &[u8]) -> Result<Asked, Refusal>
    ensures { result ≡ asked_line line.now }
{
    let body = up_to(line, b'#');
    let others = after_word(body);
    let more = first_word(after_word(others));
    if more.len() != 0 {
        return Err(Refusal::BadInput);
    }
    both(
        values::day(first_word(body)),
        read_edition(first_word(others)),
    )
}

fn read_input(input: &[u8]) -> Result<Asked, Refusal>
    ensures { result ≡ asked_input input.now }
{
    if TOO_LONG <= input.len() {
        return Err(Refusal::BadInput);
    }
    let end = run_length(input, b'\n', false);
    if end + 1 != input.len() {
        return Err(Refusal::BadInput);
    }
    read_words(up_to(input, b'\n'))
}

// The heading and the day's line.
fn two_lines(day: u32, month: Option<MonthStart>) -> Line
    requires { (day ≤ last_day) × IfSome month (λ s. (s.day ≤ last_day) × (s.number ≤ last_day)) }
    ensures { Holds result (month_sheet day month) }
{
    let started = Line::empty().text(b"day date turns turn date\n");
    let line = dated::put_day(started, day).byte(b' ');
    match month {
        None => line.text(b"0 - -\n"),
        Some(start) => {
            let begun = line.wide_number(start.number as u64).byte(b' ');
            dated::put_day(begun, start.day).byte(b'\n')
        }
    }
}

// All that is printed for an input.
pub fn sheet(input: &[u8]) -> Line
    ensures { Holds result (month_printed input.now) }
{
    let asked = match read_input(input) {
        Ok(asked) => asked,
        Err(refusal) => return text::refusal_line(refusal.number()),
    };
    match lunar_months::month_on(asked.edition, asked.day) {
        Ok(month) => two_lines(asked.day, month),
        Err(refused) => text::refusal_line(refused.number()),
    }
}
