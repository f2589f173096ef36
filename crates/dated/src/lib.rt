// A day as a line names it: its number, its date, and its weekday's name; its number and its date as a table has them;
// and an angle as a page writes it.
#![tactic(auto)]

ghost use Rattle.std.specs.Prelude.{◌≡◌};
ghost use Rattle.text.specs.Lines.{with_bytes};
ghost use Rattle.names.specs.Columns.{aligned};
ghost use Rattle.text.specs.Decimal.{digits_of};
ghost use Rattle.dated.specs.Dated.{two_digits, date_bytes, full_date_bytes, day_bytes, named_day_bytes, angle_bytes};

use civil::Date;
use days::Day;
use text::Line;

// `YEAR-MONTH-DAY`.
#[tactic(auto, using(crate::proofs::Puts::puts), unfolding(crate::specs::Dated::date_bytes))]
pub fn put_date(line: Line, date: Date) -> Line
    ensures { result ≡ with_bytes line (date_bytes date) }
{
    line.number(date.year)
        .byte(b'-')
        .number(date.month)
        .byte(b'-')
        .number(date.day)
}

// A number's last two digits.
#[tactic(auto, using(crate::proofs::Puts::puts))]
fn put_two_digits(line: Line, number: u32) -> Line
    ensures { result ≡ with_bytes line (two_digits number) }
{
    let tens = (number / 10 % 10) as u8;
    let ones = (number % 10) as u8;
    line.byte(b'0' + tens).byte(b'0' + ones)
}

// A date of four, two and two digits.
pub fn put_full_date(line: Line, date: Date) -> Line
    ensures { result ≡ with_bytes line (full_date_bytes date) }
{
    let century = put_two_digits(line, date.year / 100);
    let year = put_two_digits(century, date.year);
    let month = put_two_digits(year.byte(b'-'), date.month);
    put_two_digits(month.byte(b'-'), date.day)
}

// A number with blanks in front of it, up to so many bytes.
pub fn put_aligned(line: Line, number: u32, width: usize) -> Line
    ensures { result ≡ with_bytes line (aligned width (digits_of number)) }
{
    let digits = Line::empty().number(number);
    names::put_blanks(line, digits.len, width).number(number)
}

// A day's number and its date.
#[tactic(auto, using(crate::proofs::Puts::puts), unfolding(crate::specs::Dated::day_bytes))]
pub fn put_day(line: Line, day: u32) -> Line
    ensures { result ≡ with_bytes line (day_bytes day) }
{
    put_date(line.number(day).byte(b' '), civil::date_or_zeros(day))
}

// And its weekday's name.
pub fn put_named_day(line: Line, day: u32) -> Line
    ensures { result ≡ with_bytes line (named_day_bytes day) }
{
    let weekday = Day::at(day).weekday().unwrap_or(0);
    let names = words::WEEKDAYS;
    let name = words::name_at(&names, weekday as usize);
    put_day(line, day).byte(b' ').text(name)
}

// An angle, `D:M:S`.
#[tactic(auto, using(crate::proofs::Puts::puts), unfolding(crate::specs::Dated::angle_bytes))]
pub fn put_angle(line: Line, seconds: u32) -> Line
    ensures { result ≡ with_bytes line (angle_bytes seconds) }
{
    line.number(seconds / 3600)
        .byte(b':')
        .number(seconds / 60 % 60)
        .byte(b':')
        .number(seconds % 60)
}
