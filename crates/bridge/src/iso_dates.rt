// ISO dates and lines of days as C calls: the refusal's number times 2^32, and with it the day, the date as one number,
// or the length (what of it is below 2^32).
ghost use Rattle.std.specs.Prelude.{◌≡◌, ◌<◌, length};
ghost use Rattle.iso.specs.Calendar.{iso_day_of, iso_date_of};
ghost use Rattle.date_lines.specs.Texts.{list_answer, list_after, text_answer, text_after};
ghost use Rattle.bridge.specs.Iso.{in_one, digits, day_in_one, date_in_one, length_in_one};

use civil::Date;
use date_lines::{Kind, NotConverted, conversion_number, length_told};
use days::refusal::result_number;

fn in_one(refusal: u32, number: u64) -> u64
    requires { number < 4294967296 }
    ensures { result ≡ in_one refusal number }
{
    4294967296 * refusal as u64 + number
}

fn length_in_one(done: Result<usize, NotConverted>) -> u64
    ensures { result ≡ length_in_one done }
{
    in_one(
        conversion_number(done),
        (length_told(done) % 4294967296) as u64,
    )
}

#[unsafe(no_mangle)]
pub extern "C" fn bridge_iso_day(year: u32, month: u32, day: u32) -> u64
    ensures { result ≡ day_in_one (iso_day_of (record { year = year; month = month; day = day })) }
{
    let answer = iso::day_of(Date { year, month, day });
    in_one(result_number(answer), answer.unwrap_or(0) as u64)
}

fn digits(date: Date) -> u64
    ensures { result ≡ digits date }
{
    10000 * date.year as u64 + 100 * date.month as u64 + date.day as u64
}

// The date as the number of its digits.
#[unsafe(no_mangle)]
pub extern "C" fn bridge_iso_date(day: u32) -> u64
    ensures { result ≡ date_in_one (iso_date_of day) }
{
    let answer = iso::date_of(day);
    in_one(result_number(answer), answer.map_or(0, digits))
}

#[unsafe(no_mangle)]
pub extern "C" fn bridge_dates_to_list(text: &[u8], list: &mut [u8]) -> u64
    ensures value { result ≡ length_in_one (list_answer Kind.Dates (length text.now) text.now list.old) }
    ensures list_after { list.new ≡ list_after Kind.Dates (length text.now) text.now list.old }
{
    let most = text.len();
    length_in_one(date_lines::lines_to_list(Kind::Dates, text, most, list))
}

#[unsafe(no_mangle)]
pub extern "C" fn bridge_days_to_list(text: &[u8], list: &mut [u8]) -> u64
    ensures value { result ≡ length_in_one (list_answer Kind.Days (length text.now) text.now list.old) }
    ensures list_after { list.new ≡ list_after Kind.Days (length text.now) text.now list.old }
{
    let most = text.len();
    length_in_one(date_lines::lines_to_list(Kind::Days, text, most, list))
}

#[unsafe(no_mangle)]
pub extern "C" fn bridge_list_to_dates(list: &[u8], text: &mut [u8]) -> u64
    ensures value { result ≡ length_in_one (text_answer Kind.Dates list.now text.old) }
    ensures text_after { text.new ≡ text_after Kind.Dates list.now text.old }
{
    length_in_one(date_lines::list_to_lines(Kind::Dates, list, text))
}

#[unsafe(no_mangle)]
pub extern "C" fn bridge_list_to_days(list: &[u8], text: &mut [u8]) -> u64
    ensures value { result ≡ length_in_one (text_answer Kind.Days list.now text.old) }
    ensures text_after { text.new ≡ text_after Kind.Days list.now text.old }
{
    length_in_one(date_lines::list_to_lines(Kind::Days, list, text))
}
