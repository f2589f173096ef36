// Civil dates: Julian up to 4 October 1582, Gregorian from 15 October 1582.
#![tactic(auto)]

ghost use Rattle.std.specs.Prelude.{◌≡◌, ◌+◌, ◌*◌, ◌≤◌, ◌<◌};
ghost use Rattle.days.specs.Days.{last_day};
ghost use Rattle.civil.specs.Calendar.{leap, month_days, lost, date_exists, date_on};
ghost use Rattle.civil.specs.Answers.{day_of_date, date_of_day, date_or_zeros};
ghost use Rattle.civil.specs.Serial.{since_march, march_year, year_start, before, gregorian, InYear, serial_of};

use days::Day;
use days::refusal::Refusal;

#[derive(Clone, Copy, Debug, PartialEq, Eq)]
pub struct Date {
    pub year: u32,
    pub month: u32,
    pub day: u32,
}

impl Date {
    // What stands for the date of a number that is no day's.
    pub const ZEROS: Date = Date {
        year: 0,
        month: 0,
        day: 0,
    };
}

// Serial numbers count the days from 1 March 400 Julian years before that of year 0: the Julian Day Number of serial
// number 0.
const SERIAL_START: u32 = 1575018;

// The serial numbers of day 0, from the epoch's Julian Day Number and number, and of 15 October 1582.
const DAY_0_SERIAL: u64 = (Day::EPOCH_JULIAN_DAY - Day::FIRST - SERIAL_START) as u64;

const GREGORIAN_SERIAL: u64 = 724143;

// Year 0 is counted as 400, the year 1582 as 1982: January of year 0 falls in the year that began in the March before,
// which so is 399 and not below 0. After 400 years the leap years repeat.
const YEAR_0: u64 = 400;

// 4 October 1582 in the dates' order: 214 days from 1 March to 1 October, and 3. No year has 400 days.
const LAST_JULIAN_STAMP: u64 = 400 * (1582 + YEAR_0) + 217;

// Months are counted from March, so that the leap day comes last: March is 0, January 10, February 11.
fn since_march(month: u32) -> u32
    requires { month ≤ 12 }
    ensures { result ≡ since_march month }
{
    (month + 9) % 12
}

// The days from 1 March to the first day of the month m, counted from March as 0. Five months in a row have 153 days:
// 31, 30, 31, 30 and 31, from March on and again from August on (docs/rules.md).
fn days_before(m: u32) -> u32
    requires { m < 12 }
    ensures { (result ≡ before m) × (result ≤ 337) }
{
    (153 * m + 2) / 5
}

#[tactic(auto, unfolding(crate::specs::Calendar::leap))]
fn is_leap(year: u32) -> bool
    ensures { result ≡ leap year }
{
    year % 4 == 0 && (year <= 1582 || year % 100 != 0 || year % 400 == 0)
}

fn month_days(year: u32, month: u32) -> u32
    requires { (1 ≤ month) × (month ≤ 12) }
    ensures { result ≡ month_days year month }
{
    if month == 2 {
        if is_leap(year) { 29 } else { 28 }
    } else {
        let m = since_march(month);
        let end = days_before(m + 1);
        end - days_before(m)
    }
}

// 5 to 14 October 1582.
// Kept: as one condition, tried, `day_of` takes 131 instructions on average in place of 122.
#[tactic(auto, unfolding(crate::specs::Calendar::lost))]
fn is_lost(date: Date) -> bool
    ensures { result ≡ lost date }
{
    if date.year != 1582 {
        return false;
    }
    if date.month != 10 {
        return false;
    }
    if date.day <= 4 {
        return false;
    }
    date.day < 15
}

// There is such a date.
#[tactic(auto, unfolding(crate::specs::Calendar::date_exists))]
pub fn exists(date: Date) -> bool
    ensures { result ≡ date_exists date }
{
    (1..=12).contains(&date.month)
        && (1..=month_days(date.year, date.month)).contains(&date.day)
        && !is_lost(date)
}

fn year_start(gregorian: bool, year: u64) -> u64
    requires { year < 4294967696 }
    ensures { (result ≡ year_start gregorian year) × (result ≤ 366 * year + 5) }
{
    if gregorian {
        365 * year + year / 4 - year / 100 + year / 400 + 5
    } else {
        365 * year + year / 4
    }
}

// The year that began in the last March, counted as YEAR_0 says: below 2^32 + 400.
fn march_year(year: u32, month: u32) -> u64
    ensures { (result ≡ march_year year month) × (result < 4294967696) }
{
    let counted = year as u64 + YEAR_0;
    if month < 3 { counted - 1 } else { counted }
}

// The day, counted from 1 March as 0, is after 4 October 1582.
fn is_gregorian(year: u64, day: u64) -> bool
    requires { (year < 4294967696) × (day < 400) }
    ensures { result ≡ gregorian year day }
{
    LAST_JULIAN_STAMP < 400 * year + day
}

#[tactic(auto, unfolding(crate::specs::Serial::serial_of))]
fn serial(date: Date) -> u64
    requires { (1 ≤ date.day) × ((date.day ≤ 31) × (date.month ≤ 12)) }
    ensures { result ≡ serial_of date }
{
    let year = march_year(date.year, date.month);
    let day = (days_before(since_march(date.month)) + date.day - 1) as u64;
    year_start(is_gregorian(year, day), year) + day
}

// The day of a date.
pub fn day_of(date: Date) -> Result<u32, Refusal>
    ensures { result ≡ day_of_date date }
{
    if !exists(date) {
        return Err(Refusal::NoSuchDate);
    }
    let serial = serial(date);
    if DAY_0_SERIAL <= serial {
        let number = serial - DAY_0_SERIAL;
        if number <= Day::LAST as u64 {
            return Ok(number as u32);
        }
    }
    Err(Refusal::OutOfRange)
}

// The year, from March on, that a serial number falls in: by centuries of 36524 or 36525 days, and years of 365 or 366.
fn year_of(gregorian: bool, serial: u64) -> u64
    requires { (5 ≤ serial) × (serial < 2000000) }
    ensures { InYear gregorian serial result × (result < 6000) }
{
    if gregorian {
        let since = serial - 5;
        let century = (4 * since + 3) / 146097;
        let within = since - (36524 * century + century / 4);
        100 * century + (4 * within + 3) / 1461
    } else {
        (4 * serial + 3) / 1461
    }
}

// Each month has 153 / 5 days, near enough that the quotient is the month, counted from March as 0.
fn date_at(day: u32) -> Date
    requires { day ≤ last_day }
    ensures { result ≡ date_on day }
{
    let serial = day as u64 + DAY_0_SERIAL;
    let gregorian = GREGORIAN_SERIAL <= serial;
    let year = year_of(gregorian, serial);
    let within = (serial - year_start(gregorian, year)) as u32;
    let m = (5 * within + 2) / 153;
    let day = within - days_before(m) + 1;
    let year = (year - YEAR_0) as u32;
    if m < 10 {
        let month = m + 3;
        Date { year, month, day }
    } else {
        let year = year + 1;
        let month = m - 9;
        Date { year, month, day }
    }
}

// The date of a day.
#[tactic(auto, unfolding(crate::specs::Answers::date_of_day))]
pub fn date_of(day: u32) -> Result<Date, Refusal>
    ensures { result ≡ date_of_day day }
{
    if Day::LAST < day {
        return Err(Refusal::OutOfRange);
    }
    Ok(date_at(day))
}

// The date of a day, and zeros for a number that is no day's: for those that put it on a line.
pub fn date_or_zeros(day: u32) -> Date
    ensures { result ≡ date_or_zeros day }
{
    date_of(day).unwrap_or(Date::ZEROS)
}
