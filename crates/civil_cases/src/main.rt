// Dates to days and days to dates, one case to a line: month ends of common and leap years on both sides of 1582, then
// single dates, then days.
#![tactic(auto)]

use civil::Date;
use days::refusal::Refusal;

// Julian: common, leap, century. The year of the change. Gregorian: leap century, common, leap, common century.
const YEARS: [u32; 8] = [1521, 1524, 1500, 1582, 1600, 1603, 1604, 1700];

const SINGLES: [[u32; 3]; 26] = [
    [1520, 3, 18],
    [1520, 3, 19],
    [1520, 3, 20],
    [1520, 12, 31],
    [1521, 1, 1],
    [1582, 10, 4],
    [1582, 10, 5],
    [1582, 10, 10],
    [1582, 10, 14],
    [1582, 10, 15],
    [1583, 10, 10],
    [1581, 10, 10],
    [1582, 9, 10],
    [1700, 2, 29],
    [1700, 3, 1],
    [2000, 1, 1],
    [2000, 2, 29],
    [2100, 2, 29],
    [2619, 10, 13],
    [2619, 10, 14],
    [0, 2, 29],
    [1600, 0, 1],
    [1600, 13, 1],
    [1600, 1, 0],
    [4294967295, 12, 31],
    [4294967295, 2, 29],
];

const DAYS: [u32; 17] = [
    0, 1, 287, 288, 1442, 1443, 22844, 22845, 29191, 29192, 33649, 65715, 65716, 175229, 401599,
    401600, 4294967295,
];

fn print_refused(refusal: Refusal) {
    io::write_all(1, b"refused ");
    io::print_decimal(1, refusal.number() as u64);
}

fn print_date(date: Date) {
    io::print_decimal(1, date.year as u64);
    io::write_all(1, b"-");
    io::print_decimal(1, date.month as u64);
    io::write_all(1, b"-");
    io::print_decimal(1, date.day as u64);
}

fn print_day(day: u32) {
    io::write_all(1, b"day ");
    io::print_decimal(1, day as u64);
}

fn try_date(date: Date) {
    print_date(date);
    io::write_all(1, b": ");
    match civil::day_of(date) {
        Ok(day) => print_day(day),
        Err(refusal) => print_refused(refusal),
    }
    io::write_all(1, b"\n");
}

fn try_day(day: u32) {
    print_day(day);
    io::write_all(1, b": ");
    match civil::date_of(day) {
        Ok(date) => print_date(date),
        Err(refusal) => print_refused(refusal),
    }
    io::write_all(1, b"\n");
}

// The last days of each month, and the first ones after it.
fn try_year(year: u32) {
    for month in 1..=12 {
        for day in 28..=32 {
            try_date(Date { year, month, day });
        }
    }
}

fn main() {
    for year in YEARS {
        try_year(year);
    }
    for [year, month, day] in SINGLES {
        try_date(Date { year, month, day });
    }
    for day in DAYS {
        try_day(day);
    }
}
