// Prints Saka dates with their answers: year, months, tithis, weekday and whether an extra month is pending, then the
// refusal and the day.
#![tactic(auto)]

const STDOUT_FILENO: i32 = 1;

use days::refusal::result_number;
use saka::LunarDate;

// Year, months and tithis, without the mark.
const UNMARKED: [[u32; 3]; 22] = [
    // Paper 01's dates, and document 000's second and third example (docs/saka.md).
    [1534, 1, 14],
    [1442, 0, 0],
    [1555, 0, 0],
    [1530, 7, 0],
    // Years.
    [0, 0, 0],
    [1441, 0, 0],
    [2541, 0, 0],
    [2542, 0, 0],
    [4294967295, 0, 0],
    // The ends of the months and the tithis, and both out of range with the year.
    [1442, 11, 29],
    [1442, 12, 0],
    [1442, 0, 30],
    [1441, 12, 30],
    [4294967295, 4294967295, 4294967295],
    // The last year of a cycle, whose days may pass 4015, and the first of the next; C / 6 turns to 1 in 1508.
    [1452, 11, 29],
    [1453, 0, 0],
    [1507, 11, 29],
    [1508, 0, 0],
    // The reckoned day is one before the last, the last, one after it, and far past it.
    [2541, 5, 11],
    [2541, 5, 12],
    [2541, 5, 13],
    [2541, 11, 29],
];

// And with it.
const MARKED: [[u32; 3]; 15] = [
    // Document 000's second example, in whose year the extra month is still to come, and its first.
    [1555, 0, 0],
    [1534, 1, 14],
    // The quotient by 33 is 0: the first date, and the last in cycle 0 and in cycle 11, each with a date behind it
    // whose quotient is 1. Cycle 12 begins with 1.
    [1442, 0, 0],
    [1443, 10, 29],
    [1443, 11, 0],
    [1563, 0, 29],
    [1563, 1, 0],
    [1574, 0, 0],
    // The refusals, and the last days.
    [1441, 0, 0],
    [2542, 0, 0],
    [4294967295, 0, 0],
    [1442, 12, 0],
    [1441, 0, 30],
    [2541, 6, 12],
    [2541, 11, 29],
];

// Kept: no plainer in a crate of its own, as scan_days has the same two calls.
fn print(number: u32, end: &[u8]) {
    io::print_decimal(STDOUT_FILENO, number as u64);
    io::write_all(STDOUT_FILENO, end);
}

fn show(date: LunarDate) {
    print(date.year, b" ");
    print(date.months, b" ");
    print(date.tithis, b" ");
    if date.leap_month_pending {
        print(date.weekday, b" pending: ");
    } else {
        print(date.weekday, b": ");
    }
    let answer = saka::day_of(date);
    print(result_number(answer), b" ");
    print(answer.unwrap_or(0), b"\n");
}

// The date with every weekday, and with one that is out of range.
fn week([year, months, tithis]: [u32; 3], leap_month_pending: bool) {
    for weekday in 0..=7 {
        show(LunarDate {
            year,
            months,
            tithis,
            weekday,
            leap_month_pending,
        });
    }
}

fn main() {
    for date in UNMARKED {
        week(date, false);
    }
    for date in MARKED {
        week(date, true);
    }
}
