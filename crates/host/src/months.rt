// The host's calls for leafing by lunar month: a row of month starts in edition 1, by its numbers of turns and of days
// covered, and its list of four bytes a turn.
ghost use Rattle.std.specs.Prelude.{◌≡◌, ◌/◌, ◌%◌, ◌≤◌};
ghost use Rattle.entries.specs.Entries.{capacity};
ghost use Rattle.panchanga.specs.TrueLongitudes.{first_edition};
ghost use Rattle.lunar_months.specs.Numbers.{row_numbers, month_numbers};
ghost use Rattle.lunar_months.specs.Rows.{extended_by, list_after, month_at};
ghost use Rattle.host.specs.Calls.{row_from};

use lunar_months::{MonthNumbers, Months, month_numbers, row_numbers};
use panchanga::FIRST_EDITION;

fn row(turns: u32, covered: u32) -> Months
    ensures { result ≡ row_from turns covered }
{
    let starts = turns as usize;
    Months {
        edition: FIRST_EDITION,
        starts,
        covered,
    }
}

fn month_at(turns: u32, covered: u32, day: u32, list: &[u8]) -> MonthNumbers
    ensures { (result ≡ month_numbers (month_at (row_from turns covered) list.now first_edition day)) × (result.number ≤ turns) }
{
    month_numbers(row(turns, covered).month_at(list, FIRST_EDITION, day))
}

// The refusal, or 0 with the month starts of so many days more written behind those in the list: four bytes a day, low
// byte first.
#[unsafe(no_mangle)]
pub extern "C" fn graha_months_extend(turns: u32, covered: u32, days: u32, list: &mut [u8]) -> u32
    ensures value { result ≡ (row_numbers (extended_by (row_from turns covered) days (capacity list.old))).refusal }
    ensures list_after { list.new ≡ list_after (row_from turns covered) days list.old }
{
    row_numbers(row(turns, covered).extend(days, list)).refusal
}

// The number of turns after it, or with 7 the number that would do; a number of 32 bits, as a row has (only a list of
// 16 GiB could have more).
#[unsafe(no_mangle)]
pub extern "C" fn graha_months_extended_turns(
    turns: u32,
    covered: u32,
    days: u32,
    list_len: usize,
) -> u32
    ensures { result ≡ (row_numbers (extended_by (row_from turns covered) days (list_len / 4))).starts % 4294967296 }
{
    let extended = row_numbers(row(turns, covered).extended(days, list_len));
    (extended.starts % 4294967296) as u32
}

#[unsafe(no_mangle)]
pub extern "C" fn graha_month_result(turns: u32, covered: u32, day: u32, list: &[u8]) -> u32
    ensures { result ≡ (month_numbers (month_at (row_from turns covered) list.now first_edition day)).refusal }
{
    month_at(turns, covered, day, list).refusal
}

// The day of the latest month start at or before the day.
#[unsafe(no_mangle)]
pub extern "C" fn graha_month_start(turns: u32, covered: u32, day: u32, list: &[u8]) -> u32
    ensures { result ≡ (month_numbers (month_at (row_from turns covered) list.now first_edition day)).start }
{
    month_at(turns, covered, day, list).start
}

// How many month starts there were up to it; 0 where there is none, and with 7 the number that would do.
#[unsafe(no_mangle)]
pub extern "C" fn graha_month_number(turns: u32, covered: u32, day: u32, list: &[u8]) -> u32
    ensures { result ≡ (month_numbers (month_at (row_from turns covered) list.now first_edition day)).number }
{
    month_at(turns, covered, day, list).number as u32
}
