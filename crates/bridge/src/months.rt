// Rows of month starts in any edition: a row comes by its edition, its number of month starts and its number of days
// covered, as stored.
ghost use Rattle.std.specs.Prelude.{◌≡◌, ◌/◌, ◌≤◌};
ghost use Rattle.entries.specs.Entries.{capacity};
ghost use Rattle.days.specs.Refusals.{result_number};
ghost use Rattle.lunar_months.specs.Numbers.{month_numbers};
ghost use Rattle.lunar_months.specs.Rows.{new_row, extended_by, list_after, month_at};
ghost use Rattle.bridge.specs.Months.{row_of, together, starts_together, covered_together, month_together};

use days::refusal::result_number;
use lunar_months::{MonthNumbers, Months, month_numbers, row_numbers};

fn row(edition: u32, turns: u32, covered: u32) -> Months
    ensures { result ≡ row_of edition turns covered }
{
    let starts = turns as usize;
    Months {
        edition,
        starts,
        covered,
    }
}

// Two numbers as one: the first × 2³² and the lower 32 bits of the second.
fn joined(high: u32, low: usize) -> u64
    ensures { result ≡ together high low }
{
    let rest = (low % 4294967296) as u64;
    high as u64 * 4294967296 + rest
}

fn month(
    edition: u32,
    turns: u32,
    covered: u32,
    asked_edition: u32,
    day: u32,
    list: &[u8],
) -> MonthNumbers
    ensures { (result ≡ month_numbers (month_at (row_of edition turns covered) list.now asked_edition day)) × (result.number ≤ turns) }
{
    month_numbers(row(edition, turns, covered).month_at(list, asked_edition, day))
}

#[unsafe(no_mangle)]
pub extern "C" fn bridge_months_new(edition: u32) -> u32
    ensures { result ≡ result_number (new_row edition) }
{
    result_number(Months::new(edition))
}

// The refusal × 2³² and the number of month starts after the extension, with 7 the number that would do.
#[unsafe(no_mangle)]
pub extern "C" fn bridge_months_extend(
    edition: u32,
    turns: u32,
    covered: u32,
    days: u32,
    list: &mut [u8],
) -> u64
    ensures value { result ≡ starts_together (extended_by (row_of edition turns covered) days (capacity list.old)) }
    ensures list_after { list.new ≡ list_after (row_of edition turns covered) days list.old }
{
    let after = row_numbers(row(edition, turns, covered).extend(days, list));
    joined(after.refusal, after.starts)
}

// The refusal × 2³² and the number of days covered after the extension.
#[unsafe(no_mangle)]
pub extern "C" fn bridge_months_covered(
    edition: u32,
    turns: u32,
    covered: u32,
    days: u32,
    list_len: u32,
) -> u64
    ensures { result ≡ covered_together (extended_by (row_of edition turns covered) days (list_len / 4)) }
{
    let after = row_numbers(row(edition, turns, covered).extended(days, list_len as usize));
    joined(after.refusal, after.covered as usize)
}

// The number of month starts × 2³² and the latest one's day; 0 where there is none, and where it is refused.
#[unsafe(no_mangle)]
pub extern "C" fn bridge_month_at(
    edition: u32,
    turns: u32,
    covered: u32,
    asked_edition: u32,
    day: u32,
    list: &[u8],
) -> u64
    ensures { result ≡ month_together (month_numbers (month_at (row_of edition turns covered) list.now asked_edition day)) }
{
    let found = month(edition, turns, covered, asked_edition, day, list);
    if found.refusal != 0 {
        return 0;
    }
    joined(found.number as u32, found.start as usize)
}

#[unsafe(no_mangle)]
pub extern "C" fn bridge_month_at_result(
    edition: u32,
    turns: u32,
    covered: u32,
    asked_edition: u32,
    day: u32,
    list: &[u8],
) -> u32
    ensures { result ≡ (month_numbers (month_at (row_of edition turns covered) list.now asked_edition day)).refusal }
{
    month(edition, turns, covered, asked_edition, day, list).refusal
}
