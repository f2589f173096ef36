// Days, pairs, civil dates and Saka lunar dates.
ghost use Rattle.std.specs.Prelude.{false, ◌≡◌};
ghost use Rattle.std.specs.Result.{result_unwrap_or};
ghost use Rattle.days.specs.Refusals.{result_number, part_or_zero};
ghost use Rattle.days.specs.Days.{day_of, number_of, next_of};
ghost use Rattle.civil.specs.Answers.{day_of_date, date_of_day};
ghost use Rattle.saka.specs.LunarDays.{lunar_day};
ghost use Rattle.host.specs.Calls.{date_from, pair_from, lunar_date_from, mark_from};

use civil::Date;
use days::Day;
use days::refusal::{Refusal, result_number};
use saka::LunarDate;

// Kept: year, months and tithis travel one by one in C's interface, and here become a `LunarDate`.
fn day_of_lunar_date(
    year: u32,
    months: u32,
    tithis: u32,
    weekday: u32,
    leap_month_pending: bool,
) -> Result<u32, Refusal>
    ensures { result ≡ lunar_day (lunar_date_from year months tithis weekday leap_month_pending) }
{
    saka::day_of(LunarDate {
        year,
        months,
        tithis,
        weekday,
        leap_month_pending,
    })
}

#[unsafe(no_mangle)]
pub extern "C" fn graha_date_result(year: u32, month: u32, day: u32) -> u32
    ensures { result ≡ result_number (day_of_date (date_from year month day)) }
{
    result_number(civil::day_of(Date { year, month, day }))
}

#[unsafe(no_mangle)]
pub extern "C" fn graha_date_day(year: u32, month: u32, day: u32) -> u32
    ensures { result ≡ result_unwrap_or (day_of_date (date_from year month day)) 0 }
{
    civil::day_of(Date { year, month, day }).unwrap_or(0)
}

#[unsafe(no_mangle)]
pub extern "C" fn graha_day_result(day: u32) -> u32
    ensures { result ≡ result_number (day_of day) }
{
    result_number(Day::from_number(day))
}

#[unsafe(no_mangle)]
pub extern "C" fn graha_day_year(day: u32) -> u32
    ensures { result ≡ part_or_zero (λ x. x.year) (date_of_day day) }
{
    civil::date_of(day).map_or(0, |date| date.year)
}

#[unsafe(no_mangle)]
pub extern "C" fn graha_day_month(day: u32) -> u32
    ensures { result ≡ part_or_zero (λ x. x.month) (date_of_day day) }
{
    civil::date_of(day).map_or(0, |date| date.month)
}

#[unsafe(no_mangle)]
pub extern "C" fn graha_day_of_month(day: u32) -> u32
    ensures { result ≡ part_or_zero (λ x. x.day) (date_of_day day) }
{
    civil::date_of(day).map_or(0, |date| date.day)
}

#[unsafe(no_mangle)]
pub extern "C" fn graha_day_cycle(day: u32) -> u32
    ensures { result ≡ part_or_zero (λ d. d.cycle) (day_of day) }
{
    Day::from_number(day).map_or(0, |day| day.cycle)
}

#[unsafe(no_mangle)]
pub extern "C" fn graha_day_within(day: u32) -> u32
    ensures { result ≡ part_or_zero (λ d. d.within) (day_of day) }
{
    Day::from_number(day).map_or(0, |day| day.within)
}

#[unsafe(no_mangle)]
pub extern "C" fn graha_pair_result(cycle: u32, within: u32) -> u32
    ensures { result ≡ result_number (number_of (pair_from cycle within)) }
{
    result_number(Day { cycle, within }.number())
}

#[unsafe(no_mangle)]
pub extern "C" fn graha_pair_day(cycle: u32, within: u32) -> u32
    ensures { result ≡ result_unwrap_or (number_of (pair_from cycle within)) 0 }
{
    Day { cycle, within }.number().unwrap_or(0)
}

#[unsafe(no_mangle)]
pub extern "C" fn graha_next_result(cycle: u32, within: u32) -> u32
    ensures { result ≡ result_number (next_of (pair_from cycle within)) }
{
    result_number(Day { cycle, within }.next())
}

#[unsafe(no_mangle)]
pub extern "C" fn graha_next_cycle(cycle: u32, within: u32) -> u32
    ensures { result ≡ part_or_zero (λ d. d.cycle) (next_of (pair_from cycle within)) }
{
    Day { cycle, within }.next().map_or(0, |day| day.cycle)
}

#[unsafe(no_mangle)]
pub extern "C" fn graha_next_within(cycle: u32, within: u32) -> u32
    ensures { result ≡ part_or_zero (λ d. d.within) (next_of (pair_from cycle within)) }
{
    Day { cycle, within }.next().map_or(0, |day| day.within)
}

#[unsafe(no_mangle)]
pub extern "C" fn graha_saka_result(year: u32, months: u32, tithis: u32, weekday: u32) -> u32
    ensures { result ≡ result_number (lunar_day (lunar_date_from year months tithis weekday false)) }
{
    result_number(day_of_lunar_date(year, months, tithis, weekday, false))
}

#[unsafe(no_mangle)]
pub extern "C" fn graha_saka_day(year: u32, months: u32, tithis: u32, weekday: u32) -> u32
    ensures { result ≡ result_unwrap_or (lunar_day (lunar_date_from year months tithis weekday false)) 0 }
{
    day_of_lunar_date(year, months, tithis, weekday, false).unwrap_or(0)
}

// Any `pending` but 0 says that this year's extra month is still to come.
#[unsafe(no_mangle)]
pub extern "C" fn graha_saka_pending_result(
    year: u32,
    months: u32,
    tithis: u32,
    weekday: u32,
    pending: u32,
) -> u32
    ensures { result ≡ result_number (lunar_day (lunar_date_from year months tithis weekday (mark_from pending))) }
{
    result_number(day_of_lunar_date(year, months, tithis, weekday, pending != 0))
}

#[unsafe(no_mangle)]
pub extern "C" fn graha_saka_pending_day(
    year: u32,
    months: u32,
    tithis: u32,
    weekday: u32,
    pending: u32,
) -> u32
    ensures { result ≡ result_unwrap_or (lunar_day (lunar_date_from year months tithis weekday (mark_from pending))) 0 }
{
    day_of_lunar_date(year, months, tithis, weekday, pending != 0).unwrap_or(0)
}
