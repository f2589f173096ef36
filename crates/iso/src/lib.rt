// ISO 8601 dates: Gregorian years, before 1582 too. A date is a civil `Date`, a year, a month and a day; what they mean
// is said by the function that takes it.
#![tactic(auto)]

ghost use Rattle.std.specs.Prelude.{◌≡◌};
ghost use Rattle.iso.specs.Calendar.{iso_exists, iso_day_of, iso_on, iso_date_of};

use civil::Date;
use days::Day;
use days::refusal::Refusal;

// The Gregorian years go round: each has the months of the one 400 years, or 146,097 days, later.
const ROUND_YEARS: u32 = 400;

const ROUND_DAYS: u32 = 146097;

// The year of day 0, and the last one that has Julian days.
const FIRST_YEAR: u32 = 1520;

const LAST_JULIAN_YEAR: u32 = 1582;

// By the Gregorian rule, the days from 1 March 400 years before that of year 0 to 29 March 1920, 400 years after day 0.
const DAY_0_LATER: u64 = 847390;

// There is such a date.
pub fn exists(date: Date) -> bool
    ensures { result ≡ iso_exists date }
{
    let year = 2000 + date.year % ROUND_YEARS;
    civil::exists(Date { year, ..date })
}

// The day of a date.
#[tactic(auto, using(crate::proofs::Dues::dues))]
pub fn day_of(date: Date) -> Result<u32, Refusal>
    ensures { result ≡ iso_day_of date }
{
    if LAST_JULIAN_YEAR < date.year {
        return civil::day_of(date);
    }
    if date.year < FIRST_YEAR {
        return if exists(date) {
            Err(Refusal::OutOfRange)
        } else {
            Err(Refusal::NoSuchDate)
        };
    }
    let year = date.year + ROUND_YEARS;
    let later = civil::day_of(Date { year, ..date })?;
    if later < ROUND_DAYS {
        Err(Refusal::OutOfRange)
    } else {
        Ok(later - ROUND_DAYS)
    }
}

// The date so many days after day 0's, of any number of them. It is read from the day 400 years later, which civil
// dates have by the Gregorian rule: by its century of 36524 or 36525 days, its year of 365 or 366 and its month, all
// from March on. So short that it is laid open where a line is put (docs/speed-decisions.md).
pub fn date_on(day: u32) -> Date
    ensures { result ≡ iso_on day }
{
    let since = day as u64 + DAY_0_LATER;
    let century = (4 * since + 3) / 146097;
    let in_century = (since - (36524 * century + century / 4)) as u32;
    let in_years = (4 * in_century + 3) / 1461;
    let in_year = in_century - (365 * in_years + in_years / 4);
    let m = (5 * in_year + 2) / 153;
    let day = in_year - (153 * m + 2) / 5 + 1;
    let year = 100 * century as u32 + in_years - 800;
    if m < 10 {
        let month = m + 3;
        Date { year, month, day }
    } else {
        let year = year + 1;
        let month = m - 9;
        Date { year, month, day }
    }
}

// The date of a day.
// Kept: civil's has one name beside; no plainer by a function that takes what tells the date, which asks for a day.
#[tactic(auto, unfolding(crate::specs::Calendar::iso_date_of))]
pub fn date_of(day: u32) -> Result<Date, Refusal>
    ensures { result ≡ iso_date_of day }
{
    if Day::LAST < day {
        return Err(Refusal::OutOfRange);
    }
    Ok(date_on(day))
}
