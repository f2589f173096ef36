// The Saka lunar date to a day: the mean reckoning, corrected by the weekday.
#![tactic(auto)]

ghost use Rattle.std.specs.Prelude.{true, cond, ◌≡◌, ◌<◌, pos};
ghost use Rattle.std.proofs.Math.IntN.{pred_ℤ};
ghost use Rattle.saka.specs.LunarDays.{lunar_day, fields_in_range, year_in_range, cycle_of, mean_months, extra_months, leap_month_pending, reckoned_day, day_on, integer_day};

use days::Day;
use days::refusal::Refusal;

// The Saka year, the lunar months (0 to 11) and the tithis (0 to 29), all elapsed, and the weekday, 0 Monday to 6
// Sunday.
#[derive(Clone, Copy, Debug, PartialEq, Eq)]
pub struct LunarDate {
    pub year: u32,
    pub months: u32,
    pub tithis: u32,
    pub weekday: u32,
    // Paper 02's mark: this year's extra month is still to come.
    pub leap_month_pending: bool,
}

const FIRST_YEAR: u32 = 1442;

const LAST_YEAR: u32 = 2541;

pub fn day_of(date: LunarDate) -> Result<u32, Refusal>
    ensures { result ≡ lunar_day date }
{
    if !fields_in_range(date) {
        return Err(Refusal::BadInput);
    }
    if !year_in_range(date.year) {
        return Err(Refusal::OutOfRange);
    }
    let reckoning = Reckoning { date };
    let extra = reckoning.extra_months();
    let pending = pending_months(date);
    if extra < pending {
        return Err(Refusal::NoExtraMonth);
    }
    let elapsed = extra - pending;
    on_weekday(reckoning.day(elapsed), date.weekday)
}

#[tactic(auto, unfolding(crate::specs::LunarDays::fields_in_range))]
fn fields_in_range(date: LunarDate) -> bool
    ensures { result ≡ fields_in_range date }
{
    date.months < 12 && date.tithis < 30 && date.weekday < 7
}

#[tactic(auto, unfolding(crate::specs::LunarDays::year_in_range))]
fn year_in_range(year: u32) -> bool
    ensures { result ≡ year_in_range year }
{
    (FIRST_YEAR..=LAST_YEAR).contains(&year)
}

// A date in range, as it is reckoned with.
#[derive(Clone, Copy)]
struct Reckoning {
    date: LunarDate,
    ghost fields: { fields_in_range date ≡ true },
    ghost year: { year_in_range date.year ≡ true },
}

impl Reckoning {
    // The cycles of eleven years.
    #[tactic(auto, unfolding(crate::specs::LunarDays::year_in_range))]
    fn cycle(self) -> u32
        ensures { result ≡ cycle_of self.date }
    {
        (self.date.year - FIRST_YEAR) / 11
    }

    // The lunar months since the cycle's start, the extra ones left out.
    #[tactic(auto, unfolding(crate::specs::LunarDays::fields_in_range, crate::specs::LunarDays::year_in_range))]
    fn mean_months(self) -> u32
        ensures { result ≡ mean_months self.date }
    {
        12 * ((self.date.year - FIRST_YEAR) % 11) + self.date.months
    }

    // The extra months (adhikamasa) since the cycle's start.
    #[tactic(auto, unfolding(crate::specs::LunarDays::extra_months, crate::specs::LunarDays::fields_in_range, crate::specs::LunarDays::year_in_range))]
    fn extra_months(self) -> u32
        ensures { result ≡ extra_months self.date }
    {
        let cycle = self.cycle();
        let months = self.mean_months();
        (months + 2 * cycle + 10) / 33
    }

    // The day by mean months and tithis, which may be a day off.
    #[tactic(auto, unfolding(crate::specs::LunarDays::reckoned_day, crate::specs::LunarDays::fields_in_range, crate::specs::LunarDays::year_in_range))]
    fn day(self, extra: u32) -> u32
        requires { extra < 11 }
        ensures { result ≡ reckoned_day self.date extra }
    {
        let cycle = self.cycle();
        let mean = self.mean_months();
        let months = mean + extra;
        let tithis = 30 * months + self.date.tithis + cycle / 6;
        let civil_days = tithis - tithis / 64;
        Day::CYCLE_DAYS * cycle + civil_days
    }
}

// The extra months that are still to come: this year's, where the date is marked.
fn pending_months(date: LunarDate) -> u32
    ensures { result ≡ cond (leap_month_pending date) 1 0 }
{
    if date.leap_month_pending { 1 } else { 0 }
}

// Of the reckoned day and its two neighbours the one that has the weekday.
#[tactic(auto, using(crate::proofs::ThreeDays::on_days))]
fn on_weekday(reckoned: u32, weekday: u32) -> Result<u32, Refusal>
    requires reckoned_bound { reckoned < 1000000 }
    requires weekday_bound { weekday < 7 }
    ensures { result ≡ day_on weekday reckoned }
{
    let ahead = (weekday + 7 - reckoned % 7) % 7;
    match ahead {
        0 => number(reckoned),
        1 => number(reckoned + 1),
        6 => day_before(reckoned),
        _ => Err(Refusal::NoSuchWeekday),
    }
}

// Day -1, before day 0, is out of range.
#[tactic(auto, unfolding(crate::specs::LunarDays::integer_day))]
fn day_before(day: u32) -> Result<u32, Refusal>
    ensures { result ≡ integer_day (pred_ℤ (pos day)) }
{
    if day == 0 {
        Err(Refusal::OutOfRange)
    } else {
        number(day - 1)
    }
}

#[tactic(auto, unfolding(crate::specs::LunarDays::integer_day))]
fn number(day: u32) -> Result<u32, Refusal>
    ensures { result ≡ integer_day (pos day) }
{
    if day <= Day::LAST {
        Ok(day)
    } else {
        Err(Refusal::OutOfRange)
    }
}
