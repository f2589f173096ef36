// The days 0 to 401,599, as pairs of a cycle and a day within it.
#![tactic(auto)]

pub mod refusal;

ghost use Rattle.std.specs.Prelude.{◌≡◌};
ghost use Rattle.days.specs.Days.{in_range, pair_at, day_of, pair_of, number_of, julian_day_of, weekday_on, weekday_of, next_of, check_span};
ghost use Rattle.days.specs.Weekdays.{bit_of, in_set};

use refusal::Refusal;

// A cycle from 0 to 99 and a day within it from 0 to 4015: paper 01's pair (C, A). Any other pair is refused wherever
// it is taken.
#[derive(Clone, Copy, Debug, PartialEq, Eq)]
pub struct Day {
    pub cycle: u32,
    pub within: u32,
}

impl Day {
    // Day 0: 19 March 1520 in the Julian calendar, a Monday.
    pub const EPOCH: Day = Day {
        cycle: 0,
        within: 0,
    };

    pub const EPOCH_JULIAN_DAY: u32 = 2276316;

    pub const CYCLE_DAYS: u32 = 4016;

    pub const CYCLES: u32 = 100;

    // The numbers of the epoch and of the last day.
    pub const FIRST: u32 = Day::CYCLE_DAYS * Day::EPOCH.cycle + Day::EPOCH.within;

    pub const LAST: u32 = Day::CYCLES * Day::CYCLE_DAYS - 1;

    #[tactic(auto, unfolding(crate::specs::Days::day_of))]
    pub fn from_number(number: u32) -> Result<Day, Refusal>
        ensures { result ≡ day_of number }
    {
        if number <= Day::LAST {
            Ok(Day::at(number))
        } else {
            Err(Refusal::OutOfRange)
        }
    }

    // The pair of any number. Past the last day it is out of range, and whatever takes it refuses it.
    pub fn at(number: u32) -> Day
        ensures { result ≡ pair_at number }
    {
        Day {
            cycle: number / Day::CYCLE_DAYS,
            within: number % Day::CYCLE_DAYS,
        }
    }

    #[tactic(auto, unfolding(crate::specs::Days::pair_of))]
    pub fn from_pair(cycle: u32, within: u32) -> Result<Day, Refusal>
        ensures { result ≡ pair_of cycle within }
    {
        let day = Day { cycle, within };
        if day.in_range() {
            Ok(day)
        } else {
            Err(Refusal::OutOfRange)
        }
    }

    #[tactic(auto, unfolding(crate::specs::Days::in_range))]
    pub fn in_range(self) -> bool
        ensures { result ≡ in_range self }
    {
        self.cycle < Day::CYCLES && self.within < Day::CYCLE_DAYS
    }

    #[tactic(auto, unfolding(crate::specs::Days::answer_on, crate::specs::Days::in_range))]
    pub fn number(self) -> Result<u32, Refusal>
        ensures { result ≡ number_of self }
    {
        if self.in_range() {
            let number = Day::CYCLE_DAYS * self.cycle + self.within;
            Ok(number)
        } else {
            Err(Refusal::OutOfRange)
        }
    }

    #[tactic(auto, unfolding(crate::specs::Days::answer_on, crate::specs::Days::in_range))]
    pub fn julian_day(self) -> Result<u32, Refusal>
        ensures { result ≡ julian_day_of self }
    {
        let number = self.number()?;
        let since = number - Day::FIRST;
        let julian_day = Day::EPOCH_JULIAN_DAY + since;
        Ok(julian_day)
    }

    // 0 Monday to 6 Sunday.
    #[tactic(auto, unfolding(crate::specs::Days::answer_on))]
    pub fn weekday(self) -> Result<u32, Refusal>
        ensures { result ≡ weekday_of self }
    {
        self.number().map(weekday_on)
    }

    // The day after it: paper 01's step.
    #[tactic(auto, unfolding(crate::specs::Days::next_of, crate::specs::Days::in_range, crate::specs::Days::day_of))]
    pub fn next(self) -> Result<Day, Refusal>
        ensures { result ≡ next_of self }
    {
        if !self.in_range() {
            return Err(Refusal::OutOfRange);
        }
        if self.within < Day::CYCLE_DAYS - 1 {
            let within = self.within + 1;
            Ok(Day { within, ..self })
        } else if self.cycle < Day::CYCLES - 1 {
            let cycle = self.cycle + 1;
            Ok(Day { cycle, within: 0 })
        } else {
            Err(Refusal::OutOfRange)
        }
    }
}

// The weekday of the day with this number: 0 Monday to 6 Sunday.
pub fn weekday_on(number: u32) -> u32
    ensures { result ≡ weekday_on number }
{
    number % 7
}

// Refuses a span whose ends are not both days, or whose last day is before its first.
#[tactic(auto, unfolding(crate::specs::Days::answer_over))]
pub fn check_span(first: u32, last: u32) -> Result<(), Refusal>
    ensures { result ≡ check_span first last }
{
    if Day::LAST < first || Day::LAST < last {
        return Err(Refusal::OutOfRange);
    }
    if last < first {
        return Err(Refusal::LastBeforeFirst);
    }
    Ok(())
}

// A weekday's bit in a set of weekdays, Monday's the lowest. A number that is no weekday has the bit behind the seven,
// which makes any set one that is refused.
#[tactic(auto, using(crate::proofs::Weekdays::bit_shifted))]
pub fn weekday_bit(weekday: u32) -> u32
    ensures { result ≡ bit_of weekday }
{
    if weekday < 7 { 1 << weekday } else { 128 }
}

// Whether a set of weekdays has a weekday. It has no other number.
#[tactic(auto, unfolding(crate::specs::Weekdays::in_set))]
pub fn set_has(set: u32, weekday: u32) -> bool
    ensures { result ≡ in_set set weekday }
{
    weekday <= 6 && (set >> weekday) % 2 == 1
}
