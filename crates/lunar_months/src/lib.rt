// The days on which a lunar month starts, kept in a lent list: paper 02's row of month turns.
#![tactic(auto)]

ghost use Rattle.std.specs.Prelude.{◌≡◌, true, ◌+◌, ◌/◌, ◌≤◌, ◌<◌};
ghost use Rattle.days.specs.Days.{last_day, in_range};
ghost use Rattle.entries.specs.Entries.{capacity, entry_day, with_entries_from};
ghost use Rattle.longitudes.specs.Longitudes.{longitude_at};
ghost use Rattle.panchanga.specs.TrueLongitudes.{is_edition};
ghost use Rattle.lunar_months.specs.MonthStarts.{tithi_on, month_starts, month_on};
ghost use Rattle.lunar_months.specs.Numbers.{why_not, row_numbers, month_numbers};
ghost use Rattle.lunar_months.specs.declared.MonthRefusal.TheVariants.{Refused};
ghost use Rattle.lunar_months.specs.Rows.{the_row, new_row, is_covered, extended_by, list_after, last_entry, month_at};
ghost use Rattle.lunar_months.specs.Parts.{check_extension, check_question, before_extension, Reckonable, Counted};

use days::Day;
use days::refusal::Refusal;
use entries::ENTRY_BYTES;
use longitudes::Body;
use panchanga::is_edition;

// How many days there are.
const DAYS: u32 = Day::LAST + 1;

// A row: its edition, how many month starts its list has, four bytes each, and how many days it covers, from day 0 on.
// Any numbers are taken at their word.
#[derive(Clone, Copy)]
pub struct Months {
    pub edition: u32,
    pub starts: usize,
    pub covered: u32,
}

// The latest month start at or before a day, and how many there were up to it.
#[derive(Clone, Copy)]
pub struct MonthStart {
    pub day: u32,
    pub number: usize,
}

// Why a row is not extended, or not asked: the call is refused, or the list has too few entries, with the number that
// would do.
#[derive(Clone, Copy)]
pub enum MonthRefusal {
    Refused(Refusal),
    TooShort(usize),
}

impl MonthRefusal {
    // Too few entries are a refusal too.
    pub fn refusal(self) -> Refusal
        ensures { result ≡ why_not self }
    {
        match self {
            MonthRefusal::Refused(refusal) => refusal,
            MonthRefusal::TooShort(_) => Refusal::ListTooShort,
        }
    }
}

impl From<Refusal> for MonthRefusal {
    ghost from_gives = { λ r e. e ≡ Refused r };

    fn from(refusal: Refusal) -> MonthRefusal {
        MonthRefusal::Refused(refusal)
    }
}

// An answer in numbers: a row, or a month.
// Kept: the calls for C (`graha_months_extended_turns`, `graha_month_result` and their like) hand out each of them.
#[derive(Clone, Copy)]
pub struct RowNumbers {
    pub refusal: u32,
    pub starts: usize,
    pub covered: u32,
}

#[derive(Clone, Copy)]
pub struct MonthNumbers {
    pub refusal: u32,
    pub start: u32,
    pub number: usize,
}

// A day's mean longitudes that a tithi is made of.
#[derive(Clone, Copy)]
struct Means {
    sun: u32,
    moon: u32,
    apogee: u32,
}

// The month starts found among some days: how many, and the latest, or 0.
#[derive(Clone, Copy)]
struct Added {
    count: u32,
    latest: u32,
}

// A refusal has zeros; with 7 `starts` tells how many entries would do.
#[tactic(auto, unfolding(crate::specs::Numbers::row_numbers))]
pub fn row_numbers(row: Result<Months, MonthRefusal>) -> RowNumbers
    ensures { result ≡ row_numbers row }
{
    match row {
        Ok(row) => RowNumbers {
            refusal: 0,
            starts: row.starts,
            covered: row.covered,
        },
        Err(MonthRefusal::Refused(refusal)) => RowNumbers {
            refusal: refusal.number(),
            starts: 0,
            covered: 0,
        },
        Err(MonthRefusal::TooShort(needed)) => RowNumbers {
            refusal: Refusal::ListTooShort.number(),
            starts: needed,
            covered: 0,
        },
    }
}

// With no start, or a refusal, the start's day is 0; with 7 the number tells how many entries would do.
#[tactic(auto, unfolding(crate::specs::Numbers::month_numbers))]
pub fn month_numbers(month: Result<Option<MonthStart>, MonthRefusal>) -> MonthNumbers
    ensures { result ≡ month_numbers month }
{
    match month {
        Ok(Some(MonthStart { day, number })) => MonthNumbers {
            refusal: 0,
            start: day,
            number,
        },
        Ok(None) => MonthNumbers {
            refusal: 0,
            start: 0,
            number: 0,
        },
        Err(MonthRefusal::Refused(refusal)) => MonthNumbers {
            refusal: refusal.number(),
            start: 0,
            number: 0,
        },
        Err(MonthRefusal::TooShort(needed)) => MonthNumbers {
            refusal: Refusal::ListTooShort.number(),
            start: 0,
            number: needed,
        },
    }
}

// The means by themselves, called from one place: else the compiler leaves their reckoning out of line, with the table
// in memory.
fn means_on(day: Day) -> Means
    requires { in_range day ≡ true }
    ensures { result ≡ record { sun = longitude_at 0 day; moon = longitude_at 1 day; apogee = longitude_at 2 day } }
{
    let sun = longitudes::mean_longitude(Body::Sun, day).unwrap();
    let moon = longitudes::mean_longitude(Body::Moon, day).unwrap();
    let apogee = longitudes::mean_longitude(Body::MoonApogee, day).unwrap();
    Means {
        sun: sun.seconds,
        moon: moon.seconds,
        apogee: apogee.seconds,
    }
}

// By the means, and not by `panchanga::tithi`, whose tests of edition and day each day of a long row would pay for.
fn tithi_on(edition: u32, day: u32) -> u32
    requires { (is_edition edition ≡ true) × (day ≤ last_day) }
    ensures { result ≡ tithi_on edition day }
{
    let means = means_on(Day::at(day));
    panchanga::tithi_of_means(edition, means.sun, means.moon, means.apogee).unwrap()
}

// Finds the month starts among the days behind the covered ones and puts them into the list from an entry on, as many
// as it has entries for. Each day's tithi is reckoned once, and kept for the next.
fn put_starts(edition: u32, covered: u32, days: u32, first: usize, list: &mut [u8]) -> Added
    requires { Reckonable edition covered days × (first ≤ capacity list.old) }
    ensures counted { Counted (month_starts edition covered days) result }
    ensures list_after { list.new ≡ with_entries_from list.old first (month_starts edition covered days) }
{
    let end = covered + days;
    let mut before = tithi_on(edition, covered - 1);
    let mut count: u32 = 0;
    let mut latest: u32 = 0;
    for day in covered..end {
        let tithi = tithi_on(edition, day);
        if tithi < before {
            entries::put_entry(list, first + count as usize, day);
            count += 1;
            latest = day;
        }
        before = tithi;
    }
    Added { count, latest }
}

// The same without a list.
fn find_starts(edition: u32, covered: u32, days: u32) -> Added
    requires { Reckonable edition covered days }
    ensures { Counted (month_starts edition covered days) result }
{
    let mut no_entry = [0u8; 1];
    put_starts(edition, covered, days, 0, &mut no_entry)
}

// The day of an entry that the list has.
fn start_at(list: &[u8], index: usize) -> u32
    requires { index < capacity list.now }
    ensures { result ≡ entry_day list.now index }
{
    let at = ENTRY_BYTES * index;
    let a = list[at];
    let b = list[at + 1];
    let c = list[at + 2];
    let d = list[at + 3];
    entries::day_of([a, b, c, d])
}

// The last of so many entries that is not after the day, from the end on, two at a turn.
// Kept: with one at a turn, as a `for` would have it, the look took up to 1.5 of plain C's time, with two 1.0
// (docs/performance.md): a processor may wait for the count longer than for the entry.
fn last_entry(list: &[u8], starts: usize, day: u32) -> Option<MonthStart>
    requires { starts ≤ capacity list.now }
    ensures { result ≡ last_entry list.now day starts }
{
    let mut number = starts;
    while 1 < number {
        let last = start_at(list, number - 1);
        if last <= day {
            return Some(MonthStart { day: last, number });
        }
        let before = start_at(list, number - 2);
        if before <= day {
            return Some(MonthStart {
                day: before,
                number: number - 1,
            });
        }
        number -= 2;
    }
    if number == 0 {
        return None;
    }
    let first = start_at(list, 0);
    if first <= day {
        return Some(MonthStart {
            day: first,
            number: 1,
        });
    }
    None
}

// The month of a day, found without a row; or that none has started.
pub fn month_on(edition: u32, day: u32) -> Result<Option<MonthStart>, Refusal>
    ensures { result ≡ month_on edition day }
{
    if !is_edition(edition) {
        return Err(Refusal::BadEdition);
    }
    if Day::LAST < day {
        return Err(Refusal::OutOfRange);
    }
    let found = find_starts(edition, 1, day);
    if found.count == 0 {
        return Ok(None);
    }
    Ok(Some(MonthStart {
        day: found.latest,
        number: found.count as usize,
    }))
}

// A row covers day 0 at least, and no more days than there are.
#[tactic(auto, unfolding(crate::specs::Rows::is_covered))]
fn is_covered(covered: u32) -> bool
    ensures { result ≡ is_covered covered }
{
    1 <= covered && covered <= DAYS
}

// Refuses to extend a row by so many days.
fn check_extension(row: Months, days: u32) -> Result<(), Refusal>
    ensures { result ≡ check_extension row days }
{
    if !is_edition(row.edition) {
        return Err(Refusal::BadEdition);
    }
    if !is_covered(row.covered) {
        return Err(Refusal::OutOfRange);
    }
    if DAYS - row.covered < days {
        Err(Refusal::OutOfRange)
    } else {
        Ok(())
    }
}

// Refuses to ask a row for the month of a day.
fn check_question(row: Months, edition: u32, day: u32) -> Result<(), Refusal>
    ensures { result ≡ check_question row edition day }
{
    if !is_edition(edition) {
        return Err(Refusal::BadEdition);
    }
    if edition != row.edition {
        return Err(Refusal::BadEdition);
    }
    if !is_covered(row.covered) {
        return Err(Refusal::OutOfRange);
    }
    if day < row.covered {
        Ok(())
    } else {
        Err(Refusal::OutOfRange)
    }
}

impl Months {
    // A row that covers day 0.
    pub fn new(edition: u32) -> Result<Months, Refusal>
        ensures { result ≡ new_row edition }
    {
        if is_edition(edition) {
            Ok(Months {
                edition,
                starts: 0,
                covered: 1,
            })
        } else {
            Err(Refusal::BadEdition)
        }
    }

    // What refuses an extension before its month starts are known: 14, 2, or 7 for those that the row says.
    fn before_extension(self, days: u32, capacity: usize) -> Result<(), MonthRefusal>
        ensures { result ≡ before_extension self days capacity }
    {
        check_extension(self, days)?;
        if capacity < self.starts {
            return Err(MonthRefusal::TooShort(self.starts));
        }
        Ok(())
    }

    // The row with so many days more, on which so many months start.
    fn grown(self, days: u32, count: u32) -> Months
        requires { (self.covered + days ≤ last_day + 1) × (self.starts + count < 18446744073709551616) }
        ensures { result ≡ the_row self.edition (self.starts + count) (self.covered + days) }
    {
        let starts = self.starts + count as usize;
        let covered = self.covered + days;
        Months {
            edition: self.edition,
            starts,
            covered,
        }
    }

    // The row with so many days more, for a list of so many bytes.
    pub fn extended(self, days: u32, bytes: usize) -> Result<Months, MonthRefusal>
        ensures { result ≡ extended_by self days (bytes / 4) }
    {
        let capacity = bytes / ENTRY_BYTES;
        self.before_extension(days, capacity)?;
        let found = find_starts(self.edition, self.covered, days);
        let after = self.grown(days, found.count);
        if capacity < after.starts {
            return Err(MonthRefusal::TooShort(after.starts));
        }
        Ok(after)
    }

    // The row with so many days more; its new month starts stand in the list behind its own. Where the list has an
    // entry for each of the days they fit; else they are counted first.
    pub fn extend(self, days: u32, list: &mut [u8]) -> Result<Months, MonthRefusal>
        ensures value { result ≡ extended_by self days (capacity list.old) }
        ensures list_after { list.new ≡ list_after self days list.old }
    {
        let capacity = list.len() / ENTRY_BYTES;
        self.before_extension(days, capacity)?;
        if capacity - self.starts < days as usize {
            self.extended(days, list.len())?;
        }
        let found = put_starts(self.edition, self.covered, days, self.starts, list);
        Ok(self.grown(days, found.count))
    }

    // The month of a day that the row covers, in its edition.
    pub fn month_at(
        self,
        list: &[u8],
        edition: u32,
        day: u32,
    ) -> Result<Option<MonthStart>, MonthRefusal>
        ensures { result ≡ month_at self list.now edition day }
    {
        check_question(self, edition, day)?;
        if list.len() / ENTRY_BYTES < self.starts {
            return Err(MonthRefusal::TooShort(self.starts));
        }
        Ok(last_entry(list, self.starts, day))
    }
}
