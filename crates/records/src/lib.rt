// A day's record, and records filled together: paper 02's month at one go.
#![tactic(auto)]

ghost use Rattle.std.specs.Prelude.{◌≡◌, true, map, ◌≤◌};
ghost use Rattle.days.specs.Days.{in_range, last_day, days_from};
ghost use Rattle.longitudes.specs.Longitudes.{longitude_at, longitudes_at};
ghost use Rattle.longitudes.specs.Answers.{body_number};
ghost use Rattle.panchanga.specs.TrueLongitudes.{is_edition};
ghost use Rattle.records.specs.Records.{record_on, unfilled_on, record_of, fill_refusal, filled_after, month_of};

use days::Day;
use days::refusal::{self, Refusal};
use longitudes::{BODIES, Body};
use std::array;

// A day's number, and what is filled in for it: the nine mean longitudes in the order of `longitudes::Body`, the true
// Sun and Moon, the elements.
#[repr(C)]
#[derive(Clone, Copy)]
pub struct DayRecord {
    pub day: u32,
    pub weekday: u32,
    pub longitudes: [u32; BODIES],
    pub sun: u32,
    pub moon: u32,
    pub tithi: u32,
    pub nakshatra: u32,
    pub yoga: u32,
    pub karana: u32,
}

// How many records a month has.
pub const MONTH: usize = 30;

// The last day that thirty begin with.
const LAST_FIRST: u32 = Day::LAST + 1 - MONTH as u32;

fn mean_on(body: Body, day: Day) -> u32
    requires { in_range day ≡ true }
    ensures { result ≡ longitude_at (body_number body) day }
{
    longitudes::mean_longitude(body, day).unwrap().seconds
}

// One by one: with a constant body its row folds in, which a loop over the table's rows would not do.
fn nine_on(day: Day) -> [u32; BODIES]
    requires { in_range day ≡ true }
    ensures { result ≡ longitudes_at day }
{
    [
        mean_on(Body::Sun, day),
        mean_on(Body::Moon, day),
        mean_on(Body::MoonApogee, day),
        mean_on(Body::MoonNode, day),
        mean_on(Body::Mars, day),
        mean_on(Body::MercuryAnomaly, day),
        mean_on(Body::Jupiter, day),
        mean_on(Body::VenusAnomaly, day),
        mean_on(Body::Saturn, day),
    ]
}

fn filled(edition: u32, number: u32) -> DayRecord
    requires { (is_edition edition ≡ true) × (number ≤ last_day) }
    ensures { result ≡ record_on edition number }
{
    let day = Day::at(number);
    let longitudes = nine_on(day);
    let [sun, moon, apogee, ..] = longitudes;
    let elements = panchanga::of_means(edition, sun, moon, apogee).unwrap();
    DayRecord {
        day: number,
        weekday: days::weekday_on(number),
        longitudes,
        sun: elements.sun,
        moon: elements.moon,
        tithi: elements.tithi,
        nakshatra: elements.nakshatra,
        yoga: elements.yoga,
        karana: elements.karana,
    }
}

// A record with its day alone.
fn unfilled(day: u32) -> DayRecord
    ensures { result ≡ unfilled_on day }
{
    let zeros = [0u32; BODIES];
    DayRecord {
        day,
        weekday: 0,
        longitudes: zeros,
        sun: 0,
        moon: 0,
        tithi: 0,
        nakshatra: 0,
        yoga: 0,
        karana: 0,
    }
}

// The single call: one day's record.
pub fn record_of(edition: u32, number: u32) -> Result<DayRecord, Refusal>
    ensures { result ≡ record_of edition number }
{
    if !panchanga::is_edition(edition) {
        return Err(Refusal::BadEdition);
    }
    if Day::LAST < number {
        return Err(Refusal::OutOfRange);
    }
    Ok(filled(edition, number))
}

// Fills each record by its day; or refuses, and touches none. (For C it is in the archive of `records_c`.)
#[unsafe(no_mangle)]
pub extern "C" fn fill_records(edition: u32, records: &mut [DayRecord]) -> u32
    ensures { (result ≡ fill_refusal edition records.old) × (records.new ≡ filled_after edition records.old) }
{
    if !panchanga::is_edition(edition) {
        return Refusal::BadEdition.number();
    }
    if !records.iter().all(|record| record.day <= Day::LAST) {
        return Refusal::OutOfRange.number();
    }
    for record in records.iter_mut() {
        *record = filled(edition, record.day);
    }
    refusal::NONE
}

// Thirty records by value: `fill_records` for callers that cannot lend any.
fn filled_thirty(edition: u32, records: [DayRecord; MONTH]) -> [DayRecord; MONTH]
    ensures { result ≡ filled_after edition records }
{
    let mut made = records;
    fill_records(edition, &mut made);
    made
}

fn thirty_from(first: u32) -> [DayRecord; MONTH]
    requires { first ≤ last_day }
    ensures { result ≡ map unfilled_on (days_from first 30) }
{
    array::from_fn(|i| unfilled(first + i as u32))
}

// Thirty records from a first day on.
pub fn month_from(edition: u32, first: u32) -> Result<[DayRecord; MONTH], Refusal>
    ensures { result ≡ month_of edition first }
{
    if !panchanga::is_edition(edition) {
        Err(Refusal::BadEdition)
    } else if LAST_FIRST < first {
        Err(Refusal::OutOfRange)
    } else {
        let thirty = thirty_from(first);
        Ok(filled_thirty(edition, thirty))
    }
}
