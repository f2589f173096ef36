// The signs of the zodiac, and the days on which the Sun enters one: the mean Sun, with which paper 02 has its twelve
// signs, or the true one, by which calendars are printed.
#![tactic(auto)]

ghost use Rattle.std.specs.Prelude.{◌≡◌, ℕ, ◌+◌, ◌%◌, ◌≤◌, get_or};
ghost use Rattle.days.specs.Days.{last_day, answer_on};
ghost use Rattle.entries.specs.Entries.{capacity, with_entries_from};
ghost use Rattle.zodiac.specs.Zodiac.{sun_at, sign_of, length_needed, listing_of, entries_after};
ghost use Rattle.zodiac.specs.Passed.{delays, passed_by, day_by, days_by};

use days::Day;
use days::refusal::Refusal;
use entries::NotPut;
use longitudes::{Body, CIRCLE, SUN};

// Which Sun is meant.
#[derive(Clone, Copy)]
pub enum Sun {
    Mean,
    True,
}

// Seconds of arc in a sign, and how many signs there are.
pub const SIGN: u32 = 108000;

const SIGNS: usize = 12;

// The seconds that the mean Sun goes in a cycle: eleven circles less the cycle's amount.
const CYCLE_SECONDS: u32 = 11 * CIRCLE - SUN.d;

// The true Sun goes forwards with the mean one and hangs on it alone, so it enters each sign where the mean Sun comes
// to a longitude of its own: so many seconds before the sign's start, and these more, Meṣa first.
const LEAD: u32 = 7728;

const DELAYS: [u32; SIGNS] = [
    0, 1750, 5192, 9444, 13129, 15270, 15334, 13411, 10088, 6136, 2622, 361,
];

fn longitude(sun: Sun, day: Day) -> Result<u32, Refusal>
    ensures { result ≡ answer_on (sun_at sun) day }
{
    match sun {
        Sun::Mean => {
            let mean = longitudes::mean_longitude(Body::Sun, day)?;
            Ok(mean.seconds)
        }
        Sun::True => panchanga::true_sun(day),
    }
}

// The sign in which the Sun stands: 0 Meṣa to 11 Mīna.
pub fn sign_by(sun: Sun, day: Day) -> Result<u32, Refusal>
    ensures { result ≡ sign_of sun day }
{
    let found = longitude(sun, day)?;
    Ok(found / SIGN)
}

// The same of the mean Sun.
pub fn sign_of(day: Day) -> Result<u32, Refusal>
    ensures { result ≡ sign_of Sun.Mean day }
{
    sign_by(Sun::Mean, day)
}

// By how many of the mean Sun's seconds each sign is entered later than the true Sun enters one at the soonest. The
// mean Sun enters each at its start.
fn delays_of(sun: Sun) -> [u32; SIGNS]
    ensures { result ≡ delays sun }
{
    match sun {
        Sun::Mean => [LEAD; SIGNS],
        Sun::True => DELAYS,
    }
}

// The whole signs from 0° to the Sun with these delays, with all its circles since the epoch.
fn signs_passed(delays: &[u32; SIGNS], day: u32) -> u32
    requires { day ≤ last_day }
    ensures { result ≡ passed_by delays.now day }
{
    let turned = SUN.k + day / Day::CYCLE_DAYS * CYCLE_SECONDS;
    let moved = day % Day::CYCLE_DAYS * SUN.p / SUN.q;
    let seconds = turned + moved + LEAD;
    let signs = seconds / SIGN;
    let sign = signs as usize % SIGNS;
    if seconds % SIGN < delays[sign] {
        return signs - 1;
    }
    signs
}

// The first day on which so many signs are passed: whole cycles, and in the cycle the days for what is left, rounded
// up. No day is tested.
fn day_passing(delays: &[u32; SIGNS], signs: u32) -> u32
    requires { ((12 ≤ signs) × (signs ≤ 13205)) × ((k : ℕ) → get_or delays.now (k % 12) 0 ≤ 15334) }
    ensures { result ≡ day_by delays.now signs }
{
    let sign = signs as usize % SIGNS;
    let seconds = SIGN * signs + delays[sign] - LEAD - SUN.k;
    let cycle = seconds / CYCLE_SECONDS;
    let left = seconds % CYCLE_SECONDS;
    Day::CYCLE_DAYS * cycle + (SUN.q * left + (SUN.p - 1)) / SUN.p
}

// Puts the days on which so many signs are passed, from sign `signs` on, into the list, as many as it has entries for.
fn put_days(delays: &[u32; SIGNS], signs: u32, count: u32, list: &mut [u8])
    requires { ((12 ≤ signs) × (signs + count ≤ 13206)) × ((k : ℕ) → get_or delays.now (k % 12) 0 ≤ 15334) }
    ensures { list.new ≡ with_entries_from list.old 0 (days_by delays.now signs count) }
{
    for index in 0..count {
        let day = day_passing(delays, signs + index);
        entries::put_entry(list, index as usize, day);
    }
}

// Writes the days of the span after its first on which the Sun stands in another sign than the day before to the list,
// earliest first, and hands back how many they are, or leaves it as it was. The Sun enters each sign once, so they are
// as many as it passes between the ends.
pub fn entries_by(sun: Sun, first: u32, last: u32, list: &mut [u8]) -> Result<u32, NotPut>
    ensures value { result ≡ listing_of sun first last (capacity list.old) }
    ensures list_after { list.new ≡ entries_after sun first last list.old }
{
    days::check_span(first, last)?;
    let delays = delays_of(sun);
    let before = signs_passed(&delays, first);
    let after = signs_passed(&delays, last);
    let length = after - before;
    if list.len() / entries::ENTRY_BYTES < length as usize {
        return Err(NotPut::TooShort(length));
    }
    put_days(&delays, before + 1, length, list);
    Ok(length)
}

// The same by the mean Sun.
pub fn sign_entries(first: u32, last: u32, list: &mut [u8]) -> Result<u32, NotPut>
    ensures value { result ≡ listing_of Sun.Mean first last (capacity list.old) }
    ensures list_after { list.new ≡ entries_after Sun.Mean first last list.old }
{
    entries_by(Sun::Mean, first, last, list)
}

// How many entries a span has, the length of a list that would do: told for a list without any.
pub fn entries_length_by(sun: Sun, first: u32, last: u32) -> Result<u32, Refusal>
    ensures { result ≡ length_needed sun first last }
{
    let mut none = [0u8; 0];
    match entries_by(sun, first, last, &mut none) {
        Ok(length) => Ok(length),
        Err(NotPut::TooShort(length)) => Ok(length),
        Err(NotPut::Refused(refusal)) => Err(refusal),
    }
}

// The same by the mean Sun.
pub fn sign_entries_length(first: u32, last: u32) -> Result<u32, Refusal>
    ensures { result ≡ length_needed Sun.Mean first last }
{
    entries_length_by(Sun::Mean, first, last)
}
