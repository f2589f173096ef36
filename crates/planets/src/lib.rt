// The true longitudes of the five star planets: paper 02's steps, half the śīghra correction, the manda correction and
// the whole śīghra correction, by its tables.
#![tactic(auto)]

ghost use Rattle.std.specs.Prelude.{◌≡◌, true, ◌+◌, ◌*◌, ◌%◌, ◌≤◌, ◌<◌, length};
ghost use Rattle.days.specs.Days.{in_range};
ghost use Rattle.longitudes.specs.Longitudes.{difference_of, longitude_at};
ghost use Rattle.longitudes.specs.Answers.{body_number};
ghost use Rattle.panchanga.specs.TrueLongitudes.{bhuja};
ghost use Rattle.planets.specs.Tables.{straight_line, largest};
ghost use Rattle.planets.specs.Steps.{within_half, true_planet};
ghost use Rattle.planets.specs.OnDays.{planet_number, true_planet_at, true_planet_of, true_planets_of};
ghost use Rattle.planets.specs.Parts.{planet_row, SignedBy};

use days::Day;
use days::refusal::Refusal;
use longitudes::{Body, CIRCLE};

pub const PLANETS: usize = 5;

#[derive(Clone, Copy)]
pub enum Planet {
    Mars,
    Mercury,
    Jupiter,
    Venus,
    Saturn,
}

const HALF: u32 = CIRCLE / 2;

const QUARTER: u32 = CIRCLE / 4;

// Fifteen degrees, from an entry of a table to the next.
const SPACING: u32 = CIRCLE / 24;

// A tenth of a degree, the unit of the tables.
const TENTH: u32 = CIRCLE / 3600;

// Paper 02's tables, a row for each planet, with a 0 behind the last entry: it counts for nothing, since no arc goes
// past that entry.
const SIGHRA: [[u16; 14]; PLANETS] = [
    [
        0, 58, 117, 174, 228, 279, 325, 365, 393, 400, 368, 249, 0, 0,
    ],
    [0, 41, 81, 117, 150, 178, 199, 212, 212, 195, 155, 89, 0, 0],
    [0, 25, 47, 68, 85, 98, 106, 108, 102, 89, 66, 36, 0, 0],
    [
        0, 63, 126, 186, 246, 302, 354, 402, 440, 461, 443, 326, 0, 0,
    ],
    [0, 15, 28, 39, 48, 54, 57, 57, 53, 45, 33, 18, 0, 0],
];

const MANDA: [[u16; 8]; PLANETS] = [
    [0, 29, 57, 85, 109, 124, 130, 0],
    [0, 12, 21, 28, 33, 35, 36, 0],
    [0, 14, 27, 39, 48, 55, 57, 0],
    [0, 6, 11, 13, 14, 15, 15, 0],
    [0, 19, 40, 60, 77, 89, 93, 0],
];

const APOGEES: [u32; PLANETS] = [432000, 756000, 648000, 324000, 864000];

// What the tables have of a planet.
#[derive(Clone, Copy)]
struct Row {
    sighra: [u16; 14],
    manda: [u16; 8],
    apogee: u32,
}

// A row's size at an arc: the straight line between two entries, each counted by how near it is. (Fifteen degrees have
// 150 times the seconds of a tenth of a degree.)
fn on_line(row: &[u16], arc: u32) -> u32
    requires { (arc + 108000 ≤ 54000 * length row.now) × (largest row.now ≤ 461) }
    ensures { (result ≡ straight_line row.now arc) × (result ≤ 165960) }
{
    let at = (arc / SPACING) as usize;
    let past = arc % SPACING;
    let entry = row[at] as u32;
    let next = row[at + 1] as u32;
    (entry * (SPACING - past) + next * past) / (SPACING / TENTH)
}

// An anomaly up to 180°, beyond that 360° less it.
fn within_half(anomaly: u32) -> u32
    requires { anomaly < 1296000 }
    ensures { (result ≡ within_half anomaly) × (result ≤ 648000) }
{
    if HALF < anomaly {
        CIRCLE - anomaly
    } else {
        anomaly
    }
}

fn within_quarter(anomaly: u32) -> u32
    requires { anomaly < 1296000 }
    ensures { (result ≡ bhuja anomaly) × (result ≤ 324000) }
{
    let arc = within_half(anomaly);
    if arc <= QUARTER { arc } else { HALF - arc }
}

// A correction with its sign, as a number of seconds forwards: what is subtracted is the rest of a circle.
fn forwards(anomaly: u32, size: u32) -> u32
    requires { size ≤ 165960 }
    ensures { SignedBy anomaly size result }
{
    if anomaly <= HALF { size } else { CIRCLE - size }
}

// A number below two circles, reduced: a test for a division.
fn within_circle(x: u32) -> u32
    requires { x < 2592000 }
    ensures { (result ≡ x % 1296000) × (result < 1296000) }
{
    if x < CIRCLE { x } else { x - CIRCLE }
}

// As `longitudes::difference`, for numbers that are known to be on the circle.
fn less(a: u32, b: u32) -> u32
    requires { (a < 1296000) × (b ≤ 1296000) }
    ensures { (result ≡ difference_of a b) × (result < 1296000) }
{
    within_circle(a + CIRCLE - b)
}

// The true longitude of a mean planet with its first anomaly.
fn true_planet(row: &Row, mean: u32, first: u32) -> u32
    requires row_bounds { (largest row.now.sighra ≤ 461) × ((largest row.now.manda ≤ 461) × (row.now.apogee < 1296000)) }
    requires place_bounds { (mean < 1296000) × (first < 1296000) }
    ensures { result ≡ true_planet (planet_row row.now) mean first }
{
    let half = forwards(first, on_line(&row.sighra, within_half(first)) / 2);
    let place = within_circle(mean + half);
    let anomaly = less(row.apogee, place);
    let centre = forwards(anomaly, on_line(&row.manda, within_quarter(anomaly)));
    let second = less(first, centre);
    let whole = forwards(second, on_line(&row.sighra, within_half(second)));
    let middle = within_circle(mean + centre);
    within_circle(middle + whole)
}

// The same of a planet with a mean place of its own: its first anomaly is the mean Sun less it.
fn outer(row: &Row, sun: u32, own: u32) -> u32
    requires row_bounds { (largest row.now.sighra ≤ 461) × ((largest row.now.manda ≤ 461) × (row.now.apogee < 1296000)) }
    requires place_bounds { (sun < 1296000) × (own < 1296000) }
    ensures { result ≡ true_planet (planet_row row.now) own (difference_of sun own) }
{
    let first = less(sun, own);
    true_planet(row, own, first)
}

fn mean_on(body: Body, day: Day) -> u32
    requires { in_range day ≡ true }
    ensures { (result ≡ longitude_at (body_number body) day) × (result < 1296000) }
{
    longitudes::mean_longitude(body, day).unwrap().seconds
}

// A case for each planet, so that the compiler has its rows and its motion as constants. (A constant's value cannot be
// taken out of a table, so each `Row` is written where it is lent.)
fn true_on(planet: Planet, day: Day) -> u32
    requires { in_range day ≡ true }
    ensures { result ≡ true_planet_at (planet_number planet) day }
{
    let sun = mean_on(Body::Sun, day);
    match planet {
        Planet::Mars => outer(
            &Row {
                sighra: SIGHRA[0],
                manda: MANDA[0],
                apogee: APOGEES[0],
            },
            sun,
            mean_on(Body::Mars, day),
        ),
        Planet::Mercury => true_planet(
            &Row {
                sighra: SIGHRA[1],
                manda: MANDA[1],
                apogee: APOGEES[1],
            },
            sun,
            mean_on(Body::MercuryAnomaly, day),
        ),
        Planet::Jupiter => outer(
            &Row {
                sighra: SIGHRA[2],
                manda: MANDA[2],
                apogee: APOGEES[2],
            },
            sun,
            mean_on(Body::Jupiter, day),
        ),
        Planet::Venus => true_planet(
            &Row {
                sighra: SIGHRA[3],
                manda: MANDA[3],
                apogee: APOGEES[3],
            },
            sun,
            mean_on(Body::VenusAnomaly, day),
        ),
        Planet::Saturn => outer(
            &Row {
                sighra: SIGHRA[4],
                manda: MANDA[4],
                apogee: APOGEES[4],
            },
            sun,
            mean_on(Body::Saturn, day),
        ),
    }
}

pub fn true_longitude(planet: Planet, day: Day) -> Result<u32, Refusal>
    ensures { result ≡ true_planet_of planet day }
{
    if day.in_range() {
        Ok(true_on(planet, day))
    } else {
        Err(Refusal::OutOfRange)
    }
}

// The five in the order of `Planet`.
pub fn true_longitudes(day: Day) -> Result<[u32; PLANETS], Refusal>
    ensures { result ≡ true_planets_of day }
{
    if !day.in_range() {
        return Err(Refusal::OutOfRange);
    }
    Ok([
        true_on(Planet::Mars, day),
        true_on(Planet::Mercury, day),
        true_on(Planet::Jupiter, day),
        true_on(Planet::Venus, day),
        true_on(Planet::Saturn, day),
    ])
}
