// The true Sun and Moon, and the panchanga elements of a day: paper 01's limbs. What hangs on the Moon is of an
// edition, paper 01's rule or paper 02's second one.
#![tactic(auto)]

ghost use Rattle.std.specs.Prelude.{◌≡◌, true, ◌/◌, ◌%◌, ◌<◌, ◌≤◌};
ghost use Rattle.days.specs.Days.{in_range};
ghost use Rattle.longitudes.specs.Longitudes.{circle, difference_of, longitude_at};
ghost use Rattle.longitudes.specs.Answers.{body_number};
ghost use Rattle.panchanga.specs.TrueLongitudes.{bhuja, bhuja_product, equation, corrected, true_longitude, sun_anomaly, sun_equation, true_sun, true_moon, is_edition};
ghost use Rattle.panchanga.specs.Elements.{tithi, nakshatra, yoga, karana, karana_after};
ghost use Rattle.panchanga.specs.OnDays.{true_sun_at, true_moon_at, lights_of, true_sun_of, true_moon_of, tithi_of, nakshatra_of, yoga_of, karana_of, the_panchanga, panchanga_of, panchanga_by, tithi_by};
ghost use Rattle.panchanga.specs.Parts.{moon_alone_at, moon_in, edition_number, edition_of, edition_on};

use days::Day;
use days::refusal::Refusal;
use longitudes::{Body, CIRCLE};

// The true Sun and Moon.
#[derive(Clone, Copy)]
pub struct Lights {
    pub sun: u32,
    pub moon: u32,
}

// Sun and Moon are true longitudes.
#[derive(Clone, Copy)]
pub struct Panchanga {
    pub sun: u32,
    pub moon: u32,
    pub tithi: u32,
    pub nakshatra: u32,
    pub yoga: u32,
    pub karana: u32,
}

const HALF: u32 = CIRCLE / 2;

// Each tithi is a thirtieth of a circle, each nakshatra and yoga a twenty-seventh, and a karana half a tithi.
const TITHI: u32 = CIRCLE / 30;

const NAKSHATRA: u32 = CIRCLE / 27;

const HALF_TITHI: u32 = CIRCLE / 60;

const SUN_APOGEE: Place = Place { seconds: 280800 };

// The numbers of the Sun's equation, and of the Moon's.
const SUN_SCALE: u64 = 32400;

const SUN_DIVISOR: u64 = 538526880000;

const MOON_SCALE: u64 = 72000;

const MOON_DIVISOR: u64 = 522547200000;

// Paper 02's editions.
// Kept: numbers here, since C and a page pass any u32, of which `is_edition` tells; inside they are an `Edition`.
pub const FIRST_EDITION: u32 = 1;

pub const SECOND_EDITION: u32 = 2;

#[derive(Clone, Copy)]
enum Edition {
    First,
    Second,
}

#[tactic(auto, unfolding(crate::specs::Parts::edition_of, crate::specs::TrueLongitudes::is_edition))]
fn edition_of(number: u32) -> Result<Edition, Refusal>
    ensures { result ≡ edition_of number }
{
    match number {
        FIRST_EDITION => Ok(Edition::First),
        SECOND_EDITION => Ok(Edition::Second),
        _ => Err(Refusal::BadEdition),
    }
}

#[tactic(auto, unfolding(crate::specs::Parts::edition_of))]
pub fn is_edition(number: u32) -> bool
    ensures { result ≡ is_edition number }
{
    edition_of(number).is_ok()
}

// A place on the circle, or an arc of it.
#[derive(Clone, Copy)]
struct Place {
    seconds: u32,
    ghost on_circle: { seconds < 1296000 },
}

impl Place {
    // Any number, less its whole circles.
    fn of(x: u32) -> Place
        ensures { result.seconds ≡ x % circle }
    {
        Place {
            seconds: x % CIRCLE,
        }
    }

    // The same of a number below two circles: a test for a division.
    fn within(x: u32) -> Place
        requires { x < 2592000 }
        ensures { result.seconds ≡ x % circle }
    {
        if x < CIRCLE {
            Place { seconds: x }
        } else {
            Place {
                seconds: x - CIRCLE,
            }
        }
    }

    fn less(self, other: Place) -> Place
        ensures { result.seconds ≡ difference_of self.seconds other.seconds }
    {
        let seconds = longitudes::difference(self.seconds, other.seconds);
        Place { seconds }
    }

    // An anomaly less the half circle, where it is past it. Q is the same for s and 648000 − s, so the quarters need
    // not be told apart.
    fn in_half(self) -> u32
        ensures { (bhuja_product result ≡ bhuja_product (bhuja self.seconds)) × (result ≤ 648000) }
    {
        if HALF < self.seconds {
            self.seconds - HALF
        } else {
            self.seconds
        }
    }
}

// scale × Q / (divisor − Q).
#[tactic(auto, unfolding(crate::specs::TrueLongitudes::equation))]
fn equation_of(scale: u64, divisor: u64, anomaly: Place) -> Place
    requires { (scale ≤ 72000) × (522547200000 ≤ divisor) }
    ensures { result.seconds ≡ equation scale divisor anomaly.seconds }
{
    let s = anomaly.in_half() as u64;
    let q = s * (HALF as u64 - s);
    let seconds = scale * q / (divisor - q);
    Place {
        seconds: seconds as u32,
    }
}

fn correct(mean: Place, anomaly: Place, size: Place) -> Place
    ensures { result.seconds ≡ corrected mean.seconds anomaly.seconds size.seconds }
{
    if anomaly.seconds <= HALF {
        Place::within(mean.seconds + size.seconds)
    } else {
        Place::within(mean.seconds + CIRCLE - size.seconds)
    }
}

#[tactic(auto, unfolding(crate::specs::TrueLongitudes::true_longitude))]
fn true_longitude(scale: u64, divisor: u64, apogee: Place, mean: Place) -> Place
    requires { (scale ≤ 72000) × (522547200000 ≤ divisor) }
    ensures { result.seconds ≡ true_longitude scale divisor apogee.seconds mean.seconds }
{
    let anomaly = apogee.less(mean);
    let size = equation_of(scale, divisor, anomaly);
    correct(mean, anomaly, size)
}

// Kept: this and three more ask that the day is in range. A type for such a day would be made by seven callers, each
// with a proof, and opened here alone.
//
// The remainder changes nothing: it tells the compiler that what follows is below a circle, which spares divisions.
fn mean_on(body: Body, day: Day) -> Place
    requires { in_range day ≡ true }
    ensures { result.seconds ≡ longitude_at (body_number body) day }
{
    let mean = longitudes::mean_longitude(body, day).unwrap();
    Place::of(mean.seconds)
}

#[tactic(auto, unfolding(crate::specs::OnDays::true_sun_at))]
fn sun_on(day: Day) -> Place
    requires { in_range day ≡ true }
    ensures { result.seconds ≡ true_sun_at day }
{
    let mean = mean_on(Body::Sun, day);
    true_longitude(SUN_SCALE, SUN_DIVISOR, SUN_APOGEE, mean)
}

// The Moon with a twenty-seventh of the Sun's equation, by the mean Sun.
fn with_sun_share(moon: Place, sun: Place) -> Place
    ensures { result.seconds ≡ corrected moon.seconds (sun_anomaly sun.seconds) (sun_equation sun.seconds / 27) }
{
    let anomaly = SUN_APOGEE.less(sun);
    let size = equation_of(SUN_SCALE, SUN_DIVISOR, anomaly);
    let share = Place {
        seconds: size.seconds / 27,
    };
    correct(moon, anomaly, share)
}

fn moon_alone_on(day: Day) -> Place
    requires { in_range day ≡ true }
    ensures { result.seconds ≡ moon_alone_at day }
{
    let mean = mean_on(Body::Moon, day);
    let apogee = mean_on(Body::MoonApogee, day);
    true_longitude(MOON_SCALE, MOON_DIVISOR, apogee, mean)
}

// An edition's Moon, of the Moon with its own equation, by the mean Sun.
fn moon_in(edition: Edition, moon: Place, sun: Place) -> Place
    ensures { result.seconds ≡ moon_in (edition_number edition) moon.seconds sun.seconds }
{
    match edition {
        Edition::First => moon,
        Edition::Second => with_sun_share(moon, sun),
    }
}

// The same on a day. (The Moon comes as a parameter, so that the compiler lays its reckoning open in each call and
// leaves this out, which edition 1 does not need.)
#[tactic(auto, unfolding(crate::specs::OnDays::true_moon_at, crate::specs::TrueLongitudes::true_moon))]
fn moon_on(edition: Edition, moon: Place, day: Day) -> Place
    requires { (in_range day ≡ true) × (moon.seconds ≡ moon_alone_at day) }
    ensures { result.seconds ≡ true_moon_at (edition_number edition) day }
{
    let sun = mean_on(Body::Sun, day);
    moon_in(edition, moon, sun)
}

// As `longitudes::difference`, with two tests for two divisions where both are on the circle, as places are.
pub fn difference_on_circle(a: u32, b: u32) -> u32
    ensures { result ≡ difference_of a b }
{
    if a < CIRCLE {
        if b < CIRCLE {
            if b <= a {
                return a - b;
            }
            return a + CIRCLE - b;
        }
    }
    longitudes::difference(a, b)
}

// The elements of a true Sun and Moon.
pub fn tithi_of(sun: u32, moon: u32) -> u32
    ensures { result ≡ tithi sun moon }
{
    difference_on_circle(moon, sun) / TITHI
}

pub fn nakshatra_of(moon: u32) -> u32
    ensures { result ≡ nakshatra moon }
{
    moon / NAKSHATRA
}

pub fn yoga_of(sun: u32, moon: u32) -> u32
    ensures { result ≡ yoga sun moon }
{
    let sum = (sun as u64 + moon as u64) % CIRCLE as u64;
    sum as u32 / NAKSHATRA
}

fn karana_after(halves: u32) -> u32
    requires { halves < 60 }
    ensures { result ≡ karana_after halves }
{
    if halves == 0 {
        11
    } else if halves <= 56 {
        (halves - 1) % 7 + 1
    } else {
        halves - 49
    }
}

pub fn karana_of(sun: u32, moon: u32) -> u32
    ensures { result ≡ karana sun moon }
{
    karana_after(difference_on_circle(moon, sun) / HALF_TITHI)
}

// The edition of a call for an edition and a day: an edition that is none is refused first.
#[tactic(auto, unfolding(crate::specs::Parts::edition_of, crate::specs::OnDays::in_edition, days::specs::Days::answer_on))]
fn edition_on(number: u32, day: Day) -> Result<Edition, Refusal>
    ensures { result ≡ edition_on number day }
{
    let edition = edition_of(number)?;
    if day.in_range() {
        Ok(edition)
    } else {
        Err(Refusal::OutOfRange)
    }
}

// Both lights at one go.
#[tactic(auto, using(crate::proofs::Answers::edition_is), unfolding(crate::specs::OnDays::in_edition, days::specs::Days::answer_on))]
pub fn true_lights(edition: u32, day: Day) -> Result<Lights, Refusal>
    ensures { result ≡ lights_of edition day }
{
    let edition = edition_on(edition, day)?;
    Ok(Lights {
        sun: sun_on(day).seconds,
        moon: moon_on(edition, moon_alone_on(day), day).seconds,
    })
}

// The elements of the true Sun and Moon.
fn elements_of(sun: Place, moon: Place) -> Panchanga
    ensures { result ≡ the_panchanga sun.seconds moon.seconds }
{
    let sun = sun.seconds;
    let moon = moon.seconds;
    let tithi = tithi_of(sun, moon);
    let nakshatra = nakshatra_of(moon);
    let yoga = yoga_of(sun, moon);
    let karana = karana_of(sun, moon);
    Panchanga {
        sun,
        moon,
        tithi,
        nakshatra,
        yoga,
        karana,
    }
}

#[tactic(auto, using(crate::proofs::Answers::edition_is), unfolding(crate::specs::OnDays::tithi_at, crate::specs::OnDays::nakshatra_at, crate::specs::OnDays::yoga_at, crate::specs::OnDays::karana_at, crate::specs::OnDays::in_edition, days::specs::Days::answer_on))]
pub fn of_day(edition: u32, day: Day) -> Result<Panchanga, Refusal>
    ensures { result ≡ panchanga_of edition day }
{
    let edition = edition_on(edition, day)?;
    let sun = sun_on(day);
    let moon = moon_on(edition, moon_alone_on(day), day);
    Ok(elements_of(sun, moon))
}

// The true Sun and Moon by the mean ones and the apogee, of which whole circles count for nothing.
fn sun_by(sun: u32) -> Place
    ensures { result.seconds ≡ true_sun (sun % circle) }
{
    true_longitude(SUN_SCALE, SUN_DIVISOR, SUN_APOGEE, Place::of(sun))
}

#[tactic(auto, unfolding(crate::specs::TrueLongitudes::true_moon))]
fn moon_by(edition: Edition, sun: u32, moon: u32, apogee: u32) -> Place
    ensures { result.seconds ≡ true_moon (edition_number edition) (sun % circle) (apogee % circle) (moon % circle) }
{
    let alone = true_longitude(MOON_SCALE, MOON_DIVISOR, Place::of(apogee), Place::of(moon));
    moon_in(edition, alone, Place::of(sun))
}

// The same as of a day, by its mean longitudes, for a caller that has reckoned them.
// Kept: three numbers, which callers have from three calls. A struct of them would be made only to be taken apart.
#[tactic(auto, using(crate::proofs::Answers::edition_is), unfolding(crate::specs::OnDays::panchanga_by, crate::specs::Parts::edition_of))]
pub fn of_means(edition: u32, sun: u32, moon: u32, apogee: u32) -> Result<Panchanga, Refusal>
    ensures { result ≡ panchanga_by edition sun moon apogee }
{
    let edition = edition_of(edition)?;
    let true_sun = sun_by(sun);
    let true_moon = moon_by(edition, sun, moon, apogee);
    Ok(elements_of(true_sun, true_moon))
}

// The tithi alone by the means: a caller that goes over days one after another spares the test of each.
#[tactic(auto, using(crate::proofs::Answers::edition_is), unfolding(crate::specs::OnDays::tithi_by, crate::specs::Parts::edition_of))]
pub fn tithi_of_means(edition: u32, sun: u32, moon: u32, apogee: u32) -> Result<u32, Refusal>
    ensures { result ≡ tithi_by edition sun moon apogee }
{
    let known = edition_of(edition)?;
    let true_sun = sun_by(sun);
    let true_moon = moon_by(known, sun, moon, apogee);
    Ok(tithi_of(true_sun.seconds, true_moon.seconds))
}

#[tactic(auto, unfolding(days::specs::Days::answer_on))]
pub fn true_sun(day: Day) -> Result<u32, Refusal>
    ensures { result ≡ true_sun_of day }
{
    if day.in_range() {
        Ok(sun_on(day).seconds)
    } else {
        Err(Refusal::OutOfRange)
    }
}

#[tactic(auto, using(crate::proofs::Answers::edition_is), unfolding(crate::specs::OnDays::in_edition, days::specs::Days::answer_on))]
pub fn true_moon(edition: u32, day: Day) -> Result<u32, Refusal>
    ensures { result ≡ true_moon_of edition day }
{
    let edition = edition_on(edition, day)?;
    Ok(moon_on(edition, moon_alone_on(day), day).seconds)
}

// Kept: tithi, yoga and karana are alike. Over `true_lights`, whose reckoning is then not laid open in each call, the
// calls for a day take 1182 instructions in place of 826.
#[tactic(auto, using(crate::proofs::Answers::edition_is), unfolding(crate::specs::OnDays::tithi_at, crate::specs::OnDays::in_edition, days::specs::Days::answer_on))]
pub fn tithi(edition: u32, day: Day) -> Result<u32, Refusal>
    ensures { result ≡ tithi_of edition day }
{
    let edition = edition_on(edition, day)?;
    let sun = sun_on(day).seconds;
    Ok(tithi_of(sun, moon_on(edition, moon_alone_on(day), day).seconds))
}

#[tactic(auto, using(crate::proofs::Answers::edition_is), unfolding(crate::specs::OnDays::nakshatra_at, crate::specs::OnDays::in_edition, days::specs::Days::answer_on))]
pub fn nakshatra(edition: u32, day: Day) -> Result<u32, Refusal>
    ensures { result ≡ nakshatra_of edition day }
{
    let edition = edition_on(edition, day)?;
    Ok(nakshatra_of(moon_on(edition, moon_alone_on(day), day).seconds))
}

#[tactic(auto, using(crate::proofs::Answers::edition_is), unfolding(crate::specs::OnDays::yoga_at, crate::specs::OnDays::in_edition, days::specs::Days::answer_on))]
pub fn yoga(edition: u32, day: Day) -> Result<u32, Refusal>
    ensures { result ≡ yoga_of edition day }
{
    let edition = edition_on(edition, day)?;
    let sun = sun_on(day).seconds;
    Ok(yoga_of(sun, moon_on(edition, moon_alone_on(day), day).seconds))
}

#[tactic(auto, using(crate::proofs::Answers::edition_is), unfolding(crate::specs::OnDays::karana_at, crate::specs::OnDays::in_edition, days::specs::Days::answer_on))]
pub fn karana(edition: u32, day: Day) -> Result<u32, Refusal>
    ensures { result ≡ karana_of edition day }
{
    let edition = edition_on(edition, day)?;
    let sun = sun_on(day).seconds;
    Ok(karana_of(sun, moon_on(edition, moon_alone_on(day), day).seconds))
}
