// The mean longitudes of the nine bodies: paper 01's mean places, in whole seconds of arc, with paper 02's part of a
// second.
#![tactic(auto)]

ghost use Rattle.std.specs.Prelude.{◌≡◌, true, ◌*◌, ◌/◌, ◌<◌};
ghost use Rattle.days.specs.Days.{in_range};
ghost use Rattle.longitudes.specs.Longitudes.{difference_of};
ghost use Rattle.longitudes.specs.Answers.{body_number, the_longitude, the_nine, longitude_of, thirds_of, longitudes_of};

use days::Day;
use days::refusal::Refusal;

// Seconds of arc in a circle.
pub const CIRCLE: u32 = 1296000;

// How many bodies there are.
pub const BODIES: usize = 9;

#[derive(Clone, Copy, PartialEq, Eq)]
pub enum Body {
    Sun,
    Moon,
    MoonApogee,
    MoonNode,
    Mars,
    MercuryAnomaly,
    Jupiter,
    VenusAnomaly,
    Saturn,
}

impl Body {
    // Its row's number in the table.
    fn number(self) -> usize
        ensures { (result ≡ body_number self) × (result < 9) }
    {
        self as usize
    }
}

// The bodies by their numbers, for a loop over them.
pub const IN_ORDER: [Body; BODIES] = [
    Body::Sun,
    Body::Moon,
    Body::MoonApogee,
    Body::MoonNode,
    Body::Mars,
    Body::MercuryAnomaly,
    Body::Jupiter,
    Body::VenusAnomaly,
    Body::Saturn,
];

// One body's: its whole seconds, and what was left over of the exact longitude, as a fraction of a second with this
// divisor.
#[derive(Clone, Copy)]
pub struct MeanLongitude {
    pub seconds: u32,
    pub remainder: u32,
    pub divisor: u32,
}

// The nine in the order of `Body`, whole seconds and thirds.
// Kept: two arrays and not one of pairs, since the laws `nine-at` and `thirds-nine-at` speak of each alone.
#[derive(Clone, Copy)]
pub struct MeanLongitudes {
    pub longitudes: [u32; BODIES],
    pub thirds: [u32; BODIES],
}

// A body's longitude at the epoch, the cycle's amount, and its motion a day, p / q forwards.
#[derive(Clone, Copy)]
pub struct Motion {
    pub k: u32,
    pub d: u32,
    pub p: u32,
    pub q: u32,
}

pub const SUN: Motion = Motion {
    k: 1258860,
    d: 6551,
    p: 124186,
    q: 35,
};

pub const MOON: Motion = Motion {
    k: 1256760,
    d: 13571,
    p: 5644749,
    q: 119,
};

pub const MOON_APOGEE: Motion = Motion {
    k: 603180,
    d: 981900,
    p: 2806,
    q: 7,
};

// It goes 10876 / 57 backwards: a circle less that forwards.
pub const MOON_NODE: Motion = Motion {
    k: 99480,
    d: 766200,
    p: CIRCLE * 57 - 10876,
    q: 57,
};

pub const MARS: Motion = Motion {
    k: 1105680,
    d: 199920,
    p: 2616600,
    q: 1387,
};

pub const MERCURY_ANOMALY: Motion = Motion {
    k: 970380,
    d: 444420,
    p: 1487490,
    q: 133,
};

pub const JUPITER: Motion = Motion {
    k: 764160,
    d: 94680,
    p: 2094,
    q: 7,
};

pub const VENUS_ANOMALY: Motion = Motion {
    k: 828540,
    d: 158520,
    p: 401760,
    q: 181,
};

pub const SATURN: Motion = Motion {
    k: 1027260,
    d: 812520,
    p: 1565,
    q: 13,
};

// Paper 01's table, in the order of `Body`.
const TABLE: [Motion; BODIES] = [
    SUN,
    MOON,
    MOON_APOGEE,
    MOON_NODE,
    MARS,
    MERCURY_ANOMALY,
    JUPITER,
    VENUS_ANOMALY,
    SATURN,
];

// a less b, reduced by whole circles.
pub fn difference(a: u32, b: u32) -> u32
    ensures { result ≡ difference_of a b }
{
    let to = a % CIRCLE;
    let from = b % CIRCLE;
    if from <= to {
        to - from
    } else {
        to + CIRCLE - from
    }
}

// K − C × D + A × p / q, with C and, for the node, A circles put on: C × (circle − D) and A × p forwards. What is
// rounded is not negative.
fn longitude(body: usize, day: Day) -> MeanLongitude
    requires { (body < 9) × (in_range day ≡ true) }
    ensures { result ≡ the_longitude body day }
{
    let row = TABLE[body];
    let turned = row.k + day.cycle * (CIRCLE - row.d);
    let divisor = row.q as u64;
    let moved = day.within as u64 * row.p as u64;
    let whole = turned as u64 + moved / divisor;
    let seconds = (whole % CIRCLE as u64) as u32;
    let remainder = (moved % divisor) as u32;
    MeanLongitude {
        seconds,
        remainder,
        divisor: row.q,
    }
}

// Sixtieths of a second in what was left over.
fn thirds_of(remainder: u32, divisor: u32) -> u32
    requires { (remainder < divisor) × (divisor < 2000) }
    ensures { result ≡ remainder * 60 / divisor }
{
    let sixtieths = remainder * 60;
    sixtieths / divisor
}

// One body's; with a constant body its row folds in.
#[tactic(auto, unfolding(crate::specs::Answers::longitude_of, days::specs::Days::answer_on))]
pub fn mean_longitude(body: Body, day: Day) -> Result<MeanLongitude, Refusal>
    ensures { result ≡ longitude_of body day }
{
    if day.in_range() {
        let index = body.number();
        Ok(longitude(index, day))
    } else {
        Err(Refusal::OutOfRange)
    }
}

// One body's thirds, sixtieths of a second.
pub fn mean_thirds(body: Body, day: Day) -> Result<u32, Refusal>
    ensures { result ≡ thirds_of body day }
{
    let found = mean_longitude(body, day)?;
    Ok(thirds_of(found.remainder, found.divisor))
}

fn nine(day: Day) -> MeanLongitudes
    requires { in_range day ≡ true }
    ensures { result ≡ the_nine day }
{
    let mut longitudes = [0u32; BODIES];
    let mut thirds = [0u32; BODIES];
    for i in 0..BODIES {
        let found = longitude(i, day);
        longitudes[i] = found.seconds;
        thirds[i] = thirds_of(found.remainder, found.divisor);
    }
    MeanLongitudes { longitudes, thirds }
}

#[tactic(auto, unfolding(crate::specs::Answers::longitudes_of, days::specs::Days::answer_on))]
pub fn mean_longitudes(day: Day) -> Result<MeanLongitudes, Refusal>
    ensures { result ≡ longitudes_of day }
{
    if !day.in_range() {
        return Err(Refusal::OutOfRange);
    }
    Ok(nine(day))
}
