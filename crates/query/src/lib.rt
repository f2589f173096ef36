// A query: its conditions, their ranges, and whether a day meets them.
#![tactic(auto)]

ghost use Rattle.std.specs.Prelude.{◌≡◌, true, ◌&&◌, ◌≤◌, min, leb};
ghost use Rattle.days.specs.Days.{last_day, weekday_on, in_range};
ghost use Rattle.longitudes.specs.Longitudes.{longitude_at};
ghost use Rattle.longitudes.specs.Answers.{body_number};
ghost use Rattle.panchanga.specs.TrueLongitudes.{is_edition};
ghost use Rattle.panchanga.specs.OnDays.{nakshatra_at};
ghost use Rattle.std.specs.List.{list_all};
ghost use Rattle.query.specs.Conditions.{only_weekday, only_arc, has_number, with_number, meets, weekday_met, arcs_given, given_arcs, in_arc, in_some, in_arcs, numbers_in_range, weekdays_in_range, arc_in_range, body_arcs_in_range, elements_in_range, conditions_in_range, elements_met, true_longitude_at, true_arcs_met};
ghost use Rattle.query.specs.Query.{check_of};
ghost use Rattle.query.specs.TrueBodies.{true_number, true_longitude_of};
ghost use Rattle.query.specs.SunArcs.{wider_arc, wider_arcs, with_sun_arcs};
ghost use Rattle.query.specs.Parts.{other_arcs_met, others_met};

use days::Day;
use days::refusal::Refusal;
use longitudes::{Body, CIRCLE};
use planets::Planet;

// The set of all seven weekdays.
const EVERY_WEEKDAY: u32 = 127;

// The numbers from here up share a bit in a set of numbers.
const SHARED_BIT: u32 = 31;

// A set of tithis, of nakshatras or yogas and of karanas is below the bit behind the largest; that of karana 0, which
// is none, is left out.
const TITHIS: u32 = 1073741824;

const NAKSHATRAS: u32 = 134217728;

const KARANAS: u32 = 4096;

// The largest equation of the Sun: the true Sun is never farther from the mean one.
const LARGEST_EQUATION: u32 = 7845;

// Numbers that are asked for, a bit for each, that of 0 the lowest; any of them will do. Numbers from 31 up share a
// bit, which no element has. Where none are given, every number will do and `set` means nothing.
// Kept: a flag beside a value, since `with_number` and `conditions_on` of reasons name the set of one not given too.
#[derive(Clone, Copy)]
pub struct Asked {
    pub given: bool,
    pub set: u32,
}

// The weekdays that will do, a bit for each, Monday's the lowest. Where they are not given, every weekday will do and
// `set` means nothing.
// Kept: a flag beside a value, since `conditions_on` of reasons names the set of weekdays that are not given too.
#[derive(Clone, Copy)]
pub struct Weekdays {
    pub given: bool,
    pub set: u32,
}

// An arc of longitudes, in seconds of arc. Where it is not given, its numbers mean nothing.
// Kept: a flag beside values, since `arc_numbers`, which C is told, has the start and width of one not given too.
#[derive(Clone, Copy)]
pub struct Arc {
    pub given: bool,
    pub start: u32,
    pub width: u32,
}

// The arcs of a body, either of which will do. Where neither is given, every longitude will do.
#[derive(Clone, Copy)]
pub struct BodyArcs {
    pub first: Arc,
    pub second: Arc,
}

// The bodies of which a true longitude may be asked for.
#[derive(Clone, Copy)]
pub enum TrueBody {
    Sun,
    Moon,
    Mars,
    Mercury,
    Jupiter,
    Venus,
    Saturn,
}

pub const TRUE_BODIES: usize = 7;

pub const TRUE_ORDER: [TrueBody; TRUE_BODIES] = [
    TrueBody::Sun,
    TrueBody::Moon,
    TrueBody::Mars,
    TrueBody::Mercury,
    TrueBody::Jupiter,
    TrueBody::Venus,
    TrueBody::Saturn,
];

// Paper 01's reading: a first and a last day, both counted, paper 02's edition, by which the elements and the true Moon
// are reckoned, and the conditions; the arcs of mean longitudes in the order of the bodies, those of true longitudes in
// `TRUE_ORDER`.
#[derive(Clone, Copy)]
pub struct Query {
    pub first: u32,
    pub last: u32,
    pub edition: u32,
    pub weekdays: Weekdays,
    pub tithi: Asked,
    pub nakshatra: Asked,
    pub yoga: Asked,
    pub karana: Asked,
    pub arcs: [BodyArcs; 9],
    pub true_arcs: [BodyArcs; TRUE_BODIES],
}

// A number's place in a set of numbers.
fn place_of(number: u32) -> u32
    ensures { result ≡ min number 31 }
{
    number.min(SHARED_BIT)
}

impl Asked {
    pub const NONE: Asked = Asked {
        given: false,
        set: 0,
    };

    // A set that is given has a number, all of them below a bit and at or above another.
    #[tactic(auto, unfolding(crate::specs::Conditions::numbers_in_range))]
    fn in_range(self, least: u32, past: u32) -> bool
        requires { 1 ≤ least }
        ensures { result ≡ numbers_in_range self least past }
    {
        !self.given || (0 < self.set && self.set < past && self.set % least == 0)
    }

    // Whether the set has a number.
    pub fn has(self, number: u32) -> bool
        ensures { result ≡ has_number self.set number }
    {
        let place = place_of(number);
        (self.set >> place) % 2 == 1
    }

    // The same with one number more.
    pub fn with(self, number: u32) -> Asked
        ensures { result ≡ with_number self number }
    {
        if self.has(number) {
            return Asked {
                given: true,
                set: self.set,
            };
        }
        let bit = 1 << place_of(number);
        let set = self.set + bit;
        Asked { given: true, set }
    }

    // Whether a value will do: any where none is asked for.
    #[tactic(auto, unfolding(crate::specs::Conditions::meets))]
    pub fn admits(self, value: u32) -> bool
        ensures { result ≡ meets self value }
    {
        // Kept: as one condition with `||` it makes the test of a day's elements execute 5 percent more instructions.
        if self.given { self.has(value) } else { true }
    }
}

// The weekday of a day: the first three bits of the fraction of number / 7. The compiler makes a product and a shift of
// it, where the remainder takes a division.
fn weekday_of(number: u32) -> u32
    requires { number ≤ last_day }
    ensures { result ≡ weekday_on number }
{
    let sevenths = number as u64 * 613566757 % 4294967296;
    (sevenths / 536870912) as u32
}

impl Weekdays {
    pub const NONE: Weekdays = Weekdays {
        given: false,
        set: 0,
    };

    // One weekday alone. A number that is no weekday makes a set that is refused.
    pub fn only(weekday: u32) -> Weekdays
        ensures { result ≡ only_weekday weekday }
    {
        let set = days::weekday_bit(weekday);
        Weekdays { given: true, set }
    }

    // Whether a day's weekday will do: any where none is asked for. Of a number that is no day none will.
    pub fn admit(self, number: u32) -> bool
        ensures { result ≡ (leb number last_day && weekday_met self (weekday_on number)) }
    {
        number <= Day::LAST && (!self.given || (self.set >> weekday_of(number)) % 2 == 1)
    }

    #[tactic(auto, unfolding(crate::specs::Conditions::weekdays_in_range))]
    fn in_range(self) -> bool
        ensures { result ≡ weekdays_in_range self }
    {
        !self.given || (1 <= self.set && self.set <= EVERY_WEEKDAY)
    }
}

impl Arc {
    pub const NONE: Arc = Arc {
        given: false,
        start: 0,
        width: 0,
    };

    #[tactic(auto, unfolding(crate::specs::Conditions::arc_in_range))]
    fn in_range(self) -> bool
        ensures { result ≡ arc_in_range self }
    {
        !self.given || (self.start < CIRCLE && 1 <= self.width && self.width <= CIRCLE)
    }

    // Whether it is given and has a longitude.
    #[tactic(auto, unfolding(crate::specs::Conditions::in_arc))]
    fn has(self, longitude: u32) -> bool
        ensures { result ≡ (self.given && in_arc self longitude) }
    {
        self.given && panchanga::difference_on_circle(longitude, self.start) < self.width
    }
}

impl Arc {
    // Wider by the Sun's largest equation on both sides; the whole circle where that is no less.
    fn wider(self) -> Arc
        ensures { result ≡ wider_arc self }
    {
        let start = longitudes::difference(self.start, LARGEST_EQUATION);
        if self.width < CIRCLE - 2 * LARGEST_EQUATION {
            return Arc {
                given: self.given,
                start,
                width: self.width + 2 * LARGEST_EQUATION,
            };
        }
        Arc {
            given: self.given,
            start,
            width: CIRCLE,
        }
    }
}

impl BodyArcs {
    pub const NONE: BodyArcs = BodyArcs {
        first: Arc::NONE,
        second: Arc::NONE,
    };

    // One arc alone.
    pub fn only(arc: Arc) -> BodyArcs
        ensures { result ≡ only_arc arc }
    {
        BodyArcs {
            first: arc,
            second: Arc::NONE,
        }
    }

    pub fn given(self) -> bool
        ensures { result ≡ arcs_given self }
    {
        self.first.given || self.second.given
    }

    #[tactic(auto, unfolding(crate::specs::Conditions::body_arcs_in_range))]
    fn in_range(self) -> bool
        ensures { result ≡ body_arcs_in_range self }
    {
        self.first.in_range() && self.second.in_range()
    }

    fn wider(self) -> BodyArcs
        ensures { result ≡ wider_arcs self }
    {
        let first = self.first.wider();
        let second = self.second.wider();
        BodyArcs { first, second }
    }

    // Whether one that is given has a longitude.
    pub fn have(self, longitude: u32) -> bool
        ensures { result ≡ in_some (given_arcs self) longitude }
    {
        self.first.has(longitude) || self.second.has(longitude)
    }
}

// Whether the arcs of each body are in range. (A call of its own: unrolled where it is called it takes a tenth of the
// archive for C.)
#[inline(never)]
fn all_in_range(arcs: &[BodyArcs]) -> bool
    ensures { result ≡ list_all body_arcs_in_range arcs.now }
{
    for of_body in arcs {
        if !of_body.in_range() {
            return false;
        }
    }
    true
}

fn elements_in_range(query: Query) -> bool
    ensures { result ≡ elements_in_range query }
{
    let tithi = query.tithi;
    if !tithi.in_range(1, TITHIS) {
        return false;
    }
    let nakshatra = query.nakshatra;
    if !nakshatra.in_range(1, NAKSHATRAS) {
        return false;
    }
    let yoga = query.yoga;
    if !yoga.in_range(1, NAKSHATRAS) {
        return false;
    }
    let karana = query.karana;
    karana.in_range(2, KARANAS)
}

fn conditions_in_range(query: Query) -> bool
    ensures { result ≡ conditions_in_range query }
{
    let weekdays = query.weekdays;
    if !weekdays.in_range() {
        return false;
    }
    if !elements_in_range(query) {
        return false;
    }
    let arcs = query.arcs;
    if !all_in_range(&arcs) {
        return false;
    }
    let true_arcs = query.true_arcs;
    all_in_range(&true_arcs)
}

impl Query {
    // Whether the query is refused whatever list is lent, and why.
    pub fn check(self) -> Result<(), Refusal>
        ensures { result ≡ check_of self }
    {
        if !panchanga::is_edition(self.edition) {
            return Err(Refusal::BadEdition);
        }
        days::check_span(self.first, self.last)?;
        if conditions_in_range(self) {
            Ok(())
        } else {
            Err(Refusal::BadCondition)
        }
    }

    // The query that finds the same days faster. The scan goes by the mean Sun: where the true Sun is asked for and the
    // mean one is not, the mean Sun is asked for too, in the arcs made wider, which it cannot leave on a day that has
    // the true Sun in its own.
    pub fn with_sun_arcs(self) -> Query
        ensures { result ≡ with_sun_arcs self }
    {
        let mut query = self;
        let sun = query.arcs[0];
        let true_sun = query.true_arcs[0];
        if sun.given() {
            return query;
        }
        if !true_sun.given() {
            return query;
        }
        let mut arcs = query.arcs;
        arcs[0] = true_sun.wider();
        query.arcs = arcs;
        query
    }
}

fn in_arcs(arcs: BodyArcs, body: Body, day: Day) -> bool
    requires { in_range day ≡ true }
    ensures { result ≡ in_arcs arcs (longitude_at (body_number body) day) }
{
    if arcs.given() {
        let found = longitudes::mean_longitude(body, day).unwrap();
        arcs.have(found.seconds)
    } else {
        true
    }
}

// The arcs of all bodies but the Sun.
fn other_arcs_met(arcs: [BodyArcs; 9], day: Day) -> bool
    requires { in_range day ≡ true }
    ensures { result ≡ other_arcs_met arcs day }
{
    if !in_arcs(arcs[1], Body::Moon, day) {
        return false;
    }
    if !in_arcs(arcs[2], Body::MoonApogee, day) {
        return false;
    }
    if !in_arcs(arcs[3], Body::MoonNode, day) {
        return false;
    }
    if !in_arcs(arcs[4], Body::Mars, day) {
        return false;
    }
    if !in_arcs(arcs[5], Body::MercuryAnomaly, day) {
        return false;
    }
    if !in_arcs(arcs[6], Body::Jupiter, day) {
        return false;
    }
    if !in_arcs(arcs[7], Body::VenusAnomaly, day) {
        return false;
    }
    in_arcs(arcs[8], Body::Saturn, day)
}

// Whether a day has the elements asked for. True longitudes take long to reckon: this is done only where an element is
// asked for, the Sun's only for one that hangs on both lights. A pair that is no day has none, nor has any day in what
// is no edition.
pub fn elements_met(
    edition: u32,
    tithi: Asked,
    nakshatra: Asked,
    yoga: Asked,
    karana: Asked,
    day: Day,
) -> bool
    ensures { result ≡ (is_edition edition && (in_range day && elements_met edition tithi nakshatra yoga karana day)) }
{
    if !panchanga::is_edition(edition) {
        return false;
    }
    if !day.in_range() {
        return false;
    }
    if !tithi.given {
        if !yoga.given {
            if !karana.given {
                return nakshatra_met(nakshatra, edition, day);
            }
        }
    }
    let found = panchanga::true_lights(edition, day).unwrap();
    if !tithi.admits(panchanga::tithi_of(found.sun, found.moon)) {
        return false;
    }
    if !nakshatra.admits(panchanga::nakshatra_of(found.moon)) {
        return false;
    }
    if !yoga.admits(panchanga::yoga_of(found.sun, found.moon)) {
        return false;
    }
    karana.admits(panchanga::karana_of(found.sun, found.moon))
}

fn nakshatra_met(asked: Asked, edition: u32, day: Day) -> bool
    requires { (in_range day ≡ true) × (is_edition edition ≡ true) }
    ensures { result ≡ meets asked (nakshatra_at edition day) }
{
    if asked.given {
        let found = panchanga::nakshatra(edition, day).unwrap();
        asked.has(found)
    } else {
        true
    }
}

fn true_on(edition: u32, body: TrueBody, day: Day) -> u32
    requires { (in_range day ≡ true) × (is_edition edition ≡ true) }
    ensures { result ≡ true_longitude_at edition (true_number body) day }
{
    match body {
        TrueBody::Sun => panchanga::true_sun(day).unwrap(),
        TrueBody::Moon => panchanga::true_moon(edition, day).unwrap(),
        TrueBody::Mars => planets::true_longitude(Planet::Mars, day).unwrap(),
        TrueBody::Mercury => planets::true_longitude(Planet::Mercury, day).unwrap(),
        TrueBody::Jupiter => planets::true_longitude(Planet::Jupiter, day).unwrap(),
        TrueBody::Venus => planets::true_longitude(Planet::Venus, day).unwrap(),
        TrueBody::Saturn => planets::true_longitude(Planet::Saturn, day).unwrap(),
    }
}

// A true longitude on a day, the Moon's in an edition.
pub fn true_longitude(edition: u32, body: TrueBody, day: Day) -> Result<u32, Refusal>
    ensures { result ≡ true_longitude_of edition body day }
{
    let known = panchanga::is_edition(edition);
    if !known {
        Err(Refusal::BadEdition)
    } else if day.in_range() {
        Ok(true_on(edition, body, day))
    } else {
        Err(Refusal::OutOfRange)
    }
}

// Whether a body's true longitude will do, which is reckoned only where an arc is given. A pair that is no day has
// none, nor has any day in what is no edition.
pub fn true_arcs_have(edition: u32, body: TrueBody, arcs: BodyArcs, day: Day) -> bool
    ensures { result ≡ (is_edition edition && (in_range day && in_arcs arcs (true_longitude_at edition (true_number body) day))) }
{
    let known = panchanga::is_edition(edition);
    if !known {
        return false;
    }
    let there = day.in_range();
    if !there {
        return false;
    }
    if arcs.given() {
        let found = true_on(edition, body, day);
        arcs.have(found)
    } else {
        true
    }
}

fn true_arcs_met(edition: u32, arcs: [BodyArcs; TRUE_BODIES], day: Day) -> bool
    requires { (in_range day ≡ true) × (is_edition edition ≡ true) }
    ensures { result ≡ true_arcs_met edition arcs day }
{
    for (place, of_body) in arcs.iter().enumerate() {
        if !true_arcs_have(edition, TRUE_ORDER[place], *of_body, day) {
            return false;
        }
    }
    true
}

// Whether a day meets all conditions beside the Sun's arcs and the weekdays: the other bodies' arcs, then the elements,
// then the true longitudes. A pair that is no day meets none, nor does any day those of a query without an edition.
pub fn others_met(query: Query, pair: Day) -> bool
    ensures { result ≡ others_met query pair }
{
    if !pair.in_range() {
        return false;
    }
    let arcs = query.arcs;
    if !other_arcs_met(arcs, pair) {
        return false;
    }
    let elements = elements_met(
        query.edition,
        query.tithi,
        query.nakshatra,
        query.yoga,
        query.karana,
        pair,
    );
    if !elements {
        return false;
    }
    let true_arcs = query.true_arcs;
    true_arcs_met(query.edition, true_arcs, pair)
}
