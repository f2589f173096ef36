// The search: every day that matches a query, written to a list of bytes, or nothing; and the look, by which it
// examines a day.
#![tactic(auto)]

ghost use Rattle.std.specs.Prelude.{◌≡◌, true, ◌&&◌, ◌+◌, ◌≤◌, length, drop};
ghost use Rattle.days.specs.Days.{last_day, in_range, weekday_on};
ghost use Rattle.entries.specs.Entries.{capacity, with_entries_from};
ghost use Rattle.query.specs.Conditions.{arcs_given, body_arcs_in_range, weekday_met};
ghost use Rattle.panchanga.specs.TrueLongitudes.{is_edition};
ghost use Rattle.query.specs.Query.{in_span, refusal_of};
ghost use Rattle.query.specs.Parts.{others_met};
ghost use Rattle.search.specs.declared.SearchError.TheVariants.{Refused};
ghost use Rattle.search.specs.Look.{looked, examined_of};
ghost use Rattle.search.specs.Days.{matching_days};
ghost use Rattle.search.specs.Search.{search_number, Measured, Searched, first_listed};
ghost use Rattle.search.specs.Spans.{between};
ghost use Rattle.search.specs.Parts.{other_arcs_given, elements_given, GivenPlaces, Asks, leading_arc, both_given, approach_to, Approached, VisitAt, first_visit, visit_after, kept, Scannable, Tallied};

use days::Day;
use days::refusal::Refusal;
use longitudes::{Body, CIRCLE};
use query::{Arc, BodyArcs, Query, TRUE_BODIES, TRUE_ORDER, TrueBody};

// The most that the mean Sun advances in a day, in seconds of arc.
const SUN_ADVANCE: u32 = 3549;

// How many of the matching days are kept beside a list that may be too short for them.
const KEPT: usize = 176;

const KEPT_BYTES: usize = entries::ENTRY_BYTES * KEPT;

// Whether a day matches, and the day that the scan visits next.
#[derive(Clone, Copy)]
pub struct Examined {
    pub matches: bool,
    pub next: u32,
}

// How many days match, and how many were examined to find them.
#[derive(Clone, Copy)]
pub struct Found {
    pub length: u32,
    pub examined: u32,
}

// Why no list was written: the query is refused, or its matching days, of which there are so many, do not fit.
#[derive(Clone, Copy)]
pub enum SearchError {
    Refused(Refusal),
    ListTooShort(Found),
}

// A day that the scan visits, and how many were examined before it.
#[derive(Clone, Copy)]
struct Visit {
    day: u32,
    examined: u32,
}

// What one pass over the visited days finds; `latest` is the last day that matched, or the day that it began with, and
// `resume` the visit behind the last day that was put into the output.
#[derive(Clone, Copy)]
struct Tally {
    length: u32,
    examined: u32,
    latest: u32,
    resume: Visit,
}

// What is asked beside the mean Sun's arcs and the weekdays: nothing, elements alone, one body's true longitude alone,
// or several of these or other bodies' mean longitudes.
#[derive(Clone, Copy)]
enum More {
    Nothing,
    Elements,
    TrueArcs { body: TrueBody, arcs: BodyArcs },
    Several,
}

// The places of the bodies of which a true longitude is asked for: there are none, one, or several.
#[derive(Clone, Copy)]
enum Places {
    None,
    One(usize),
    Several,
}

impl From<Refusal> for SearchError {
    ghost from_gives = { λ refusal error. error ≡ Refused refusal };

    fn from(refusal: Refusal) -> SearchError {
        SearchError::Refused(refusal)
    }
}

// Of a search's answer: 0, or the number of its refusal.
#[tactic(auto, unfolding(crate::specs::Search::search_number))]
pub fn search_number(answer: Result<Found, SearchError>) -> u32
    ensures { result ≡ search_number answer }
{
    match answer {
        Ok(_) => 0,
        Err(SearchError::Refused(refusal)) => refusal.number(),
        Err(SearchError::ListTooShort(_)) => Refusal::ListTooShort.number(),
    }
}

impl Tally {
    fn found(self) -> Found
        ensures { result ≡ record { length = self.length; examined = self.examined } }
    {
        Found {
            length: self.length,
            examined: self.examined,
        }
    }
}

fn more_asked(query: Query) -> More
    ensures { Asks query result }
{
    let arcs = query.arcs;
    if other_arcs_given(arcs) {
        return More::Several;
    }
    let true_arcs = query.true_arcs;
    let elements = elements_given(query);
    match given_places(true_arcs) {
        Places::None => {
            if elements {
                More::Elements
            } else {
                More::Nothing
            }
        }
        Places::One(place) => {
            if elements {
                More::Several
            } else {
                let body = TRUE_ORDER[place];
                let asked = true_arcs[place];
                More::TrueArcs { body, arcs: asked }
            }
        }
        Places::Several => More::Several,
    }
}

#[tactic(auto, unfolding(crate::specs::Parts::elements_given))]
fn elements_given(query: Query) -> bool
    ensures { result ≡ elements_given query }
{
    query.tithi.given || query.nakshatra.given || query.yoga.given || query.karana.given
}

fn given_places(arcs: [BodyArcs; TRUE_BODIES]) -> Places
    ensures { GivenPlaces arcs result }
{
    let mut places = Places::None;
    for (place, of_body) in arcs.iter().enumerate() {
        if of_body.given() {
            places = match places {
                Places::None => Places::One(place),
                Places::One(_) | Places::Several => Places::Several,
            };
        }
    }
    places
}

fn other_arcs_given(arcs: [BodyArcs; 9]) -> bool
    ensures { result ≡ other_arcs_given arcs }
{
    for of_body in &arcs[1..] {
        if of_body.given() {
            return true;
        }
    }
    false
}

// Of the arcs the first that is given, or the second.
#[tactic(auto, unfolding(crate::specs::Parts::leading_arc))]
fn leading(arcs: BodyArcs) -> Arc
    ensures { result ≡ leading_arc arcs }
{
    if arcs.first.given {
        arcs.first
    } else {
        arcs.second
    }
}

#[tactic(auto, unfolding(crate::specs::Parts::both_given))]
fn both_given(arcs: BodyArcs) -> bool
    ensures { result ≡ both_given arcs }
{
    arcs.first.given && arcs.second.given
}

// How many seconds ahead of a longitude an arc begins, or `None` where the longitude is in it.
fn to_arc(arc: Arc, longitude: u32) -> Option<u32>
    ensures { result ≡ approach_to arc longitude }
{
    let past = longitudes::difference(longitude, arc.start);
    if past < arc.width {
        None
    } else {
        Some(CIRCLE - past)
    }
}

// The same of the arcs that are given: to the nearer start, or `None` where the longitude is in one of them.
fn nearer(arcs: BodyArcs, longitude: u32) -> Option<u32>
    requires { (body_arcs_in_range arcs ≡ true) × (arcs_given arcs ≡ true) }
    ensures { Approached arcs longitude result }
{
    let first = to_arc(leading(arcs), longitude)?;
    if !both_given(arcs) {
        return Some(first);
    }
    let second = to_arc(arcs.second, longitude)?;
    Some(first.min(second))
}

// Whether a day meets what is asked beside the mean Sun's arcs and the weekdays. Where the elements or one true
// longitude is all that is asked, these alone are handed on: a whole query is copied field by field.
#[inline(always)]
fn more_met(query: &Query, more: More, day: Day) -> bool
    requires asks { Asks query.now more }
    requires known { (is_edition query.now.edition ≡ true) × (in_range day ≡ true) }
    ensures { result ≡ others_met query.now day }
{
    match more {
        More::Nothing => true,
        More::Elements => query::elements_met(
            query.edition,
            query.tithi,
            query.nakshatra,
            query.yoga,
            query.karana,
            day,
        ),
        More::TrueArcs { body, arcs } => query::true_arcs_have(query.edition, body, arcs, day),
        More::Several => query::others_met(*query, day),
    }
}

// What is seen of a visited day with the Sun in its arcs, or with no such arc given: the weekday decides, then what
// else is asked. (It is called in two places and inlined in both: called in one, behind an `if` for the Sun, it makes a
// dense search execute a sixth more instructions, since the compiler then puts `others_met`, to which most days do not
// come, into the scan's loop.)
#[inline(always)]
fn within(query: &Query, more: More, pair: Day, day: u32) -> Examined
    requires asks { Asks query.now more }
    requires known { (is_edition query.now.edition ≡ true) × (in_range pair ≡ true) × (day ≤ last_day) }
    ensures { result ≡ record { matches = weekday_met query.now.weekdays (weekday_on day) && others_met query.now pair; next = day + 1 } }
{
    let weekdays = query.weekdays;
    if !weekdays.admit(day) {
        return Examined {
            matches: false,
            next: day + 1,
        };
    }
    Examined {
        matches: more_met(query, more, pair),
        next: day + 1,
    }
}

// Paper 01's look: whether a visited day matches, and the day that the scan visits next. It is the search's only way to
// longitudes and conditions, and by what it requires the day is the one whose turn it is; it reckons them for that day
// and for no other. The Sun's arcs come first, since they decide the next day, then the weekday, then what else is
// asked, which may be nothing. (That the day is one at all is read off its number, so that the compiler reckons in 32
// bits.)
fn examine_day(query: Query, more: More, visit: Visit) -> Examined
    requires query_value { refusal_of query ≡ 0 }
    requires asks { Asks query more }
    requires day_value { in_span query visit.day ≡ true }
    requires visit_at { VisitAt query visit.examined visit.day }
    ensures { result ≡ looked query visit.day }
{
    let day = visit.day;
    let pair = Day::from_number(day).unwrap();
    let arcs = query.arcs[0];
    if !arcs.given() {
        return within(&query, more, pair, day);
    }
    let sun = longitudes::mean_longitude(Body::Sun, pair).unwrap();
    match nearer(arcs, sun.seconds) {
        None => within(&query, more, pair, day),
        Some(ahead) => Examined {
            matches: false,
            next: day + (ahead + (SUN_ADVANCE - 1)) / SUN_ADVANCE,
        },
    }
}

// The step to the next visit: the day handed back, with one more examined before it.
fn next_visit(visit: Visit, seen: Examined) -> Visit
    requires { visit.examined ≤ last_day }
    ensures { result ≡ visit_after visit seen.next }
{
    Visit {
        day: seen.next,
        examined: visit.examined + 1,
    }
}

fn first_visit(query: Query) -> Visit
    ensures { result ≡ first_visit query }
{
    Visit {
        day: query.first,
        examined: 0,
    }
}

fn in_span(query: Query, day: u32) -> bool
    ensures { result ≡ in_span query day }
{
    query.first <= day && day <= query.last
}

// The query over one day alone.
fn over_day(query: Query, day: u32) -> Query
    ensures { result ≡ between query day day }
{
    let weekdays = query.weekdays;
    let tithi = query.tithi;
    let nakshatra = query.nakshatra;
    let yoga = query.yoga;
    let karana = query.karana;
    let arcs = query.arcs;
    let true_arcs = query.true_arcs;
    Query {
        first: day,
        last: day,
        edition: query.edition,
        weekdays,
        tithi,
        nakshatra,
        yoga,
        karana,
        arcs,
        true_arcs,
    }
}

// What the look says of any day, for any query: the day is examined as the only one of a span, and matches where it is
// of the query's own. It is refused as the search is; a day that is none comes before what the query is refused for,
// but for its edition.
pub fn examine(query: Query, day: u32) -> Result<Examined, Refusal>
    ensures { result ≡ examined_of query day }
{
    if !panchanga::is_edition(query.edition) {
        return Err(Refusal::BadEdition);
    }
    if Day::LAST < day {
        return Err(Refusal::OutOfRange);
    }
    query.check()?;
    let alone = over_day(query, day);
    let more = more_asked(alone);
    let visit = first_visit(alone);
    let seen = examine_day(alone, more, visit);
    if in_span(query, day) {
        return Ok(seen);
    }
    Ok(Examined {
        matches: false,
        next: seen.next,
    })
}

// One pass over the visited days, from one of them up to day `until`: it counts the matching days, of which there were
// `count` before it, and puts as many of them into the output as it has entries.
fn scan(query: Query, start: Visit, count: u32, until: u32, output: &mut [u8]) -> Tally
    requires { Scannable query start count until (capacity output.old) }
    ensures tallied { Tallied query start until (capacity output.old) result }
    ensures output_after { output.new ≡ with_entries_from output.old count (drop count (matching_days query)) }
{
    let room = output.len() / entries::ENTRY_BYTES;
    let more = more_asked(query);
    let mut visit = start;
    let mut length = count;
    let mut latest = start.day;
    let mut resume = start;
    while visit.day <= until {
        let seen = examine_day(query, more, visit);
        let next = next_visit(visit, seen);
        if seen.matches {
            let index = length as usize;
            entries::put_entry(output, index, visit.day);
            length += 1;
            latest = visit.day;
            if index < room {
                resume = next;
            }
        }
        visit = next;
    }
    Tally {
        length,
        examined: visit.examined,
        latest,
        resume,
    }
}

// How many days match and how many the search examines, with no list.
pub fn measure(query: Query) -> Result<Found, Refusal>
    ensures { Measured query result }
{
    query.check()?;
    let mut none = [0u8; 0];
    let start = first_visit(query);
    let tally = scan(query, start, 0, query.last, &mut none);
    Ok(tally.found())
}

// How many days match and how many the search examines, with the first of the matching days written to the list, as
// many as it has entries: for a list that its owner lets stand half filled.
pub fn list_first(query: Query, list: &mut [u8]) -> Result<Found, Refusal>
    ensures measured { Measured query result }
    ensures list_after { list.new ≡ first_listed query list.old }
{
    query.check()?;
    let start = first_visit(query);
    let all = scan(query, start, 0, query.last, list);
    Ok(all.found())
}

// The second pass, for the matching days behind those that the first one kept: it goes on from the visit behind the
// last of these, up to the last match. Each day is counted once, so the numbers handed back are the first pass's.
fn write_rest(query: Query, counted: Tally, list: &mut [u8]) -> Found
    requires { Scannable query counted.resume kept counted.latest (capacity list.old) }
    ensures value { result ≡ record { length = counted.length; examined = counted.examined } }
    ensures list_after { list.new ≡ with_entries_from list.old kept (drop kept (matching_days query)) }
{
    let resume = counted.resume;
    scan(query, resume, KEPT as u32, counted.latest, list);
    counted.found()
}

// Writes the matching days to the list, earliest first, or leaves it as it was. Where the list has an entry for each
// day of the span, whatever matches fits, and one pass counts and writes; else the first ones are kept beside it until
// it is known whether all fit. (This is one function, since each call that hands the query on has a copy of it on the
// stack.)
pub fn search(query: Query, list: &mut [u8]) -> Result<Found, SearchError>
    ensures { Searched query list.old result list.new }
{
    query.check()?;
    let capacity = list.len() / entries::ENTRY_BYTES;
    let days_less_one = (query.last - query.first) as usize;
    let start = first_visit(query);
    if days_less_one < capacity {
        let tally = scan(query, start, 0, query.last, list);
        return Ok(tally.found());
    }
    let mut kept = [0u8; KEPT_BYTES];
    let tally = scan(query, start, 0, query.last, &mut kept);
    let needed = tally.length as usize;
    if capacity < needed {
        return Err(SearchError::ListTooShort(tally.found()));
    }
    if needed <= KEPT {
        let bytes = entries::ENTRY_BYTES * needed;
        entries::copy(&kept[..bytes], list);
        return Ok(tally.found());
    }
    entries::copy(&kept, list);
    Ok(write_rest(query, tally, list))
}
