// Why a day is not in a query's list: the first condition that it does not meet, or that it fits.
#![tactic(auto)]

ghost use Rattle.std.specs.Prelude.{◌≡◌, true, ◌≤◌};
ghost use Rattle.days.specs.Days.{last_day, in_range, weekday_on};
ghost use Rattle.days.specs.Refusals.{result_number};
ghost use Rattle.longitudes.specs.Longitudes.{longitude_at};
ghost use Rattle.longitudes.specs.Answers.{body_number};
ghost use Rattle.panchanga.specs.TrueLongitudes.{is_edition};
ghost use Rattle.query.specs.Conditions.{meets, weekday_met, in_arcs, true_longitude_at};
ghost use Rattle.query.specs.TrueBodies.{true_number};
ghost use Rattle.reasons.specs.Conditions.{longitude_conditions, true_conditions, conditions_on, first_unmet};
ghost use Rattle.reasons.specs.Reasons.{refusal_on, why_of, cause_of, numbers_of};
ghost use Rattle.reasons.specs.Parts.{TestedFor, element_at};

use days::Day;
use days::refusal::Refusal;
use longitudes::Body;
use query::{Asked, BodyArcs, Query, TrueBody, Weekdays};

// What shuts a day out, with the value asked and the value found: the end of the span that was passed and the day; the
// set of weekdays or of an element's numbers and the day's own; a body's arcs, by its number, and its mean longitude;
// the arcs of one of the seven true places, by its place among them, and that longitude. Or the day fits.
#[derive(Clone, Copy)]
pub enum Reason {
    Fits,
    BeforeSpan {
        first: u32,
        day: u32,
    },
    AfterSpan {
        last: u32,
        day: u32,
    },
    Weekday {
        asked: u32,
        found: u32,
    },
    Tithi {
        asked: u32,
        found: u32,
    },
    Nakshatra {
        asked: u32,
        found: u32,
    },
    Yoga {
        asked: u32,
        found: u32,
    },
    Karana {
        asked: u32,
        found: u32,
    },
    Arcs {
        body: u32,
        asked: BodyArcs,
        found: u32,
    },
    TrueArcs {
        place: u32,
        asked: BodyArcs,
        found: u32,
    },
}

// The reason, in the query's edition.
#[derive(Clone, Copy)]
pub struct Answer {
    pub edition: u32,
    pub reason: Reason,
}

// The elements that a query may ask for.
#[derive(Clone, Copy)]
enum Element {
    Tithi,
    Nakshatra,
    Yoga,
    Karana,
}

// A test of a condition is `None` where it holds, as one does that is not given, and else the value found.

fn test_weekday(asked: Weekdays, number: u32) -> Option<u32>
    requires { number ≤ last_day }
    ensures { TestedFor (weekday_met asked (weekday_on number)) (weekday_on number) result }
{
    if asked.admit(number) {
        return None;
    }
    let found = days::weekday_on(number);
    Some(found)
}

fn element_on(element: Element, edition: u32, day: Day) -> u32
    requires { (in_range day ≡ true) × (is_edition edition ≡ true) }
    ensures { result ≡ element_at element edition day }
{
    match element {
        Element::Tithi => panchanga::tithi(edition, day).unwrap(),
        Element::Nakshatra => panchanga::nakshatra(edition, day).unwrap(),
        Element::Yoga => panchanga::yoga(edition, day).unwrap(),
        Element::Karana => panchanga::karana(edition, day).unwrap(),
    }
}

fn test_element(asked: Asked, element: Element, edition: u32, day: Day) -> Option<u32>
    requires { (in_range day ≡ true) × (is_edition edition ≡ true) }
    ensures { TestedFor (meets asked (element_at element edition day)) (element_at element edition day) result }
{
    if !asked.given {
        return None;
    }
    let found = element_on(element, edition, day);
    if asked.has(found) { None } else { Some(found) }
}

fn test_arcs(asked: BodyArcs, body: Body, day: Day) -> Option<u32>
    requires { in_range day ≡ true }
    ensures { TestedFor (in_arcs asked (longitude_at (body_number body) day)) (longitude_at (body_number body) day) result }
{
    if !asked.given() {
        return None;
    }
    let found = longitudes::mean_longitude(body, day).unwrap();
    if asked.have(found.seconds) {
        None
    } else {
        Some(found.seconds)
    }
}

fn test_true_arcs(asked: BodyArcs, edition: u32, body: TrueBody, day: Day) -> Option<u32>
    requires { (in_range day ≡ true) × (is_edition edition ≡ true) }
    ensures { TestedFor (in_arcs asked (true_longitude_at edition (true_number body) day)) (true_longitude_at edition (true_number body) day) result }
{
    if !asked.given() {
        return None;
    }
    let found = query::true_longitude(edition, body, day).unwrap();
    if asked.have(found) { None } else { Some(found) }
}

// The first true place whose arcs are not met.
fn unmet_true_arcs(edition: u32, arcs: [BodyArcs; query::TRUE_BODIES], day: Day) -> Reason
    requires { (in_range day ≡ true) × (is_edition edition ≡ true) }
    ensures { cause_of result ≡ first_unmet (true_conditions edition arcs day) }
{
    for place in 0..query::TRUE_BODIES {
        let asked = arcs[place];
        if let Some(found) = test_true_arcs(asked, edition, query::TRUE_ORDER[place], day) {
            return Reason::TrueArcs {
                place: place as u32,
                asked,
                found,
            };
        }
    }
    Reason::Fits
}

// The first body whose arcs are not met; behind them the true places.
fn unmet_arcs(query: Query, day: Day) -> Reason
    requires { (in_range day ≡ true) × (is_edition query.edition ≡ true) }
    ensures { cause_of result ≡ first_unmet (longitude_conditions query day) }
{
    let arcs = query.arcs;
    for body in 0..longitudes::BODIES {
        let asked = arcs[body];
        if let Some(found) = test_arcs(asked, longitudes::IN_ORDER[body], day) {
            return Reason::Arcs {
                body: body as u32,
                asked,
                found,
            };
        }
    }
    let true_arcs = query.true_arcs;
    unmet_true_arcs(query.edition, true_arcs, day)
}

// The first condition that a day does not meet, in the order of `conditions_on`. Each is tested only where those before
// it hold, so nothing is reckoned behind it.
fn first_unmet(query: Query, day: u32) -> Reason
    requires { (day ≤ last_day) × (is_edition query.edition ≡ true) }
    ensures { cause_of result ≡ first_unmet (conditions_on query day) }
{
    if day < query.first {
        return Reason::BeforeSpan {
            first: query.first,
            day,
        };
    }
    if query.last < day {
        return Reason::AfterSpan {
            last: query.last,
            day,
        };
    }
    let pair = Day::at(day);
    if let Some(found) = test_weekday(query.weekdays, day) {
        return Reason::Weekday {
            asked: query.weekdays.set,
            found,
        };
    }
    if let Some(found) = test_element(query.tithi, Element::Tithi, query.edition, pair) {
        return Reason::Tithi {
            asked: query.tithi.set,
            found,
        };
    }
    if let Some(found) = test_element(query.nakshatra, Element::Nakshatra, query.edition, pair) {
        return Reason::Nakshatra {
            asked: query.nakshatra.set,
            found,
        };
    }
    if let Some(found) = test_element(query.yoga, Element::Yoga, query.edition, pair) {
        return Reason::Yoga {
            asked: query.yoga.set,
            found,
        };
    }
    if let Some(found) = test_element(query.karana, Element::Karana, query.edition, pair) {
        return Reason::Karana {
            asked: query.karana.set,
            found,
        };
    }
    unmet_arcs(query, pair)
}

// Whether the question is refused: for the edition, then for the day, then for what else the query is refused for, as
// a look is.
fn check(query: Query, day: u32) -> Result<(), Refusal>
    ensures { result_number result ≡ refusal_on query day }
{
    if !panchanga::is_edition(query.edition) {
        return Err(Refusal::BadEdition);
    }
    if Day::LAST < day {
        return Err(Refusal::OutOfRange);
    }
    query.check()
}

// Why a day is not in the list that the search makes of a query, or that it is.
pub fn why(query: Query, day: u32) -> Result<Answer, Refusal>
    ensures { numbers_of result ≡ why_of query day }
{
    check(query, day)?;
    let reason = first_unmet(query, day);
    Ok(Answer {
        edition: query.edition,
        reason,
    })
}
