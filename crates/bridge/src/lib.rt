// The general search, the look, the reason why a day is not listed, the catalogue's pieces, the mean longitudes, the
// elements, the five planets, records filled at one go, the drifts from the older books, ISO dates and lines of days,
// rows of month starts, and almanac files read block by block as C calls, for comparison runs and not for hosts: a
// query comes as 436 bytes, 109 numbers of four, low byte first.
// They are the first and the last day; for weekdays, tithi, nakshatra and yoga: given (0 no, any other number yes) and
// set; for each body its first arc: given, start and width; the edition; for each body its second arc; for karanas
// given and set; and for each true longitude its first and its second arc.
#![tactic(auto)]

mod bodies;
mod drifts;
mod elements;
mod file_blocks;
mod five;
mod iso_dates;
mod looks;
mod months;
mod pieces;
mod rows;
mod whys;

ghost use Rattle.std.specs.Prelude.{◌≡◌, ◌+◌, ◌<◌, map, All};
ghost use Rattle.days.specs.Refusals.{and_then};
ghost use Rattle.search.specs.Search.{measured_of};
ghost use Rattle.bridge.specs.Bytes.{number_from, weekdays_from, asked_from, arc_from, body_arcs_from, query_from, query_read};
ghost use Rattle.bridge.specs.Answers.{bridge_result, bridge_list, bridge_refusal, bridge_first, bridge_length, bridge_looked};

use days::refusal::{Refusal, result_number};
use query::{Arc, Asked, BodyArcs, Query, Weekdays};
use search::{Found, search_number};

const QUERY_BYTES: usize = 436;

fn number(query: &[u8], place: usize) -> u32
    ensures { result ≡ number_from query.now place }
{
    entries::entry_at(query, place).unwrap_or(0)
}

fn weekdays(query: &[u8]) -> Weekdays
    ensures { result ≡ weekdays_from query.now }
{
    let given = number(query, 2) != 0;
    let set = number(query, 3);
    Weekdays { given, set }
}

fn asked(query: &[u8], place: usize) -> Asked
    requires { place < 108 }
    ensures { result ≡ asked_from query.now place }
{
    let given = number(query, place) != 0;
    let set = number(query, place + 1);
    Asked { given, set }
}

fn arc(query: &[u8], place: usize) -> Arc
    requires { place < 107 }
    ensures { result ≡ arc_from query.now place }
{
    let given = number(query, place) != 0;
    let start = number(query, place + 1);
    let width = number(query, place + 2);
    Arc {
        given,
        start,
        width,
    }
}

// The first of a body's arcs is at a place, the second some numbers behind it.
fn body_arcs(query: &[u8], place: usize, apart: usize) -> BodyArcs
    requires { place + apart < 107 }
    ensures { result ≡ body_arcs_from query.now apart place }
{
    let first = arc(query, place);
    let second = arc(query, place + apart);
    BodyArcs { first, second }
}

// Both arcs of bodies whose first arcs are at these places.
fn arcs_at<const N: usize>(query: &[u8], places: &[usize; N], apart: usize) -> [BodyArcs; N]
    requires { All (λ place. place + apart < 107) places.now }
    ensures { result ≡ map (body_arcs_from query.now apart) places.now }
{
    let mut arcs = [BodyArcs::NONE; N];
    for k in 0..N {
        arcs[k] = body_arcs(query, places[k], apart);
    }
    arcs
}

fn query_of(query: &[u8]) -> Query
    ensures { result ≡ query_from query.now }
{
    let first = number(query, 0);
    let last = number(query, 1);
    let weekdays = weekdays(query);
    let tithi = asked(query, 4);
    let nakshatra = asked(query, 6);
    let yoga = asked(query, 8);
    let arcs = arcs_at(query, &[10, 13, 16, 19, 22, 25, 28, 31, 34], 28);
    let edition = number(query, 37);
    let karana = asked(query, 65);
    let true_arcs = arcs_at(query, &[67, 73, 79, 85, 91, 97, 103], 3);
    Query {
        first,
        last,
        edition,
        weekdays,
        tithi,
        nakshatra,
        yoga,
        karana,
        arcs,
        true_arcs,
    }
}

// The refusal, or 0 with the matching days written to the list.
#[unsafe(no_mangle)]
pub extern "C" fn bridge_search(query: &[u8], list: &mut [u8]) -> u32
    ensures value { result ≡ bridge_result query.now list.old }
    ensures list_after { list.new ≡ bridge_list query.now list.old }
{
    if query.len() == QUERY_BYTES {
        let asked = query_of(query);
        return search_number(search::search(asked, list));
    }
    Refusal::BadInput.number()
}

// The refusal, or 0 with the first of the matching days written to the list, as many as it has entries.
#[unsafe(no_mangle)]
pub extern "C" fn bridge_list_first(query: &[u8], list: &mut [u8]) -> u32
    ensures value { result ≡ bridge_refusal query.now }
    ensures list_after { list.new ≡ bridge_first query.now list.old }
{
    if query.len() != QUERY_BYTES {
        return Refusal::BadInput.number();
    }
    let asked = query_of(query);
    result_number(search::list_first(asked, list))
}

// The query of the bytes, where they are as many as a query has.
#[tactic(auto, unfolding(crate::specs::Bytes::query_read))]
fn read(query: &[u8]) -> Result<Query, Refusal>
    ensures { result ≡ query_read query.now }
{
    if query.len() == QUERY_BYTES {
        Ok(query_of(query))
    } else {
        Err(Refusal::BadInput)
    }
}

// The two numbers of a search.
fn measured(query: &[u8]) -> Result<Found, Refusal>
    ensures { result ≡ and_then (query_read query.now) measured_of }
{
    let asked = read(query)?;
    search::measure(asked)
}

// How many days match.
#[unsafe(no_mangle)]
pub extern "C" fn bridge_length(query: &[u8]) -> u32
    ensures { result ≡ bridge_length query.now }
{
    measured(query).map_or(0, |found| found.length)
}

// How many days the search examines.
#[unsafe(no_mangle)]
pub extern "C" fn bridge_looked(query: &[u8]) -> u32
    ensures { result ≡ bridge_looked query.now }
{
    measured(query).map_or(0, |found| found.examined)
}
