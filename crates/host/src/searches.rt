// The host's search, for a Sun arc and a weekday, both always; it asks for nothing that hangs on an edition. The scan
// of the days is the library's.
ghost use Rattle.std.specs.Prelude.{◌≡◌, ◌≤◌, length};
ghost use Rattle.entries.specs.Entries.{capacity};
ghost use Rattle.search.specs.Days.{matching_days, visited_days, visit_limit};
ghost use Rattle.search.specs.Search.{result_of, unless_refused, list_after, Measured};
ghost use Rattle.host.specs.HostQuery.{host_query};

use days::refusal::Refusal;
use panchanga::FIRST_EDITION;
use query::{Arc, Asked, BodyArcs, Query, Weekdays};
use search::{Found, search_number};

fn query_of(first: u32, last: u32, start: u32, width: u32, weekday: u32) -> Query
    ensures { result ≡ host_query first last start width weekday }
{
    let sun = Arc {
        given: true,
        start,
        width,
    };
    let sun = BodyArcs::only(sun);
    let weekdays = Weekdays::only(weekday);
    let mut arcs = [BodyArcs::NONE; 9];
    arcs[0] = sun;
    Query {
        first,
        last,
        edition: FIRST_EDITION,
        weekdays,
        tithi: Asked::NONE,
        nakshatra: Asked::NONE,
        yoga: Asked::NONE,
        karana: Asked::NONE,
        arcs,
        true_arcs: [BodyArcs::NONE; query::TRUE_BODIES],
    }
}

// The refusal, or 0 with the matching days written to the list: four bytes a day, low byte first.
// Kept: the query is written out here once more. From `query_of` it would stand on the stack twice, and the deepest
// call take 2,226 bytes of the 2,048 allowed.
#[unsafe(no_mangle)]
pub extern "C" fn graha_search(
    first: u32,
    last: u32,
    start: u32,
    width: u32,
    weekday: u32,
    list: &mut [u8],
) -> u32
    ensures value { result ≡ result_of (host_query first last start width weekday) (capacity list.old) }
    ensures list_after { list.new ≡ list_after (host_query first last start width weekday) list.old }
{
    let sun = Arc {
        given: true,
        start,
        width,
    };
    let sun = BodyArcs::only(sun);
    let weekdays = Weekdays::only(weekday);
    let mut arcs = [BodyArcs::NONE; 9];
    arcs[0] = sun;
    search_number(search::search(
        Query {
            first,
            last,
            edition: FIRST_EDITION,
            weekdays,
            tithi: Asked::NONE,
            nakshatra: Asked::NONE,
            yoga: Asked::NONE,
            karana: Asked::NONE,
            arcs,
            true_arcs: [BodyArcs::NONE; query::TRUE_BODIES],
        },
        list,
    ))
}

// The two numbers of a search, whatever list it is lent.
fn measured(first: u32, last: u32, start: u32, width: u32, weekday: u32) -> Result<Found, Refusal>
    ensures { Measured (host_query first last start width weekday) result }
{
    search::measure(query_of(first, last, start, width, weekday))
}

// How many days match, whether or not they fit in a list.
#[unsafe(no_mangle)]
pub extern "C" fn graha_search_length(
    first: u32,
    last: u32,
    start: u32,
    width: u32,
    weekday: u32,
) -> u32
    ensures { result ≡ unless_refused (host_query first last start width weekday) (length (matching_days (host_query first last start width weekday))) }
{
    measured(first, last, start, width, weekday).map_or(0, |found| found.length)
}

// How many days the search examines: paper 01's days looked at.
#[unsafe(no_mangle)]
pub extern "C" fn graha_search_looked(
    first: u32,
    last: u32,
    start: u32,
    width: u32,
    weekday: u32,
) -> u32
    ensures value { result ≡ unless_refused (host_query first last start width weekday) (length (visited_days (host_query first last start width weekday))) }
    ensures upper_bound { result ≤ visit_limit (host_query first last start width weekday) }
{
    measured(first, last, start, width, weekday).map_or(0, |found| found.examined)
}
