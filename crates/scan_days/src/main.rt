// Prints the scan of paper 01's worked query. First the query: first day, last day, the arc's start and its width. Then
// a line for each day that the scan visits: the day, its mean Sun, 1 where it matches, and the day that comes next.
// docs/scan.svg is drawn from this output.
#![tactic(auto)]

use days::Day;
use longitudes::Body;
use panchanga::FIRST_EDITION;
use query::{Arc, Asked, BodyArcs, Query, Weekdays};
use search::Examined;

const STDOUT_FILENO: i32 = 1;

// Days 0 to 729, the Sun's arc from 0, width 3600.
fn worked() -> Query {
    let mut arcs = [BodyArcs::NONE; 9];
    let sun = BodyArcs::only(Arc {
        given: true,
        start: 0,
        width: 3600,
    });
    arcs[0] = sun;
    Query {
        first: 0,
        last: 729,
        edition: FIRST_EDITION,
        weekdays: Weekdays::NONE,
        tithi: Asked::NONE,
        nakshatra: Asked::NONE,
        yoga: Asked::NONE,
        karana: Asked::NONE,
        arcs,
        true_arcs: [BodyArcs::NONE; query::TRUE_BODIES],
    }
}

fn print(number: u32, end: &[u8]) {
    io::print_decimal(STDOUT_FILENO, number as u64);
    io::write_all(STDOUT_FILENO, end);
}

fn show_query(query: Query) {
    let sun = query.arcs[0];
    let arc = sun.first;
    print(query.first, b" ");
    print(query.last, b" ");
    print(arc.start, b" ");
    print(arc.width, b"\n");
}

fn show_visit(day: u32, seen: Examined) {
    if let Ok(sun) = longitudes::mean_longitude(Body::Sun, Day::at(day)) {
        print(day, b" ");
        print(sun.seconds, b" ");
        print(seen.matches as u32, b" ");
        print(seen.next, b"\n");
    }
}

fn show_scan(query: Query) {
    let last = query.last;
    let mut day = query.first;
    while day <= last {
        let Ok(seen) = search::examine(query, day) else {
            return;
        };
        show_visit(day, seen);
        day = seen.next;
    }
}

fn main() {
    let query = worked();
    show_query(query);
    show_scan(query);
}
