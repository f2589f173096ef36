// Reads a page from standard input and prints the days that it can be.
#![tactic(auto)]

ghost use Rattle.std.specs.Prelude.{◌≡◌, ◌+◌, ◌<◌, ◌≤◌, length, IfOk};
ghost use Rattle.query.specs.Query.{refusal_of};
ghost use Rattle.query.specs.SunArcs.{with_sun_arcs};
ghost use Rattle.text.specs.Inputs.{too_long};
ghost use Rattle.text.specs.Lines.{line_capacity, Holds};
ghost use Rattle.entries.specs.Listed.{listed_from};
ghost use Rattle.catalogue.specs.Pieces.{day_lines};
ghost use Rattle.catalogue.specs.Each.{EachFits};
ghost use Rattle.remarks.specs.Remarks.{remarks_of};
ghost use Rattle.search.specs.Days.{matching_days, visited_days};
ghost use Rattle.search.specs.Spans.{between};
ghost use Rattle.find.specs.Output.{heading_of, output_of, said_of, NextBytes, front_days, NextDays};

use days::refusal::Refusal;
use names::Print;
use output::NotWritten;
use page::Fault;
use query::Query;
use search::Found;
use std::io::Stdin;
use text::Line;

// The list's entries: it stands where the page's text was, which is not needed once it is read. A span with more
// matching days is searched part by part, with an entry for each day of a part. A page's query is searched as the one
// that asks for the mean Sun too (`with_sun_arcs`): it has the same matching days, and fewer days are looked at.
const PART: u32 = 131072;

const BUFFER: usize = 16384;

// The only way to write to standard output what was found. By what it requires these are the output's bytes behind
// those written before.
fn write_next(print: Print, query: Query, before: usize, bytes: &[u8]) -> Result<(), NotWritten>
    requires { NextBytes print query before bytes.now }
{
    output::print_bytes(bytes)
}

// The only way to say beside it what was found. By what it requires the line has all that is said.
fn say_found(print: Print, query: Query, line: Line)
    requires { Holds line (said_of print query) }
{
    output::say(line);
}

fn say_counts(print: Print, query: Query, found: Found)
    requires { (found.length ≡ length (matching_days query)) × (found.examined ≡ length (visited_days (with_sun_arcs query))) }
{
    let said = catalogue::said(print, query.edition, found.length, found.examined);
    say_found(print, query, said);
}

// The heading. Here and below the result is how many bytes of the output are written then.
fn print_heading(
    print: Print,
    query: Query,
    found: Found,
    buffer: &mut [u8],
) -> Result<usize, NotWritten>
    requires query_value { (refusal_of query ≡ 0) × (line_capacity ≤ length buffer.old) }
    requires length_value { (found.length ≡ length (matching_days query)) × (found.examined ≡ length (visited_days (with_sun_arcs query))) }
    ensures { IfOk result (λ bytes. bytes ≡ length (heading_of print query)) }
{
    let piece = catalogue::heading_in(print, query.edition, found.length, found.examined, buffer);
    let bytes = piece.unwrap().bytes;
    write_next(print, query, 0, &buffer[..bytes])?;
    Ok(bytes)
}

// The lines of a list's days, piece by piece.
fn print_days(
    print: Print,
    query: Query,
    before: usize,
    days: &[u8],
    buffer: &mut [u8],
) -> Result<usize, NotWritten>
    requires { (refusal_of query ≡ 0) × EachFits print query.edition (length buffer.old) (listed_from days.now 0) × NextBytes print query before (day_lines print query.edition (listed_from days.now 0)) }
    ensures { IfOk result (λ bytes. bytes ≡ before + length (day_lines print query.edition (listed_from days.now 0))) }
{
    let mut written = before;
    let mut next: usize = 0;
    loop {
        let piece = catalogue::lines_in(print, query.edition, days, next, buffer).unwrap();
        let bytes = piece.bytes;
        if bytes == 0 {
            return Ok(written);
        }
        write_next(print, query, written, &buffer[..bytes])?;
        written += bytes;
        next = piece.next;
    }
}

// The lines of the days that a search put at the front of the list.
fn print_listed(
    print: Print,
    query: Query,
    before: usize,
    found: Found,
    list: &[u8],
    buffer: &mut [u8],
) -> Result<usize, NotWritten>
    requires { (refusal_of query ≡ 0) × NextDays print query before list.now found.length (length buffer.old) }
    ensures { IfOk result (λ bytes. bytes ≡ before + length (day_lines print query.edition (front_days list.now found.length))) }
{
    let end = entries::ENTRY_BYTES * found.length as usize;
    print_days(print, query, before, &list[..end], buffer)
}

// The last day of the part that begins with a day.
fn part_end(first: u32, last: u32) -> u32
    requires { first ≤ last }
    ensures { (first ≤ result) × (result ≤ last) × (result < first + 131072) }
{
    if last - first < PART {
        return last;
    }
    first + (PART - 1)
}

fn part_of(query: Query, first: u32, last: u32) -> Query
    ensures { result ≡ between query first last }
{
    let mut part = query;
    part.first = first;
    part.last = last;
    part
}

// The lines of the matching days, part by part of the span.
fn print_parts(
    print: Print,
    query: Query,
    before: usize,
    list: &mut [u8],
    buffer: &mut [u8],
) -> Result<usize, NotWritten>
    requires query_value { (refusal_of query ≡ 0) × (before ≡ length (heading_of print query)) }
    requires in_bounds { (524288 ≤ length list.old) × (line_capacity ≤ length buffer.old) }
    ensures { IfOk result (λ bytes. bytes ≡ length (output_of print query)) }
{
    let mut written = before;
    let mut first = query.first;
    // Kept: a part's end is reckoned from its first day, so a `for` by `step_by(PART)` would say its length twice.
    while first <= query.last {
        let last = part_end(first, query.last);
        let part = part_of(query, first, last);
        let found = search::search(part.with_sun_arcs(), list).unwrap();
        written = print_listed(print, query, written, found, list, buffer)?;
        first = last + 1;
    }
    Ok(written)
}

// Where no write fails, all of the output is written. The heading has the number of matching days, so the whole span is
// searched before it, and where the list has an entry for each of them they are listed already: each day is examined
// once.
fn print_found(
    print: Print,
    query: Query,
    list: &mut [u8],
    buffer: &mut [u8],
) -> Result<usize, NotWritten>
    requires { (refusal_of query ≡ 0) × (524288 ≤ length list.old) × (line_capacity ≤ length buffer.old) }
    ensures { IfOk result (λ bytes. bytes ≡ length (output_of print query)) }
{
    let found = search::list_first(query.with_sun_arcs(), list).unwrap();
    say_counts(print, query, found);
    let heading = print_heading(print, query, found, buffer)?;
    if PART < found.length {
        return print_parts(print, query, heading, list, buffer);
    }
    print_listed(print, query, heading, found, list, buffer)
}

fn find_days(print: Print, query: Query, list: &mut [u8])
    requires { (refusal_of query ≡ 0) × (524288 ≤ length list.old) }
{
    let mut buffer = [0u8; BUFFER];
    let _ = print_found(print, query, list, &mut buffer);
}

fn refuse(fault: Fault)
    requires { fault.line < 4294967296 }
{
    let refusal = fault.refusal.number();
    let _ = output::print(text::refusal_line(refusal));
    let reason = fault.reason_number();
    output::say(messages::page_fault(fault.line as u32, refusal, reason));
}

// The only way to say how a page was understood. By what it requires the bytes are all that is said of it.
fn say_all(text: &[u8], bytes: &[u8])
    requires { bytes.now ≡ remarks_of 1 text.now }
{
    output::say_bytes(bytes);
}

fn say_remarks(text: &[u8]) {
    let mut buffer = [0u8; remarks::ROOM];
    let bytes = remarks::of_page(text, 1, &mut buffer);
    say_all(text, &buffer[..bytes]);
}

fn read_and_find(stdin: &mut Stdin, input: &mut [u8])
    requires { (length input.old ≤ too_long) × (too_long ≤ length input.old) }
{
    let n = input::read_input(stdin, input);
    if n == input.len() {
        let _ = output::print(text::refusal_line(Refusal::BadInput.number()));
        output::say(messages::unreadable_page());
        return;
    }
    match page::read(&input[..n]) {
        Ok(read) => {
            say_remarks(&input[..n]);
            find_days(read.print, read.query, input);
        }
        Err(fault) => refuse(fault),
    }
}

fn main(rt: HostRuntime) {
    let mut stdin = rt.stdin();
    let mut input = [0u8; text::TOO_LONG];
    read_and_find(&mut stdin, &mut input);
}
