// The line that says why a day is not in a query's list, or that it fits; with elements by number, or by name.
#![tactic(auto)]

ghost use Rattle.std.specs.Prelude.{◌≡◌, ◌+◌, ◌≤◌, length};
ghost use Rattle.days.specs.Days.{last_day};
ghost use Rattle.text.specs.Lines.{contents, with_bytes, Holds};
ghost use Rattle.text.specs.Sheets.{put_at};
ghost use Rattle.words.specs.Names.{body_names, true_names};
ghost use Rattle.words.specs.Words.{name_at};
ghost use Rattle.reasons.specs.Reasons.{cause_of, why_of};
ghost use Rattle.explanation.specs.Explanations.{name_in, names_in, seven_days, number_in, set_bytes, element_in, set_names, arc_bytes, weekdays_text, numbers_text, arcs_text, kind_word, verdict_text, explanation_of, explanation_room};
ghost use Rattle.explanation.specs.Elements.{element_of, element_for, element_line, element_front, element_end};

use dated::{put_angle, put_day};
use names::{Kind, Print};
use query::{Arc, Asked, BodyArcs, Query};
use reasons::{Answer, Reason};
use text::Line;

// The bytes of what is printed, at most: the names of all tithis are no more.
pub const ROOM: usize = 1024;

// A condition of an element that does not hold, by the edition in which it was looked at, and the numbers asked and
// found.
#[derive(Clone, Copy)]
struct Unmet {
    kind: Kind,
    edition: u32,
    asked: u32,
    found: u32,
}

// A weekday's name behind a space, where the set has it.
fn put_name(line: Line, set: u32, weekday: u32) -> Line
    ensures { result ≡ with_bytes line (name_in set weekday) }
{
    if days::set_has(set, weekday) {
        let names = words::WEEKDAYS;
        let name = words::name_at(&names, weekday as usize);
        line.byte(b' ').text(name)
    } else {
        line.text(b"")
    }
}

// The names of a set's weekdays, Monday first.
fn put_names(line: Line, set: u32) -> Line
    ensures { result ≡ with_bytes line (names_in set seven_days) }
{
    let mut made = line;
    for weekday in 0..7 {
        made = put_name(made, set, weekday);
    }
    made
}

fn put_weekdays(line: Line, asked: u32, found: u32) -> Line
    ensures { result ≡ with_bytes line (weekdays_text asked found) }
{
    let names = words::WEEKDAYS;
    let name = words::name_at(&names, found as usize);
    put_names(line.text(b"weekday asked"), asked)
        .text(b" found ")
        .text(name)
}

// A number behind a space, where the set has it.
fn put_number(line: Line, set: u32, number: u32) -> Line
    ensures { result ≡ with_bytes line (number_in set number) }
{
    let asked = Asked { given: true, set };
    if asked.has(number) {
        line.byte(b' ').number(number)
    } else {
        line.text(b"")
    }
}

// The numbers of an element that a set has, the least first.
fn put_set(line: Line, set: u32) -> Line
    ensures { result ≡ with_bytes line (set_bytes set) }
{
    let mut made = line;
    for number in 0..30 {
        made = put_number(made, set, number);
    }
    made
}

fn put_numbers(line: Line, name: &[u8], asked: u32, found: u32) -> Line
    ensures { result ≡ with_bytes line (numbers_text name.now asked found) }
{
    put_set(line.text(name).text(b" asked"), asked)
        .text(b" found ")
        .number(found)
}

// An arc's start and width, each behind a space, where it is given.
fn put_arc(line: Line, arc: Arc) -> Line
    ensures { result ≡ with_bytes line (arc_bytes arc) }
{
    if arc.given {
        let started = put_angle(line.byte(b' '), arc.start);
        put_angle(started.byte(b' '), arc.width)
    } else {
        line.text(b"")
    }
}

fn put_arcs(line: Line, name: &[u8], asked: BodyArcs, found: u32) -> Line
    ensures { result ≡ with_bytes line (arcs_text name.now asked found) }
{
    let first = put_arc(line.text(name).text(b" asked"), asked.first);
    let both = put_arc(first, asked.second);
    put_angle(both.text(b" found "), found)
}

fn put_mean_arcs(line: Line, body: u32, asked: BodyArcs, found: u32) -> Line
    ensures { result ≡ with_bytes line (arcs_text (name_at body_names body) asked found) }
{
    let names = words::BODY_NAMES;
    put_arcs(line, words::name_at(&names, body as usize), asked, found)
}

fn put_true_arcs(line: Line, place: u32, asked: BodyArcs, found: u32) -> Line
    ensures { result ≡ with_bytes line (arcs_text (name_at true_names place) asked found) }
{
    let names = words::TRUE_NAMES;
    put_arcs(line, words::name_at(&names, place as usize), asked, found)
}

// Whether the day fits, and else what shuts it out.
fn put_verdict(line: Line, reason: Reason) -> Line
    ensures { result ≡ with_bytes line (verdict_text Print.Numbers (cause_of reason)) }
{
    let unfit = line.text(b" does not fit: ");
    match reason {
        Reason::Fits => line.text(b" fits"),
        Reason::BeforeSpan { first, day: _ } => put_day(
            unfit.text(b"before the span asked from "),
            first,
        ),
        Reason::AfterSpan { last, day: _ } => put_day(
            unfit.text(b"after the span asked to "),
            last,
        ),
        Reason::Weekday { asked, found } => put_weekdays(unfit, asked, found),
        Reason::Tithi { asked, found } => put_numbers(unfit, b"tithi", asked, found),
        Reason::Nakshatra { asked, found } => put_numbers(unfit, b"nakshatra", asked, found),
        Reason::Yoga { asked, found } => put_numbers(unfit, b"yoga", asked, found),
        Reason::Karana { asked, found } => put_numbers(unfit, b"karana", asked, found),
        Reason::Arcs { body, asked, found } => put_mean_arcs(unfit, body, asked, found),
        Reason::TrueArcs {
            place,
            asked,
            found,
        } => put_true_arcs(unfit, place, asked, found),
    }
}

// What is printed for a query and a day where elements are told by number: a line, or the refusal.
pub fn line(query: Query, day: u32) -> Line
    ensures { Holds result (explanation_of Print.Numbers query day) }
{
    match reasons::why(query, day) {
        Err(refusal) => text::refusal_line(refusal.number()),
        Ok(Answer { edition, reason }) => {
            let told = put_verdict(put_day(Line::empty(), day), reason);
            catalogue::with_edition(told, edition).byte(b'\n')
        }
    }
}

fn element_of(edition: u32, reason: Reason) -> Option<Unmet>
    ensures { result ≡ element_of edition (cause_of reason) }
{
    match reason {
        Reason::Fits => None,
        Reason::BeforeSpan { first: _, day: _ } => None,
        Reason::AfterSpan { last: _, day: _ } => None,
        Reason::Weekday { asked: _, found: _ } => None,
        Reason::Tithi { asked, found } => Some(Unmet {
            kind: Kind::Tithi,
            edition,
            asked,
            found,
        }),
        Reason::Nakshatra { asked, found } => Some(Unmet {
            kind: Kind::Nakshatra,
            edition,
            asked,
            found,
        }),
        Reason::Yoga { asked, found } => Some(Unmet {
            kind: Kind::Yoga,
            edition,
            asked,
            found,
        }),
        Reason::Karana { asked, found } => Some(Unmet {
            kind: Kind::Karana,
            edition,
            asked,
            found,
        }),
        Reason::Arcs {
            body: _,
            asked: _,
            found: _,
        } => None,
        Reason::TrueArcs {
            place: _,
            asked: _,
            found: _,
        } => None,
    }
}

fn element_for(query: Query, day: u32) -> Option<Unmet>
    ensures { result ≡ element_for (why_of query day) }
{
    match reasons::why(query, day) {
        Err(_) => None,
        Ok(Answer { edition, reason }) => element_of(edition, reason),
    }
}

// The word of a kind.
fn put_word(line: Line, kind: Kind) -> Line
    ensures { result ≡ with_bytes line (kind_word kind) }
{
    match kind {
        Kind::Tithi => line.text(b"tithi"),
        Kind::Nakshatra => line.text(b"nakshatra"),
        Kind::Yoga => line.text(b"yoga"),
        Kind::Karana => line.text(b"karana"),
        Kind::Sign => line.text(b"sign"),
        Kind::Month => line.text(b"month"),
        Kind::Fortnight => line.text(b"fortnight"),
        Kind::Weekday => line.text(b"weekday"),
    }
}

fn element_front(kind: Kind, day: u32) -> Line
    requires { day ≤ last_day }
    ensures { Holds result (element_front kind day) }
{
    let unfit = put_day(Line::empty(), day).text(b" does not fit: ");
    put_word(unfit, kind).text(b" asked")
}

// The name of a number behind a space, where the set has it.
fn element_in(kind: Kind, set: u32, number: u32) -> Line
    ensures { Holds result (element_in kind set number) }
{
    let asked = Asked { given: true, set };
    if asked.has(number) {
        names::put_name(Line::empty().byte(b' '), kind, number)
    } else {
        Line::empty()
    }
}

fn element_end(kind: Kind, edition: u32, found: u32) -> Line
    ensures { Holds result (element_end kind edition found) }
{
    let named = names::put_name(Line::empty().text(b" found "), kind, found);
    catalogue::with_edition(named, edition).byte(b'\n')
}

// Puts a line into the buffer, behind so many bytes, and hands back how many there are then.
fn put(line: Line, buffer: &mut [u8], at: usize) -> usize
    requires { (line.len ≡ length (contents line)) × (at + length (contents line) ≤ length buffer.old) }
    ensures value { result ≡ at + length (contents line) }
    ensures buffer_after { buffer.new ≡ put_at buffer.old at (contents line) }
{
    let len = line.len;
    line.put(buffer, at);
    at + len
}

// The names of an element that a set has, that of the least number first.
fn put_set_names(kind: Kind, set: u32, buffer: &mut [u8], from: usize) -> usize
    requires { from + length (set_names kind set) ≤ length buffer.old }
    ensures value { result ≡ from + length (set_names kind set) }
    ensures buffer_after { buffer.new ≡ put_at buffer.old from (set_names kind set) }
{
    let mut at = from;
    for element in 0..30 {
        at = put(element_in(kind, set, element), buffer, at);
    }
    at
}

fn put_element(
    kind: Kind,
    edition: u32,
    asked: u32,
    found: u32,
    day: u32,
    buffer: &mut [u8],
) -> usize
    requires { (day ≤ last_day) × (explanation_room ≤ length buffer.old) }
    ensures value { result ≡ length (element_line kind edition asked found day) }
    ensures buffer_after { buffer.new ≡ put_at buffer.old 0 (element_line kind edition asked found day) }
{
    let front = put(element_front(kind, day), buffer, 0);
    let named = put_set_names(kind, asked, buffer, front);
    put(element_end(kind, edition, found), buffer, named)
}

// Puts a line's contents at the front of the buffer, and hands back how many bytes they are.
pub fn put_front(line: Line, buffer: &mut [u8; ROOM]) -> usize
    ensures value { result ≡ length (contents line) }
    ensures buffer_after { buffer.new ≡ put_at buffer.old 0 (contents line) }
    ensures upper_bound { result ≤ explanation_room }
{
    let len = line.len;
    line.put(buffer, 0);
    if len < Line::CAPACITY {
        return len;
    }
    Line::CAPACITY
}

fn put_named(query: Query, day: u32, buffer: &mut [u8; ROOM]) -> usize
    ensures value { result ≡ length (explanation_of Print.Names query day) }
    ensures buffer_after { buffer.new ≡ put_at buffer.old 0 (explanation_of Print.Names query day) }
    ensures upper_bound { result ≤ explanation_room }
{
    match element_for(query, day) {
        Some(
            Unmet {
                kind,
                edition,
                asked,
                found,
            },
        ) => put_element(kind, edition, asked, found, day, buffer),
        None => put_front(line(query, day), buffer),
    }
}

// Puts what is printed for a query and a day in a form at the front of the buffer, and hands back how many bytes it is.
pub fn put_line(print: Print, query: Query, day: u32, buffer: &mut [u8; ROOM]) -> usize
    ensures value { result ≡ length (explanation_of print query day) }
    ensures buffer_after { buffer.new ≡ put_at buffer.old 0 (explanation_of print query day) }
    ensures upper_bound { result ≤ explanation_room }
{
    match print {
        Print::Numbers => put_front(line(query, day), buffer),
        Print::Names => put_named(query, day, buffer),
        Print::Csv => put_front(line(query, day), buffer),
    }
}
