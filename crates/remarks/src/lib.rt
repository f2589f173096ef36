// What is said of a page that was accepted, where it is likely to be meant otherwise: the page's text in, the lines for
// standard error out.
#![tactic(auto)]

ghost use Rattle.std.specs.Prelude.{is_ok, true, ◌≡◌, ◌||◌, ◌+◌, ◌≤◌, ◌<◌, length};
ghost use Rattle.longitudes.specs.Longitudes.{circle};
ghost use Rattle.page.specs.Page.{page_read};
ghost use Rattle.text.specs.Lines.{empty_line, contents, with_bytes, Holds};
ghost use Rattle.text.specs.Sheets.{put_at};
ghost use Rattle.remarks.specs.Remarks.{line_text, arc_text, seconds_text, width_text, numbers_text, days_text, likely_degrees, likely_end, likely_year, likely_years, plain_remark, width_up_to, end_remark, arc_remark, span_remark, first_remark, second_remark, line_remarks, asks, nothing_asked, remarks_of, remarks_room};

use dated::{put_angle, put_date};
use days::refusal::Refusal;
use longitudes::CIRCLE;
use page::{is_to, width_to};
use text::{Line, read_decimal};
use values::angle;
use words::{after, after_word, after_words, first_word, unmarked, up_to};

// The bytes of a buffer into which all that is said of a page goes: each keyword stands on one line, of which there are
// at most two lines to say.
pub const ROOM: usize = 8192;

const DEGREE: u32 = 3600;

// What is said of a line: of its span or its first arc, and of its second. A line that is empty says nothing.
#[derive(Clone, Copy)]
struct Remarks {
    first: Line,
    second: Line,
}

fn at_line(number: usize) -> Line
    ensures { result ≡ with_bytes empty_line (line_text number) }
{
    Line::empty()
        .text(b"line ")
        .wide_number(number as u64)
        .text(b": ")
}

fn with_arc(number: usize, name: &[u8], start: u32, width: u32) -> Line
    ensures { result ≡ with_bytes empty_line (arc_text number name.now start width) }
{
    let from = put_angle(at_line(number).text(name).text(b" from "), start);
    put_angle(from.text(b", "), width).text(b" wide")
}

fn seconds_remark(number: usize, name: &[u8], start: u32, width: u32) -> Line
    requires { (length name.now ≤ 12) × (start < 360) × (width < 60) }
    ensures { Holds result (seconds_text number name.now start width) }
{
    let said = with_arc(number, name, start, width).text(b"; degrees are written ");
    put_angle(said, DEGREE * start).byte(b'\n')
}

fn width_remark(number: usize, name: &[u8], start: u32, width: u32) -> Line
    requires { (length name.now ≤ 12) × (start < circle) × (width ≤ start + 36000) }
    ensures { Holds result (width_text number name.now start width) }
{
    let said = with_arc(number, name, start, width).text(b", up to ");
    put_angle(said, (start + width) % CIRCLE).text(b"; the second value is the width\n")
}

fn with_numbers(number: usize, first: u32, last: u32) -> Line
    ensures { result ≡ with_bytes empty_line (numbers_text number first last) }
{
    at_line(number)
        .text(b"days ")
        .number(first)
        .text(b" to ")
        .number(last)
}

fn days_remark(number: usize, first: u32, last: u32) -> Line
    requires { (first ≤ 2619) × (last ≤ 2619) }
    ensures { Holds result (days_text number first last) }
{
    let from = civil::date_or_zeros(first);
    let to = civil::date_or_zeros(last);
    let numbers = with_numbers(number, first, last);
    let since = put_date(numbers.text(b", "), from);
    put_date(since.text(b" to "), to)
        .text(b"; years are written ")
        .number(first)
        .text(b"-1-1\n")
}

// Both numbers, where degrees may be meant.
#[tactic(auto, unfolding(crate::specs::Remarks::likely_degrees))]
fn likely_degrees(start: Result<u32, Refusal>, width: Result<u32, Refusal>) -> Option<(u32, u32)>
    ensures { result ≡ likely_degrees start width }
{
    match (start, width) {
        (Ok(start), Ok(width)) if start < 360 && width < 60 => Some((start, width)),
        _ => None,
    }
}

// Both angles, where the second may be meant as an end.
#[tactic(auto, unfolding(crate::specs::Remarks::likely_end))]
fn likely_end(start: Result<u32, Refusal>, width: Result<u32, Refusal>) -> Option<(u32, u32)>
    ensures { result ≡ likely_end start width }
{
    let start = start.ok()?;
    let width = width.ok()?;
    if 10 * DEGREE <= start && start < CIRCLE && start < width && width <= start + 10 * DEGREE {
        Some((start, width))
    } else {
        None
    }
}

#[tactic(auto, unfolding(crate::specs::Remarks::likely_year))]
fn likely_year(number: u32) -> bool
    ensures { result ≡ likely_year number }
{
    1000 <= number && number <= 2619
}

// Both numbers, where years may be meant.
#[tactic(auto, unfolding(crate::specs::Remarks::likely_years))]
fn likely_years(first: Result<u32, Refusal>, last: Result<u32, Refusal>) -> Option<(u32, u32)>
    ensures { result ≡ likely_years first last }
{
    match (first, last) {
        (Ok(first), Ok(last)) if likely_year(first) && likely_year(last) => Some((first, last)),
        _ => None,
    }
}

// Of an arc by its start and width.
#[tactic(auto, unfolding(crate::specs::Remarks::plain_remark))]
fn plain_remark(number: usize, name: &[u8], start: &[u8], width: &[u8]) -> Line
    requires { length name.now ≤ 12 }
    ensures { Holds result (plain_remark number name.now start.now width.now) }
{
    if let Some((from, wide)) = likely_degrees(read_decimal(start), read_decimal(width)) {
        return seconds_remark(number, name, from, wide);
    }
    if let Some((from, wide)) = likely_end(angle(start), angle(width)) {
        return width_remark(number, name, from, wide);
    }
    Line::empty()
}

// The width of an arc by its end.
fn width_up_to(start: Result<u32, Refusal>, end: Result<u32, Refusal>) -> Result<u32, Refusal>
    ensures { result ≡ width_up_to start end }
{
    Ok(width_to(start?, end?))
}

// Of an arc by its start and end.
#[tactic(auto, unfolding(crate::specs::Remarks::end_remark))]
fn end_remark(number: usize, name: &[u8], start: &[u8], end: &[u8]) -> Line
    requires { length name.now ≤ 12 }
    ensures { Holds result (end_remark number name.now start.now end.now) }
{
    let from = read_decimal(start);
    let width = width_up_to(from, read_decimal(end));
    if let Some((from, wide)) = likely_degrees(from, width) {
        return seconds_remark(number, name, from, wide);
    }
    Line::empty()
}

// Of the arc at the front of a text.
#[tactic(auto, unfolding(crate::specs::Remarks::arc_remark))]
fn arc_remark(number: usize, name: &[u8], text: &[u8]) -> Line
    requires { length name.now ≤ 12 }
    ensures { Holds result (arc_remark number name.now text.now) }
{
    let start = first_word(text);
    let second = first_word(after_word(text));
    if is_to(second) {
        let end = first_word(after_words(text, 2));
        return end_remark(number, name, start, end);
    }
    plain_remark(number, name, start, second)
}

#[tactic(auto, unfolding(crate::specs::Remarks::span_remark))]
fn span_remark(number: usize, first: &[u8], last: &[u8]) -> Line
    ensures { Holds result (span_remark number first.now last.now) }
{
    if let Some((from, to)) = likely_years(read_decimal(first), read_decimal(last)) {
        return days_remark(number, from, to);
    }
    Line::empty()
}

fn of_words(number: usize, name: &[u8], values: &[u8]) -> Remarks
    ensures { Holds result.first (first_remark number name.now values.now) × Holds result.second (second_remark number name.now values.now) }
{
    let keyword = page::keyword_of(name);
    if keyword == page::SPAN {
        let first = span_remark(number, first_word(values), first_word(after_word(values)));
        let second = Line::empty();
        return Remarks { first, second };
    }
    if !page::has_arcs(keyword) {
        let first = Line::empty();
        let second = Line::empty();
        return Remarks { first, second };
    }
    let more = after_words(values, page::arc_words(values));
    let first = arc_remark(number, name, values);
    let second = arc_remark(number, name, more);
    Remarks { first, second }
}

// Puts a line into the buffer, behind so many bytes, and hands back how many there are then.
fn put(line: Line, buffer: &mut [u8], at: usize) -> usize
    requires { (line.len ≡ length (contents line)) × (at + length (contents line) ≤ length buffer.old) }
    ensures value { result ≡ at + length (contents line) }
    ensures buffer_after { buffer.new ≡ put_at buffer.old at (contents line) }
{
    let len = line.len;
    line.put(buffer, at);
    at + len
}

fn put_line(number: usize, line: &[u8], buffer: &mut [u8], at: usize) -> usize
    requires { at + length (line_remarks number line.now) ≤ length buffer.old }
    ensures value { result ≡ at + length (line_remarks number line.now) }
    ensures buffer_after { buffer.new ≡ put_at buffer.old at (line_remarks number line.now) }
{
    let body = up_to(line, b'#');
    let remarks = of_words(number, first_word(body), after_word(body));
    let first = remarks.first;
    let second = remarks.second;
    let next = put(first, buffer, at);
    put(second, buffer, next)
}

// Whether a line asks for something, or one before it did.
#[tactic(auto, unfolding(crate::specs::Remarks::asks))]
fn asked_with(asked: bool, line: &[u8]) -> bool
    ensures { result ≡ asked || asks line.now }
{
    if asked {
        return true;
    }
    let keyword = page::keyword_of(first_word(up_to(line, b'#')));
    keyword < page::PRINT && keyword != page::SPAN && keyword != page::EDITION
}

fn nothing_asked() -> Line
    ensures { Holds result nothing_asked }
{
    Line::empty().text(b"nothing is asked: every day of the span is listed\n")
}

fn put_all(text: &[u8], first: u32, buffer: &mut [u8]) -> usize
    requires { (is_ok (page_read text.now) ≡ true) × (length buffer.old ≡ remarks_room) }
    ensures value { result ≡ length (remarks_of first text.now) }
    ensures buffer_after { buffer.new ≡ put_at buffer.old 0 (remarks_of first text.now) }
{
    let mut number = first as usize;
    let mut at: usize = 0;
    let mut asked = false;
    let mut rest = unmarked(text);
    while 0 < rest.len() {
        let line = up_to(rest, b'\n');
        at = put_line(number, line, buffer, at);
        asked = asked_with(asked, line);
        number += 1;
        let others = after(rest, b'\n');
        rest = others;
    }
    if asked {
        return at;
    }
    put(nothing_asked(), buffer, at)
}

// Puts all that is said of a text, whose first line has this number, at the front of the buffer, and hands back how
// many bytes it is.
pub fn of_page(text: &[u8], first: u32, buffer: &mut [u8; ROOM]) -> usize
    ensures value { result ≡ length (remarks_of first text.now) }
    ensures buffer_after { buffer.new ≡ put_at buffer.old 0 (remarks_of first text.now) }
    ensures upper_bound { result ≤ remarks_room }
{
    let read = page::read(text);
    if read.is_err() {
        return 0;
    }
    put_all(text, first, buffer)
}
