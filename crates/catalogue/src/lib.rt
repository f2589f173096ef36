// A catalogue of days, in one of three forms: its heading and its lines, put piece by piece into a lent buffer.
#![tactic(auto)]

ghost use Rattle.std.specs.Prelude.{◌≡◌, true, cond, ◌+◌, ◌≤◌, ltb, Ok, Err};
ghost use lib.ListN.{length};
ghost use Rattle.std.proofs.Math.Seq.{paste};
ghost use Rattle.days.specs.Days.{last_day};
ghost use Rattle.panchanga.specs.TrueLongitudes.{is_edition};
ghost use Rattle.text.specs.Lines.{line_capacity, empty_line, with_bytes, Holds};
ghost use Rattle.catalogue.specs.Catalogue.{edition_text, counts_line, element_bytes, named_elements, column_line, csv_fields, csv_elements, csv_line, catalogue_heading, day_line, counts_said};
ghost use Rattle.catalogue.specs.Pieces.{lines_piece, lines_after, heading_piece, heading_after, of_edition, left_in_edition};

use civil::Date;
use dated::{put_aligned, put_full_date};
use days::Day;
use days::refusal::Refusal;
use entries::NotPut;
use names::{Kind, Print, put_name, put_padded, put_quoted};
use panchanga::{Panchanga, SECOND_EDITION};
use text::Line;

const NUMBERS_HEADING: [u8; 45] = *b"day date weekday tithi nakshatra yoga karana\n";

const NAMES_HEADING: [u8; 90] =
    *b"   day  date        weekday    tithi                nakshatra          yoga        karana\n";

const CSV_HEADING: [u8; 121] =
    *b"day,date,iso,weekday_number,weekday,tithi_number,tithi,nakshatra_number,nakshatra,\
    yoga_number,yoga,karana_number,karana\r\n";

// A day's number has at most six digits.
const DAY_COLUMN: usize = 6;

// How many days were found and how many looked at.
fn counts_line(edition: u32, length: u32, examined: u32) -> Line
    ensures { result ≡ with_bytes empty_line (counts_line edition length examined) }
{
    let counts = Line::empty()
        .text(b"found ")
        .number(length)
        .text(b" looked ")
        .number(examined);
    with_edition(counts, edition).byte(b'\n')
}

// The second edition is named behind a line.
pub fn with_edition(line: Line, edition: u32) -> Line
    ensures { result ≡ with_bytes line (edition_text edition) }
{
    if edition == SECOND_EDITION {
        line.text(b" edition 2")
    } else {
        line.text(b"")
    }
}

fn heading_line(print: Print, edition: u32, length: u32, examined: u32) -> Line
    ensures { Holds result (catalogue_heading print edition length examined) }
{
    match print {
        Print::Numbers => counts_line(edition, length, examined).text(&NUMBERS_HEADING),
        Print::Names => counts_line(edition, length, examined).text(&NAMES_HEADING),
        Print::Csv => Line::empty().text(&CSV_HEADING),
    }
}

// What is said of the days found where the catalogue itself does not say it.
pub fn said(print: Print, edition: u32, length: u32, examined: u32) -> Line
    ensures { Holds result (counts_said print edition length examined) }
{
    match print {
        Print::Numbers => Line::empty(),
        Print::Names => Line::empty(),
        Print::Csv => counts_line(edition, length, examined),
    }
}

fn put_elements(line: Line, elements: Panchanga) -> Line
    ensures { result ≡ with_bytes line (element_bytes elements) }
{
    line.byte(b' ')
        .number(elements.tithi)
        .byte(b' ')
        .number(elements.nakshatra)
        .byte(b' ')
        .number(elements.yoga)
        .byte(b' ')
        .number(elements.karana)
}

fn put_named_elements(line: Line, elements: Panchanga) -> Line
    ensures { result ≡ with_bytes line (named_elements elements) }
{
    let tithi = put_padded(line.text(b"  "), Kind::Tithi, elements.tithi);
    let nakshatra = put_padded(tithi.text(b"  "), Kind::Nakshatra, elements.nakshatra);
    let yoga = put_padded(nakshatra.text(b"  "), Kind::Yoga, elements.yoga);
    put_name(yoga.text(b"  "), Kind::Karana, elements.karana)
}

fn column_line(day: u32, weekday: u32, elements: Panchanga) -> Line
    ensures { result ≡ with_bytes empty_line (column_line day weekday elements) }
{
    let date = civil::date_or_zeros(day);
    let numbered = put_aligned(Line::empty(), day, DAY_COLUMN).text(b"  ");
    let dated = put_full_date(numbered, date).text(b"  ");
    let named = put_padded(dated, Kind::Weekday, weekday);
    put_named_elements(named, elements).byte(b'\n')
}

fn put_csv_fields(line: Line, kind: Kind, number: u32) -> Line
    ensures { result ≡ with_bytes line (csv_fields kind number) }
{
    let numbered = line.byte(b',').number(number);
    put_quoted(numbered.byte(b','), kind, number)
}

fn put_csv_elements(line: Line, elements: Panchanga) -> Line
    ensures { result ≡ with_bytes line (csv_elements elements) }
{
    let tithi = put_csv_fields(line, Kind::Tithi, elements.tithi);
    let nakshatra = put_csv_fields(tithi, Kind::Nakshatra, elements.nakshatra);
    let yoga = put_csv_fields(nakshatra, Kind::Yoga, elements.yoga);
    put_csv_fields(yoga, Kind::Karana, elements.karana)
}

fn csv_line(day: u32, weekday: u32, elements: Panchanga) -> Line
    ensures { result ≡ with_bytes empty_line (csv_line day weekday elements) }
{
    let civil = civil::date_or_zeros(day);
    let iso = iso::date_of(day).unwrap_or(Date::ZEROS);
    let numbered = Line::empty().number(day).byte(b',');
    let dated = put_full_date(numbered, civil).byte(b',');
    let named = put_csv_fields(put_full_date(dated, iso), Kind::Weekday, weekday);
    put_csv_elements(named, elements).text(b"\r\n")
}

fn day_line(print: Print, edition: u32, day: u32) -> Line
    requires { (day ≤ last_day) × (is_edition edition ≡ true) }
    ensures { Holds result (day_line print edition day) }
{
    let elements = panchanga::of_day(edition, Day::at(day)).unwrap();
    let weekday = days::weekday_on(day);
    match print {
        Print::Numbers => {
            let named = dated::put_named_day(Line::empty(), day);
            put_elements(named, elements).byte(b'\n')
        }
        Print::Names => column_line(day, weekday, elements),
        Print::Csv => csv_line(day, weekday, elements),
    }
}

// What was put at the front of a buffer: how many bytes, and which entry comes next.
#[derive(Clone, Copy, Debug, PartialEq, Eq)]
pub struct Piece {
    pub bytes: usize,
    pub next: usize,
}

// A line's bytes, from byte `at` of the buffer on.
fn put(buffer: &mut [u8], at: usize, line: Line)
    requires { (length line.bytes ≡ line_capacity) × (line.len ≤ line_capacity) × (at + line.len ≤ length buffer.old) }
    ensures { buffer.new ≡ paste buffer.old at line.bytes line.len }
{
    let filled = &line.bytes[..line.len];
    buffer[at..at + filled.len()].copy_from_slice(filled);
}

// The heading of an edition's catalogue, or nothing where it does not fit.
pub fn heading(edition: u32, length: u32, examined: u32, buffer: &mut [u8]) -> Result<Piece, NotPut>
    ensures value { result ≡ of_edition edition (heading_piece Print.Numbers edition length examined (lib.ListN.length buffer.old)) }
    ensures buffer_after { buffer.new ≡ left_in_edition edition buffer.old (heading_after Print.Numbers edition length examined buffer.old) }
{
    heading_in(Print::Numbers, edition, length, examined, buffer)
}

// The heading in a form.
pub fn heading_in(
    print: Print,
    edition: u32,
    length: u32,
    examined: u32,
    buffer: &mut [u8],
) -> Result<Piece, NotPut>
    ensures value { result ≡ of_edition edition (heading_piece print edition length examined (lib.ListN.length buffer.old)) }
    ensures buffer_after { buffer.new ≡ left_in_edition edition buffer.old (heading_after print edition length examined buffer.old) }
{
    if !panchanga::is_edition(edition) {
        return Err(NotPut::Refused(Refusal::BadEdition));
    }
    put_heading(print, edition, length, examined, buffer)
}

fn put_heading(
    print: Print,
    edition: u32,
    length: u32,
    examined: u32,
    buffer: &mut [u8],
) -> Result<Piece, NotPut>
    ensures value { result ≡ heading_piece print edition length examined (lib.ListN.length buffer.old) }
    ensures buffer_after { buffer.new ≡ heading_after print edition length examined buffer.old }
{
    let line = heading_line(print, edition, length, examined);
    let len = line.len;
    if buffer.len() < len {
        return Err(NotPut::TooShort(len as u32));
    }
    put(buffer, 0, line);
    Ok(Piece {
        bytes: len,
        next: 0,
    })
}

// Where the line due cannot be put: the piece so far, or the refusal where it is empty.
fn unless_empty(piece: Piece, from: usize, refused: NotPut) -> Result<Piece, NotPut>
    ensures { result ≡ cond (ltb from piece.next) (Ok piece) (Err refused) }
{
    if from < piece.next {
        Ok(piece)
    } else {
        Err(refused)
    }
}

// The lines of a list's days from an entry on, with an edition's elements, as many as fit whole, at the front of the
// buffer.
pub fn lines(edition: u32, list: &[u8], from: usize, buffer: &mut [u8]) -> Result<Piece, NotPut>
    ensures value { result ≡ of_edition edition (lines_piece Print.Numbers edition list.now from (length buffer.old)) }
    ensures buffer_after { buffer.new ≡ left_in_edition edition buffer.old (lines_after Print.Numbers edition list.now from buffer.old) }
{
    lines_in(Print::Numbers, edition, list, from, buffer)
}

// The lines in a form.
pub fn lines_in(
    print: Print,
    edition: u32,
    list: &[u8],
    from: usize,
    buffer: &mut [u8],
) -> Result<Piece, NotPut>
    ensures value { result ≡ of_edition edition (lines_piece print edition list.now from (length buffer.old)) }
    ensures buffer_after { buffer.new ≡ left_in_edition edition buffer.old (lines_after print edition list.now from buffer.old) }
{
    if !panchanga::is_edition(edition) {
        return Err(NotPut::Refused(Refusal::BadEdition));
    }
    put_lines(print, edition, list, from, buffer)
}

fn put_lines(
    print: Print,
    edition: u32,
    list: &[u8],
    from: usize,
    buffer: &mut [u8],
) -> Result<Piece, NotPut>
    requires { is_edition edition ≡ true }
    ensures value { result ≡ lines_piece print edition list.now from (length buffer.old) }
    ensures buffer_after { buffer.new ≡ lines_after print edition list.now from buffer.old }
{
    let mut piece = Piece {
        bytes: 0,
        next: from,
    };
    while let Ok(day) = entries::entry_at(list, piece.next) {
        if Day::LAST < day {
            return unless_empty(piece, from, NotPut::Refused(Refusal::OutOfRange));
        }
        let line = day_line(print, edition, day);
        let len = line.len;
        if buffer.len() - piece.bytes < len {
            return unless_empty(piece, from, NotPut::TooShort(len as u32));
        }
        put(buffer, piece.bytes, line);
        piece = Piece {
            bytes: piece.bytes + len,
            next: piece.next + 1,
        };
    }
    Ok(piece)
}
