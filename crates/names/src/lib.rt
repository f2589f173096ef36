// The tithis, nakshatras, yogas, karanas, signs, lunar months, their halves and weekdays by name: the number of a name,
// in two spellings and any letter case, and the name of a number, as it is, in a column and in quotes.
#![tactic(auto)]

mod tables;

ghost use Rattle.std.specs.Prelude.{◌≡◌};
ghost use Rattle.text.specs.Lines.{space, with_bytes};
ghost use Rattle.words.specs.Words.{pieces, name_at};
ghost use Rattle.names.specs.Names.{plain_names, other_names, count_of, first_of, name_read, name_of};
ghost use Rattle.names.specs.Columns.{blanks, column_of, padded_name, quoted_name};

use days::refusal::Refusal;
use tables::{
    FORTNIGHTS, KARANAS, MARKED_FORTNIGHTS, MARKED_KARANAS, MARKED_MONTHS, MARKED_NAKSHATRAS,
    MARKED_SIGNS, MARKED_TITHIS, MARKED_YOGAS, MONTHS, NAKSHATRAS, SHORT_WEEKDAYS, SIGNS, TITHIS,
    YOGAS,
};
use text::Line;
use words::{WEEKDAYS, name_at, place_in};

// What a name is of.
#[derive(Clone, Copy)]
pub enum Kind {
    Tithi,
    Nakshatra,
    Yoga,
    Karana,
    Sign,
    Month,
    Fortnight,
    Weekday,
}

// How the elements of a day are printed: by their numbers, by their names in columns, or by both in a comma-separated
// table.
#[derive(Clone, Copy)]
pub enum Print {
    Numbers,
    Names,
    Csv,
}

// How many names a kind has.
fn count_of(kind: Kind) -> usize
    ensures { result ≡ count_of kind }
{
    match kind {
        Kind::Tithi => 30,
        Kind::Nakshatra => 27,
        Kind::Yoga => 27,
        Kind::Karana => 11,
        Kind::Sign => 12,
        Kind::Month => 12,
        Kind::Fortnight => 2,
        Kind::Weekday => 7,
    }
}

// The number of the first name.
fn first_of(kind: Kind) -> u32
    ensures { result ≡ first_of kind }
{
    match kind {
        Kind::Tithi => 0,
        Kind::Nakshatra => 0,
        Kind::Yoga => 0,
        Kind::Karana => 1,
        Kind::Sign => 0,
        Kind::Month => 0,
        Kind::Fortnight => 0,
        Kind::Weekday => 0,
    }
}

// The names of a kind with a space between them, in the plain spelling.
fn plain_names(kind: Kind) -> &'static [u8]
    ensures { pieces space result.now ≡ plain_names kind }
{
    match kind {
        Kind::Tithi => &TITHIS,
        Kind::Nakshatra => &NAKSHATRAS,
        Kind::Yoga => &YOGAS,
        Kind::Karana => &KARANAS,
        Kind::Sign => &SIGNS,
        Kind::Month => &MONTHS,
        Kind::Fortnight => &FORTNIGHTS,
        Kind::Weekday => &WEEKDAYS,
    }
}

// And in the other.
fn other_names(kind: Kind) -> &'static [u8]
    ensures { pieces space result.now ≡ other_names kind }
{
    match kind {
        Kind::Tithi => &MARKED_TITHIS,
        Kind::Nakshatra => &MARKED_NAKSHATRAS,
        Kind::Yoga => &MARKED_YOGAS,
        Kind::Karana => &MARKED_KARANAS,
        Kind::Sign => &MARKED_SIGNS,
        Kind::Month => &MARKED_MONTHS,
        Kind::Fortnight => &MARKED_FORTNIGHTS,
        Kind::Weekday => &SHORT_WEEKDAYS,
    }
}

// The number of a name in one of its two spellings; any other word is refused.
#[tactic(auto, unfolding(crate::specs::Names::name_read))]
pub fn number_of(kind: Kind, word: &[u8]) -> Result<u32, Refusal>
    ensures { result ≡ name_read kind word.now }
{
    let count = count_of(kind);
    let first = first_of(kind);
    let plain = place_in(plain_names(kind), word);
    if plain < count {
        return Ok(first + plain as u32);
    }
    let other = place_in(other_names(kind), word);
    if other < count {
        return Ok(first + other as u32);
    }
    Err(Refusal::BadInput)
}

// The plain name of a number put behind a line; of a number that has none nothing is put.
#[tactic(auto, unfolding(crate::specs::Names::name_of))]
pub fn put_name(line: Line, kind: Kind, number: u32) -> Line
    ensures { result ≡ with_bytes line (name_of kind number) }
{
    let first = first_of(kind);
    if number < first {
        return line.text(b"");
    }
    line.text(name_at(plain_names(kind), (number - first) as usize))
}

// The bytes of the longest plain name.
fn column_of(kind: Kind) -> usize
    ensures { result ≡ column_of kind }
{
    match kind {
        Kind::Tithi => 19,
        Kind::Nakshatra => 17,
        Kind::Yoga => 10,
        Kind::Karana => 11,
        Kind::Sign => 10,
        Kind::Month => 12,
        Kind::Fortnight => 7,
        Kind::Weekday => 9,
    }
}

// Blanks put behind a line, from one column to another.
pub fn put_blanks(line: Line, from: usize, to: usize) -> Line
    ensures { result ≡ with_bytes line (blanks from to) }
{
    let mut made = line;
    for at in from..to {
        made = made.byte(b' ');
    }
    made
}

// The name of a number put behind a line, with blanks up to the end of its column.
pub fn put_padded(line: Line, kind: Kind, number: u32) -> Line
    ensures { result ≡ with_bytes line (padded_name kind number) }
{
    let name = put_name(Line::empty(), kind, number);
    let bytes = name.bytes;
    let len = name.len;
    put_blanks(line.text(&bytes[..len]), len, column_of(kind))
}

// The name of a number put behind a line in double quotes.
pub fn put_quoted(line: Line, kind: Kind, number: u32) -> Line
    ensures { result ≡ with_bytes line (quoted_name kind number) }
{
    put_name(line.byte(b'"'), kind, number).byte(b'"')
}
