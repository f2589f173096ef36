// A list of days as lines of text, and lines as a list: a line is an ISO date, or a day's number. All or nothing: a
// refusal writes nothing.
#![tactic(auto)]

ghost use Rattle.std.specs.Prelude.{◌≡◌, true, is_ok, ◌++◌, ◌+◌, ◌-◌, ◌*◌, ◌≤◌, ◌<◌, min, length, take, drop};
ghost use Rattle.days.specs.Days.{last_day};
ghost use Rattle.entries.specs.Entries.{with_entries_from};
ghost use Rattle.entries.specs.Listed.{listed_from, EachDay};
ghost use Rattle.text.specs.Lines.{Holds};
ghost use Rattle.date_lines.specs.Told.{why_not, line_at_fault, conversion_number, length_told};
ghost use Rattle.date_lines.specs.Lines.{date_read, number_line_read, date_line, line_read, line_of};
ghost use Rattle.date_lines.specs.Texts.{lines_of, days_of, limited_read, list_answer, list_after, longest, all_days, text_of, fit_answer, days_answer, text_answer, with_front, text_after};

use civil::Date;
use days::Day;
use days::refusal::Refusal;
use text::Line;

// What stands on the lines.
#[derive(Clone, Copy)]
pub enum Kind {
    Dates,
    Days,
}

// Why nothing is written: by a line's refusal, the first one, counted from 1; an entry that is no day; or too little
// room, with how many entries or bytes would do.
#[derive(Clone, Copy, Debug, PartialEq, Eq)]
pub enum NotConverted {
    AtLine(Refusal, usize),
    NoDay,
    TooShort(usize),
}

impl NotConverted {
    pub fn refusal(self) -> Refusal
        ensures { result ≡ why_not self }
    {
        match self {
            NotConverted::AtLine(refusal, _) => refusal,
            NotConverted::NoDay => Refusal::OutOfRange,
            NotConverted::TooShort(_) => Refusal::ListTooShort,
        }
    }

    // The line at fault, or 0.
    pub fn line(self) -> usize
        ensures { result ≡ line_at_fault self }
    {
        match self {
            NotConverted::AtLine(_, line) => line,
            _ => 0,
        }
    }
}

// Of an answer: 0, or its refusal's number.
#[tactic(auto, unfolding(crate::specs::Told::conversion_number))]
pub fn conversion_number(done: Result<usize, NotConverted>) -> u32
    ensures { result ≡ conversion_number done }
{
    match done {
        Ok(_) => 0,
        Err(not) => not.refusal().number(),
    }
}

// How many entries or bytes it tells: what is written, or would do; 0 of any other refusal.
#[tactic(auto, unfolding(crate::specs::Told::length_told))]
pub fn length_told(done: Result<usize, NotConverted>) -> usize
    ensures { result ≡ length_told done }
{
    match done {
        Ok(length) => length,
        Err(NotConverted::TooShort(length)) => length,
        Err(_) => 0,
    }
}

// The bytes of a line of a date.
pub const DATE_BYTES: usize = 11;

// The days of 4,096 lines are kept while these are read, since nothing is written before the last is known to be good.
// Of more lines all are read again.
const KEPT: usize = 16384;

fn read_date(line: &[u8]) -> Result<u32, Refusal>
    ensures { result ≡ date_read line.now }
{
    if line.len() != DATE_BYTES {
        return Err(Refusal::BadLine);
    }
    if line[4] != b'-' {
        return Err(Refusal::BadLine);
    }
    if line[7] != b'-' {
        return Err(Refusal::BadLine);
    }
    if line[10] != b'\n' {
        return Err(Refusal::BadLine);
    }
    let y1 = line[0];
    let y2 = line[1];
    let y3 = line[2];
    let y4 = line[3];
    let m1 = line[5];
    let m2 = line[6];
    let d1 = line[8];
    let d2 = line[9];
    let Ok(number) = text::read_decimal(&[y1, y2, y3, y4, m1, m2, d1, d2]) else {
        return Err(Refusal::BadLine);
    };
    iso::day_of(Date {
        year: number / 10000,
        month: number / 100 % 100,
        day: number % 100,
    })
}

fn read_number(line: &[u8]) -> Result<u32, Refusal>
    ensures { result ≡ number_line_read line.now }
{
    match text::read_day(line) {
        Err(Refusal::BadInput) => Err(Refusal::BadLine),
        Err(refusal) => Err(refusal),
        Ok(day) => Ok(day),
    }
}

fn read_line(kind: Kind, line: &[u8]) -> Result<u32, Refusal>
    ensures { result ≡ line_read kind line.now }
{
    match kind {
        Kind::Dates => read_date(line),
        Kind::Days => read_number(line),
    }
}

// Reads the lines, of which there may be so many at most, up to the first that is refused, and keeps their days beside,
// as many as there is room for. What stands behind so many lines is not looked at.
fn read_lines(kind: Kind, text: &[u8], most: usize, kept: &mut [u8]) -> Result<usize, NotConverted>
    ensures value { result ≡ limited_read kind most (lines_of text.now) }
    ensures kept_after { is_ok result ≡ true → kept.new ≡ with_entries_from kept.old 0 (days_of kind (lines_of text.now)) }
{
    let mut lines: usize = 0;
    let mut seen: usize = 0;
    for line in text.split_inclusive(|byte| *byte == b'\n').take(most) {
        match read_line(kind, line) {
            Ok(day) => entries::put_entry(kept, lines, day),
            Err(refusal) => return Err(NotConverted::AtLine(refusal, lines + 1)),
        }
        lines += 1;
        seen += line.len();
    }
    if seen < text.len() {
        return Err(NotConverted::AtLine(Refusal::ListTooShort, lines + 1));
    }
    Ok(lines)
}

// The days of a text's lines to a list, where the text has so many lines at most. No text has more lines than bytes.
pub fn lines_to_list(
    kind: Kind,
    text: &[u8],
    most: usize,
    list: &mut [u8],
) -> Result<usize, NotConverted>
    ensures value { result ≡ list_answer kind most text.now list.old }
    ensures list_after { list.new ≡ list_after kind most text.now list.old }
{
    let mut kept = [0u8; KEPT];
    let lines = read_lines(kind, text, most, &mut kept)?;
    if list.len() / entries::ENTRY_BYTES < lines {
        return Err(NotConverted::TooShort(lines));
    }
    if lines <= KEPT / entries::ENTRY_BYTES {
        let end = entries::ENTRY_BYTES * lines;
        entries::copy(&kept[..end], list);
        return Ok(lines);
    }
    read_lines(kind, text, most, list)
}

fn digit(n: u32) -> u8
    requires { n < 10 }
    ensures { result ≡ 48 + n }
{
    b'0' + n as u8
}

// The first digit of a number is a quotient alone: three remainders more would make a line a fifth slower.
fn date_line(date: Date) -> [u8; DATE_BYTES]
    requires { (date.year < 10000) × ((date.month < 100) × (date.day < 100)) }
    ensures { result ≡ date_line date }
{
    [
        digit(date.year / 1000),
        digit(date.year / 100 % 10),
        digit(date.year / 10 % 10),
        digit(date.year % 10),
        b'-',
        digit(date.month / 10),
        digit(date.month % 10),
        b'-',
        digit(date.day / 10),
        digit(date.day % 10),
        b'\n',
    ]
}

fn number_line(day: u32) -> Line
    ensures { Holds result (line_of Kind.Days day) }
{
    Line::empty().number(day).byte(b'\n')
}

fn all_days(list: &[u8]) -> bool
    ensures { result ≡ all_days (listed_from list.now 0) }
{
    for index in 0..list.len() / entries::ENTRY_BYTES {
        let due = entries::entry_at(list, index).unwrap();
        if Day::LAST < due {
            return false;
        }
    }
    true
}

// The bytes of the lines of a list's numbers, or the largest number where they are more.
fn numbers_length(list: &[u8]) -> usize
    ensures { result ≡ min (length (text_of Kind.Days (listed_from list.now 0))) longest }
{
    let mut length: usize = 0;
    for index in 0..list.len() / entries::ENTRY_BYTES {
        let due = entries::entry_at(list, index).unwrap();
        let line = number_line(due);
        length = length.saturating_add(line.len);
    }
    length
}

fn lines_length(kind: Kind, list: &[u8]) -> usize
    ensures { result ≡ min (length (text_of kind (listed_from list.now 0))) longest }
{
    match kind {
        Kind::Dates => DATE_BYTES.saturating_mul(list.len() / entries::ENTRY_BYTES),
        Kind::Days => numbers_length(list),
    }
}

// Whether each entry is a day, and whether the lines fit.
fn measure(kind: Kind, list: &[u8], bytes: usize) -> Result<usize, NotConverted>
    requires { bytes < longest }
    ensures { result ≡ days_answer kind (listed_from list.now 0) bytes }
{
    if !all_days(list) {
        return Err(NotConverted::NoDay);
    }
    let length = lines_length(kind, list);
    if length <= bytes {
        return Ok(length);
    }
    Err(NotConverted::TooShort(length))
}

// Puts a line from a byte on, and hands back where it ends.
fn put(line: &[u8], text: &mut [u8], at: usize) -> usize
    requires { at + length line.now ≤ length text.old }
    ensures value { result ≡ at + length line.now }
    ensures text_after { text.new ≡ take at text.old ++ with_front line.now (drop at text.old) }
{
    at + entries::copy(line, &mut text[at..])
}

// The same for a day's line.
fn put_line(kind: Kind, day: u32, text: &mut [u8], at: usize) -> usize
    requires { (day ≤ last_day) × (at + length (line_of kind day) ≤ length text.old) }
    ensures value { result ≡ at + length (line_of kind day) }
    ensures text_after { text.new ≡ take at text.old ++ with_front (line_of kind day) (drop at text.old) }
{
    match kind {
        Kind::Dates => put(&date_line(iso::date_on(day)), text, at),
        Kind::Days => {
            let line = number_line(day);
            let bytes = line.bytes;
            let len = line.len;
            put(&bytes[..len], text, at)
        }
    }
}

// Puts the lines of a list's days at the front of a text.
fn put_lines(kind: Kind, list: &[u8], text: &mut [u8])
    requires { EachDay (listed_from list.now 0) × (length (text_of kind (listed_from list.now 0)) ≤ length text.old) }
    ensures { text.new ≡ with_front (text_of kind (listed_from list.now 0)) text.old }
{
    let mut at: usize = 0;
    for index in 0..list.len() / entries::ENTRY_BYTES {
        let due = entries::entry_at(list, index).unwrap();
        at = put_line(kind, due, text, at);
    }
}

// A list's days to lines.
pub fn list_to_lines(kind: Kind, list: &[u8], text: &mut [u8]) -> Result<usize, NotConverted>
    ensures value { result ≡ text_answer kind list.now text.old }
    ensures text_after { text.new ≡ text_after kind list.now text.old }
{
    let length = measure(kind, list, text.len())?;
    put_lines(kind, list, text);
    Ok(length)
}
