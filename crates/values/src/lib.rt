// The values of a line: each is a word, read as a number, and the weekdays or the numbers of a line as a set.
#![tactic(auto)]

ghost use Rattle.std.specs.Prelude.{true, ◌≡◌, ◌≤◌};
ghost use Rattle.text.specs.Decimal.{number_read};
ghost use Rattle.words.specs.Words.{first_word};
ghost use Rattle.values.specs.Values.{three_read, two_read, degrees_read, sexagesimal_read, angle_read, date_read, day_read, elapsed_in, half_read, is_tithi, half_named, is_weekday, name_value, value_read, most_weekdays, with_weekday, in_numbers, with_number_read, with_value, set_read, set_of, named_set_read, none_read};

use civil::Date;
use days::refusal::Refusal;
use names::Kind;
use query::Asked;
use text::read_decimal;
use words::{after, after_word, after_words, first_word, up_to};

// The most values that a line's set is made of: each weekday, and as many numbers as there are tithis.
pub const MOST_WEEKDAYS: usize = 7;

pub const MOST_NUMBERS: usize = 30;

// The largest number that has a bit of its own in a query's set; the one behind it is no tithi's.
const LARGEST: u32 = 30;

const NO_TITHI: u32 = 31;

// A value of a set, and how many words it is.
#[derive(Clone, Copy)]
struct Value {
    words: usize,
    read: Result<u32, Refusal>,
}

// Three numbers with a separator between them.
#[derive(Clone, Copy)]
struct Three {
    first: u32,
    second: u32,
    third: u32,
}

#[tactic(auto, unfolding(crate::specs::Values::three_read))]
fn three_of(word: &[u8], separator: u8) -> Result<Three, Refusal>
    ensures { result ≡ three_read separator word.now }
{
    let rest = after(word, separator);
    let first = read_decimal(up_to(word, separator))?;
    let second = read_decimal(up_to(rest, separator))?;
    let third = read_decimal(after(rest, separator))?;
    Ok(Three {
        first,
        second,
        third,
    })
}

#[tactic(auto, unfolding(crate::specs::Values::sexagesimal_read))]
fn sexagesimal(t: Three) -> Result<u32, Refusal>
    ensures { result ≡ sexagesimal_read t }
{
    if t.first < 1000 && t.second < 60 && t.third < 60 {
        Ok(3600 * t.first + 60 * t.second + t.third)
    } else {
        Err(Refusal::BadInput)
    }
}

// Two numbers with a separator between them, and 0 for a third.
#[tactic(auto, unfolding(crate::specs::Values::two_read))]
fn two_of(word: &[u8], separator: u8) -> Result<Three, Refusal>
    ensures { result ≡ two_read separator word.now }
{
    let first = read_decimal(up_to(word, separator))?;
    let second = read_decimal(after(word, separator))?;
    Ok(Three {
        first,
        second,
        third: 0,
    })
}

#[tactic(auto, unfolding(crate::specs::Values::degrees_read))]
fn degrees(word: &[u8]) -> Result<Three, Refusal>
    ensures { result ≡ degrees_read word.now }
{
    three_of(word, b':').or_else(|_| two_of(word, b':'))
}

#[tactic(auto, unfolding(crate::specs::Values::angle_read, crate::specs::Values::number_or))]
pub fn angle(word: &[u8]) -> Result<u32, Refusal>
    ensures { result ≡ angle_read word.now }
{
    read_decimal(word).or_else(|_| degrees(word).and_then(sexagesimal))
}

#[tactic(auto, unfolding(crate::specs::Values::date_read))]
fn date(t: Three) -> Result<u32, Refusal>
    ensures { result ≡ date_read t }
{
    civil::day_of(Date {
        year: t.first,
        month: t.second,
        day: t.third,
    })
}

#[tactic(auto, unfolding(crate::specs::Values::day_read, crate::specs::Values::number_or))]
pub fn day(word: &[u8]) -> Result<u32, Refusal>
    ensures { result ≡ day_read word.now }
{
    read_decimal(word).or_else(|_| three_of(word, b'-').and_then(date))
}

// The tithis elapsed while the nth of a half of the month runs.
#[tactic(auto, unfolding(crate::specs::Values::elapsed_in))]
fn elapsed_in(half: u32, number: u32) -> u32
    requires { half ≤ 1 }
    ensures { result ≡ elapsed_in half number }
{
    match number {
        1..=15 => 15 * half + (number - 1),
        _ => NO_TITHI,
    }
}

fn is_tithi(kind: Kind) -> bool
    ensures { result ≡ is_tithi kind }
{
    matches!(kind, Kind::Tithi)
}

// The half of the month that a word names, where a tithi is asked for.
#[tactic(auto, unfolding(crate::specs::Values::half_named))]
fn half_of(kind: Kind, word: &[u8]) -> Result<u32, Refusal>
    ensures { result ≡ half_named kind word.now }
{
    if is_tithi(kind) {
        names::number_of(Kind::Fortnight, word)
    } else {
        Err(Refusal::BadInput)
    }
}

fn is_weekday(kind: Kind) -> bool
    ensures { result ≡ is_weekday kind }
{
    matches!(kind, Kind::Weekday)
}

// The number at the front of a text, of a tithi in a half of the month.
#[tactic(auto, unfolding(crate::specs::Values::half_read))]
fn in_half(half: u32, text: &[u8]) -> Result<u32, Refusal>
    requires { half ≤ 1 }
    ensures { result ≡ half_read half (number_read (first_word text.now)) }
{
    let number = read_decimal(first_word(text))?;
    Ok(elapsed_in(half, number))
}

// The value by name at the front of a text: one word; or of a tithi the name of a half of the month and a number.
#[tactic(auto, unfolding(crate::specs::Values::name_value))]
fn name_value(kind: Kind, text: &[u8]) -> Value
    ensures { result ≡ name_value kind text.now }
{
    let word = first_word(text);
    match half_of(kind, word) {
        Ok(half) => {
            let read = in_half(half, after_word(text));
            Value { words: 2, read }
        }
        Err(_) => {
            let read = names::number_of(kind, word);
            Value { words: 1, read }
        }
    }
}

// The value at the front of a text: a number, or else a name.
#[tactic(auto, unfolding(crate::specs::Values::value_read))]
fn read_value(kind: Kind, text: &[u8]) -> Value
    ensures { result ≡ value_read kind text.now }
{
    let read = read_decimal(first_word(text));
    if read.is_ok() {
        Value { words: 1, read }
    } else {
        name_value(kind, text)
    }
}

// The set with a weekday more, which must not be in it.
#[tactic(auto, unfolding(crate::specs::Values::with_weekday))]
fn with_weekday(set: u32, weekday: u32) -> Result<u32, Refusal>
    requires { set ≤ 768 }
    ensures { result ≡ with_weekday set weekday }
{
    if days::set_has(set, weekday) {
        return Err(Refusal::BadInput);
    }
    let bit = days::weekday_bit(weekday);
    Ok(set + bit)
}

// Whether a query's set has a number with a bit of its own.
#[tactic(auto, unfolding(crate::specs::Values::in_numbers))]
fn has_number(set: u32, number: u32) -> bool
    ensures { result ≡ in_numbers set number }
{
    let asked = Asked { given: true, set };
    number <= LARGEST && asked.has(number)
}

// The set with a number more, as a query has it, which must not be in it.
#[tactic(auto, unfolding(crate::specs::Values::with_number_read))]
fn with_number(set: u32, number: u32) -> Result<u32, Refusal>
    ensures { result ≡ with_number_read set number }
{
    if has_number(set, number) {
        return Err(Refusal::BadInput);
    }
    let asked = Asked { given: true, set };
    let more = asked.with(number);
    Ok(more.set)
}

// The set with a value more, a weekday or a number.
#[tactic(auto, unfolding(crate::specs::Values::with_value))]
fn with_value(kind: Kind, set: u32, value: u32) -> Result<u32, Refusal>
    requires { is_weekday kind ≡ true → set ≤ 768 }
    ensures { result ≡ with_value kind set value }
{
    if is_weekday(kind) {
        with_weekday(set, value)
    } else {
        with_number(set, value)
    }
}

#[tactic(auto, unfolding(crate::specs::Values::set_read))]
fn no_empty_set(set: u32) -> Result<u32, Refusal>
    ensures { result ≡ set_read set }
{
    if set == 0 {
        Err(Refusal::BadInput)
    } else {
        Ok(set)
    }
}

// The values of a line, one to so many, as a set of weekdays or of numbers.
fn set_of(kind: Kind, most: usize, text: &[u8]) -> Result<u32, Refusal>
    requires { is_weekday kind ≡ true → most ≤ most_weekdays }
    ensures { result ≡ set_of kind most 0 text.now }
{
    let mut set = 0;
    let mut rest = text;
    for taken in 0..most {
        let first = first_word(rest);
        if first.is_empty() {
            return no_empty_set(set);
        }
        let next = read_value(kind, rest);
        let value = next.read?;
        let more = with_value(kind, set, value)?;
        set = more;
        rest = after_words(rest, next.words);
    }
    if first_word(rest).is_empty() {
        no_empty_set(set)
    } else {
        Err(Refusal::BadInput)
    }
}

// The weekdays or the elements of a line, by their numbers or names, as a set.
pub fn named_set(kind: Kind, text: &[u8]) -> Result<u32, Refusal>
    ensures { result ≡ named_set_read kind text.now }
{
    if is_weekday(kind) {
        set_of(kind, MOST_WEEKDAYS, text)
    } else {
        set_of(kind, MOST_NUMBERS, text)
    }
}

// The place of a value that the line must not have.
#[tactic(auto, unfolding(crate::specs::Values::none_read))]
pub fn nothing(word: &[u8]) -> Result<u32, Refusal>
    ensures { result ≡ none_read word.now }
{
    if word.is_empty() {
        Ok(0)
    } else {
        Err(Refusal::BadInput)
    }
}
