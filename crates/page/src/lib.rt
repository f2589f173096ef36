// A torn almanac page as a person writes it down: the text of a page to a query.
#![tactic(auto)]

ghost use Rattle.std.specs.Prelude.{◌≡◌, ◌<◌};
ghost use Rattle.words.specs.Words.{place_in};
ghost use Rattle.page.specs.declared.Reason.TheVariants.{OtherValues};
ghost use Rattle.page.specs.Names.{keywords};
ghost use Rattle.page.specs.Page.{keyword_count, reason_number, fault_reason, is_element, element_of, only_span, with_condition, rank_of, ranks_before, first_refusal, both_read, numbers_read, print_of, with_print, print_read, has_arcs, arc_read, sign_arc, width_to, to_arc, is_to, named_arc, arc_in, arc_words, second_arc_in, arcs_read, arcs_in, most_values, values_read, alone_read, refused_as, condition_read, line_read, HasKeyword, first_fault, with_fault, with_keyword, with_line, empty_page, page_answer, page_read};

use days::Day;
use days::refusal::{self, Refusal};
use longitudes::CIRCLE;
use names::{Kind, Print, number_of};
use panchanga::FIRST_EDITION;
use query::{Arc, Asked, BodyArcs, Query, TRUE_BODIES, Weekdays};
use values::{MOST_NUMBERS, MOST_WEEKDAYS, angle, day, named_set, nothing};
use words::{
    after, after_word, after_words, body_place, first_word, place_in, run_length, true_place,
    unmarked, up_to,
};
use zodiac::SIGN;

// The words that a line begins with, behind them the names of the bodies, then `karana`, the names of the true places
// and `print`; each is known by its place among them all.
const CONDITIONS: [u8; 41] = *b"span weekday tithi nakshatra yoga edition";

const KARANA_NAME: [u8; 6] = *b"karana";

const PRINT_NAME: [u8; 5] = *b"print";

// Kept: `page::keyword_of` hands out a place among these words, which is also where the names of the bodies and of the
// true places stand; the docs name these constants.
pub const SPAN: usize = 0;

pub const WEEKDAY: usize = 1;

pub const TITHI: usize = 2;

pub const NAKSHATRA: usize = 3;

pub const YOGA: usize = 4;

pub const EDITION: usize = 5;

// The Sun's, and after it the other bodies'.
pub const ARCS: usize = 6;

pub const KARANA: usize = 15;

// The true Sun's, and after it the other true places'.
pub const TRUE_ARCS: usize = 16;

// The one that is no condition: how the days are printed.
pub const PRINT: usize = 23;

// How many keywords there are.
pub const KEYWORD_COUNT: usize = 24;

// Why a line is refused, beside the refusal.
#[derive(Clone, Copy, Debug, PartialEq, Eq)]
pub enum Reason {
    UnknownWord,
    BadValue,
    RepeatedWord,
    NotEnded,
    // The values are not those that this keyword takes.
    OtherValues(u8),
}

impl Reason {
    // Its number, which messages are told by: from OTHER_VALUES on by the keyword's place.
    pub fn number(self) -> u32
        ensures { result ≡ reason_number self }
    {
        match self {
            Reason::UnknownWord => UNKNOWN_WORD,
            Reason::BadValue => BAD_VALUE,
            Reason::RepeatedWord => REPEATED_WORD,
            Reason::NotEnded => NOT_ENDED,
            Reason::OtherValues(keyword) => OTHER_VALUES + keyword as u32,
        }
    }
}

// The reasons by number.
// Kept: `messages::page_fault` takes any number, and an enum in place of it would ask more of callers.
pub const UNKNOWN_WORD: u32 = 1;

pub const BAD_VALUE: u32 = 3;

pub const REPEATED_WORD: u32 = 4;

pub const NOT_ENDED: u32 = 5;

pub const OTHER_VALUES: u32 = 6;

// A tithi may be two words.
const ELEMENT_WORDS: usize = 2 * MOST_NUMBERS;

// What `print` takes.
const PRINTS: [u8; 9] = *b"names csv";

// The word between the start and the end of an arc.
const TO: [u8; 2] = *b"to";

// A page that has been read: its query, and how its days are printed.
#[derive(Clone, Copy)]
pub struct PageRead {
    pub query: Query,
    pub print: Print,
}

// Why a page is refused, and the line that it is refused for, counted from 1.
#[derive(Clone, Copy)]
pub struct Fault {
    pub refusal: Refusal,
    pub reason: Option<Reason>,
    pub line: usize,
}

impl Fault {
    // The number of its reason, or 0.
    pub fn reason_number(self) -> u32
        ensures { result ≡ fault_reason self }
    {
        match self.reason {
            Some(reason) => reason.number(),
            None => 0,
        }
    }
}

// The values of a line: two numbers, of which a set of weekdays or of numbers is the first, or a body's arcs.
#[derive(Clone, Copy)]
struct Values {
    first: u32,
    second: u32,
    arcs: BodyArcs,
}

// A line that has been read: one without a word, one that is no condition, and a keyword with its values or their
// refusal.
#[derive(Clone, Copy)]
enum LineRead {
    Blank,
    Malformed(Reason),
    Condition(usize, Result<Values, Refusal>),
}

// What the lines so far mean, their first fault, and which keywords they have.
#[derive(Clone, Copy)]
struct Page {
    fault: Option<Fault>,
    present: [bool; KEYWORD_COUNT],
    query: Query,
    print: Print,
}

fn only_span(edition: u32, first: u32, last: u32) -> Query
    ensures { result ≡ only_span edition first last }
{
    Query {
        first,
        last,
        edition,
        weekdays: Weekdays::NONE,
        tithi: Asked::NONE,
        nakshatra: Asked::NONE,
        yoga: Asked::NONE,
        karana: Asked::NONE,
        arcs: [BodyArcs::NONE; 9],
        true_arcs: [BodyArcs::NONE; TRUE_BODIES],
    }
}

// `ARCS..KARANA` are the bodies' arcs, and behind the karana those of the true places.
#[tactic(auto, unfolding(crate::specs::Page::with_condition))]
fn with_condition(query: Query, keyword: usize, values: Values) -> Query
    requires { keyword < keyword_count }
    ensures { result ≡ with_condition query keyword values }
{
    let mut query = query;
    let set = values.first;
    let asked = Asked { given: true, set };
    let weekdays = Weekdays { given: true, set };
    let of_body = values.arcs;
    match keyword {
        SPAN => Query {
            first: values.first,
            last: values.second,
            ..query
        },
        WEEKDAY => Query { weekdays, ..query },
        TITHI => Query {
            tithi: asked,
            ..query
        },
        NAKSHATRA => Query {
            nakshatra: asked,
            ..query
        },
        YOGA => Query {
            yoga: asked,
            ..query
        },
        EDITION => Query {
            edition: values.first,
            ..query
        },
        KARANA => Query {
            karana: asked,
            ..query
        },
        PRINT => query,
        _ if keyword < KARANA => {
            query.arcs[keyword - ARCS] = of_body;
            query
        }
        _ => {
            query.true_arcs[keyword - TRUE_ARCS] = of_body;
            query
        }
    }
}

// What the place of a word among those that `print` takes means.
fn print_of(place: u32) -> Print
    ensures { result ≡ print_of place }
{
    if place == 0 { Print::Names } else { Print::Csv }
}

#[tactic(auto, unfolding(crate::specs::Page::with_print))]
fn with_print(print: Print, keyword: usize, values: Values) -> Print
    ensures { result ≡ with_print print keyword values }
{
    if keyword == PRINT {
        print_of(values.first)
    } else {
        print
    }
}

// The order of refusals, by their numbers: the lower comes first.
// Kept: `page::ranks_before` and `first_refusal` take any number, and an enum in place of it would ask more of callers.
#[tactic(auto, unfolding(crate::specs::Page::rank_of))]
fn rank(number: u32) -> u32
    ensures { result ≡ rank_of number }
{
    match number {
        refusal::BAD_EDITION => 0,
        refusal::BAD_INPUT => 1,
        refusal::NO_SUCH_DATE => 2,
        refusal::OUT_OF_RANGE => 3,
        refusal::LAST_BEFORE_FIRST => 4,
        refusal::BAD_CONDITION => 5,
        _ => 6,
    }
}

// Whether one refusal comes before another in that order.
#[tactic(auto, unfolding(crate::specs::Page::ranks_before))]
pub fn ranks_before(one: u32, other: u32) -> bool
    ensures { result ≡ ranks_before one other }
{
    rank(one) < rank(other)
}

// Of two refusals the first in that order.
#[tactic(auto, unfolding(crate::specs::Page::first_refusal))]
pub fn first_refusal(one: u32, other: u32) -> u32
    ensures { result ≡ first_refusal one other }
{
    if ranks_before(other, one) { other } else { one }
}

// Two values that are read, or of their refusals the first in that order.
#[tactic(auto, unfolding(crate::specs::Page::both_read))]
pub fn both(
    first: Result<u32, Refusal>,
    second: Result<u32, Refusal>,
) -> Result<(u32, u32), Refusal>
    ensures { result ≡ both_read first second }
{
    match (first, second) {
        (Ok(first), Ok(second)) => Ok((first, second)),
        (Err(one), Err(other)) if first_refusal(one.number(), other.number()) == other.number() => {
            Err(other)
        }
        (Err(one), _) => Err(one),
        (_, Err(other)) => Err(other),
    }
}

// The place of a word among those that `print` takes.
fn print_place(word: &[u8]) -> Result<u32, Refusal>
    ensures { result ≡ print_read word.now }
{
    let place = place_in(&PRINTS, word);
    if 2 <= place {
        return Err(Refusal::BadInput);
    }
    Ok(place as u32)
}

#[tactic(auto, unfolding(crate::specs::Page::numbers_read))]
fn numbers(first: Result<u32, Refusal>, second: Result<u32, Refusal>) -> Result<Values, Refusal>
    ensures { result ≡ numbers_read first second }
{
    let (first, second) = both(first, second)?;
    Ok(Values {
        first,
        second,
        arcs: BodyArcs::NONE,
    })
}

#[tactic(auto, unfolding(crate::specs::Page::arc_read))]
fn read_arc(start: &[u8], width: &[u8]) -> Option<Arc>
    ensures { result ≡ arc_read start.now width.now }
{
    let start = angle(start).ok()?;
    let width = angle(width).ok()?;
    Some(Arc {
        given: true,
        start,
        width,
    })
}

fn sign_arc(sign: u32) -> Arc
    requires { sign < 12 }
    ensures { result ≡ sign_arc sign }
{
    Arc {
        given: true,
        start: SIGN * sign,
        width: SIGN,
    }
}

// The width from a start to an end, which is not in the arc; 0 where there is none.
#[tactic(auto, unfolding(crate::specs::Page::width_to))]
pub fn width_to(start: u32, end: u32) -> u32
    ensures { result ≡ width_to start end }
{
    if start <= end {
        if end <= CIRCLE {
            return end - start;
        }
        return 0;
    }
    if start < CIRCLE {
        return end + CIRCLE - start;
    }
    0
}

#[tactic(auto, unfolding(crate::specs::Page::to_arc))]
fn to_arc(start: Result<u32, Refusal>, end: Result<u32, Refusal>) -> Option<Arc>
    ensures { result ≡ to_arc start end }
{
    let start = start.ok()?;
    let end = end.ok()?;
    Some(Arc {
        given: true,
        start,
        width: width_to(start, end),
    })
}

// Whether a word stands between the start and the end of an arc.
pub fn is_to(word: &[u8]) -> bool
    ensures { result ≡ is_to word.now }
{
    place_in(&TO, word) == 0
}

// A sign, or a start, `to` and an end, at the front of a text.
#[tactic(auto, unfolding(crate::specs::Page::named_arc))]
fn named_arc(text: &[u8]) -> Option<Arc>
    ensures { result ≡ named_arc text.now }
{
    let first = first_word(text);
    if let Ok(sign) = number_of(Kind::Sign, first) {
        return Some(sign_arc(sign));
    }
    if is_to(first_word(after_word(text))) {
        return to_arc(angle(first), angle(first_word(after_words(text, 2))));
    }
    None
}

// The arc at the front of a text: a start and a width, or in other words.
#[tactic(auto, unfolding(crate::specs::Page::arc_in))]
fn arc_in(text: &[u8]) -> Option<Arc>
    ensures { result ≡ arc_in text.now }
{
    match read_arc(first_word(text), first_word(after_word(text))) {
        Some(arc) => Some(arc),
        None => named_arc(text),
    }
}

// How many words that arc is.
#[tactic(auto, unfolding(crate::specs::Page::arc_words))]
pub fn arc_words(text: &[u8]) -> usize
    ensures { result ≡ arc_words text.now }
{
    let first = first_word(text);
    if let Some(_) = read_arc(first, first_word(after_word(text))) {
        return 2;
    }
    if let Ok(_) = number_of(Kind::Sign, first) {
        return 1;
    }
    3
}

// A line may have no second arc.
#[tactic(auto, unfolding(crate::specs::Page::second_arc_in))]
fn second_arc_in(text: &[u8]) -> Option<Arc>
    ensures { result ≡ second_arc_in text.now }
{
    if first_word(text).is_empty() {
        Some(Arc::NONE)
    } else {
        arc_in(text)
    }
}

// Both arcs, and the word behind them, which must be none.
#[tactic(auto, unfolding(crate::specs::Page::arcs_read))]
fn both_arcs(first: Option<Arc>, second: Option<Arc>, left: &[u8]) -> Result<Values, Refusal>
    ensures { result ≡ arcs_read first second left.now }
{
    match (first, second) {
        (Some(first), Some(second)) if left.is_empty() => Ok(Values {
            first: 0,
            second: 0,
            arcs: BodyArcs { first, second },
        }),
        _ => Err(Refusal::BadInput),
    }
}

#[tactic(auto, unfolding(crate::specs::Page::arcs_in))]
fn read_arcs(text: &[u8]) -> Result<Values, Refusal>
    ensures { result ≡ arcs_in text.now }
{
    let first = arc_in(text);
    let more = after_words(text, arc_words(text));
    let second = second_arc_in(more);
    let left = first_word(after_words(more, arc_words(more)));
    both_arcs(first, second, left)
}

// Whether a keyword's values are a set of numbers.
#[tactic(auto, unfolding(crate::specs::Page::is_element))]
fn is_element(keyword: usize) -> bool
    ensures { result ≡ is_element keyword }
{
    keyword == KARANA || TITHI <= keyword && keyword <= YOGA
}

// What an element's keyword has names of.
#[tactic(auto, unfolding(crate::specs::Page::element_of))]
fn element_of(keyword: usize) -> Kind
    ensures { result ≡ element_of keyword }
{
    match keyword {
        TITHI => Kind::Tithi,
        NAKSHATRA => Kind::Nakshatra,
        YOGA => Kind::Yoga,
        _ => Kind::Karana,
    }
}

// Whether a keyword's values are arcs: a body's, or a true place's.
#[tactic(auto, unfolding(crate::specs::Page::has_arcs))]
pub fn has_arcs(keyword: usize) -> bool
    ensures { result ≡ has_arcs keyword }
{
    ARCS <= keyword && keyword < PRINT && keyword != KARANA
}

// The most words that a line may have behind its first: those of a set, two arcs of three, or two.
#[tactic(auto, unfolding(crate::specs::Page::most_values))]
fn most_values(keyword: usize) -> usize
    ensures { result ≡ most_values keyword }
{
    if keyword == WEEKDAY {
        MOST_WEEKDAYS
    } else if is_element(keyword) {
        ELEMENT_WORDS
    } else if has_arcs(keyword) {
        6
    } else {
        2
    }
}

#[tactic(auto, unfolding(crate::specs::Page::values_read, crate::specs::Page::first_value, crate::specs::Page::second_value))]
fn read_values(keyword: usize, text: &[u8]) -> Result<Values, Refusal>
    ensures { result ≡ values_read keyword text.now }
{
    if keyword == WEEKDAY {
        return numbers(named_set(Kind::Weekday, text), Ok(0));
    }
    if is_element(keyword) {
        return numbers(named_set(element_of(keyword), text), Ok(0));
    }
    if has_arcs(keyword) {
        return read_arcs(text);
    }
    let first = first_word(text);
    let second = first_word(after_word(text));
    match keyword {
        SPAN => numbers(day(first), day(second)),
        PRINT => numbers(print_place(first), nothing(second)),
        _ => numbers(text::read_decimal(first), nothing(second)),
    }
}

// The reason of a line whose values are not those that its keyword takes.
fn other_values(keyword: usize) -> Reason
    requires { keyword < keyword_count }
    ensures { result ≡ OtherValues keyword }
{
    Reason::OtherValues(keyword as u8)
}

// The refusal of a condition, which has a reason where its values are out of range.
#[tactic(auto, unfolding(crate::specs::Page::refused_as))]
fn refused_as(keyword: usize, refusal: Refusal, line: usize) -> Fault
    requires { keyword < keyword_count }
    ensures { result ≡ refused_as keyword refusal line }
{
    let reason = match refusal {
        Refusal::BadCondition => Some(other_values(keyword)),
        _ => None,
    };
    Fault {
        refusal,
        reason,
        line,
    }
}

// Values, refused as the query with their condition alone.
#[tactic(auto, unfolding(crate::specs::Page::alone_read))]
fn alone(keyword: usize, values: Values) -> Result<Values, Refusal>
    requires { keyword < keyword_count }
    ensures { result ≡ alone_read keyword values }
{
    let every = only_span(FIRST_EDITION, 0, Day::LAST);
    with_condition(every, keyword, values).check()?;
    Ok(values)
}

#[tactic(auto, unfolding(crate::specs::Page::condition_read))]
fn condition(keyword: usize, values: Result<Values, Refusal>) -> LineRead
    requires { keyword < keyword_count }
    ensures { result ≡ condition_read keyword values }
{
    match values {
        Ok(values) => LineRead::Condition(keyword, alone(keyword, values)),
        Err(Refusal::BadInput) => LineRead::Malformed(other_values(keyword)),
        Err(refusal) => LineRead::Condition(keyword, Err(refusal)),
    }
}

// A word's place among the keywords; KEYWORD_COUNT for a word that is none.
pub fn keyword_of(word: &[u8]) -> usize
    ensures { result ≡ place_in keywords word.now }
{
    let place = place_in(&CONDITIONS, word);
    if place < ARCS {
        return place;
    }
    let of_body = ARCS + body_place(word);
    if of_body < KARANA {
        return of_body;
    }
    let element = place_in(&KARANA_NAME, word);
    if element == 0 {
        return KARANA;
    }
    let of_place = TRUE_ARCS + true_place(word);
    if of_place < PRINT {
        return of_place;
    }
    PRINT + place_in(&PRINT_NAME, word)
}

#[tactic(auto, unfolding(crate::specs::Page::line_read, crate::specs::Page::words_read))]
fn read_line(line: &[u8]) -> LineRead
    ensures { result ≡ line_read line.now }
{
    let body = up_to(line, b'#');
    let name = first_word(body);
    if name.is_empty() {
        return LineRead::Blank;
    }
    let keyword = keyword_of(name);
    if KEYWORD_COUNT <= keyword {
        return LineRead::Malformed(Reason::UnknownWord);
    }
    let values = after_word(body);
    let more = first_word(after_words(values, most_values(keyword)));
    if !more.is_empty() {
        return LineRead::Malformed(other_values(keyword));
    }
    condition(keyword, read_values(keyword, values))
}

// Of two faults the one whose refusal comes first in that order, of two alike the former.
#[tactic(auto, unfolding(crate::specs::Page::first_fault))]
pub fn first_fault(one: Fault, other: Fault) -> Fault
    ensures { result ≡ first_fault one other }
{
    if ranks_before(other.refusal.number(), one.refusal.number()) {
        other
    } else {
        one
    }
}

fn with_fault(page: Page, fault: Fault) -> Page
    ensures { result ≡ with_fault page fault }
{
    let fault = match page.fault {
        Some(first) => first_fault(first, fault),
        None => fault,
    };
    Page {
        fault: Some(fault),
        ..page
    }
}

// A keyword stands once. A line that repeats one is malformed, unless it has a refusal that comes first.
#[tactic(auto, unfolding(crate::specs::Page::with_keyword))]
fn with_keyword(page: Page, number: usize, keyword: usize, values: Result<Values, Refusal>) -> Page
    requires { keyword < keyword_count }
    ensures { result ≡ with_keyword page number keyword values }
{
    let mut present = page.present;
    if present[keyword] {
        let repeated = Fault {
            refusal: Refusal::BadInput,
            reason: Some(Reason::RepeatedWord),
            line: number,
        };
        return match values {
            Ok(_) => with_fault(page, repeated),
            Err(refusal) => {
                let fault = refused_as(keyword, refusal, number);
                with_fault(page, first_fault(repeated, fault))
            }
        };
    }
    present[keyword] = true;
    match values {
        Ok(values) => Page {
            present,
            query: with_condition(page.query, keyword, values),
            print: with_print(page.print, keyword, values),
            ..page
        },
        Err(refusal) => with_fault(
            Page { present, ..page },
            refused_as(keyword, refusal, number),
        ),
    }
}

#[tactic(auto, unfolding(crate::specs::Page::with_line))]
fn with_line(page: Page, number: usize, line: LineRead) -> Page
    requires { HasKeyword line }
    ensures { result ≡ with_line page number line }
{
    match line {
        LineRead::Blank => page,
        LineRead::Malformed(reason) => with_fault(
            page,
            Fault {
                refusal: Refusal::BadInput,
                reason: Some(reason),
                line: number,
            },
        ),
        LineRead::Condition(keyword, values) => with_keyword(page, number, keyword, values),
    }
}

fn empty_page() -> Page
    ensures { result ≡ empty_page }
{
    let query = only_span(FIRST_EDITION, 0, Day::LAST);
    Page {
        fault: None,
        present: [false; KEYWORD_COUNT],
        query,
        print: Print::Numbers,
    }
}

#[tactic(auto, unfolding(crate::specs::Page::page_answer))]
fn page_answer(page: Page) -> Result<PageRead, Fault>
    ensures { result ≡ page_answer page }
{
    match page.fault {
        Some(fault) => Err(fault),
        None => Ok(PageRead {
            query: page.query,
            print: page.print,
        }),
    }
}

// The query that a page's text means, or its fault.
pub fn read(text: &[u8]) -> Result<PageRead, Fault>
    ensures { result ≡ page_read text.now }
{
    let mut page = empty_page();
    let mut number: usize = 1;
    let mut rest = unmarked(text);
    while 0 < rest.len() {
        if run_length(rest, b'\n', false) == rest.len() {
            return page_answer(with_fault(
                page,
                Fault {
                    refusal: Refusal::BadInput,
                    reason: Some(Reason::NotEnded),
                    line: number,
                },
            ));
        }
        match read_line(up_to(rest, b'\n')) {
            // A blank line leaves the page, which is not copied.
            LineRead::Blank => {}
            line => page = with_line(page, number, line),
        }
        number += 1;
        let others = after(rest, b'\n');
        rest = others;
    }
    page_answer(page)
}
