// What is said of a page on standard error.
#![tactic(auto)]

ghost use Rattle.std.specs.Prelude.{◌≡◌};
ghost use Rattle.text.specs.Lines.{with_bytes, Holds};
ghost use Rattle.words.specs.Names.{body_names, true_names};
ghost use Rattle.words.specs.Words.{name_at};
ghost use Rattle.messages.specs.Messages.{refusal_text, condition_takes, arcs_take, takes_text, values_text, fault_text, fault_line, unreadable_page};

use days::refusal;
use text::Line;

// What a refusal says, by its number, put behind a line.
// Kept: `messages::with_refusal` and `page_fault` take any number, and enums in place of them would ask more of
// callers.
#[tactic(auto, unfolding(crate::specs::Messages::refusal_text))]
pub fn with_refusal(line: Line, refusal: u32) -> Line
    ensures { result ≡ with_bytes line (refusal_text refusal) }
{
    match refusal {
        refusal::NO_SUCH_DATE => line.text(b"there is no such date\n"),
        refusal::OUT_OF_RANGE => line.text(b"a day outside 0 to 401599\n"),
        refusal::LAST_BEFORE_FIRST => line.text(b"the last day is before the first\n"),
        refusal::BAD_EDITION => line.text(b"an edition other than 1 and 2\n"),
        _ => line.text(b"a value is out of range\n"),
    }
}

#[tactic(auto, unfolding(crate::specs::Messages::condition_takes))]
fn with_condition(line: Line, keyword: usize) -> Line
    ensures { result ≡ with_bytes line (condition_takes keyword) }
{
    match keyword {
        page::SPAN => line.text(b"span takes two days, each a date as 1612-5-14 or a number\n"),
        page::WEEKDAY => line.text(b"weekday takes one to seven of monday to sunday or 0 to 6\n"),
        page::TITHI => line.text(
            b"tithi takes one to thirty of shukla-pratipada to amavasya, of shukla or krishna with 1 to 15, or of 0 to 29\n",
        ),
        page::NAKSHATRA => line.text(
            b"nakshatra takes one or more of ashvini to revati or 0 to 26\n",
        ),
        page::YOGA => line.text(b"yoga takes one or more of vishkambha to vaidhriti or 0 to 26\n"),
        _ => line.text(b"edition takes 1 or 2\n"),
    }
}

fn with_arcs(line: Line, name: &[u8]) -> Line
    ensures { result ≡ with_bytes line (arcs_take name.now) }
{
    line.text(name).text(
        b" takes one or two arcs: a start and a width, a start `to` an end, or a sign of mesha to mina\n",
    )
}

fn with_body(line: Line, body: usize) -> Line
    ensures { result ≡ with_bytes line (arcs_take (name_at body_names body)) }
{
    let names = words::BODY_NAMES;
    with_arcs(line, words::name_at(&names, body))
}

fn with_true_place(line: Line, place: usize) -> Line
    ensures { result ≡ with_bytes line (arcs_take (name_at true_names place)) }
{
    let names = words::TRUE_NAMES;
    with_arcs(line, words::name_at(&names, place))
}

// Which word it is that has other values, and what it takes.
#[tactic(auto, unfolding(crate::specs::Messages::takes_text))]
fn with_takes(line: Line, keyword: usize) -> Line
    ensures { result ≡ with_bytes line (takes_text keyword) }
{
    if keyword < page::ARCS {
        return with_condition(line, keyword);
    }
    if keyword < page::KARANA {
        return with_body(line, keyword - page::ARCS);
    }
    if keyword == page::KARANA {
        return line.text(b"karana takes one or more of bava to kimstughna or 1 to 11\n");
    }
    if page::PRINT <= keyword {
        return line.text(b"print takes names or csv\n");
    }
    with_true_place(line, keyword - page::TRUE_ARCS)
}

#[tactic(auto, unfolding(crate::specs::Messages::values_text))]
fn with_values(line: Line, refusal: u32, reason: u32) -> Line
    ensures { result ≡ with_bytes line (values_text refusal reason) }
{
    if page::OTHER_VALUES <= reason {
        return with_takes(line, (reason - page::OTHER_VALUES) as usize);
    }
    with_refusal(line, refusal)
}

#[tactic(auto, unfolding(crate::specs::Messages::fault_text))]
fn with_reason(line: Line, refusal: u32, reason: u32) -> Line
    ensures { result ≡ with_bytes line (fault_text refusal reason) }
{
    match reason {
        page::UNKNOWN_WORD => line.text(b"no line begins with this word\n"),
        page::BAD_VALUE => line.text(b"the day is a number, or a date as 1612-5-14\n"),
        page::REPEATED_WORD => line.text(b"this word stands already\n"),
        page::NOT_ENDED => line.text(b"the last line has no newline; end it with the Enter key\n"),
        _ => with_values(line, refusal, reason),
    }
}

// Which line of a page is at fault, and why: the numbers of a `page::Fault`.
pub fn page_fault(line: u32, refusal: u32, reason: u32) -> Line
    ensures { Holds result (fault_line line refusal reason) }
{
    let place = Line::empty().text(b"line ").number(line).text(b": ");
    with_reason(place, refusal, reason)
}

pub fn unreadable_page() -> Line
    ensures { Holds result unreadable_page }
{
    Line::empty().text(b"the page is too long or cannot be read\n")
}
