// What a day and a page are asked with: a text whose first line is the day, and behind it the page.
#![tactic(auto)]

ghost use Rattle.std.specs.Prelude.{◌≡◌};
ghost use Rattle.question.specs.Questions.{day_in_range, day_line_read, first_at, day_or_fault, first_line_read, behind_day, asked_by, question_read};

use days::Day;
use days::refusal::Refusal;
use names::Print;
use page::{Fault, PageRead, Reason};
use query::Query;
use words::{after, after_word, first_word, run_length, unmarked, up_to};

// What a text asks: the day, the query, and how it is printed.
#[derive(Clone, Copy)]
pub struct Question {
    pub day: u32,
    pub query: Query,
    pub print: Print,
}

fn day_in_range(day: u32) -> Result<u32, Refusal>
    ensures { result ≡ day_in_range day }
{
    if day <= Day::LAST {
        Ok(day)
    } else {
        Err(Refusal::OutOfRange)
    }
}

// The day of a line that has one word, its number or its civil date.
#[tactic(auto, unfolding(crate::specs::Questions::day_line_read))]
fn read_day(line: &[u8]) -> Result<u32, Refusal>
    ensures { result ≡ day_line_read line.now }
{
    let body = up_to(line, b'#');
    let more = first_word(after_word(body));
    if !more.is_empty() {
        return Err(Refusal::BadInput);
    }
    let day = values::day(first_word(body))?;
    day_in_range(day)
}

fn at_first_line(refusal: Refusal, reason: Option<Reason>) -> Fault
    ensures { result ≡ first_at refusal reason }
{
    Fault {
        refusal,
        reason,
        line: 1,
    }
}

#[tactic(auto, unfolding(crate::specs::Questions::day_or_fault))]
fn day_or_fault(read: Result<u32, Refusal>) -> Result<u32, Fault>
    ensures { result ≡ day_or_fault read }
{
    match read {
        Ok(day) => Ok(day),
        Err(Refusal::BadInput) => Err(at_first_line(Refusal::BadInput, Some(Reason::BadValue))),
        Err(refusal) => Err(at_first_line(refusal, None)),
    }
}

#[tactic(auto, unfolding(crate::specs::Questions::first_line_read))]
fn first_line(text: &[u8]) -> Result<u32, Fault>
    ensures { result ≡ first_line_read text.now }
{
    if run_length(text, b'\n', false) == text.len() {
        return Err(at_first_line(Refusal::BadInput, Some(Reason::NotEnded)));
    }
    day_or_fault(read_day(up_to(text, b'\n')))
}

// The page behind the first line, so that its own first line is the second.
fn page_behind(text: &[u8]) -> Result<PageRead, Fault>
    ensures { result ≡ behind_day text.now }
{
    match page::read(after(text, b'\n')) {
        Ok(page) => Ok(page),
        Err(fault) => Err(Fault {
            line: fault.line + 1,
            ..fault
        }),
    }
}

#[tactic(auto, unfolding(crate::specs::Questions::asked_by))]
fn together(first: Result<u32, Fault>, page: Result<PageRead, Fault>) -> Result<Question, Fault>
    ensures { result ≡ asked_by first page }
{
    match (first, page) {
        (Ok(day), Ok(page)) => Ok(Question {
            day,
            query: page.query,
            print: page.print,
        }),
        (Err(one), Err(other)) => Err(page::first_fault(one, other)),
        (Err(fault), _) => Err(fault),
        (_, Err(fault)) => Err(fault),
    }
}

// The question that a text asks, or its fault.
#[tactic(auto, unfolding(crate::specs::Questions::question_read))]
pub fn read(text: &[u8]) -> Result<Question, Fault>
    ensures { result ≡ question_read text.now }
{
    together(first_line(unmarked(text)), page_behind(text))
}
