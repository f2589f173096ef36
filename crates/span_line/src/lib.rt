// A span of days as a line of text: its two days, as a page has them behind the word `span`, and where a program takes
// one a word behind them.
#![tactic(auto)]

ghost use Rattle.std.specs.Prelude.{◌≡◌};
ghost use Rattle.span_line.specs.SpanLine.{both_days, span_line, span_read, span_input};
ghost use Rattle.span_line.specs.Marked.{is_marked, not_marked, marked_line, marked_input};

use days::refusal::Refusal;
use text::TOO_LONG;
use values::day;
use words::{after_word, after_words, first_word, place_in, run_length, up_to};

// The first and the last day of a line.
#[derive(Clone, Copy)]
pub struct Span {
    pub first: u32,
    pub last: u32,
}

// A line's span or its refusal, and whether the mark stands behind its days.
#[derive(Clone, Copy)]
pub struct Marked {
    pub span: Result<Span, Refusal>,
    pub marked: bool,
}

// Both days: of two refusals the first in a page's order, and the span's own behind them.
#[tactic(auto, unfolding(crate::specs::SpanLine::both_days))]
fn both_days(first: Result<u32, Refusal>, last: Result<u32, Refusal>) -> Result<Span, Refusal>
    ensures { result ≡ both_days first last }
{
    let (first, last) = page::both(first, last)?;
    days::check_span(first, last)?;
    Ok(Span { first, last })
}

// The days of a line that has two words.
fn read_days(line: &[u8]) -> Result<Span, Refusal>
    ensures { result ≡ span_line line.now }
{
    let body = up_to(line, b'#');
    let others = after_word(body);
    let more = first_word(after_word(others));
    if !more.is_empty() {
        return Err(Refusal::BadInput);
    }
    both_days(day(first_word(body)), day(first_word(others)))
}

// The span that a text means, or its refusal.
#[tactic(auto, unfolding(crate::specs::SpanLine::span_read, crate::specs::SpanLine::is_one_line))]
pub fn read(text: &[u8]) -> Result<Span, Refusal>
    ensures { result ≡ span_read text.now }
{
    let end = run_length(text, b'\n', false);
    if end + 1 != text.len() {
        return Err(Refusal::BadInput);
    }
    read_days(up_to(text, b'\n'))
}

// The span that a program's input means.
#[tactic(auto, unfolding(crate::specs::SpanLine::span_input))]
pub fn of_input(input: &[u8]) -> Result<Span, Refusal>
    ensures { result ≡ span_input input.now }
{
    if TOO_LONG <= input.len() {
        return Err(Refusal::BadInput);
    }
    read(input)
}

// The mark is the third word, and the last.
#[tactic(auto, unfolding(crate::specs::Marked::is_marked))]
fn is_marked(body: &[u8], mark: &[u8]) -> bool
    ensures { result ≡ is_marked mark.now body.now }
{
    let third = first_word(after_words(body, 2));
    place_in(mark, third) == 0 && first_word(after_words(body, 3)).is_empty()
}

fn not_marked(span: Result<Span, Refusal>) -> Marked
    ensures { result ≡ not_marked span }
{
    Marked {
        span,
        marked: false,
    }
}

#[tactic(auto, unfolding(crate::specs::Marked::marked_line))]
fn read_marked(line: &[u8], mark: &[u8]) -> Marked
    ensures { result ≡ marked_line mark.now line.now }
{
    let body = up_to(line, b'#');
    if !is_marked(body, mark) {
        return not_marked(read_days(line));
    }
    let others = after_word(body);
    let span = both_days(day(first_word(body)), day(first_word(others)));
    Marked { span, marked: true }
}

// The span that a program's input means, where a mark may stand behind the days.
#[tactic(auto, unfolding(crate::specs::Marked::marked_input, crate::specs::SpanLine::is_one_line))]
pub fn of_marked_input(input: &[u8], mark: &[u8]) -> Marked
    ensures { result ≡ marked_input mark.now input.now }
{
    if input.len() >= TOO_LONG {
        return not_marked(Err(Refusal::BadInput));
    }
    let end = run_length(input, b'\n', false);
    if end + 1 != input.len() {
        return not_marked(Err(Refusal::BadInput));
    }
    read_marked(up_to(input, b'\n'), mark)
}
