// Why a day is not in a query's list as C calls, each number of the answer by a call of its own.
ghost use Rattle.std.specs.Prelude.{◌≡◌, ◌≤◌, get_or};
ghost use Rattle.reasons.specs.Reasons.{cause_of};
ghost use Rattle.bridge.specs.Answers.{one_number, both_numbers, six_of, bridge_why};
ghost use Rattle.bridge.specs.Numbers.{BridgeCause, asked_told, BridgeWhy};

use days::refusal::{Refusal, result_number};
use query::BodyArcs;
use reasons::Reason;

// What shuts the day out: the condition's number, the values asked, in six places, and the value found.
#[derive(Clone, Copy)]
struct Cause {
    condition: u32,
    asked: [u32; 6],
    found: u32,
}

// The answer in numbers.
#[derive(Clone, Copy)]
struct Told {
    edition: u32,
    cause: Cause,
}

const NOTHING: Cause = Cause {
    condition: 0,
    asked: [0; 6],
    found: 0,
};

fn one_value(condition: u32, asked: u32, found: u32) -> Cause
    ensures { result ≡ record { condition = condition; asked = one_number asked; found = found } }
{
    Cause {
        condition,
        asked: [asked, 0, 0, 0, 0, 0],
        found,
    }
}

fn both_arcs(condition: u32, asked: BodyArcs, found: u32) -> Cause
    ensures { result ≡ record { condition = condition; asked = both_numbers asked; found = found } }
{
    let first = asked.first;
    let second = asked.second;
    let first_given = first.given as u32;
    let second_given = second.given as u32;
    Cause {
        condition,
        asked: [
            first_given,
            first.start,
            first.width,
            second_given,
            second.start,
            second.width,
        ],
        found,
    }
}

fn cause_of(reason: Reason) -> Cause
    requires { (cause_of reason).condition ≤ 23 }
    ensures { BridgeCause (cause_of reason) result }
{
    match reason {
        Reason::Fits => NOTHING,
        Reason::BeforeSpan { first, day } => one_value(1, first, day),
        Reason::AfterSpan { last, day } => one_value(2, last, day),
        Reason::Weekday { asked, found } => one_value(3, asked, found),
        Reason::Tithi { asked, found } => one_value(4, asked, found),
        Reason::Nakshatra { asked, found } => one_value(5, asked, found),
        Reason::Yoga { asked, found } => one_value(6, asked, found),
        Reason::Karana { asked, found } => one_value(16, asked, found),
        Reason::Arcs { body, asked, found } => both_arcs(7 + body, asked, found),
        Reason::TrueArcs {
            place,
            asked,
            found,
        } => both_arcs(17 + place, asked, found),
    }
}

fn answer(query: &[u8], day: u32) -> Result<Told, Refusal>
    ensures { BridgeWhy (bridge_why query.now day) result }
{
    let asked = super::read(query)?;
    let told = reasons::why(asked, day)?;
    let cause = cause_of(told.reason);
    Ok(Told {
        edition: told.edition,
        cause,
    })
}

// The values asked; zeros of a refusal.
fn values_asked(answer: Result<Told, Refusal>) -> [u32; 6]
    ensures { result ≡ asked_told answer }
{
    match answer {
        Ok(told) => told.cause.asked,
        Err(_) => [0; 6],
    }
}

// The refusal, or 0.
#[unsafe(no_mangle)]
pub extern "C" fn bridge_why_result(query: &[u8], day: u32) -> u32
    ensures { result ≡ (bridge_why query.now day).refusal }
{
    result_number(answer(query, day))
}

// The edition by which the answer is reckoned.
#[unsafe(no_mangle)]
pub extern "C" fn bridge_why_edition(query: &[u8], day: u32) -> u32
    ensures { result ≡ (bridge_why query.now day).edition }
{
    answer(query, day).map_or(0, |told| told.edition)
}

// The number of the first condition that does not hold: 1 before the span, 2 after it, 3 weekday, 4 tithi, 5 nakshatra,
// 6 yoga, 7 to 15 the arcs of the body with the number 7 less, 16 karana, 17 to 23 the arcs of the true longitude with
// the place 17 less; 0 where the day fits. In the order 16 comes before 7.
#[unsafe(no_mangle)]
pub extern "C" fn bridge_why_condition(query: &[u8], day: u32) -> u32
    ensures { result ≡ (bridge_why query.now day).cause.condition }
{
    answer(query, day).map_or(0, |told| told.cause.condition)
}

// One of the values asked, counted from 0; of arcs first given, start and width, second given, start and width; a set
// is one value. Behind the last one 0.
#[unsafe(no_mangle)]
pub extern "C" fn bridge_why_asked(query: &[u8], day: u32, index: u32) -> u32
    ensures { result ≡ get_or (six_of (bridge_why query.now day).cause.asked) index 0 }
{
    let asked = values_asked(answer(query, day));
    asked.get(index as usize).copied().unwrap_or(0)
}

// The value found.
#[unsafe(no_mangle)]
pub extern "C" fn bridge_why_found(query: &[u8], day: u32) -> u32
    ensures { result ≡ (bridge_why query.now day).cause.found }
{
    answer(query, day).map_or(0, |told| told.cause.found)
}
