// The three drifts over a span, each number by a call of its own: 0 the Sun's, 1 the Moon's, 2 the Moon's apogee's;
// from 3 on zeros.
ghost use Rattle.std.specs.Prelude.{◌≡◌};
ghost use Rattle.days.specs.Refusals.{result_number, part_or_zero};
ghost use Rattle.older_motions.specs.Drifts.{drifts_over};
ghost use Rattle.bridge.specs.Answers.{one_of};

use days::refusal::result_number;
use older_motions::{Drifts, Farthest};

const NOTHING: Farthest = Farthest {
    numerator: 0,
    divisor: 0,
    day: 0,
};

#[tactic(auto, unfolding(crate::specs::Answers::one_of))]
fn one_of(drifts: Drifts, body: u32) -> Farthest
    ensures { result ≡ one_of drifts body }
{
    let three = [drifts.sun, drifts.moon, drifts.apogee];
    three.get(body as usize).copied().unwrap_or(NOTHING)
}

#[unsafe(no_mangle)]
pub extern "C" fn bridge_drift_result(first: u32, last: u32) -> u32
    ensures { result ≡ result_number (drifts_over first last) }
{
    result_number(older_motions::drift(first, last))
}

#[unsafe(no_mangle)]
pub extern "C" fn bridge_drift_numerator(first: u32, last: u32, body: u32) -> u64
    ensures { result ≡ part_or_zero (λ drifts. (one_of drifts body).numerator) (drifts_over first last) }
{
    older_motions::drift(first, last).map_or(0, |drifts| one_of(drifts, body).numerator)
}

#[unsafe(no_mangle)]
pub extern "C" fn bridge_drift_divisor(first: u32, last: u32, body: u32) -> u64
    ensures { result ≡ part_or_zero (λ drifts. (one_of drifts body).divisor) (drifts_over first last) }
{
    older_motions::drift(first, last).map_or(0, |drifts| one_of(drifts, body).divisor)
}

#[unsafe(no_mangle)]
pub extern "C" fn bridge_drift_day(first: u32, last: u32, body: u32) -> u32
    ensures { result ≡ part_or_zero (λ drifts. (one_of drifts body).day) (drifts_over first last) }
{
    older_motions::drift(first, last).map_or(0, |drifts| one_of(drifts, body).day)
}
