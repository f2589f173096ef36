// How far the mean longitudes of the Sun, the Moon and the Moon's apogee are from the older books' motions: paper 02's
// drift, without a decimal.
#![tactic(auto)]

ghost use Rattle.std.specs.Prelude.{◌≡◌, ◌+◌, ◌-◌, ◌%◌, ◌≤◌, ◌<◌};
ghost use Rattle.days.specs.Days.{last_day};
ghost use Rattle.older_motions.specs.OlderMotions.{divisor_of, whole_circle, ahead_on, shorter_way};
ghost use Rattle.older_motions.specs.Drifts.{farthest_over, drifts_over};
ghost use Rattle.older_motions.specs.Parts.{motion_of, Sizes, Scans};

use days::Day;
use days::refusal::Refusal;
use longitudes::{CIRCLE, Motion};

// The largest distance over a span, as a fraction of a second of arc, and the first day that has it.
#[derive(Clone, Copy)]
pub struct Farthest {
    pub numerator: u64,
    pub divisor: u64,
    pub day: u32,
}

// Of the three.
#[derive(Clone, Copy)]
pub struct Drifts {
    pub sun: Farthest,
    pub moon: Farthest,
    pub apogee: Farthest,
}

// A body's row of the mean longitudes, and its older motion: so many circles in so many days.
#[derive(Clone, Copy)]
struct CodedMotion {
    mean: Motion,
    circles: u64,
    days: u64,
}

// A day on the way through a span: how far ahead its mean longitude is, and the next day that begins a cycle.
#[derive(Clone, Copy)]
struct Scan {
    ahead: u64,
    turn: u32,
}

const SUN: CodedMotion = CodedMotion {
    mean: longitudes::SUN,
    circles: 4320000,
    days: 1577916450,
};

const MOON: CodedMotion = CodedMotion {
    mean: longitudes::MOON,
    circles: 57753300,
    days: 1577916450,
};

const APOGEE: CodedMotion = CodedMotion {
    mean: longitudes::MOON_APOGEE,
    circles: 488203,
    days: 1577917828,
};

// Forwards on a circle of so many parts. The rest of the circle does not wait for the place, as a sum to be tested
// would: the loop below is faster by a quarter.
fn forwards(from: u64, by: u64, circle: u64) -> u64
    requires { (from < circle) × (by ≤ circle) }
    ensures { result ≡ (from + by) % circle }
{
    let rest = circle - by;
    if from < rest { from + by } else { from - rest }
}

fn divisor_of(motion: CodedMotion) -> u64
    requires { Sizes motion }
    ensures { result ≡ divisor_of (motion_of motion) }
{
    motion.mean.q as u64 * motion.days
}

fn whole_circle(motion: CodedMotion) -> u64
    requires { Sizes motion }
    ensures { result ≡ whole_circle (motion_of motion) }
{
    let divisor = divisor_of(motion);
    CIRCLE as u64 * divisor
}

// Whole circles are taken off each of the two before it is brought to parts of a second, so that both stay below a
// circle. K is in both.
fn ahead_on(motion: CodedMotion, day: u32) -> u64
    requires { (Sizes motion) × (day ≤ last_day) }
    ensures { result ≡ ahead_on (motion_of motion) day }
{
    let row = motion.mean;
    let q = row.q as u64;
    let seconds = CIRCLE as u64 * q;
    let circle = whole_circle(motion);
    let cycle = (day / Day::CYCLE_DAYS) as u64;
    let within = (day % Day::CYCLE_DAYS) as u64;
    let turned = cycle * (CIRCLE - row.d) as u64 * q;
    let moved = turned + within * row.p as u64;
    let mean = moved % seconds * motion.days;
    let circles = day as u64 * motion.circles;
    let older = circles % motion.days * seconds;
    forwards(mean, circle - older, circle)
}

fn scan_from(motion: CodedMotion, day: u32) -> Scan
    requires { (Sizes motion) × (day ≤ last_day) }
    ensures { Scans (motion_of motion) result day }
{
    let ahead = ahead_on(motion, day);
    let within = day % Day::CYCLE_DAYS;
    let turn = day - within + Day::CYCLE_DAYS;
    Scan { ahead, turn }
}

// To the next day: each day of a cycle gains what day 1 did, and a cycle begins anew.
fn scan_next(motion: CodedMotion, scan: Scan, gain: u64, next: u32) -> Scan
    requires { (Sizes motion) × (0 < next) × (next ≤ last_day) × (Scans (motion_of motion) scan (next - 1)) × (gain ≡ ahead_on (motion_of motion) 1) }
    ensures { Scans (motion_of motion) result next }
{
    let turn = scan.turn;
    if turn <= next {
        return scan_from(motion, next);
    }
    let circle = whole_circle(motion);
    let ahead = forwards(scan.ahead, gain, circle);
    Scan { ahead, turn }
}

fn shorter_way(ahead: u64, circle: u64) -> u64
    requires { ahead < circle }
    ensures { result ≡ shorter_way circle ahead }
{
    let back = circle - ahead;
    if ahead <= back { ahead } else { back }
}

fn farthest_over(motion: CodedMotion, first: u32, last: u32) -> Farthest
    requires { (Sizes motion) × (first ≤ last) × (last ≤ last_day) }
    ensures { result ≡ farthest_over (motion_of motion) first last }
{
    let divisor = divisor_of(motion);
    let circle = whole_circle(motion);
    let gain = ahead_on(motion, 1);
    let mut scan = scan_from(motion, first);
    let mut numerator = shorter_way(scan.ahead, circle);
    let mut day = first;
    // (Not over first + 1..=last, whose end takes a second test a day: on some processors half the time again.)
    for before in first..last {
        let next = before + 1;
        scan = scan_next(motion, scan, gain, next);
        let distance = shorter_way(scan.ahead, circle);
        if numerator < distance {
            numerator = distance;
            day = next;
        }
    }
    Farthest {
        numerator,
        divisor,
        day,
    }
}

// The three over the days from the first to the last, both counted.
pub fn drift(first: u32, last: u32) -> Result<Drifts, Refusal>
    ensures { result ≡ drifts_over first last }
{
    days::check_span(first, last)?;
    let sun = farthest_over(SUN, first, last);
    let moon = farthest_over(MOON, first, last);
    let apogee = farthest_over(APOGEE, first, last);
    Ok(Drifts { sun, moon, apogee })
}
