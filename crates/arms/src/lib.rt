// Orders for the arms of a planet table: to hold, to go to a body's angle, or to run at its rate, in degrees as 64-bit
// floats.
#![tactic(auto)]

ghost use Rattle.std.specs.Prelude.{◌≡◌, ◌+◌, ◌≤◌, ◌<◌};
ghost use Rattle.days.specs.Days.{last_day};
ghost use Rattle.longitudes.specs.Longitudes.{difference_of};
ghost use Rattle.longitudes.specs.Answers.{body_number};
ghost use Rattle.std.specs.Result.{result_map_both};
ghost use Rattle.planets.specs.OnDays.{planet_number};
ghost use Rattle.arms.specs.Degrees.{degrees_of};
ghost use Rattle.arms.specs.Orders.{order_number, order_value, carried_out, carried_out_numbered, seconds_on, true_seconds_on, angle_on, rate_on, place_of, follow_of, answer_numbers};
ghost use Rattle.arms.specs.Ranges.{IsAngle, ExactAngle, IsRate, IsTrueRate};
ghost use Rattle.arms.specs.Parts.{body_on, Reckonable, steps_of, seconds_by, Small, StepsFor, signed_way};

use days::Day;
use days::refusal::Refusal;
use longitudes::{Body, CIRCLE, Motion};
use panchanga::FIRST_EDITION;
use planets::Planet;

// What an arm is told: to stay where it is, to go to an angle, or to run on at a rate.
#[derive(Clone, Copy)]
pub enum Order {
    Hold,
    Go(f64),
    Run(f64),
}

// Its angle in degrees, and its rate in degrees a day.
#[derive(Clone, Copy)]
pub struct Arm {
    pub angle: f64,
    pub rate: f64,
}

const HALF: u32 = CIRCLE / 2;

impl Order {
    // 0 to hold, 1 to go, 2 to run.
    pub fn number(self) -> u32
        ensures { result ≡ order_number self }
    {
        match self {
            Order::Hold => 0,
            Order::Go(_) => 1,
            Order::Run(_) => 2,
        }
    }

    // The angle or the rate; 0 to hold.
    pub fn value(self) -> f64
        ensures { result ≡ order_value self }
    {
        match self {
            Order::Hold => 0.0,
            Order::Go(angle) => angle,
            Order::Run(rate) => rate,
        }
    }
}

impl Arm {
    // The arm after an order.
    pub fn carry_out(self, order: Order) -> Arm
        ensures { result ≡ carried_out self order }
    {
        match order {
            Order::Hold => Arm {
                angle: self.angle,
                rate: 0.0,
            },
            Order::Go(angle) => Arm { angle, rate: 0.0 },
            Order::Run(rate) => Arm {
                angle: self.angle,
                rate,
            },
        }
    }
}

// The arm after an order that comes as its number and its value; an order above 2 is refused.
pub fn carry_out_numbered(arm: Arm, number: u32, value: f64) -> Result<Arm, Refusal>
    ensures { result ≡ carried_out_numbered arm number value }
{
    match number {
        0 => Ok(arm.carry_out(Order::Hold)),
        1 => Ok(arm.carry_out(Order::Go(value))),
        2 => Ok(arm.carry_out(Order::Run(value))),
        _ => Err(Refusal::BadInput),
    }
}

// Seconds of arc as degrees. The cast is exact, so the division alone rounds.
fn degrees(seconds: i32) -> f64
    ensures { result ≡ degrees_of seconds }
{
    (seconds as f64) / 3600.0
}

// The signed short way, of a way forwards; half a circle is backwards.
fn signed_way(forwards: u32) -> i32
    requires { forwards < 1296000 }
    ensures { result ≡ signed_way forwards }
{
    if forwards < HALF {
        forwards as i32
    } else {
        forwards as i32 - CIRCLE as i32
    }
}

// Parts of a second, so small that a day's motion rounded up to a part gives the same whole seconds on each day of a
// cycle.
const PARTS: u64 = 8388608;

// What a body's whole seconds are reckoned from, with no division by its own q: its longitude at the epoch, what a
// cycle adds, and a day's motion in parts, rounded up.
#[derive(Clone, Copy)]
struct Steps {
    epoch: u32,
    cycle: u32,
    day: u64,
}

fn steps_of(row: Motion) -> Steps
    requires { Reckonable row }
    ensures { result ≡ steps_of row }
{
    let cycle = CIRCLE - row.d;
    let divisor = row.q as u64;
    let motion = row.p as u64 * PARTS;
    let day = (motion + (divisor - 1)) / divisor;
    Steps {
        epoch: row.k,
        cycle,
        day,
    }
}

// A case for each body: the compiler knows its steps, and makes a table of them.
fn steps_for(body: Body) -> Steps
    ensures { StepsFor (body_number body) result }
{
    match body {
        Body::Sun => steps_of(longitudes::SUN),
        Body::Moon => steps_of(longitudes::MOON),
        Body::MoonApogee => steps_of(longitudes::MOON_APOGEE),
        Body::MoonNode => steps_of(longitudes::MOON_NODE),
        Body::Mars => steps_of(longitudes::MARS),
        Body::MercuryAnomaly => steps_of(longitudes::MERCURY_ANOMALY),
        Body::Jupiter => steps_of(longitudes::JUPITER),
        Body::VenusAnomaly => steps_of(longitudes::VENUS_ANOMALY),
        Body::Saturn => steps_of(longitudes::SATURN),
    }
}

// The whole seconds on a day.
fn seconds_by(steps: Steps, day: u32) -> u32
    requires { Small steps × (day ≤ last_day) }
    ensures { (result ≡ seconds_by steps day) × (result < 1296000) }
{
    let cycle = day / Day::CYCLE_DAYS;
    let within = day % Day::CYCLE_DAYS;
    let turned = steps.epoch + cycle * steps.cycle;
    let moved = within as u64 * steps.day;
    let whole = turned as u64 + moved / PARTS;
    (whole % CIRCLE as u64) as u32
}

// The way forwards to the next day's whole seconds: within a cycle what the day moves, with nothing to reduce.
fn forwards_by(steps: Steps, day: u32) -> u32
    requires { Small steps × (day < last_day) }
    ensures { (result ≡ difference_of (seconds_by steps (day + 1)) (seconds_by steps day)) × (result < 1296000) }
{
    let within = day % Day::CYCLE_DAYS;
    if within < Day::CYCLE_DAYS - 1 {
        let moved = within as u64 * steps.day;
        let next = moved + steps.day;
        return (next / PARTS - moved / PARTS) as u32;
    }
    let from = seconds_by(steps, day);
    let to = seconds_by(steps, day + 1);
    longitudes::difference(to, from)
}

fn angle_on(day: u32, body: Body) -> f64
    requires { day ≤ last_day }
    ensures { result ≡ angle_on seconds_on day (body_number body) }
{
    let steps = steps_for(body);
    let at = seconds_by(steps, day);
    degrees(at as i32)
}

fn rate_on(day: u32, body: Body) -> f64
    requires { day < last_day }
    ensures { result ≡ rate_on seconds_on day (body_number body) }
{
    let steps = steps_for(body);
    let forwards = forwards_by(steps, day);
    degrees(signed_way(forwards))
}

// The planet that a body is.
fn planet_of(body: Body) -> Planet
    requires { 4 ≤ body_number body }
    ensures { body_number body ≡ 4 + planet_number result }
{
    match body {
        Body::Mars => Planet::Mars,
        Body::MercuryAnomaly => Planet::Mercury,
        Body::Jupiter => Planet::Jupiter,
        Body::VenusAnomaly => Planet::Venus,
        _ => Planet::Saturn,
    }
}

// The true whole seconds on a day; the Moon's apogee and node have the mean ones alone.
fn true_seconds(day: u32, body: Body) -> u32
    requires { day ≤ last_day }
    ensures { (result ≡ true_seconds_on day (body_number body)) × (result < 1296000) }
{
    let pair = Day::at(day);
    match body {
        Body::Sun => panchanga::true_sun(pair).unwrap(),
        Body::Moon => panchanga::true_moon(FIRST_EDITION, pair).unwrap(),
        Body::MoonApogee | Body::MoonNode => seconds_by(steps_for(body), day),
        _ => planets::true_longitude(planet_of(body), pair).unwrap(),
    }
}

// The way forwards from a longitude to another.
fn forwards_to(from: u32, to: u32) -> u32
    requires { (from < 1296000) × (to < 1296000) }
    ensures { (result ≡ difference_of to from) × (result < 1296000) }
{
    if from <= to {
        to - from
    } else {
        to + CIRCLE - from
    }
}

fn true_angle_on(day: u32, body: Body) -> f64
    requires { day ≤ last_day }
    ensures { result ≡ angle_on true_seconds_on day (body_number body) }
{
    let at = true_seconds(day, body);
    degrees(at as i32)
}

fn true_rate_on(day: u32, body: Body) -> f64
    requires { day < last_day }
    ensures { result ≡ rate_on true_seconds_on day (body_number body) }
{
    let from = true_seconds(day, body);
    let to = true_seconds(day + 1, body);
    let forwards = forwards_to(from, to);
    degrees(signed_way(forwards))
}

// The body with a number, to be placed or followed on a day: a day past the last one is refused, then such a number.
#[tactic(auto, unfolding(crate::specs::Parts::body_on))]
fn body_on(day: u32, number: u32) -> Result<Body, Refusal>
    ensures { result_map_both body_number (λ r. r) result ≡ body_on day number }
{
    if Day::LAST < day {
        return Err(Refusal::OutOfRange);
    }
    match number {
        0 => Ok(Body::Sun),
        1 => Ok(Body::Moon),
        2 => Ok(Body::MoonApogee),
        3 => Ok(Body::MoonNode),
        4 => Ok(Body::Mars),
        5 => Ok(Body::MercuryAnomaly),
        6 => Ok(Body::Jupiter),
        7 => Ok(Body::VenusAnomaly),
        8 => Ok(Body::Saturn),
        _ => Err(Refusal::NoSuchBody),
    }
}

// To place a body by its number on a day: the order to go to its angle.
pub fn place(day: u32, body: u32) -> Result<Order, Refusal>
    ensures meant { answer_numbers result ≡ place_of seconds_on day body }
    ensures range { IsAngle (answer_numbers result).value }
    ensures exact { ExactAngle seconds_on day body (answer_numbers result).value }
{
    let body = body_on(day, body)?;
    let angle = angle_on(day, body);
    Ok(Order::Go(angle))
}

// To follow a body by its number from a day to the next: the order to run at its rate, on the last day to hold.
pub fn follow(day: u32, body: u32) -> Result<Order, Refusal>
    ensures meant { answer_numbers result ≡ follow_of seconds_on day body }
    ensures range { IsRate (answer_numbers result).value }
{
    let body = body_on(day, body)?;
    if day == Day::LAST {
        return Ok(Order::Hold);
    }
    let rate = rate_on(day, body);
    Ok(Order::Run(rate))
}

// As `place`, at the true longitude.
// Kept: with the angle's function as a parameter `place` and `true_place` would still be two, of a line each beside the
// shared one's contract, which has to say what that function gives; so too `follow` and `true_follow`.
pub fn true_place(day: u32, body: u32) -> Result<Order, Refusal>
    ensures meant { answer_numbers result ≡ place_of true_seconds_on day body }
    ensures range { IsAngle (answer_numbers result).value }
    ensures exact { ExactAngle true_seconds_on day body (answer_numbers result).value }
{
    let body = body_on(day, body)?;
    let angle = true_angle_on(day, body);
    Ok(Order::Go(angle))
}

// As `follow`, by the true longitudes: backwards for a planet that goes backwards.
pub fn true_follow(day: u32, body: u32) -> Result<Order, Refusal>
    ensures meant { answer_numbers result ≡ follow_of true_seconds_on day body }
    ensures range { IsTrueRate (answer_numbers result).value }
{
    let body = body_on(day, body)?;
    if Day::LAST == day {
        return Ok(Order::Hold);
    }
    let rate = true_rate_on(day, body);
    Ok(Order::Run(rate))
}
