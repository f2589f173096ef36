// The orders for a table's arms, by the numbers of a day and a body: each number of an answer by a call of its own, an
// angle or a rate as a double.
ghost use Rattle.std.specs.Prelude.{◌≡◌};
ghost use Rattle.days.specs.Refusals.{result_number};
ghost use Rattle.arms.specs.Orders.{seconds_on, true_seconds_on, place_of, follow_of, carried_out_numbered, answer_numbers};
ghost use Rattle.arms.specs.Ranges.{IsAngle, ExactAngle, IsRate, IsTrueRate};
ghost use Rattle.host.specs.Calls.{arm_told};

use arms::{Arm, Order};
use days::refusal::{Refusal, result_number};

fn number(answer: Result<Order, Refusal>) -> u32
    ensures { result ≡ (answer_numbers answer).order }
{
    answer.map_or(0, |order| order.number())
}

fn value(answer: Result<Order, Refusal>) -> f64
    ensures { result ≡ (answer_numbers answer).value }
{
    answer.map_or(0.0, |order| order.value())
}

#[unsafe(no_mangle)]
pub extern "C" fn graha_place_result(day: u32, body: u32) -> u32
    ensures { result ≡ (place_of seconds_on day body).refusal }
{
    result_number(arms::place(day, body))
}

// 1 to go; 0 to hold where it is refused.
#[unsafe(no_mangle)]
pub extern "C" fn graha_place_order(day: u32, body: u32) -> u32
    ensures { result ≡ (place_of seconds_on day body).order }
{
    number(arms::place(day, body))
}

// In degrees; 0 where it is refused.
#[unsafe(no_mangle)]
pub extern "C" fn graha_place_angle(day: u32, body: u32) -> f64
    ensures value { result ≡ (place_of seconds_on day body).value }
    ensures angle { IsAngle result }
    ensures exact_angle { ExactAngle seconds_on day body result }
{
    value(arms::place(day, body))
}

#[unsafe(no_mangle)]
pub extern "C" fn graha_follow_result(day: u32, body: u32) -> u32
    ensures { result ≡ (follow_of seconds_on day body).refusal }
{
    result_number(arms::follow(day, body))
}

// 0 to hold, 2 to run.
#[unsafe(no_mangle)]
pub extern "C" fn graha_follow_order(day: u32, body: u32) -> u32
    ensures { result ≡ (follow_of seconds_on day body).order }
{
    number(arms::follow(day, body))
}

// In degrees a day; 0 where it is refused or the order is to hold.
#[unsafe(no_mangle)]
pub extern "C" fn graha_follow_rate(day: u32, body: u32) -> f64
    ensures value { result ≡ (follow_of seconds_on day body).value }
    ensures rate { IsRate result }
{
    value(arms::follow(day, body))
}

// The same at the true longitudes. Whether an order is refused, and which it is, hangs on no longitude: these four ask
// for the mean place's, and reckon none.
#[unsafe(no_mangle)]
pub extern "C" fn graha_true_place_result(day: u32, body: u32) -> u32
    ensures { result ≡ (place_of true_seconds_on day body).refusal }
{
    graha_place_result(day, body)
}

#[unsafe(no_mangle)]
pub extern "C" fn graha_true_place_order(day: u32, body: u32) -> u32
    ensures { result ≡ (place_of true_seconds_on day body).order }
{
    graha_place_order(day, body)
}

#[unsafe(no_mangle)]
pub extern "C" fn graha_true_place_angle(day: u32, body: u32) -> f64
    ensures value { result ≡ (place_of true_seconds_on day body).value }
    ensures angle { IsAngle result }
    ensures exact_angle { ExactAngle true_seconds_on day body result }
{
    value(arms::true_place(day, body))
}

#[unsafe(no_mangle)]
pub extern "C" fn graha_true_follow_result(day: u32, body: u32) -> u32
    ensures { result ≡ (follow_of true_seconds_on day body).refusal }
{
    graha_follow_result(day, body)
}

#[unsafe(no_mangle)]
pub extern "C" fn graha_true_follow_order(day: u32, body: u32) -> u32
    ensures { result ≡ (follow_of true_seconds_on day body).order }
{
    graha_follow_order(day, body)
}

#[unsafe(no_mangle)]
pub extern "C" fn graha_true_follow_rate(day: u32, body: u32) -> f64
    ensures value { result ≡ (follow_of true_seconds_on day body).value }
    ensures true_rate { IsTrueRate result }
{
    value(arms::true_follow(day, body))
}

fn carried_out(angle: f64, rate: f64, order: u32, value: f64) -> Result<Arm, Refusal>
    ensures { result ≡ carried_out_numbered (record { angle = angle; rate = rate }) order value }
{
    arms::carry_out_numbered(Arm { angle, rate }, order, value)
}

// The arm after an order, by its number and its value: the refusal of an order above 2, or 0.
#[unsafe(no_mangle)]
pub extern "C" fn graha_carry_out_result(angle: f64, rate: f64, order: u32, value: f64) -> u32
    ensures { result ≡ result_number (carried_out_numbered (record { angle = angle; rate = rate }) order value) }
{
    result_number(carried_out(angle, rate, order, value))
}

#[unsafe(no_mangle)]
pub extern "C" fn graha_carry_out_angle(angle: f64, rate: f64, order: u32, value: f64) -> f64
    ensures { result ≡ (arm_told (carried_out_numbered (record { angle = angle; rate = rate }) order value)).angle }
{
    carried_out(angle, rate, order, value).map_or(0.0, |arm| arm.angle)
}

#[unsafe(no_mangle)]
pub extern "C" fn graha_carry_out_rate(angle: f64, rate: f64, order: u32, value: f64) -> f64
    ensures { result ≡ (arm_told (carried_out_numbered (record { angle = angle; rate = rate }) order value)).rate }
{
    carried_out(angle, rate, order, value).map_or(0.0, |arm| arm.rate)
}
