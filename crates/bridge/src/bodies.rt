// A body's mean longitude as C calls, each number of its answer by a call of its own.
ghost use Rattle.std.specs.Prelude.{◌≡◌};
ghost use Rattle.days.specs.Refusals.{result_number, part_or_zero};
ghost use Rattle.bridge.specs.Bodies.{bridge_longitude};

use days::Day;
use days::refusal::{Refusal, result_number};
use longitudes::MeanLongitude;

fn longitude(body: u32, day: u32) -> Result<MeanLongitude, Refusal>
    ensures { result ≡ bridge_longitude body day }
{
    match longitudes::IN_ORDER.get(body as usize) {
        Some(body) => longitudes::mean_longitude(*body, Day::at(day)),
        None => Err(Refusal::NoSuchBody),
    }
}

#[unsafe(no_mangle)]
pub extern "C" fn bridge_longitude_result(body: u32, day: u32) -> u32
    ensures { result ≡ result_number (bridge_longitude body day) }
{
    result_number(longitude(body, day))
}

#[unsafe(no_mangle)]
pub extern "C" fn bridge_longitude_seconds(body: u32, day: u32) -> u32
    ensures { result ≡ part_or_zero (λ found. found.seconds) (bridge_longitude body day) }
{
    longitude(body, day).map_or(0, |found| found.seconds)
}

// What was left over of the exact longitude, and its divisor.
#[unsafe(no_mangle)]
pub extern "C" fn bridge_longitude_remainder(body: u32, day: u32) -> u32
    ensures { result ≡ part_or_zero (λ found. found.remainder) (bridge_longitude body day) }
{
    longitude(body, day).map_or(0, |found| found.remainder)
}

#[unsafe(no_mangle)]
pub extern "C" fn bridge_longitude_divisor(body: u32, day: u32) -> u32
    ensures { result ≡ part_or_zero (λ found. found.divisor) (bridge_longitude body day) }
{
    longitude(body, day).map_or(0, |found| found.divisor)
}
