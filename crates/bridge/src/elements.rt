// The true Sun and Moon and the elements of a day in an edition as C calls: all together, each number by a call of its
// own, and those that the library hands back one by one.
ghost use Rattle.std.specs.Prelude.{◌≡◌};
ghost use Rattle.std.specs.Result.{result_unwrap_or};
ghost use Rattle.days.specs.Days.{pair_at};
ghost use Rattle.days.specs.Refusals.{result_number, part_or_zero};
ghost use Rattle.panchanga.specs.OnDays.{true_moon_of, panchanga_of};
ghost use Rattle.bridge.specs.Elements.{element_from};

use days::Day;
use days::refusal::{Refusal, result_number};
use panchanga::Panchanga;

fn elements(edition: u32, day: u32) -> Result<Panchanga, Refusal>
    ensures { result ≡ panchanga_of edition (pair_at day) }
{
    panchanga::of_day(edition, Day::at(day))
}

#[unsafe(no_mangle)]
pub extern "C" fn bridge_elements_result(edition: u32, day: u32) -> u32
    ensures { result ≡ result_number (panchanga_of edition (pair_at day)) }
{
    result_number(elements(edition, day))
}

#[unsafe(no_mangle)]
pub extern "C" fn bridge_elements_sun(edition: u32, day: u32) -> u32
    ensures { result ≡ part_or_zero (λ found. found.sun) (panchanga_of edition (pair_at day)) }
{
    elements(edition, day).map_or(0, |found| found.sun)
}

#[unsafe(no_mangle)]
pub extern "C" fn bridge_elements_moon(edition: u32, day: u32) -> u32
    ensures { result ≡ part_or_zero (λ found. found.moon) (panchanga_of edition (pair_at day)) }
{
    elements(edition, day).map_or(0, |found| found.moon)
}

#[unsafe(no_mangle)]
pub extern "C" fn bridge_elements_tithi(edition: u32, day: u32) -> u32
    ensures { result ≡ part_or_zero (λ found. found.tithi) (panchanga_of edition (pair_at day)) }
{
    elements(edition, day).map_or(0, |found| found.tithi)
}

#[unsafe(no_mangle)]
pub extern "C" fn bridge_elements_nakshatra(edition: u32, day: u32) -> u32
    ensures { result ≡ part_or_zero (λ found. found.nakshatra) (panchanga_of edition (pair_at day)) }
{
    elements(edition, day).map_or(0, |found| found.nakshatra)
}

#[unsafe(no_mangle)]
pub extern "C" fn bridge_elements_yoga(edition: u32, day: u32) -> u32
    ensures { result ≡ part_or_zero (λ found. found.yoga) (panchanga_of edition (pair_at day)) }
{
    elements(edition, day).map_or(0, |found| found.yoga)
}

#[unsafe(no_mangle)]
pub extern "C" fn bridge_elements_karana(edition: u32, day: u32) -> u32
    ensures { result ≡ part_or_zero (λ found. found.karana) (panchanga_of edition (pair_at day)) }
{
    elements(edition, day).map_or(0, |found| found.karana)
}

fn moon(edition: u32, day: u32) -> Result<u32, Refusal>
    ensures { result ≡ true_moon_of edition (pair_at day) }
{
    panchanga::true_moon(edition, Day::at(day))
}

#[unsafe(no_mangle)]
pub extern "C" fn bridge_moon_result(edition: u32, day: u32) -> u32
    ensures { result ≡ result_number (true_moon_of edition (pair_at day)) }
{
    result_number(moon(edition, day))
}

#[unsafe(no_mangle)]
pub extern "C" fn bridge_moon_number(edition: u32, day: u32) -> u32
    ensures { result ≡ result_unwrap_or (true_moon_of edition (pair_at day)) 0 }
{
    moon(edition, day).unwrap_or(0)
}

// The tithi for 0, the nakshatra for 1, the yoga for 2, the karana for 3; others are refused as a body above 8 is.
fn element(which: u32, edition: u32, day: u32) -> Result<u32, Refusal>
    ensures { result ≡ element_from which edition (pair_at day) }
{
    let pair = Day::at(day);
    match which {
        0 => panchanga::tithi(edition, pair),
        1 => panchanga::nakshatra(edition, pair),
        2 => panchanga::yoga(edition, pair),
        3 => panchanga::karana(edition, pair),
        _ => Err(Refusal::NoSuchBody),
    }
}

#[unsafe(no_mangle)]
pub extern "C" fn bridge_element_result(which: u32, edition: u32, day: u32) -> u32
    ensures { result ≡ result_number (element_from which edition (pair_at day)) }
{
    result_number(element(which, edition, day))
}

#[unsafe(no_mangle)]
pub extern "C" fn bridge_element_number(which: u32, edition: u32, day: u32) -> u32
    ensures { result ≡ result_unwrap_or (element_from which edition (pair_at day)) 0 }
{
    element(which, edition, day).unwrap_or(0)
}
