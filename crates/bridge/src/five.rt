// The five planets of a day as they are handed back together, each place by a call of its own.
ghost use Rattle.std.specs.Prelude.{◌≡◌, get_or};
ghost use Rattle.days.specs.Days.{pair_at};
ghost use Rattle.days.specs.Refusals.{result_number, part_or_zero};
ghost use Rattle.planets.specs.OnDays.{true_planets_of};

use days::Day;
use days::refusal::{Refusal, result_number};
use planets::PLANETS;

fn five(day: u32) -> Result<[u32; PLANETS], Refusal>
    ensures { result ≡ true_planets_of (pair_at day) }
{
    planets::true_longitudes(Day::at(day))
}

// That the pair is a day tells it: no place is reckoned.
#[unsafe(no_mangle)]
#[tactic(auto, unfolding(days::specs::Days::answer_on, days::specs::Refusals::result_number))]
pub extern "C" fn bridge_planets_result(day: u32) -> u32
    ensures { result ≡ result_number (true_planets_of (pair_at day)) }
{
    result_number(Day::at(day).number())
}

// The place of a planet by its number, 0 Mars to 4 Saturn; from 5 on 0.
#[unsafe(no_mangle)]
pub extern "C" fn bridge_planets_place(day: u32, planet: u32) -> u32
    ensures { result ≡ part_or_zero (λ places. get_or places planet 0) (true_planets_of (pair_at day)) }
{
    match five(day) {
        Ok(places) => places.get(planet as usize).copied().unwrap_or(0),
        Err(_) => 0,
    }
}
