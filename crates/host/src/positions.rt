// The numbers of a day, by its number: the weekday, mean longitudes in seconds of arc and the thirds behind them, true
// longitudes, and the panchanga elements; the Moon and what hangs on it are of the first edition. 0 where there is no
// such day.
ghost use Rattle.std.specs.Prelude.{◌≡◌};
ghost use Rattle.days.specs.Days.{weekday_at};
ghost use Rattle.longitudes.specs.Longitudes.{longitude_at, thirds_at};
ghost use Rattle.longitudes.specs.Answers.{body_number};
ghost use Rattle.panchanga.specs.TrueLongitudes.{first_edition};
ghost use Rattle.panchanga.specs.OnDays.{true_sun_at, true_moon_at, tithi_at, nakshatra_at, yoga_at, karana_at};
ghost use Rattle.planets.specs.OnDays.{planet_number, true_planet_at};
ghost use Rattle.host.specs.Calls.{on_number};

use days::Day;
use longitudes::Body;
use panchanga::FIRST_EDITION;
use planets::Planet;

// 0 Monday to 6 Sunday.
#[unsafe(no_mangle)]
pub extern "C" fn graha_day_weekday(day: u32) -> u32
    ensures { result ≡ on_number weekday_at day }
{
    Day::at(day).weekday().unwrap_or(0)
}

fn mean_longitude(body: Body, day: u32) -> u32
    ensures { result ≡ on_number (longitude_at (body_number body)) day }
{
    match longitudes::mean_longitude(body, Day::at(day)) {
        Ok(found) => found.seconds,
        Err(_) => 0,
    }
}

#[unsafe(no_mangle)]
pub extern "C" fn graha_mean_sun(day: u32) -> u32
    ensures { result ≡ on_number (longitude_at 0) day }
{
    mean_longitude(Body::Sun, day)
}

#[unsafe(no_mangle)]
pub extern "C" fn graha_mean_moon(day: u32) -> u32
    ensures { result ≡ on_number (longitude_at 1) day }
{
    mean_longitude(Body::Moon, day)
}

#[unsafe(no_mangle)]
pub extern "C" fn graha_moon_apogee(day: u32) -> u32
    ensures { result ≡ on_number (longitude_at 2) day }
{
    mean_longitude(Body::MoonApogee, day)
}

#[unsafe(no_mangle)]
pub extern "C" fn graha_moon_node(day: u32) -> u32
    ensures { result ≡ on_number (longitude_at 3) day }
{
    mean_longitude(Body::MoonNode, day)
}

#[unsafe(no_mangle)]
pub extern "C" fn graha_mean_mars(day: u32) -> u32
    ensures { result ≡ on_number (longitude_at 4) day }
{
    mean_longitude(Body::Mars, day)
}

#[unsafe(no_mangle)]
pub extern "C" fn graha_mercury_anomaly(day: u32) -> u32
    ensures { result ≡ on_number (longitude_at 5) day }
{
    mean_longitude(Body::MercuryAnomaly, day)
}

#[unsafe(no_mangle)]
pub extern "C" fn graha_mean_jupiter(day: u32) -> u32
    ensures { result ≡ on_number (longitude_at 6) day }
{
    mean_longitude(Body::Jupiter, day)
}

#[unsafe(no_mangle)]
pub extern "C" fn graha_venus_anomaly(day: u32) -> u32
    ensures { result ≡ on_number (longitude_at 7) day }
{
    mean_longitude(Body::VenusAnomaly, day)
}

#[unsafe(no_mangle)]
pub extern "C" fn graha_mean_saturn(day: u32) -> u32
    ensures { result ≡ on_number (longitude_at 8) day }
{
    mean_longitude(Body::Saturn, day)
}

// The sixtieths of a second behind the whole seconds of a mean longitude.
fn mean_thirds(body: Body, day: u32) -> u32
    ensures { result ≡ on_number (thirds_at (body_number body)) day }
{
    longitudes::mean_thirds(body, Day::at(day)).unwrap_or(0)
}

#[unsafe(no_mangle)]
pub extern "C" fn graha_mean_sun_thirds(day: u32) -> u32
    ensures { result ≡ on_number (thirds_at 0) day }
{
    mean_thirds(Body::Sun, day)
}

#[unsafe(no_mangle)]
pub extern "C" fn graha_mean_moon_thirds(day: u32) -> u32
    ensures { result ≡ on_number (thirds_at 1) day }
{
    mean_thirds(Body::Moon, day)
}

#[unsafe(no_mangle)]
pub extern "C" fn graha_moon_apogee_thirds(day: u32) -> u32
    ensures { result ≡ on_number (thirds_at 2) day }
{
    mean_thirds(Body::MoonApogee, day)
}

#[unsafe(no_mangle)]
pub extern "C" fn graha_moon_node_thirds(day: u32) -> u32
    ensures { result ≡ on_number (thirds_at 3) day }
{
    mean_thirds(Body::MoonNode, day)
}

#[unsafe(no_mangle)]
pub extern "C" fn graha_mean_mars_thirds(day: u32) -> u32
    ensures { result ≡ on_number (thirds_at 4) day }
{
    mean_thirds(Body::Mars, day)
}

#[unsafe(no_mangle)]
pub extern "C" fn graha_mercury_anomaly_thirds(day: u32) -> u32
    ensures { result ≡ on_number (thirds_at 5) day }
{
    mean_thirds(Body::MercuryAnomaly, day)
}

#[unsafe(no_mangle)]
pub extern "C" fn graha_mean_jupiter_thirds(day: u32) -> u32
    ensures { result ≡ on_number (thirds_at 6) day }
{
    mean_thirds(Body::Jupiter, day)
}

#[unsafe(no_mangle)]
pub extern "C" fn graha_venus_anomaly_thirds(day: u32) -> u32
    ensures { result ≡ on_number (thirds_at 7) day }
{
    mean_thirds(Body::VenusAnomaly, day)
}

#[unsafe(no_mangle)]
pub extern "C" fn graha_mean_saturn_thirds(day: u32) -> u32
    ensures { result ≡ on_number (thirds_at 8) day }
{
    mean_thirds(Body::Saturn, day)
}

#[unsafe(no_mangle)]
pub extern "C" fn graha_true_sun(day: u32) -> u32
    ensures { result ≡ on_number true_sun_at day }
{
    panchanga::true_sun(Day::at(day)).unwrap_or(0)
}

#[unsafe(no_mangle)]
pub extern "C" fn graha_true_moon(day: u32) -> u32
    ensures { result ≡ on_number (true_moon_at first_edition) day }
{
    panchanga::true_moon(FIRST_EDITION, Day::at(day)).unwrap_or(0)
}

#[unsafe(no_mangle)]
pub extern "C" fn graha_tithi(day: u32) -> u32
    ensures { result ≡ on_number (tithi_at first_edition) day }
{
    panchanga::tithi(FIRST_EDITION, Day::at(day)).unwrap_or(0)
}

#[unsafe(no_mangle)]
pub extern "C" fn graha_nakshatra(day: u32) -> u32
    ensures { result ≡ on_number (nakshatra_at first_edition) day }
{
    panchanga::nakshatra(FIRST_EDITION, Day::at(day)).unwrap_or(0)
}

#[unsafe(no_mangle)]
pub extern "C" fn graha_yoga(day: u32) -> u32
    ensures { result ≡ on_number (yoga_at first_edition) day }
{
    panchanga::yoga(FIRST_EDITION, Day::at(day)).unwrap_or(0)
}

#[unsafe(no_mangle)]
pub extern "C" fn graha_karana(day: u32) -> u32
    ensures { result ≡ on_number (karana_at first_edition) day }
{
    panchanga::karana(FIRST_EDITION, Day::at(day)).unwrap_or(0)
}

fn true_planet(planet: Planet, day: u32) -> u32
    ensures { result ≡ on_number (true_planet_at (planet_number planet)) day }
{
    planets::true_longitude(planet, Day::at(day)).unwrap_or(0)
}

#[unsafe(no_mangle)]
pub extern "C" fn graha_true_mars(day: u32) -> u32
    ensures { result ≡ on_number (true_planet_at 0) day }
{
    true_planet(Planet::Mars, day)
}

#[unsafe(no_mangle)]
pub extern "C" fn graha_true_mercury(day: u32) -> u32
    ensures { result ≡ on_number (true_planet_at 1) day }
{
    true_planet(Planet::Mercury, day)
}

#[unsafe(no_mangle)]
pub extern "C" fn graha_true_jupiter(day: u32) -> u32
    ensures { result ≡ on_number (true_planet_at 2) day }
{
    true_planet(Planet::Jupiter, day)
}

#[unsafe(no_mangle)]
pub extern "C" fn graha_true_venus(day: u32) -> u32
    ensures { result ≡ on_number (true_planet_at 3) day }
{
    true_planet(Planet::Venus, day)
}

#[unsafe(no_mangle)]
pub extern "C" fn graha_true_saturn(day: u32) -> u32
    ensures { result ≡ on_number (true_planet_at 4) day }
{
    true_planet(Planet::Saturn, day)
}
