// The mean longitudes, true places and elements of some days, one day a line: the single calls behind the calls for all
// at once.
// The expected lines were reckoned apart, with exact fractions.
#![tactic(auto)]

use days::Day;
use days::refusal::{Refusal, result_number};
use longitudes::{BODIES, IN_ORDER, MeanLongitude, MeanLongitudes};
use panchanga::Panchanga;

const STDOUT_FILENO: i32 = 1;

const COUNT: usize = 24;

// The first and the last days, both sides of three cycle turns, half tithis 0 and 56 to 59, anomalies at and next to a
// quarter's end, places that pass 0, and a day past the last.
const CASES: [u32; COUNT] = [
    0, 9, 28, 29, 59, 87, 438, 1804, 4015, 4016, 24288, 27520, 33649, 101876, 132868, 200799,
    200800, 238147, 251205, 397583, 397584, 401598, 401599, 401600,
];

// What is printed of a refusal beside its number: all zeros.
const NO_LONGITUDE: MeanLongitude = MeanLongitude {
    seconds: 0,
    remainder: 0,
    divisor: 0,
};

const NO_LONGITUDES: MeanLongitudes = MeanLongitudes {
    longitudes: [0; BODIES],
    thirds: [0; BODIES],
};

const NO_PANCHANGA: Panchanga = Panchanga {
    sun: 0,
    moon: 0,
    tithi: 0,
    nakshatra: 0,
    yoga: 0,
    karana: 0,
};

fn show(number: u32) {
    io::write_all(STDOUT_FILENO, b" ");
    io::print_decimal(STDOUT_FILENO, number as u64);
}

fn show_single(answer: Result<u32, Refusal>) {
    show(result_number(answer));
    io::write_all(STDOUT_FILENO, b":");
    io::print_decimal(STDOUT_FILENO, answer.unwrap_or(0) as u64);
}

fn show_nine(numbers: [u32; BODIES]) {
    for number in numbers {
        show(number);
    }
}

fn show_longitudes(day: Day) {
    let answer = longitudes::mean_longitudes(day);
    show(result_number(answer));
    show_nine(answer.unwrap_or(NO_LONGITUDES).longitudes);
}

fn show_remainder(found: MeanLongitude) {
    show(found.remainder);
    io::write_all(STDOUT_FILENO, b"/");
    io::print_decimal(STDOUT_FILENO, found.divisor as u64);
}

fn show_panchanga(edition: u32, day: Day) {
    let answer = panchanga::of_day(edition, day);
    let all = answer.unwrap_or(NO_PANCHANGA);
    show(result_number(answer));
    show(all.sun);
    show(all.moon);
    show(all.tithi);
    show(all.nakshatra);
    show(all.yoga);
    show(all.karana);
}

fn show_elements(edition: u32, day: Day) {
    show_single(panchanga::true_moon(edition, day));
    show_single(panchanga::tithi(edition, day));
    show_single(panchanga::nakshatra(edition, day));
    show_single(panchanga::yoga(edition, day));
    show_single(panchanga::karana(edition, day));
}

// The second edition, and one of the numbers that are none.
fn show_editions(day: Day) {
    show_panchanga(panchanga::SECOND_EDITION, day);
    show_elements(panchanga::SECOND_EDITION, day);
    show_panchanga(0, day);
    show_elements(3, day);
}

fn show_singles(day: Day) {
    for body in IN_ORDER {
        show_single(longitudes::mean_longitude(body, day).map(|found| found.seconds));
    }
    show_single(panchanga::true_sun(day));
    show_elements(panchanga::FIRST_EDITION, day);
}

fn show_remainders(day: Day) {
    for body in IN_ORDER {
        show_remainder(longitudes::mean_longitude(body, day).unwrap_or(NO_LONGITUDE));
    }
}

fn show_thirds(day: Day) {
    show_nine(
        longitudes::mean_longitudes(day)
            .unwrap_or(NO_LONGITUDES)
            .thirds,
    );
    for body in IN_ORDER {
        show_single(longitudes::mean_thirds(body, day));
    }
}

fn show_day(number: u32) {
    let day = Day::at(number);
    io::print_decimal(STDOUT_FILENO, number as u64);
    show_longitudes(day);
    show_panchanga(panchanga::FIRST_EDITION, day);
    show_singles(day);
    show_remainders(day);
    show_thirds(day);
    show_editions(day);
    io::write_all(STDOUT_FILENO, b"\n");
}

fn main() {
    for number in CASES {
        show_day(number);
    }
}
