// Numbers printed, lines read as numbers and a line that is too long: the output is held to the file stdout.
#![tactic(auto)]

use days::refusal;
use text::Line;

const STDOUT_FILENO: i32 = 1;

fn write(line: Line) {
    if let Some(shown) = line.bytes.get(..line.len) {
        io::write_all(STDOUT_FILENO, shown);
    }
}

fn print_number(n: u32) {
    write(Line::empty().text(b"printed ").number(n).byte(b'\n'));
}

// The numbers where the count of digits turns, and the greatest.
fn print_numbers() {
    let mut power: u32 = 1;
    while power <= 100000000 {
        print_number(power - 1);
        print_number(power);
        power = 10 * power;
    }
    print_number(999999999);
    print_number(1000000000);
    print_number(4294967295);
}

fn print_reading(line: &[u8]) {
    let read = text::read_decimal(line);
    let shown = Line::empty()
        .byte(b'[')
        .text(line)
        .text(b"] refusal ")
        .number(refusal::result_number(read));
    write(
        shown
            .text(b" number ")
            .number(read.unwrap_or(0))
            .byte(b'\n'),
    );
}

fn print_readings(input: &[u8]) {
    for line in input.split_inclusive(|&b| b == b'\n') {
        print_reading(line.strip_suffix(b"\n").unwrap_or(line));
    }
}

// 152 bytes, and then of ten digits the eight that fit.
fn print_full_line() {
    let half = b"----------------------------------------------------------------------------";
    write(
        Line::empty()
            .text(half)
            .text(half)
            .number(1234567890)
            .byte(b'\n'),
    );
    write(Line::empty().byte(b'\n'));
}

fn main() {
    print_numbers();
    let mut input = io::buffer();
    let n = io::read_full(0, &mut input);
    print_readings(&input[..n]);
    print_full_line();
}
