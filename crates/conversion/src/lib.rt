// Lines of dates to lines of days, and lines of days to lines of dates, up to 4,096 of them: what the two programs
// print and say.
#![tactic(auto)]

ghost use Rattle.std.specs.Prelude.{◌≡◌, length};
ghost use Rattle.days.specs.Refusals.{refusal_number};
ghost use Rattle.text.specs.Lines.{with_bytes, Holds, refusal_line};
ghost use Rattle.date_lines.specs.Texts.{with_front};
ghost use Rattle.conversion.specs.Conversion.{other_kind, printed, told, form_text, fault_text, fault_line};

use date_lines::{Kind, NotConverted};
use days::refusal::{self, Refusal};
use output::STDOUT_FILENO;
use std::io::Stdin;
use text::Line;

const MOST_LINES: usize = 4096;

const LIST: usize = entries::ENTRY_BYTES * MOST_LINES;

// No line has more bytes than a date.
const OUTPUT: usize = date_lines::DATE_BYTES * MOST_LINES;

// A byte more than any text that is accepted has. What fills it, and so a read that failed, is refused.
const INPUT: usize = OUTPUT + 1;

fn other(kind: Kind) -> Kind
    ensures { result ≡ other_kind kind }
{
    match kind {
        Kind::Dates => Kind::Days,
        Kind::Days => Kind::Dates,
    }
}

// How many bytes are printed, and how many lines are read, or why they are refused.
#[derive(Clone, Copy)]
pub struct Printed {
    pub length: usize,
    pub read: Result<usize, NotConverted>,
}

fn put_refusal(refusal: Refusal, output: &mut [u8; OUTPUT]) -> usize
    ensures value { result ≡ length (refusal_line (refusal_number refusal)) }
    ensures output_after { output.new ≡ with_front (refusal_line (refusal_number refusal)) output.old }
{
    let line = text::refusal_line(refusal.number());
    let bytes = line.bytes;
    let len = line.len;
    entries::copy(&bytes[..len], output)
}

// What is printed for an input, at the front of the output.
pub fn convert(kind: Kind, input: &[u8], output: &mut [u8; OUTPUT]) -> Printed
    ensures value { result ≡ told kind input.now }
    ensures output_after { output.new ≡ with_front (printed kind input.now) output.old }
{
    let mut list = [0u8; LIST];
    match date_lines::lines_to_list(kind, input, MOST_LINES, &mut list) {
        Ok(lines) => {
            let end = entries::ENTRY_BYTES * lines;
            let length = date_lines::list_to_lines(other(kind), &list[..end], output).unwrap();
            Printed {
                length,
                read: Ok(lines),
            }
        }
        Err(fault) => {
            let length = put_refusal(fault.refusal(), output);
            Printed {
                length,
                read: Err(fault),
            }
        }
    }
}

fn with_form(line: Line, kind: Kind) -> Line
    ensures { result ≡ with_bytes line (form_text kind) }
{
    match kind {
        Kind::Dates => line.text(b"no date as YYYY-MM-DD with its newline\n"),
        Kind::Days => line.text(b"no day of 1 to 6 digits with its newline\n"),
    }
}

fn with_fault(line: Line, kind: Kind, refusal: u32) -> Line
    ensures { result ≡ with_bytes line (fault_text kind refusal) }
{
    match refusal {
        refusal::BAD_LINE => with_form(line, kind),
        refusal::LIST_TOO_SHORT => line.text(b"more than 4096 lines\n"),
        _ => messages::with_refusal(line, refusal),
    }
}

// Which line is at fault, and why.
pub fn fault_line(kind: Kind, refusal: u32, line: usize) -> Line
    ensures { Holds result (fault_line kind refusal line) }
{
    let place = Line::empty()
        .text(b"line ")
        .wide_number(line as u64)
        .text(b": ");
    with_fault(place, kind, refusal)
}

// The only way to write to standard output here. By what it requires these are the bytes that are printed.
fn write_printed(kind: Kind, input: &[u8], bytes: &[u8]) -> bool
    requires { bytes.now ≡ printed kind input.now }
{
    io::write_all(STDOUT_FILENO, bytes)
}

fn convert_and_print(kind: Kind, input: &[u8]) {
    let mut output = [0u8; OUTPUT];
    let done = convert(kind, input, &mut output);
    let length = done.length;
    if !write_printed(kind, input, &output[..length]) {
        output::say(output::not_written());
    }
    if let Err(fault) = done.read {
        output::say(fault_line(kind, fault.refusal().number(), fault.line()));
    }
}

// A program: reads lines of a kind from standard input and prints them as lines of the other.
pub fn run(kind: Kind, stdin: &mut Stdin) {
    let mut input = [0u8; INPUT];
    let n = input::read_input(stdin, &mut input);
    convert_and_print(kind, &input[..n]);
}
