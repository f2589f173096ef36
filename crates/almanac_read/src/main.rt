// Reads an almanac file from standard input, of any length, and prints its days as a month's sheet has them.
#![tactic(auto)]

ghost use Rattle.std.specs.Prelude.{◌≡◌};
ghost use Rattle.output.specs.Output.{AllWritten};
ghost use Rattle.almanac_sheet.specs.AlmanacSheets.{reading_lines};

use almanac::{Reader, Reading};
use blocks::BLOCK_BYTES;
use days::refusal::Refusal;
use output::{NotWritten, Sheet};
use std::io::Stdin;
use text::Line;

// More blocks than any count demands.
const MOST_BLOCKS: u32 = 477218590;

// Takes the blocks one by one, until the input ends or its length cannot be right any more. A read that fails is a
// piece that is no block.
fn read_blocks(stdin: &mut Stdin) -> Reader {
    let mut reader = Reader::start();
    let mut buffer = [0u8; BLOCK_BYTES];
    for seen in 0..MOST_BLOCKS {
        let Ok(bytes) = input::read_piece(stdin, &mut buffer) else {
            return reader.next(&[]);
        };
        if bytes == 0 {
            return reader;
        }
        reader = reader.next(&buffer[..bytes]);
        if reader.broken {
            return reader;
        }
    }
    reader
}

// The sheet of what was read.
#[derive(Clone, Copy)]
struct ReadingSheet {
    reading: Result<Reading, Refusal>,
}

impl Sheet for ReadingSheet {
    ghost lines = { λ s. reading_lines s.reading };

    fn line_count(&self) -> usize {
        almanac_sheet::line_count(self.reading)
    }

    fn line(&self, index: usize) -> Line {
        almanac_sheet::line(self.reading, index)
    }
}

// The only way to print. By what it requires the sheet's lines are the reading's.
fn print_lines<S: Sheet>(reading: Result<Reading, Refusal>, sheet: &S) -> Result<usize, NotWritten>
    requires { S.lines sheet.now ≡ reading_lines reading }
    ensures { AllWritten (reading_lines reading) result }
{
    output::print_sheet(sheet)
}

fn print_reading(reading: Result<Reading, Refusal>) -> Result<usize, NotWritten>
    ensures { AllWritten (reading_lines reading) result }
{
    print_lines(reading, &ReadingSheet { reading })
}

// Nothing is printed before the last block is seen.
fn main(rt: HostRuntime) {
    let mut stdin = rt.stdin();
    let reader = read_blocks(&mut stdin);
    let reading = reader.ended();
    let written = print_reading(reading);
    if let (Ok(_), Err(refusal)) = (written, reading) {
        output::say(almanac_sheet::fault(reader.fault_at(), refusal.number()));
    }
}
