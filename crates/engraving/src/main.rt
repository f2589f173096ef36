// The engravers' program: reads a day and prints its plate.
#![tactic(auto)]

ghost use Rattle.std.specs.Prelude.{◌≡◌};
ghost use Rattle.output.specs.Output.{AllWritten};
ghost use Rattle.plate.specs.Plates.{plate_lines};

use output::{NotWritten, Sheet};
use text::Line;

// The plate of an input.
#[derive(Clone, Copy)]
struct Plate<'a> {
    input: &'a [u8],
}

impl<'a> Sheet for Plate<'a> {
    ghost lines = { λ s. plate_lines s.input.now };

    fn line_count(&self) -> usize {
        plate::line_count(self.input)
    }

    fn line(&self, index: usize) -> Line {
        plate::line(self.input, index)
    }
}

// The only way to print. By what it requires the sheet's lines are the input's.
fn print_lines<S: Sheet>(input: &[u8], sheet: &S) -> Result<usize, NotWritten>
    requires { S.lines sheet.now ≡ plate_lines input.now }
    ensures { AllWritten (plate_lines input.now) result }
{
    output::print_sheet(sheet)
}

fn print_plate(input: &[u8]) -> Result<usize, NotWritten>
    ensures { AllWritten (plate_lines input.now) result }
{
    print_lines(input, &Plate { input })
}

// A good input has at most seven bytes: the eighth shows a longer one.
fn main(rt: HostRuntime) {
    let mut stdin = rt.stdin();
    let mut buffer = [0u8; 8];
    let _ = print_plate(input::read_bytes(&mut stdin, &mut buffer));
}
