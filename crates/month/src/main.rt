// The almanac desk's program: reads a first day and prints thirty days' records.
#![tactic(auto)]

ghost use Rattle.std.specs.Prelude.{◌≡◌};
ghost use Rattle.output.specs.Output.{AllWritten};
ghost use Rattle.month_sheet.specs.MonthSheets.{month_lines, month_lines_for};

use days::refusal::Refusal;
use output::{NotWritten, Sheet};
use records::{DayRecord, MONTH};
use text::Line;

// The sheet of the month that was read.
#[derive(Clone, Copy)]
struct MonthSheet {
    month: Result<[DayRecord; MONTH], Refusal>,
}

impl Sheet for MonthSheet {
    ghost lines = { λ s. month_lines s.month };

    fn line_count(&self) -> usize {
        month_sheet::line_count(self.month)
    }

    fn line(&self, index: usize) -> Line {
        month_sheet::line(self.month, index)
    }
}

// The only way to print. By what it requires the sheet's lines are the input's.
fn print_lines<S: Sheet>(input: &[u8], sheet: &S) -> Result<usize, NotWritten>
    requires { S.lines sheet.now ≡ month_lines_for input.now }
    ensures { AllWritten (month_lines_for input.now) result }
{
    output::print_sheet(sheet)
}

fn print_month(input: &[u8]) -> Result<usize, NotWritten>
    ensures { AllWritten (month_lines_for input.now) result }
{
    let month = month_sheet::read_month(input);
    print_lines(input, &MonthSheet { month })
}

// A good input has at most seven bytes: the eighth shows a longer one.
fn main(rt: HostRuntime) {
    let mut stdin = rt.stdin();
    let mut buffer = [0u8; 8];
    let _ = print_month(input::read_bytes(&mut stdin, &mut buffer));
}
