// Reads a span of days and prints how far the mean Sun, Moon and Moon's apogee are from the older books' over it.
#![tactic(auto)]

ghost use Rattle.std.specs.Prelude.{◌≡◌};
ghost use Rattle.output.specs.Output.{AllWritten};
ghost use Rattle.drift_sheet.specs.DriftSheets.{drift_lines, drift_lines_for};

use days::refusal::Refusal;
use older_motions::Drifts;
use output::{NotWritten, Sheet};
use text::Line;

// The sheet of what was read.
#[derive(Clone, Copy)]
struct DriftSheet {
    drifts: Result<Drifts, Refusal>,
}

impl Sheet for DriftSheet {
    ghost lines = { λ s. drift_lines s.drifts };

    fn line_count(&self) -> usize {
        drift_sheet::line_count(self.drifts)
    }

    fn line(&self, index: usize) -> Line {
        drift_sheet::line(self.drifts, index)
    }
}

// The only way to print. By what it requires the sheet's lines are the input's.
fn print_lines<S: Sheet>(input: &[u8], sheet: &S) -> Result<usize, NotWritten>
    requires { S.lines sheet.now ≡ drift_lines_for input.now }
    ensures { AllWritten (drift_lines_for input.now) result }
{
    output::print_sheet(sheet)
}

fn print_drifts(input: &[u8]) -> Result<usize, NotWritten>
    ensures { AllWritten (drift_lines_for input.now) result }
{
    let drifts = drift_sheet::read_drifts(input);
    print_lines(input, &DriftSheet { drifts })
}

fn main(rt: HostRuntime) {
    let mut stdin = rt.stdin();
    let mut buffer = [0u8; text::TOO_LONG];
    let _ = print_drifts(input::read_bytes(&mut stdin, &mut buffer));
}
