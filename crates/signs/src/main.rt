// The printers' program: reads a span and prints the days on which the Sun enters a sign, the mean Sun or, with the
// word `true` behind the span, the true one.
#![tactic(auto)]

ghost use Rattle.std.specs.Prelude.{◌≡◌};
ghost use Rattle.output.specs.Output.{AllWritten};
ghost use Rattle.sign_sheet.specs.SignSheets.{listing_lines, sign_lines_for};

use output::{NotWritten, Sheet};
use sign_sheet::{LIST, Listed};
use text::Line;

// The sheet of the entries that were listed.
#[derive(Clone, Copy)]
struct SignSheet<'a> {
    listed: Listed,
    list: &'a [u8; LIST],
}

impl<'a> Sheet for SignSheet<'a> {
    ghost lines = { λ s. listing_lines s.listed.sun s.listed.listing s.list.now };

    fn line_count(&self) -> usize {
        sign_sheet::line_count(self.listed.listing)
    }

    fn line(&self, index: usize) -> Line {
        sign_sheet::line(self.listed.sun, self.listed.listing, self.list, index)
    }
}

// The only way to print. By what it requires the sheet's lines are the input's.
fn print_lines<S: Sheet>(input: &[u8], sheet: &S) -> Result<usize, NotWritten>
    requires { S.lines sheet.now ≡ sign_lines_for input.now }
    ensures { AllWritten (sign_lines_for input.now) result }
{
    output::print_sheet(sheet)
}

fn print_signs(input: &[u8]) -> Result<usize, NotWritten>
    ensures { AllWritten (sign_lines_for input.now) result }
{
    let mut list = [0u8; LIST];
    let listed = sign_sheet::list_entries(input, &mut list);
    print_lines(
        input,
        &SignSheet {
            listed,
            list: &list,
        },
    )
}

fn main(rt: HostRuntime) {
    let mut stdin = rt.stdin();
    let mut buffer = [0u8; text::TOO_LONG];
    let _ = print_signs(input::read_bytes(&mut stdin, &mut buffer));
}
