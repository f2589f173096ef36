// Lines written to standard output and to standard error, and the lines of a sheet, many at once.
#![tactic(auto)]

ghost use Rattle.std.specs.Prelude.{◌≡◌, ℕ, List, length, is_ok};
ghost use Rattle.text.specs.Lines.{contents, Holds};
ghost use Rattle.text.specs.Sheets.{line_at, Between};
ghost use Rattle.output.specs.Output.{not_written, AllWritten};

use text::{Line, PIECE};

pub const STDOUT_FILENO: i32 = 1;

const STDERR_FILENO: i32 = 2;

// A write to standard output that failed, which is said on standard error.
#[derive(Clone, Copy)]
pub struct NotWritten;

// What is printed line by line: how many lines, and each of them by its place.
pub trait Sheet {
    ghost lines: { Self → List (List ℕ) };

    fn line_count(&self) -> usize
        ensures { result ≡ length (lines self.now) };

    fn line(&self, index: usize) -> Line
        ensures { Holds result (line_at (lines self.now) index) };
}

// The only way to write a line. By what it requires the bytes are the line's contents.
fn write_contents(fd: i32, line: Line, bytes: &[u8]) -> bool
    requires { bytes.now ≡ contents line }
{
    io::write_all(fd, bytes)
}

// Whether all of it was written.
fn write(fd: i32, line: Line) -> bool {
    let len = line.len.min(Line::CAPACITY);
    write_contents(fd, line, &line.bytes[..len])
}

pub fn not_written() -> Line
    ensures { Holds result not_written }
{
    Line::empty().text(b"not all could be written\n")
}

// To standard error, where nothing can be done about a write that fails.
pub fn say(line: Line) {
    write(STDERR_FILENO, line);
}

// The same for bytes of many lines.
pub fn say_bytes(bytes: &[u8]) {
    io::write_all(STDERR_FILENO, bytes);
}

// Says of a write to standard output that it failed.
fn said(whole: bool) -> Result<(), NotWritten>
    ensures { is_ok result ≡ whole }
{
    if whole {
        Ok(())
    } else {
        say(not_written());
        Err(NotWritten)
    }
}

// To standard output; a write that fails is said.
pub fn print(line: Line) -> Result<(), NotWritten> {
    said(write(STDOUT_FILENO, line))
}

// The same for bytes of many lines.
pub fn print_bytes(bytes: &[u8]) -> Result<(), NotWritten> {
    said(io::write_all(STDOUT_FILENO, bytes))
}

// The only way to print a part of a sheet. By what it requires the bytes are the sheet's from one line to before
// another.
fn print_between<S: Sheet>(
    sheet: &S,
    from: usize,
    to: usize,
    bytes: &[u8],
) -> Result<(), NotWritten>
    requires { Between (S.lines sheet.now) from to bytes.now }
{
    print_bytes(bytes)
}

// As many lines as fit whole are put into the buffer and printed at once. Hands back how many lines were printed.
pub fn print_sheet<S: Sheet>(sheet: &S) -> Result<usize, NotWritten>
    ensures { AllWritten (S.lines sheet.now) result }
{
    let lines = sheet.line_count();
    let mut buffer = [0u8; PIECE];
    let mut from: usize = 0;
    let mut bytes: usize = 0;
    for index in 0..lines {
        let line = sheet.line(index);
        let len = line.len;
        if PIECE - bytes < len {
            print_between(sheet, from, index, &buffer[..bytes])?;
            from = index;
            bytes = 0;
        }
        line.put(&mut buffer, bytes);
        bytes += len;
    }
    print_between(sheet, from, lines, &buffer[..bytes])?;
    Ok(lines)
}
