// Standard input, read whole or piece by piece.
#![tactic(auto)]

ghost use Rattle.std.specs.Prelude.{◌≤◌, length, MatchResult};
ghost use Rattle.io.specs.Counts.{IsPrefixLen};

use std::io::{Read, Stdin};

// A read that failed before the buffer was full or the input at its end, and how many bytes the buffer has by then.
#[derive(Clone, Copy)]
pub struct ReadFailed {
    pub bytes: usize,
}

// Reads until the buffer is full or the input ends, and hands back how many bytes the buffer has.
pub fn read_piece(stdin: &mut Stdin, buffer: &mut [u8]) -> Result<usize, ReadFailed>
    ensures { MatchResult result (λ bytes. IsPrefixLen bytes buffer.new) (λ failed. IsPrefixLen failed.bytes buffer.new) }
{
    let mut n = 0;
    while n < buffer.len() {
        match stdin.read(&mut buffer[n..]) {
            Ok(0) => return Ok(n),
            Ok(more) => n += more,
            Err(_) => return Err(ReadFailed { bytes: n }),
        }
    }
    Ok(n)
}

// Reads until the buffer is full or the input ends, and hands back how many bytes it has. A read that fails counts as a
// full buffer, so that no broken input passes for a whole one.
pub fn read_input(stdin: &mut Stdin, buffer: &mut [u8]) -> usize
    ensures { IsPrefixLen result buffer.new }
{
    read_piece(stdin, buffer).unwrap_or(buffer.len())
}

// The same, and hands back these bytes.
pub fn read_bytes<'a, const N: usize>(stdin: &mut Stdin, buffer: &'a mut [u8; N]) -> &'a [u8]
    ensures { length result.now ≤ N }
{
    let n = read_input(stdin, buffer);
    &buffer[..n]
}
