// The server's program: reads a span and writes its almanac file, block by block.
#![tactic(auto)]

ghost use Rattle.std.specs.Prelude.{◌≡◌, replicate};
ghost use Rattle.almanac.specs.Files.{block_written};

use blocks::BLOCK_BYTES;
use days::refusal::Refusal;
use output::STDOUT_FILENO;
use span_line::Span;

// The only way to write the file. By what it requires the bytes are a block of it.
fn write_next(span: Span, index: u32, block: &[u8]) -> bool
    requires { block.now ≡ block_written span.first span.last index (replicate 512 0) }
{
    io::write_all(STDOUT_FILENO, block)
}

// Stops where a write fails, which is said.
fn print_file(span: Span) -> Result<(), Refusal> {
    let bytes = almanac::bytes_needed(span.first, span.last)?;
    for index in 0..bytes / BLOCK_BYTES as u32 {
        let mut block = [0u8; BLOCK_BYTES];
        almanac::write_block(span.first, span.last, index, &mut block)?;
        if !write_next(span, index, &block) {
            output::say(output::not_written());
            return Ok(());
        }
    }
    Ok(())
}

fn print_almanac(input: &[u8]) {
    if let Err(refusal) = span_line::of_input(input).and_then(print_file) {
        let _ = output::print(text::refusal_line(refusal.number()));
    }
}

fn main(rt: HostRuntime) {
    let mut stdin = rt.stdin();
    let mut buffer = [0u8; text::TOO_LONG];
    print_almanac(input::read_bytes(&mut stdin, &mut buffer));
}
