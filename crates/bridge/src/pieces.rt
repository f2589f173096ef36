// The catalogue's lines and heading as C calls: each number of an answer has a call of its own, and each call fills the
// buffer.
ghost use Rattle.std.specs.Prelude.{◌≡◌};
ghost use lib.ListN.{length};
ghost use Rattle.names.specs.declared.Print.TheVariants.{Numbers};
ghost use Rattle.catalogue.specs.Pieces.{piece_number, piece_bytes, piece_next, lines_piece, lines_after, heading_piece, heading_after, of_edition, left_in_edition};

use catalogue::Piece;
use entries::NotPut;

// The refusal's number, or 0.
fn number(answer: Result<Piece, NotPut>) -> u32
    ensures { result ≡ piece_number answer }
{
    match answer {
        Ok(_) => 0,
        Err(refused) => refused.refusal().number(),
    }
}

// The bytes that were put, or with 7 those that would do.
fn bytes(answer: Result<Piece, NotPut>) -> usize
    ensures { result ≡ piece_bytes answer }
{
    match answer {
        Ok(piece) => piece.bytes,
        Err(NotPut::TooShort(bytes)) => bytes as usize,
        Err(_) => 0,
    }
}

fn next(answer: Result<Piece, NotPut>) -> usize
    ensures { result ≡ piece_next answer }
{
    answer.map_or(0, |piece| piece.next)
}

#[unsafe(no_mangle)]
pub extern "C" fn bridge_lines_result(
    edition: u32,
    list: &[u8],
    from: u32,
    buffer: &mut [u8],
) -> u32
    ensures value { result ≡ piece_number (of_edition edition (lines_piece Numbers edition list.now from (length buffer.old))) }
    ensures buffer_after { buffer.new ≡ left_in_edition edition buffer.old (lines_after Numbers edition list.now from buffer.old) }
{
    number(catalogue::lines(edition, list, from as usize, buffer))
}

#[unsafe(no_mangle)]
pub extern "C" fn bridge_lines_bytes(
    edition: u32,
    list: &[u8],
    from: u32,
    buffer: &mut [u8],
) -> usize
    ensures value { result ≡ piece_bytes (of_edition edition (lines_piece Numbers edition list.now from (length buffer.old))) }
    ensures buffer_after { buffer.new ≡ left_in_edition edition buffer.old (lines_after Numbers edition list.now from buffer.old) }
{
    bytes(catalogue::lines(edition, list, from as usize, buffer))
}

#[unsafe(no_mangle)]
pub extern "C" fn bridge_lines_next(
    edition: u32,
    list: &[u8],
    from: u32,
    buffer: &mut [u8],
) -> usize
    ensures value { result ≡ piece_next (of_edition edition (lines_piece Numbers edition list.now from (length buffer.old))) }
    ensures buffer_after { buffer.new ≡ left_in_edition edition buffer.old (lines_after Numbers edition list.now from buffer.old) }
{
    next(catalogue::lines(edition, list, from as usize, buffer))
}

#[unsafe(no_mangle)]
pub extern "C" fn bridge_heading_result(
    edition: u32,
    length: u32,
    examined: u32,
    buffer: &mut [u8],
) -> u32
    ensures value { result ≡ piece_number (of_edition edition (heading_piece Numbers edition length examined (lib.ListN.length buffer.old))) }
    ensures buffer_after { buffer.new ≡ left_in_edition edition buffer.old (heading_after Numbers edition length examined buffer.old) }
{
    number(catalogue::heading(edition, length, examined, buffer))
}

#[unsafe(no_mangle)]
pub extern "C" fn bridge_heading_bytes(
    edition: u32,
    length: u32,
    examined: u32,
    buffer: &mut [u8],
) -> usize
    ensures value { result ≡ piece_bytes (of_edition edition (heading_piece Numbers edition length examined (lib.ListN.length buffer.old))) }
    ensures buffer_after { buffer.new ≡ left_in_edition edition buffer.old (heading_after Numbers edition length examined buffer.old) }
{
    bytes(catalogue::heading(edition, length, examined, buffer))
}
