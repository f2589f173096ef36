// The host's calls for almanac files: written, block by block too, and read.
ghost use Rattle.std.specs.Prelude.{◌≡◌, length};
ghost use Rattle.std.specs.Result.{result_unwrap_or};
ghost use Rattle.days.specs.Refusals.{result_number, part_or_zero};
ghost use Rattle.entries.specs.Entries.{capacity};
ghost use Rattle.almanac.specs.Files.{bytes_needed, writing_result, file_after, block_result, block_written};
ghost use Rattle.almanac.specs.Reading.{reading_of, reading_result, list_after};

use days::refusal::result_number;
use entries::put_number;

// How many bytes the file of a span has.
#[unsafe(no_mangle)]
pub extern "C" fn graha_almanac_bytes(first: u32, last: u32) -> u32
    ensures { result ≡ result_unwrap_or (bytes_needed first last) 0 }
{
    almanac::bytes_needed(first, last).unwrap_or(0)
}

// The refusal, or 0 with the file written.
#[unsafe(no_mangle)]
pub extern "C" fn graha_almanac_write(first: u32, last: u32, file: &mut [u8]) -> u32
    ensures value { result ≡ writing_result first last (length file.old) }
    ensures file_after { file.new ≡ file_after first last file.old }
{
    put_number(almanac::write(first, last, file))
}

// The refusal, or 0 with one block of the file written.
#[unsafe(no_mangle)]
pub extern "C" fn graha_almanac_block(first: u32, last: u32, index: u32, block: &mut [u8]) -> u32
    ensures value { result ≡ result_number (block_result first last index (length block.old)) }
    ensures block_after { block.new ≡ block_written first last index block.old }
{
    result_number(almanac::write_block(first, last, index, block))
}

// The refusal, or 0 with the file's days written to the list: four bytes a day, low byte first.
#[unsafe(no_mangle)]
pub extern "C" fn graha_almanac_read(file: &[u8], list: &mut [u8]) -> u32
    ensures value { result ≡ reading_result file.now (capacity list.old) }
    ensures list_after { list.new ≡ list_after file.now list.old }
{
    put_number(almanac::read(file, list))
}

// How many days a file has that is read, whether or not they fit in a list.
#[unsafe(no_mangle)]
pub extern "C" fn graha_almanac_days(file: &[u8]) -> u32
    ensures { result ≡ part_or_zero (λ reading. reading.count) (reading_of file.now) }
{
    almanac::days_of(file).map_or(0, |reading| reading.count)
}
