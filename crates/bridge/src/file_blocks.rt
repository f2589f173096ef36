// An almanac file read block by block.
ghost use Rattle.std.specs.Prelude.{◌≡◌, ◌+◌, ◌*◌};
ghost use Rattle.days.specs.Refusals.{part_or_zero};
ghost use Rattle.entries.specs.Entries.{capacity};
ghost use Rattle.almanac.specs.Reading.{ended, gone_through, reading_result, list_after};

use entries::put_number;

// The refusal times 2^32, and the number of days that is told after the last block; the list as after the whole
// reading.
#[unsafe(no_mangle)]
pub extern "C" fn bridge_almanac_read_blocks(file: &[u8], list: &mut [u8]) -> u64
    ensures value { result ≡ 4294967296 * reading_result file.now (capacity list.old) + part_or_zero (λ reading. reading.count) (ended (gone_through file.now)) }
    ensures list_after { list.new ≡ list_after file.now list.old }
{
    let reading = almanac::go_through(file).ended();
    let days = reading.map_or(0, |reading| reading.count);
    let refusal = put_number(almanac::read(file, list));
    4294967296 * refusal as u64 + days as u64
}
