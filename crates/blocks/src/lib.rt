// A block of an almanac file, paper 02's: 512 bytes with up to nine days, a block's number among the blocks, the days
// of the whole file, and a checksum.
#![tactic(auto)]

ghost use Rattle.std.specs.Prelude.{◌≡◌, ◌+◌, ◌-◌, ◌*◌, ◌≤◌, ◌<◌, length, take, drop, replicate};
ghost use Rattle.days.specs.Days.{last_day, days_from};
ghost use Rattle.entries.specs.Entries.{entry_day, with_entries_from};
ghost use Rattle.blocks.specs.Blocks.{days_in, checksum, day_numbers, has_numbers, all_zero, days_hold, block_refusal, block_after};
ghost use Rattle.blocks.specs.Parts.{numbers_of};

use days::Day;
use days::refusal::Refusal;

pub const BLOCK_BYTES: usize = 512;

// The days that a block has places for.
pub const BLOCK_DAYS: u32 = 9;

// The bytes that the checksum is taken over; it stands behind them.
const SUMMED: usize = 508;

// What a block has four bytes for, counted from 0: its index, the file's days, from the third on thirteen for each day,
// and at the end the checksum.
const INDEX: usize = 0;

const COUNT: usize = 1;

const DAYS: usize = 2;

const DAY_NUMBERS: usize = 13;

const CHECKSUM: usize = 127;

// How many days stand in a block of a file with so many.
fn days_in(count: u32, index: u32) -> u32
    ensures { (result ≡ days_in count index) × (result ≤ 9) }
{
    let before = BLOCK_DAYS as u64 * index as u64;
    let all = count as u64;
    if all <= before {
        return 0;
    }
    let left = all - before;
    if left < BLOCK_DAYS as u64 {
        return left as u32;
    }
    BLOCK_DAYS
}

// A day's bytes as numbers of four, low byte first: the last is made of the four elements, a byte each.
fn day_numbers(day: u32) -> [u32; DAY_NUMBERS]
    requires { day ≤ last_day }
    ensures { result ≡ day_numbers day }
{
    let filled = records::record_of(panchanga::FIRST_EDITION, day).unwrap();
    let means = filled.longitudes;
    let low = filled.tithi + 256 * filled.nakshatra;
    let high = filled.yoga + 256 * filled.karana;
    [
        filled.day,
        means[0],
        means[1],
        means[2],
        means[3],
        means[4],
        means[5],
        means[6],
        means[7],
        means[8],
        filled.sun,
        filled.moon,
        low + 65536 * high,
    ]
}

fn put_numbers(block: &mut [u8], from: usize, numbers: [u32; DAY_NUMBERS])
    requires { (from ≤ 106) × (length numbers ≡ 13) }
    ensures { block.new ≡ with_entries_from block.old from numbers }
{
    for (i, number) in numbers.iter().enumerate() {
        entries::put_entry(block, from + i, *number);
    }
}

fn put_days(block: &mut [u8], day: u32, days: u32)
    requires { (day + days ≤ 401600) × (days ≤ 9) }
    ensures { block.new ≡ with_entries_from block.old 2 (numbers_of (days_from day days)) }
{
    for place in 0..days {
        let numbers = day_numbers(day + place);
        put_numbers(block, DAYS + DAY_NUMBERS * place as usize, numbers);
    }
}

// Zeros from a number of the block to its checksum.
fn put_zeros(block: &mut [u8], from: usize)
    requires { from ≤ 127 }
    ensures { block.new ≡ with_entries_from block.old from (replicate (127 - from) 0) }
{
    for i in from..CHECKSUM {
        entries::put_entry(block, i, 0);
    }
}

// Each byte times its position from 1.
fn sum_of(block: &[u8]) -> u32
    requires { 508 ≤ length block.now }
    ensures { result ≡ checksum (take 508 block.now) }
{
    let mut sum: u32 = 0;
    for (i, byte) in block[..SUMMED].iter().enumerate() {
        let position = i as u32 + 1;
        sum += u32::from(*byte) * position;
    }
    sum
}

// Puts block `index` of the file of `count` days from `first` on at the front of the bytes. Where there is no such
// block, or they are fewer than a block has, they stay as they were.
pub fn put_block(block: &mut [u8], first: u32, count: u32, index: u32)
    ensures { block.new ≡ block_after first count index block.old }
{
    if block.len() < BLOCK_BYTES {
        return;
    }
    if Day::LAST < first {
        return;
    }
    if Day::LAST + 1 - first < count {
        return;
    }
    let days = days_in(count, index);
    if days == 0 {
        return;
    }
    entries::put_entry(block, INDEX, index);
    entries::put_entry(block, COUNT, count);
    put_days(block, first + BLOCK_DAYS * index, days);
    put_zeros(block, DAYS + DAY_NUMBERS * days as usize);
    let sum = sum_of(block);
    entries::put_entry(block, CHECKSUM, sum);
}

// A number of a block that has it.
fn number_at(block: &[u8], index: usize) -> u32
    requires { 4 * index + 4 ≤ length block.now }
    ensures { result ≡ entry_day block.now index }
{
    entries::entry_at(block, index).unwrap()
}

// Whether a day's place holds these numbers.
fn numbers_hold(block: &[u8], from: usize, numbers: [u32; DAY_NUMBERS]) -> bool
    requires { (from ≤ 106) × ((length numbers ≡ 13) × (512 ≤ length block.now)) }
    ensures { result ≡ has_numbers block.now from numbers }
{
    for (i, number) in numbers.iter().enumerate() {
        if number_at(block, from + i) != *number {
            return false;
        }
    }
    true
}

// Whether the places hold the days from a day on, each with its own numbers.
fn days_hold(block: &[u8], day: u64, days: u32) -> bool
    requires { (512 ≤ length block.now) × ((day < 1099511627776) × (days ≤ 9)) }
    ensures { result ≡ days_hold block.now 0 day days }
{
    for place in 0..days {
        let due = day + place as u64;
        if (Day::LAST as u64) < due {
            return false;
        }
        let numbers = day_numbers(due as u32);
        if !numbers_hold(block, DAYS + DAY_NUMBERS * place as usize, numbers) {
            return false;
        }
    }
    true
}

// Whether the bytes from a byte to the checksum are zero.
fn zeros_hold(block: &[u8], from: usize) -> bool
    requires { (512 ≤ length block.now) × (from ≤ 508) }
    ensures { result ≡ all_zero (take (508 - from) (drop from block.now)) }
{
    for byte in &block[from..SUMMED] {
        if *byte != 0 {
            return false;
        }
    }
    true
}

// Refuses what is not block `index` of a file of `count` days from `first` on.
pub fn check_block(block: &[u8], first: u32, count: u32, index: u32) -> Result<(), Refusal>
    ensures { result ≡ block_refusal first count index block.now }
{
    if block.len() < BLOCK_BYTES {
        return Err(Refusal::BadLength);
    }
    if number_at(block, CHECKSUM) != sum_of(block) {
        return Err(Refusal::BadChecksum);
    }
    if number_at(block, INDEX) != index {
        return Err(Refusal::BadIndex);
    }
    if number_at(block, COUNT) != count {
        return Err(Refusal::BadIndex);
    }
    let days = days_in(count, index);
    if !zeros_hold(block, 8 + 52 * days as usize) {
        return Err(Refusal::NotZero);
    }
    if !days_hold(block, first as u64 + BLOCK_DAYS as u64 * index as u64, days) {
        return Err(Refusal::BadDay);
    }
    Ok(())
}
