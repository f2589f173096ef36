// Almanac files, paper 02's: days one after another in blocks of 512 bytes, written, and read whole or block by block.
#![tactic(auto)]

ghost use Rattle.std.specs.Prelude.{◌≡◌, ◌+◌, ◌*◌, ◌≤◌, length};
ghost use Rattle.days.specs.Days.{days_from};
ghost use Rattle.entries.specs.Entries.{capacity, with_entries_from};
ghost use Rattle.almanac.specs.Files.{blocks_for, bytes_needed, writing_of, file_after, block_result, block_written};
ghost use Rattle.almanac.specs.Reading.{start, opened, taken, broken_off, next, ended, fault_at, gone_through, reading_of, listing_of, list_after};
ghost use Rattle.almanac.specs.Parts.{with_file};

use blocks::{BLOCK_BYTES, BLOCK_DAYS};
use days::refusal::Refusal;
use entries::NotPut;

// How far a file is read: how many whole blocks were taken, the count and the first day of the first one, whether all
// are sound or why the first bad one is not, and the block that was looked at last. `broken` says that the length
// cannot be right any more: a piece was no block, or there are more blocks than the count demands.
#[derive(Clone, Copy)]
pub struct Reader {
    pub broken: bool,
    pub blocks: u32,
    pub count: u32,
    pub first: u32,
    pub sound: Result<(), Refusal>,
    pub block: u32,
}

// The days of a file that is read: so many from the first one on.
#[derive(Clone, Copy)]
pub struct Reading {
    pub first: u32,
    pub count: u32,
}

// How many blocks so many days take.
pub fn blocks_for(count: u32) -> u32
    ensures { result ≡ blocks_for count }
{
    let whole = count / BLOCK_DAYS;
    let left = count % BLOCK_DAYS;
    whole + (left + (BLOCK_DAYS - 1)) / BLOCK_DAYS
}

// The bytes of a span's file.
pub fn bytes_needed(first: u32, last: u32) -> Result<u32, Refusal>
    ensures { result ≡ bytes_needed first last }
{
    days::check_span(first, last)?;
    let count = last - first + 1;
    Ok(BLOCK_BYTES as u32 * blocks_for(count))
}

// Puts the blocks of the file of `count` days from `first` on at the front of the bytes.
fn put_blocks(first: u32, count: u32, file: &mut [u8])
    requires { (first + count ≤ 401600) × (512 * blocks_for count ≤ length file.old) }
    ensures { file.new ≡ with_file first count file.old }
{
    let blocks = blocks_for(count);
    for index in 0..blocks {
        let at = BLOCK_BYTES * index as usize;
        blocks::put_block(&mut file[at..], first, count, index);
    }
}

// Writes the file of a span to the front of the bytes, and hands back how many they are, or leaves them as they were.
pub fn write(first: u32, last: u32, file: &mut [u8]) -> Result<u32, NotPut>
    ensures value { result ≡ writing_of first last (length file.old) }
    ensures file_after { file.new ≡ file_after first last file.old }
{
    let needed = bytes_needed(first, last)?;
    if file.len() < needed as usize {
        return Err(NotPut::TooShort(needed));
    }
    put_blocks(first, last - first + 1, file);
    Ok(needed)
}

// Writes one block of a span's file to the front of the bytes, or leaves them as they were.
pub fn write_block(first: u32, last: u32, index: u32, block: &mut [u8]) -> Result<(), Refusal>
    ensures value { result ≡ block_result first last index (length block.old) }
    ensures block_after { block.new ≡ block_written first last index block.old }
{
    days::check_span(first, last)?;
    let count = last - first + 1;
    if blocks_for(count) <= index {
        return Err(Refusal::OutOfRange);
    }
    if block.len() < BLOCK_BYTES {
        return Err(Refusal::ListTooShort);
    }
    blocks::put_block(block, first, count, index);
    Ok(())
}

impl Reader {
    pub fn start() -> Reader
        ensures { result ≡ start }
    {
        Reader {
            broken: false,
            blocks: 0,
            count: 0,
            first: 0,
            sound: Ok(()),
            block: 0,
        }
    }

    // With the count and the first day of the first block.
    fn opened(self, block: &[u8]) -> Reader
        requires { 512 ≤ length block.now }
        ensures { result ≡ opened self block.now }
    {
        if self.blocks != 0 {
            return self;
        }
        let mut reader = self;
        reader.count = entries::entry_at(block, 1).unwrap();
        reader.first = entries::entry_at(block, 2).unwrap();
        reader
    }

    // With one block more, which is looked at where none was bad before.
    fn taken(self, block: &[u8]) -> Reader
        requires { self.blocks + 1 ≤ 477218589 }
        ensures { result ≡ taken self block.now }
    {
        let mut reader = self;
        reader.blocks = self.blocks + 1;
        if self.sound.is_ok() {
            reader.sound = blocks::check_block(block, self.first, self.count, self.blocks);
            reader.block = self.blocks;
        }
        reader
    }

    fn broken_off(self) -> Reader
        ensures { result ≡ broken_off self }
    {
        Reader {
            broken: true,
            ..self
        }
    }

    // Takes the next piece of a file: a block, or what is no block and ends it.
    pub fn next(self, piece: &[u8]) -> Reader
        ensures { result ≡ next self piece.now }
    {
        if self.broken {
            return self;
        }
        if piece.len() != BLOCK_BYTES {
            return self.broken_off();
        }
        let reader = self.opened(piece);
        if blocks_for(reader.count) <= reader.blocks {
            return self.broken_off();
        }
        reader.taken(piece)
    }

    // What is read, where the file ends here.
    pub fn ended(self) -> Result<Reading, Refusal>
        ensures { result ≡ ended self }
    {
        if self.broken {
            return Err(Refusal::BadLength);
        }
        if self.blocks == 0 {
            return Err(Refusal::BadLength);
        }
        if self.blocks != blocks_for(self.count) {
            return Err(Refusal::BadLength);
        }
        match self.sound {
            Ok(()) => Ok(Reading {
                first: self.first,
                count: self.count,
            }),
            Err(refusal) => Err(refusal),
        }
    }

    // The block at fault, where the file ends here and is refused: the one that is too few or too many, or the first
    // bad one.
    pub fn fault_at(self) -> u32
        ensures { result ≡ fault_at self }
    {
        match self.ended() {
            Err(Refusal::BadLength) => self.blocks,
            _ => self.block,
        }
    }
}

// Goes through a file piece by piece, each but the last a block's bytes.
pub fn go_through(file: &[u8]) -> Reader
    ensures { result ≡ gone_through file.now }
{
    let mut reader = Reader::start();
    for piece in file.chunks(BLOCK_BYTES) {
        reader = reader.next(piece);
    }
    reader
}

// Puts days one after another into the list, as many as it has entries for.
fn put_days(first: u32, count: u32, list: &mut [u8])
    requires { first + count ≤ 401600 }
    ensures { list.new ≡ with_entries_from list.old 0 (days_from first count) }
{
    for index in 0..count {
        entries::put_entry(list, index as usize, first + index);
    }
}

// The days of a file, or its refusal.
pub fn days_of(file: &[u8]) -> Result<Reading, Refusal>
    ensures { result ≡ reading_of file.now }
{
    go_through(file).ended()
}

// Reads a file's days to the front of the list, and hands back how many they are, or leaves it as it was.
pub fn read(file: &[u8], list: &mut [u8]) -> Result<u32, NotPut>
    ensures value { result ≡ listing_of file.now (capacity list.old) }
    ensures list_after { list.new ≡ list_after file.now list.old }
{
    let reading = days_of(file)?;
    if list.len() / entries::ENTRY_BYTES < reading.count as usize {
        return Err(NotPut::TooShort(reading.count));
    }
    put_days(reading.first, reading.count, list);
    Ok(reading.count)
}
