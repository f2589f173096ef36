// A list of days as bytes: four a day, low byte first. A tail under four bytes is no entry.
#![tactic(auto)]

ghost use Rattle.std.specs.Prelude.{◌≡◌, ◌++◌, drop, take};
ghost use Rattle.entries.specs.Told.{why_not, put_number, length_told};
ghost use Rattle.entries.specs.Entries.{with_entry, entry_day, entry_at, copied_count};

use days::refusal::Refusal;

pub const ENTRY_BYTES: usize = 4;

// Why nothing is put into lent memory: the call is refused, or there is too little room, with the length that would do.
#[derive(Clone, Copy, Debug, PartialEq, Eq)]
pub enum NotPut {
    Refused(Refusal),
    TooShort(u32),
}

impl NotPut {
    // Too little room is a refusal too.
    pub fn refusal(self) -> Refusal
        ensures { result ≡ why_not self }
    {
        match self {
            NotPut::Refused(refusal) => refusal,
            NotPut::TooShort(_) => Refusal::ListTooShort,
        }
    }
}

impl From<Refusal> for NotPut {
    ghost use Rattle.entries.specs.declared.NotPut.TheVariants.{Refused};

    ghost from_gives = { λ refusal not. not ≡ Refused refusal };

    fn from(refusal: Refusal) -> NotPut {
        NotPut::Refused(refusal)
    }
}

// Of an answer that tells how much is put: 0, or the number of its refusal.
#[tactic(auto, unfolding(crate::specs::Told::put_number))]
pub fn put_number(put: Result<u32, NotPut>) -> u32
    ensures { result ≡ put_number put }
{
    match put {
        Ok(_) => 0,
        Err(not) => not.refusal().number(),
    }
}

// The length that it tells: what is put, or would do; 0 of any other refusal.
#[tactic(auto, unfolding(crate::specs::Told::length_told))]
pub fn length_told(put: Result<u32, NotPut>) -> u32
    ensures { result ≡ length_told put }
{
    match put {
        Ok(length) | Err(NotPut::TooShort(length)) => length,
        Err(NotPut::Refused(_)) => 0,
    }
}

// The day of an entry's four bytes.
pub fn day_of(bytes: [u8; ENTRY_BYTES]) -> u32
    ensures { result ≡ entry_day bytes 0 }
{
    u32::from_le_bytes(bytes)
}

// The day of an entry.
pub fn entry_at(list: &[u8], index: usize) -> Result<u32, Refusal>
    ensures { result ≡ entry_at list.now index }
{
    if list.len() / ENTRY_BYTES <= index {
        return Err(Refusal::OutOfRange);
    }
    let at = ENTRY_BYTES * index;
    let bytes = [list[at], list[at + 1], list[at + 2], list[at + 3]];
    Ok(day_of(bytes))
}

// Puts a day's entry at an index; a list that has no such entry stays as it was.
pub fn put_entry(list: &mut [u8], index: usize, day: u32)
    ensures { list.new ≡ with_entry list.old index day }
{
    if index < list.len() / ENTRY_BYTES {
        let at = ENTRY_BYTES * index;
        let bytes = day.to_le_bytes();
        list[at..at + ENTRY_BYTES].copy_from_slice(&bytes);
    }
}

// Copies bytes to the front of others, and hands back how many; others that have no room for all stay as they were.
pub fn copy(from: &[u8], to: &mut [u8]) -> usize
    ensures value { result ≡ copied_count from.now to.old }
    ensures to_after { to.new ≡ take (copied_count from.now to.old) from.now ++ drop (copied_count from.now to.old) to.old }
{
    let count = from.len();
    if to.len() < count {
        return 0;
    }
    to[..count].copy_from_slice(from);
    count
}
