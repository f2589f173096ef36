// Decimal numbers, days as input, and lines of output: a number is read and printed by one function each.
#![tactic(auto)]

ghost use Rattle.std.specs.Prelude.{◌≡◌, ◌≤◌, length, drop};
ghost use Rattle.text.specs.Decimal.{number_read, digits_of};
ghost use Rattle.text.specs.Inputs.{input_read, day_input};
ghost use Rattle.text.specs.Lines.{empty_line, contents, with_byte, with_bytes, ended, spaced, Holds, refusal_line};
ghost use Rattle.text.specs.Sheets.{fits_at, put_at};

use days::Day;
use days::refusal::Refusal;

// A text that a program reads whole has fewer bytes: one that fills a buffer of so many is longer, or could not be read
// to its end.
pub const TOO_LONG: usize = 524288;

// The bytes of a sheet that are written at once, of whole lines.
pub const PIECE: usize = 8192;

// The most digits of a day's number.
const DAY_DIGITS: usize = 6;

// A line being made: its contents are the first len bytes.
#[derive(Clone, Copy)]
pub struct Line {
    pub bytes: [u8; Line::CAPACITY],
    pub len: usize,
}

// A number's digits: the bytes from an index to the end. No u64 has more than twenty.
#[derive(Clone, Copy)]
struct Digits {
    bytes: [u8; 20],
    from: usize,
}

// At most nine digits, so that every value fits.
pub fn read_decimal(digits: &[u8]) -> Result<u32, Refusal>
    ensures { result ≡ number_read digits.now }
{
    if digits.is_empty() || 9 < digits.len() {
        return Err(Refusal::BadInput);
    }
    let mut number: u32 = 0;
    for &digit in digits {
        match digit {
            b'0'..=b'9' => number = 10 * number + (digit - b'0') as u32,
            _ => return Err(Refusal::BadInput),
        }
    }
    Ok(number)
}

// The number of an input that is 1 to 6 decimal digits and one newline.
#[tactic(auto, unfolding(crate::specs::Inputs::input_read, crate::specs::Inputs::is_line))]
fn read_line(input: &[u8]) -> Result<u32, Refusal>
    ensures { result ≡ input_read input.now }
{
    match input.split_last() {
        Some((b'\n', digits)) if digits.len() <= DAY_DIGITS => read_decimal(digits),
        _ => Err(Refusal::BadInput),
    }
}

// The day's number in such an input.
#[tactic(auto, unfolding(crate::specs::Inputs::day_input))]
pub fn read_day(input: &[u8]) -> Result<u32, Refusal>
    ensures { result ≡ day_input input.now }
{
    let number = read_line(input)?;
    if number <= Day::LAST {
        Ok(number)
    } else {
        Err(Refusal::OutOfRange)
    }
}

// The digits are found from the last, so they are written backwards.
fn decimal(n: u64) -> Digits
    ensures { (length result.bytes ≡ 20) × (result.from ≤ 19) × (drop result.from result.bytes ≡ digits_of n) }
{
    let mut bytes = [0u8; 20];
    let mut from: usize = 19;
    let mut rest = n;
    while 10 <= rest {
        bytes[from] = b'0' + (rest % 10) as u8;
        from -= 1;
        rest = rest / 10;
    }
    bytes[from] = b'0' + rest as u8;
    Digits { bytes, from }
}

impl Line {
    // The bytes that a line has room for.
    pub const CAPACITY: usize = 160;

    pub fn empty() -> Line
        ensures { result ≡ empty_line }
    {
        Line {
            bytes: [0u8; Line::CAPACITY],
            len: 0,
        }
    }

    // One byte more; a full line stays as it was.
    pub fn byte(self, b: u8) -> Line
        ensures { result ≡ with_byte self b }
    {
        self.text(&[b])
    }

    // The bytes one after another; what does not fit is not put.
    pub fn text(self, s: &[u8]) -> Line
        ensures { result ≡ with_bytes self s.now }
    {
        let mut bytes = self.bytes;
        let mut len = self.len;
        for &b in s {
            if len < Line::CAPACITY {
                bytes[len] = b;
                len += 1;
            }
        }
        Line { bytes, len }
    }

    // The line with its newline; where not all of it fits, the refusal for want of room in its place.
    pub fn ended(self) -> Line
        ensures { result ≡ ended self }
    {
        if self.len < Line::CAPACITY {
            return self.byte(b'\n');
        }
        refusal_line(Refusal::ListTooShort.number())
    }

    // Puts the line's contents into a buffer from byte `at` on, where all of them fit, and says whether they do.
    pub fn put(self, buffer: &mut [u8], at: usize) -> bool
        ensures value { result ≡ fits_at buffer.old at (contents self) }
        ensures buffer_after { buffer.new ≡ put_at buffer.old at (contents self) }
    {
        let bytes = self.bytes;
        let len = self.len.min(Line::CAPACITY);
        if buffer.len() < at {
            return false;
        }
        if buffer.len() - at < len {
            return false;
        }
        buffer[at..at + len].copy_from_slice(&bytes[..len]);
        true
    }

    // The number in decimal, with no zeros in front.
    pub fn number(self, n: u32) -> Line
        ensures { result ≡ with_bytes self (digits_of n) }
    {
        self.wide_number(n as u64)
    }

    pub fn wide_number(self, n: u64) -> Line
        ensures { result ≡ with_bytes self (digits_of n) }
    {
        let digits = decimal(n);
        let bytes = digits.bytes;
        let from = digits.from;
        self.text(&bytes[from..])
    }

    // The numbers, each after a space.
    pub fn numbers(self, numbers: &[u32]) -> Line
        ensures { result ≡ with_bytes self (spaced numbers.now) }
    {
        let mut made = self;
        for &number in numbers {
            made = made.byte(b' ').number(number);
        }
        made
    }
}

// What is printed for a refusal.
pub fn refusal_line(refusal: u32) -> Line
    ensures { Holds result (refusal_line refusal) }
{
    Line::empty().text(b"refused ").number(refusal).byte(b'\n')
}
