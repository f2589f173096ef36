// Why a call is refused: paper 01's refusals, and from the extra month on paper 02's.
ghost use Rattle.std.specs.Prelude.{◌≡◌};
ghost use Rattle.days.specs.Refusals.{refusal_number, result_number};

#[derive(Clone, Copy, Debug, PartialEq, Eq)]
pub enum Refusal {
    NoSuchDate = 1,
    OutOfRange,
    BadInput,
    NoSuchWeekday,
    LastBeforeFirst,
    BadCondition,
    ListTooShort,
    NoExtraMonth,
    BadLength,
    BadChecksum,
    BadIndex,
    NotZero,
    BadDay,
    BadEdition,
    BadLine,
    NoSuchBody,
}

impl Refusal {
    // Its number, which C calls hand back and programs print. No refusal has 0.
    pub fn number(self) -> u32
        ensures { result ≡ refusal_number self }
    {
        match self {
            Refusal::NoSuchDate => NO_SUCH_DATE,
            Refusal::OutOfRange => OUT_OF_RANGE,
            Refusal::BadInput => BAD_INPUT,
            Refusal::NoSuchWeekday => NO_SUCH_WEEKDAY,
            Refusal::LastBeforeFirst => LAST_BEFORE_FIRST,
            Refusal::BadCondition => BAD_CONDITION,
            Refusal::ListTooShort => LIST_TOO_SHORT,
            Refusal::NoExtraMonth => NO_EXTRA_MONTH,
            Refusal::BadLength => BAD_LENGTH,
            Refusal::BadChecksum => BAD_CHECKSUM,
            Refusal::BadIndex => BAD_INDEX,
            Refusal::NotZero => NOT_ZERO,
            Refusal::BadDay => BAD_DAY,
            Refusal::BadEdition => BAD_EDITION,
            Refusal::BadLine => BAD_LINE,
            Refusal::NoSuchBody => NO_SUCH_BODY,
        }
    }
}

// Of a call's answer: 0, or its refusal's number.
#[tactic(auto, unfolding(crate::specs::Refusals::result_number))]
pub fn result_number<T: Copy>(answer: Result<T, Refusal>) -> u32
    ensures { result ≡ result_number answer }
{
    match answer {
        Ok(_) => NONE,
        Err(refusal) => refusal.number(),
    }
}

// The refusals by number.
pub const NONE: u32 = 0;

pub const NO_SUCH_DATE: u32 = 1;

pub const OUT_OF_RANGE: u32 = 2;

pub const BAD_INPUT: u32 = 3;

pub const NO_SUCH_WEEKDAY: u32 = 4;

pub const LAST_BEFORE_FIRST: u32 = 5;

pub const BAD_CONDITION: u32 = 6;

pub const LIST_TOO_SHORT: u32 = 7;

pub const NO_EXTRA_MONTH: u32 = 8;

pub const BAD_LENGTH: u32 = 9;

pub const BAD_CHECKSUM: u32 = 10;

pub const BAD_INDEX: u32 = 11;

pub const NOT_ZERO: u32 = 12;

pub const BAD_DAY: u32 = 13;

pub const BAD_EDITION: u32 = 14;

pub const BAD_LINE: u32 = 15;

pub const NO_SUCH_BODY: u32 = 16;
