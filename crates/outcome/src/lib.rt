// Why an operation declines, and its answer as one number, for callers that take numbers.
#![tactic(auto)]

ghost use Rattle.std.specs.Prelude.{◌≡◌, ◌^◌, ◌<◌};
ghost use Rattle.outcome.specs.Outcome.{outcome, accepted, code};
ghost use Rattle.outcome.specs.Refused.{number, part_number, of_part, declined};

// Why an operation declines: 01's and 02's refusals under their numbers.
#[derive(Clone, Copy, PartialEq, Eq, Debug)]
pub enum Refusal {
    // Of a book or a sheet: fewer than 8 bytes; a length that is not that of the bytes; a version that there is not.
    FewBytes = 1,
    OtherLength = 2,
    OtherVersion = 3,

    // Of a book: its counts; a length that they do not give; a link to or from a cell that there is not; a link not above the one before.
    BookCounts = 4,
    OtherSize = 5,
    LinkCell = 6,
    LinkOrder = 7,

    // Of a sheet: its counts; an entry that its bytes do not hold; a kind that there is not; too many steps; a number that is not an earlier
    // entry's; a first entry that is not the always true one; an entry's body of another size.
    SheetCounts = 8,
    EntryBytes = 9,
    OtherKind = 10,
    ManySteps = 11,
    NotEarlier = 12,
    FirstEntry = 13,
    BodyBytes = 14,

    // Of a call: a bound above 4; a map of another length than the pairs; too little room, scratch or words; no such entry; no such cell, row or
    // place; a row length that there is not; a long chain; a long text; less room than the text.
    BoundAbove = 20,
    MapLength = 21,
    FewRoom = 22,
    FewScratch = 23,
    FewWords = 24,
    NoEntry = 25,
    NoPlace = 26,
    RowLength = 27,
    LongChain = 28,
    LongText = 29,
    TextRoom = 30,

    // Of a book: a word hides what is no cell of it.
    HiddenBeyond = 31,
}

// The part that a refusal speaks of: the call itself, the left or only book, the right book, or a sheet.
#[derive(Clone, Copy, PartialEq, Eq, Debug)]
pub enum Part {
    Call = 0,
    LeftBook = 1,
    RightBook = 2,
    Sheet = 3,
}

// A refusal, and the part that it speaks of.
#[derive(Clone, Copy, PartialEq, Eq, Debug)]
pub struct Refused {
    pub part: Part,
    pub refusal: Refusal,
}

impl Refusal {
    // The papers' number of the refusal.
    pub fn number(self) -> u8
        ensures { result ≡ number self }
    {
        self as u8
    }

    // The refusal, of a part.
    pub fn of(self, part: Part) -> Refused
        ensures { result ≡ of_part part self }
    {
        Refused {
            part,
            refusal: self,
        }
    }
}

impl Part {
    // The number of the part.
    pub fn number(self) -> u8
        ensures { result ≡ part_number self }
    {
        self as u8
    }
}

impl Refused {
    // The number of the outcome: the refusal, its part, and no values.
    pub fn code(self) -> u64
        ensures { result ≡ code (declined self) }
    {
        code(self.refusal.number(), self.part.number(), 0, 0)
    }
}

// The number of an outcome: the refusal (0 where accepted), the part that it speaks of, and two values below 2 to the 24.
pub fn code(refusal: u8, part: u8, first: u32, second: u32) -> u64
    requires { (first < 2 ^ 24) × (second < 2 ^ 24) }
    ensures { result ≡ code (outcome refusal part first second) }
{
    refusal as u64 + 256 * (part as u64) + 65536 * (first as u64) + 1099511627776 * (second as u64)
}

// The number of an outcome that is accepted, with two values below 2 to the 24.
pub fn accepted(first: u32, second: u32) -> u64
    requires { (first < 2 ^ 24) × (second < 2 ^ 24) }
    ensures { result ≡ code (accepted first second) }
{
    code(0, Part::Call.number(), first, second)
}
