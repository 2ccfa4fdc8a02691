ghost use Rattle.std.specs.Prelude.{◌≡◌, ◌++◌, Some, codes, decimal};
ghost use Rattle.machine.specs.Refusals.{refusal_number};

use std::error::Error;
use std::fmt;

// Why a call was refused; each refusal has the fixed number that callers see.
#[derive(Clone, Copy, PartialEq, Eq, PartialOrd, Ord, Hash, Debug)]
pub enum Refusal {
    TextTooLong = 1,
    BadLine = 2,
    RowBeforeWidths = 3,
    BadDigits = 4,
    BadName = 5,
    RowsDisagree = 6,
    CellNotGiven = 7,
    CountMismatch = 8,
    OutsideDeviceRules = 9,
    BadAlteredCell = 10,
    NoSuchMember = 11,
    OutOfRange = 12,
    BadSequence = 13,
    WorkTooShort = 14,
    AnswerTooShort = 15,
    WidthsDiffer = 16,
    FaultNotOpen = 21,
    SequencesFull = 22,
    LettersFull = 23,
    NoSuchSequence = 24,
}

impl Refusal {
    // The code stands here and `From` passes it on: callers have had this function before `From` was there.
    pub fn number(self) -> u8
        ensures { result ≡ refusal_number self }
    {
        self as u8
    }
}

impl From<Refusal> for u8 {
    ghost from_gives = { λ refusal n. n ≡ refusal_number refusal };

    fn from(refusal: Refusal) -> u8 {
        refusal.number()
    }
}

impl fmt::Display for Refusal {
    ghost output = { λ refusal. Some (codes "refused " ++ decimal (refusal_number refusal)) };

    fn fmt<W: fmt::Write>(&self, f: &mut fmt::Formatter<W>) -> fmt::Result {
        write!(f, "refused {}", self.number())
    }
}

impl Error for Refusal {}
