// What a call may be refused for; docs/RULES.md lists the numbers.
ghost use Rattle.std.specs.Prelude.{◌≡◌, Some};
ghost use Rattle.orders.specs.Refusal.{refusal_text};
ghost use Rattle.journal.specs.Refusals.{raised, book_refusal};

use std::error::Error;
use std::fmt;

// Why a rack or a date line does not change.
#[derive(Clone, Copy, PartialEq, Eq, Debug)]
pub enum ListRefusal {
    Present,
    Absent,
    Full,
}

// Why a book, or a replay, does not do what it is asked.
#[derive(Clone, Copy, PartialEq, Eq, Debug)]
pub enum Refusal {
    StampOutOfRange,
    NumberOutOfRange,
    StampTaken,
    StampAbsent,
    Full,
    // with the stamp of the first taking that finds no folder
    NoFolder(u32),
    TooSmall,
}

impl Refusal {
    // The number under which docs/RULES.md lists it.
    pub fn number(&self) -> u8
        ensures { result ≡ (book_refusal self.now).0 }
    {
        match *self {
            Refusal::StampOutOfRange => 1,
            Refusal::NumberOutOfRange => 2,
            Refusal::StampTaken => 4,
            Refusal::StampAbsent => 5,
            Refusal::Full => 6,
            Refusal::NoFolder(_) => 7,
            Refusal::TooSmall => 8,
        }
    }
}

impl fmt::Display for Refusal {
    ghost output = { λ r. Some (refusal_text (book_refusal r)) };

    fn fmt<W: fmt::Write>(&self, f: &mut fmt::Formatter<W>) -> fmt::Result {
        let number = self.number();
        match self {
            Refusal::NoFolder(stamp) => write!(f, "refused {number} {stamp}"),
            _ => write!(f, "refused {number}"),
        }
    }
}

impl Error for Refusal {}

// A book's rack and date line refuse for the book's own reasons.
impl From<ListRefusal> for Refusal {
    ghost from_gives = { λ e r. r ≡ raised e };

    fn from(refusal: ListRefusal) -> Refusal {
        match refusal {
            ListRefusal::Present => Refusal::StampTaken,
            ListRefusal::Absent => Refusal::StampAbsent,
            ListRefusal::Full => Refusal::Full,
        }
    }
}
