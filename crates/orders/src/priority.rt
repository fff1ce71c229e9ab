// The interface of a lawful order.
ghost use Rattle.std.specs.Prelude.{◌≡◌, Bool, true, false, Some};
ghost use Rattle.orders.specs.Refusal.{priority_refusal, refusal_text};

use std::error::Error;
use std::fmt;

// A kind of priority, by the one question that a lawful order answers.
// The laws hold of every value of the type, also of those that no making gives out.
pub trait Priority: Copy {
    // Is the first priority not behind the second?
    ghost not_behind: { Self → Self → Bool };

    // The same priority, held as what it means: a held number above its bound means the bound.
    ghost canonical: { Self → Self };

    fn not_behind(&self, other: &Self) -> bool
        ensures { result ≡ not_behind self.now other.now };

    fn canonical(&self) -> Self
        ensures { result ≡ canonical self.now };

    ghost total: { (a b : Self) → not_behind a b ≡ false → not_behind b a ≡ true };

    ghost transitive: { (a b c : Self) → not_behind a b ≡ true → not_behind b c ≡ true → not_behind a c ≡ true };

    ghost idempotent: { (a : Self) → canonical (canonical a) ≡ canonical a };

    ghost unseen: { (a b : Self) → not_behind (canonical a) (canonical b) ≡ not_behind a b };
}

// Why a priority is not made or not read.
#[derive(Clone, Copy, PartialEq, Eq, Debug)]
pub enum PriorityFault {
    OutOfBounds,
}

impl PriorityFault {
    // The number under which docs/RULES.md lists it.
    pub fn number(&self) -> u8
        ensures { result ≡ (priority_refusal self.now).0 }
    {
        match *self {
            PriorityFault::OutOfBounds => 3,
        }
    }
}

impl fmt::Display for PriorityFault {
    ghost output = { λ e. Some (refusal_text (priority_refusal e)) };

    fn fmt<W: fmt::Write>(&self, f: &mut fmt::Formatter<W>) -> fmt::Result {
        write!(f, "refused {}", self.number())
    }
}

impl Error for PriorityFault {}
