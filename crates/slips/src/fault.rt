// Why a slip is not entered.
ghost use Rattle.std.specs.Prelude.{◌≡◌};
ghost use Rattle.slips.specs.declared.fault.SlipFault.TheVariants.{Memory, Refused};

use journal::refusal::Refusal;
use std::alloc::AllocFailed as NoMemory;

#[derive(Clone, Copy, PartialEq, Debug)]
pub enum SlipFault {
    Refused(Refusal),
    Memory,
}

impl From<Refusal> for SlipFault {
    ghost from_gives = { λ e r. r ≡ Refused e };

    fn from(why: Refusal) -> SlipFault {
        SlipFault::Refused(why)
    }
}

impl<T: Drop> From<NoMemory<T>> for SlipFault {
    ghost from_gives = { λ _ r. r ≡ Memory };

    fn from(_e: NoMemory<T>) -> SlipFault {
        SlipFault::Memory
    }
}
