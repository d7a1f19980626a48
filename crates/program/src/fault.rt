// Why nothing was read: a question answered no, or no memory for a record.
ghost use Rattle.std.specs.Prelude.{◌≡◌};
ghost use Rattle.program.specs.declared.fault.Fault.TheVariants.{Refused, Memory};

use crate::refusal::Refusal;
use std::alloc::AllocError;

#[derive(Clone, Copy, Debug)]
pub enum Fault {
    Refused(Refusal),
    Memory,
}

impl From<Refusal> for Fault {
    ghost from_gives = { λ x r. r ≡ Refused x };

    fn from(why: Refusal) -> Fault {
        Fault::Refused(why)
    }
}

impl From<AllocError> for Fault {
    ghost from_gives = { λ _ r. r ≡ Memory };

    fn from(_e: AllocError) -> Fault {
        Fault::Memory
    }
}
