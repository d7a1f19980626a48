// Why a record was not written: two bytes do not hold its length, or there is no memory for its bytes.
ghost use Rattle.std.specs.Prelude.{◌≡◌};
ghost use Rattle.program.specs.declared.unwritten.Unwritten.TheVariants.{Memory};

use std::alloc::AllocError;

#[derive(Clone, Copy, Debug)]
pub enum Unwritten {
    Long,
    Memory,
}

impl From<AllocError> for Unwritten {
    ghost from_gives = { λ _ r. r ≡ Memory };

    fn from(_e: AllocError) -> Unwritten {
        Unwritten::Memory
    }
}
