// Why a file is refused: the question of the file that is answered no.
ghost use Rattle.std.specs.Prelude.{◌≡◌};
ghost use Rattle.program.specs.Refusals.{number as number_of};

#[derive(Clone, Copy, PartialEq, Eq, Debug)]
pub enum Refusal {
    // the file has more than 32,768 bytes
    Large = 14,
    // fewer than four bytes are left, or the length is not between 4 and the bytes left
    Cut = 15,
    // no kind has this number
    Unknown = 16,
    // the length is not that of the kind
    Misfit = 17,
}

impl Refusal {
    // The number of the question: `why.number()` says what `u8::from(why)` would not.
    pub fn number(self) -> u8
        ensures { result ≡ number_of self }
    {
        self as u8
    }
}
