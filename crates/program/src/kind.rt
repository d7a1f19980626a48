// The kinds of records, with the numbers that a file has for them.
ghost use Rattle.std.specs.Prelude.{◌≡◌};
ghost use Rattle.program.specs.Kinds.{number as number_of, Decodes};

use crate::refusal::Refusal;

#[derive(Clone, Copy, PartialEq, Eq, Debug)]
pub enum Kind {
    Node = 1,
    Pause = 2,
    Table = 3,
    Choice = 4,
    Sequence = 5,
    Loop = 6,
    Fork = 7,
    Abort = 8,
    Clear = 9,
}

impl Kind {
    // The number that a file has for it: `kind.number()` says what `u16::from(kind)` would not.
    pub fn number(self) -> u16
        ensures { result ≡ number_of self }
    {
        self as u16
    }
}

// The kind of that number, if there is one.
impl TryFrom<u16> for Kind {
    type Error = Refusal;

    ghost try_from_gives = { Decodes };

    fn try_from(number: u16) -> Result<Kind, Refusal> {
        match number {
            1 => Ok(Kind::Node),
            2 => Ok(Kind::Pause),
            3 => Ok(Kind::Table),
            4 => Ok(Kind::Choice),
            5 => Ok(Kind::Sequence),
            6 => Ok(Kind::Loop),
            7 => Ok(Kind::Fork),
            8 => Ok(Kind::Abort),
            9 => Ok(Kind::Clear),
            _ => Err(Refusal::Unknown),
        }
    }
}
