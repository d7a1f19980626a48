// Refusals: the questions of a rack that said no.
ghost use Rattle.std.specs.Prelude.{◌≡◌};
ghost use Rattle.shelves.specs.Refusals.{number_of};
ghost use Rattle.shelves.specs.Stops.{stop_of};

use rows::outcome::Unkept;

#[derive(Clone, Copy, PartialEq, Eq, Debug)]
pub enum Refusal {
    // fewer than 4,096 cells are lent
    FewCells = 1,
    // a shelf number is past 15
    NoShelf = 2,
    // two named shelves are one
    SameShelf = 3,
    // a leaf's shelf is filled already
    ShelfTaken = 4,
    // a named shelf is empty
    ShelfEmpty = 5,
    // a label has more cycles than the limit
    ManyCycles = 6,
    // a table has no arc, too many, or one from or to no state
    BadArcs = 7,
    // a state of a table begins no arc
    StateWithoutArc = 8,
    // as many steps are recorded as there is room for
    StepsFull = 9,
    // a table's arcs do not fit with those recorded
    ArcsFull = 10,
    // a loop's piece may leave at once
    LeavesAtOnce = 11,
    // none of situations 0 to 1,023 equals an earlier one
    NeverRepeats = 12,
    // transient and period come to more than 64
    TooLong = 13,
}

impl Refusal {
    // The number of the question, by a name that says so, which `From` would not.
    pub fn number(self) -> u8
        ensures { result ≡ number_of self }
    {
        self as u8
    }
}

impl From<Unkept> for Refusal {
    ghost from_gives = { λ no refusal. refusal ≡ stop_of no };

    fn from(no: Unkept) -> Refusal {
        match no {
            Unkept::NeverSoon => Refusal::NeverRepeats,
            Unkept::TooLong => Refusal::TooLong,
        }
    }
}
