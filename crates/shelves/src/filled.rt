// Filled shelves: where one is, and the step that it holds.
ghost use Rattle.std.specs.Prelude.{◌≡◌, ◌≤◌, true, Some as present, slice_index_or};
ghost use Rattle.shelves.specs.State.{empty_shelf, holds_step};
ghost use Rattle.shelves.specs.Tables.{shelves_of};

use crate::tables::Shelves;
use rows::place::Place;

// The place of a filled shelf, and the number of the step that it holds.
#[derive(Clone, Copy)]
pub(crate) struct Filled {
    pub(crate) place: Place,
    pub(crate) step: usize,
}

// The place that a call names. No `TryFrom`: that it is one of 16 was asked before.
pub(crate) fn place(shelf: u8) -> Place
    requires { shelf ≤ 15 }
    ensures { result.shelf ≡ shelf }
{
    Place {
        shelf: shelf as usize,
    }
}

// The filled shelf that a call names.
pub(crate) fn filled_shelf(shelves: &Shelves, shelf: u8) -> Filled
    requires within { shelf ≤ 15 }
    requires filled { holds_step (shelves_of shelves.now) shelf ≡ true }
    ensures place { result.place.shelf ≡ shelf }
    ensures step { (slice_index_or (shelves_of shelves.now) shelf empty_shelf).step ≡ present result.step }
{
    let place = place(shelf);
    let step = shelves.at(place.shelf).step.unwrap();
    Filled { place, step }
}
