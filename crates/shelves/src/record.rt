// Shelves as they are read and written.
ghost use Rattle.std.specs.Prelude.{◌≡◌, replicate, slice_index_or, slice_set};
ghost use Rattle.shelves.specs.State.{empty_shelf};
ghost use Rattle.shelves.specs.Tables.{shelf_of, shelves_of};

use crate::shelf::Shelf;
use crate::tables::Shelves;
use rows::place::Place;
use rows::shape::Shape;

impl Shelf {
    // No step, transient 0 and period 1.
    pub(crate) fn empty() -> Shelf
        ensures { shelf_of result ≡ empty_shelf }
    {
        Shelf {
            step: None,
            shape: Shape {
                transient: 0,
                period: 1,
            },
        }
    }
}

impl Shelves {
    pub(crate) fn new() -> Shelves
        ensures { shelves_of result ≡ replicate 16 empty_shelf }
    {
        Shelves {
            items: [Shelf::empty(); 16],
        }
    }

    // Shelf k; one past 15 reads as empty.
    pub(crate) fn at(&self, k: usize) -> Shelf
        ensures { shelf_of result ≡ slice_index_or (shelves_of self.now) k empty_shelf }
    {
        if k < 16 {
            self.items[k]
        } else {
            Shelf::empty()
        }
    }

    pub(crate) fn put(&mut self, place: Place, shelf: Shelf)
        ensures { shelves_of self.new ≡ slice_set (shelves_of self.old) place.shelf (shelf_of shelf) }
    {
        self.items[place.shelf] = shelf;
    }
}
