// The tables inside a rack: shelves, recorded steps and recorded arcs, each with its bound in its type.
ghost use Rattle.std.specs.Prelude.{◌≡◌, length};

use crate::shelf::Shelf;
use algebra::arc::Arc;
use arrayvec::ArrayVec;
use runs::step::Step;

#[derive(Drop)]
pub struct Shelves {
    pub items: [Shelf; 16],
    ghost long: { length items ≡ 16 },
}

pub type Steps = ArrayVec<Step, 512>;

pub type Arcs = ArrayVec<Arc, 512>;
