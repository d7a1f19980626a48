// A shelf's record: the number of the step that it holds, None where it is empty, and the shape of its rows.
use rows::shape::Shape;

#[derive(Clone, Copy)]
pub struct Shelf {
    pub step: Option<usize>,
    pub shape: Shape,
}
