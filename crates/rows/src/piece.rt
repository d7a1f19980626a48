// A piece: the place that keeps its two rows, and their shape.
use crate::place::Place;
use crate::shape::Shape;

#[derive(Clone, Copy, Debug, PartialEq, Eq)]
pub struct Piece {
    pub place: Place,
    pub shape: Shape,
}

#[derive(Clone, Copy, Debug, PartialEq, Eq)]
pub enum Row {
    Pause,
    Exit,
}
