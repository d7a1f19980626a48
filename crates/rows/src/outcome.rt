// What unrolling a rule answers.
use crate::shape::Shape;

// The number of the first repeated situation, and the least shape of the rows.
#[derive(Clone, Copy, Debug, PartialEq, Eq)]
pub struct Unrolled {
    pub reply: usize,
    pub shape: Shape,
}

// Why the rows are not kept.
#[derive(Clone, Copy, Debug, PartialEq, Eq)]
pub enum Unkept {
    // none of situations 0 to 1,023 equals an earlier one
    NeverSoon,
    // transient and period come to more than 64
    TooLong,
}
