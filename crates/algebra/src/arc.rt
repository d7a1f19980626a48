// An arc of a state table: it leads from a state to a state, or out, and has a label.
use crate::label::Label;

// Where an arc that leads out leads. A byte and no enum: an arc is as it is given, with any byte, and a question is asked of it.
pub const OUT: u8 = 255;

#[derive(Clone, Copy, PartialEq, Eq, Debug, Default)]
pub struct Arc {
    pub from: u8,
    pub to: u8,
    pub label: Label,
}
