// What a rack of either kind holds: the lent cells and its tables.
use crate::tables::{Arcs, Shelves, Steps};
use rows::cells::Cells;

#[derive(Drop)]
pub struct Core<'a, V> {
    pub cells: Cells<'a, V>,
    pub shelves: Shelves,
    pub steps: Steps,
    pub arcs: Arcs,
}
