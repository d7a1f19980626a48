// Rows of tick costs: shapes and phases, the six working rules, and their unrolling.
#![tactic(auto)]

pub mod abort;
pub mod cells;
pub mod chains;
pub mod choice;
pub mod fill;
pub mod fork;
pub mod least;
pub mod link;
pub mod linked;
pub mod outcome;
pub mod phases;
pub mod piece;
pub mod place;
pub mod reading;
pub mod repeat;
pub mod rule;
pub mod sequence;
pub mod sets;
pub mod shape;
pub mod situation;
pub mod situations;
pub mod table;
pub mod unroll;
pub mod walk;
