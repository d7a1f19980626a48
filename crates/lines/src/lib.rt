// The lines that are printed, one for each algebra.
#![tactic(auto)]

pub mod line;
pub mod printout;
pub mod told;
