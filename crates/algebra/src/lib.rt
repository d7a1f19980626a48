// Labels, the algebras that weigh them, and coefficients: what every row of tick costs is made of.
#![tactic(auto)]

pub mod algebra;
pub mod arc;
pub mod best;
pub mod coefficient;
pub mod cycles;
pub mod label;
pub mod pair;
pub mod ports;
#[cfg(test)]
mod tests;
pub mod worst;
