// The rows of small pieces, worked by each rule under each algebra.
#![tactic(auto)]

#[cfg(test)]
mod bench;
pub mod lent;
#[cfg(test)]
mod limits;
#[cfg(test)]
mod others;
#[cfg(test)]
mod worst;
