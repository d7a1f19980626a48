// The analyser: a program file in, the report of the one plan that it spells out, or the first no.
#![tactic(auto)]

pub mod analyse;
pub mod fault;
mod performing;
mod sole;
pub mod working;
