// The rack: calls by shelf number, each with the whole promise.
#![tactic(auto)]

pub mod rack;
