// The rack: shelves, steps and arcs behind calls that answer as the questions say.
#![tactic(auto)]

mod acting;
pub mod answering;
mod arcs;
mod asks;
mod building;
pub mod call;
pub mod changing;
mod composing;
pub mod core_state;
mod filled;
mod leaves;
pub mod listing;
pub mod opening;
pub mod promise;
mod questions;
mod record;
pub mod refusal;
pub mod reply;
pub mod report;
pub mod shelf;
pub mod tables;
pub mod telling;
