// The rack by ticket: calls that take and give tickets, each with the whole promise.
#![tactic(auto)]

pub mod ticket;
pub mod ticket_rack;
