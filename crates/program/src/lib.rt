// The program file: records of a build, read and written.
#![tactic(auto)]

mod bodies;
pub mod fault;
pub mod file;
pub mod kind;
pub mod read;
pub mod record;
pub mod refusal;
pub mod roundtrip;
pub mod unwritten;
pub mod weights;
pub mod write;
