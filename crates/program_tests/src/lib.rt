// Files good and damaged, read and written: what the crate `program` does on examples.
#![tactic(auto)]

#[cfg(test)]
mod damaged;
#[cfg(test)]
mod written;
