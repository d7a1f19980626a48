// Lists a program file: its records in plain words, and the weight of all its labels.
#![tactic(auto)]

mod lines;
mod listing;
#[cfg(test)]
mod tests;

use listing::listing;
use std::io;
use std::io::Read;

fn main(rt: HostRuntime) -> io::Result<()> {
    let mut bytes = Vec::new(rt.alloc());
    rt.stdin().read_to_end(&mut bytes)?;
    listing(rt.alloc(), &bytes, &mut io::writer(&rt))
}
