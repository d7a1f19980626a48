// Analyses a program file and prints a line for each algebra.
#![tactic(auto)]

use lines::printout::printout;
use std::io;
use std::io::Read;

fn print_lines(rt: &HostRuntime) -> io::Result<()> {
    let mut bytes = Vec::new(rt.alloc());
    rt.stdin().read_to_end(&mut bytes)?;
    let text = printout(rt.alloc(), &bytes)?;
    print!(rt; "{text}")
}

// An input that cannot be read, or want of memory, is said on standard error, and the status is then 1.
fn main(rt: HostRuntime) -> io::Result<()> {
    let done = print_lines(&rt);
    if let Err(error) = &done {
        eprintln!(rt; "tick_rack: {error}")?;
    }
    done
}
