// Analyses each program file that its arguments name, and compares what is printed with the text beside the file.
#![tactic(auto)]

use lines::printout::printout;
use std::{env, fs, io};

fn agrees(rt: &HostRuntime, name: &str) -> io::Result<bool> {
    let heap = rt.alloc();
    let file = format!(in heap; "{name}.bin")?;
    let beside = format!(in heap; "{name}.txt")?;
    let bytes = fs::read(rt, &file)?;
    let wanted = fs::read_to_string(rt, &beside)?;
    let text = printout(heap, &bytes)?;
    Ok(text == wanted)
}

fn main(rt: HostRuntime) -> io::Result<()> {
    // the first is the program's own name
    for name in env::args(&rt)?.skip(1) {
        let said = if agrees(&rt, &name)? {
            "agrees"
        } else {
            "differs"
        };
        println!(rt; "{name} {said}")?;
    }
    Ok(())
}
