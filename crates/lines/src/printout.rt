// A program file in, the lines of worst, best and ports out.
ghost use Rattle.std.specs.Prelude.{IfOk, string_bytes};
ghost use Rattle.lines.specs.Lines.{PrintoutOf};

use crate::told::told;
use algebra::best::Best;
use algebra::ports::Ports;
use algebra::worst::Worst;
use std::alloc::{AllocError, Global};

// A text too, since it is what is printed.
pub fn printout(heap: Global, bytes: &[u8]) -> Result<String, AllocError>
    ensures { IfOk result (λ s. PrintoutOf bytes.now (string_bytes s)) }
{
    // lent from here, as a function of a type parameter would have to ask that its own array of cells fits in memory
    let worst = told::<Worst>(heap, bytes, &mut [None; 4096])?;
    let best = told::<Best>(heap, bytes, &mut [None; 4096])?;
    let ports = told::<Ports>(heap, bytes, &mut [None; 4096])?;
    format!(in heap; "{worst}\n{best}\n{ports}\n")
}
