// A whole program file, analysed on a new rack.
ghost use Rattle.std.specs.Prelude.{length, IfOk};
ghost use Rattle.analyser.specs.Files.{Analysed, found_of};

use crate::fault::{Fault, Why};
use crate::working::work;
use algebra::algebra::Algebra;
use program::file::list;
use rack::rack::Rack;
use shelves::opening::enough;
use shelves::refusal::Refusal;
use shelves::report::Report;
use std::alloc::{AllocError, Global};

// The report of the one plan that the file spells, or the first no with how many records were accepted before it.
// A result in a result: a no is an answer that callers print, and want of memory an error that they pass on.
pub fn analyse<V: Algebra>(
    heap: Global,
    bytes: &[u8],
    cells: &mut [Option<V>],
) -> Result<Result<Report<V>, Fault>, AllocError>
    ensures { IfOk result (λ found. Analysed V.model (length cells.old) bytes.now (found_of V.model V.means found)) }
{
    if !enough(cells) {
        return Ok(Err(Fault {
            accepted: 0,
            why: Why::Rack(Refusal::FewCells),
        }));
    }
    let listing = list(heap, bytes)?;
    let mut rack = Rack::open(cells);
    Ok(work(&mut rack, &listing))
}
