// A program file in, the line of one algebra out.
ghost use Rattle.std.specs.Prelude.{length, IfOk, string_bytes};
ghost use Rattle.lines.specs.Lines.{LineOf};

use crate::line::line;
use analyser::analyse::analyse;
use shown::Shown;
use std::alloc::{AllocError, Global};

// The line of what the file comes to, as a text, so that a contract can say all of it.
pub fn told<V: Shown>(
    heap: Global,
    bytes: &[u8],
    cells: &mut [Option<V>],
) -> Result<String, AllocError>
    ensures { IfOk result (λ s. LineOf V.Algebra.model V.Algebra.means V.Shown.named V.Shown.words (length cells.old) bytes.now (string_bytes s)) }
{
    let found = analyse(heap, bytes, cells)?;
    line(heap, found)
}
