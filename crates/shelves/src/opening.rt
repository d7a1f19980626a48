// Opening: what a rack of either kind holds at first.
ghost use Rattle.std.specs.Prelude.{◌≤◌, length, Decides};
ghost use Rattle.shelves.specs.Cores.{CoreOpens};

use crate::core_state::Core;
use crate::tables::{Arcs, Shelves, Steps};
use algebra::algebra::Algebra;
use rows::cells::Cells;

// Are at least 4,096 cells lent?
pub fn enough<V: Algebra>(cells: &[Option<V>]) -> bool
    ensures { Decides result (4096 ≤ length cells.now) }
{
    cells.len() >= 4096
}

// Opens over lent cells: those past the first 4,096 are untouched. The history begins. It takes the slice itself, of which
// `enough` was asked, since a narrower type would ask more of callers than the slice does.
pub fn open<'a, V: Algebra>(cells: &'a mut [Option<V>]) -> Core<'a, V>
    requires { 4096 ≤ length cells.old }
    ensures { CoreOpens V.model V.means cells.old result }
{
    let mut cells = Cells { lent: cells };
    cells.wipe();
    Core {
        cells,
        shelves: Shelves::new(),
        steps: Steps::new(),
        arcs: Arcs::new(),
    }
}
