// Asking a call's questions in their order.
ghost use Rattle.std.specs.Prelude.{◌≡◌, ◌+◌, ◌*◌, true, false, not, take, is_some, None as absent, Decides, MatchResult, slice_index_or};
ghost use Rattle.std.specs.List.{AllByRecursion};
ghost use Rattle.rows.specs.Pieces.{on_shelves};
ghost use Rattle.shelves.specs.Calls.{about};
ghost use Rattle.shelves.specs.Inner.{CoreSaysYes, CoreSaysNo};
ghost use Rattle.shelves.specs.Held.{call_of};

use crate::call::Call;
use crate::core_state::Core;
use crate::questions::{
    apart, going, measured, numbered, occupied, recordable, roomy, tabular, vacant,
};
use crate::refusal::Refusal;
use algebra::algebra::Algebra;
use rows::cells::Cells;

// Is the exit of shelf k absent at tick 0?
fn stays<V: Algebra>(cells: &Cells<V>, k: u8) -> bool
    ensures { is_some (slice_index_or (on_shelves V.means cells.now) (128 * k + 64 + 0) absent) ≡ not result }
{
    if k > 15 {
        return true;
    }
    let exit = cells.lent[128 * k as usize + 64];
    exit.is_none()
}

// Is a loop's exit absent at tick 0?
fn staying<V: Algebra>(cells: &Cells<V>, call: Call) -> bool
    ensures { Decides result (AllByRecursion (λ k. is_some (slice_index_or (on_shelves V.means cells.now) (128 * k + 64 + 0) absent) ≡ false) (about (call_of call.entry)).looped) }
{
    // a match, as in the other questions
    match call {
        Call::Loop { shelf } => stays(cells, shelf),
        _ => true,
    }
}

// Goes on after a yes, and ends with the refusal after a no.
fn ask(yes: bool, no: Refusal) -> Result<(), Refusal>
    ensures { MatchResult result (λ _. yes ≡ true) (λ found. (yes ≡ false) × (found ≡ no)) }
{
    if yes { Ok(()) } else { Err(no) }
}

// The first no among the questions that come before unrolling.
pub(crate) fn first_no<V: Algebra>(core: &Core<V>, call: Call) -> Result<(), Refusal>
    ensures { MatchResult result (λ _. CoreSaysYes V.model V.means (call_of call.entry) core.now) (λ no. CoreSaysNo V.model V.means (call_of call.entry) core.now no) }
{
    ask(numbered(call), Refusal::NoShelf)?;
    ask(apart(call), Refusal::SameShelf)?;
    ask(vacant(&core.shelves, call), Refusal::ShelfTaken)?;
    ask(occupied(&core.shelves, call), Refusal::ShelfEmpty)?;
    ask(measured(call), Refusal::ManyCycles)?;
    ask(tabular(call), Refusal::BadArcs)?;
    ask(going(call), Refusal::StateWithoutArc)?;
    ask(recordable(&core.steps, call), Refusal::StepsFull)?;
    ask(roomy(&core.arcs, call), Refusal::ArcsFull)?;
    ask(staying(&core.cells, call), Refusal::LeavesAtOnce)?;
    Ok(())
}
