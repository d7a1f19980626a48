// The questions of a call, one function each, as each decides a clause of its own. A match names the calls that a question
// concerns, and the others are yes. A call's shelf is any byte and no `Place`, since nothing is asked of it before.
ghost use Rattle.std.specs.Prelude.{◌≡◌, ℕ, ◌+◌, ◌<◌, ◌≤◌, true, false, length, Decides};
ghost use Rattle.std.specs.List.{AllByRecursion};
ghost use Rattle.shelves.specs.Calls.{about, named};
ghost use Rattle.shelves.specs.Held.{call_of};
ghost use Rattle.shelves.specs.Questions.{Distinct, Light, LawfulArc, UpToNamed, Begins};
ghost use Rattle.shelves.specs.State.{holds_step};
ghost use Rattle.shelves.specs.Tables.{shelves_of};

use crate::arcs::{complete, lawful, light};
use crate::call::Call;
use crate::tables::{Arcs, Shelves, Steps};

// Is each shelf number at most 15?
pub(crate) fn numbered(call: Call) -> bool
    ensures { Decides result (AllByRecursion (λ k. k ≤ 15) (named (call_of call.entry))) }
{
    match call {
        Call::Pair { first, second, .. } => first <= 15 && second <= 15,
        Call::Node { shelf, .. }
        | Call::Pause { shelf, .. }
        | Call::Table { shelf, .. }
        | Call::Loop { shelf }
        | Call::Clear { shelf }
        | Call::Report { shelf } => shelf <= 15,
    }
}

// Do two named shelves differ?
pub(crate) fn apart(call: Call) -> bool
    ensures { Decides result (Distinct (named (call_of call.entry))) }
{
    match call {
        Call::Pair { first, second, .. } => first != second,
        _ => true,
    }
}

// Is shelf k filled?
fn filled(shelves: &Shelves, k: u8) -> bool
    ensures { result ≡ holds_step (shelves_of shelves.now) k }
{
    shelves.at(k as usize).step.is_some()
}

// Is a new leaf's shelf empty?
pub(crate) fn vacant(shelves: &Shelves, call: Call) -> bool
    ensures { Decides result (AllByRecursion (λ k. holds_step (shelves_of shelves.now) k ≡ false) (about (call_of call.entry)).fresh) }
{
    match call {
        Call::Node { shelf, .. } | Call::Pause { shelf, .. } | Call::Table { shelf, .. } => {
            !filled(shelves, shelf)
        }
        _ => true,
    }
}

// Is each shelf that another call names filled?
pub(crate) fn occupied(shelves: &Shelves, call: Call) -> bool
    ensures { Decides result (AllByRecursion (λ k. holds_step (shelves_of shelves.now) k ≡ true) (about (call_of call.entry)).used) }
{
    match call {
        Call::Pair { first, second, .. } => filled(shelves, first) && filled(shelves, second),
        Call::Loop { shelf } | Call::Clear { shelf } | Call::Report { shelf } => {
            filled(shelves, shelf)
        }
        _ => true,
    }
}

// Are fewer than 512 steps recorded?
pub(crate) fn recordable(steps: &Steps, call: Call) -> bool
    ensures { Decides result ((about (call_of call.entry)).builds ≡ true → length steps.now.items < 512) }
{
    match call {
        Call::Clear { .. } | Call::Report { .. } => true,
        _ => !steps.is_full(),
    }
}

// Are all cycles within the limit?
pub(crate) fn measured(call: Call) -> bool
    ensures { Decides result (AllByRecursion Light (about (call_of call.entry)).labels) }
{
    match call {
        Call::Node { label, .. } | Call::Pause { label, .. } => label.allowed(),
        Call::Table { arcs, .. } => light(arcs),
        _ => true,
    }
}

// Has a table 1 to 512 arcs, each from a state to a state or out?
pub(crate) fn tabular(call: Call) -> bool
    ensures { Decides result (AllByRecursion (λ arcs. (1 ≤ length arcs) × (length arcs ≤ 512) × AllByRecursion LawfulArc arcs) (about (call_of call.entry)).tables) }
{
    match call {
        Call::Table { arcs, .. } => !arcs.is_empty() && arcs.len() <= 512 && lawful(arcs),
        _ => true,
    }
}

// Does every state of a table, up to the highest named, begin an arc?
pub(crate) fn going(call: Call) -> bool
    ensures { Decides result (AllByRecursion (λ arcs. (q : ℕ) → UpToNamed arcs q → Begins arcs q) (about (call_of call.entry)).tables) }
{
    match call {
        Call::Table { arcs, .. } => complete(arcs),
        _ => true,
    }
}

// Do a table's arcs fit with those recorded?
pub(crate) fn roomy(recorded: &Arcs, call: Call) -> bool
    ensures { Decides result (AllByRecursion (λ arcs. length recorded.now.items + length arcs ≤ 512) (about (call_of call.entry)).tables) }
{
    match call {
        Call::Table { arcs, .. } => arcs.len() <= recorded.remaining_capacity(),
        _ => true,
    }
}
