// The questions of a table's arcs.
ghost use Rattle.std.specs.Prelude.{ℕ, ◌<◌, ◌≤◌, ◌⊎◌, map, Decides};
ghost use Rattle.std.specs.List.{AllByRecursion};
ghost use Rattle.shelves.specs.Questions.{Light, LawfulArc, UpToNamed, Begins};

use algebra::arc::{Arc, OUT};

// Are the cycles of every arc within the limit?
pub(crate) fn light(arcs: &[Arc]) -> bool
    ensures { Decides result (AllByRecursion Light (map (λ a. a.label) arcs.now)) }
{
    arcs.iter().all(|arc| arc.label.allowed())
}

// Does the arc lead from a state to a state or out?
fn lawful_arc(arc: Arc) -> bool
    ensures { Decides result (LawfulArc arc) }
{
    arc.from <= 63 && (arc.to <= 63 || arc.to == OUT)
}

// Does every arc?
pub(crate) fn lawful(arcs: &[Arc]) -> bool
    ensures { Decides result (AllByRecursion LawfulArc arcs.now) }
{
    arcs.iter().all(|arc| lawful_arc(*arc))
}

// Does some arc begin at the state?
fn begun(arcs: &[Arc], state: usize) -> bool
    ensures { Decides result (Begins arcs.now state) }
{
    arcs.iter().any(|arc| arc.from as usize == state)
}

// How many states an arc names, with those below: up to the one it begins at, and up to the one it leads to.
fn reach(arc: Arc) -> usize
    ensures { (q : ℕ) → (q < result → (q ≤ arc.from) ⊎ ((q ≤ arc.to) × (arc.to ≤ 63))) × ((q ≤ arc.from) ⊎ ((q ≤ arc.to) × (arc.to ≤ 63)) → q < result) }
{
    let from = arc.from as usize + 1;
    if arc.to <= 63 {
        from.max(arc.to as usize + 1)
    } else {
        from
    }
}

// How many states are named by some arc, with those below.
fn states(arcs: &[Arc]) -> usize
    ensures { (q : ℕ) → (q < result → UpToNamed arcs.now q) × (UpToNamed arcs.now q → q < result) }
{
    // A chain's `max` closes only over an equation for `reach`, which would be its body said again.
    let mut most = 0;
    for arc in arcs {
        most = reach(*arc).max(most);
    }
    most
}

// Does every state up to the highest named begin an arc?
pub(crate) fn complete(arcs: &[Arc]) -> bool
    ensures { Decides result ((q : ℕ) → UpToNamed arcs.now q → Begins arcs.now q) }
{
    (0..states(arcs)).all(|q| begun(arcs, q))
}
