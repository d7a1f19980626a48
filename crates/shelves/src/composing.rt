// Composing: a table, a loop, or two shelves put together, unrolled onto a shelf. That there is room for a step is asked
// for each time, since it is true of a moment and not of a type.
ghost use Rattle.std.specs.Prelude.{◌≡◌, ◌+◌, ◌<◌, ◌≤◌, [], length, slice_index_or};
ghost use Rattle.rows.specs.Rules.Loop.{loop as loop_rule};
ghost use Rattle.rows.specs.Rules.Table.{table as table_rule};
ghost use Rattle.runs.specs.declared.step.Step.TheVariants.{Repeat as loop_step, Table as table_step};
ghost use Rattle.shelves.specs.Inner.{CoreBuilt, core_rows};
ghost use Rattle.shelves.specs.Effects.{pair_step};
ghost use Rattle.shelves.specs.Questions.{pair_rule};
ghost use Rattle.shelves.specs.State.{empty_shelf};
ghost use Rattle.shelves.specs.Tables.{shelves_of};

use crate::building::build;
use crate::call::Pairing;
use crate::core_state::Core;
use crate::filled::Filled;
use crate::refusal::Refusal;
use crate::tables::Shelves;
use algebra::algebra::Algebra;
use algebra::arc::Arc;
use rows::abort::Abort;
use rows::choice::Choice;
use rows::fork::Fork;
use rows::linked::Linked;
use rows::piece::Piece;
use rows::place::Place;
use rows::repeat::Repeat;
use rows::sequence::Sequence;
use runs::step::Step;

// The piece on a shelf.
pub(crate) fn piece(shelves: &Shelves, place: Place) -> Piece
    ensures place { result.place ≡ place }
    ensures transient { result.shape.transient ≡ (slice_index_or (shelves_of shelves.now) place.shelf empty_shelf).transient }
    ensures period { result.shape.period ≡ (slice_index_or (shelves_of shelves.now) place.shelf empty_shelf).period }
{
    Piece {
        place,
        shape: shelves.at(place.shelf).shape,
    }
}

// A loop of the piece on a filled shelf.
pub(crate) fn put_loop<V: Algebra>(core: &mut Core<V>, of: Filled) -> Result<usize, Refusal>
    requires { length core.old.steps.items < 512 }
    ensures { CoreBuilt V.model V.means (loop_rule V.model (core_rows V.model V.means core.old of.place.shelf)) of.place.shelf (loop_step of.step) [] core.old core.new result }
{
    let a = piece(&core.shelves, of.place);
    build(core, &Repeat { a }, of.place, Step::Repeat { of: of.step })
}

// The pieces on two filled shelves, first and second, put together on the first.
pub(crate) fn put_pair<V: Algebra>(
    core: &mut Core<V>,
    kind: Pairing,
    first: Filled,
    second: Filled,
) -> Result<usize, Refusal>
    requires { length core.old.steps.items < 512 }
    ensures { CoreBuilt V.model V.means (pair_rule V.model kind (core_rows V.model V.means core.old first.place.shelf) (core_rows V.model V.means core.old second.place.shelf)) first.place.shelf (pair_step kind first.step second.step) [] core.old core.new result }
{
    let a = piece(&core.shelves, first.place);
    let b = piece(&core.shelves, second.place);
    // Each kind unrolls a rule of its own type, so closures for the kinds would say as much.
    match kind {
        Pairing::Choice => build(
            core,
            &Choice { a, b },
            first.place,
            Step::Choice {
                first: first.step,
                second: second.step,
            },
        ),
        Pairing::Sequence => build(
            core,
            &Sequence { a, b },
            first.place,
            Step::Sequence {
                first: first.step,
                second: second.step,
            },
        ),
        Pairing::Fork => build(
            core,
            &Fork { a, b },
            first.place,
            Step::Fork {
                first: first.step,
                second: second.step,
            },
        ),
        Pairing::Abort => build(
            core,
            &Abort { h: a, a: b },
            first.place,
            Step::Abort {
                first: first.step,
                second: second.step,
            },
        ),
    }
}

// A table of arcs on a shelf, which are recorded with it.
pub(crate) fn put_table<V: Algebra>(
    core: &mut Core<V>,
    place: Place,
    arcs: &[Arc],
) -> Result<usize, Refusal>
    requires { (length core.old.steps.items < 512) × (length core.old.arcs.items + length arcs.now ≤ 512) }
    ensures { CoreBuilt V.model V.means (table_rule V.model arcs.now) place.shelf (table_step (length core.old.arcs.items) (length arcs.now)) arcs.now core.old core.new result }
{
    let step = Step::Table {
        first: core.arcs.len(),
        count: arcs.len(),
    };
    let reply = build(core, &Linked::new(arcs), place, step)?;
    core.arcs.try_extend_from_slice(arcs).unwrap();
    Ok(reply)
}
