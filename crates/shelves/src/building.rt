// Building: what an accepted call does to what a rack holds.
ghost use Rattle.std.specs.Prelude.{◌≡◌, ◌<◌, [], ◌∷◌, ◌++◌, length, take, set, Some as present};
ghost use Rattle.rows.specs.Pieces.{on_shelves};
ghost use Rattle.runs.specs.declared.step.Step.TheVariants.{Node as node_step, Pause as pause_step};
ghost use Rattle.shelves.specs.Inner.{CorePuts, CoreEmpties, CoreBuilt};
ghost use Rattle.shelves.specs.Effects.{node_row, pause_row};
ghost use Rattle.shelves.specs.Tables.{shelves_of};

use crate::core_state::Core;
use crate::leaves::{blank, write_node, write_pause};
use crate::refusal::Refusal;
use crate::shelf::Shelf;
use algebra::algebra::Algebra;
use algebra::label::Label;
use rows::place::Place;
use rows::rule::RowRule;
use rows::shape::Shape;
use rows::unroll::unroll;
use runs::step::Step;

// Records a step, and notes it with the shape of its rows on a shelf. Room for the step is a fact of the moment, which a
// question asks, and not of the type: so it stands in each `requires`.
fn settle<V: Algebra>(core: &mut Core<V>, place: Place, shape: Shape, step: Step)
    requires { length core.old.steps.items < 512 }
    ensures cells { core.new.cells ≡ core.old.cells }
    ensures shelves { shelves_of core.new.shelves ≡ set (shelves_of core.old.shelves) place.shelf (record { step = present (length core.old.steps.items); transient = shape.transient; period = shape.period }) }
    ensures steps { core.new.steps.items ≡ core.old.steps.items ++ step ∷ [] }
    ensures arcs { core.new.arcs ≡ core.old.arcs }
{
    let number = Some(core.steps.len());
    core.shelves.put(
        place,
        Shelf {
            step: number,
            shape,
        },
    );
    core.steps.push(step);
}

// Puts a node's rows on a shelf and records its step. A pause differs in the rows written too, so it has its own function.
pub(crate) fn put_node<V: Algebra>(core: &mut Core<V>, place: Place, label: Label)
    requires { length core.old.steps.items < 512 }
    ensures { CorePuts V.model V.means (node_row V.model label) place.shelf (node_step label) [] core.old core.new }
{
    write_node(&mut core.cells, place, label);
    settle(
        core,
        place,
        Shape {
            transient: 1,
            period: 1,
        },
        Step::Node { label },
    );
}

// Puts a pause's rows on a shelf and records its step.
pub(crate) fn put_pause<V: Algebra>(core: &mut Core<V>, place: Place, label: Label)
    requires { length core.old.steps.items < 512 }
    ensures { CorePuts V.model V.means (pause_row V.model label) place.shelf (pause_step label) [] core.old core.new }
{
    write_pause(&mut core.cells, place, label);
    settle(
        core,
        place,
        Shape {
            transient: 2,
            period: 1,
        },
        Step::Pause { label },
    );
}

// Empties a shelf.
pub(crate) fn empty<V: Algebra>(core: &mut Core<V>, place: Place)
    ensures { CoreEmpties V.model V.means place.shelf core.old core.new }
{
    blank(&mut core.cells, place);
    core.shelves.put(place, Shelf::empty());
}

// Unrolls a rule onto a shelf and records its step; the reply is the number of the first repeated situation.
pub(crate) fn build<R: RowRule, V: Algebra>(
    core: &mut Core<V>,
    rule: &R,
    place: Place,
    step: Step,
) -> Result<usize, Refusal>
    requires { length core.old.steps.items < 512 }
    ensures does { CoreBuilt V.Algebra.model V.Algebra.means (R.RowRule.works rule.now V.Algebra.model (on_shelves V.Algebra.means core.old.cells)) place.shelf step [] core.old core.new result }
    ensures arcs { core.new.arcs ≡ core.old.arcs }
{
    let unrolled = unroll(rule, &mut core.cells, place)?;
    settle(core, place, unrolled.shape, step);
    Ok(unrolled.reply)
}
