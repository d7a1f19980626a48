// The rows of a leaf, and none, written on a shelf.
ghost use Rattle.std.specs.Prelude.{take};
ghost use Rattle.rows.specs.Pieces.{on_shelves};
ghost use Rattle.rows.specs.Unrolled.{Keeps};
ghost use Rattle.rows.specs.Filled.{OnlyShelf};
ghost use Rattle.shelves.specs.Effects.{Blank, node_row, pause_row};

use algebra::algebra::Algebra;
use algebra::label::Label;
use rows::cells::Cells;
use rows::place::Place;

// A node: its weight on exit at tick 0.
pub(crate) fn write_node<V: Algebra>(cells: &mut Cells<V>, place: Place, label: Label)
    ensures keeps { Keeps V.model (node_row V.model label) place.shelf 1 1 (on_shelves V.means cells.new) }
    ensures only { OnlyShelf place.shelf cells.old.lent.now cells.new.lent.now }
{
    cells.note(0, None, Some(V::weigh(label)));
    cells.note(1, None, None);
    cells.fill(place, 2);
}

// A pause: its weight on pause at tick 0, and the unit on exit at tick 1.
pub(crate) fn write_pause<V: Algebra>(cells: &mut Cells<V>, place: Place, label: Label)
    ensures keeps { Keeps V.model (pause_row V.model label) place.shelf 2 1 (on_shelves V.means cells.new) }
    ensures only { OnlyShelf place.shelf cells.old.lent.now cells.new.lent.now }
{
    cells.note(0, Some(V::weigh(label)), None);
    cells.note(1, None, Some(V::unit()));
    cells.note(2, None, None);
    cells.fill(place, 3);
}

// No rows: every cell of the shelf is absent.
pub(crate) fn blank<V: Algebra>(cells: &mut Cells<V>, place: Place)
    ensures blank { Blank V.model place.shelf (on_shelves V.means cells.new) }
    ensures only { OnlyShelf place.shelf cells.old.lent.now cells.new.lent.now }
{
    cells.fill(place, 0);
}
