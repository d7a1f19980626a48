// Unrolling: a rule's rows, in their least shape, onto a shelf. Written once, for every rule and every algebra.
ghost use Rattle.std.specs.Prelude.{◌≡◌, take, MatchResult};
ghost use Rattle.rows.specs.Filled.{OnlyShelf};
ghost use Rattle.rows.specs.Outcomes.{Refused};
ghost use Rattle.rows.specs.Pieces.{on_shelves};
ghost use Rattle.rows.specs.Unrolled.{Unrolls};

use crate::cells::Cells;
use crate::outcome::{Unkept, Unrolled};
use crate::place::Place;
use crate::rule::RowRule;
use crate::shape::Shape;
use crate::walk::walk;
use algebra::algebra::Algebra;

// The working cells, from 2,048 up to 4,096, are free afterwards.
pub fn unroll<R: RowRule, V: Algebra>(
    rule: &R,
    cells: &mut Cells<V>,
    place: Place,
) -> Result<Unrolled, Unkept>
    ensures same { cells.new.lent.ghost_name ≡ cells.old.lent.ghost_name }
    ensures only { OnlyShelf place.shelf cells.old.lent.now cells.new.lent.now }
    ensures cases { let over = R.RowRule.works rule.now V.Algebra.model (on_shelves V.Algebra.means cells.old) in MatchResult result (λ u. Unrolls over u.reply place.shelf u.shape.transient u.shape.period (on_shelves V.Algebra.means cells.new)) (λ no. Refused over no × (take 2048 cells.new.lent.now ≡ take 2048 cells.old.lent.now)) }
{
    let turn = walk(rule, cells).ok_or(Unkept::NeverSoon)?;
    let noted = cells.room();
    let period = noted.least_period(turn);
    let transient = noted.least_transient(turn.earlier, period);
    if transient + period > 64 {
        return Err(Unkept::TooLong);
    }
    cells.fill(place, transient + period);
    Ok(Unrolled {
        reply: turn.number,
        shape: Shape { transient, period },
    })
}
