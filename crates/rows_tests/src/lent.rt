// What a caller knows of a slice of its own once a rule has been unrolled in it.
ghost use Rattle.std.specs.Prelude.{◌≡◌, ◌≤◌, length, drop};

use algebra::algebra::Algebra;
use rows::cells::Cells;
use rows::outcome::{Unkept, Unrolled};
use rows::place::Place;
use rows::rule::RowRule;
use rows::unroll::unroll;

// Onto the first shelf: what lies past the 4,096 cells is as it was.
pub fn unrolled_within<R: RowRule, V: Algebra>(
    rule: &R,
    lent: &mut [Option<V>],
) -> Result<Unrolled, Unkept>
    requires { 4096 ≤ length lent.old }
    ensures { drop 4096 lent.new ≡ drop 4096 lent.old }
{
    unroll(rule, &mut Cells { lent }, Place { shelf: 0 })
}
