// Loop of A: the set of phases that A may be in, and whether it is tick 0.
ghost use Rattle.std.specs.Prelude.{◌≡◌};
ghost use Rattle.std.specs.Option.{option_map};
ghost use Rattle.rows.specs.Pieces.{rows_of, given};
ghost use Rattle.rows.specs.Rules.Loop.{loop as the_loop, starts};

use crate::cells::Kept;
use crate::piece::{Piece, Row};
use crate::rule::{RowRule, Tick};
use crate::sets::with;
use crate::situation::Situation;
use algebra::algebra::Algebra;
use algebra::coefficient::{add, join};

#[derive(Clone, Copy)]
pub struct Repeat {
    pub a: Piece,
}

impl Repeat {
    // The weight with which A starts at this tick: the unit at tick 0, later what its runs leave with.
    fn again<V: Algebra>(&self, kept: &Kept<V>, s: Situation) -> Option<V>
        ensures { option_map V.means result ≡ starts V.model (given V.model V.means kept.now self.now.a) s.wa s.set }
    {
        if s.wa {
            Some(V::unit())
        } else {
            self.a.over(Row::Exit, kept, s.set)
        }
    }
}

impl RowRule for Repeat {
    ghost fits = { λ r s. Unit {0} };

    ghost works = { λ r m cells. the_loop m (rows_of m cells r.a) };

    // abort begins with the mark of its first side too, which says another thing there
    fn first<V: Algebra>(&self) -> Situation {
        Situation {
            wa: true,
            ..Situation::default()
        }
    }

    fn look<V: Algebra>(&self, kept: &Kept<V>, s: Situation) -> Tick<V> {
        let again = self.again(kept, s);
        let begins = add(again, self.a.at(Row::Pause, kept, 0));
        let pause = join(begins, self.a.over(Row::Pause, kept, s.set));
        let moved = self.a.moved(kept, s.set);
        let set = if again.is_some() {
            with(moved, self.a.shape.after(0))
        } else {
            moved
        };
        let next = Situation {
            set,
            ..Situation::default()
        };
        Tick {
            pause,
            exit: None,
            next,
        }
    }
}
