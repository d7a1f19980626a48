// Sequence of A and B: A's phase and the set of phases that B may be in.
ghost use Rattle.rows.specs.Phases.{IsPhase};
ghost use Rattle.rows.specs.Pieces.{rows_of};
ghost use Rattle.rows.specs.Rules.Sequence.{sequence as the_sequence};

use crate::cells::Kept;
use crate::piece::{Piece, Row};
use crate::rule::{RowRule, Tick};
use crate::sets::with;
use crate::situation::Situation;
use algebra::algebra::Algebra;
use algebra::coefficient::{add, join};

#[derive(Clone, Copy)]
pub struct Sequence {
    pub a: Piece,
    pub b: Piece,
}

impl RowRule for Sequence {
    ghost fits = { λ r s. IsPhase r.a.shape s.a };

    ghost works = { λ r m cells. the_sequence m (rows_of m cells r.a) (rows_of m cells r.b) };

    fn first<V: Algebra>(&self) -> Situation {
        Situation::default()
    }

    fn look<V: Algebra>(&self, kept: &Kept<V>, s: Situation) -> Tick<V> {
        let ap = self.a.at(Row::Pause, kept, s.a);
        let ae = self.a.at(Row::Exit, kept, s.a);
        let bp = self.b.at(Row::Pause, kept, 0);
        let be = self.b.at(Row::Exit, kept, 0);
        let pause = join(join(ap, add(ae, bp)), self.b.over(Row::Pause, kept, s.set));
        let exit = join(add(ae, be), self.b.over(Row::Exit, kept, s.set));
        let moved = self.b.moved(kept, s.set);
        let a = self.a.shape.after(s.a);
        let set = if ae.is_some() & bp.is_some() {
            with(moved, self.b.shape.after(0))
        } else {
            moved
        };
        let next = Situation {
            a,
            set,
            ..Situation::default()
        };
        Tick { pause, exit, next }
    }
}
