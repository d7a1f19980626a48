// Choice of A and B: both phases, joined tick by tick.
ghost use Rattle.rows.specs.Phases.{IsPhase};
ghost use Rattle.rows.specs.Pieces.{rows_of};
ghost use Rattle.rows.specs.Rules.Choice.{choice as the_choice};

use crate::cells::Kept;
use crate::piece::{Piece, Row};
use crate::rule::{RowRule, Tick};
use crate::situation::Situation;
use algebra::algebra::Algebra;
use algebra::coefficient::join;

#[derive(Clone, Copy)]
pub struct Choice {
    pub a: Piece,
    pub b: Piece,
}

impl RowRule for Choice {
    ghost fits = { λ r s. IsPhase r.a.shape s.a × IsPhase r.b.shape s.b };

    ghost works = { λ r m cells. the_choice m (rows_of m cells r.a) (rows_of m cells r.b) };

    fn first<V: Algebra>(&self) -> Situation {
        Situation::default()
    }

    fn look<V: Algebra>(&self, kept: &Kept<V>, s: Situation) -> Tick<V> {
        let ap = self.a.at(Row::Pause, kept, s.a);
        let ae = self.a.at(Row::Exit, kept, s.a);
        let bp = self.b.at(Row::Pause, kept, s.b);
        let be = self.b.at(Row::Exit, kept, s.b);
        let pause = join(ap, bp);
        let exit = join(ae, be);
        let a = self.a.shape.after(s.a);
        let b = self.b.shape.after(s.b);
        let next = Situation {
            a,
            b,
            ..Situation::default()
        };
        Tick { pause, exit, next }
    }
}
