// Abort, H over A: both phases, and whether A was paused at the tick before.
ghost use Rattle.rows.specs.Phases.{IsPhase};
ghost use Rattle.rows.specs.Pieces.{rows_of};
ghost use Rattle.rows.specs.Rules.Abort.{abort as the_abort};

use crate::cells::Kept;
use crate::piece::{Piece, Row};
use crate::rule::{RowRule, Tick};
use crate::situation::Situation;
use algebra::algebra::Algebra;
use algebra::coefficient::{add, join, mark};

#[derive(Clone, Copy)]
pub struct Abort {
    pub h: Piece,
    pub a: Piece,
}

impl RowRule for Abort {
    ghost fits = { λ r s. IsPhase r.h.shape s.a × IsPhase r.a.shape s.b };

    ghost works = { λ r m cells. the_abort m (rows_of m cells r.h) (rows_of m cells r.a) };

    // the loop begins with this mark too, which says another thing there
    fn first<V: Algebra>(&self) -> Situation {
        Situation {
            wa: true,
            ..Situation::default()
        }
    }

    fn look<V: Algebra>(&self, kept: &Kept<V>, s: Situation) -> Tick<V> {
        let hp = self.h.at(Row::Pause, kept, s.a);
        let he = self.h.at(Row::Exit, kept, s.a);
        let ap = self.a.at(Row::Pause, kept, s.b);
        let ae = self.a.at(Row::Exit, kept, s.b);
        let pause = add(hp, ap);
        let cut = add(he, mark(s.wa));
        let ended = add(hp, ae);
        let exit = join(cut, ended);
        let a = self.h.shape.after(s.a);
        let b = self.a.shape.after(s.b);
        let next = Situation {
            a,
            b,
            wa: ap.is_some(),
            ..Situation::default()
        };
        Tick { pause, exit, next }
    }
}
