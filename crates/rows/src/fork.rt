// Fork of A and B: both phases, and for each side whether it may have left earlier.
ghost use Rattle.rows.specs.Phases.{IsPhase};
ghost use Rattle.rows.specs.Pieces.{rows_of};
ghost use Rattle.rows.specs.Rules.Fork.{fork as the_fork};

use crate::cells::Kept;
use crate::piece::{Piece, Row};
use crate::rule::{RowRule, Tick};
use crate::situation::Situation;
use algebra::algebra::Algebra;
use algebra::coefficient::{add, join, mark};

#[derive(Clone, Copy)]
pub struct Fork {
    pub a: Piece,
    pub b: Piece,
}

impl RowRule for Fork {
    ghost fits = { λ r s. IsPhase r.a.shape s.a × IsPhase r.b.shape s.b };

    ghost works = { λ r m cells. the_fork m (rows_of m cells r.a) (rows_of m cells r.b) };

    fn first<V: Algebra>(&self) -> Situation {
        Situation::default()
    }

    fn look<V: Algebra>(&self, kept: &Kept<V>, s: Situation) -> Tick<V> {
        let ap = self.a.at(Row::Pause, kept, s.a);
        let ae = self.a.at(Row::Exit, kept, s.a);
        let bp = self.b.at(Row::Pause, kept, s.b);
        let be = self.b.at(Row::Exit, kept, s.b);
        let pause = join(
            add(ap, join(join(bp, be), mark(s.wb))),
            add(join(ae, mark(s.wa)), bp),
        );
        let exit = join(add(ae, join(be, mark(s.wb))), add(mark(s.wa), be));
        let a = self.a.shape.after(s.a);
        let b = self.b.shape.after(s.b);
        let next = Situation {
            a,
            b,
            wa: s.wa | ae.is_some(),
            wb: s.wb | be.is_some(),
            ..Situation::default()
        };
        Tick { pause, exit, next }
    }
}
