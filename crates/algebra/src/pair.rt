// Any two algebras side by side, half by half. Join and add stand apart: a function of both would take two closures, and
// be as long.
ghost use Rattle.algebra.specs.Models.{pair as pair_of};
ghost use Rattle.std.proofs.Common.{rules};

use crate::algebra::Algebra;
use crate::label::Label;

#[derive(Clone, Copy, PartialEq, Eq, Debug)]
pub struct Pair<A, B> {
    pub first: A,
    pub second: B,
}

impl<A: Algebra, B: Algebra> Algebra for Pair<A, B> {
    ghost model = { pair_of A.Algebra.model B.Algebra.model };

    ghost means = { λ p. (A.Algebra.means p.first, B.Algebra.means p.second) };

    ghost same = { Prim.search rules };

    ghost join_assoc = { Prim.search rules };

    ghost join_comm = { Prim.search rules };

    ghost join_self = { Prim.search rules };

    ghost add_assoc = { Prim.search rules };

    ghost add_comm = { Prim.search rules };

    ghost add_unit = { Prim.search rules };

    ghost add_join = { Prim.search rules };

    ghost chosen = { Prim.search rules };

    fn unit() -> Pair<A, B> {
        Pair {
            first: A::unit(),
            second: B::unit(),
        }
    }

    fn weigh(label: Label) -> Pair<A, B> {
        Pair {
            first: A::weigh(label),
            second: B::weigh(label),
        }
    }

    fn join(self, other: Pair<A, B>) -> Pair<A, B> {
        Pair {
            first: self.first.join(other.first),
            second: self.second.join(other.second),
        }
    }

    fn add(self, other: Pair<A, B>) -> Pair<A, B> {
        Pair {
            first: self.first.add(other.first),
            second: self.second.add(other.second),
        }
    }

    fn chooses() -> bool {
        false
    }
}
