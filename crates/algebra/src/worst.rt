// The worst: the larger of two, the sum held at the top. Beside it, best says why the two are two types.
ghost use Rattle.std.specs.Prelude.{◌≤◌, Some};
ghost use Rattle.algebra.specs.Words.{cycles_words};
ghost use Rattle.algebra.specs.Models.{worst};
ghost use Rattle.algebra.specs.HeldLemmas.{larger_assoc, larger_comm, larger_self, sum_assoc, sum_comm, sum_zero, sum_larger, larger_chooses, decides_same};

use crate::algebra::{Algebra, Choosing};
use crate::cycles::Cycles;
use crate::label::Label;
use std::fmt;

#[derive(Clone, Copy, PartialEq, Eq, Debug)]
pub struct Worst {
    pub cycles: u32,
    ghost within: { cycles ≤ 4294967295 },
}

impl Algebra for Worst {
    ghost model = { worst };

    ghost means = { λ w. record { amount = w.cycles; within = w.within } };

    ghost same = { λ a b. decides_same _ _ };

    ghost join_assoc = { larger_assoc };

    ghost join_comm = { larger_comm };

    ghost join_self = { larger_self };

    ghost add_assoc = { sum_assoc };

    ghost add_comm = { sum_comm };

    ghost add_unit = { sum_zero };

    ghost add_join = { sum_larger };

    ghost chosen = { λ says. larger_chooses };

    fn unit() -> Worst {
        Worst { cycles: 0 }
    }

    fn weigh(label: Label) -> Worst {
        Worst {
            cycles: label.cycles,
        }
    }

    fn join(self, other: Worst) -> Worst {
        Worst {
            cycles: self.cycles.max(other.cycles),
        }
    }

    fn add(self, other: Worst) -> Worst {
        Worst {
            cycles: self.cycles.saturating_add(other.cycles),
        }
    }

    fn chooses() -> bool {
        true
    }
}

impl Choosing for Worst {
    fn chooses_always() -> bool {
        true
    }
}

impl fmt::Display for Worst {
    ghost output = { λ sum. Some (cycles_words sum.cycles) };

    fn fmt<W: fmt::Write>(&self, f: &mut fmt::Formatter<W>) -> fmt::Result {
        Cycles(self.cycles).fmt(f)
    }
}
