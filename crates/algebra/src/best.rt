// The best: the smaller of two, the sum held at the top. Best and worst are two impls of one trait with its laws: one type
// for both would need a second trait, for the larger and the smaller, that states the same laws again.
ghost use Rattle.std.specs.Prelude.{◌≤◌, Some};
ghost use Rattle.algebra.specs.Words.{cycles_words};
ghost use Rattle.algebra.specs.Models.{best};
ghost use Rattle.algebra.specs.HeldLemmas.{smaller_assoc, smaller_comm, smaller_self, sum_assoc, sum_comm, sum_zero, sum_smaller, smaller_chooses, decides_same};

use crate::algebra::{Algebra, Choosing};
use crate::cycles::Cycles;
use crate::label::Label;
use std::fmt;

#[derive(Clone, Copy, PartialEq, Eq, Debug)]
pub struct Best {
    pub cycles: u32,
    ghost within: { cycles ≤ 4294967295 },
}

impl Algebra for Best {
    ghost model = { best };

    ghost means = { λ w. record { amount = w.cycles; within = w.within } };

    ghost same = { λ a b. decides_same _ _ };

    ghost join_assoc = { smaller_assoc };

    ghost join_comm = { smaller_comm };

    ghost join_self = { smaller_self };

    ghost add_assoc = { sum_assoc };

    ghost add_comm = { sum_comm };

    ghost add_unit = { sum_zero };

    ghost add_join = { sum_smaller };

    ghost chosen = { λ says. smaller_chooses };

    fn unit() -> Best {
        Best { cycles: 0 }
    }

    fn weigh(label: Label) -> Best {
        Best {
            cycles: label.cycles,
        }
    }

    fn join(self, other: Best) -> Best {
        Best {
            cycles: self.cycles.min(other.cycles),
        }
    }

    fn add(self, other: Best) -> Best {
        Best {
            cycles: self.cycles.saturating_add(other.cycles),
        }
    }

    fn chooses() -> bool {
        true
    }
}

impl Choosing for Best {
    fn chooses_always() -> bool {
        true
    }
}

impl fmt::Display for Best {
    ghost output = { λ sum. Some (cycles_words sum.cycles) };

    fn fmt<W: fmt::Write>(&self, f: &mut fmt::Formatter<W>) -> fmt::Result {
        Cycles(self.cycles).fmt(f)
    }
}
