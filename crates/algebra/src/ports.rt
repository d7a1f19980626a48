// The ports used: both the join and the sum are the union.
ghost use Rattle.std.specs.Prelude.{Some, decimal};
ghost use Rattle.algebra.specs.Models.{ports as model_of_ports};
ghost use Rattle.algebra.specs.Bits.{or_assoc, or_or};
ghost use Rattle.std.proofs.lemmas.Nat.{or_comm};
ghost use Rattle.std.specs.Int.Bits.{or_self, or_zero_r};
ghost use Rattle.std.proofs.lemmas.Bool.{false≢true};
ghost use Rattle.std.proofs.lemmas.Bool.Decides.{Decides-eqb};

use crate::algebra::Algebra;
use crate::label::Label;
use std::fmt;

#[derive(Clone, Copy, PartialEq, Eq, Debug)]
pub struct Ports {
    // one bit for each port
    pub bits: u32,
}

impl Algebra for Ports {
    ghost model = { model_of_ports };

    ghost means = { λ p. p.bits };

    ghost same = { λ a b. Decides-eqb _ _ };

    ghost join_assoc = { or_assoc };

    ghost join_comm = { or_comm };

    ghost join_self = { or_self };

    ghost add_assoc = { or_assoc };

    ghost add_comm = { or_comm };

    ghost add_unit = { or_zero_r };

    ghost add_join = { or_or };

    ghost chosen = { λ says. absurd (false≢true says) };

    fn unit() -> Ports {
        Ports { bits: 0 }
    }

    fn weigh(label: Label) -> Ports {
        Ports { bits: label.ports }
    }

    fn join(self, other: Ports) -> Ports {
        Ports {
            bits: self.bits | other.bits,
        }
    }

    fn add(self, other: Ports) -> Ports {
        self.join(other)
    }

    fn chooses() -> bool {
        false
    }
}

// As a number.
impl fmt::Display for Ports {
    ghost output = { λ p. Some (decimal p.bits) };

    fn fmt<W: fmt::Write>(&self, f: &mut fmt::Formatter<W>) -> fmt::Result {
        self.bits.fmt(f)
    }
}
