// Algebras that are printed: their names, and the words of their figures.
#![tactic(auto)]

ghost use Rattle.std.specs.Prelude.{◌≡◌, ℕ, List, Some, codes, decimal, refl};
ghost use Rattle.algebra.specs.Words.{cycles_words};

use algebra::algebra::Algebra;
use algebra::best::Best;
use algebra::ports::Ports;
use algebra::worst::Worst;
use std::fmt::Display;

// Its name, and the words of a figure, which is printed by itself.
pub trait Shown: Algebra + Display {
    ghost named: { List ℕ };

    ghost words: { Self → List ℕ };

    fn name() -> &'static str
        ensures { result.now ≡ named };

    // a figure prints its words
    ghost prints: { (v : Self) → Self.output v ≡ Some (words v) };
}

// An impl for each, as worst and best are two types for a reason that stands beside best.
impl Shown for Worst {
    ghost named = { codes "worst" };

    ghost words = { λ v. cycles_words v.cycles };

    ghost prints = { λ v. refl };

    fn name() -> &'static str {
        "worst"
    }
}

impl Shown for Best {
    ghost named = { codes "best" };

    ghost words = { λ v. cycles_words v.cycles };

    ghost prints = { λ v. refl };

    fn name() -> &'static str {
        "best"
    }
}

impl Shown for Ports {
    ghost named = { codes "ports" };

    ghost words = { λ v. decimal v.bits };

    ghost prints = { λ v. refl };

    fn name() -> &'static str {
        "ports"
    }
}
