// A row rule: it carries a situation from tick to tick, and gives the pause and exit coefficients at each.
ghost use Rattle.std.specs.Prelude.{◌≡◌, List};
ghost use Rattle.std.specs.Option.{option_map};
ghost use Rattle.algebra.specs.Model.{Model};
ghost use Rattle.algebra.specs.Coefficients.{Coef};
ghost use Rattle.rows.specs.declared.situation.Situation.{Situation as Sit};
ghost use Rattle.rows.specs.Pieces.{known};
ghost use Rattle.rows.specs.Rules.Rule.{Rule};

use crate::cells::Kept;
use crate::situation::Situation;
use algebra::algebra::Algebra;

// Pause and exit at a situation, and the situation after it.
#[derive(Clone, Copy)]
pub struct Tick<V> {
    pub pause: Option<V>,
    pub exit: Option<V>,
    pub next: Situation,
}

pub trait RowRule {
    // the situations that index their rows
    ghost fits: { Self → Sit → Type 0 };

    // the rule over the cells of its pieces, for any algebra: its meaning is the two rows of it
    ghost works: { Self → (m : Model) → List (Coef m) → Rule m };

    // no default: each rule proves that its own first situation is this
    fn first<V: Algebra>(&self) -> Situation
        ensures value { (cells : List (Coef V.Algebra.model)) → result ≡ (works self.now V.Algebra.model cells).first }
        ensures fits { fits self.now result };

    fn look<V: Algebra>(&self, kept: &Kept<V>, s: Situation) -> Tick<V>
        requires fits { fits self.now s }
        ensures pause { option_map V.Algebra.means result.pause ≡ (works self.now V.Algebra.model (known V.Algebra.means kept.now)).pause s }
        ensures exit { option_map V.Algebra.means result.exit ≡ (works self.now V.Algebra.model (known V.Algebra.means kept.now)).exit s }
        ensures next { result.next ≡ (works self.now V.Algebra.model (known V.Algebra.means kept.now)).next s }
        ensures fits { fits self.now result.next };
}
