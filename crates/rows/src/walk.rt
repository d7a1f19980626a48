// The walk of a rule: situations from the first on, noted with their rows until one equals an earlier one.
ghost use Rattle.std.specs.Prelude.{◌≡◌, ℕ, ◌-◌, ◌<◌, ◌≤◌, length, take, MatchOption, MatchResult};
ghost use Rattle.rows.specs.Filled.{SamePast};
ghost use Rattle.rows.specs.Pieces.{meanings, on_shelves};
ghost use Rattle.rows.specs.Repeats.{Repeats, NoRepeat};
ghost use Rattle.rows.specs.Rules.Rule.{Rule, at, rows};
ghost use Rattle.rows.specs.Search.{noted};
ghost use Rattle.rows.specs.Walked.{Walked, Comes};

use crate::cells::Cells;
use crate::rule::{RowRule, Tick};
use crate::situation::Situation;
use crate::situations::Situations;
use algebra::algebra::Algebra;

// A situation that equals an earlier one, by their numbers: the ticks from the earlier one up to it are a round.
#[derive(Clone, Copy, Debug, PartialEq, Eq)]
pub struct Turn {
    pub number: usize,
    pub earlier: usize,
    ghost order: { earlier < number },
    ghost soon: { number < 1024 },
}

// A situation that equals an earlier one makes both rows repeat from there, with the distance as a period.
pub fn repeating_stands<V: Algebra>()
    ensures { (rule : Rule V.model) (i n : ℕ) → i < n → at rule i ≡ at rule n → Repeats (rows rule) i (n - i) }
{}

// Most walks are shorter than this, and room for 1,024 situations takes longer to set up than they do.
const FEW: usize = 16;

// Goes on with a walk, from its next situation, while there is room to note situations. Err gives the one that then comes.
fn go_on<R: RowRule, V: Algebra, const N: usize>(
    rule: &R,
    cells: &mut Cells<V>,
    seen: &mut Situations<N>,
    next: Situation,
) -> Result<Turn, Situation>
    requires room { (length seen.old.noted.items ≤ N) × (N ≤ 1024) }
    requires fits { R.RowRule.fits rule.now next }
    requires walked { Walked (R.RowRule.works rule.now V.Algebra.model (on_shelves V.Algebra.means cells.old)) (length seen.old.noted.items) next seen.old.noted.items (meanings V.Algebra.means cells.old.lent.now) }
    ensures same { cells.new.lent.ghost_name ≡ cells.old.lent.ghost_name }
    ensures below { take 2048 cells.new.lent.now ≡ take 2048 cells.old.lent.now }
    ensures past { SamePast cells.old.lent.now cells.new.lent.now }
    ensures cases { let over = R.RowRule.works rule.now V.Algebra.model (on_shelves V.Algebra.means cells.old) in MatchResult result (λ t. Comes over (meanings V.Algebra.means cells.new.lent.now) t.earlier t.number) (λ s. (length seen.new.noted.items ≡ N) × R.RowRule.fits rule.now s × Walked over N s seen.new.noted.items (meanings V.Algebra.means cells.new.lent.now)) }
{
    let mut s = next;
    // n is the number that is answered and the tick that is noted
    for n in seen.noted.len()..N {
        if let Some(earlier) = seen.find(s) {
            return Ok(Turn { number: n, earlier });
        }
        seen.push(s);
        let Tick { pause, exit, next } = rule.look(&cells.kept(), s);
        cells.note(n, pause, exit);
        s = next;
    }
    Err(s)
}

// Notes situations, and their rows in the working cells, up to the first situation that equals an earlier one;
// None where none of situations 0 to 1,023 does.
pub fn walk<R: RowRule, V: Algebra>(rule: &R, cells: &mut Cells<V>) -> Option<Turn>
    ensures same { cells.new.lent.ghost_name ≡ cells.old.lent.ghost_name }
    ensures below { take 2048 cells.new.lent.now ≡ take 2048 cells.old.lent.now }
    ensures past { SamePast cells.old.lent.now cells.new.lent.now }
    ensures cases { let over = R.RowRule.works rule.now V.Algebra.model (on_shelves V.Algebra.means cells.old) in MatchOption result (NoRepeat (at over) 1024) (λ t. (at over t.earlier ≡ at over t.number) × NoRepeat (at over) t.number × ((k : ℕ) → k < t.number → noted V.Algebra.model (meanings V.Algebra.means cells.new.lent.now) k ≡ rows over k)) }
{
    let mut few = Situations::<FEW>::new();
    match go_on(rule, cells, &mut few, rule.first::<V>()) {
        Ok(turn) => Some(turn),
        Err(next) => {
            let mut seen = Situations::<1024>::new();
            seen.begin_with(&few);
            go_on(rule, cells, &mut seen, next).ok()
        }
    }
}
