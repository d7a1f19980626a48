// The situations of a walk, each with its number, in chains by a small hash.
ghost use Rattle.std.specs.Prelude.{◌≡◌, ℕ, ◌<◌, ◌≤◌, [], ◌∷◌, ◌++◌, length, map, MatchOption};
ghost use Rattle.rows.specs.Chains.{keys};
ghost use Rattle.rows.specs.Situations.{chain as chain_of, nth};

use crate::chains::Chains;
use crate::situation::Situation;
use arrayvec::ArrayVec;

// The first N situations of a walk.
#[derive(Drop)]
pub struct Situations<const N: usize> {
    pub noted: ArrayVec<Situation, N>,
    chains: Chains<N>,
    ghost keyed: { keys chains.links.items ≡ map chain_of noted.items },
}

// The chain of a situation: any function of it would do, and this one spreads pairs of phases and sets of states.
fn chain(s: Situation) -> u8
    ensures { result ≡ chain_of s }
{
    ((s.a % 64 + 37 * (s.b % 64) + (s.set % 227) as usize) % 256) as u8
}

// So far a chain is followed: where a table is made so that its situations share one, a look at all of them is quicker.
const FOLLOWED: usize = 16;

impl<const N: usize> Situations<N> {
    pub fn new() -> Situations<N>
        ensures { result.noted.items ≡ [] }
    {
        Situations {
            noted: ArrayVec::new(),
            chains: Chains::new(),
        }
    }

    // Begins with those of a walk for which there was less room, in place: one that is handed out would be moved.
    pub fn begin_with<const M: usize>(&mut self, few: &Situations<M>)
        requires { (self.old.noted.items ≡ []) × (M ≤ N) × (N ≤ 1024) }
        ensures { self.new.noted.items ≡ few.now.noted.items }
    {
        for s in few.noted.iter() {
            self.push(*s);
        }
    }

    // The number of a situation that equals s.
    pub fn find(&self, s: Situation) -> Option<usize>
        ensures { MatchOption result ((k : ℕ) → k < length self.now.noted.items → nth self.now.noted.items k ≡ s → ⊥) (λ i. (i < length self.now.noted.items) × (nth self.now.noted.items i ≡ s)) }
    {
        let mut next = self.chains.head(chain(s));
        for _ in 0..FOLLOWED {
            let Some(number) = next else {
                return None;
            };
            let k = number as usize;
            if self.noted[k] == s {
                return Some(k);
            }
            next = self.chains.before(k);
        }
        self.noted.iter().position(|noted| *noted == s)
    }

    pub fn push(&mut self, s: Situation)
        requires { (length self.old.noted.items < N) × (N ≤ 1024) }
        ensures { self.new.noted.items ≡ self.old.noted.items ++ s ∷ [] }
    {
        self.chains.push(chain(s));
        self.noted.push(s);
    }
}
