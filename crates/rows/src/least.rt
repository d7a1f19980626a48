// The least shape of the rows noted up to the first repeated situation: the least period, and then the least transient.
ghost use Rattle.std.specs.Prelude.{◌≡◌, ◌+◌, ◌-◌, ◌<◌, ◌≤◌, Decides};
ghost use Rattle.rows.specs.Search.{noted_in, folded, RoundHas, LeastPeriod, LeastTransient};

use crate::cells::Room;
use crate::walk::Turn;
use algebra::algebra::Algebra;
use algebra::coefficient::equal;

impl<'a, V: Algebra> Room<'a, V> {
    // Are pause and exit the same at the two ticks?
    fn same(&self, j: usize, k: usize) -> bool
        requires { (j < 1024) × (k < 1024) }
        ensures { Decides result (noted_in V.model V.means self.now j ≡ noted_in V.model V.means self.now k) }
    {
        let pauses = equal(self.cells[2048 + j], self.cells[2048 + k]);
        let exits = equal(self.cells[3072 + j], self.cells[3072 + k]);
        pauses & exits
    }

    // Is tick k the same as the one d later, taken back into the round?
    fn comes_back(&self, turn: Turn, d: usize, k: usize) -> bool
        requires { (turn.earlier ≤ k) × (k < turn.number) × (d ≤ turn.number - turn.earlier) }
        ensures { Decides result (noted_in V.model V.means self.now (folded turn.earlier turn.number (k + d)) ≡ noted_in V.model V.means self.now k) }
    {
        let later = k + d;
        let back = if later < turn.number {
            later
        } else {
            later - (turn.number - turn.earlier)
        };
        self.same(back, k)
    }

    // Does the round have the period d?
    fn round_has(&self, turn: Turn, d: usize) -> bool
        requires { d ≤ turn.number - turn.earlier }
        ensures { Decides result (RoundHas (noted_in V.model V.means self.now) turn.earlier turn.number d) }
    {
        (turn.earlier..turn.number).all(|k| self.comes_back(turn, d, k))
    }

    // The least period of the round.
    pub fn least_period(&self, turn: Turn) -> usize
        ensures { LeastPeriod (noted_in V.model V.means self.now) turn.earlier turn.number result }
    {
        let round = turn.number - turn.earlier;
        (1..round)
            .find(|d| self.round_has(turn, *d))
            .unwrap_or(round)
    }

    // The least tick from which the rows have the period d up to i.
    pub fn least_transient(&self, i: usize, d: usize) -> usize
        requires { i + d < 1024 }
        ensures { LeastTransient (noted_in V.model V.means self.now) i d result }
    {
        (0..i)
            .rev()
            .find(|k| !self.same(*k + d, *k))
            .map_or(0, |k| k + 1)
    }
}
