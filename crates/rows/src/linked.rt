// A table whose arcs are in chains by the state that they begin at: those of a situation are gathered along its states' chains.
ghost use Rattle.std.specs.Prelude.{◌≡◌, ◌==◌, map, take};
ghost use Rattle.rows.specs.Chains.{keys};
ghost use Rattle.rows.specs.Gathered.{together, gathered, held};
ghost use Rattle.rows.specs.Sets.{has as has_member};
ghost use Rattle.rows.specs.Rules.Table.{table as the_table};

use crate::cells::Kept;
use crate::chains::Chains;
use crate::rule::{RowRule, Tick};
use crate::sets::has;
use crate::situation::Situation;
use crate::table::{Gathered, Table};
use algebra::algebra::Algebra;
use algebra::arc::Arc;

#[derive(Drop)]
pub struct Linked<'a> {
    pub table: Table<'a>,
    // the first 1,024 arcs by the state that they begin at, which are all that a rack's table has
    chains: Chains<1024>,
    ghost keyed: { keys chains.links.items ≡ map (λ a. a.from) (take 1024 table.arcs.now) },
}

impl<'a> Linked<'a> {
    pub fn new(arcs: &'a [Arc]) -> Linked<'a>
        ensures { result.table.arcs.now ≡ arcs.now }
    {
        let mut chains = Chains::new();
        for arc in &arcs[..arcs.len().min(1024)] {
            chains.push(arc.from);
        }
        Linked {
            table: Table { arcs },
            chains,
        }
    }

    // With the arcs from a state, of those in chains.
    fn from_state<V: Algebra>(&self, sofar: Gathered<V>, state: u8) -> Gathered<V>
        ensures { held V.model V.means result ≡ together V.model (held V.model V.means sofar) (gathered V.model (λ a. a.from == state) (take 1024 self.now.table.arcs.now)) }
    {
        let mut all = sofar;
        // a `while`: a chain's iterator would not be known to end
        let mut next = self.chains.head(state);
        while let Some(number) = next {
            let k = number as usize;
            all = all.with(self.table.arcs[k]);
            next = self.chains.before(k);
        }
        all
    }

    // The arcs of the set's states, of those in chains.
    fn chained<V: Algebra>(&self, set: u64) -> Gathered<V>
        ensures { held V.model V.means result ≡ gathered V.model (λ a. has_member set a.from) (take 1024 self.now.table.arcs.now) }
    {
        // no state is past the highest of the set
        let states = 64 - set.leading_zeros() as u8;
        (0..states).filter(|&state| has(set, state as usize)).fold(
            Gathered::nothing(),
            |sofar, state| self.from_state(sofar, state),
        )
    }

    // All arcs of the set's states.
    fn follow<V: Algebra>(&self, set: u64) -> Gathered<V>
        ensures { held V.model V.means result ≡ gathered V.model (λ a. has_member set a.from) self.now.table.arcs.now }
    {
        let arcs = self.table.arcs;
        self.chained(set)
            .with_all(set, &arcs[arcs.len().min(1024)..])
    }
}

impl RowRule for Linked<'_> {
    ghost fits = { λ r s. Unit {0} };

    ghost works = { λ r m cells. the_table m r.table.arcs.now };

    fn first<V: Algebra>(&self) -> Situation {
        self.table.first::<V>()
    }

    fn look<V: Algebra>(&self, kept: &Kept<V>, s: Situation) -> Tick<V> {
        self.follow(s.set).tick()
    }
}
