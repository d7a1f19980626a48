// Table: the set of states current at the tick. The arcs that begin in it are gathered.
ghost use Rattle.std.specs.Prelude.{◌≡◌, false};
ghost use Rattle.std.specs.Option.{option_map};
ghost use Rattle.rows.specs.Gathered.{nothing, one, together, gathered, held};
ghost use Rattle.rows.specs.Sets.{has as has_member};
ghost use Rattle.rows.specs.Rules.Rule.{situation as a_situation};
ghost use Rattle.rows.specs.Rules.Table.{table as the_table};

use crate::cells::Kept;
use crate::rule::{RowRule, Tick};
use crate::sets::{has, with};
use crate::situation::Situation;
use algebra::algebra::Algebra;
use algebra::arc::Arc;
use algebra::coefficient::join;

// All arcs are gone through for each situation; `Linked` follows those of its states alone.
#[derive(Clone, Copy)]
pub struct Table<'a> {
    pub arcs: &'a [Arc],
}

// Arcs joined: those that stay, those that lead out, and the states that the first lead to.
#[derive(Clone, Copy)]
pub(crate) struct Gathered<V> {
    pub(crate) stay: Option<V>,
    pub(crate) out: Option<V>,
    pub(crate) states: u64,
}

impl<V: Algebra> Gathered<V> {
    pub(crate) fn nothing() -> Gathered<V>
        ensures { held V.model V.means result ≡ nothing V.model }
    {
        Gathered {
            stay: None,
            out: None,
            states: 0,
        }
    }

    pub(crate) fn with(self, arc: Arc) -> Gathered<V>
        ensures { held V.model V.means result ≡ together V.model (held V.model V.means self) (one V.model arc) }
    {
        let weight = Some(V::weigh(arc.label));
        if arc.to < 64 {
            Gathered {
                stay: join(self.stay, weight),
                states: with(self.states, arc.to as usize),
                ..self
            }
        } else {
            Gathered {
                out: join(self.out, weight),
                ..self
            }
        }
    }

    // With those of the arcs that begin in the set.
    pub(crate) fn with_all(self, set: u64, arcs: &[Arc]) -> Gathered<V>
        ensures { held V.model V.means result ≡ together V.model (held V.model V.means self) (gathered V.model (λ a. has_member set a.from) arcs.now) }
    {
        arcs.iter()
            .filter(|arc| begins(set, **arc))
            .fold(self, |sofar, arc| sofar.with(*arc))
    }

    // What the arcs of a situation's set come to at its tick.
    pub(crate) fn tick(self) -> Tick<V>
        ensures pause { option_map V.means result.pause ≡ (held V.model V.means self).stay }
        ensures exit { option_map V.means result.exit ≡ (held V.model V.means self).out }
        ensures next { result.next ≡ a_situation 0 0 (held V.model V.means self).states false false }
    {
        let next = Situation {
            set: self.states,
            ..Situation::default()
        };
        Tick {
            pause: self.stay,
            exit: self.out,
            next,
        }
    }
}

// Does the arc begin at a member of the set?
fn begins(set: u64, arc: Arc) -> bool
    ensures { result ≡ has_member set arc.from }
{
    arc.from < 64 && has(set, arc.from as usize)
}

impl<'a> Table<'a> {
    pub fn new(arcs: &'a [Arc]) -> Table<'a>
        ensures { result.arcs.now ≡ arcs.now }
    {
        Table { arcs }
    }

    // All arcs of the set's states.
    fn follow<V: Algebra>(&self, set: u64) -> Gathered<V>
        ensures { held V.model V.means result ≡ gathered V.model (λ a. has_member set a.from) self.now.arcs.now }
    {
        Gathered::nothing().with_all(set, self.arcs)
    }
}

impl RowRule for Table<'_> {
    ghost fits = { λ r s. Unit {0} };

    ghost works = { λ r m cells. the_table m r.arcs.now };

    fn first<V: Algebra>(&self) -> Situation {
        Situation {
            set: 1,
            ..Situation::default()
        }
    }

    fn look<V: Algebra>(&self, kept: &Kept<V>, s: Situation) -> Tick<V> {
        self.follow(s.set).tick()
    }
}
