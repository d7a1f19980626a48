// The weights of the labels of records, added under any algebra.
ghost use Rattle.std.specs.Prelude.{◌≡◌, min, map, length};
ghost use Rattle.program.specs.Entries.{entry};
ghost use Rattle.program.specs.Weights.{labels, all_labels, added};

use crate::record::Record;
use algebra::algebra::Algebra;
use algebra::arc::Arc;

fn add_arcs<V: Algebra>(start: V, arcs: &[Arc]) -> V
    ensures { V.means result ≡ added V.model (V.means start) (map (λ a. a.label) arcs.now) }
{
    arcs.iter()
        .fold(start, |sum, arc| sum.add(V::weigh(arc.label)))
}

fn add_labels<V: Algebra>(start: V, more: &Record) -> V
    ensures { V.means result ≡ added V.model (V.means start) (labels (entry more.now)) }
{
    // a match, since each case has arguments of its own
    match more {
        Record::Node { label, .. } | Record::Pause { label, .. } => start.add(V::weigh(*label)),
        Record::Table { arcs, .. } => add_arcs(start, arcs.as_slice()),
        Record::Choice { .. } | Record::Sequence { .. } => start,
        Record::Fork { .. } | Record::Abort { .. } => start,
        Record::Loop { .. } | Record::Clear { .. } => start,
    }
}

// The unit with the weight of every label added, in order.
pub fn weight<V: Algebra>(records: &[Record]) -> V
    ensures { V.means result ≡ added V.model V.model.unit (all_labels records.now) }
{
    records.iter().fold(V::unit(), add_labels)
}

fn label_count(of: &Record) -> usize
    ensures { result ≡ length (labels (entry of.now)) }
{
    // a match, since each case has arguments of its own
    match of {
        Record::Node { .. } | Record::Pause { .. } => 1,
        Record::Table { arcs, .. } => arcs.len(),
        Record::Choice { .. } | Record::Sequence { .. } => 0,
        Record::Fork { .. } | Record::Abort { .. } => 0,
        Record::Loop { .. } | Record::Clear { .. } => 0,
    }
}

// How many labels there are, held at the largest number.
pub fn count(records: &[Record]) -> usize
    ensures { result ≡ min (length (all_labels records.now)) 18446744073709551615 }
{
    records
        .iter()
        .map(label_count)
        .fold(0usize, |sum, more| sum.saturating_add(more))
}
