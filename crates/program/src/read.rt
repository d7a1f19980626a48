// Reads one record from the first bytes of a file, or of what is left of one.
ghost use Rattle.std.specs.Prelude.{◌≡◌, MatchResult};
ghost use Rattle.program.specs.Bodies.{Misfits};
ghost use Rattle.program.specs.Entries.{entry};
ghost use Rattle.program.specs.Format.{kind as kind_of, body as body_of, FitsBody, Spells, Stops};

use crate::bodies::{shelf, shelves, step, table};
use crate::fault::Fault;
use crate::kind::Kind;
use crate::record::Record;
use crate::refusal::Refusal;
use std::alloc::Global;

// The record of a kind with this body: each kind makes a case of its own, so a match is plainest.
fn record(heap: Global, kind: Kind, body: &[u8]) -> Result<Record, Fault>
    ensures { MatchResult result (λ x. (kind_of (entry x) ≡ kind) × FitsBody (entry x) × (body.now ≡ body_of (entry x))) (λ e. Misfits e kind body.now) }
{
    match kind {
        Kind::Node => {
            let (shelf, label) = step(body)?;
            Ok(Record::Node { shelf, label })
        }
        Kind::Pause => {
            let (shelf, label) = step(body)?;
            Ok(Record::Pause { shelf, label })
        }
        Kind::Table => {
            let (shelf, arcs) = table(heap, body)?;
            Ok(Record::Table { shelf, arcs })
        }
        Kind::Choice => {
            let (first, second) = shelves(body)?;
            Ok(Record::Choice { first, second })
        }
        Kind::Sequence => {
            let (first, second) = shelves(body)?;
            Ok(Record::Sequence { first, second })
        }
        Kind::Loop => {
            let shelf = shelf(body)?;
            Ok(Record::Loop { shelf })
        }
        Kind::Fork => {
            let (first, second) = shelves(body)?;
            Ok(Record::Fork { first, second })
        }
        Kind::Abort => {
            let (first, second) = shelves(body)?;
            Ok(Record::Abort { first, second })
        }
        Kind::Clear => {
            let shelf = shelf(body)?;
            Ok(Record::Clear { shelf })
        }
    }
}

// The record in the first bytes, with the bytes after it; or the first question of a record that the bytes answer no.
pub fn read(heap: Global, bytes: &[u8]) -> Result<(Record, &[u8]), Fault>
    ensures { MatchResult result (λ x. Spells bytes.now (entry x.0) x.1.now) (λ e. Stops e bytes.now) }
{
    let [l0, l1, k0, k1, rest @ ..] = bytes else {
        return Err(Fault::Refused(Refusal::Cut));
    };
    let length = usize::from(u16::from_le_bytes([*l0, *l1]));
    if length < 4 || rest.len() < length - 4 {
        return Err(Fault::Refused(Refusal::Cut));
    }
    let (body, rest) = rest.split_at(length - 4);
    let kind = Kind::try_from(u16::from_le_bytes([*k0, *k1]))?;
    let record = record(heap, kind, body)?;
    Ok((record, rest))
}
