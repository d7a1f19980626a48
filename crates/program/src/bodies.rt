// What stands after a record's length and kind, read from the whole of its bytes.
ghost use Rattle.std.specs.Prelude.{◌≡◌, ◌≢◌, ◌<◌, [], ◌∷◌, ◌++◌, length, map, All, IfOk, MatchResult};
ghost use Rattle.std.specs.List.{flat_map};
ghost use Rattle.program.specs.declared.kind.Kind.TheVariants.{Table as TableKind};
ghost use Rattle.program.specs.declared.refusal.Refusal.TheVariants.{Misfit};
ghost use Rattle.program.specs.Format.{FitsLabel, FitsArc, two, label_bytes, arc_bytes};
ghost use Rattle.program.specs.Bodies.{Misfits};

use crate::fault::Fault;
use crate::refusal::Refusal;
use algebra::arc::Arc;
use algebra::label::Label;
use std::alloc::{AllocError, Global};

// So many bytes and no more.
fn bytes<const N: usize>(body: &[u8]) -> Result<&[u8; N], Refusal>
    ensures { MatchResult result (λ b. body.now ≡ b.now) (λ e. (e ≡ Misfit) × (length body.now ≢ N)) }
{
    body.as_array().ok_or(Refusal::Misfit)
}

// A shelf alone.
pub fn shelf(body: &[u8]) -> Result<u8, Refusal>
    ensures { MatchResult result (λ s. (s < 256) × (body.now ≡ s ∷ [])) (λ e. (e ≡ Misfit) × (length body.now ≢ 1)) }
{
    let [shelf] = *bytes::<1>(body)?;
    Ok(shelf)
}

// Two shelves.
pub fn shelves(body: &[u8]) -> Result<(u8, u8), Refusal>
    ensures { MatchResult result (λ s. (s.0 < 256) × (s.1 < 256) × (body.now ≡ s.0 ∷ s.1 ∷ [])) (λ e. (e ≡ Misfit) × (length body.now ≢ 2)) }
{
    let [first, second] = *bytes::<2>(body)?;
    Ok((first, second))
}

fn label(bytes: &[u8; 8]) -> Label
    ensures { FitsLabel result × (bytes.now ≡ label_bytes result) }
{
    let [c0, c1, c2, c3, p0, p1, p2, p3] = *bytes;
    let cycles = u32::from_le_bytes([c0, c1, c2, c3]);
    let ports = u32::from_le_bytes([p0, p1, p2, p3]);
    Label { cycles, ports }
}

// A shelf and a label.
pub fn step(body: &[u8]) -> Result<(u8, Label), Refusal>
    ensures { MatchResult result (λ s. (s.0 < 256) × FitsLabel s.1 × (body.now ≡ s.0 ∷ label_bytes s.1)) (λ e. (e ≡ Misfit) × (length body.now ≢ 9)) }
{
    let [shelf, rest @ ..] = body else {
        return Err(Refusal::Misfit);
    };
    Ok((*shelf, label(bytes(rest)?)))
}

fn arc(bytes: &[u8; 10]) -> Arc
    ensures { FitsArc result × (bytes.now ≡ arc_bytes result) }
{
    // All ten by name: a label's eight bytes as the rest of the pattern are not proved yet.
    let [from, to, c0, c1, c2, c3, p0, p1, p2, p3] = *bytes;
    let label = label(&[c0, c1, c2, c3, p0, p1, p2, p3]);
    Arc { from, to, label }
}

fn arcs(heap: Global, chunks: &[[u8; 10]]) -> Result<Vec<Arc>, AllocError>
    ensures fits { IfOk result (λ v. All FitsArc v.items) }
    ensures bytes { IfOk result (λ v. map arc_bytes v.items ≡ chunks.now) }
{
    chunks.iter().map(arc).collect(heap)
}

// A shelf and its arcs: the count of arcs, and as many.
pub fn table(heap: Global, body: &[u8]) -> Result<(u8, Vec<Arc>), Fault>
    ensures { MatchResult result (λ t. (t.0 < 256) × All FitsArc t.1.items × (body.now ≡ t.0 ∷ two (length t.1.items) ++ flat_map arc_bytes t.1.items)) (λ e. Misfits e TableKind body.now) }
{
    let [shelf, n0, n1, rest @ ..] = body else {
        return Err(Fault::Refused(Refusal::Misfit));
    };
    let count = u16::from_le_bytes([*n0, *n1]);
    if rest.len() != 10 * usize::from(count) {
        return Err(Fault::Refused(Refusal::Misfit));
    }
    let (chunks, _) = rest.as_chunks();
    let arcs = arcs(heap, chunks)?;
    Ok((*shelf, arcs))
}
