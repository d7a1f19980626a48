// Writes one record.
ghost use Rattle.std.specs.Prelude.{◌≡◌, ◌<◌, ◌∷◌, ◌++◌, length, MatchResult, OnOk, All};
ghost use Rattle.std.specs.List.{flat_map};
ghost use Rattle.program.specs.Entries.{entry};
ghost use Rattle.program.specs.Format.{two, label_bytes, arc_bytes, FitsLabel, FitsArc, FitsBody, Fits, Resists, long, body as body_of, bytes};

use crate::record::Record;
use crate::unwritten::Unwritten;
use algebra::arc::Arc;
use algebra::label::Label;
use std::alloc::{AllocError, Global};

// Each of these says what it appends: that is its own, and a word for the equation would be no plainer.
fn put_label(out: &mut Vec<u8>, label: Label) -> Result<(), AllocError>
    ensures { OnOk result (FitsLabel label × (out.new.items ≡ out.old.items ++ label_bytes label)) }
{
    out.extend_from_slice(&label.cycles.to_le_bytes())?;
    out.extend_from_slice(&label.ports.to_le_bytes())?;
    Ok(())
}

fn put_arc(out: &mut Vec<u8>, arc: Arc) -> Result<(), AllocError>
    ensures { OnOk result (FitsArc arc × (out.new.items ≡ out.old.items ++ arc_bytes arc)) }
{
    out.extend_from_slice(&[arc.from, arc.to])?;
    put_label(out, arc.label)?;
    Ok(())
}

fn put_arcs(out: &mut Vec<u8>, arcs: &[Arc]) -> Result<(), AllocError>
    ensures { OnOk result (All FitsArc arcs.now × (out.new.items ≡ out.old.items ++ flat_map arc_bytes arcs.now)) }
{
    for arc in arcs {
        put_arc(out, *arc)?;
    }
    Ok(())
}

fn put_step(out: &mut Vec<u8>, shelf: u8, label: Label) -> Result<(), AllocError>
    ensures { OnOk result ((shelf < 256) × FitsLabel label × (out.new.items ≡ out.old.items ++ (shelf ∷ label_bytes label))) }
{
    out.push(shelf)?;
    put_label(out, label)?;
    Ok(())
}

fn put_table(out: &mut Vec<u8>, shelf: u8, arcs: &[Arc]) -> Result<(), AllocError>
    requires { length arcs.now < 65536 }
    ensures { OnOk result ((shelf < 256) × All FitsArc arcs.now × (out.new.items ≡ out.old.items ++ (shelf ∷ two (length arcs.now) ++ flat_map arc_bytes arcs.now))) }
{
    let count = arcs.len() as u16;
    out.push(shelf)?;
    out.extend_from_slice(&count.to_le_bytes())?;
    put_arcs(out, arcs)?;
    Ok(())
}

fn put_body(out: &mut Vec<u8>, written: &Record) -> Result<(), AllocError>
    requires { long (entry written.now) < 65536 }
    ensures { OnOk result (FitsBody (entry written.now) × (out.new.items ≡ out.old.items ++ body_of (entry written.now))) }
{
    // A match, since cases that are written alike go by what they hold.
    match written {
        Record::Node { shelf, label } | Record::Pause { shelf, label } => {
            put_step(out, *shelf, *label)
        }
        Record::Table { shelf, arcs } => put_table(out, *shelf, arcs.as_slice()),
        Record::Choice { first, second }
        | Record::Sequence { first, second }
        | Record::Fork { first, second }
        | Record::Abort { first, second } => out.extend_from_slice(&[*first, *second]),
        Record::Loop { shelf } | Record::Clear { shelf } => out.extend_from_slice(&[*shelf]),
    }
}

// The bytes of a record.
pub fn write(heap: Global, written: &Record) -> Result<Vec<u8>, Unwritten>
    ensures { MatchResult result (λ v. Fits (entry written.now) × (v.items ≡ bytes (entry written.now))) (λ e. Resists e (entry written.now)) }
{
    let length = written.length().ok_or(Unwritten::Long)?;
    let mut out = Vec::new(heap);
    out.extend_from_slice(&length.to_le_bytes())?;
    out.extend_from_slice(&written.kind().number().to_le_bytes())?;
    put_body(&mut out, written)?;
    Ok(out)
}
