// What a program file holds, in lines.
ghost use Rattle.std.specs.Prelude.{map, IfSome, OnOk};
ghost use Rattle.std.specs.Fmt.{with_newline};
ghost use Rattle.std.specs.Io.KnownBytes.{Appends};
ghost use Rattle.program.specs.Entries.{entry};
ghost use Rattle.tick_list.specs.Listings.{numbered, arc_line, record_lines, figures_words, totals_words, refused_words, Lists};

use crate::lines::Words;
use algebra::arc::Arc;
use algebra::best::Best;
use algebra::ports::Ports;
use algebra::worst::Worst;
use arrayvec::ArrayString;
use program::file::list;
use program::record::Record;
use program::refusal::Refusal;
use program::weights::{count, weight};
use std::alloc::Global;
use std::fmt::{Display, Write as _};
use std::io;
use std::io::Write;

// A line, made in place and written at once. 128 bytes are more than any line here has.
fn put_line<W: Write, D: Display + Drop>(out: &mut W, text: D) -> io::Result<()>
    ensures { OnOk result (IfSome (with_newline (D.output text)) (Appends (W.contents out.old) (W.contents out.new))) }
{
    let mut line = ArrayString::<128>::new();
    line.writeln(text)?;
    out.write_all(line.as_str().as_bytes())
}

// Each of these writes its lines one by one; a `Display` for each would be no plainer, as the arcs go below their record.
fn put_arc<W: Write>(out: &mut W, i: usize, arc: Arc) -> io::Result<()>
    ensures { OnOk result (Appends (W.contents out.old) (W.contents out.new) (arc_line i arc)) }
{
    put_line(out, format_args!("  arc {i} {}", Words(arc)))
}

fn put_arcs<W: Write>(out: &mut W, arcs: &[Arc]) -> io::Result<()>
    ensures { OnOk result (Appends (W.contents out.old) (W.contents out.new) (numbered arc_line 0 arcs.now)) }
{
    for (i, arc) in arcs.iter().enumerate() {
        put_arc(out, i, *arc)?;
    }
    Ok(())
}

// The line of a record, and below it those of its arcs.
fn put_record<W: Write>(out: &mut W, index: usize, of: &Record) -> io::Result<()>
    ensures { OnOk result (Appends (W.contents out.old) (W.contents out.new) (record_lines index (entry of.now))) }
{
    put_line(out, format_args!("record {index} {}", Words(of)))?;
    if let Record::Table { arcs, .. } = of {
        put_arcs(out, arcs.as_slice())?;
    }
    Ok(())
}

fn put_records<W: Write>(out: &mut W, records: &[Record]) -> io::Result<()>
    ensures { OnOk result (Appends (W.contents out.old) (W.contents out.new) (numbered record_lines 0 (map entry records.now))) }
{
    for (i, item) in records.iter().enumerate() {
        put_record(out, i, item)?;
    }
    Ok(())
}

fn put_figures<W: Write>(
    out: &mut W,
    records: usize,
    labels: usize,
    worst: Worst,
    best: Best,
    ports: Ports,
) -> io::Result<()>
    ensures { OnOk result (Appends (W.contents out.old) (W.contents out.new) (figures_words records labels worst.cycles best.cycles ports.bits)) }
{
    put_line(out, format_args!("records {records}"))?;
    put_line(out, format_args!("labels {labels}"))?;
    put_line(out, format_args!("worst {worst}"))?;
    put_line(out, format_args!("best {best}"))?;
    put_line(out, format_args!("ports {ports}"))
}

fn put_totals<W: Write>(out: &mut W, records: &[Record]) -> io::Result<()>
    ensures { OnOk result (Appends (W.contents out.old) (W.contents out.new) (totals_words (map entry records.now))) }
{
    let worst = weight::<Worst>(records);
    let best = weight::<Best>(records);
    let ports = weight::<Ports>(records);
    put_figures(out, records.len(), count(records), worst, best, ports)
}

// Records are numbered from 0, so the one that is refused has the count of those before it.
fn put_refusal<W: Write>(out: &mut W, why: Refusal, before: usize) -> io::Result<()>
    ensures { OnOk result (Appends (W.contents out.old) (W.contents out.new) (refused_words why before)) }
{
    put_line(
        out,
        format_args!("refused {} record {before}", why.number()),
    )
}

// Writes all that is printed of a file. Each line goes out as it is made: none wants memory but that of the records.
pub fn listing<W: Write>(heap: Global, bytes: &[u8], out: &mut W) -> io::Result<()>
    ensures { OnOk result (Lists bytes.now (W.contents out.old) (W.contents out.new)) }
{
    let held = list(heap, bytes)?;
    let records = held.records.as_slice();
    put_records(out, records)?;
    match held.refusal {
        None => put_totals(out, records),
        Some(why) => put_refusal(out, why, records.len()),
    }
}
