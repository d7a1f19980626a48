// Records and arcs in plain words.
ghost use Rattle.std.specs.Prelude.{Some};
ghost use Rattle.program.specs.Entries.{entry};
ghost use Rattle.tick_list.specs.Lines.{label_words, words, end_words, words_of_arc};

use algebra::arc::{Arc, OUT};
use algebra::label::Label;
use program::record::Record;
use std::fmt;

// A value as it is printed in plain words.
#[derive(Clone, Copy)]
pub struct Words<T>(pub T);

// A label, after what it is the label of.
impl fmt::Display for Words<Label> {
    ghost output = { λ w. Some (label_words w.0) };

    fn fmt<W: fmt::Write>(&self, f: &mut fmt::Formatter<W>) -> fmt::Result {
        write!(f, " cycles {} ports {}", self.0.cycles, self.0.ports)
    }
}

// A record, without its arcs.
impl fmt::Display for Words<&Record> {
    ghost output = { λ w. Some (words (entry w.0.now)) };

    fn fmt<W: fmt::Write>(&self, f: &mut fmt::Formatter<W>) -> fmt::Result {
        match self.0 {
            Record::Node { shelf, label } => write!(f, "node shelf {shelf}{}", Words(*label)),
            Record::Pause { shelf, label } => write!(f, "pause shelf {shelf}{}", Words(*label)),
            Record::Table { shelf, arcs } => write!(f, "table shelf {shelf} arcs {}", arcs.len()),
            Record::Choice { first, second } => write!(f, "choice shelves {first} {second}"),
            Record::Sequence { first, second } => write!(f, "sequence shelves {first} {second}"),
            Record::Loop { shelf } => write!(f, "loop shelf {shelf}"),
            Record::Fork { first, second } => write!(f, "fork shelves {first} {second}"),
            Record::Abort { first, second } => write!(f, "abort shelves {first} {second}"),
            Record::Clear { shelf } => write!(f, "clear shelf {shelf}"),
        }
    }
}

// Where an arc leads: to a state, or out.
#[derive(Clone, Copy)]
struct End(u8);

impl fmt::Display for End {
    ghost output = { λ end. Some (end_words end.0) };

    fn fmt<W: fmt::Write>(&self, f: &mut fmt::Formatter<W>) -> fmt::Result {
        if self.0 == OUT {
            f.write_str("out")
        } else {
            write!(f, "{}", self.0)
        }
    }
}

impl fmt::Display for Words<Arc> {
    ghost output = { λ w. Some (words_of_arc w.0) };

    fn fmt<W: fmt::Write>(&self, f: &mut fmt::Formatter<W>) -> fmt::Result {
        let Arc { from, to, label } = self.0;
        write!(f, "from {from} to {}{}", End(to), Words(label))
    }
}
