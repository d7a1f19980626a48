// What an analysis of one algebra came to, in a line.
ghost use Rattle.std.specs.Prelude.{◌≡◌, Some, IfOk, string_bytes};
ghost use Rattle.lines.specs.Words.{figure_words, tick_words, line_words};

use analyser::fault::Fault;
use shelves::report::Report;
use shown::Shown;
use std::alloc::{AllocError, Global};
use std::fmt;

// A figure, or none where it is absent.
#[derive(Clone, Copy)]
struct Figure<V>(Option<V>);

impl<V: Shown> fmt::Display for Figure<V> {
    ghost output = { λ figure. Some (figure_words V.Shown.words figure.0) };

    fn fmt<W: fmt::Write>(&self, f: &mut fmt::Formatter<W>) -> fmt::Result {
        match self.0 {
            Some(value) => write!(f, "{value}"),
            None => write!(f, "none"),
        }
    }
}

// The first tick, where the algebra names one.
#[derive(Clone, Copy)]
struct Tick(Option<usize>);

impl fmt::Display for Tick {
    ghost output = { λ tick. Some (tick_words tick.0) };

    fn fmt<W: fmt::Write>(&self, f: &mut fmt::Formatter<W>) -> fmt::Result {
        match self.0 {
            Some(first) => write!(f, " tick {first}"),
            None => Ok(()),
        }
    }
}

// What was reported, or what was refused.
#[derive(Clone, Copy)]
struct Outcome<V>(Result<Report<V>, Fault>);

impl<V: Shown> fmt::Display for Outcome<V> {
    ghost output = { λ outcome. Some (line_words V.Shown.named V.Shown.words outcome.0) };

    fn fmt<W: fmt::Write>(&self, f: &mut fmt::Formatter<W>) -> fmt::Result {
        match self.0 {
            Ok(report) => write!(
                f,
                "{} {}{} transient {} period {}",
                V::name(),
                Figure(report.figure),
                Tick(report.tick),
                report.transient,
                report.period
            ),
            Err(fault) => write!(
                f,
                "{} refused {} record {}",
                V::name(),
                fault.why.number(),
                fault.accepted
            ),
        }
    }
}

// The line of an algebra, as a text, so that a contract can say all of it.
pub fn line<V: Shown>(heap: Global, found: Result<Report<V>, Fault>) -> Result<String, AllocError>
    ensures { IfOk result (λ s. string_bytes s ≡ line_words V.Shown.named V.Shown.words found) }
{
    let outcome = Outcome(found);
    format!(in heap; "{outcome}")
}
