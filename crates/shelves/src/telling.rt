// Telling of a shelf: the figure of its rows, and the first tick that reaches it.
ghost use Rattle.std.specs.Prelude.{◌≡◌, ◌≤◌, true, length, take, Some as present};
ghost use Rattle.std.specs.Option.{option_map};
ghost use Rattle.algebra.specs.Coefficients.{join as joined};
ghost use Rattle.rows.specs.Phases.{IsPhase};
ghost use Rattle.rows.specs.Pieces.{rows_of, meanings, pause_at, exit_at};
ghost use Rattle.shelves.specs.Effects.{figure_of, FirstTick, Reports};
ghost use Rattle.shelves.specs.Told.{given, report_of};

use crate::report::Report;
use algebra::algebra::Algebra;
use algebra::coefficient::{equal, join};
use rows::cells::{Kept, Read};
use rows::piece::{Piece, Row};

// A piece with the cells that keep it.
#[derive(Drop)]
pub(crate) struct Shown<'a, V> {
    pub(crate) piece: Piece,
    pub(crate) kept: Kept<'a, V>,
}

impl<'a, V: Algebra> Shown<'a, V> {
    // Both rows joined at phase k, which is the tick k too.
    fn both(&self, k: usize) -> Option<V>
        requires { IsPhase self.now.piece.shape k }
        ensures { let rows = given V.model V.means self.now in option_map V.means result ≡ joined V.model (pause_at rows k) (exit_at rows k) }
    {
        join(
            self.piece.at(Row::Pause, &self.kept, k),
            self.piece.at(Row::Exit, &self.kept, k),
        )
    }

    // The join of both rows over all phases.
    fn figure(&self) -> Option<V>
        ensures { option_map V.means result ≡ figure_of V.model (given V.model V.means self.now) }
    {
        (0..self.piece.shape.size())
            .map(|k| self.both(k))
            .fold(None, join)
    }

    // The first tick at which both rows joined are the figure: where the algebra chooses, some phase has it.
    fn first_tick(&self, figure: Option<V>) -> usize
        requires chooses { V.model.chooses ≡ true }
        requires whole { option_map V.means figure ≡ figure_of V.model (given V.model V.means self.now) }
        ensures { FirstTick V.model true (option_map V.means figure) (given V.model V.means self.now) (present result) }
    {
        (0..self.piece.shape.size())
            .find(|tick| equal(self.both(*tick), figure))
            .unwrap()
    }

    // The report of the piece.
    pub(crate) fn report(&self) -> Report<V>
        ensures { Reports V.model (given V.model V.means self.now) (report_of V.model V.means result) }
    {
        let figure = self.figure();
        // move: borrowed, what is shown would be lost to what is proved of the tick
        let tick = V::chooses().then(move || self.first_tick(figure));
        Report {
            figure,
            tick,
            transient: self.piece.shape.transient,
            period: self.piece.shape.period,
        }
    }
}

// The report of a piece on the shelves, which are the first 2,048 cells.
pub fn report<V: Algebra>(cells: &[Option<V>], piece: Piece) -> Report<V>
    requires { 2048 ≤ length cells.now }
    ensures { Reports V.model (rows_of V.model (meanings V.means (take 2048 cells.now)) piece) (report_of V.model V.means result) }
{
    let kept = Read {
        cells: &cells[..2048],
    };
    Shown { piece, kept }.report()
}
