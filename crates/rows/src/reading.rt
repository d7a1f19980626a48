// Reading a piece's coefficients from what is kept, and joining or moving a set of its phases. A rule has its pieces before
// it is lent what is kept, so the two meet in each call: a struct of both would be made anew at each look.
ghost use Rattle.std.specs.Prelude.{◌≡◌};
ghost use Rattle.std.specs.Option.{option_map};
ghost use Rattle.rows.specs.Phases.{IsPhase};
ghost use Rattle.rows.specs.Pieces.{given, row as row_of, size, moved as phases_after};
ghost use Rattle.rows.specs.Sets.{has as has_member, joins};

use crate::cells::Kept;
use crate::piece::{Piece, Row};
use crate::sets::{has, with};
use algebra::algebra::Algebra;
use algebra::coefficient::join;

impl Piece {
    // The coefficient of a row at phase k.
    pub fn at<V: Algebra>(&self, row: Row, kept: &Kept<V>, k: usize) -> Option<V>
        requires { IsPhase self.now.shape k }
        ensures { option_map V.means result ≡ row_of (given V.model V.means kept.now self.now) row k }
    {
        match row {
            Row::Pause => kept.cells[128 * self.place.shelf + k],
            Row::Exit => kept.cells[128 * self.place.shelf + 64 + k],
        }
    }

    // The join of a row's coefficients over a set of phases.
    pub fn over<V: Algebra>(&self, row: Row, kept: &Kept<V>, set: u64) -> Option<V>
        ensures { option_map V.means result ≡ joins V.model (has_member set) (row_of (given V.model V.means kept.now self.now) row) (size (given V.model V.means kept.now self.now)) }
    {
        (0..self.shape.size())
            .filter(|&k| has(set, k))
            .fold(None, |all, k| join(all, self.at(row, kept, k)))
    }

    // The phase after each member of a set at which pause is present.
    pub fn moved<V: Algebra>(&self, kept: &Kept<V>, set: u64) -> u64
        ensures { result ≡ phases_after (given V.model V.means kept.now self.now) set }
    {
        (0..self.shape.size())
            .filter(
                |&k|
                    requires { IsPhase self.now.shape k }
                { has(set, k) && self.at(Row::Pause, kept, k).is_some() },
            )
            .fold(0, |after, k| with(after, self.shape.after(k)))
    }
}
